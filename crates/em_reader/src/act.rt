//! What a statement does when its texts are expanded.
ghost use Rattle.std.specs.Prelude.{◌≡◌, ◌++◌, ◌∷◌, ◌&&◌, [], IfOk};
ghost use Rattle.std.specs.List.{list_all, list_any};
ghost use Rattle.em_reader.specs.Acting as acting;
ghost use Rattle.em_reader.specs.Acting.{has_colon, is_pattern_rule, known, matched, or_itself, rule_of};
ghost use Rattle.em_namefn.specs.Wildcards.{glyphs_of};
ghost use Rattle.em_reading.specs.Faults.{is_free};
ghost use Rattle.em_statement.specs.Heads.{head_of, refusal_of};
ghost use Rattle.em_view.specs.Steps.{Does};
ghost use Rattle.em_wordlist.specs.Stems.{is_percent};

use em_base::{NoMemory, Place, Seq, Text, is_blank};
use em_glob::{Glyph, is_pattern};
use em_namefn::glyphs_of;
use em_pathname::matching_names;
use em_reading::{Heard, MakefileFault, ReadNo, Reading, at, desk_fault, refused};
use em_rules::{RecipeLine, Rule};
use em_statement::{
    Head, RuleLine, Statement, colons_in, is_empty, read_head, refused_in_head, refused_in_read,
};
use em_view::{Desk, View};
use std::alloc::Global;

/// The names, or the word itself where there are none.
fn or_itself(word: Text, names: Seq<Text>) -> Result<Seq<Text>, NoMemory>
    ensures { IfOk result (λ ns. ns ≡ or_itself word names) }
{
    let mut all = names;
    if all.is_empty() {
        all.push(word)?;
    }
    Ok(all)
}

/// The names in the tree that the word matches.
fn wildcard_word<V: View>(
    alloc: Global,
    desk: &mut Desk<V>,
    reading: &mut Reading,
    place: &Place,
    glyphs: &[Glyph],
) -> Result<Seq<Text>, ReadNo>
    ensures { Does is_free V.tells desk.old desk.new reading.old reading.new result
        (acting.wildcard_glyphs place.now glyphs.now) }
{
    match matching_names(alloc, glyphs, &reading.cwd, desk) {
        Ok(names) => Ok(names),
        Err(e) => Err(desk_fault(alloc, place, e)),
    }
}

/// The names that a word with a wildcard stands for: its matches, or the word itself where there
/// are none.
fn matches_of<V: View>(
    alloc: Global,
    desk: &mut Desk<V>,
    reading: &mut Reading,
    place: &Place,
    word: Text,
    glyphs: &[Glyph],
) -> Result<Seq<Text>, ReadNo>
    requires { glyphs.now ≡ glyphs_of word }
    ensures { Does is_free V.tells desk.old desk.new reading.old reading.new result
        (acting.matches_of place.now word) }
{
    let names = wildcard_word(alloc, desk, reading, place, glyphs)?;
    Ok(or_itself(word, names)?)
}

/// The word alone.
fn alone(alloc: Global, word: Text) -> Result<Seq<Text>, NoMemory>
    ensures { IfOk result (λ ns. ns ≡ word ∷ []) }
{
    let mut names = Seq::new(alloc);
    names.push(word)?;
    Ok(names)
}

/// The names that a word stands for.
fn matched_word<V: View>(
    alloc: Global,
    desk: &mut Desk<V>,
    reading: &mut Reading,
    place: &Place,
    word: Text,
) -> Result<Seq<Text>, ReadNo>
    ensures { Does is_free V.tells desk.old desk.new reading.old reading.new result
        (acting.matched_word place.now word) }
{
    let glyphs = glyphs_of(alloc, word.bytes())?;
    if is_pattern(&glyphs) {
        return matches_of(alloc, desk, reading, place, word, &glyphs);
    }
    Ok(alone(alloc, word)?)
}

/// The names with others behind them.
fn appended(so_far: Seq<Text>, more: Seq<Text>) -> Result<Seq<Text>, NoMemory>
    ensures { IfOk result (λ all. all ≡ so_far ++ more) }
{
    let mut all = so_far.into_vec();
    all.extend(more.into_vec())?;
    Ok(Seq::from_vec(all))
}

/// Whether the word has none of the bytes that are more than themselves in a pattern.
fn is_plain(word: &[u8]) -> bool
    ensures { result ≡ list_all acting.is_itself word.now }
{
    word.iter().all(|b| !matches!(*b, b'*' | b'?' | b'['))
}

/// The names that words stand for: each with a wildcard is replaced by its matches in the tree, if
/// it has some.
pub(crate) fn matched<V: View>(
    alloc: Global,
    desk: &mut Desk<V>,
    reading: &mut Reading,
    place: &Place,
    words: &[Text],
) -> Result<Seq<Text>, ReadNo>
    ensures { Does is_free V.tells desk.old desk.new reading.old reading.new result
        (matched place.now [] words.now) }
{
    let mut all = Seq::new(alloc);
    for word in words {
        let copy = word.copy(alloc)?;
        if is_plain(word.bytes()) {
            all.push(copy)?;
        } else {
            let more = matched_word(alloc, desk, reading, place, copy)?;
            all = appended(all, more)?;
        }
    }
    Ok(all)
}

/// Whether a name holds a `%`.
fn holds_percent(name: &Text) -> bool
    ensures { result ≡ list_any is_percent name.now }
{
    name.bytes().contains(&b'%')
}

/// Whether one of the names holds a `%`.
fn is_in_one(names: &[Text]) -> bool
    ensures { result ≡ list_any (λ t. list_any is_percent t) names.now }
{
    names.iter().any(|name| holds_percent(name))
}

/// Whether a target holds a `%`.
fn is_pattern_rule(form: &Option<Text>, targets: &[Text]) -> bool
    ensures { result ≡ is_pattern_rule form.now targets.now }
{
    form.is_none() && is_in_one(targets)
}

/// The recipe behind a `;`.
fn recipe_of(
    alloc: Global,
    place: &Place,
    recipe: &Option<Text>,
) -> Result<Option<Seq<RecipeLine>>, NoMemory>
    ensures { IfOk result (λ r. r ≡ acting.recipe_of place.now recipe.now) }
{
    let Some(text) = recipe else {
        return Ok(None);
    };
    let mut lines = Seq::new(alloc);
    lines.push(RecipeLine {
        place: place.copy(alloc)?,
        text: text.copy(alloc)?,
    })?;
    Ok(Some(lines))
}

/// The rule of a line with this head.
fn rule_of(alloc: Global, place: &Place, line: &RuleLine, head: Head) -> Result<Rule, NoMemory>
    ensures { IfOk result (λ r. r ≡ rule_of place.now line.now head) }
{
    let Head {
        kind,
        targets,
        form,
        normal,
        order,
    } = head;
    Ok(Rule {
        kind,
        pattern: is_pattern_rule(&form, targets.items()),
        targets,
        form,
        normal,
        order,
        recipe: recipe_of(alloc, place, &line.recipe)?,
        place: place.copy(alloc)?,
    })
}

/// A line with a colon.
fn rule_with<V: View>(
    alloc: Global,
    desk: &mut Desk<V>,
    reading: &mut Reading,
    place: &Place,
    line: &RuleLine,
    head: Head,
) -> Result<(), ReadNo>
    ensures { Does is_free V.tells desk.old desk.new reading.old reading.new result
        (acting.rule_with place.now line.now head) }
{
    let targets = matched(alloc, desk, reading, place, head.targets.items())?;
    let normal = matched(alloc, desk, reading, place, head.normal.items())?;
    let order = matched(alloc, desk, reading, place, head.order.items())?;
    let head = Head {
        kind: head.kind,
        targets,
        form: head.form,
        normal,
        order,
    };
    let rule = rule_of(alloc, place, line, head)?;
    reading.begin_rule(alloc, rule)
}

/// Whether a line without a colon is nothing: blanks, and no recipe behind a `;`.
fn is_nothing(text: &[u8], recipe: &Option<Text>) -> bool
    ensures { result ≡ acting.is_nothing text.now recipe.now }
{
    is_empty(text) && recipe.is_none()
}

/// What a line is by its head, when that is expanded whole: what is refused in it, a rule, or
/// nothing. The head is read once.
fn rule_by<V: View>(
    alloc: Global,
    desk: &mut Desk<V>,
    reading: &mut Reading,
    place: &Place,
    line: &RuleLine,
    text: &[u8],
) -> Result<(), ReadNo>
    ensures { Does is_free V.tells desk.old desk.new reading.old reading.new result
        (acting.unless_refused (refusal_of line.now.assigns text.now) place.now
        (acting.rule_by place.now line.now text.now (head_of text.now))) }
{
    let Some(head) = read_head(alloc, text)? else {
        if is_nothing(text, &line.recipe) {
            return Ok(());
        }
        return Err(at(alloc, place, MakefileFault::Separator));
    };
    if let Some(name) = refused_in_read(line.assigns, text, &head) {
        return Err(refused(alloc, place, name));
    }
    rule_with(alloc, desk, reading, place, line, head)
}

/// Whether a word ends where the text ends.
fn goes_on(text: &[u8]) -> bool
    ensures { result ≡ acting.goes_on text.now }
{
    match text.last() {
        Some(byte) => !(is_blank(*byte) || *byte == b':'),
        None => false,
    }
}

/// The text, whose last word goes on where it doesn't end with the text.
fn ended(alloc: Global, text: &[u8]) -> Result<Text, NoMemory>
    ensures { IfOk result (λ e. e ≡ acting.ended text.now) }
{
    let mut ended = Text::from_slice(alloc, text)?;
    if goes_on(text) {
        ended.add(b"x")?;
    }
    Ok(ended)
}

fn has_colon(text: &[u8]) -> bool
    ensures { result ≡ has_colon text.now }
{
    text.contains(&b':')
}

/// What is known of a head that is written so, when this stands in front of a function that is
/// refused.
fn known(alloc: Global, written: &[u8], text: &[u8]) -> Result<Text, NoMemory>
    ensures { IfOk result (λ k. k ≡ known written.now text.now) }
{
    let mut known = ended(alloc, text)?;
    if has_colon(text) {
        return Ok(known);
    }
    let colons = colons_in(alloc, written)?;
    known.add(colons.bytes())?;
    Ok(known)
}

/// The first thing that is refused in a rule's head that begins with this text, of which what
/// stands behind it, with a function that is refused, isn't known but for its colons.
fn refused_in_known(alloc: Global, line: &RuleLine, text: &[u8]) -> Result<Option<Text>, NoMemory>
    ensures { IfOk result (λ r. r
        ≡ refusal_of (line.now.assigns && has_colon text.now) (known line.now.head text.now)) }
{
    let assigns = line.assigns && has_colon(text);
    let known = known(alloc, line.head.bytes(), text)?;
    refused_in_head(alloc, assigns, known.bytes())
}

/// The line of a rule.
fn rule_line<V: View>(
    alloc: Global,
    desk: &mut Desk<V>,
    reading: &mut Reading,
    place: &Place,
    line: &RuleLine,
    heard: &Heard,
) -> Result<(), ReadNo>
    ensures { Does is_free V.tells desk.old desk.new reading.old reading.new result
        (acting.rule_line place.now line.now heard.now) }
{
    let text = heard.first.text.bytes();
    let Some(function) = &heard.first.refused else {
        return rule_by(alloc, desk, reading, place, line, text);
    };
    if let Some(name) = refused_in_known(alloc, line, text)? {
        return Err(refused(alloc, place, name.bytes()));
    }
    Err(refused(alloc, place, function.bytes()))
}

/// What a statement does, if it puts no text in.
pub(crate) fn act_alone<V: View>(
    alloc: Global,
    desk: &mut Desk<V>,
    reading: &mut Reading,
    place: &Place,
    statement: &Statement,
    heard: &Heard,
) -> Result<(), ReadNo>
    ensures { Does is_free V.tells desk.old desk.new reading.old reading.new result
        (acting.act_alone place.now statement.now heard.now) }
{
    match statement {
        Statement::Assign(a) => reading.assign(alloc, place, a, heard),
        Statement::Undefine(u) => reading.undefine(alloc, place, u, heard),
        Statement::Export(_) => reading.export(alloc, place, heard),
        Statement::Unexport(_) => reading.unexport(alloc, place, heard),
        Statement::Rule(line) => rule_line(alloc, desk, reading, place, line, heard),
        Statement::Unsupported(word) => Err(refused(alloc, place, word.bytes())),
        Statement::Stray => Err(at(alloc, place, MakefileFault::Separator)),
        Statement::Blank => Ok(()),
        Statement::If(_) => Ok(()),
        Statement::Else => Ok(()),
        Statement::ElseIf(_) => Ok(()),
        Statement::Endif => Ok(()),
        Statement::Extraneous => Ok(()),
        Statement::Define(_) => Ok(()),
        Statement::Include(_) => Ok(()),
    }
}
