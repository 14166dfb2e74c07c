//! Rules for the tests, made of texts.
use em_base::{NoMemory, Place, Seq, Text};
use em_rules::{RecipeLine, Rule, RuleKind};
use em_wordlist::{join_texts, texts};
use std::alloc::Global;

pub fn place(alloc: Global) -> Result<Place, NoMemory> {
    let file = Text::from_slice(alloc, b"Makefile")?;
    Ok(Place { file, line: 1 })
}

fn recipe_line(alloc: Global, text: &[u8]) -> Result<RecipeLine, NoMemory> {
    let place = place(alloc)?;
    let text = Text::from_slice(alloc, text)?;
    Ok(RecipeLine { place, text })
}

/// A recipe of one line.
pub fn recipe(alloc: Global, text: &[u8]) -> Result<Seq<RecipeLine>, NoMemory> {
    let line = recipe_line(alloc, text)?;
    let mut lines = Seq::new(alloc);
    lines.push(line)?;
    Ok(lines)
}

pub fn add_name(alloc: Global, names: &mut Seq<Text>, name: &[u8]) -> Result<(), NoMemory> {
    let name = Text::from_slice(alloc, name)?;
    names.push(name)
}

fn add_names(alloc: Global, names: &mut Seq<Text>, line: &[u8]) -> Result<(), NoMemory> {
    for name in &texts(alloc, line)? {
        add_name(alloc, names, name)?;
    }
    Ok(())
}

/// The words of a line.
pub fn names(alloc: Global, line: &[u8]) -> Result<Seq<Text>, NoMemory> {
    let mut names = Seq::new(alloc);
    add_names(alloc, &mut names, line)?;
    Ok(names)
}

fn rule_of(alloc: Global, targets: &[u8]) -> Result<Rule, NoMemory> {
    let place = place(alloc)?;
    Ok(Rule {
        targets: names(alloc, targets)?,
        kind: RuleKind::Ordinary,
        pattern: targets.contains(&b'%'),
        form: None,
        normal: Seq::new(alloc),
        order: Seq::new(alloc),
        recipe: None,
        place,
    })
}

/// The rule of these targets, normal and order-only prerequisites, without a recipe; a pattern rule
/// where a target has a `%`.
pub fn rule(alloc: Global, lists: [&[u8]; 3]) -> Result<Rule, NoMemory> {
    let [targets, normal, order] = lists;
    let mut rule = rule_of(alloc, targets)?;
    add_names(alloc, &mut rule.normal, normal)?;
    add_names(alloc, &mut rule.order, order)?;
    Ok(rule)
}

/// Appends the names with a blank between two, and a text behind them.
pub fn add_list(
    alloc: Global,
    text: &mut Text,
    names: &[Text],
    after: &[u8],
) -> Result<(), NoMemory> {
    let joined = join_texts(alloc, names)?;
    text.add(joined.bytes())?;
    text.add(after)
}
