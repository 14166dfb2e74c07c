//! What is expected is a text: each turn, then each question as a letter (L link, K kind, N names)
//! and its path, `|` and the units used. A turn is `name=value;`, `(n)` for an output, the fields
//! in brackets, a pattern with `'` before each quoted byte, or `!` and a fault.
ghost use Rattle.std.specs.Prelude.{◌≡◌, true, IfOk};
ghost use Rattle.em_word.specs.Held.{IsReady};

use crate::shells;
use em_base::{Fuel, NoMemory, Seq, Text};
use em_glob::Glyph;
use em_states::{put_all, put_part, state, states};
use em_syntax::{Script, Value, Word, WordPiece, WordWhat};
use em_tree::{Entry, Question, State};
use em_vars::{Flavour, Origin, Var, Vars};
use em_view::{Desk, PlainView, ScriptView, View};
use em_word::{Expander, Mode, Shell, WordFault, WordTurn};
use std::alloc::Global;
use std::test::Fail;

/// A piece of a word; the first of each tells whether it is quoted.
#[derive(Clone, Copy)]
enum PieceSketch {
    Bytes(bool, &'static str),
    /// A value of the variable `x`: its form, and its argument, which is one piece, not quoted;
    /// `None` is no argument.
    Value(bool, &'static str, Option<&'static str>),
    /// The begin of the argument of a value of `x` in this form, and its end; not quoted.
    Begin(&'static str),
    End,
    /// The output of an empty script, not quoted.
    Output,
}

fn text(alloc: Global, text: &str) -> Result<Text, NoMemory> {
    Text::from_slice(alloc, text.as_bytes())
}

fn bytes(alloc: Global, quoted: bool, bytes: &str) -> Result<WordPiece, NoMemory> {
    let what = WordWhat::Bytes(text(alloc, bytes)?);
    Ok(WordPiece { quoted, what })
}

/// A value of `x`.
fn value(alloc: Global, form: &str) -> Result<Value, NoMemory> {
    let form = text(alloc, form)?;
    let name = text(alloc, "x")?;
    Ok(Value { name, form })
}

fn begin(alloc: Global, quoted: bool, form: &str) -> Result<WordPiece, NoMemory> {
    let what = WordWhat::Argument(value(alloc, form)?);
    Ok(WordPiece { quoted, what })
}

fn end() -> WordPiece {
    WordPiece {
        quoted: false,
        what: WordWhat::End,
    }
}

/// Adds a value of `x`, perhaps with an argument.
fn add_value(
    alloc: Global,
    pieces: &mut Vec<WordPiece>,
    quoted: bool,
    form: &str,
    argument: Option<&str>,
) -> Result<(), NoMemory> {
    let Some(argument) = argument else {
        let what = WordWhat::Value(value(alloc, form)?);
        pieces.push(WordPiece { quoted, what })?;
        return Ok(());
    };
    pieces.push(begin(alloc, quoted, form)?)?;
    pieces.push(bytes(alloc, false, argument)?)?;
    pieces.push(end())?;
    Ok(())
}

fn output(alloc: Global) -> WordPiece {
    let list = Vec::new(alloc);
    let what = WordWhat::Output(Script { list });
    WordPiece {
        quoted: false,
        what,
    }
}

fn add_part(
    alloc: Global,
    pieces: &mut Vec<WordPiece>,
    part: &PieceSketch,
) -> Result<(), NoMemory> {
    match part {
        PieceSketch::Bytes(quoted, text) => pieces.push(bytes(alloc, *quoted, text)?)?,
        PieceSketch::Value(quoted, form, argument) => {
            add_value(alloc, pieces, *quoted, form, *argument)?
        }
        PieceSketch::Begin(form) => pieces.push(begin(alloc, false, form)?)?,
        PieceSketch::End => pieces.push(end())?,
        PieceSketch::Output => pieces.push(output(alloc))?,
    }
    Ok(())
}

fn word(alloc: Global, parts: &[PieceSketch]) -> Result<Word, NoMemory> {
    let mut pieces = Vec::new(alloc);
    for part in parts {
        add_part(alloc, &mut pieces, part)?;
    }
    Ok(Word { pieces })
}

fn variable(text: Text) -> Var {
    Var {
        flavour: Flavour::Simple,
        origin: Origin::Automatic,
        text,
        exported: false,
    }
}

fn set(alloc: Global, vars: &mut Vars, name: Text, value: &[u8]) -> Result<(), NoMemory> {
    let text = Text::from_slice(alloc, value)?;
    vars.set(name, variable(text))?;
    Ok(())
}

fn variables(alloc: Global, x: &str) -> Result<Vars, NoMemory> {
    let mut vars = Vars::new(alloc)?;
    set(alloc, &mut vars, text(alloc, "x")?, x.as_bytes())?;
    Ok(vars)
}

fn shell(alloc: Global, x: Option<&str>) -> Result<Shell, NoMemory> {
    let vars = match x {
        Some(value) => variables(alloc, value)?,
        None => Vars::new(alloc)?,
    };
    Ok(shells::shell(vars, 3))
}

fn say_names(text: &mut Text, names: &Seq<Text>) {
    for name in names.items() {
        put_all(text, &[b"[", name.bytes(), b"]"]);
    }
}

fn say_glyph(text: &mut Text, glyph: &Glyph) {
    if glyph.quoted {
        put_part(text, b"'");
    }
    put_part(text, &[glyph.byte]);
}

fn say_pattern(text: &mut Text, glyphs: &Seq<Glyph>) {
    for glyph in glyphs.items() {
        say_glyph(text, glyph);
    }
}

fn say_fault(text: &mut Text, fault: &WordFault) {
    let (name, line): (&[u8], &[u8]) = match fault {
        WordFault::Unset(line) => (b"!", line.bytes()),
        WordFault::Refused(_) => (b"!refused", b""),
        WordFault::Spent => (b"!spent", b""),
        WordFault::NoMemory => (b"!memory", b""),
    };
    put_all(text, &[name, line]);
}

fn say_question(text: &mut Text, question: &Question) {
    let (letter, path): (&[u8], &[u8]) = match question {
        Question::Link(path) => (b" L", path.text()),
        Question::Kind(path) => (b" K", path.text()),
        Question::Names(path) => (b" N", path.text()),
        _ => (b" ?", b""),
    };
    put_all(text, &[letter, path]);
}

/// Sets the variable that a turn names.
fn assign(
    alloc: Global,
    vars: &mut Vars,
    text: &mut Text,
    name: Text,
    value: &[u8],
) -> Result<(), NoMemory> {
    put_all(text, &[name.bytes(), b"=", value, b";"]);
    set(alloc, vars, name, value)
}

/// The output of this number: `q` and a newline.
fn given(alloc: Global, text: &mut Text, number: usize) -> Result<Text, Fail> {
    let digits = format!(in alloc; "({number})")?;
    put_all(text, &[digits.as_bytes()]);
    Ok(Text::from_slice(alloc, b"q\n")?)
}

/// Takes a turn. Whether the word goes on.
fn turn<V: View>(
    alloc: Global,
    expander: &mut Expander,
    shell: &mut Shell,
    desk: &mut Desk<V>,
    text: &mut Text,
) -> Result<bool, Fail>
    requires { IsReady expander.old }
    ensures { IfOk result (λ goes. goes ≡ true → IsReady expander.new) }
{
    match expander.fields(alloc, shell, desk) {
        Ok(WordTurn::Done(names)) => {
            say_names(text, &names);
            Ok(false)
        }
        Ok(WordTurn::Pattern(glyphs)) => {
            say_pattern(text, &glyphs);
            Ok(false)
        }
        Ok(WordTurn::Set(name, value)) => {
            assign(alloc, &mut shell.vars, text, name, value.bytes())?;
            Ok(true)
        }
        Ok(WordTurn::Output(number)) => {
            let output = given(alloc, text, number)?;
            expander.give(output);
            Ok(true)
        }
        Err(fault) => {
            say_fault(text, &fault);
            Ok(false)
        }
    }
}

/// Takes the turns of a word.
fn turns<V: View>(
    alloc: Global,
    word: &Word,
    mode: Mode,
    shell: &mut Shell,
    desk: &mut Desk<V>,
    text: &mut Text,
) -> Result<(), Fail> {
    let mut expander = Expander::new(alloc, word, mode)?;
    for _ in 0..9 {
        if !turn(alloc, &mut expander, shell, desk, text)? {
            return Ok(());
        }
    }
    Ok(())
}

fn say_usage(text: &mut Text, usage: &[Entry]) {
    for entry in usage {
        say_question(text, &entry.question);
    }
}

/// What was asked over a desk, and the units used.
fn say_desk<V: View>(alloc: Global, desk: Desk<V>, text: &mut Text) -> Result<(), Fail> {
    let (usage, _, used) = desk.close();
    say_usage(text, &usage.entries(alloc)?);
    let digits = format!(in alloc; "|{used}")?;
    put_all(text, &[digits.as_bytes()]);
    Ok(())
}

/// How a word is expanded, and the text of `x`.
type WordManner<'a> = (Mode, Option<&'a str>);

fn expand<V: View>(
    alloc: Global,
    word: &Word,
    manner: WordManner,
    desk: &mut Desk<V>,
    text: &mut Text,
) -> Result<(), Fail> {
    let mut shell = shell(alloc, manner.1)?;
    turns(alloc, word, manner.0, &mut shell, desk, text)
}

fn told<V: View>(
    alloc: Global,
    desk: Desk<V>,
    word: &Word,
    manner: WordManner,
) -> Result<Text, Fail> {
    let mut desk = desk;
    let mut text = Text::new(alloc);
    expand(alloc, word, manner, &mut desk, &mut text)?;
    say_desk(alloc, desk, &mut text)?;
    Ok(text)
}

/// What is told of a word, with so many units.
fn told_on(
    alloc: Global,
    state: &State,
    word: &Word,
    manner: WordManner,
    units: u64,
) -> Result<Text, Fail> {
    let view = PlainView::new(state);
    let desk = Desk::new(alloc, view, 1, 0, Fuel::new(units.min(100)));
    told(alloc, desk, word, manner)
}

/// The same, of the word of these parts.
fn told_of(
    alloc: Global,
    state: &State,
    parts: &[PieceSketch],
    manner: WordManner,
    units: u64,
) -> Result<Text, Fail> {
    let word = word(alloc, parts)?;
    told_on(alloc, state, &word, manner, units)
}

/// A form, its argument, the text of `x`, whether it is quoted, and what is expected.
type FormRow = (
    &'static str,
    Option<&'static str>,
    Option<&'static str>,
    bool,
    &'static str,
);

static FORMS: [FormRow; 33] = [
    ("", None, None, false, "[<>]|1"),
    ("", None, Some(""), true, "[<>]|1"),
    ("", None, Some("a  b"), false, "[<a][b>]|2"),
    ("", None, Some("a  b"), true, "[<a  b>]|2"),
    ("", None, Some(" a\tb\n"), false, "[<][a][b][>]|2"),
    ("#", None, Some("abc"), false, "[<3>]|2"),
    ("#", None, None, false, "[<0>]|2"),
    ("-", Some("w"), None, false, "[<w>]|2"),
    ("-", Some("a b"), None, false, "[<a][b>]|2"),
    ("-", Some("w"), Some(""), false, "[<>]|1"),
    ("-", Some("w"), Some("v"), false, "[<v>]|2"),
    (":-", Some("w"), Some(""), false, "[<w>]|2"),
    (":-", Some("w"), Some("v"), false, "[<v>]|2"),
    ("=", Some("w"), None, false, "x=w;[<w>]|2"),
    ("=", Some("a b"), None, false, "x=a b;[<a][b>]|2"),
    ("=", Some("w"), Some(""), false, "[<>]|1"),
    (":=", Some("w"), Some(""), true, "x=w;[<w>]|2"),
    ("+", Some("w"), None, false, "[<>]|1"),
    ("+", Some("w"), Some(""), false, "[<w>]|2"),
    (":+", Some("w"), Some(""), false, "[<>]|1"),
    (":+", Some("w"), Some("v"), false, "[<w>]|2"),
    ("?", Some("w"), None, false, "!emake: sh: x: w\n|1"),
    ("?", Some("w"), Some(""), false, "[<>]|1"),
    (":?", Some("w"), Some(""), false, "!emake: sh: x: w\n|1"),
    ("%", Some(".*"), Some("a.b.c"), false, "[<a.b>]|2"),
    ("%%", Some(".*"), Some("a.b.c"), false, "[<a>]|2"),
    ("#", Some("*."), Some("a.b.c"), false, "[<b.c>]|2"),
    ("##", Some("*."), Some("a.b.c"), false, "[<c>]|2"),
    ("%", Some("z"), Some("ab"), false, "[<ab>]|2"),
    ("%%", Some("*"), Some("ab"), false, "[<>]|1"),
    ("#", Some(""), Some("ab"), false, "[<ab>]|2"),
    ("/", Some("w"), None, false, "!refused|1"),
    ("", Some("w"), None, false, "!refused|1"),
];

/// Whether the value between `<` and `>` is told so.
fn is_form(alloc: Global, state: &State, row: &FormRow) -> Result<bool, Fail> {
    let parts = [
        PieceSketch::Bytes(false, "<"),
        PieceSketch::Value(row.3, row.0, row.1),
        PieceSketch::Bytes(false, ">"),
    ];
    let given = told_of(alloc, state, &parts, (Mode::Fields, row.2), 100)?;
    Ok(given.bytes() == row.4.as_bytes())
}

#[test]
fn values_have_their_forms(rt: HostRuntime) -> Result<(), Fail> {
    let state = state(rt.alloc(), "")?;
    for row in &FORMS {
        assert!(rt; is_form(rt.alloc(), &state, row)?);
    }
    Ok(())
}

/// A word of one piece: its bytes, whether they are quoted, how the word is expanded, the units,
/// and what is expected.
type Plain = (&'static str, bool, Mode, u64, &'static str);

static TEXTS: [Plain; 20] = [
    ("*.c", false, Mode::Fields, 100, "[a.c][b.c] N/|2"),
    ("*.h", false, Mode::Fields, 100, "[*.h] N/|2"),
    (".*", false, Mode::Fields, 100, "[.c] N/|2"),
    ("*/", false, Mode::Fields, 100, "[a.c][b.c][d] N/|2"),
    (
        "d//x*",
        false,
        Mode::Fields,
        100,
        "[d/x1] L/d K/d L/d N/d|3",
    ),
    ("./*.c", false, Mode::Fields, 100, "[./a.c][./b.c] K/ N/|3"),
    (
        "../*.c",
        false,
        Mode::Fields,
        100,
        "[../a.c][../b.c] K/ N/|3",
    ),
    ("..", false, Mode::Fields, 100, "[..]|0"),
    ("*.c", true, Mode::Fields, 100, "[*.c]|0"),
    ("*.c", false, Mode::Whole, 100, "[*.c]|0"),
    ("a b", true, Mode::Fields, 100, "[a b]|0"),
    ("a b", false, Mode::Fields, 100, "[a][b]|0"),
    ("a b", false, Mode::Whole, 100, "[a b]|0"),
    ("", true, Mode::Fields, 100, "[]|0"),
    ("", false, Mode::Fields, 100, "|0"),
    ("", false, Mode::Whole, 100, "[]|0"),
    ("[", false, Mode::Fields, 100, "[[]|0"),
    ("a*", false, Mode::Pattern, 100, "a*|0"),
    ("a*", true, Mode::Pattern, 100, "'a'*|0"),
    ("*.c", false, Mode::Fields, 1, "!spent N/|1"),
];

fn is_plain(alloc: Global, state: &State, row: &Plain) -> Result<bool, Fail> {
    let parts = [PieceSketch::Bytes(row.1, row.0)];
    let given = told_of(alloc, state, &parts, (row.2, None), row.3)?;
    Ok(given.bytes() == row.4.as_bytes())
}

#[test]
fn texts_are_fields_names_or_patterns(rt: HostRuntime) -> Result<(), Fail> {
    let state = state(rt.alloc(), "f/a.c f/.c f/b.c d/d f/d/x1")?;
    for row in &TEXTS {
        assert!(rt; is_plain(rt.alloc(), &state, row)?);
    }
    Ok(())
}

/// A word, the text of `x`, the units, and what is expected.
type Mixed = (
    &'static [PieceSketch],
    Option<&'static str>,
    u64,
    &'static str,
);

/// Where quotes begin and end within a word.
static QUOTES: [Mixed; 8] = [
    (
        &[
            PieceSketch::Bytes(false, "a"),
            PieceSketch::Value(true, "", None),
            PieceSketch::Bytes(false, "b"),
        ],
        Some("c  d"),
        100,
        "[ac  db]|2",
    ),
    (
        &[
            PieceSketch::Bytes(false, "a"),
            PieceSketch::Value(false, "", None),
            PieceSketch::Bytes(true, "b"),
        ],
        Some(" c "),
        100,
        "[a][c][b]|2",
    ),
    (
        &[
            PieceSketch::Bytes(true, ""),
            PieceSketch::Value(false, "", None),
        ],
        Some(" "),
        100,
        "[]|2",
    ),
    (
        &[
            PieceSketch::Value(false, "", None),
            PieceSketch::Bytes(true, ""),
        ],
        Some(" "),
        100,
        "[]|2",
    ),
    (
        &[
            PieceSketch::Bytes(true, ""),
            PieceSketch::Value(false, "", None),
            PieceSketch::Bytes(true, ""),
        ],
        Some(" "),
        100,
        "[][]|2",
    ),
    (
        &[PieceSketch::Bytes(true, ""), PieceSketch::Bytes(true, "")],
        None,
        100,
        "[]|0",
    ),
    (
        &[
            PieceSketch::Value(false, "", None),
            PieceSketch::Value(false, "", None),
        ],
        None,
        100,
        "|2",
    ),
    (
        &[
            PieceSketch::Value(true, "", None),
            PieceSketch::Value(false, "", None),
        ],
        None,
        100,
        "[]|2",
    ),
];

fn is_mixed(alloc: Global, state: &State, row: &Mixed) -> Result<bool, Fail> {
    let given = told_of(alloc, state, row.0, (Mode::Fields, row.1), row.2)?;
    Ok(given.bytes() == row.3.as_bytes())
}

#[test]
fn fields_part_outside_of_quotes(rt: HostRuntime) -> Result<(), Fail> {
    let state = state(rt.alloc(), "")?;
    for row in &QUOTES {
        assert!(rt; is_mixed(rt.alloc(), &state, row)?);
    }
    Ok(())
}

/// `a${x=z}$(c)`, with units as they are given: a value is set before an output is asked for.
static SET_FIRST: [(u64, &str); 6] = [
    (100, "x=z;(0)[azq]|4"),
    (4, "x=z;(0)[azq]|4"),
    (3, "x=z;(0)!spent|3"),
    (2, "x=z;!spent|2"),
    (1, "!spent|1"),
    (0, "!spent|0"),
];

fn is_set_first(alloc: Global, state: &State, units: u64, wanted: &str) -> Result<bool, Fail> {
    let parts = [
        PieceSketch::Bytes(false, "a"),
        PieceSketch::Value(false, "=", Some("z")),
        PieceSketch::Output,
    ];
    let given = told_of(alloc, state, &parts, (Mode::Fields, None), units)?;
    Ok(given.bytes() == wanted.as_bytes())
}

#[test]
fn a_value_is_set_before_an_output_is_asked_for(rt: HostRuntime) -> Result<(), Fail> {
    let state = state(rt.alloc(), "")?;
    for (units, wanted) in &SET_FIRST {
        assert!(rt; is_set_first(rt.alloc(), &state, *units, wanted)?);
    }
    Ok(())
}

/// `${x-${x=n}$(c)}$(d)`
static NESTED_PARTS: [PieceSketch; 5] = [
    PieceSketch::Begin("-"),
    PieceSketch::Value(false, "=", Some("n")),
    PieceSketch::Output,
    PieceSketch::End,
    PieceSketch::Output,
];

/// The text of `x`, and what is told of the word above.
static NESTED: [(Option<&str>, &str); 2] = [(None, "x=n;(0)(1)[nqq]|8"), (Some("v"), "(1)[vq]|4")];

fn is_nested(
    alloc: Global,
    state: &State,
    word: &Word,
    x: Option<&str>,
    wanted: &str,
) -> Result<bool, Fail> {
    let given = told_on(alloc, state, word, (Mode::Fields, x), 100)?;
    Ok(given.bytes() == wanted.as_bytes())
}

/// An argument has values and outputs, and those of one that isn't expanded are counted.
#[test]
fn arguments_are_words(rt: HostRuntime) -> Result<(), Fail> {
    let state = state(rt.alloc(), "")?;
    let word = word(rt.alloc(), &NESTED_PARTS)?;
    for (x, wanted) in &NESTED {
        assert!(rt; is_nested(rt.alloc(), &state, &word, *x, wanted)?);
    }
    Ok(())
}

fn over_states(alloc: Global, states: Vec<State>, word: &Word) -> Result<Text, Fail> {
    if states.is_empty() {
        return Err("no state".into());
    }
    let desk = Desk::new(alloc, ScriptView::new(states), 1, 0, Fuel::new(100));
    told(alloc, desk, word, (Mode::Fields, None))
}

/// What is told of `d/*/k`, where `d` is listed and then isn't there.
fn without_d(alloc: Global) -> Result<Text, Fail> {
    let word = word(alloc, &[PieceSketch::Bytes(false, "d/*/k")])?;
    let with_d = "d/d f/d/x";
    let states = states(alloc, &[with_d, with_d, with_d, with_d, ""])?;
    over_states(alloc, states, &word)
}

/// A directory that is listed and then isn't there: the pattern stays.
#[test]
fn a_view_may_change_its_mind(rt: HostRuntime) -> Result<(), Fail> {
    let given = without_d(rt.alloc())?;
    let wanted = "[d/*/k] L/d K/d L/d N/d L/d L/d/x L/d/x/k K/d/x/k|4";
    assert!(rt; given.bytes() == wanted.as_bytes());
    Ok(())
}
