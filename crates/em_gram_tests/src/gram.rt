use super::names::name_of;
use em_base::{NoMemory, Text};
use em_gram::{Command, GramNo, Script, Word, parse};
use std::alloc::Global;
use std::test::Fail;
use tables::*;

mod render;
mod tables;

/// Whether a line's tree is this text.
fn is_tree(alloc: Global, line: &str, wanted: &str) -> Result<bool, NoMemory> {
    let mut text = Text::new(alloc);
    match parse(alloc, line.as_bytes()) {
        Ok(script) => render::script(&mut text, &script),
        Err(_) => text.add(b"fault")?,
    }
    Ok(text.bytes() == wanted.as_bytes())
}

/// Lines of all productions, with newlines, comments and reserved words wherever they may stand.
#[test]
fn lines_have_trees(rt: HostRuntime) -> Result<(), Fail> {
    let alloc = rt.alloc();
    for (line, wanted) in &TREES {
        assert!(rt; is_tree(alloc, line, wanted)?, "{line}");
    }
    Ok(())
}

/// The line within a command substitution.
fn substituted(alloc: Global, line: &str) -> Result<Text, NoMemory> {
    let mut text = Text::new(alloc);
    text.add(b"$( ")?;
    text.add(line.as_bytes())?;
    text.add(b"\n)")?;
    Ok(text)
}

/// Whether the line within a substitution is a line.
fn is_list(alloc: Global, line: &str) -> Result<bool, NoMemory> {
    let text = substituted(alloc, line)?;
    Ok(parse(alloc, text.bytes()).is_ok())
}

/// The same lines as lists of command substitutions, which end where the list does.
#[test]
fn lists_end_with_their_substitution(rt: HostRuntime) -> Result<(), Fail> {
    let alloc = rt.alloc();
    for (line, _) in &TREES {
        assert!(rt; is_list(alloc, line)?, "{line}");
    }
    assert!(rt;
        is_tree(
            alloc,
            "$(case x in a|\nb) c;; esac)",
            "|[ -$(|case x< a b>(|[ c];);)];"
        )?
    );
    Ok(())
}

/// What a fault is, and its place.
fn told(no: &GramNo) -> (&'static str, usize) {
    match no {
        GramNo::Unexpected(at) => ("unexpected", *at),
        GramNo::Unclosed(at) => ("unclosed", *at),
        GramNo::Refused(construct, at) => (name_of(construct), *at),
        GramNo::NoMemory => ("", 0),
    }
}

/// Whether a line has this fault at this place.
fn is_fault(alloc: Global, line: &[u8], fault: &str, at: usize) -> bool {
    match parse(alloc, line) {
        Ok(_) => false,
        Err(no) => {
            let (name, place) = told(&no);
            name == fault && place == at
        }
    }
}

/// Whether a line has this fault where a `^` stands, which isn't of the line.
fn is_marked(alloc: Global, row: &str, fault: &str) -> Result<bool, NoMemory> {
    let Some((front, behind)) = row.split_once('^') else {
        return Ok(false);
    };
    let mut line = Text::from_slice(alloc, front.as_bytes())?;
    line.add(behind.as_bytes())?;
    Ok(is_fault(alloc, line.bytes(), fault, front.len()))
}

/// Syntax errors: at the begin, in the middle and at the end of lists, pipelines and commands.
#[test]
fn what_does_not_belong_is_unexpected(rt: HostRuntime) -> Result<(), Fail> {
    let alloc = rt.alloc();
    for row in &MISPLACED {
        assert!(rt; is_marked(alloc, row, "unexpected")?, "{row}");
    }
    Ok(())
}

/// Syntax errors in compound commands.
#[test]
fn compounds_have_their_words(rt: HostRuntime) -> Result<(), Fail> {
    let alloc = rt.alloc();
    for row in &MISPLACED_IN_COMPOUNDS {
        assert!(rt; is_marked(alloc, row, "unexpected")?, "{row}");
    }
    Ok(())
}

/// Syntax errors inside of words, and what is no value.
#[test]
fn words_are_read_through(rt: HostRuntime) -> Result<(), Fail> {
    let alloc = rt.alloc();
    for row in &MISPLACED_IN_WORDS {
        assert!(rt; is_marked(alloc, row, "unexpected")?, "{row}");
    }
    Ok(())
}

/// What isn't closed is told at its begin.
#[test]
fn what_opens_must_be_closed(rt: HostRuntime) -> Result<(), Fail> {
    let alloc = rt.alloc();
    for row in &UNCLOSED {
        assert!(rt; is_marked(alloc, row, "unclosed")?, "{row}");
    }
    Ok(())
}

/// Constructs that are refused by the grammar.
#[test]
fn constructs_are_refused(rt: HostRuntime) -> Result<(), Fail> {
    let alloc = rt.alloc();
    for (row, name) in &REFUSED {
        assert!(rt; is_marked(alloc, row, name)?, "{row}");
    }
    Ok(())
}

/// Constructs that are refused by their tokens.
#[test]
fn tokens_are_refused(rt: HostRuntime) -> Result<(), Fail> {
    let alloc = rt.alloc();
    for (row, name) in &REFUSED_TOKENS {
        assert!(rt; is_marked(alloc, row, name)?, "{row}");
    }
    Ok(())
}

/// So many of these, one in another.
fn nested(alloc: Global, depth: usize, open: &str, close: &str) -> Result<Text, NoMemory> {
    let mut text = Text::new(alloc);
    for _ in 0..depth {
        text.add(open.as_bytes())?;
    }
    text.add(b":")?;
    for _ in 0..depth {
        text.add(close.as_bytes())?;
    }
    Ok(text)
}

/// What opens and closes a level, and the offset of the level in it.
static LEVELS: [(&str, &str, usize); 11] = [
    ("(", ")", 0),
    ("a;(", ")", 2),
    ("{ ", ";}", 0),
    ("if ", ";then :;fi", 0),
    ("while ", ";do :;done", 0),
    ("until :;do ", ";done", 0),
    ("for x in y;do ", ";done", 0),
    ("case x in x) ", ";;esac", 0),
    ("$(", ")", 0),
    ("a \"$(", ")\"", 3),
    ("a ${x-$(", ")}", 6),
];

/// Whether 64 levels may be open, and the next is refused where it begins.
fn is_bounded(alloc: Global, open: &str, close: &str, offset: usize) -> Result<bool, NoMemory> {
    let most = nested(alloc, 64, open, close)?;
    let more = nested(alloc, 65, open, close)?;
    let place = 64usize.wrapping_mul(open.len()).wrapping_add(offset);
    let fits = parse(alloc, most.bytes()).is_ok();
    Ok(fits && is_fault(alloc, more.bytes(), "depth", place))
}

/// 64 compound commands and substitutions may be open, of one kind or mixed; arguments of values
/// don't count.
#[test]
fn depth_is_bounded(rt: HostRuntime) -> Result<(), Fail> {
    let alloc = rt.alloc();
    for (open, close, offset) in &LEVELS {
        assert!(rt; is_bounded(alloc, open, close, *offset)?, "{open}");
    }
    let mixed = nested(alloc, 33, "{ $(", ");}")?;
    assert!(rt; is_fault(alloc, mixed.bytes(), "depth", 128));
    let arguments = nested(alloc, 65, "${x-", "}")?;
    assert!(rt; parse(alloc, arguments.bytes()).is_ok());
    Ok(())
}

/// The first word of a line's first command.
fn first_word(script: &Script) -> Option<&Word> {
    match script.list.first()?.first.stages.first()? {
        Command::Simple(simple) => simple.words.first(),
        Command::Compound(..) => None,
    }
}

/// The substitution of this number of the first word, as a text, or `none`.
fn numbered(alloc: Global, script: &Script, n: usize) -> Result<Text, NoMemory> {
    let mut text = Text::new(alloc);
    let found = match first_word(script) {
        Some(word) => word.script(n),
        None => None,
    };
    match found {
        Some(of) => render::script(&mut text, of),
        None => text.add(b"none")?,
    }
    Ok(text)
}

/// The substitutions of the word below, by number.
static NUMBERED: [(usize, &[u8]); 6] = [
    (0, b"|[ b];"),
    (1, b"|[ c];"),
    (2, b"|[ d -$(|[ e];)];"),
    (3, b""),
    (4, b"|[ f];"),
    (5, b"none"),
];

/// Whether the substitution of this number is this text.
fn is_numbered(alloc: Global, script: &Script, n: usize, wanted: &[u8]) -> Result<bool, NoMemory> {
    Ok(numbered(alloc, script, n)?.bytes() == wanted)
}

#[test]
fn substitutions_have_numbers(rt: HostRuntime) -> Result<(), Fail> {
    let alloc = rt.alloc();
    let line = b"a$(b)\"${x-$(c)y`d $(e)`}\"$()${z}$(f)";
    let script = parse(alloc, line)?;
    for (n, wanted) in &NUMBERED {
        assert!(rt; is_numbered(alloc, &script, *n, wanted)?);
    }
    Ok(())
}
