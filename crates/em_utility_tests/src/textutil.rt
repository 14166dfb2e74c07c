use super::shows::{add_all, words};
use super::trees::{NodeRow, state};
use em_base::{Construct, Fuel, NoMemory, Text};
use em_path::Path;
use em_textutil::utility;
use em_view::{Desk, Done, ExecNo, Piece, PlainView, View};
use std::alloc::Global;
use std::test::Fail;

fn show_pieces(pieces: &[Piece], log: &mut Text) -> Result<(), NoMemory> {
    for piece in pieces {
        if piece.stream == 2 {
            add_all(log, &[b"<", piece.text.bytes(), b">"])?;
        } else {
            log.add(piece.text.bytes())?;
        }
    }
    Ok(())
}

/// Appends what was written, the errors between `<` and `>`, and the status behind it.
fn show_done(done: &Done, log: &mut Text) -> Result<(), NoMemory> {
    show_pieces(done.pieces.items(), log)?;
    log.add(&[b'0' | (done.status & 7)])
}

/// Appends why there is no end: a letter, `C` for a command, or the directive of a format.
fn show_no(no: &ExecNo, log: &mut Text) -> Result<(), NoMemory> {
    match no {
        ExecNo::Refused(Construct::Letter(_, letter)) => log.add(&[b'!', *letter]),
        ExecNo::Refused(Construct::Command(_)) => log.add(b"!C"),
        ExecNo::Refused(Construct::Format(Some(byte))) => log.add(&[b'!', *byte]),
        ExecNo::Refused(Construct::Format(None)) => log.add(b"!%"),
        ExecNo::Spent => log.add(b"$"),
        _ => log.add(b"?"),
    }
}

fn show(end: &Result<Option<Done>, ExecNo>, log: &mut Text) -> Result<(), NoMemory> {
    match end {
        Ok(Some(done)) => show_done(done, log),
        Ok(None) => log.add(b"-"),
        Err(no) => show_no(no, log),
    }
}

/// Runs a command over a desk.
fn run<V: View>(
    alloc: Global,
    words: &[Text],
    input: &[u8],
    desk: &mut Desk<V>,
    log: &mut Text,
) -> Result<(), NoMemory> {
    let end = utility(alloc, words, input, &Path::root(), desk);
    show(&end, log)
}

/// `/f` holds lines, `/g` others and is newer, `/e` nothing, `/l` a line without a newline behind
/// it; `/d` is a directory.
static ITEMS: [NodeRow; 5] = [
    (b"/f", Some(b"b\na\na\n"), 2),
    (b"/g", Some(b"c d\n"), 3),
    (b"/e", Some(b""), 2),
    (b"/l", Some(b"a\nb"), 2),
    (b"/d", None, 1),
];

/// A command, its input, and what it writes with its status behind.
type CommandRow = (&'static str, &'static str, &'static str);

static CASES: [CommandRow; 83] = [
    ("cat f e g", "", "b\na\na\nc d\n0"),
    ("cat", "in", "in0"),
    ("cat - g", "in", "inc d\n0"),
    ("cat x f", "", "<emake: cat: x: absent\n>b\na\na\n1"),
    (
        "cat d ~",
        "",
        "<emake: cat: d: is a directory\n><emake: cat: : bad path\n>1",
    ),
    ("cat -- -x", "", "<emake: cat: -x: absent\n>1"),
    ("echo", "", "\n0"),
    ("echo -n a", "", "-n a\n0"),
    ("printf a%sb%d\\n x 7 y", "", "axb7\nayb0\n0"),
    (
        "printf %d, 007 +5 -0 x 9",
        "",
        "<emake: printf: x: not a number\n>7,5,0,,9,2",
    ),
    ("printf a\\t%%\\q", "", "a\t%\\q0"),
    ("printf", "", "<emake: printf: : missing operand\n>2"),
    ("head -n 2 f", "", "b\na\n0"),
    ("head -n1 f", "", "b\n0"),
    (
        "head",
        "1\n2\n3\n4\n5\n6\n7\n8\n9\n10\n11\n",
        "1\n2\n3\n4\n5\n6\n7\n8\n9\n10\n0",
    ),
    ("head -n 9 l", "", "a\nb0"),
    ("head -n 01 l", "", "<emake: head: 01: not a number\n>2"),
    ("head -n", "", "<emake: head: : missing operand\n>2"),
    ("head f g", "", "<emake: head: : extra operand\n>2"),
    ("tail -n 1 f", "", "a\n0"),
    ("tail -n1 l", "", "b0"),
    ("tail -n 0 l", "", "0"),
    ("tail x", "", "<emake: tail: x: absent\n>1"),
    ("wc -l", "a\nb\n", "2\n0"),
    ("wc f", "", "3 3 6 f\n0"),
    ("wc -c -w g", "", "2 4 g\n0"),
    ("wc l", "", "1 2 3 l\n0"),
    ("wc e", "", "0 0 0 e\n0"),
    ("wc d", "", "<emake: wc: d: is a directory\n>1"),
    ("sort f l", "", "a\na\na\nb\nb\n0"),
    ("sort -u f l", "", "a\nb\n0"),
    ("sort -ru f", "", "b\na\n0"),
    ("sort -r x g", "", "<emake: sort: x: absent\n>c d\n1"),
    ("sort", "b\n\na", "\na\nb\n0"),
    ("sort e", "", "0"),
    ("uniq f", "", "b\na\n0"),
    ("uniq -c f", "", "      1 b\n      2 a\n0"),
    ("uniq", "a\na", "a\n0"),
    ("uniq l", "", "a\nb0"),
    ("uniq f g", "", "<emake: uniq: : extra operand\n>2"),
    ("cmp f f", "", "0"),
    ("cmp f l", "", "f l differ: char 1, line 1\n1"),
    ("cmp -s f l", "", "1"),
    ("cmp e f", "", "<emake: cmp: e: short\n>1"),
    ("cmp f x", "", "<emake: cmp: x: absent\n>2"),
    ("cmp -s f x", "", "2"),
    ("cmp f", "", "<emake: cmp: : missing operand\n>2"),
    ("grep -F a f", "", "a\na\n0"),
    ("grep -F a f l", "", "f:a\nf:a\nl:a\n0"),
    ("grep -Fv a l", "", "b0"),
    ("grep -F -c a f g", "", "f:2\ng:0\n0"),
    ("grep -Fx c g", "", "1"),
    ("grep -Fq a f", "", "0"),
    ("grep -F z", "a\n", "1"),
    ("grep -F a x f", "", "<emake: grep: x: absent\n>f:a\nf:a\n2"),
    ("grep -F", "", "<emake: grep: : missing operand\n>2"),
    ("basename /a/b.c/ .c", "", "b\n0"),
    ("basename .c .c", "", ".c\n0"),
    ("basename ///", "", "/\n0"),
    ("basename ~", "", "\n0"),
    ("basename", "", "<emake: basename: : missing operand\n>2"),
    (
        "basename a b c",
        "",
        "<emake: basename: : extra operand\n>2",
    ),
    ("dirname /a/b/", "", "/a\n0"),
    ("dirname a", "", ".\n0"),
    ("dirname /a", "", "/\n0"),
    ("dirname //", "", "/\n0"),
    ("test a", "", "0"),
    ("test ~", "", "1"),
    ("test", "", "<emake: test: syntax error\n>2"),
    ("test ! -e x", "", "0"),
    ("test -f f", "", "0"),
    ("test -f d", "", "1"),
    ("test -d d", "", "0"),
    ("test -s e", "", "1"),
    ("test g -nt f", "", "0"),
    ("test g -nt x", "", "1"),
    ("test f -ot g", "", "0"),
    ("test 007 -eq +7", "", "0"),
    ("test -1 -lt x", "", "<emake: test: x: not a number\n>2"),
    ("test ! = !", "", "0"),
    ("[ a = b ]", "", "1"),
    ("[ a = b", "", "<emake: test: syntax error\n>2"),
    (": x", "", "0"),
];

/// What a command comes to over the tree, with its input and so much fuel.
fn transcript(alloc: Global, words: &[Text], input: &[u8], fuel: u64) -> Result<Text, Fail> {
    let state = state(alloc, ITEMS.as_slice())?;
    let view = PlainView::new(&state);
    let mut desk = Desk::new(alloc, view, 1, 0, Fuel::new(fuel.min(1000)));
    let mut log = Text::new(alloc);
    run(alloc, words, input, &mut desk, &mut log)?;
    Ok(log)
}

fn is_left(alloc: Global, case: &CommandRow, fuel: u64) -> Result<bool, Fail> {
    let words = words(alloc, case.0)?;
    Ok(transcript(alloc, &words, case.1.as_bytes(), fuel)?.bytes() == case.2.as_bytes())
}

/// Expected bytes: POSIX's pages, and the GNU utilities run by hand, but for the messages and what
/// docs/FORMATS.md lists.
#[test]
fn commands_leave(rt: HostRuntime) -> Result<(), Fail> {
    for case in &CASES {
        let is_left = is_left(rt.alloc(), case, 1000)?;
        let command = case.0;
        assert!(rt; is_left, "{command}");
    }
    Ok(())
}

/// Commands that have no end: an option or a construct that is refused, and no fuel.
static REFUSED: [(&str, u64, &str); 10] = [
    ("cat -n f", 9, "!n"),
    ("head -5 f", 9, "!5"),
    ("grep -i x", 9, "!i"),
    ("grep x", 9, "!C"),
    ("printf %5d", 9, "!5"),
    ("printf %", 9, "!%"),
    ("printf -v x", 9, "!v"),
    ("test -r f", 9, "!r"),
    ("cat f", 1, "$"),
    ("cp f g", 9, "-"),
];

#[test]
fn commands_are_refused(rt: HostRuntime) -> Result<(), Fail> {
    for (command, fuel, wanted) in &REFUSED {
        let is_left = is_left(rt.alloc(), &(*command, "", *wanted), *fuel)?;
        assert!(rt; is_left, "{command}");
    }
    Ok(())
}

/// Commands over the tree with the links `k` to `f`, `n` to nothing and `m` to `d`.
static LINKED: [(&str, &str); 17] = [
    ("test -L k", "0"),
    ("test -h n", "0"),
    ("test -L m", "0"),
    ("[ -L k ]", "0"),
    ("test ! -h k", "1"),
    ("test -L f", "1"),
    ("test -h d", "1"),
    ("test -L no", "1"),
    ("test -L ~", "1"),
    ("test -L", "0"),
    ("test -e k", "0"),
    ("test -e n", "1"),
    ("test -f k", "0"),
    ("test -f m", "1"),
    ("test -d m", "0"),
    ("cat k", "b\na\na\n0"),
    ("cat n", "<emake: cat: n: absent\n>1"),
];

static LINKS: [&str; 3] = ["ln -s f k", "ln -s no n", "ln -s d m"];

fn link<V: View>(alloc: Global, command: &str, desk: &mut Desk<V>) -> Result<(), Fail> {
    let words = words(alloc, command)?;
    em_fileutil::utility(alloc, &words, b"", &Path::root(), desk)?;
    Ok(())
}

fn link_all<V: View>(alloc: Global, desk: &mut Desk<V>) -> Result<(), Fail> {
    for command in &LINKS {
        link(alloc, command, desk)?;
    }
    Ok(())
}

/// What a command comes to over the tree with the links.
fn linked(alloc: Global, command: &str) -> Result<Text, Fail> {
    let state = state(alloc, ITEMS.as_slice())?;
    let mut desk = Desk::new(alloc, PlainView::new(&state), 1, 0, Fuel::new(1000));
    link_all(alloc, &mut desk)?;
    let words = words(alloc, command)?;
    let mut log = Text::new(alloc);
    run(alloc, &words, b"", &mut desk, &mut log)?;
    Ok(log)
}

#[test]
fn test_looks_at_links(rt: HostRuntime) -> Result<(), Fail> {
    for (command, wanted) in &LINKED {
        let given = linked(rt.alloc(), command)?;
        assert!(rt; given.bytes() == wanted.as_bytes(), "{command}");
    }
    Ok(())
}
