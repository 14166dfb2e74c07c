//! Grouped rules and double-colon rules.
use crate::rules::{Row, rule, shown};
use crate::written::add_list;
use em_base::{NoMemory, Text};
use em_rules::{Book, BookNo, Rule, RuleKind};
use std::alloc::Global;
use std::test::Fail;

/// The colon of a rule, and the rule.
type ColonRow = (&'static [u8], Row);

fn kind_of(colon: &[u8]) -> RuleKind {
    match colon {
        b"&:" => RuleKind::Grouped,
        b"::" => RuleKind::Double,
        _ => RuleKind::Ordinary,
    }
}

fn add(alloc: Global, book: &mut Book, line: &ColonRow) -> Result<(), BookNo> {
    let mut rule = rule(alloc, &line.1)?;
    rule.kind = kind_of(line.0);
    book.add(rule)
}

fn book(alloc: Global, lines: &[ColonRow]) -> Result<Book, BookNo> {
    let mut book = Book::new(alloc)?;
    for line in lines {
        add(alloc, &mut book, line)?;
    }
    Ok(book)
}

const COME_TO: [(ColonRow, &[u8]); 5] = [
    (
        (b"::", [b"t ./t u", b"-", b"a", b"b", b"r"]),
        b"t: a | b\nt: a | b\nu: a | b\n",
    ),
    (
        (b"::", [b"a.o b.o", b"%.o", b"%.c", b"", b"r"]),
        b"a.o: a.c | \nb.o: b.c | \n",
    ),
    ((b"&:", [b"x y", b"-", b"s", b"o", b"r"]), b"x y: s | o\n"),
    (
        (b"&:", [b"a.o b.o", b"%.o", b"%.c ./x", b"%.h", b"r"]),
        b"a.o b.o: a.c x b.c x | a.h b.h\n",
    ),
    ((b"&:", [b"", b"%.o", b"%.c", b"", b"-"]), b":  | \n"),
];

#[test]
fn rules_come_to_rules_by_their_kind(rt: HostRuntime) -> Result<(), Fail> {
    for (line, want) in &COME_TO {
        let book = book(rt.alloc(), &[*line])?;
        let text = shown(rt.alloc(), book.rules.items())?;
        assert_eq!(rt; text.bytes(), *want);
    }
    Ok(())
}

/// The normal and the order-only prerequisites that a rule gives a target.
fn given(alloc: Global, rule: &Rule, target: &[u8]) -> Result<Text, NoMemory> {
    let mut text = Text::new(alloc);
    add_list(alloc, &mut text, rule.normal_for(target), b" | ")?;
    add_list(alloc, &mut text, rule.order_for(target), b"")?;
    Ok(text)
}

/// What the first rule gives the target; nothing where there is none.
fn given_first(alloc: Global, book: &Book, target: &[u8]) -> Result<Text, NoMemory> {
    match book.rules.get(0) {
        Some(rule) => given(alloc, rule, target),
        None => Ok(Text::new(alloc)),
    }
}

#[test]
fn a_target_of_a_group_has_its_own_prerequisites(rt: HostRuntime) -> Result<(), Fail> {
    for (line, target, want) in [
        (3, b"a.o".as_slice(), b"a.c x | a.h".as_slice()),
        (3, b"b.o", b"b.c x | b.h"),
        (2, b"y", b"s | o"),
        (4, b"y", b" | "),
    ] {
        let book = book(rt.alloc(), &[COME_TO[line].0])?;
        let text = given_first(rt.alloc(), &book, target)?;
        assert_eq!(rt; text.bytes(), want);
    }
    Ok(())
}

const FAULTS: [(&[ColonRow], &[u8], &[u8]); 12] = [
    (&[(b":", A), (b"::", A)], b"mixed", b"a"),
    (
        &[(b"::", A), (b":", [b"b ./a", b"-", b"", b"", b"-"])],
        b"mixed",
        b"a",
    ),
    (
        &[(b"&:", XY), (b"::", [b"y x", b"-", b"", b"", b"r"])],
        b"mixed",
        b"y",
    ),
    (
        &[(b"::", A), (b"&:", [b"x a", b"-", b"", b"", b"-"])],
        b"mixed",
        b"a",
    ),
    (&[(b"::", A), (b"::", A)], b"", b""),
    (
        &[(b":", A), (b"&:", [b"x a", b"-", b"", b"", b"r"])],
        b"",
        b"",
    ),
    (&[(b"&:", [b"./x y", b"-", b"", b"", b"-"])], b"group", b"x"),
    (&[(b"&:", [b"", b"-", b"s", b"", b"-"])], b"", b""),
    (
        &[(b"&:", [b"%.a %.b", b"-", b"", b"", b"-"])],
        b"group",
        b"%.a",
    ),
    (&[(b":", [b"%.a %.b", b"-", b"", b"", b"-"])], b"", b""),
    (
        &[(b"::", A), (b":", [b"a b", b"b", b"", b"", b"-"])],
        b"static",
        b"a",
    ),
    (
        &[(b"::", A), (b":", [b"b a", b"b", b"", b"", b"-"])],
        b"static",
        b"a",
    ),
];

const A: Row = [b"a", b"-", b"", b"", b"-"];

const XY: Row = [b"x y", b"-", b"s", b"", b"r"];

/// Whether the last of the rules, and none before it, has this fault.
fn has_fault(alloc: Global, lines: &[ColonRow], fault: &[u8], name: &[u8]) -> bool {
    match book(alloc, lines) {
        Ok(_) => fault.is_empty(),
        Err(BookNo::Static(target)) => fault == b"static".as_slice() && target.bytes() == name,
        Err(BookNo::Group(target)) => fault == b"group".as_slice() && target.bytes() == name,
        Err(BookNo::Mixed(target)) => fault == b"mixed".as_slice() && target.bytes() == name,
        Err(BookNo::NoMemory) => false,
    }
}

#[test]
fn faulty_rules_are_not_added(rt: HostRuntime) {
    for (lines, fault, name) in &FAULTS {
        assert!(rt; has_fault(rt.alloc(), lines, fault, name));
    }
}

const GROUPS: [ColonRow; 6] = [
    (b"&:", [b"x y ./x z w", b"-", b"s", b"", b"r"]),
    (b":", [b"y", b"-", b"", b"", b"r"]),
    (b":", [b"x", b"-", b"", b"", b"-"]),
    (b"&:", [b"w v", b"-", b"", b"", b"r"]),
    (b"::", [b"t", b"-", b"", b"", b"r"]),
    (b"::", [b"t", b"-", b"", b"", b"r"]),
];

static MEMBERS: [(usize, &[u8]); 7] = [
    (0, b"x z"),
    (1, b"y"),
    (2, b""),
    (3, b"w v"),
    (4, b""),
    (5, b"t"),
    (6, b""),
];

/// The targets that the rule of this number makes.
fn members(alloc: Global, book: &Book, number: usize) -> Result<Text, NoMemory> {
    let members = book.rules.members(alloc, number)?;
    let mut text = Text::new(alloc);
    add_list(alloc, &mut text, members.items(), b"")?;
    Ok(text)
}

#[test]
fn a_later_recipe_takes_its_target_out_of_a_group(rt: HostRuntime) -> Result<(), Fail> {
    let book = book(rt.alloc(), &GROUPS)?;
    for (number, want) in &MEMBERS {
        let text = members(rt.alloc(), &book, *number)?;
        assert!(rt; text.bytes() == *want, "at {number}");
    }
    assert!(rt; book.rules.is_double(b"t") && !book.rules.is_single(b"t"));
    assert!(rt; book.rules.is_single(b"x") && !book.rules.is_double(b"x"));
    assert!(rt; !book.rules.is_single(b"s") && !book.rules.is_double(b"s"));
    Ok(())
}
