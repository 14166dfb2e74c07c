//! Pattern rules over small trees.

use crate::written::rule as bare_rule;
use em_base::{NoMemory, Seq, Text};
use em_implicit::{Found, Prerequisites, find, match_at, members_of, prerequisites_of};
use em_rules::{Book, BookNo, Rule};
use em_states::{add, file, path};
use em_tree::{Node, Tree};
use em_wordlist::{join, join_texts, texts};
use std::alloc::Global;
use std::process::Abort;
use std::test::Fail;

/// Targets, normal and order-only prerequisites of a rule; it is a pattern rule where a target has
/// a `%`.
type Row = [&'static [u8]; 3];

/// A rule with an empty recipe.
fn rule(alloc: Global, row: &Row) -> Result<Rule, NoMemory> {
    let mut rule = bare_rule(alloc, *row)?;
    rule.recipe = Some(Seq::new(alloc));
    Ok(rule)
}

fn add_rule(alloc: Global, book: &mut Book, row: &Row) -> Result<(), BookNo> {
    let rule = rule(alloc, row)?;
    book.add(rule)
}

fn book(alloc: Global, rows: &[Row]) -> Result<Book, BookNo> {
    let mut book = Book::new(alloc)?;
    for row in rows {
        add_rule(alloc, &mut book, row)?;
    }
    Ok(book)
}

/// Adds a node: `d/a` is a directory and `f/a/x` an empty file.
fn add_written(alloc: Global, tree: &mut Tree, node: &[u8]) -> Result<(), Fail> {
    match node {
        [b'd', path @ ..] => add(alloc, tree, path, Node::Dir { stamp: 1 }),
        [b'f', path @ ..] => add(alloc, tree, path, file(alloc, b"", 1)?),
        _ => Ok(()),
    }
}

/// The tree of these nodes.
fn tree(alloc: Global, nodes: &[u8]) -> Result<Tree, Fail> {
    let mut tree = Tree::new(alloc, 1)?;
    for node in &texts(alloc, nodes)? {
        add_written(alloc, &mut tree, node)?;
    }
    Ok(tree)
}

/// A stem and prerequisites, as `x normal | order`.
fn spelled(alloc: Global, stem: &[u8], needed: &Prerequisites) -> Result<Text, NoMemory> {
    let normal = join_texts(alloc, needed.normal.items())?;
    let order = join_texts(alloc, needed.order.items())?;
    join(alloc, &[stem, normal.bytes(), b"|", order.bytes()])
}

/// The stem and the prerequisites that the rule makes, if it was found; else empty.
fn shown(alloc: Global, book: &Book, target: &[u8], found: &Found) -> Result<Text, NoMemory> {
    let Some(rule) = book.patterns.get(found.rule) else {
        return Ok(Text::new(alloc));
    };
    let Some(matched) = match_at(rule, found.pattern, target) else {
        return Ok(Text::new(alloc));
    };
    let needed = prerequisites_of(alloc, rule, matched)?;
    spelled(alloc, found.stem.bytes(), &needed)
}

fn found_in(alloc: Global, book: &Book, case: &ImplicitRow) -> Result<Option<Found>, Fail> {
    let tree = tree(alloc, case.0)?;
    let cwd = path(alloc, case.1)?;
    Ok(find(alloc, book, case.2, &tree, &cwd)?)
}

/// Nodes, working directory, target; the rule that is found, and its stem and prerequisites.
type ImplicitRow = (
    &'static [u8],
    &'static [u8],
    &'static [u8],
    Option<usize>,
    &'static [u8],
);

/// Whether what was found is what the case says.
fn is_wanted(
    alloc: Global,
    book: &Book,
    found: &Option<Found>,
    case: &ImplicitRow,
) -> Result<bool, NoMemory> {
    let (_, _, target, rule, want) = case;
    match (found, rule) {
        (Some(found), Some(rule)) => {
            let text = shown(alloc, book, target, found)?;
            Ok(found.rule == *rule && text.bytes() == *want)
        }
        (None, None) => Ok(want.is_empty()),
        _ => Ok(false),
    }
}

/// That over these rules each case's rule is found.
fn are_found(
    rt: &impl Abort,
    alloc: Global,
    rows: &[Row],
    cases: &[ImplicitRow],
) -> Result<(), Fail> {
    let book = book(alloc, rows)?;
    for case in cases {
        let found = found_in(alloc, &book, case)?;
        assert!(rt; is_wanted(alloc, &book, &found, case)?);
    }
    Ok(())
}

#[test]
fn the_shorter_stem_wins(rt: HostRuntime) -> Result<(), Fail> {
    are_found(
        &rt,
        rt.alloc(),
        &[
            [b"%.o", b"%.c", b""],
            [b"d%.o", b"d%.c", b""],
            [b"%.q", b"./", b""],
        ],
        &[
            (b"f/dx.c", b"/", b"dx.o", Some(1), b"x dx.c | "),
            (b"", b"/", b"dx.o", None, b""),
            (b"d/d f/d/x.c", b"/", b"d/x.o", Some(0), b"d/x d/x.c | "),
            (b"", b"/", b"x.q", None, b""),
        ],
    )
}

#[test]
fn a_pattern_without_a_slash_is_matched_against_the_file(rt: HostRuntime) -> Result<(), Fail> {
    are_found(
        &rt,
        rt.alloc(),
        &[
            [b"%.o", b"%.c h.h", b""],
            [b"d/%.o", b"d/%.s", b""],
            [b"e%t", b"c%r", b""],
            [b"%.x", b"./%.y", b"%%"],
        ],
        &[
            (
                b"d/d f/d/x.c f/h.h",
                b"/",
                b"d/x.o",
                Some(0),
                b"d/x d/x.c h.h | ",
            ),
            (b"d/d f/d/x.c f/d/h.h", b"/", b"d/x.o", None, b""),
            (
                b"d/d f/d/y.c f/d/y.s f/h.h",
                b"/",
                b"d/y.o",
                Some(1),
                b"y d/y.s | ",
            ),
            (
                b"d/src f/src/car",
                b"/",
                b"src/eat",
                Some(2),
                b"src/a src/car | ",
            ),
            (b"d/src f/car", b"/", b"src/eat", None, b""),
            (b"f/a.y f/a%", b"/", b"a.x", Some(3), b"a a.y | a%"),
        ],
    )
}

#[test]
fn what_is_mentioned_need_not_exist(rt: HostRuntime) -> Result<(), Fail> {
    are_found(
        &rt,
        rt.alloc(),
        &[
            [b"%.o", b"%.c", b""],
            [b"%.o", b"%.s", b""],
            [b"%.o", b"", b"%.x"],
            [b"m", b"n.c", b"p.x"],
        ],
        &[
            (b"f/a.s", b"/", b"a.o", Some(1), b"a a.s | "),
            (b"f/b.c f/b.s f/b.x", b"/", b"b.o", Some(0), b"b b.c | "),
            (b"d/d f/d/a.c", b"/d", b"a.o", Some(0), b"a a.c | "),
            (b"d/d f/a.c", b"/d", b"a.o", None, b""),
            (b"d/e.c", b"/", b"e.o", Some(0), b"e e.c | "),
            (b"", b"/", b"n.o", Some(0), b"n n.c | "),
            (b"", b"/", b"p.o", Some(2), b"p  | p.x"),
            (b"f/.c", b"/", b".o", None, b""),
            (b"", b"/", b"m", None, b""),
        ],
    )
}

/// The targets that the rule makes, if it was found; else empty.
fn members(alloc: Global, book: &Book, target: &[u8], found: &Found) -> Result<Text, NoMemory> {
    let Some(rule) = book.patterns.get(found.rule) else {
        return Ok(Text::new(alloc));
    };
    let Some(matched) = match_at(rule, found.pattern, target) else {
        return Ok(Text::new(alloc));
    };
    join_texts(alloc, members_of(alloc, rule, matched)?.items())
}

/// Nodes, target; the rule that is found, its target pattern, and its stem with the members.
type Grouped = (
    &'static [u8],
    &'static [u8],
    usize,
    usize,
    &'static [u8],
    &'static [u8],
);

/// Whether what was found is what the case says.
fn is_group(
    alloc: Global,
    book: &Book,
    found: &Option<Found>,
    case: &Grouped,
) -> Result<bool, NoMemory> {
    let (_, target, rule, pattern, stem, want) = case;
    let Some(found) = found else {
        return Ok(false);
    };
    let names = members(alloc, book, target, found)?;
    let place = found.rule == *rule && found.pattern == *pattern;
    Ok(place && found.stem.bytes() == *stem && names.bytes() == *want)
}

#[test]
fn of_several_target_patterns_the_shorter_stem_wins(rt: HostRuntime) -> Result<(), Fail> {
    let alloc = rt.alloc();
    let book = book(
        alloc,
        &[
            [b"%.h %.c", b"%.y", b""],
            [b"%.o lib%.o", b"%.c", b""],
            [b"x%.o lib%.o", b"%.c", b""],
            [b"%.l ./%.k all", b"s", b""],
            [b"%a b%", b"s", b""],
        ],
    )?;
    let cases: [Grouped; 7] = [
        (b"f/p.y", b"p.c", 0, 1, b"p", b"p.h p.c"),
        (b"d/d f/d/p.y", b"d/p.h", 0, 0, b"d/p", b"d/p.h d/p.c"),
        (b"f/q.c f/libq.c", b"libq.o", 1, 1, b"q", b"q.o libq.o"),
        (b"f/libq.c", b"libq.o", 1, 0, b"libq", b"libq.o liblibq.o"),
        (b"f/q.c f/xq.c", b"xq.o", 2, 0, b"q", b"xq.o libq.o"),
        (b"f/s", b"m.l", 3, 0, b"m", b"m.l m.k all"),
        (b"f/s", b"bca", 4, 0, b"bc", b"bca bbc"),
    ];
    for case in &cases {
        let tree = tree(alloc, case.0)?;
        let found = find(alloc, &book, case.1, &tree, &path(alloc, b"/")?)?;
        assert!(rt; is_group(alloc, &book, &found, case)?);
    }
    Ok(())
}

/// The rule of the tests of one rule.
fn other_rule(alloc: Global) -> Result<Rule, NoMemory> {
    rule(alloc, &[b"%.o", b"%.c", b"x"])
}

#[test]
fn a_rule_makes_its_prerequisites(rt: HostRuntime) -> Result<(), Fail> {
    let rule = other_rule(rt.alloc())?;
    let Some(found) = match_at(&rule, 0, b"d/a.o") else {
        return Err(Fail::from("no match"));
    };
    let needed = prerequisites_of(rt.alloc(), &rule, found)?;
    let text = spelled(rt.alloc(), b"a", &needed)?;
    assert_eq!(rt; text.bytes(), b"a d/a.c | x".as_slice());
    Ok(())
}

#[test]
fn a_rule_matches_its_targets(rt: HostRuntime) -> Result<(), Fail> {
    let rule = other_rule(rt.alloc())?;
    assert!(rt; match_at(&rule, 0, b"a.x").is_none());
    assert!(rt; match_at(&rule, 1, b"a.o").is_none());
    let Some(found) = match_at(&rule, 0, b"d/e/a.o") else {
        return Err(Fail::from("no match"));
    };
    assert_eq!(rt; found.dir, b"d/e/".as_slice());
    assert_eq!(rt; found.stem, b"a".as_slice());
    Ok(())
}
