//! The search for a pattern rule in what a desk sees.

use crate::written::rule;
use em_base::{Fuel, NoMemory, Seq, Text};
use em_implicit::{Found, OnTree, find_by, find_through};
use em_path::Path;
use em_rules::{Book, BookNo, Rule};
use em_states::{state, states};
use em_tree::{Entry, Question};
use em_view::{Desk, DeskNo, PlainView, ScriptView, View};
use std::alloc::Global;
use std::test::Fail;

/// Targets, normal and order-only prerequisites of pattern rules.
static RULES: [[&[u8]; 3]; 3] = [
    [b"%.o", b"%.c", b"h"],
    [b"a%.o", b"b%.c m", b""],
    [b"%.o", b"%.s", b""],
];

/// Nodes, the units, and what is expected for `ax.o`: the rule with its stem, the paths whose kinds
/// were asked, in order.
static ROWS: [(&str, u64, &[u8]); 5] = [
    ("f/ax.c f/h", 9, b"0 ax /bx.c /ax.c /h"),
    ("f/bx.c f/m f/ax.c f/h", 9, b"1 x /bx.c /m"),
    ("f/ax.c f/ax.s", 9, b"2 ax /bx.c /ax.c /h /ax.s"),
    ("", 9, b"none /bx.c /ax.c /ax.s"),
    ("", 1, b"spent /bx.c"),
];

/// A rule with an empty recipe.
fn with_recipe(alloc: Global, lists: [&[u8]; 3]) -> Result<Rule, NoMemory> {
    let mut rule = rule(alloc, lists)?;
    rule.recipe = Some(Seq::new(alloc));
    Ok(rule)
}

fn book(alloc: Global) -> Result<Book, BookNo> {
    let mut book = Book::new(alloc)?;
    for lists in &RULES {
        book.add(with_recipe(alloc, *lists)?)?;
    }
    Ok(book)
}

fn number(found: &Found) -> &'static [u8] {
    match found.rule {
        0 => b"0 ",
        1 => b"1 ",
        _ => b"2 ",
    }
}

fn show_found(found: Result<Option<Found>, DeskNo>, text: &mut Text) -> Result<(), NoMemory> {
    match found {
        Ok(Some(found)) => {
            text.add(number(&found))?;
            text.add(found.stem.bytes())
        }
        Ok(None) => text.add(b"none"),
        Err(DeskNo::Spent) => text.add(b"spent"),
        Err(_) => text.add(b"no"),
    }
}

/// The paths whose kinds were asked.
pub fn show_asked(usage: &[Entry], text: &mut Text) -> Result<(), NoMemory> {
    for entry in usage {
        if let Question::Kind(path) = &entry.question {
            text.add(b" ")?;
            text.add(path.text())?;
        }
    }
    Ok(())
}

/// What is found through a view, and what was asked for it.
fn through<V: View>(alloc: Global, view: V, units: u64) -> Result<Text, Fail> {
    let book = book(alloc)?;
    let mut desk = Desk::new(alloc, view, 1, 0, Fuel::new(units.min(9)));
    let found = find_through(alloc, &book, b"ax.o", &mut desk, &Path::root());
    let mut text = Text::new(alloc);
    show_found(found, &mut text)?;
    let (usage, _, _) = desk.close();
    show_asked(&usage.entries(alloc)?, &mut text)?;
    Ok(text)
}

#[test]
fn the_shorter_stem_is_asked_first(rt: HostRuntime) -> Result<(), Fail> {
    for (nodes, units, want) in &ROWS {
        let state = state(rt.alloc(), nodes)?;
        let text = through(rt.alloc(), PlainView::new(&state), *units)?;
        assert!(rt; text.bytes() == *want);
    }
    Ok(())
}

/// A file that is there when it is asked for, and then nothing.
#[test]
fn answers_need_not_fit_together(rt: HostRuntime) -> Result<(), Fail> {
    let states = states(rt.alloc(), &["f/bx.c", "f/bx.c", ""])?;
    if states.is_empty() {
        return Err("no state".into());
    }
    let text = through(rt.alloc(), ScriptView::new(states), 9)?;
    assert!(rt; text.bytes() == b"none /bx.c /m /ax.c /ax.s".as_slice());
    Ok(())
}

#[test]
fn a_tree_is_asked_alike(rt: HostRuntime) -> Result<(), Fail> {
    let alloc = rt.alloc();
    let state = state(alloc, "f/ax.c f/h")?;
    let mut there = OnTree { tree: &state.tree };
    let found = find_by(alloc, &book(alloc)?, b"ax.o", &Path::root(), &mut there);
    let mut text = Text::new(alloc);
    show_found(found, &mut text)?;
    assert!(rt; text.bytes() == b"0 ax".as_slice());
    Ok(())
}
