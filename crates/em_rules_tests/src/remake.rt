//! Makefiles that are remade.
use crate::plan::book;
use crate::written::{names, place};
use em_base::{NoMemory, Seq, Text};
use em_path::Path;
use em_reader::{Missing, Round};
use em_remake::{changed, goals_of};
use em_tree::Tree;
use em_wordlist::join_texts;
use std::alloc::Global;
use std::test::Fail;

/// Rules, the files that were read, those that aren't there; the goals.
static ROUNDS: [(&[u8], &[u8], &[u8], &[u8]); 4] = [
    // a recipe makes a goal, also of a file that is not there
    (
        b"a.mk|s||;b.mk|s|;c.mk|||",
        b"Makefile a.mk b.mk",
        b"c.mk d.mk",
        b"a.mk c.mk",
    ),
    // files that were read come first, each once and without `./`
    (
        b"a.mk|||;b.mk|||",
        b"./b.mk b.mk",
        b"a.mk ././b.mk ./a.mk",
        b"b.mk a.mk",
    ),
    // a pattern rule applies to one of them
    (b"%.mk|%.in||;all|e.in|", b"d.mk e.mk", b"", b"e.mk"),
    // a phony file has a rule of its own, and one that a pattern rule applies to
    (
        b"%.mk|x||;x|||;y|||;.PHONY|x d.mk|",
        b"x y",
        b"d.mk e.mk",
        b"y e.mk",
    ),
];

/// These files aren't there.
fn missing(alloc: Global, files: &[u8]) -> Result<Seq<Missing>, NoMemory> {
    let mut missing = Seq::new(alloc);
    for name in names(alloc, files)?.into_vec() {
        missing.push(Missing {
            name,
            place: place(alloc)?,
            needed: true,
        })?;
    }
    Ok(missing)
}

/// The goals of a round, with blanks between them.
fn goals(alloc: Global, rules: &[u8], files: &[u8], absent: &[u8]) -> Result<Text, Fail> {
    let round = Round {
        book: book(alloc, rules)?,
        files: names(alloc, files)?,
        missing: missing(alloc, absent)?,
    };
    let tree = Tree::new(alloc, 1)?;
    let goals = goals_of(alloc, &round, &tree, &Path::root())?;
    Ok(join_texts(alloc, goals.items())?)
}

#[test]
fn goals_are_files_that_have_a_recipe(rt: HostRuntime) -> Result<(), Fail> {
    for (rules, files, absent, wanted) in &ROUNDS {
        let goals = goals(rt.alloc(), rules, files, absent)?;
        assert_eq!(rt; goals.bytes(), *wanted);
    }
    Ok(())
}

/// Names, and whether one of them has another stamp where the root alone was changed.
static NAMES: [(&[u8], bool); 3] = [(b"a", false), (b"a /", true), (b"", false)];

#[test]
fn a_stamp_tells_a_change(rt: HostRuntime) -> Result<(), Fail> {
    let before = Tree::new(rt.alloc(), 1)?;
    let after = Tree::new(rt.alloc(), 2)?;
    for (line, wanted) in &NAMES {
        let names = names(rt.alloc(), line)?;
        let found = changed(rt.alloc(), &before, &after, names.items(), &Path::root())?;
        assert_eq!(rt; found, *wanted);
    }
    Ok(())
}
