//! Rounds of reading, which note files. A round is shown as a text: what was said; the names of the
//! files that were read; each that isn't there, with its place and, where it isn't needed, a `?`.
ghost use Rattle.std.specs.Prelude.{◌≡◌, None};
ghost use Rattle.em_path.specs.Paths.{root_text};
ghost use Rattle.em_path.specs.Reading.{read_fault};

use super::*;
use em_reader::{Missing, Round, read_round};

/// Files that are read and those that aren't there, and the first fault.
const ROUNDS: [Row; 6] = [
    (
        b"include ?.c inc.mk\nMAX := xx\ninclude deep.mk\n",
        b"Makefile a.c b.c inc.mk deep.mk deep.mk",
    ),
    (
        b"$(info 1)\ninclude no inc.mk\n-include also d\nsinclude x.mk\n",
        b"1\nMakefile inc.mk*** Makefile:2: no*** Makefile:3: also?*** Makefile:3: d?*** Makefile:4: x.mk?",
    ),
    (
        b"$(eval include no)\nifdef X\ninclude other\nendif\n",
        b"Makefile*** Makefile:1: no",
    ),
    (b"include no\n\nbad\n", b"*** Makefile:3: separator"),
    (b"include no bad.mk\n", b"*** bad.mk:2: separator"),
    (b"include $(shell x)\n", b"*** Makefile:1: refused shell"),
];

fn add_missing(text: &mut Text, missing: &Missing) -> Result<(), NoMemory> {
    add_place(text, &missing.place)?;
    text.add(missing.name.bytes())?;
    text.add(if missing.needed { b"" } else { b"?" })
}

/// Appends what a round has noted.
fn add_round(alloc: Global, text: &mut Text, round: &Round) -> Result<(), NoMemory> {
    add_list(alloc, text, round.files.items(), b"")?;
    for missing in round.missing.items() {
        add_missing(text, missing)?;
    }
    Ok(())
}

/// Appends what a round of the order gives in the state.
fn add_noted(alloc: Global, text: &mut Text, state: &State, order: &Order) -> Result<(), NoMemory>
    requires { read_fault root_text order.now.dir ≡ None }
{
    match read_round(alloc, state, order, text) {
        Ok(round) => add_round(alloc, text, &round),
        Err(no) => add_fault(text, &no),
    }
}

/// Whether this is what a round of the order gives, where a makefile of this name stands.
fn is_noted(
    alloc: Global,
    order: &Order,
    makefile: (&[u8], &[u8]),
    wanted: &[u8],
) -> Result<bool, Fail>
    requires { read_fault root_text order.now.dir ≡ None }
{
    let (name, text) = makefile;
    let state = state(alloc, name, text)?;
    let mut shown = Text::new(alloc);
    add_noted(alloc, &mut shown, &state, order)?;
    Ok(shown.bytes() == wanted)
}

#[test]
fn a_round_notes_files(rt: HostRuntime) -> Result<(), Fail> {
    let order = order(rt.alloc())?;
    for (makefile, wanted) in &ROUNDS {
        assert!(rt; is_noted(rt.alloc(), &order, (b"/Makefile", makefile), wanted)?);
    }
    Ok(())
}

/// The makefile's name in the order; what a round gives where `x.mk` stands.
const FOUND: [(&[u8], &[u8]); 3] = [
    (b"", b""),
    (b"x.mk", b"x.mk*** x.mk:1: no"),
    (b"y.mk", b"*** y.mk:1: include y.mk"),
];

#[test]
fn a_round_refuses_an_absent_makefile(rt: HostRuntime) -> Result<(), Fail> {
    for (name, wanted) in &FOUND {
        let mut order = order(rt.alloc())?;
        order.makefile = orders::makefile(rt.alloc(), name)?;
        assert!(rt; is_noted(rt.alloc(), &order, (b"/x.mk", b"include no\n"), wanted)?);
    }
    Ok(())
}
