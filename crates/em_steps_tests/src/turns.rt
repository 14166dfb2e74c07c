//! Jobs over a tree that doesn't change. The texts are those of docs/FORMATS.md. A question, a
//! change, a command and an expansion take a unit each, and so do each 256 bytes that are written
//! or expanded.
use super::makefiles::{NODES, job_of, state_of};
use super::shows::shown;
use em_base::Text;
use em_steps::JobSteps;
use em_view::PlainView;
use std::alloc::Global;
use std::test::Fail;

/// A makefile; what its job is told at its pauses; what is said and shown, with 90 units.
type TurnRow = (&'static str, &'static str, &'static str);

static LINES: [TurnRow; 17] = [
    (
        "all:\n\t@echo hi\n\tmake x y=2\n\techo bye\n",
        "0",
        "hi\nmake x y=2\n<x y=2> / / 1 V=1 y=2\necho bye\nbye\n|made 83",
    ),
    (
        "all:\n\tmake x\n\techo no\n",
        "2",
        "make x\n<x> / / 1 V=1\nemake: *** [Makefile:2: all] Error 2\n|failed 2 87",
    ),
    (
        "all:\n\tmake x\n\techo no\n",
        "1",
        "make x\n<x> / / 1 V=1\nemake: *** [Makefile:2: all] Error 1\n|failed 1 87",
    ),
    (
        "all:\n\t-make x\n\techo bye\n",
        "2",
        "make x\n<x> / / 1 V=1\nemake: [Makefile:2: all] Error 2 (ignored)\n\
         echo bye\nbye\n|made 85",
    ),
    (
        "all:\n\tmake x\n\tfalse\n\techo no\n",
        "0",
        "make x\n<x> / / 1 V=1\nfalse\nemake: *** [Makefile:3: all] Error 1\n|failed 1 86",
    ),
    // the target that has changed is deleted
    (
        "all:\n\techo a > all\n\tmake x\n.DELETE_ON_ERROR:\n",
        "2",
        "echo a > all\nmake x\n<x> / / 1 V=1\nemake: *** [Makefile:3: all] Error 2\n\
         emake: *** Deleting file 'all'\n|failed 2 78",
    ),
    // the shell's variables are made once for both lines
    (
        "export X = $(V)\nall:\n\tmake $$X\n\tmake $$X\n",
        "00",
        "make $X\n<1> / / 1 V=1\nmake $X\n<1> / / 1 V=1\n|made 79",
    ),
    (
        "all:\n\t$(MAKE) x\n",
        "0",
        "emake x\n<x> / / 1 V=1\n|made 85",
    ),
    // a directory that the job has made
    (
        "all:\n\t@mkdir e\n\tcd e && make x\n",
        "0",
        "cd e && make x\n<x> /e /e 1 V=1\n|made 83",
    ),
    (
        "all:\n\tcd d && make -C .. x\n",
        "0",
        "cd d && make -C .. x\n<-C .. x> / / 1 V=1\n|made 85",
    ),
    (
        "all:\n\tcd n && make\n",
        "",
        "cd n && make\nemake: *** n: no such directory.  Stop.\n\
         emake: *** [Makefile:2: all] Error 2\n|failed 2 86",
    ),
    (
        "all:\n\tmake -C a\n",
        "",
        "make -C a\nemake: *** a: no such directory.  Stop.\n\
         emake: *** [Makefile:2: all] Error 2\n|failed 2 87",
    ),
    (
        "all:\n\t-make -x\n\techo bye\n",
        "",
        "make -x\nemake: *** bad words.  Stop.\nemake: [Makefile:2: all] Error 2 (ignored)\n\
         echo bye\nbye\n|made 86",
    ),
    (
        "all:\n\tmake -j 65\n",
        "",
        "make -j 65\nemake: *** bad number '65'.  Stop.\n\
         emake: *** [Makefile:2: all] Error 2\n|failed 2 88",
    ),
    // the words are refused before the directory is asked for
    (
        "all:\n\tmake -C n =1\n",
        "",
        "make -C n =1\nemake: *** bad name '=1'.  Stop.\n\
         emake: *** [Makefile:2: all] Error 2\n|failed 2 88",
    ),
    (
        "all:\n\t! make x\n",
        "",
        "! make x\nemake: *** [Makefile:2: all] Refused: emake.  Stop.\n|refused make 88",
    ),
    // the make has spent the fuel
    (
        "all:\n\t-make x\n\techo no\n",
        "s",
        "make x\n<x> / / 1 V=1\nemake: *** [Makefile:2: all] Fuel spent.  Stop.\n|spent 87",
    ),
];

/// What a makefile's job comes to, by the option of this letter, at this depth, with these units.
fn shown_with(
    alloc: Global,
    makefile: &str,
    settings: (char, u8, u64),
    told: &str,
) -> Result<Text, Fail> {
    let (letter, depth, units) = settings;
    let state = state_of(alloc, makefile, NODES)?;
    let job = job_of(alloc, &state, letter)?;
    let steps = JobSteps::begin(alloc, &job, None, depth)?;
    shown(alloc, PlainView::new(&state), units, steps, told)
}

#[test]
fn lines_are_gone_through_up_to_each_make(rt: HostRuntime) -> Result<(), Fail> {
    for (makefile, told, want) in &LINES {
        let shown = shown_with(rt.alloc(), makefile, (' ', 0, 90), told)?;
        assert!(rt; shown.bytes() == want.as_bytes(), "{want}");
    }
    Ok(())
}

/// The letter of an option, the depth and the units; a makefile; what its job is told at its
/// pauses; what is said and shown.
type Row = ((char, u8, u64), &'static str, &'static str, &'static str);

static ROWS: [Row; 15] = [
    // only shown, but for the line with `+`; its make isn't told to do so
    (
        ('n', 0, 90),
        "all:\n\techo a\n\t+make x\n\tmake y\n",
        "0",
        "echo a\nmake x\n<x> / / 1 V=1\nmake y\n|made 87",
    ),
    (
        ('k', 0, 90),
        "all:\n\tmake -s -B x\n",
        "0",
        "make -s -B x\n<-s -B x> / / 1 -k -s -B V=1\n|made 87",
    ),
    (
        ('s', 0, 90),
        "all:\n\tmake -i\n",
        "0",
        "<-i> / / 1 -s -i V=1\n|made 87",
    ),
    (
        ('i', 0, 90),
        "all:\n\tmake x\n",
        "2",
        "make x\n<x> / / 1 -i V=1\nemake: [Makefile:2: all] Error 2 (ignored)\n|made 87",
    ),
    (
        ('B', 0, 90),
        "all:\n\tmake x\n",
        "0",
        "make x\n<x> / / 1 -B V=1\n|made 87",
    ),
    (('q', 0, 90), "all:\n\tmake x\n", "", "|made 89"),
    (
        (' ', 7, 90),
        "all:\n\tmake\n",
        "0",
        "make\n<> / / 8 V=1\n|made 87",
    ),
    (
        (' ', 8, 90),
        "all:\n\tmake\n",
        "",
        "make\nemake: *** [Makefile:2: all] Refused: depth.  Stop.\n|refused depth 87",
    ),
    // the directory is refused before the depth
    (
        (' ', 8, 90),
        "all:\n\tmake -C n\n",
        "",
        "make -C n\nemake: *** n: no such directory.  Stop.\n\
         emake: *** [Makefile:2: all] Error 2\n|failed 2 87",
    ),
    // fuel ends before the pause
    (
        (' ', 0, 0),
        "all:\n\tmake x\n",
        "",
        "emake: *** [all] Fuel spent.  Stop.\n|spent 0",
    ),
    (
        (' ', 0, 1),
        "all:\n\tmake x\n",
        "",
        "make x\nemake: *** [Makefile:2: all] Fuel spent.  Stop.\n|spent 0",
    ),
    (
        (' ', 0, 2),
        "all:\n\tmake x\n",
        "",
        "make x\nemake: *** [Makefile:2: all] Fuel spent.  Stop.\n|spent 0",
    ),
    // and behind it
    (
        (' ', 0, 3),
        "all:\n\tmake x\n\techo a\n",
        "0",
        "make x\n<x> / / 1 V=1\necho a\n\
         emake: *** [Makefile:3: all] Fuel spent.  Stop.\n|spent 0",
    ),
    (
        (' ', 0, 4),
        "all:\n\tmake x\n\techo a\n",
        "0",
        "make x\n<x> / / 1 V=1\necho a\n\
         emake: *** [Makefile:3: all] Fuel spent.  Stop.\n|spent 0",
    ),
    (
        (' ', 0, 5),
        "all:\n\tmake x\n\techo a\n",
        "0",
        "make x\n<x> / / 1 V=1\necho a\na\n|made 0",
    ),
];

#[test]
fn settings_depth_and_fuel_are_minded(rt: HostRuntime) -> Result<(), Fail> {
    for (settings, makefile, told, want) in &ROWS {
        let shown = shown_with(rt.alloc(), makefile, *settings, told)?;
        assert!(rt; shown.bytes() == want.as_bytes(), "{want}");
    }
    Ok(())
}
