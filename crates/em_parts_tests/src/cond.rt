use em_cond::{CondNo, Nest};
use std::alloc::Global;
use std::test::Fail;

#[derive(Clone, Copy)]
enum CondLine {
    If(bool),
    ElseIf(bool),
    Else,
    EndIf,
}

/// The next line on a nest.
fn step(nest: &mut Nest, line: CondLine) -> Result<(), CondNo> {
    match line {
        CondLine::If(holds) => nest.enter(holds),
        CondLine::ElseIf(holds) => nest.other(Some(holds)),
        CondLine::Else => nest.other(None),
        CondLine::EndIf => nest.leave(),
    }
}

/// The lines one after another on a new nest: the place of the first that doesn't fit, and whether
/// lines are read behind them.
fn read(alloc: Global, lines: &[CondLine]) -> (Option<usize>, bool) {
    let mut nest = Nest::new(alloc);
    for (at, line) in lines.iter().enumerate() {
        if step(&mut nest, *line).is_err() {
            return (Some(at), nest.active());
        }
    }
    (None, nest.active())
}

/// Whether the condition of a further branch matters behind the lines.
fn turns(alloc: Global, lines: &[CondLine]) -> bool {
    let mut nest = Nest::new(alloc);
    for line in lines {
        let _ = step(&mut nest, *line);
    }
    nest.may_turn()
}

#[test]
fn the_first_branch_that_holds_is_read(rt: HostRuntime) {
    for (lines, wanted) in [
        ([].as_slice(), (None, true)),
        (&[CondLine::If(true)], (None, true)),
        (&[CondLine::If(false)], (None, false)),
        (&[CondLine::If(true), CondLine::Else], (None, false)),
        (&[CondLine::If(false), CondLine::Else], (None, true)),
        (&[CondLine::If(false), CondLine::ElseIf(true)], (None, true)),
        (&[CondLine::If(true), CondLine::ElseIf(true)], (None, false)),
        (
            &[CondLine::If(false), CondLine::ElseIf(true), CondLine::Else],
            (None, false),
        ),
        (
            &[CondLine::If(false), CondLine::ElseIf(false), CondLine::Else],
            (None, true),
        ),
        (
            &[
                CondLine::If(false),
                CondLine::ElseIf(false),
                CondLine::ElseIf(true),
                CondLine::ElseIf(true),
            ],
            (None, false),
        ),
        // a branch within one that isn't read isn't read
        (&[CondLine::If(false), CondLine::If(true)], (None, false)),
        (&[CondLine::If(true), CondLine::If(true)], (None, true)),
        (
            &[CondLine::If(true), CondLine::If(false), CondLine::EndIf],
            (None, true),
        ),
        (
            &[
                CondLine::If(false),
                CondLine::If(true),
                CondLine::EndIf,
                CondLine::Else,
            ],
            (None, true),
        ),
    ] {
        assert!(rt; read(rt.alloc(), lines) == wanted);
    }
}

#[test]
fn what_is_not_balanced_is_refused_and_changes_nothing(rt: HostRuntime) {
    for (lines, wanted) in [
        ([CondLine::EndIf].as_slice(), (Some(0), true)),
        (&[CondLine::Else], (Some(0), true)),
        (&[CondLine::ElseIf(true)], (Some(0), true)),
        (
            &[CondLine::If(false), CondLine::Else, CondLine::Else],
            (Some(2), true),
        ),
        (
            &[CondLine::If(false), CondLine::Else, CondLine::ElseIf(true)],
            (Some(2), true),
        ),
        (
            &[
                CondLine::If(false),
                CondLine::ElseIf(false),
                CondLine::ElseIf(false),
            ],
            (None, false),
        ),
        (
            &[CondLine::If(true), CondLine::EndIf, CondLine::EndIf],
            (Some(2), true),
        ),
    ] {
        assert!(rt; read(rt.alloc(), lines) == wanted);
    }
}

#[test]
fn a_condition_matters_where_no_branch_was_read(rt: HostRuntime) {
    for (lines, wanted) in [
        ([].as_slice(), false),
        (&[CondLine::If(false)], true),
        (&[CondLine::If(true)], false),
        (&[CondLine::If(false), CondLine::ElseIf(false)], true),
        (&[CondLine::If(false), CondLine::ElseIf(true)], false),
        (&[CondLine::If(false), CondLine::Else], false),
        (&[CondLine::If(true), CondLine::If(false)], true),
        (&[CondLine::If(false), CondLine::If(false)], false),
    ] {
        assert!(rt; turns(rt.alloc(), lines) == wanted);
    }
}
