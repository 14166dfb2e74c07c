//! What commands need that runs no others.
ghost use Rattle.std.specs.Prelude.{◌≡◌, ◌<◌, ◌++◌, ◌∷◌, [], false, IfOk};
ghost use Rattle.em_command.specs.Jumps.{is_free, of_desk};
ghost use Rattle.em_command.specs.declared.here.Here.{Here as State};
ghost use Rattle.em_exec.specs.Running as steps;
ghost use Rattle.em_exec.specs.Copies.{unwritten};
ghost use Rattle.em_exec.specs.Subs.{is_ended};
ghost use Rattle.em_exec.specs.Words.{in_copy};
ghost use Rattle.em_view.specs.Actions.{spend};
ghost use Rattle.em_view.specs.Performs.{is_free as free_in};
ghost use Rattle.em_view.specs.Steps.{Does, below};

use bytes::Bytes;
use em_base::{NoMemory, Seq, Text};
use em_command::{Here, Jump, Scene, Streams, deliver, hand};
use em_tree::Body;
use em_view::{Desk, ExecNo, Piece, View};
use std::alloc::Global;
use std::mem;

/// Where a copy of the shell stands that reads this.
pub(crate) fn apart(input: &Body) -> Result<Scene, NoMemory>
    ensures { IfOk result (λ s. s ≡ in_copy input.now) }
{
    Ok(Scene {
        input: input.copy()?,
        in_loop: false,
    })
}

/// Where the parts of a loop stand.
pub(crate) fn in_loop(scene: &Scene) -> Result<Scene, NoMemory>
    ensures { IfOk result (λ s. s ≡ steps.in_loop scene.now) }
{
    Ok(Scene {
        input: scene.input.copy()?,
        in_loop: true,
    })
}

/// Where a command stands with these streams.
pub(crate) fn within(streams: &Streams, scene: &Scene) -> Result<Scene, NoMemory>
    ensures { IfOk result (λ s. s ≡ steps.within_streams streams.now scene.now) }
{
    Ok(Scene {
        input: streams.input(&scene.input)?,
        in_loop: scene.in_loop,
    })
}

/// The bytes of a text, to be read.
pub(crate) fn body_of(text: Text) -> Result<Body, NoMemory>
    ensures { IfOk result (λ b. b ≡ text) }
{
    Ok(Body::from_bytes(Bytes::from_vec(text.into_vec())?))
}

/// Takes a unit.
pub(crate) fn charge_unit<V: View>(desk: &mut Desk<V>) -> Result<(), Jump>
    ensures does { (h : State)
        → Does is_free V.tells desk.old desk.new h h result (below of_desk (spend 1)) }
    ensures burns { is_ended result ≡ false → desk.new.work.fuel < desk.old.work.fuel }
{
    match desk.take(1) {
        Ok(()) => Ok(()),
        Err(e) => Err(Jump::End(ExecNo::from(e))),
    }
}

pub(crate) fn appended(so_far: Seq<Text>, more: Seq<Text>) -> Result<Seq<Text>, NoMemory>
    ensures { IfOk result (λ all. all ≡ so_far ++ more) }
{
    let mut all = so_far.into_vec();
    all.extend(more.into_vec())?;
    Ok(Seq::from_vec(all))
}

/// The texts with one more.
pub(crate) fn with_text(
    alloc: Global,
    so_far: Seq<Text>,
    text: &[u8],
) -> Result<Seq<Text>, NoMemory>
    ensures { IfOk result (λ all. all ≡ so_far ++ text.now ∷ []) }
{
    let mut all = so_far;
    all.push(Text::from_slice(alloc, text)?)?;
    Ok(all)
}

/// What was written so far is put aside.
pub(crate) fn take_pieces(alloc: Global, here: &mut Here) -> Seq<Piece>
    ensures pieces { result ≡ here.old.pieces }
    ensures state { here.new ≡ unwritten here.old }
{
    mem::replace(&mut here.pieces, Seq::new(alloc))
}

/// What was put aside comes back in place of what was written since.
pub(crate) fn put_back(here: &mut Here, before: Seq<Piece>) -> Seq<Piece>
    ensures pieces { result ≡ here.old.pieces }
    ensures state { here.new ≡ record here.old { pieces = before } }
{
    mem::replace(&mut here.pieces, before)
}

/// Whether it has no end: a construct is refused, fuel is spent, or memory is short.
fn has_no_end(ended: &Result<(), Jump>) -> bool
    ensures { result ≡ steps.has_no_end ended.now }
{
    match ended {
        Err(Jump::End(_)) => true,
        Ok(()) | Err(Jump::Exit) | Err(Jump::Break) | Err(Jump::Continue) => false,
    }
}

/// Hands on what a compound command has written, and how it ended.
pub(crate) fn pass_on<V: View>(
    alloc: Global,
    streams: &Streams,
    pieces: Seq<Piece>,
    ended: Result<(), Jump>,
    here: &mut Here,
    desk: &mut Desk<V>,
) -> Result<(), Jump>
    ensures does { Does is_free V.tells desk.old desk.new here.old here.new result
        (steps.passed_on streams.now (record { pieces = pieces; ended = ended })) }
    ensures kept { free_in is_free result ≡ false → free_in is_free ended ≡ false }
{
    if has_no_end(&ended) {
        hand(streams, pieces, here)?;
        return ended;
    }
    deliver(alloc, streams, pieces, here, desk)?;
    ended
}
