//! The constructs of the syntax tree, one function each.
ghost use Rattle.std.specs.Prelude.{◌≡◌, ◌∷◌, ◌++◌, [], option_map};
ghost use Rattle.em_command.specs.Jumps.{is_free};
ghost use Rattle.em_exec.specs.Running as steps;
ghost use Rattle.em_exec.specs.Running.{script_at};
ghost use Rattle.em_exec.specs.Words as expanding;
ghost use Rattle.em_exec.specs.Leads.{Turned};
ghost use Rattle.em_exec.specs.Words.{in_copy};
ghost use Rattle.em_word.specs.Held.{IsReady};
ghost use Rattle.em_syntax.specs.declared.tree.Simple.{out-Simple};
ghost use Rattle.em_syntax.specs.declared.tree.Loop.{out-Loop};
ghost use Rattle.em_syntax.specs.declared.tree.For.{out-For};
ghost use Rattle.em_command.specs.Streams.{around};
ghost use Rattle.em_exec.specs.Copies.{subshell, heard, substituted};
ghost use Rattle.em_view.specs.Steps.{Does};

use crate::expand::{Expansion, fields_in, first_in, glyphs_in};
use crate::literals::are_said;
use crate::loops::{LoopTurn, body_status, goes_on, goes_with, is_broken, opposite, turn_of};
use crate::parts::{
    apart, appended, body_of, charge_unit, in_loop, pass_on, put_back, take_pieces, with_text,
    within,
};
use em_base::{Construct, Seq, Text};
use em_command::{Here, Jump, Scene, Streams, perform, redirect};
use em_glob::{Glyph, matches};
use em_syntax::{
    AndOr, Assigned, Branch, Case, Command, Compound, For, If, Item, Joined, Loop, Pipeline,
    Redirect, Script, Simple, Word,
};
use em_tree::Body;
use em_view::{Desk, ExecNo, View};
use em_word::{Expander, Mode, WordTurn, literal};
use std::alloc::Global;

/// A script, in which so many levels of commands and substitutions may stand.
#[cycle(shell)]
pub(crate) fn script_in<V: View>(
    alloc: Global,
    left: u32,
    script: &Script,
    scene: &Scene,
    here: &mut Here,
    desk: &mut Desk<V>,
) -> Result<(), Jump>
    ensures { Does is_free V.tells desk.old desk.new here.old here.new result
        (script_at left script.now scene.now) }
{
    if left == 0 {
        return Err(Jump::End(ExecNo::Refused(Construct::Depth)));
    }
    list_in(alloc, left - 1, &script.list, scene, here, desk)
}

/// A list of commands.
#[cycle(shell)]
fn list_in<V: View>(
    alloc: Global,
    left: u32,
    list: &[AndOr],
    scene: &Scene,
    here: &mut Here,
    desk: &mut Desk<V>,
) -> Result<(), Jump>
    ensures { Does is_free V.tells desk.old desk.new here.old here.new result
        (steps.script_of (script_at left) scene.now list.now) }
{
    if list.is_empty() {
        here.shell.status = 0;
        return Ok(());
    }
    for and_or in list {
        and_or_in(alloc, left, and_or, scene, here, desk)?;
    }
    Ok(())
}

/// Pipelines joined by `&&` and `||`.
#[cycle(shell)]
fn and_or_in<V: View>(
    alloc: Global,
    left: u32,
    and_or: &AndOr,
    scene: &Scene,
    here: &mut Here,
    desk: &mut Desk<V>,
) -> Result<(), Jump>
    ensures { Does is_free V.tells desk.old desk.new here.old here.new result
        (steps.and_or_of (script_at left) scene.now and_or.now) }
{
    pipeline_in(alloc, left, &and_or.first, scene, here, desk)?;
    for joined in &and_or.rest {
        joined_in(alloc, left, joined, scene, here, desk)?;
    }
    Ok(())
}

/// A pipeline behind `&&` or `||`.
#[cycle(shell)]
pub(crate) fn joined_in<V: View>(
    alloc: Global,
    left: u32,
    joined: &Joined,
    scene: &Scene,
    here: &mut Here,
    desk: &mut Desk<V>,
) -> Result<(), Jump>
    ensures { Does is_free V.tells desk.old desk.new here.old here.new result
        (steps.joined_one (script_at left) scene.now joined.now) }
{
    if goes_with(joined.and, here.shell.status) {
        return pipeline_in(alloc, left, &joined.next, scene, here, desk);
    }
    Ok(())
}

/// A pipeline.
#[cycle(shell)]
fn pipeline_in<V: View>(
    alloc: Global,
    left: u32,
    pipeline: &Pipeline,
    scene: &Scene,
    here: &mut Here,
    desk: &mut Desk<V>,
) -> Result<(), Jump>
    ensures { Does is_free V.tells desk.old desk.new here.old here.new result
        (steps.pipeline_of (script_at left) scene.now pipeline.now) }
{
    stages_in(alloc, left, &pipeline.stages, scene, here, desk)?;
    if pipeline.not {
        here.shell.status = opposite(here.shell.status);
        return Ok(());
    }
    Ok(())
}

/// The stages of a pipeline.
#[cycle(shell)]
fn stages_in<V: View>(
    alloc: Global,
    left: u32,
    stages: &[Command],
    scene: &Scene,
    here: &mut Here,
    desk: &mut Desk<V>,
) -> Result<(), Jump>
    ensures { Does is_free V.tells desk.old desk.new here.old here.new result
        (steps.stages (script_at left) scene.now stages.now) }
{
    match stages.split_last() {
        None => Ok(()),
        Some((last, others)) => stages_by(alloc, left, others, last, scene, here, desk),
    }
}

/// The stages before the last one, and that. One alone runs in the shell itself.
#[cycle(shell)]
fn stages_by<V: View>(
    alloc: Global,
    left: u32,
    others: &[Command],
    last: &Command,
    scene: &Scene,
    here: &mut Here,
    desk: &mut Desk<V>,
) -> Result<(), Jump>
    ensures { Does is_free V.tells desk.old desk.new here.old here.new result
        (steps.stages (script_at left) scene.now (others.now ++ last.now ∷ [])) }
{
    if others.is_empty() {
        return command_in(alloc, left, last, scene, here, desk);
    }
    piped(alloc, left, others, last, here, desk)
}

/// Stages, each of which reads what the one before has written.
#[cycle(shell)]
fn piped<V: View>(
    alloc: Global,
    left: u32,
    others: &[Command],
    last: &Command,
    here: &mut Here,
    desk: &mut Desk<V>,
) -> Result<(), Jump>
    ensures { Does is_free V.tells desk.old desk.new here.old here.new result
        (steps.piped (script_at left) [] (others.now ++ last.now ∷ [])) }
{
    let mut input = Body::from_slice(alloc, b"")?;
    for stage in others {
        let text = stage_output(alloc, left, stage, &input, here, desk)?;
        input = body_of(text)?;
    }
    last_stage(alloc, left, last, &input, here, desk)
}

/// What a stage writes for the next one.
#[cycle(shell)]
fn stage_output<V: View>(
    alloc: Global,
    left: u32,
    stage: &Command,
    input: &Body,
    here: &mut Here,
    desk: &mut Desk<V>,
) -> Result<Text, Jump>
    ensures { Does is_free V.tells desk.old desk.new here.old here.new result
        (heard (steps.command_of (script_at left) (in_copy input.now) stage.now)) }
{
    let mut copy = here.branch(alloc)?;
    let scene = apart(input)?;
    let ended = command_in(alloc, left, stage, &scene, &mut copy, desk);
    here.overhear(alloc, copy, ended)
}

/// The last stage.
#[cycle(shell)]
fn last_stage<V: View>(
    alloc: Global,
    left: u32,
    last: &Command,
    input: &Body,
    here: &mut Here,
    desk: &mut Desk<V>,
) -> Result<(), Jump>
    ensures { Does is_free V.tells desk.old desk.new here.old here.new result
        (subshell (steps.command_of (script_at left) (in_copy input.now) last.now)) }
{
    let mut copy = here.branch(alloc)?;
    let scene = apart(input)?;
    let ended = command_in(alloc, left, last, &scene, &mut copy, desk);
    here.rejoin(copy, ended)
}

/// A command.
#[cycle(shell)]
fn command_in<V: View>(
    alloc: Global,
    left: u32,
    command: &Command,
    scene: &Scene,
    here: &mut Here,
    desk: &mut Desk<V>,
) -> Result<(), Jump>
    ensures { Does is_free V.tells desk.old desk.new here.old here.new result
        (steps.command_of (script_at left) scene.now command.now) }
{
    match command {
        Command::Simple(simple) => simple_in(alloc, left, simple, scene, here, desk),
        Command::Compound(compound, redirects) => {
            compound_in(alloc, left, compound, redirects, scene, here, desk)
        }
    }
}

/// A simple command.
#[cycle(shell)]
fn simple_in<V: View>(
    alloc: Global,
    left: u32,
    simple: &Simple,
    scene: &Scene,
    here: &mut Here,
    desk: &mut Desk<V>,
) -> Result<(), Jump>
    ensures { Does is_free V.tells desk.old desk.new here.old here.new result
        (steps.simple_of (script_at left) scene.now simple.now) }
{
    charge_unit(desk)?;
    here.substituted = 0;
    if are_said(&simple.texts, &simple.words) {
        return worded_in(alloc, left, simple, &simple.texts, scene, here, desk);
    }
    let words = fields_of(alloc, left, &simple.words, scene, here, desk)?;
    worded_in(alloc, left, simple, words.items(), scene, here, desk)
}

/// A simple command whose words are known.
#[cycle(shell)]
pub(crate) fn worded_in<V: View>(
    alloc: Global,
    left: u32,
    simple: &Simple,
    words: &[Text],
    scene: &Scene,
    here: &mut Here,
    desk: &mut Desk<V>,
) -> Result<(), Jump>
    ensures { Does is_free V.tells desk.old desk.new here.old here.new result
        (steps.of_words (script_at left) scene.now simple.now words.now) }
{
    match redirects_in(alloc, left, &simple.redirects, scene, here, desk)? {
        Some(streams) => acted(alloc, left, simple, words, &streams, scene, here, desk),
        None => Ok(()),
    }
}

/// What a simple command does, once its words and redirections are known.
#[cycle(shell)]
fn acted<V: View>(
    alloc: Global,
    left: u32,
    simple: &Simple,
    words: &[Text],
    streams: &Streams,
    scene: &Scene,
    here: &mut Here,
    desk: &mut Desk<V>,
) -> Result<(), Jump>
    ensures { Does is_free V.tells desk.old desk.new here.old here.new result
        (steps.act (script_at left) scene.now
        (out-Simple simple.now).assigned.items words.now streams.now) }
{
    let alone = words.is_empty();
    assignments_in(alloc, left, &simple.assigned, alone, scene, here, desk)?;
    if alone {
        here.shell.status = here.substituted;
        return Ok(());
    }
    perform(
        alloc,
        words,
        streams,
        scene.input.bytes(),
        scene.in_loop,
        here,
        desk,
    )
}

/// The assignments of a simple command: whether they set variables, or are expanded alone.
#[cycle(shell)]
fn assignments_in<V: View>(
    alloc: Global,
    left: u32,
    assigned: &[Assigned],
    sets: bool,
    scene: &Scene,
    here: &mut Here,
    desk: &mut Desk<V>,
) -> Result<(), Jump>
    ensures { Does is_free V.tells desk.old desk.new here.old here.new result
        (steps.assignments (script_at left) scene.now sets assigned.now) }
{
    for one in assigned {
        assignment_in(alloc, left, one, sets, scene, here, desk)?;
    }
    Ok(())
}

/// An assignment.
#[cycle(shell)]
fn assignment_in<V: View>(
    alloc: Global,
    left: u32,
    assigned: &Assigned,
    sets: bool,
    scene: &Scene,
    here: &mut Here,
    desk: &mut Desk<V>,
) -> Result<(), Jump>
    ensures { Does is_free V.tells desk.old desk.new here.old here.new result
        (steps.assignment (script_at left) scene.now sets assigned.now) }
{
    let text = whole(alloc, left, &assigned.value, scene, here, desk)?;
    if sets {
        return here.assign(alloc, assigned.name.bytes(), text);
    }
    Ok(())
}

/// The streams behind the redirections; none where one of them failed.
#[cycle(shell)]
fn redirects_in<V: View>(
    alloc: Global,
    left: u32,
    redirects: &[Redirect],
    scene: &Scene,
    here: &mut Here,
    desk: &mut Desk<V>,
) -> Result<Option<Streams>, Jump>
    ensures { Does is_free V.tells desk.old desk.new here.old here.new result
        (steps.redirects (script_at left) scene.now redirects.now around) }
{
    let mut streams = Streams::around(alloc);
    for one in redirects {
        match redirect_in(alloc, left, one, streams, scene, here, desk)? {
            Some(next) => streams = next,
            None => return Ok(None),
        }
    }
    Ok(Some(streams))
}

/// A redirection.
#[cycle(shell)]
fn redirect_in<V: View>(
    alloc: Global,
    left: u32,
    one: &Redirect,
    streams: Streams,
    scene: &Scene,
    here: &mut Here,
    desk: &mut Desk<V>,
) -> Result<Option<Streams>, Jump>
    ensures { Does is_free V.tells desk.old desk.new here.old here.new result
        (steps.redirect_one (script_at left) scene.now one.now streams) }
{
    let word = whole(alloc, left, &one.target, scene, here, desk)?;
    redirect(alloc, one.fd, one.kind, word.bytes(), streams, here, desk)
}

/// A compound command with its redirections.
#[cycle(shell)]
fn compound_in<V: View>(
    alloc: Global,
    left: u32,
    compound: &Compound,
    redirects: &[Redirect],
    scene: &Scene,
    here: &mut Here,
    desk: &mut Desk<V>,
) -> Result<(), Jump>
    ensures { Does is_free V.tells desk.old desk.new here.old here.new result
        (steps.compound_of (script_at left) scene.now compound.now redirects.now) }
{
    match redirects_in(alloc, left, redirects, scene, here, desk)? {
        Some(streams) => routed(alloc, left, compound, &streams, scene, here, desk),
        None => Ok(()),
    }
}

/// A compound command with its streams.
#[cycle(shell)]
fn routed<V: View>(
    alloc: Global,
    left: u32,
    compound: &Compound,
    streams: &Streams,
    scene: &Scene,
    here: &mut Here,
    desk: &mut Desk<V>,
) -> Result<(), Jump>
    ensures { Does is_free V.tells desk.old desk.new here.old here.new result
        (steps.routed (script_at left) scene.now compound.now streams.now) }
{
    let scene = within(streams, scene)?;
    let before = take_pieces(alloc, here);
    let ended = body_in(alloc, left, compound, &scene, here, desk);
    let pieces = put_back(here, before);
    pass_on(alloc, streams, pieces, ended, here, desk)
}

/// A compound command.
#[cycle(shell)]
fn body_in<V: View>(
    alloc: Global,
    left: u32,
    compound: &Compound,
    scene: &Scene,
    here: &mut Here,
    desk: &mut Desk<V>,
) -> Result<(), Jump>
    ensures { Does is_free V.tells desk.old desk.new here.old here.new result
        (steps.body_of (script_at left) scene.now compound.now) }
{
    match compound {
        Compound::Subshell(script) => subshell_in(alloc, left, script, scene, here, desk),
        Compound::Group(script) => script_in(alloc, left, script, scene, here, desk),
        Compound::If(it) => if_in(alloc, left, it, scene, here, desk),
        Compound::Loop(it) => loop_in(alloc, left, it, scene, here, desk),
        Compound::For(it) => for_in(alloc, left, it, scene, here, desk),
        Compound::Case(it) => case_in(alloc, left, it, scene, here, desk),
    }
}

/// `( )`
#[cycle(shell)]
fn subshell_in<V: View>(
    alloc: Global,
    left: u32,
    script: &Script,
    scene: &Scene,
    here: &mut Here,
    desk: &mut Desk<V>,
) -> Result<(), Jump>
    ensures { Does is_free V.tells desk.old desk.new here.old here.new result
        (subshell (script_at left script.now (in_copy scene.now.input))) }
{
    let mut copy = here.branch(alloc)?;
    let scene = apart(&scene.input)?;
    let ended = script_in(alloc, left, script, &scene, &mut copy, desk);
    here.rejoin(copy, ended)
}

/// The output of a command substitution.
#[cycle(shell)]
fn output_of<V: View>(
    alloc: Global,
    left: u32,
    script: &Script,
    scene: &Scene,
    here: &mut Here,
    desk: &mut Desk<V>,
) -> Result<Text, Jump>
    ensures { Does is_free V.tells desk.old desk.new here.old here.new result
        (expanding.output (script_at left) scene.now script.now) }
{
    let mut copy = here.branch(alloc)?;
    let scene = apart(&scene.input)?;
    let ended = script_in(alloc, left, script, &scene, &mut copy, desk);
    here.substituted = copy.shell.status;
    here.overhear(alloc, copy, ended)
}

/// `if`
#[cycle(shell)]
fn if_in<V: View>(
    alloc: Global,
    left: u32,
    it: &If,
    scene: &Scene,
    here: &mut Here,
    desk: &mut Desk<V>,
) -> Result<(), Jump>
    ensures { Does is_free V.tells desk.old desk.new here.old here.new result
        (steps.if_of (script_at left) scene.now it.now) }
{
    branches_in(alloc, left, &it.branches, &it.other, scene, here, desk)
}

/// The first branch whose test has status 0, or what stands behind `else`.
#[cycle(shell)]
fn branches_in<V: View>(
    alloc: Global,
    left: u32,
    branches: &[Branch],
    other: &Option<Script>,
    scene: &Scene,
    here: &mut Here,
    desk: &mut Desk<V>,
) -> Result<(), Jump>
    ensures { Does is_free V.tells desk.old desk.new here.old here.new result
        (steps.branches (script_at left) scene.now branches.now other.now) }
{
    for branch in branches {
        script_in(alloc, left, &branch.test, scene, here, desk)?;
        if here.shell.status == 0 {
            return script_in(alloc, left, &branch.body, scene, here, desk);
        }
    }
    otherwise(alloc, left, other, scene, here, desk)
}

/// A script, or none, whose status is 0.
#[cycle(shell)]
fn otherwise<V: View>(
    alloc: Global,
    left: u32,
    script: &Option<Script>,
    scene: &Scene,
    here: &mut Here,
    desk: &mut Desk<V>,
) -> Result<(), Jump>
    ensures { Does is_free V.tells desk.old desk.new here.old here.new result
        (steps.otherwise (script_at left) scene.now script.now) }
{
    match script {
        Some(script) => script_in(alloc, left, script, scene, here, desk),
        None => {
            here.shell.status = 0;
            Ok(())
        }
    }
}

/// `while` and `until`
#[cycle(shell)]
fn loop_in<V: View>(
    alloc: Global,
    left: u32,
    it: &Loop,
    scene: &Scene,
    here: &mut Here,
    desk: &mut Desk<V>,
) -> Result<(), Jump>
    ensures { Does is_free V.tells desk.old desk.new here.old here.new result
        (steps.loop_of (script_at left) scene.now it.now) }
{
    let scene = in_loop(scene)?;
    let mut last = 0;
    loop {
        charge_unit(desk)?;
        match turn_in(alloc, left, it, last, &scene, here, desk)? {
            Some(status) => last = status,
            None => return Ok(()),
        }
    }
}

/// A turn of `while` or `until`: the status of its body, or none where the loop has ended.
#[cycle(shell)]
fn turn_in<V: View>(
    alloc: Global,
    left: u32,
    it: &Loop,
    last: u8,
    scene: &Scene,
    here: &mut Here,
    desk: &mut Desk<V>,
) -> Result<Option<u8>, Jump>
    ensures { Does is_free V.tells desk.old desk.new here.old here.new result
        (steps.one_turn (out-Loop it.now).until (script_at left (out-Loop it.now).test scene.now)
        (script_at left (out-Loop it.now).body scene.now) last) }
{
    let turn = turn_of(script_in(alloc, left, &it.test, scene, here, desk))?;
    tested(alloc, left, it, turn, last, scene, here, desk)
}

/// What follows the test.
#[cycle(shell)]
fn tested<V: View>(
    alloc: Global,
    left: u32,
    it: &Loop,
    turn: LoopTurn,
    last: u8,
    scene: &Scene,
    here: &mut Here,
    desk: &mut Desk<V>,
) -> Result<Option<u8>, Jump>
    ensures { Does is_free V.tells desk.old desk.new here.old here.new result
        (steps.after_test (out-Loop it.now).until (script_at left (out-Loop it.now).body scene.now)
        last turn) }
{
    match turn {
        LoopTurn::Broken => {
            here.shell.status = last;
            Ok(None)
        }
        LoopTurn::Continued => Ok(Some(last)),
        LoopTurn::Whole => {
            if goes_on(it.until, here.shell.status) {
                return body_turn(alloc, left, &it.body, scene, here, desk);
            }
            here.shell.status = last;
            Ok(None)
        }
    }
}

/// The body in a turn of `while` or `until`.
#[cycle(shell)]
fn body_turn<V: View>(
    alloc: Global,
    left: u32,
    body: &Script,
    scene: &Scene,
    here: &mut Here,
    desk: &mut Desk<V>,
) -> Result<Option<u8>, Jump>
    ensures { Does is_free V.tells desk.old desk.new here.old here.new result
        (steps.body_turn (script_at left body.now scene.now)) }
{
    let turn = turn_of(script_in(alloc, left, body, scene, here, desk))?;
    Ok(body_status(turn, here.shell.status))
}

/// `for`
#[cycle(shell)]
fn for_in<V: View>(
    alloc: Global,
    left: u32,
    it: &For,
    scene: &Scene,
    here: &mut Here,
    desk: &mut Desk<V>,
) -> Result<(), Jump>
    ensures { Does is_free V.tells desk.old desk.new here.old here.new result
        (steps.for_of (script_at left) scene.now it.now) }
{
    let words = fields_of(alloc, left, &it.words, scene, here, desk)?;
    let scene = in_loop(scene)?;
    rounds_in(alloc, left, it, words.items(), &scene, here, desk)
}

/// The turns of `for`, one for each word.
#[cycle(shell)]
fn rounds_in<V: View>(
    alloc: Global,
    left: u32,
    it: &For,
    words: &[Text],
    scene: &Scene,
    here: &mut Here,
    desk: &mut Desk<V>,
) -> Result<(), Jump>
    ensures { Does is_free V.tells desk.old desk.new here.old here.new result
        (steps.all_rounds (out-For it.now).name (script_at left (out-For it.now).body scene.now)
        words.now) }
{
    if words.is_empty() {
        here.shell.status = 0;
        return Ok(());
    }
    for word in words {
        if is_broken(round(alloc, left, it, word, scene, here, desk)?) {
            return Ok(());
        }
    }
    Ok(())
}

/// A turn of `for`.
#[cycle(shell)]
fn round<V: View>(
    alloc: Global,
    left: u32,
    it: &For,
    word: &Text,
    scene: &Scene,
    here: &mut Here,
    desk: &mut Desk<V>,
) -> Result<LoopTurn, Jump>
    ensures { Does is_free V.tells desk.old desk.new here.old here.new result
        (steps.round (out-For it.now).name
        (script_at left (out-For it.now).body scene.now) word.now) }
{
    charge_unit(desk)?;
    here.assign(alloc, it.name.bytes(), word.copy(alloc)?)?;
    turn_of(script_in(alloc, left, &it.body, scene, here, desk))
}

/// `case`
#[cycle(shell)]
fn case_in<V: View>(
    alloc: Global,
    left: u32,
    it: &Case,
    scene: &Scene,
    here: &mut Here,
    desk: &mut Desk<V>,
) -> Result<(), Jump>
    ensures { Does is_free V.tells desk.old desk.new here.old here.new result
        (steps.case_of (script_at left) scene.now it.now) }
{
    let text = whole(alloc, left, &it.word, scene, here, desk)?;
    items_in(alloc, left, &it.items, text.bytes(), scene, here, desk)
}

/// The first item of `case` that has a pattern which matches.
#[cycle(shell)]
fn items_in<V: View>(
    alloc: Global,
    left: u32,
    items: &[Item],
    text: &[u8],
    scene: &Scene,
    here: &mut Here,
    desk: &mut Desk<V>,
) -> Result<(), Jump>
    ensures { Does is_free V.tells desk.old desk.new here.old here.new result
        (steps.items (script_at left) scene.now text.now items.now) }
{
    for item in items {
        if matches_one(alloc, left, &item.patterns, text, scene, here, desk)? {
            return otherwise(alloc, left, &item.body, scene, here, desk);
        }
    }
    here.shell.status = 0;
    Ok(())
}

/// Whether one of the patterns matches.
#[cycle(shell)]
fn matches_one<V: View>(
    alloc: Global,
    left: u32,
    patterns: &[Word],
    text: &[u8],
    scene: &Scene,
    here: &mut Here,
    desk: &mut Desk<V>,
) -> Result<bool, Jump>
    ensures { Does is_free V.tells desk.old desk.new here.old here.new result
        (steps.matches_one (script_at left) scene.now text.now patterns.now) }
{
    for pattern in patterns {
        let glyphs = pattern_of(alloc, left, pattern, scene, here, desk)?;
        if matches(glyphs.items(), text) {
            return Ok(true);
        }
    }
    Ok(false)
}

/// A word as a pattern.
#[cycle(shell)]
fn pattern_of<V: View>(
    alloc: Global,
    left: u32,
    word: &Word,
    scene: &Scene,
    here: &mut Here,
    desk: &mut Desk<V>,
) -> Result<Seq<Glyph>, Jump>
    ensures { Does is_free V.tells desk.old desk.new here.old here.new result
        (expanding.pattern (script_at left) scene.now word.now) }
{
    let expansion = expanded(alloc, left, word, Mode::Pattern, scene, here, desk)?;
    Ok(glyphs_in(alloc, expansion))
}

/// The fields of words.
#[cycle(shell)]
pub(crate) fn fields_of<V: View>(
    alloc: Global,
    left: u32,
    words: &[Word],
    scene: &Scene,
    here: &mut Here,
    desk: &mut Desk<V>,
) -> Result<Seq<Text>, Jump>
    ensures { Does is_free V.tells desk.old desk.new here.old here.new result
        (expanding.fields (script_at left) scene.now [] words.now) }
{
    let mut all = Seq::new(alloc);
    for word in words {
        all = added(alloc, left, all, word, scene, here, desk)?;
    }
    Ok(all)
}

/// With the fields of one more word. A literal is copied, and takes no expander.
#[cycle(shell)]
fn added<V: View>(
    alloc: Global,
    left: u32,
    so_far: Seq<Text>,
    word: &Word,
    scene: &Scene,
    here: &mut Here,
    desk: &mut Desk<V>,
) -> Result<Seq<Text>, Jump>
    ensures { Does is_free V.tells desk.old desk.new here.old here.new result
        (expanding.added (script_at left) scene.now so_far word.now) }
{
    match literal(word) {
        Some(text) => Ok(with_text(alloc, so_far, text)?),
        None => {
            let expansion = expanded(alloc, left, word, Mode::Fields, scene, here, desk)?;
            Ok(appended(so_far, fields_in(alloc, expansion))?)
        }
    }
}

/// A word that is neither split nor expanded to path names. One piece of bytes takes no expander.
#[cycle(shell)]
fn whole<V: View>(
    alloc: Global,
    left: u32,
    word: &Word,
    scene: &Scene,
    here: &mut Here,
    desk: &mut Desk<V>,
) -> Result<Text, Jump>
    ensures { Does is_free V.tells desk.old desk.new here.old here.new result
        (expanding.whole (script_at left) scene.now word.now) }
{
    match word.bytes() {
        Some(text) => Ok(text.copy(alloc)?),
        None => {
            let expansion = expanded(alloc, left, word, Mode::Whole, scene, here, desk)?;
            Ok(first_in(alloc, fields_in(alloc, expansion)))
        }
    }
}

/// The output that a word's expansion asked for.
#[cycle(shell)]
fn output_if<V: View>(
    alloc: Global,
    left: u32,
    script: Option<&Script>,
    scene: &Scene,
    here: &mut Here,
    desk: &mut Desk<V>,
) -> Result<Text, Jump>
    ensures { Does is_free V.tells desk.old desk.new here.old here.new result
        (expanding.output_if (script_at left) scene.now (option_map (λ s. s.now) script.entry)) }
{
    match script {
        Some(script) => output_of(alloc, left, script, scene, here, desk),
        None => Err(Jump::End(ExecNo::NoMemory)),
    }
}

/// A turn of a word's expansion: what the word comes to, or nothing where it goes on.
#[cycle(shell)]
fn turn_of_word<V: View>(
    alloc: Global,
    left: u32,
    expander: &mut Expander,
    scene: &Scene,
    here: &mut Here,
    desk: &mut Desk<V>,
) -> Result<Option<Expansion>, Jump>
    requires { IsReady expander.old }
    ensures { Turned V.tells (script_at left) scene.now desk.old desk.new here.old here.new
        expander.old expander.new result }
{
    match expander.fields(alloc, &here.shell, desk) {
        Ok(WordTurn::Done(fields)) => Ok(Some(Expansion::Fields(fields))),
        Ok(WordTurn::Pattern(glyphs)) => Ok(Some(Expansion::Pattern(glyphs))),
        Ok(WordTurn::Set(name, text)) => {
            here.assign(alloc, name.bytes(), text)?;
            Ok(None)
        }
        Ok(WordTurn::Output(_)) => {
            let text = output_if(alloc, left, expander.script(), scene, here, desk)?;
            expander.give(text);
            Ok(None)
        }
        Err(why) => Err(here.fault(why)),
    }
}

/// A word in a mode.
#[cycle(shell)]
fn expanded<V: View>(
    alloc: Global,
    left: u32,
    word: &Word,
    mode: Mode,
    scene: &Scene,
    here: &mut Here,
    desk: &mut Desk<V>,
) -> Result<Expansion, Jump>
    ensures { Does is_free V.tells desk.old desk.new here.old here.new result
        (expanding.expanded (script_at left) scene.now mode word.now) }
{
    let mut expander = Expander::new(alloc, word, mode)?;
    for _ in 0..u64::MAX {
        match turn_of_word(alloc, left, &mut expander, scene, here, desk)? {
            Some(expansion) => return Ok(expansion),
            None => {}
        }
    }
    Err(Jump::End(ExecNo::NoMemory))
}
