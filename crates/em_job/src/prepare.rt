//! What a job does before the first line of its recipe runs.
ghost use Rattle.std.specs.Prelude.{◌≡◌, [], ◌++◌, map, option_map, OnOk};
ghost use Rattle.em_job.specs.Stops.{is_free};
ghost use Rattle.em_job.specs.Preparing as preparing;
ghost use Rattle.em_recipe.specs.Messages as messages;
ghost use Rattle.em_view.specs.Steps.{Does, Works};

use crate::awaiting::{Awaited, prerequisites};
use crate::due::{JobDecision, decision, newer_among, reasons, stamps_of};
use crate::stop::{JobStop, of_expand, refused};
use em_base::{Construct, NoMemory, Place, Seq, Text};
use em_expand::{Layers, OwnVar, Spoken, expand};
use em_recipe::{RecipeCommand, automatic_vars, commands, put_no_rule};
use em_rules::RecipeLine;
use em_task::Job;
use em_tree::Outcome;
use em_view::{Desk, View};
use std::alloc::Global;

/// A line for the shell, and the place of the recipe's line of which it comes.
#[derive(Drop)]
pub struct Placed {
    pub place: Place,
    pub command: RecipeCommand,
}

/// A recipe that is to run.
#[derive(Drop)]
pub struct RecipeStart {
    /// The targets' stamps before it, in order.
    pub stamps: Seq<Option<u64>>,
    /// The automatic variables.
    pub autos: Seq<OwnVar>,
}

/// What is left to do of a job.
#[derive(Drop)]
pub enum Prepared {
    Ended(Outcome),
    Lines(RecipeStart, Seq<Placed>),
}

/// Says a text.
pub(crate) fn say(spoken: &mut Spoken, text: &[u8]) -> Result<(), JobStop>
    ensures { Works is_free spoken.old spoken.new result (preparing.say text.now) }
{
    spoken.said.add(text)?;
    Ok(())
}

/// Refuses texts for `eval`.
fn no_evals(alloc: Global, spoken: &mut Spoken, place: &Place) -> Result<(), JobStop>
    ensures { Works is_free spoken.old spoken.new result (preparing.no_evals place.now) }
{
    if spoken.evals.is_empty() {
        Ok(())
    } else {
        Err(refused(alloc, place, Construct::Eval))
    }
}

/// Expands a text of the recipe, with these automatic variables.
pub(crate) fn expand_at<V: View>(
    alloc: Global,
    desk: &mut Desk<V>,
    spoken: &mut Spoken,
    job: &Job,
    autos: &[OwnVar],
    place: &Place,
    text: &[u8],
) -> Result<Text, JobStop>
    ensures { Does is_free V.tells desk.old desk.new spoken.old spoken.new result
        (preparing.expand_at job.now autos.now place.now text.now) }
{
    let shared = job.vars.vars();
    let vars = Layers { shared, own: autos };
    match expand(alloc, text, &vars, &job.cwd, place, desk, spoken) {
        Ok(text) => {
            no_evals(alloc, spoken, place)?;
            Ok(text)
        }
        Err(e) => Err(of_expand(alloc, place, e)),
    }
}

/// The commands, each with its place.
fn put_placed(
    alloc: Global,
    lines: &mut Seq<Placed>,
    place: &Place,
    commands: Seq<RecipeCommand>,
) -> Result<(), NoMemory>
    ensures { OnOk result
        (lines.new ≡ lines.old ++ map (preparing.placed place.now) commands) }
{
    for command in commands.into_vec() {
        let place = place.copy(alloc)?;
        lines.push(Placed { place, command })?;
    }
    Ok(())
}

/// Expands all lines.
fn expand_lines<V: View>(
    alloc: Global,
    desk: &mut Desk<V>,
    spoken: &mut Spoken,
    job: &Job,
    autos: &[OwnVar],
    recipe: &[RecipeLine],
) -> Result<Seq<Placed>, JobStop>
    ensures { Does is_free V.tells desk.old desk.new spoken.old spoken.new result
        (preparing.expand_lines job.now autos.now recipe.now []) }
{
    let mut lines = Seq::new(alloc);
    for line in recipe {
        let text = expand_at(
            alloc,
            desk,
            spoken,
            job,
            autos,
            &line.place,
            line.text.bytes(),
        )?;
        let commands = commands(alloc, line.text.bytes(), text.bytes())?;
        put_placed(alloc, &mut lines, &line.place, commands)?;
    }
    Ok(lines)
}

/// The lines of the recipe as they are written.
fn recipe_of(job: &Job) -> &[RecipeLine]
    ensures { result.now ≡ preparing.recipe_of job.now }
{
    match &job.plan.get().recipe {
        None => &[],
        Some(lines) => lines.items(),
    }
}

/// Expands the recipe. These names made remaking due.
fn expand_recipe<V: View>(
    alloc: Global,
    desk: &mut Desk<V>,
    spoken: &mut Spoken,
    job: &Job,
    stamps: Seq<Option<u64>>,
    newer: &[Text],
) -> Result<Prepared, JobStop>
    ensures { Does is_free V.tells desk.old desk.new spoken.old spoken.new result
        (preparing.expand_recipe job.now stamps newer.now) }
{
    let autos = automatic_vars(alloc, job.plan.get(), newer)?;
    let lines = expand_lines(alloc, desk, spoken, job, autos.items(), recipe_of(job))?;
    Ok(Prepared::Lines(RecipeStart { stamps, autos }, lines))
}

/// Says that no rule makes the target.
fn no_rule(spoken: &mut Spoken, job: &Job) -> Result<(), JobStop>
    ensures { Works is_free spoken.old spoken.new result
        (preparing.say (messages.no_rule job.now.plan.target job.now.plan.needed_by
        job.now.flags.keep_going)) }
{
    let plan = job.plan.get();
    put_no_rule(
        &mut spoken.said,
        plan.target.bytes(),
        &plan.needed_by,
        job.flags.keep_going,
    )?;
    Ok(())
}

/// Decides, and expands the recipe where it is to run.
fn decide<V: View>(
    alloc: Global,
    desk: &mut Desk<V>,
    spoken: &mut Spoken,
    job: &Job,
    normal: &[Awaited],
) -> Result<Prepared, JobStop>
    ensures { Does is_free V.tells desk.old desk.new spoken.old spoken.new result
        (preparing.decide job.now normal.now) }
{
    let owns = stamps_of(alloc, desk, &job.cwd, job.plan.get().targets.items())?;
    let newer = newer_among(alloc, desk, job, owns.items(), normal)?;
    match decision(job, owns.items(), newer.items()) {
        JobDecision::Ended(outcome) => Ok(Prepared::Ended(outcome)),
        JobDecision::NoRule => {
            no_rule(spoken, job)?;
            Ok(Prepared::Ended(Outcome::NoRule))
        }
        JobDecision::Remake => {
            let reasons = reasons(alloc, job, owns.items(), newer)?;
            expand_recipe(alloc, desk, spoken, job, owns, reasons.items())
        }
    }
}

/// All that a job does before the first line of its recipe runs: it asks for the outcomes of its
/// prerequisites' jobs, decides whether its targets are to be remade, and expands its recipe. The
/// outcomes may be known, those of the normal prerequisites' jobs in order and then those of the
/// order-only ones; where there are too few, the job ends as if such a job hadn't been made. Each
/// costs a unit, as asking for it does.
///
/// Errors: `Early` where fuel ends before the recipe is begun; at a line of the recipe `Spent`,
/// `Refused` and `Halted` by its expansion; and `NoMemory`, which may come freely. What was said
/// till then stands. The cost is a question for each outcome, two for each target and prerequisite
/// that may count, and that of the expansions.
pub fn prepare_job<V: View>(
    alloc: Global,
    desk: &mut Desk<V>,
    spoken: &mut Spoken,
    known: Option<&[Outcome]>,
    job: &Job,
) -> Result<Prepared, JobStop>
    ensures { Does is_free V.tells desk.old desk.new spoken.old spoken.new result
        (preparing.prepare_with (option_map (λ o. o.now) known.entry) job.now) }
{
    let (normal, fine) = prerequisites(alloc, desk, known, job)?;
    if !fine {
        return Ok(Prepared::Ended(Outcome::Skipped));
    }
    decide(alloc, desk, spoken, job, normal.items())
}
