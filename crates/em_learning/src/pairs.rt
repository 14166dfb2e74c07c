//! The pairs that a build has shown.
ghost use Rattle.std.specs.Prelude.{◌≡◌, ◌++◌, [], IfOk, OnOk};
ghost use Rattle.std.specs.List.{cons_option};
ghost use Rattle.std.specs.Option.{option_map};
ghost use Rattle.em_learning.specs.Learnt as shown;

use em_base::{NoMemory, Text};
use em_engine::{Cause, Note};
use em_history::History;
use em_plan::{PlanJob, SharedJob};
use std::alloc::Global;

/// The job that had changed what was asked.
fn changer(cause: &Option<Cause>) -> Option<u32>
    ensures { result ≡ shown.changer_in cause.now }
{
    match cause {
        Some(Cause::Differ { after, .. }) => *after,
        _ => None,
    }
}

/// The jobs of the note and of the change, if both are there.
fn jobs_of<'a>(jobs: &'a [SharedJob], note: &Note) -> Option<(&'a PlanJob, &'a PlanJob)>
    ensures { shown.pair_of jobs.now note.now
        ≡ option_map (λ p. (p.0.now.target, p.1.now.target)) result }
{
    let made = jobs.get(note.job as usize)?;
    let needed = jobs.get(changer(&note.cause)? as usize)?;
    Some((made.get(), needed.get()))
}

/// Appends the pair that the note shows, if there is one.
fn add(
    alloc: Global,
    pairs: &mut Vec<(Text, Text)>,
    jobs: &[SharedJob],
    note: &Note,
) -> Result<(), NoMemory>
    ensures { OnOk result
        (pairs.new.items ≡ pairs.old.items ++ cons_option (shown.pair_of jobs.now note.now) []) }
{
    if let Some((made, needed)) = jobs_of(jobs, note) {
        pairs.push((made.target.copy(alloc)?, needed.target.copy(alloc)?))?;
    }
    Ok(())
}

/// A pair for each note that says which job had changed what the note's job asked: the targets of
/// both, where they can stand in a history. Linear in the notes and in the names that are copied,
/// and the pairs are sorted.
pub fn learnt(alloc: Global, jobs: &[SharedJob], notes: &[Note]) -> Result<History, NoMemory>
    ensures { IfOk result (λ h. h ≡ shown.learnt jobs.now notes.now) }
{
    let mut pairs = Vec::new(alloc);
    for note in notes {
        add(alloc, &mut pairs, jobs, note)?;
    }
    History::of(pairs)
}
