//! The walk over the prerequisites, with a stack of its own and a mark for each name.
ghost use Rattle.std.specs.Prelude.{ℕ, List, Ok, ◌≡◌, ◌⊎◌, ◌<◌, ◌^◌, ◌∷◌, ◌++◌, [], ◌+◌, nat_lt, length, true, false, IfOk, IfErr, OnOk};
ghost use Rattle.std.specs.FinMap as finmap;
ghost use Rattle.em_implicit.specs.Asking.{Follows, Had};
ghost use Rattle.em_plan.specs.Once.{is_among};
ghost use Rattle.em_plan.specs.Jobs.{job_of};
ghost use Rattle.em_plan.specs.Order.{from_in, has_room, limit, note, noted, nothing_walked};
ghost use Rattle.em_plan.specs.Resuming.{after, closing, numbers_in, open_by, open_in, opening, opens, resume, IsMarked, Steps};
ghost use Rattle.em_plan.specs.Walking.{asks_for, visiting, visiting_all, Fails};

use crate::job::job;
use crate::making::{Making, RuleContext};
use crate::marks::{VisitMark, close_all, next_place, open_all};
use crate::no::PlanNo;
use crate::shared::SharedJob;
use em_base::{NoMemory, Seq, Stack, Table, Text};
use em_implicit::There;
use std::alloc::Global;

/// The most jobs of a plan.
const LIMIT: usize = 65_536;

/// A unit whose prerequisites are being visited.
#[derive(Drop)]
pub struct WalkFrame {
    /// The name from which the walk came to it.
    pub target: Text,
    pub making: Making,
    /// The place of the next prerequisite.
    pub next: usize,
}

/// The jobs so far, and the notes.
#[derive(Debug, Drop)]
pub struct Walked {
    pub jobs: Seq<SharedJob>,
    pub notes: Text,
}

/// A walk on its way.
#[derive(Drop)]
pub struct Walk {
    pub begun: Stack<WalkFrame>,
    pub marks: Table<VisitMark>,
    pub walked: Walked,
}

/// What is said of a prerequisite that is dropped.
fn note(alloc: Global, target: &[u8], name: &[u8]) -> Result<Text, NoMemory>
    ensures { IfOk result (λ t. t ≡ note target.now name.now) }
{
    let mut text = Text::from_slice(alloc, b"emake: Circular ")?;
    text.add(target)?;
    text.add(b" <- ")?;
    text.add(name)?;
    text.add(b" dependency dropped.\n")?;
    Ok(text)
}

/// Whether one more unit may be opened.
fn has_room(jobs: usize, begun: usize) -> bool
    ensures { result ≡ nat_lt (jobs + begun) limit }
{
    jobs < LIMIT && begun < LIMIT && jobs + begun < LIMIT
}

/// The frame behind its next prerequisite.
fn later(frame: WalkFrame) -> WalkFrame
    requires { frame.next < length frame.making.needs }
    ensures { result ≡ record frame { next = frame.next + 1 } }
{
    let WalkFrame {
        target,
        making,
        next,
    } = frame;
    WalkFrame {
        target,
        making,
        next: next + 1,
    }
}

/// The walk goes into a unit of a name.
fn enter(alloc: Global, walk: &mut Walk, name: Text, making: Making) -> Result<(), PlanNo>
    ensures room { OnOk result (has_room (opens walk.old.begun) walk.old.walked ≡ true) }
    ensures begun { OnOk result (walk.new.begun
        ≡ record { target = name; making = making; next = 0 } ∷ walk.old.begun) }
    ensures marks { OnOk result ((q : List ℕ) → finmap.get walk.new.marks q
        ≡ opening (is_among making.targets q) (finmap.get walk.old.marks q)) }
    ensures walked { OnOk result (walk.new.walked ≡ walk.old.walked) }
    ensures err { IfErr result (λ e. (e ≡ PlanNo.NoMemory) ⊎ ((e ≡ PlanNo.TooManyJobs)
        × (has_room (opens walk.old.begun) walk.old.walked ≡ false))) }
{
    if !has_room(walk.walked.jobs.len(), walk.begun.len()) {
        return Err(PlanNo::TooManyJobs);
    }
    open_all(alloc, &mut walk.marks, making.targets.items())?;
    walk.begun.push(WalkFrame {
        target: name,
        making,
        next: 0,
    })?;
    Ok(())
}

/// The innermost unit's next prerequisite is open: it is dropped, with a note.
fn drop_circular(
    alloc: Global,
    walk: &mut Walk,
    frame: WalkFrame,
    name: &[u8],
) -> Result<(), PlanNo>
    requires { frame.next < length frame.making.needs }
    ensures ok { OnOk result (walk.new ≡ record {
      begun = record frame { next = frame.next + 1 } ∷ walk.old.begun;
      marks = walk.old.marks;
      walked = noted frame.target name.now walk.old.walked;
    }) }
    ensures only { IfErr result (λ e. e ≡ PlanNo.NoMemory) }
{
    let text = note(alloc, frame.target.bytes(), name)?;
    walk.walked.notes.add(text.bytes())?;
    walk.begun.push(later(frame))?;
    Ok(())
}

/// The walk comes to the innermost unit's next prerequisite, whose next unit this is. It comes to
/// it again until each of its units has a number.
fn go_into(
    alloc: Global,
    walk: &mut Walk,
    frame: WalkFrame,
    name: Text,
    making: Making,
) -> Result<(), PlanNo>
    ensures room { OnOk result
        (has_room (opens (frame ∷ walk.old.begun)) walk.old.walked ≡ true) }
    ensures begun { OnOk result (walk.new.begun
        ≡ record { target = name; making = making; next = 0 } ∷ frame ∷ walk.old.begun) }
    ensures marks { OnOk result ((q : List ℕ) → finmap.get walk.new.marks q
        ≡ opening (is_among making.targets q) (finmap.get walk.old.marks q)) }
    ensures walked { OnOk result (walk.new.walked ≡ walk.old.walked) }
    ensures err { IfErr result (λ e. (e ≡ PlanNo.NoMemory) ⊎ ((e ≡ PlanNo.TooManyJobs)
        × (has_room (opens (frame ∷ walk.old.begun)) walk.old.walked ≡ false))) }
{
    walk.begun.push(frame)?;
    enter(alloc, walk, name, making)?;
    Ok(())
}

/// Each unit of the innermost unit's next prerequisite has a number.
fn pass(walk: &mut Walk, frame: WalkFrame) -> Result<(), PlanNo>
    requires { frame.next < length frame.making.needs }
    ensures ok { OnOk result (walk.new
        ≡ record walk.old { begun = record frame { next = frame.next + 1 } ∷ walk.old.begun }) }
    ensures only { IfErr result (λ e. e ≡ PlanNo.NoMemory) }
{
    walk.begun.push(later(frame))?;
    Ok(())
}

/// The name from which the walk came.
fn above(alloc: Global, begun: &Stack<WalkFrame>) -> Result<Option<Text>, NoMemory>
    ensures { IfOk result (λ n. n ≡ from_in (opens begun.now)) }
{
    match begun.top() {
        None => Ok(None),
        Some(frame) => Ok(Some(frame.target.copy(alloc)?)),
    }
}

/// The innermost unit, whose prerequisites have been visited, gets the next number.
fn close(alloc: Global, walk: &mut Walk, frame: WalkFrame) -> Result<(), PlanNo>
    requires marked { IsMarked (open_by frame ∷ opens walk.old.begun) walk.old }
    ensures begun { OnOk result (walk.new.begun ≡ walk.old.begun) }
    ensures marks { OnOk result ((q : List ℕ) → finmap.get walk.new.marks q
        ≡ closing (length walk.old.walked.jobs) (is_among frame.making.targets q)
        (finmap.get walk.old.marks q)) }
    ensures walked { OnOk result (walk.new.walked
        ≡ record walk.old.walked {
          jobs = walk.old.walked.jobs
              ++ job_of (open_in walk.old.marks) (numbers_in walk.old.marks) frame.target
              (from_in (opens walk.old.begun)) frame.making ∷ [];
        }) }
    ensures only { IfErr result (λ e. e ≡ PlanNo.NoMemory) }
{
    let WalkFrame {
        target,
        making,
        next: _,
    } = frame;
    let needed_by = above(alloc, &walk.begun)?;
    let number = walk.walked.jobs.len() as u32;
    let job = job(alloc, &walk.marks, target, needed_by, making)?;
    close_all(alloc, &mut walk.marks, number, job.targets.items())?;
    let shared = SharedJob::new(alloc, job)?;
    walk.walked.jobs.push(shared)?;
    Ok(())
}

/// One step at the innermost unit.
fn step<T: There>(
    alloc: Global,
    makefile: RuleContext,
    walk: &mut Walk,
    frame: WalkFrame,
    there: &mut T,
) -> Result<(), PlanNo>
    requires marked { IsMarked (open_by frame ∷ opens walk.old.begun) walk.old }
    ensures ok { OnOk result (Steps T.asks there.old there.new (asks_for makefile.entry)
        (frame ∷ walk.old.begun) walk.old.walked walk.new) }
    ensures err { IfErr result (Fails T.asks there.old there.new
        (resume (asks_for makefile.entry) (frame ∷ walk.old.begun) walk.old.walked)) }
{
    let Some(need) = frame.making.needs.get(frame.next) else {
        return close(alloc, walk, frame);
    };
    let Some(place) = next_place(&walk.marks, need.name.bytes()) else {
        let name = need.name.copy(alloc)?;
        return drop_circular(alloc, walk, frame, name.bytes());
    };
    let asked = makefile.making_at(alloc, &walk.marks, need.name.bytes(), place, there)?;
    let Some(making) = asked else {
        return pass(walk, frame);
    };
    let name = need.name.copy(alloc)?;
    go_into(alloc, walk, frame, name, making)
}

/// The walk from a goal's next unit, which is this.
fn walk_unit<T: There>(
    alloc: Global,
    makefile: RuleContext,
    walk: &mut Walk,
    goal: &Text,
    making: Making,
    there: &mut T,
) -> Result<(), PlanNo>
    requires marked { IsMarked [] walk.old }
    requires empty { walk.old.begun ≡ [] }
    requires few { length making.needs < 2 ^ 64 }
    ensures marked { OnOk result (IsMarked [] walk.new) }
    ensures empty { OnOk result (walk.new.begun ≡ []) }
    ensures ok { OnOk result (Follows T.asks there.old there.new
        (after (asks_for makefile.entry) [] goal.now (making ∷ []) walk.old.walked)
        (Had (Ok walk.new.walked))) }
    ensures err { IfErr result (Fails T.asks there.old there.new
        (after (asks_for makefile.entry) [] goal.now (making ∷ []) walk.old.walked)) }
{
    enter(alloc, walk, goal.copy(alloc)?, making)?;
    while let Some(frame) = walk.begun.pop() {
        step(alloc, makefile, walk, frame, there)?;
    }
    Ok(())
}

/// The walk from a goal: from each of its units in turn.
fn walk_from<T: There>(
    alloc: Global,
    makefile: RuleContext,
    walk: &mut Walk,
    goal: &Text,
    there: &mut T,
) -> Result<(), PlanNo>
    requires marked { IsMarked [] walk.old }
    requires empty { walk.old.begun ≡ [] }
    ensures marked { OnOk result (IsMarked [] walk.new) }
    ensures empty { OnOk result (walk.new.begun ≡ []) }
    ensures ok { OnOk result (Follows T.asks there.old there.new
        (visiting (asks_for makefile.entry) limit [] walk.old.walked goal.now)
        (Had (Ok walk.new.walked))) }
    ensures err { IfErr result (Fails T.asks there.old there.new
        (visiting (asks_for makefile.entry) limit [] walk.old.walked goal.now)) }
{
    while let Some(making) = makefile.making(alloc, &walk.marks, goal.bytes(), there)? {
        walk_unit(alloc, makefile, walk, goal, making, there)?;
    }
    Ok(())
}

/// The walk from each of these names in turn: it ends with nothing open.
pub(crate) fn walk_all<T: There>(
    alloc: Global,
    makefile: RuleContext,
    goals: &[Text],
    there: &mut T,
) -> Result<Walk, PlanNo>
    ensures marked { IfOk result (λ w. IsMarked [] w) }
    ensures ok { IfOk result (λ w. Follows T.asks there.old there.new
        (visiting_all (asks_for makefile.entry) goals.now nothing_walked) (Had (Ok w.walked))) }
    ensures err { IfErr result (Fails T.asks there.old there.new
        (visiting_all (asks_for makefile.entry) goals.now nothing_walked)) }
{
    let mut walk = Walk {
        begun: Stack::new(alloc),
        marks: Table::new(alloc),
        walked: Walked {
            jobs: Seq::new(alloc),
            notes: Text::new(alloc),
        },
    };
    for goal in goals {
        walk_from(alloc, makefile, &mut walk, goal, there)?;
    }
    Ok(walk)
}
