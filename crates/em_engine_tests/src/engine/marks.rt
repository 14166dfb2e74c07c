//! A small job, and who runs it.
ghost use Rattle.std.specs.Prelude.{◌≡◌, false, refl, IfOk, OnOk};
ghost use Rattle.std.proofs.Common.{ap, ◌∙◌};
ghost use Rattle.em_view.specs.Performs.{is_free};
ghost use Rattle.em_view.specs.Rows.{is_memory};
ghost use Rattle.em_view.specs.Steps.{Does, Works};
ghost use Rattle.em_run.specs.Examples.{said, mark, end_of, is_failed, same_parts};
ghost use Rattle.em_run.specs.Meanings.{fresh, end_in, effect_by, used_by};

use crate::common::{path, root};
use em_base::{Fuel, NoMemory, Text};
use em_path::Path;
use em_run::{Run, Spec, Work};
use em_tree::{Kind, Outcome, State};
use em_view::{Desk, DeskNo, PlainView, View};
use std::alloc::Global;

/// Where nothing is at the path, makes a file of one byte; says what it found.
#[derive(Drop, PartialEq, Eq)]
pub(super) struct Mark {
    pub(super) job: u32,
    pub(super) fuel: u16,
    pub(super) path: Path,
}

impl Spec for Mark {
    ghost job_of = { λ m. m.job };

    ghost ends_after = { λ m o. is_failed o };

    ghost makes = { λ m s e n. (e ≡ effect_by end_of (mark m.path) (fresh 100 m.job m.fuel) s)
        × (n ≡ used_by (mark m.path) (fresh 100 m.job m.fuel) s) };

    ghost means_same = { λ a b h. let e = same_parts (a.job, (a.fuel, a.path))
        (b.job, (b.fuel, b.path)) h in record {
          number = ap (λ x. x.0) e;
          ends = λ o. refl;
          effects = λ s f n. λ made. (
            made.0 ∙ ap (λ x. effect_by end_of (mark x.1.1) (fresh 100 x.0 x.1.0) s) e,
            made.1 ∙ ap (λ x. used_by (mark x.1.1) (fresh 100 x.0 x.1.0) s) e,
          );
        } };

    fn job(&self) -> u32 {
        self.job
    }

    fn ends(&self, o: &Outcome) -> bool {
        matches!(o, Outcome::Failed(_))
    }

    fn copy(&self, _alloc: Global) -> Result<Mark, NoMemory> {
        Ok(Mark {
            job: self.job,
            fuel: self.fuel,
            path: self.path.copy()?,
        })
    }
}

fn say(output: &mut Text, text: &[u8]) -> Result<(), DeskNo>
    ensures { Works is_memory output.old output.new result (said text.now) }
{
    output.add(text)?;
    Ok(())
}

fn make<V: View>(desk: &mut Desk<V>, p: &Path, output: &mut Text) -> Result<Outcome, DeskNo>
    ensures { Does is_memory V.tells desk.old desk.new output.old output.new result (mark p.now) }
{
    match desk.kind(p)? {
        Kind::Absent => {
            say(output, b"made")?;
            desk.put(p, b"x")?;
            Ok(Outcome::Made)
        }
        Kind::File => {
            say(output, b"there")?;
            Ok(Outcome::Upto)
        }
        Kind::Dir => {
            say(output, b"there")?;
            Ok(Outcome::Upto)
        }
        Kind::Link => {
            say(output, b"there")?;
            Ok(Outcome::Upto)
        }
    }
}

/// How the job ended, unless memory ran out.
fn ended(end: Result<Outcome, DeskNo>) -> Result<Outcome, NoMemory>
    ensures outcome { IfOk result (λ o. o ≡ end_in end_of end) }
    ensures plain { OnOk result (is_free is_memory end ≡ false) }
{
    match end {
        Ok(outcome) => Ok(outcome),
        Err(no) => match no {
            DeskNo::File(_) => Ok(Outcome::Failed(1)),
            DeskNo::Spent => Ok(Outcome::Spent),
            DeskNo::NoMemory => Err(NoMemory),
        },
    }
}

#[derive(Drop)]
pub(super) struct Marker;

impl Work<Mark> for Marker {
    fn run<V: View>(&self, alloc: Global, spec: &Mark, view: V) -> Result<Run<Mark>, NoMemory> {
        let spec = spec.copy(alloc)?;
        let fuel = Fuel::new(u64::from(spec.fuel));
        let mut desk = Desk::new(alloc, view, 100, spec.job, fuel);
        let mut output = Text::new(alloc);
        let outcome = ended(make(&mut desk, &spec.path, &mut output))?;
        let (usage, delta, used) = desk.close();
        let run = Run::new(spec, usage, delta, output, outcome, used);
        Ok(run)
    }
}

/// The job of this number, which makes `/x` where nothing is there.
pub(super) fn mark_of(alloc: Global, job: u32, fuel: u16) -> Result<Mark, NoMemory> {
    let path = path(alloc, b"/x")?;
    Ok(Mark { job, fuel, path })
}

/// Its run on a state.
pub(super) fn run_on(
    alloc: Global,
    job: u32,
    fuel: u16,
    state: &State,
) -> Result<Run<Mark>, NoMemory> {
    let spec = mark_of(alloc, job, fuel)?;
    Marker.run(alloc, &spec, PlainView::new(state))
}

/// Its run on a root alone, with 20 units.
pub(super) fn run_at_root(alloc: Global, job: u32) -> Result<Run<Mark>, NoMemory> {
    let state = root(alloc)?;
    run_on(alloc, job, 20, &state)
}
