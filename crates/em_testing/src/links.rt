//! A small job, and who runs it.
ghost use Rattle.std.specs.Prelude.{◌≡◌, [], false, refl, IfOk, OnOk};
ghost use Rattle.std.proofs.Common.{ap, ◌∙◌};
ghost use Rattle.em_view.specs.Performs.{is_free};
ghost use Rattle.em_view.specs.Rows.{is_memory};
ghost use Rattle.em_view.specs.Steps.{Does, Works};
ghost use Rattle.em_run.specs.Examples.{said, end_of, is_failed};
ghost use Rattle.em_run.specs.Meanings.{fresh, end_in, effect_by, used_by};
ghost use Rattle.em_testing.specs.Links.{grown, link, same_links};

use em_base::{Fuel, NoMemory, Text};
use em_path::Path;
use em_run::{Run, Spec, Work};
use em_tree::{Body, Outcome, Outcomes, State, Tree};
use em_view::{Desk, DeskNo, PlainView, View};
use std::alloc::Global;

/// Reads the file of the job before, says what it holds and then its own path, and makes a file of
/// that at its path.
#[derive(Drop, PartialEq, Eq)]
pub struct Link {
    pub job: u32,
    pub before: Path,
    pub path: Path,
}

impl Spec for Link {
    ghost job_of = { λ l. l.job };

    ghost ends_after = { λ l o. is_failed o };

    ghost makes = { λ l s e n. (e ≡ effect_by end_of (link l.before l.path) (fresh 100 l.job 20) s)
        × (n ≡ used_by (link l.before l.path) (fresh 100 l.job 20) s) };

    ghost means_same = { λ a b h. let e = same_links (a.job, (a.before, a.path))
        (b.job, (b.before, b.path)) h in record {
          number = ap (λ x. x.0) e;
          ends = λ o. refl;
          effects = λ s f n. λ made. (
            made.0 ∙ ap (λ x. effect_by end_of (link x.1.0 x.1.1) (fresh 100 x.0 20) s) e,
            made.1 ∙ ap (λ x. used_by (link x.1.0 x.1.1) (fresh 100 x.0 20) s) e,
          );
        } };

    fn job(&self) -> u32 {
        self.job
    }

    fn ends(&self, o: &Outcome) -> bool {
        matches!(o, Outcome::Failed(_))
    }

    fn copy(&self, _alloc: Global) -> Result<Link, NoMemory> {
        Ok(Link {
            job: self.job,
            before: self.before.copy()?,
            path: self.path.copy()?,
        })
    }
}

/// What a file holds, and behind it the path.
fn grown(alloc: Global, body: &Option<Body>, path: &Path) -> Result<Text, NoMemory>
    ensures { IfOk result (λ t. t ≡ grown body.now path.now) }
{
    let mut text = Text::new(alloc);
    if let Some(body) = body {
        text.add(body.bytes())?;
    }
    text.add(path.text())?;
    Ok(text)
}

fn say(output: &mut Text, text: &[u8]) -> Result<(), DeskNo>
    ensures { Works is_memory output.old output.new result (said text.now) }
{
    output.add(text)?;
    Ok(())
}

fn make<V: View>(
    alloc: Global,
    desk: &mut Desk<V>,
    before: &Path,
    path: &Path,
    output: &mut Text,
) -> Result<Outcome, DeskNo>
    ensures { Does is_memory V.tells desk.old desk.new output.old output.new result
        (link before.now path.now) }
{
    let body = desk.content(before)?;
    let text = grown(alloc, &body, path)?;
    say(output, text.bytes())?;
    desk.put(path, text.bytes())?;
    Ok(Outcome::Made)
}

/// How the job ended, unless memory ran out.
fn ended(end: Result<Outcome, DeskNo>) -> Result<Outcome, NoMemory>
    ensures outcome { IfOk result (λ o. o ≡ end_in end_of end) }
    ensures plain { OnOk result (is_free is_memory end ≡ false) }
{
    match end {
        Ok(outcome) => Ok(outcome),
        Err(no) => match no {
            DeskNo::File(_) => Ok(Outcome::Failed(1)),
            DeskNo::Spent => Ok(Outcome::Spent),
            DeskNo::NoMemory => Err(NoMemory),
        },
    }
}

#[derive(Drop)]
pub struct Linker;

impl Work<Link> for Linker {
    fn run<V: View>(&self, alloc: Global, spec: &Link, view: V) -> Result<Run<Link>, NoMemory> {
        let spec = spec.copy(alloc)?;
        let fuel = Fuel::new(20);
        let mut desk = Desk::new(alloc, view, 100, spec.job, fuel);
        let mut output = Text::new(alloc);
        let outcome = ended(make(alloc, &mut desk, &spec.before, &spec.path, &mut output))?;
        let (usage, delta, used) = desk.close();
        let run = Run::new(spec, usage, delta, output, outcome, used);
        Ok(run)
    }
}

/// A root with stamp 1, and no outcomes.
pub fn root(alloc: Global) -> Result<State, NoMemory>
    ensures { IfOk result (λ s. s.outcomes ≡ []) }
{
    Ok(State {
        tree: Tree::new(alloc, 1)?,
        outcomes: Outcomes::new(alloc),
    })
}

/// The run of a job on a state.
pub fn run_on(alloc: Global, spec: &Link, state: &State) -> Result<Run<Link>, NoMemory> {
    Linker.run(alloc, spec, PlainView::new(state))
}
