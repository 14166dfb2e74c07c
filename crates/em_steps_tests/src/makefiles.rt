//! The last job of a makefile, and the states from which it runs.
ghost use Rattle.std.specs.Prelude.{◌≡◌, ◌≤◌, None, IfOk};
ghost use Rattle.em_path.specs.Paths.{root_text};
ghost use Rattle.em_path.specs.Reading.{read_fault};

use em_base::{NoMemory, Seq, Text};
use em_cmdline::{HistoryMode, Order};
use em_image::read_image;
use em_job::{JobSpec, specs};
use em_path::Path;
use em_plan::{Plan, plan};
use em_reader::read_makefiles;
use em_rules::Book;
use em_tree::{Outcome, Outcomes, State};
use std::alloc::Global;
use std::test::Fail;

/// What stands in the tree beside the makefile, as an image has it.
pub(super) const NODES: &str = "f 5 0 /a\n\nf 5 0 /b\n\nd 5 /d\nf 5 0 /t\n\n";

/// The state of a tree with this makefile and with these nodes behind it, without outcomes.
pub(super) fn state_of(alloc: Global, makefile: &str, nodes: &str) -> Result<State, Fail> {
    let size = makefile.len();
    let text = format!(in alloc; "EMTREE 1\nd 5 /\nf 5 {size} /Makefile\n{makefile}\n{nodes}.\n")?;
    let tree = read_image(alloc, text.as_bytes())?;
    let outcomes = Outcomes::new(alloc);
    Ok(State { tree, outcomes })
}

fn outcome_of(letter: u8) -> Outcome {
    match letter {
        b'U' => Outcome::Upto,
        b'C' => Outcome::Counted,
        b'M' => Outcome::Made,
        _ => Outcome::Failed(1),
    }
}

/// The outcomes of which these are the letters.
pub(super) fn outcomes_of(alloc: Global, letters: &str) -> Result<Outcomes, NoMemory> {
    let mut outcomes = Outcomes::new(alloc);
    for letter in letters.bytes() {
        outcomes.push(outcome_of(letter))?;
    }
    Ok(outcomes)
}

/// `V=1`
fn assigned(alloc: Global) -> Result<Seq<(Text, Text)>, NoMemory> {
    let name = Text::from_slice(alloc, b"V")?;
    let value = Text::from_slice(alloc, b"1")?;
    let mut assigned = Seq::new(alloc);
    assigned.push((name, value))?;
    Ok(assigned)
}

/// The order of `V=1` and of the option with this letter.
fn order_of(alloc: Global, letter: char) -> Result<Order, NoMemory>
    ensures dir { IfOk result (λ o. read_fault root_text o.dir ≡ None) }
    ensures fuel { IfOk result (λ o. o.fuel ≤ 1000000) }
{
    Ok(Order {
        image: None,
        makefile: None,
        dir: Text::from_slice(alloc, b"/")?,
        keep_going: letter == 'k',
        dry: letter == 'n',
        question: letter == 'q',
        silent: letter == 's',
        ignore: letter == 'i',
        always: letter == 'B',
        workers: 1,
        fuel: 1_000_000,
        history: None,
        mode: HistoryMode::Merge,
        report: None,
        generate: None,
        explain: None,
        agents: 1,
        goals: Seq::new(alloc),
        assigned: assigned(alloc)?,
    })
}

/// The last job of the plan.
fn last_of(alloc: Global, plan: &Plan, book: &Book, order: &Order) -> Result<JobSpec, Fail>
    requires dir { read_fault root_text order.now.dir ≡ None }
    requires fuel { order.now.fuel ≤ 1000000 }
{
    if plan.jobs.len() > 100 {
        return Err("jobs".into());
    }
    let mut specs = specs(alloc, plan, book, order, 5)?;
    Ok(specs.pop().ok_or("a job")?)
}

/// The job of the default goal of the state's makefile, by an order with the option of this letter.
pub(super) fn job_of(alloc: Global, state: &State, letter: char) -> Result<JobSpec, Fail> {
    let order = order_of(alloc, letter)?;
    let mut said = Text::new(alloc);
    let book = read_makefiles(alloc, state, &order, &mut said)?;
    let plan = plan(alloc, &book, &[], &state.tree, &Path::root())?;
    last_of(alloc, &plan, &book, &order)
}
