//! The jobs of makefiles.
ghost use Rattle.std.specs.Prelude.{◌≡◌, ◌≤◌, [], None, IfOk};
ghost use Rattle.em_path.specs.Paths.{root_text};
ghost use Rattle.em_path.specs.Reading.{read_fault};

use em_base::{NoMemory, Seq, Text};
use em_cmdline::{HistoryMode, Order};
use em_image::read_image;
use em_job::{JobSpec, specs};
use em_path::Path;
use em_plan::{Plan, plan};
use em_reader::read_makefiles;
use em_rules::Book;
use em_tree::{Outcomes, State};
use std::alloc::Global;
use std::test::Fail;

/// The jobs of a plan, and what each waits for.
#[derive(Drop)]
pub(super) struct Jobs {
    pub(super) specs: Seq<JobSpec>,
    pub(super) waits: Seq<Seq<u32>>,
}

/// Two jobs, of which the second reads what the first makes and doesn't say so, and one that waits
/// for both.
pub(super) const HIDDEN: &str =
    "EMTREE 1\nd 5 /\nf 5 42 /Makefile\nall: gen use\ngen:\n\techo 1 > g\nuse:\n\tcat g\n\n.\n";

/// The tree of the image, with no outcomes.
pub(super) fn state_of(alloc: Global, image: &str) -> Result<State, Fail>
    ensures { IfOk result (λ s. s.outcomes ≡ []) }
{
    let tree = read_image(alloc, image.as_bytes())?;
    let outcomes = Outcomes::new(alloc);
    Ok(State { tree, outcomes })
}

/// The order of no words but the image's.
fn order_of(alloc: Global) -> Result<Order, NoMemory>
    ensures dir { IfOk result (λ o. read_fault root_text o.dir ≡ None) }
    ensures fuel { IfOk result (λ o. o.fuel ≤ 1000000) }
{
    Ok(Order {
        image: None,
        makefile: None,
        dir: Text::from_slice(alloc, b"/")?,
        keep_going: false,
        dry: false,
        question: false,
        silent: false,
        ignore: false,
        always: false,
        workers: 1,
        fuel: 1_000_000,
        history: None,
        mode: HistoryMode::Merge,
        report: None,
        generate: None,
        explain: None,
        agents: 1,
        goals: Seq::new(alloc),
        assigned: Seq::new(alloc),
    })
}

/// An order of a directory, nine units of fuel and the option with this letter.
fn order_with(alloc: Global, letter: char) -> Result<Order, NoMemory>
    ensures dir { IfOk result (λ o. read_fault root_text o.dir ≡ None) }
    ensures fuel { IfOk result (λ o. o.fuel ≤ 1000000) }
{
    let mut order = order_of(alloc)?;
    order.dir = Text::from_slice(alloc, b"/d")?;
    order.fuel = 9;
    order.keep_going = letter == 'k';
    order.dry = letter == 'n';
    order.question = letter == 'q';
    order.silent = letter == 's';
    order.ignore = letter == 'i';
    order.always = letter == 'B';
    Ok(order)
}

/// What the state's makefile says.
fn book_of(alloc: Global, state: &State, order: &Order) -> Result<Book, Fail>
    requires { read_fault root_text order.now.dir ≡ None }
{
    let mut said = Text::new(alloc);
    Ok(read_makefiles(alloc, state, order, &mut said)?)
}

/// The plan for the default goal.
fn plan_of(alloc: Global, book: &Book, state: &State) -> Result<Plan, Fail> {
    Ok(plan(alloc, book, &[], &state.tree, &Path::root())?)
}

/// The specs of the plan's jobs.
fn specs_of(
    alloc: Global,
    plan: &Plan,
    book: &Book,
    order: &Order,
    base: u64,
) -> Result<Seq<JobSpec>, Fail>
    requires dir { read_fault root_text order.now.dir ≡ None }
    requires fuel { order.now.fuel ≤ 1000000 }
{
    if base > 1_000_000 || plan.jobs.len() > 100 {
        return Err("stamps or jobs".into());
    }
    let specs = specs(alloc, plan, book, order, base)?;
    Ok(Seq::from_vec(specs))
}

/// Of each job of the plan the jobs that it waits for.
fn waits_of(alloc: Global, plan: &Plan) -> Result<Seq<Seq<u32>>, NoMemory> {
    let mut waits = Seq::new(alloc);
    for job in plan.jobs.items() {
        let copy = Vec::from_slice(alloc, job.get().waits.items())?;
        waits.push(Seq::from_vec(copy))?;
    }
    Ok(waits)
}

/// The jobs of the plan.
fn jobs_in(alloc: Global, plan: &Plan, book: &Book, order: &Order, base: u64) -> Result<Jobs, Fail>
    requires dir { read_fault root_text order.now.dir ≡ None }
    requires fuel { order.now.fuel ≤ 1000000 }
{
    let specs = specs_of(alloc, plan, book, order, base)?;
    let waits = waits_of(alloc, plan)?;
    Ok(Jobs { specs, waits })
}

/// What the makefile in the image's directory `/d` says, the plan, and the jobs by an order with
/// the option of this letter.
pub(super) fn read_with(
    alloc: Global,
    image: &str,
    letter: char,
) -> Result<(Book, Plan, Jobs), Fail> {
    let state = state_of(alloc, image)?;
    let order = order_with(alloc, letter)?;
    let book = book_of(alloc, &state, &order)?;
    let plan = plan_of(alloc, &book, &state)?;
    let jobs = jobs_in(alloc, &plan, &book, &order, state.tree.base())?;
    Ok((book, plan, jobs))
}

/// The jobs that the order wants built of the state's makefile.
fn ordered(alloc: Global, state: &State, order: &Order) -> Result<Jobs, Fail>
    requires dir { read_fault root_text order.now.dir ≡ None }
    requires fuel { order.now.fuel ≤ 1000000 }
{
    let book = book_of(alloc, state, order)?;
    let plan = plan_of(alloc, &book, state)?;
    jobs_in(alloc, &plan, &book, order, state.tree.base())
}

/// The jobs of the state's makefile, for the default goal.
fn jobs_of(alloc: Global, state: &State) -> Result<Jobs, Fail> {
    let order = order_of(alloc)?;
    ordered(alloc, state, &order)
}

/// The jobs of the image's makefile, and the state from which they are built.
pub(super) fn read_jobs(alloc: Global, image: &str) -> Result<(State, Jobs), Fail>
    ensures { IfOk result (λ r. r.0.outcomes ≡ []) }
{
    let state = state_of(alloc, image)?;
    let jobs = jobs_of(alloc, &state)?;
    Ok((state, jobs))
}
