//! The specs of a plan's jobs.
ghost use Rattle.std.specs.Prelude.{◌≡◌, ◌≤◌, ◌^◌, ◌++◌, ◌∷◌, [], ℕ, None, length, IfOk, OnOk};
ghost use Rattle.std.specs.List.{filter};
ghost use Rattle.em_job.specs.Making as making;
ghost use Rattle.em_path.specs.Paths.{root_text};
ghost use Rattle.em_path.specs.Reading.{read_fault, resolved_text};
ghost use Rattle.em_recipe.specs.Automatic.{names_of};
ghost use Rattle.em_rules.specs.Rules.{is_in, is_phony};
ghost use Rattle.em_cmdline.specs.declared.order.Order.{Order as Ordered};

use crate::spec::JobSpec;
use em_base::{NoMemory, Seq, Text};
use em_cmdline::Order;
use em_path::Path;
use em_plan::{Plan, PlanJob, Pre, SharedJob};
use em_rules::{Book, Names, Rules, Special};
use em_task::{Flags, Job, SharedPairs, SharedVars};
use std::alloc::Global;

fn lists(names: &[Text], name: &[u8]) -> bool
    ensures { result ≡ is_in names.now name.now }
{
    names.iter().any(|n| n.bytes() == name)
}

/// Whether a special target speaks of the name. Steps for each name that it lists.
fn covers(names: &Names, name: &[u8]) -> bool
    ensures { result ≡ making.covers names.now name.now }
{
    match names {
        Names::All => true,
        Names::Listed(names) => lists(names.items(), name),
    }
}

/// Adds the name, if it is phony.
fn add_phony(
    alloc: Global,
    names: &mut Seq<Text>,
    rules: &Rules,
    name: &Text,
) -> Result<(), NoMemory>
    ensures { OnOk result (names.new
        ≡ names.old ++ filter (is_phony rules.now) (name.now ∷ [])) }
{
    if rules.is_phony(name.bytes()) {
        names.push(name.copy(alloc)?)?;
    }
    Ok(())
}

/// Adds the phony ones of the targets.
fn add_targets(
    alloc: Global,
    names: &mut Seq<Text>,
    rules: &Rules,
    targets: &[Text],
) -> Result<(), NoMemory>
    ensures { OnOk result (names.new ≡ names.old ++ filter (is_phony rules.now) targets.now) }
{
    for target in targets {
        add_phony(alloc, names, rules, target)?;
    }
    Ok(())
}

/// Adds the phony ones of the prerequisites.
fn add_pres(
    alloc: Global,
    names: &mut Seq<Text>,
    rules: &Rules,
    pres: &[Pre],
) -> Result<(), NoMemory>
    ensures { OnOk result (names.new
        ≡ names.old ++ filter (is_phony rules.now) (names_of pres.now)) }
{
    for pre in pres {
        add_phony(alloc, names, rules, &pre.name)?;
    }
    Ok(())
}

/// The phony names among the targets and the normal prerequisites.
fn phony_names(alloc: Global, rules: &Rules, plan: &PlanJob) -> Result<Seq<Text>, NoMemory>
    ensures { IfOk result (λ ns. ns
        ≡ filter (is_phony rules.now) (plan.now.targets ++ names_of plan.now.normal)) }
{
    let mut names = Seq::new(alloc);
    add_targets(alloc, &mut names, rules, plan.targets.items())?;
    add_pres(alloc, &mut names, rules, plan.normal.items())?;
    Ok(names)
}

/// What all jobs of a plan have in common.
#[derive(Drop)]
struct Common {
    base: u64,
    fuel: u64,
    cwd: Path,
    flags: Flags,
    special: Special,
    vars: SharedVars,
    assigned: SharedPairs,
}

/// The working directory of an order.
fn dir_of(alloc: Global, order: &Order) -> Result<Path, NoMemory>
    requires { read_fault root_text order.now.dir ≡ None }
    ensures { IfOk result (λ p. p ≡ resolved_text root_text order.now.dir) }
{
    match Path::read(alloc, &Path::root(), order.dir.bytes()) {
        Ok(path) => Ok(path),
        Err(_) => Err(NoMemory),
    }
}

/// The assignments of an order.
fn assigned_of(alloc: Global, order: &Order) -> Result<SharedPairs, NoMemory>
    ensures { IfOk result (λ s. s ≡ order.now.assigned) }
{
    let mut pairs = Seq::new(alloc);
    for (name, value) in order.assigned.items() {
        pairs.push((name.copy(alloc)?, value.copy(alloc)?))?;
    }
    SharedPairs::new(alloc, pairs)
}

/// What all jobs have in common, with these variables, which are the book's.
fn common_of(
    alloc: Global,
    book: &Book,
    vars: SharedVars,
    order: &Order,
    base: u64,
) -> Result<Common, NoMemory>
    requires vars { vars ≡ book.now.vars }
    requires dir { read_fault root_text order.now.dir ≡ None }
    ensures { IfOk result (λ c. making.IsCommon book.now order.now base c) }
{
    let special = book.special(alloc)?;
    Ok(Common {
        base,
        fuel: order.fuel,
        cwd: dir_of(alloc, order)?,
        flags: Flags::of_order(order),
        special,
        vars,
        assigned: assigned_of(alloc, order)?,
    })
}

/// The job of this number.
fn job_of(
    alloc: Global,
    book: &Book,
    common: &Common,
    number: u32,
    shared: &SharedJob,
) -> Result<Job, NoMemory>
    ensures common { IfOk result (λ j. (order : Ordered) (base : ℕ)
        → making.IsCommon book.now order base common.now
        → j ≡ making.job_of book.now order base number shared.now) }
    ensures bounds { IfOk result (λ j. (j.base ≡ common.now.base) × (j.fuel ≡ common.now.fuel)) }
{
    let plan = shared.get();
    Ok(Job {
        job: number,
        base: common.base,
        fuel: common.fuel,
        cwd: common.cwd.copy()?,
        flags: common.flags,
        quiet: common.flags.silent || covers(&common.special.silent, plan.target.bytes()),
        lenient: common.flags.ignore || covers(&common.special.ignore, plan.target.bytes()),
        delete_on_error: common.special.delete_on_error,
        phony: phony_names(alloc, &book.rules, plan)?,
        plan: shared.copy()?,
        vars: common.vars.copy()?,
        assigned: common.assigned.copy()?,
    })
}

/// The spec of one job of a plan, with this number: what `specs` has at that place. It is for who
/// makes the jobs of a plan one by one, with the book's variables, which they share.
///
/// `NoMemory` alone is an error, and may come freely. The assignments are copied for this job; the
/// rest is as of `specs`.
pub fn spec_of(
    alloc: Global,
    book: &Book,
    vars: &SharedVars,
    order: &Order,
    base: u64,
    number: u32,
    planned: &SharedJob,
) -> Result<JobSpec, NoMemory>
    requires vars { vars.now ≡ book.now.vars }
    requires base { base ≤ 2 ^ 62 }
    requires fuel { order.now.fuel ≤ 1000000 }
    requires dir { read_fault root_text order.now.dir ≡ None }
    ensures { IfOk result
        (λ s. s ≡ making.job_of book.now order.now base number planned.now) }
{
    let common = common_of(alloc, book, vars.copy()?, order, base)?;
    let job = job_of(alloc, book, &common, number, planned)?;
    let spec = JobSpec::new(alloc, job)?;
    Ok(spec)
}

/// The specs of a plan's jobs, each with the number at which it stands.
///
/// The variables and the assignments are copied once and shared; the jobs of the plan are shared
/// with it. A search for each name says whether it is phony; what `.SILENT` and `.IGNORE` list is
/// gone over for each job.
pub fn specs(
    alloc: Global,
    plan: &Plan,
    book: &Book,
    order: &Order,
    base: u64,
) -> Result<Vec<JobSpec>, NoMemory>
    requires base { base ≤ 2 ^ 62 }
    requires fuel { order.now.fuel ≤ 1000000 }
    requires dir { read_fault root_text order.now.dir ≡ None }
    requires jobs { length plan.now.jobs ≤ 65536 }
    ensures { IfOk result (λ ss. ss.items ≡ making.jobs_of book.now order.now base plan.now.jobs) }
{
    let vars = SharedVars::new(alloc, book.vars.copy(alloc)?)?;
    let common = common_of(alloc, book, vars, order, base)?;
    let mut specs = Vec::new(alloc);
    let mut number: u32 = 0;
    for planned in plan.jobs.items() {
        let job = job_of(alloc, book, &common, number, planned)?;
        let spec = JobSpec::new(alloc, job)?;
        specs.push(spec)?;
        number += 1;
    }
    Ok(specs)
}
