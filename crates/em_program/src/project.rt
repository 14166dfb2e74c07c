//! What there is to build: from the site and the makefiles to the jobs.
ghost use Rattle.std.specs.Prelude.{◌≡◌, ◌≤◌, None, IfOk, IsErr, length};
ghost use Rattle.em_learning.specs.Waits.{ArePlanned};
ghost use Rattle.em_path.specs.Paths.{root_text};
ghost use Rattle.em_path.specs.Reading.{read_fault};
ghost use Rattle.em_program.specs.Course.{Follows, faults_after};
ghost use Rattle.em_program.specs.Projects as projects;
ghost use Rattle.em_program.specs.Projects.{HasRoom, IsReady, IsSite};

use crate::say::{say, stop};
use crate::site::{Earlier, Site};
use crate::stop::ProgramEnd;
use crate::verdict::BuildStatus;
use em_base::{NoMemory, Seq, Text};
use em_closing::{Goal, dir_line, fault_line, goals_of, plan_line};
use em_cmdline::Order;
use em_history::History;
use em_host::Host;
use em_learning::waits_with;
use em_nesting::{MakeSpec, specs};
use em_path::{Path, PathNo};
use em_plan::laws::{law_limit, law_waits};
use em_plan::{Plan, PlanNo, plan};
use em_reader::{ReadNo, Round, read_round};
use em_rules::Book;
use em_tree::{Kind, State, Tree};
use std::alloc::Global;

/// What the words, the history and the makefiles say of a build.
#[derive(Drop)]
pub struct Terms {
    pub order: Order,
    /// What the history's file told, and what the builds before have shown.
    pub old: History,
    pub earlier: Earlier,
    pub plan: Plan,
    /// Of each job of the plan the jobs that it waits for.
    pub waits: Seq<Seq<u32>>,
    /// The goals, one for each of the plan's.
    pub goals: Seq<Goal>,
}

/// What there is to build, and from what state.
#[derive(Drop)]
pub struct Project {
    pub terms: Terms,
    /// The tree from which it starts, with no outcomes.
    pub start: State,
    /// One for each job of the plan, in its order.
    pub specs: Seq<MakeSpec>,
}

/// The refusal of `-C`.
fn no_dir<H: Host>(alloc: Global, name: &[u8], host: &mut H) -> Result<Path, ProgramEnd>
    ensures told { Follows (projects.no_dir name.now) result (H.told host.old) (H.told host.new) }
    ensures faults { H.faults host.new ≡ faults_after result (H.faults host.old) }
    ensures ends { IsErr result }
{
    let line = dir_line(alloc, name)?;
    stop(host, line.bytes(), BuildStatus::Faulty)
}

/// The working directory: `-C` names a directory of the tree, or a link to one, and keeps the name
/// that was given.
pub fn entered<H: Host>(
    alloc: Global,
    tree: &Tree,
    name: &[u8],
    host: &mut H,
) -> Result<Path, ProgramEnd>
    ensures told { Follows (projects.entered tree.now name.now) result
        (H.told host.old) (H.told host.new) }
    ensures faults { H.faults host.new ≡ faults_after result (H.faults host.old) }
    ensures path { IfOk result (λ p. read_fault root_text name.now ≡ None) }
{
    match Path::read(alloc, &Path::root(), name) {
        Ok(path) => {
            let kind = tree.kind_behind(&path)?;
            match kind {
                Kind::Dir => Ok(path),
                _ => no_dir(alloc, name, host),
            }
        }
        Err(no) => match no {
            PathNo::NoMemory => Err(ProgramEnd::NoMemory),
            _ => no_dir(alloc, name, host),
        },
    }
}

/// What the makefiles say, and which of them are there: a file that an `include` names and that
/// isn't there is noted.
pub fn round_of<H: Host>(
    alloc: Global,
    order: &Order,
    start: &State,
    host: &mut H,
) -> Result<Round, ProgramEnd>
    requires { read_fault root_text order.now.dir ≡ None }
    ensures told { Follows (projects.round_of order.now start.now) result
        (H.told host.old) (H.told host.new) }
    ensures faults { H.faults host.new ≡ faults_after result (H.faults host.old) }
{
    let mut said = Text::new(alloc);
    match read_round(alloc, start, order, &mut said) {
        Ok(round) => {
            say(host, said.bytes())?;
            Ok(round)
        }
        Err(no) => match no {
            ReadNo::NoMemory => Err(ProgramEnd::NoMemory),
            ReadNo::At(place, fault) => {
                let line = fault_line(alloc, &place, &fault)?;
                say(host, said.bytes())?;
                stop(host, line.bytes(), BuildStatus::Faulty)
            }
        },
    }
}

/// The jobs that the goals need.
fn planned<H: Host>(
    alloc: Global,
    book: &Book,
    order: &Order,
    tree: &Tree,
    cwd: &Path,
    host: &mut H,
) -> Result<Plan, ProgramEnd>
    ensures told { Follows (projects.planned book.now order.now tree.now cwd.now) result
        (H.told host.old) (H.told host.new) }
    ensures faults { H.faults host.new ≡ faults_after result (H.faults host.old) }
    ensures few { IfOk result (λ p. length p.jobs ≤ 65536) }
    ensures planned { IfOk result (λ p. ArePlanned p.jobs) }
{
    law_limit();
    law_waits();
    match plan(alloc, book, order.goals.items(), tree, cwd) {
        Ok(plan) => {
            say(host, plan.notes.bytes())?;
            Ok(plan)
        }
        Err(no) => match no {
            PlanNo::NoMemory => Err(ProgramEnd::NoMemory),
            _ => {
                let line = plan_line(alloc, book.found, no)?;
                stop(host, line.bytes(), BuildStatus::Faulty)
            }
        },
    }
}

/// All of it put together.
fn assembled(alloc: Global, site: Site, book: &Book, plan: Plan) -> Result<Project, NoMemory>
    requires site { IsSite site }
    requires room { HasRoom site.start.tree }
    requires dir { read_fault root_text site.order.dir ≡ None }
    requires few { length plan.jobs ≤ 65536 }
    requires planned { ArePlanned plan.jobs }
    ensures project { IfOk result (λ p. p ≡ projects.assembled site book.now plan) }
    ensures ready { IfOk result IsReady }
{
    let Site {
        order,
        start,
        old,
        earlier,
    } = site;
    let specs = specs(alloc, &plan, book, &order, start.tree.base())?;
    let waits = waits_with(alloc, &old, plan.jobs.items())?;
    let goals = goals_of(alloc, book, order.goals.items())?;
    Ok(Project {
        terms: Terms {
            order,
            old,
            earlier,
            plan,
            waits,
            goals,
        },
        start,
        specs: Seq::from_vec(specs),
    })
}

/// What there is to build at the site, in this working directory, by what the makefiles say. It
/// takes what `plan`, `specs`, `waits_with` and `goals_of` take.
pub fn project_at<H: Host>(
    alloc: Global,
    site: Site,
    book: &Book,
    cwd: &Path,
    host: &mut H,
) -> Result<Project, ProgramEnd>
    requires site { IsSite site }
    requires room { HasRoom site.start.tree }
    requires dir { read_fault root_text site.order.dir ≡ None }
    ensures told { Follows (projects.project_at site book.now cwd.now) result
        (H.told host.old) (H.told host.new) }
    ensures faults { H.faults host.new ≡ faults_after result (H.faults host.old) }
    ensures ready { IfOk result IsReady }
    ensures earlier { IfOk result (λ p. p.terms.earlier ≡ site.earlier) }
{
    let plan = planned(alloc, book, &site.order, &site.start.tree, cwd, host)?;
    Ok(assembled(alloc, site, book, plan)?)
}
