//! Remade makefiles: rounds, and what is built behind a build.
ghost use Rattle.std.specs.Prelude.{◌≡◌, ◌++◌, ◌+◌, IfOk, find, option_copied};
ghost use Rattle.em_reader.specs.Reading.{path_of};
ghost use Rattle.em_program.specs.Course.{Follows, faults_after};
ghost use Rattle.em_program.specs.Projects.{HasRoom, IsSite};
ghost use Rattle.em_program.specs.Rounds as rounds;
ghost use Rattle.em_program.specs.Rounds.{IsNext, IsOrder};

use crate::build::JobsDone;
use crate::messages::{STILL_CHANGING, image_line};
use crate::project::{Project, Terms, entered, project_at, round_of};
use crate::say::stop;
use crate::site::{Earlier, Site, fresh};
use crate::stop::ProgramEnd;
use crate::verdict::BuildStatus;
use em_base::{NoMemory, Seq, Text};
use em_closing::fault_line;
use em_cmdline::Order;
use em_engine::Note;
use em_history::History;
use em_host::Host;
use em_image::{ImageNo, Which};
use em_learning::learnt;
use em_path::{Path, PathNo};
use em_reader::{MakefileFault, Missing, Round};
use em_remake::{changed, goals_of};
use em_tree::{Kind, State, Tree};
use em_workers::Built;
use std::alloc::Global;

/// How many rounds there are at most.
const ROUNDS: u32 = 8;

/// The greatest stamp that leaves numbers for a build's changes.
const LAST_BASE: u64 = 4_611_686_018_427_387_904;

/// A round whose makefile goals are made.
#[derive(Drop)]
pub struct Remaking {
    /// What the words order. The round's own order has other goals, and neither `-n` nor `-q` nor
    /// `-B`.
    pub order: Order,
    pub cwd: Path,
    /// What was read.
    pub round: Round,
    pub goals: Seq<Text>,
    /// The tree on which the round began.
    pub before: Tree,
    /// How many rounds may follow.
    pub left: u32,
}

/// What is built next.
#[derive(Drop)]
pub struct BuildStep {
    pub project: Project,
    /// The round for which it is built; the goals of the words, where it is none.
    pub remaking: Option<Remaking>,
}

// ---- what a round begins with, and what follows the last one

/// Whether numbers are left for the changes of a build on the tree. Linear in the nodes.
fn based<H: Host>(alloc: Global, tree: &Tree, host: &mut H) -> Result<(), ProgramEnd>
    ensures told { Follows (rounds.based tree.now) result (H.told host.old) (H.told host.new) }
    ensures faults { H.faults host.new ≡ faults_after result (H.faults host.old) }
    ensures room { IfOk result (λ u. HasRoom tree.now) }
{
    if tree.base() > LAST_BASE {
        let line = image_line(
            alloc,
            ImageNo::Limit {
                which: Which::Stamp,
                at: 0,
            },
        )?;
        return stop(host, line.bytes(), BuildStatus::Faulty);
    }
    Ok(())
}

/// Whether the name is that of a file, or of a link to one.
fn is_file(alloc: Global, tree: &Tree, cwd: &Path, name: &[u8]) -> Result<bool, NoMemory>
    ensures { IfOk result (λ b. b ≡ rounds.is_file_at tree.now (path_of cwd.now name.now)) }
{
    match Path::read(alloc, cwd, name) {
        Ok(path) => Ok(matches!(tree.kind_behind(&path)?, Kind::File)),
        Err(PathNo::NoMemory) => Err(NoMemory),
        Err(_) => Ok(false),
    }
}

/// Whether an `include` needs the file, and it still isn't there.
fn is_lacking(alloc: Global, tree: &Tree, cwd: &Path, missing: &Missing) -> Result<bool, NoMemory>
    ensures { IfOk result (λ b. b ≡ rounds.is_lacking tree.now cwd.now missing.now) }
{
    Ok(missing.needed && !is_file(alloc, tree, cwd, missing.name.bytes())?)
}

/// The first file that an `include` needs and that still isn't there.
fn first_lacking<'a>(
    alloc: Global,
    tree: &Tree,
    cwd: &Path,
    missing: &'a [Missing],
) -> Result<Option<&'a Missing>, NoMemory>
    ensures { IfOk result (λ m. option_copied m
        ≡ find (rounds.is_lacking tree.now cwd.now) missing.now) }
{
    for one in missing {
        if is_lacking(alloc, tree, cwd, one)? {
            return Ok(Some(one));
        }
    }
    Ok(None)
}

/// Refuses the first file that an `include` needs and that still isn't there, at its place.
fn all_there<H: Host>(
    alloc: Global,
    tree: &Tree,
    cwd: &Path,
    missing: &[Missing],
    host: &mut H,
) -> Result<(), ProgramEnd>
    ensures told { Follows (rounds.all_there tree.now cwd.now missing.now) result
        (H.told host.old) (H.told host.new) }
    ensures faults { H.faults host.new ≡ faults_after result (H.faults host.old) }
{
    match first_lacking(alloc, tree, cwd, missing)? {
        None => Ok(()),
        Some(lacking) => {
            let fault = MakefileFault::Include(lacking.name.copy(alloc)?);
            let line = fault_line(alloc, &lacking.place, &fault)?;
            stop(host, line.bytes(), BuildStatus::Faulty)
        }
    }
}

// ---- the order of a round

fn name_of(alloc: Global, name: &Option<Text>) -> Result<Option<Text>, NoMemory>
    ensures { IfOk result (λ n. n ≡ name.now) }
{
    match name {
        None => Ok(None),
        Some(name) => Ok(Some(name.copy(alloc)?)),
    }
}

fn assigned_of(alloc: Global, assigned: &[(Text, Text)]) -> Result<Seq<(Text, Text)>, NoMemory>
    ensures { IfOk result (λ all. all ≡ assigned.now) }
{
    let mut all = Seq::new(alloc);
    for (name, value) in assigned {
        all.push((name.copy(alloc)?, value.copy(alloc)?))?;
    }
    Ok(all)
}

/// The order with these goals, and without `-n`, `-q` and `-B`: makefiles are made whatever is
/// asked, and only where it is due.
fn round_order(alloc: Global, order: &Order, goals: &Seq<Text>) -> Result<Order, NoMemory>
    ensures { IfOk result (λ o. o ≡ rounds.round_order order.now goals.now) }
{
    Ok(Order {
        image: name_of(alloc, &order.image)?,
        makefile: name_of(alloc, &order.makefile)?,
        dir: order.dir.copy(alloc)?,
        keep_going: order.keep_going,
        dry: false,
        question: false,
        silent: order.silent,
        ignore: order.ignore,
        always: false,
        workers: order.workers,
        fuel: order.fuel,
        history: name_of(alloc, &order.history)?,
        mode: order.mode,
        report: name_of(alloc, &order.report)?,
        generate: order.generate,
        explain: name_of(alloc, &order.explain)?,
        agents: order.agents,
        goals: goals.copy(alloc)?,
        assigned: assigned_of(alloc, order.assigned.items())?,
    })
}

// ---- the builds

/// The build of the goals.
fn last_step<H: Host>(
    alloc: Global,
    site: Site,
    cwd: &Path,
    round: &Round,
    host: &mut H,
) -> Result<BuildStep, ProgramEnd>
    requires site { IsSite site }
    requires order { IsOrder site.order }
    ensures told { Follows (rounds.final site cwd.now round.now) result
        (H.told host.old) (H.told host.new) }
    ensures faults { H.faults host.new ≡ faults_after result (H.faults host.old) }
    ensures is { IfOk result (IsNext site.earlier 0) }
{
    all_there(alloc, &site.start.tree, cwd, round.missing.items(), host)?;
    based(alloc, &site.start.tree, host)?;
    let project = project_at(alloc, site, &round.book, cwd, host)?;
    Ok(BuildStep {
        project,
        remaking: None,
    })
}

/// The build of makefiles.
fn remade_step<H: Host>(
    alloc: Global,
    left: u32,
    site: Site,
    cwd: Path,
    round: Round,
    goals: Seq<Text>,
    host: &mut H,
) -> Result<BuildStep, ProgramEnd>
    requires site { IsSite site }
    requires order { IsOrder site.order }
    requires room { HasRoom site.start.tree }
    ensures told { Follows (rounds.remade left site cwd round goals) result
        (H.told host.old) (H.told host.new) }
    ensures faults { H.faults host.new ≡ faults_after result (H.faults host.old) }
    ensures is { IfOk result (IsNext site.earlier (left + 1)) }
{
    let Site {
        order,
        start,
        old,
        earlier,
    } = site;
    let before = start.tree.copy()?;
    let here = Site {
        order: round_order(alloc, &order, &goals)?,
        start,
        old,
        earlier,
    };
    let project = project_at(alloc, here, &round.book, &cwd, host)?;
    let remaking = Remaking {
        order,
        cwd,
        round,
        goals,
        before,
        left,
    };
    Ok(BuildStep {
        project,
        remaking: Some(remaking),
    })
}

/// A reading, and what is built behind it; so many rounds may still begin.
fn round<H: Host>(
    alloc: Global,
    left: u32,
    site: Site,
    cwd: Path,
    host: &mut H,
) -> Result<BuildStep, ProgramEnd>
    requires site { IsSite site }
    requires order { IsOrder site.order }
    ensures told { Follows (rounds.round left site cwd) result (H.told host.old) (H.told host.new) }
    ensures faults { H.faults host.new ≡ faults_after result (H.faults host.old) }
    ensures is { IfOk result (IsNext site.earlier left) }
{
    if left == 0 {
        return stop(host, STILL_CHANGING, BuildStatus::Faulty);
    }
    based(alloc, &site.start.tree, host)?;
    let found = round_of(alloc, &site.order, &site.start, host)?;
    let goals = goals_of(alloc, &found, &site.start.tree, &cwd)?;
    if goals.is_empty() {
        return last_step(alloc, site, &cwd, &found, host);
    }
    remade_step(alloc, left - 1, site, cwd, found, goals, host)
}

/// The first build at the site. It takes what reading and planning take, and a copy of the tree
/// where makefiles are to be made.
pub fn first<H: Host>(alloc: Global, site: Site, host: &mut H) -> Result<BuildStep, ProgramEnd>
    requires { IsSite site }
    ensures told { Follows (rounds.first site) result (H.told host.old) (H.told host.new) }
    ensures faults { H.faults host.new ≡ faults_after result (H.faults host.old) }
    ensures is { IfOk result (IsNext site.earlier 8) }
{
    let cwd = entered(alloc, &site.start.tree, site.order.dir.bytes(), host)?;
    round(alloc, ROUNDS, site, cwd, host)
}

// ---- what follows a build

/// The items of both, in order.
pub fn joined<T: Drop>(first: Seq<T>, more: Seq<T>) -> Result<Seq<T>, NoMemory>
    ensures { IfOk result (λ all. all ≡ first ++ more) }
{
    if first.is_empty() {
        return Ok(more);
    }
    let mut all = first.into_vec();
    all.extend(more.into_vec())?;
    Ok(Seq::from_vec(all))
}

/// What the builds have shown, behind one with these notes. It takes what `learnt` takes, and is
/// linear in the pairs.
pub fn shown_by(alloc: Global, terms: &Terms, notes: &Seq<Note>) -> Result<History, NoMemory>
    ensures { IfOk result (λ h. h ≡ rounds.shown_by terms.now notes.now) }
{
    let mut all = learnt(alloc, terms.plan.jobs.items(), notes.items())?;
    all.merge(alloc, &terms.earlier.shown)?;
    Ok(all)
}

/// Where the next build takes place.
fn moved(alloc: Global, order: Order, done: JobsDone) -> Result<Site, NoMemory>
    ensures { IfOk result (λ s. s
        ≡ rounds.moved order done.terms done.built.state done.built.notes) }
{
    let JobsDone { terms, built } = done;
    let seen = shown_by(alloc, &terms, &built.notes)?;
    let Terms {
        order: _,
        old,
        earlier,
        plan: _,
        waits: _,
        goals: _,
    } = terms;
    let Earlier {
        notes,
        outcomes,
        shown: _,
    } = earlier;
    let Built {
        state,
        notes: last,
        fuel: _,
    } = built;
    let State {
        tree,
        outcomes: ends,
    } = state;
    Ok(Site {
        order,
        start: fresh(alloc, tree),
        old,
        earlier: Earlier {
            notes: joined(notes, last)?,
            outcomes: joined(outcomes, ends)?,
            shown: seen,
        },
    })
}

/// What is built behind the makefiles of a round: where one changed the next round's, else the
/// goals.
pub fn behind<H: Host>(
    alloc: Global,
    remaking: Remaking,
    done: JobsDone,
    host: &mut H,
) -> Result<BuildStep, ProgramEnd>
    requires { IsOrder remaking.order }
    ensures told { Follows (rounds.following remaking
        (rounds.moved remaking.order done.terms done.built.state done.built.notes)) result
        (H.told host.old) (H.told host.new) }
    ensures faults { H.faults host.new ≡ faults_after result (H.faults host.old) }
    ensures is { IfOk result (IsNext
        (rounds.moved remaking.order done.terms done.built.state done.built.notes).earlier
        remaking.left) }
{
    let Remaking {
        order,
        cwd,
        round: found,
        goals,
        before,
        left,
    } = remaking;
    let site = moved(alloc, order, done)?;
    if changed(alloc, &before, &site.start.tree, goals.items(), &cwd)? {
        return round(alloc, left, site, cwd, host);
    }
    last_step(alloc, site, &cwd, &found, host)
}
