//! Where a build takes place: the order, the tree from which it starts, and the history.
ghost use Rattle.std.specs.Prelude.{◌≡◌, [], IfOk};
ghost use Rattle.em_cmdline.specs.Words.{HasRanges};
ghost use Rattle.em_program.specs.Course.{Follows, faults_after};
ghost use Rattle.em_program.specs.Projects as projects;

use crate::explain::explained;
use crate::messages::{BAD_WORDS, NO_IMAGE, image_line};
use crate::say::{stop, take};
use crate::stop::ProgramEnd;
use crate::verdict::BuildStatus;
use crate::words::ordered;
use em_base::{NoMemory, Seq, Text};
use em_cmdline::{HistoryMode, Order};
use em_engine::Note;
use em_gen::project;
use em_history::History;
use em_host::Host;
use em_image::{ImageNo, read_text};
use em_tree::{Outcomes, State, Tree};
use std::alloc::Global;

/// What the builds before have done.
#[derive(Drop)]
pub struct Earlier {
    /// One for each of their jobs, in order.
    pub notes: Seq<Note>,
    /// How these jobs ended, in order.
    pub outcomes: Outcomes,
    /// The pairs that these builds have shown.
    pub shown: History,
}

/// Where a build takes place.
#[derive(Drop)]
pub struct Site {
    pub order: Order,
    /// The tree from which it starts, with no outcomes.
    pub start: State,
    /// What the history's file tells.
    pub old: History,
    pub earlier: Earlier,
}

/// The image's bytes.
fn image_in<H: Host>(alloc: Global, name: &[u8], host: &mut H) -> Result<Text, ProgramEnd>
    ensures told { Follows (projects.image_in name.now) result (H.told host.old) (H.told host.new) }
    ensures faults { H.faults host.new ≡ faults_after result (H.faults host.old) }
{
    match take(alloc, host, name)? {
        Some(bytes) => Ok(bytes),
        None => stop(host, NO_IMAGE, BuildStatus::Faulty),
    }
}

/// The tree that the image holds. No byte is copied.
fn tree_of<H: Host>(alloc: Global, bytes: Text, host: &mut H) -> Result<Tree, ProgramEnd>
    ensures told { Follows (projects.tree_of bytes) result (H.told host.old) (H.told host.new) }
    ensures faults { H.faults host.new ≡ faults_after result (H.faults host.old) }
{
    match read_text(alloc, bytes) {
        Ok(tree) => Ok(tree),
        Err(no) => match no {
            ImageNo::NoMemory => Err(ProgramEnd::NoMemory),
            _ => {
                let line = image_line(alloc, no)?;
                stop(host, line.bytes(), BuildStatus::Faulty)
            }
        },
    }
}

/// The tree from which the build starts: a generated project's, or the image's.
fn tree_in<H: Host>(alloc: Global, order: &Order, host: &mut H) -> Result<Tree, ProgramEnd>
    requires { HasRanges order.now }
    ensures told { Follows (projects.tree_in order.now.generate order.now.image) result
        (H.told host.old) (H.told host.new) }
    ensures faults { H.faults host.new ≡ faults_after result (H.faults host.old) }
{
    match order.generate {
        Some(n) => Ok(project(alloc, n)?),
        None => match &order.image {
            Some(name) => {
                let bytes = image_in(alloc, name.bytes(), host)?;
                tree_of(alloc, bytes, host)
            }
            None => stop(host, BAD_WORDS, BuildStatus::Faulty),
        },
    }
}

/// The pairs that a history's file tells; none where there is no file.
fn pairs_of(alloc: Global, found: &Option<Text>) -> Result<History, NoMemory>
    ensures { IfOk result (λ h. h ≡ projects.pairs_of found.now) }
{
    match found {
        None => Ok(History::new(alloc)),
        Some(bytes) => History::read(alloc, bytes.bytes()),
    }
}

fn recalled_from<H: Host>(
    alloc: Global,
    name: &Option<Text>,
    host: &mut H,
) -> Result<History, ProgramEnd>
    ensures told { Follows (projects.recalled_from name.now) result (H.told host.old)
        (H.told host.new) }
    ensures faults { H.faults host.new ≡ faults_after result (H.faults host.old) }
{
    match name {
        None => Ok(History::new(alloc)),
        Some(name) => {
            let found = take(alloc, host, name.bytes())?;
            Ok(pairs_of(alloc, &found)?)
        }
    }
}

/// What is known of earlier builds. Where it begins anew the file isn't looked at.
fn recalled<H: Host>(alloc: Global, order: &Order, host: &mut H) -> Result<History, ProgramEnd>
    ensures told { Follows (projects.recalled order.now.mode order.now.history) result
        (H.told host.old) (H.told host.new) }
    ensures faults { H.faults host.new ≡ faults_after result (H.faults host.old) }
{
    match order.mode {
        HistoryMode::Create => Ok(History::new(alloc)),
        HistoryMode::Merge => recalled_from(alloc, &order.history, host),
        HistoryMode::Read => recalled_from(alloc, &order.history, host),
    }
}

/// A state of which no job has ended.
pub fn fresh(alloc: Global, tree: Tree) -> State
    ensures { result ≡ projects.start_of tree }
{
    State {
        tree,
        outcomes: Outcomes::new(alloc),
    }
}

/// Where the words order to build; a page and an explanation end the run before. Linear in the
/// image and in the history.
pub fn site_of<H: Host>(alloc: Global, words: &[Text], host: &mut H) -> Result<Site, ProgramEnd>
    ensures told { Follows (projects.site words.now) result (H.told host.old) (H.told host.new) }
    ensures faults { H.faults host.new ≡ faults_after result (H.faults host.old) }
    ensures is { IfOk result projects.IsSite }
    ensures new { IfOk result (λ s. s.earlier.notes ≡ []) }
{
    let order = ordered(alloc, words, host)?;
    explained(alloc, &order, host)?;
    let tree = tree_in(alloc, &order, host)?;
    let old = recalled(alloc, &order, host)?;
    Ok(Site {
        order,
        start: fresh(alloc, tree),
        old,
        earlier: Earlier {
            notes: Seq::new(alloc),
            outcomes: Outcomes::new(alloc),
            shown: History::new(alloc),
        },
    })
}
