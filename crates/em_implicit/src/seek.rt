//! The pattern rule that is chosen for a target.
ghost use Rattle.std.specs.Prelude.{◌≡◌, None, Ok, false, map, IfOk, IfErr};
ghost use Rattle.std.specs.List.{list_any};
ghost use Rattle.em_view.specs.Rows.{Acts, is_refusal};
ghost use Rattle.em_implicit.specs.Matches.{is_matched};
ghost use Rattle.em_implicit.specs.Implicit.{found};
ghost use Rattle.em_implicit.specs.Asking.{Asked, acted};
ghost use Rattle.em_implicit.specs.Seeking.{seek, seeking, seen};

use crate::applying::Known;
use crate::candidates::{Candidate, matches, sorted};
use crate::there::{OnTree, There};
use em_base::{NoMemory, Text};
use em_path::Path;
use em_rules::Book;
use em_tree::Tree;
use em_view::{Desk, DeskNo, View};
use std::alloc::Global;

/// The pattern rule that is chosen for a target.
#[derive(Debug, Drop, PartialEq, Eq)]
pub struct Found {
    /// Its place among the pattern rules, counted from 0.
    pub rule: usize,
    /// The place of its target pattern among its targets, counted from 0.
    pub pattern: usize,
    /// What the `%` of its target pattern stands for, with the target's directory before it where
    /// the pattern has no slash.
    pub stem: Text,
}

/// An equal choice.
fn copied(alloc: Global, found: &Found) -> Result<Found, NoMemory>
    ensures { IfOk result (λ f. f ≡ found.now) }
{
    Ok(Found {
        rule: found.rule,
        pattern: found.pattern,
        stem: found.stem.copy(alloc)?,
    })
}

/// The first of the matches whose rule applies.
fn seek<T: There>(
    alloc: Global,
    known: Known<'_>,
    candidates: &[Candidate<'_>],
    there: &mut T,
) -> Result<Option<Found>, DeskNo>
    ensures asked { Asked T.asks there.old there.new result
        (seek known.entry.rules.now known.entry.cwd.now (map seen candidates.now)) }
    ensures unrefused { IfErr result (λ e. is_refusal e ≡ false) }
{
    for candidate in candidates {
        if known.applies(alloc, candidate, there)? {
            return Ok(Some(copied(alloc, &candidate.found)?));
        }
    }
    Ok(None)
}

/// The pattern rule by which a target is remade, as `find` and `find_through` say, by the answers
/// of whoever is asked.
pub fn find_by<T: There>(
    alloc: Global,
    book: &Book,
    target: &[u8],
    cwd: &Path,
    there: &mut T,
) -> Result<Option<Found>, DeskNo>
    ensures asked { Asked T.asks there.old there.new result
        (seeking book.now.rules book.now.patterns cwd.now target.now) }
    ensures none { list_any (λ r. is_matched r target.now) book.now.patterns ≡ false
        → result ≡ Ok None }
    ensures unrefused { IfErr result (λ e. is_refusal e ≡ false) }
{
    let candidates = matches(alloc, book.patterns.items(), target)?;
    if candidates.is_empty() {
        return Ok(None);
    }
    let known = Known {
        rules: &book.rules,
        cwd,
    };
    seek(alloc, known, &sorted(candidates)?, there)
}

/// The pattern rule by which a target is remade: of the target patterns that it matches, and whose
/// rule's prerequisites for the match all exist in the tree, read against the working directory, or
/// are mentioned as a target or an explicit prerequisite, the one with the shortest stem; of these
/// that of the first rule, and of the rule's the first. `None` comes exactly where there is none,
/// and then also where memory is short if no target pattern matches.
///
/// A comparison with each target pattern of each rule, a sort of those that match, and for each of
/// these up to the one that is chosen one search for each prerequisite.
pub fn find(
    alloc: Global,
    book: &Book,
    target: &[u8],
    tree: &Tree,
    cwd: &Path,
) -> Result<Option<Found>, NoMemory>
    ensures found { IfOk result (λ r. r
        ≡ found book.now.rules book.now.patterns tree.now cwd.now target.now) }
    ensures none { list_any (λ r. is_matched r target.now) book.now.patterns ≡ false
        → result ≡ Ok None }
{
    let mut there = OnTree { tree };
    match find_by(alloc, book, target, cwd, &mut there) {
        Ok(found) => Ok(found),
        Err(_) => Err(NoMemory),
    }
}

/// The pattern rule by which a target is remade, as `find` says, in what a desk sees. The target
/// patterns that match are tried one after another, the one with the shorter stem first and then
/// the earlier one, until a rule applies. For each the kind of each prerequisite is asked that
/// isn't mentioned as a target or an explicit prerequisite, the normal ones before the order-only
/// ones, up to the first that is absent. A name that is no path is absent and isn't asked.
///
/// `Spent` comes exactly where the desk answers it, and `File` never. Each question costs what the
/// desk takes for it. A comparison with each target pattern of each rule, and a sort of those that
/// match.
pub fn find_through<V: View>(
    alloc: Global,
    book: &Book,
    target: &[u8],
    desk: &mut Desk<V>,
    cwd: &Path,
) -> Result<Option<Found>, DeskNo>
    ensures performs { Acts V.tells desk.old desk.new result
        (acted (seeking book.now.rules book.now.patterns cwd.now target.now)) }
    ensures unrefused { IfErr result (λ e. is_refusal e ≡ false) }
{
    find_by(alloc, book, target, cwd, desk)
}
