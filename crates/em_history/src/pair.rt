//! Pairs of names, and pairs in the order of their lines.
ghost use Rattle.std.specs.Prelude.{◌≡◌, ◌≤◌, ◌++◌, ◌∷◌, [], true, length, insert, All, IfOk, IfErr, IsOk, OnOk, OnErr};
ghost use Rattle.std.specs.List.{Contains};
ghost use Rattle.std.specs.Ordering.{nat_cmp};
ghost use Rattle.std.specs.Cmp.Lexicographic.{slice_cmp};
ghost use Rattle.em_history.specs.Histories.{IsHistory, by_names, placed, united};
ghost use Rattle.em_history.specs.Histories as histories;

use crate::name::is_name;
use em_base::{NoMemory, Text};
use std::alloc::Global;
use std::cmp::Ordering;

/// Whether both names can stand in a line.
pub(crate) fn both_fit(target: &[u8], needed: &[u8]) -> bool
    ensures { result ≡ histories.fits (target.now, needed.now) }
{
    is_name(target) && is_name(needed)
}

/// `both_fit` of a pair.
pub(crate) fn fits(pair: &(Text, Text)) -> bool
    ensures { result ≡ histories.fits pair.now }
{
    both_fit(pair.0.bytes(), pair.1.bytes())
}

/// Compares the texts, each with this byte behind it.
fn compare_ended(a: &[u8], b: &[u8], end: u8) -> Ordering
    ensures { result ≡ slice_cmp nat_cmp (a.now ++ end ∷ []) (b.now ++ end ∷ []) }
{
    let n = a.len().min(b.len());
    a[..n]
        .cmp(&b[..n])
        .then(a.get(n).unwrap_or(&end).cmp(b.get(n).unwrap_or(&end)))
        .then(a.len().cmp(&b.len()))
}

/// Compares the lines of pairs that fit, and others by their names; takes no memory.
fn compare(a: &(Text, Text), b: &(Text, Text)) -> Ordering
    ensures { result ≡ by_names a.now b.now }
{
    match compare_ended(a.0.bytes(), b.0.bytes(), b' ') {
        Ordering::Equal => compare_ended(a.1.bytes(), b.1.bytes(), b'\n'),
        other => other,
    }
}

/// Where the pair stands, or else its place.
fn place_of(held: &[(Text, Text)], pair: &(Text, Text)) -> Result<usize, usize>
    requires history { IsHistory held.now }
    requires fits { histories.fits pair.now ≡ true }
    ensures found { IfOk result (λ i. placed pair.now held.now ≡ held.now) }
    ensures new { IfErr result (λ i. placed pair.now held.now ≡ insert held.now i pair.now) }
    ensures within { IfErr result (λ i. i ≤ length held.now) }
    ensures there { Contains held.now pair.now → IsOk result }
{
    held.binary_search_by(|p| compare(p, pair))
}

/// Puts the pair in its place, unless it is there.
pub(crate) fn place(held: &mut Vec<(Text, Text)>, pair: (Text, Text)) -> Result<(), NoMemory>
    requires history { IsHistory held.old.items }
    requires fits { histories.fits pair ≡ true }
    ensures ok { OnOk result (held.new.items ≡ placed pair held.old.items) }
    ensures err { OnErr result (held.new.items ≡ held.old.items) }
    ensures there { Contains held.old.items pair → IsOk result }
{
    if let Err(at) = place_of(held, &pair) {
        held.insert(at, pair)?;
    }
    Ok(())
}

/// Puts pairs that fit in order, each once. The steps of a sort: those of its longest rising runs.
pub(crate) fn gather(pairs: &mut Vec<(Text, Text)>) -> Result<(), NoMemory>
    requires { All (λ p. histories.fits p ≡ true) pairs.old.items }
    ensures ok { OnOk result (pairs.new.items ≡ united pairs.old.items []) }
    ensures err { OnErr result (pairs.new.items ≡ pairs.old.items) }
{
    pairs.sort_by(compare)?;
    pairs.dedup();
    Ok(())
}

/// Adds the pairs of another history. Both are rising runs, so the sort only merges them.
pub(crate) fn join(
    held: &mut Vec<(Text, Text)>,
    more: &mut Vec<(Text, Text)>,
) -> Result<(), NoMemory>
    requires held { IsHistory held.old.items }
    requires more { IsHistory more.old.items }
    ensures ok { OnOk result (held.new.items ≡ united more.old.items held.old.items) }
    ensures err { OnErr result (held.new.items ≡ held.old.items) }
{
    let before = held.len();
    held.append(more)?;
    let gathered = gather(held);
    if gathered.is_err() {
        held.truncate(before);
    }
    gathered
}

/// Equal pairs.
pub(crate) fn copies(alloc: Global, pairs: &[(Text, Text)]) -> Result<Vec<(Text, Text)>, NoMemory>
    ensures { IfOk result (λ v. v.items ≡ pairs.now) }
{
    let mut all = Vec::new(alloc);
    for pair in pairs {
        all.push((pair.0.copy(alloc)?, pair.1.copy(alloc)?))?;
    }
    Ok(all)
}
