//! The makefiles that may be goals.
ghost use Rattle.std.specs.Prelude.{◌≡◌, ℕ, List, IfOk, OnOk, is_some, map};
ghost use Rattle.std.specs.FinMap as finmap;
ghost use Rattle.em_plan.specs.Once.{is_among};
ghost use Rattle.em_plan.specs.Once.{each_once};
ghost use Rattle.em_remake.specs.Remaking.{candidates};

use crate::once::{add_all, add_once};
use em_base::{NoMemory, Seq, Table, Text};
use em_reader::{Missing, Round};
use std::alloc::Global;

/// The names of these files at the end, each unless it is there.
fn add_missing(
    alloc: Global,
    names: &mut Seq<Text>,
    there: &mut Table<()>,
    missing: &[Missing],
) -> Result<(), NoMemory>
    requires { (q : List ℕ) → is_some (finmap.get there.old q) ≡ is_among names.old q }
    ensures there { OnOk result
        ((q : List ℕ) → is_some (finmap.get there.new q) ≡ is_among names.new q) }
    ensures names { OnOk result
        (names.new ≡ each_once names.old (map (λ m. m.name) missing.now)) }
{
    for file in missing {
        add_once(alloc, names, there, file.name.bytes())?;
    }
    Ok(())
}

/// The names of the files that were read, then of those that aren't there, each where it first
/// stands and without the `./` that it begins with.
pub(crate) fn candidates(alloc: Global, r: &Round) -> Result<Seq<Text>, NoMemory>
    ensures { IfOk result (λ n. n ≡ candidates r.now) }
{
    let mut names = Seq::new(alloc);
    let mut there = Table::new(alloc);
    add_all(alloc, &mut names, &mut there, r.files.items())?;
    add_missing(alloc, &mut names, &mut there, r.missing.items())?;
    Ok(names)
}
