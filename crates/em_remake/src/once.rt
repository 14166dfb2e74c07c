//! Names that are gathered, each once.
ghost use Rattle.std.specs.Prelude.{◌≡◌, ℕ, List, OnOk, is_some};
ghost use Rattle.std.specs.FinMap as finmap;
ghost use Rattle.em_rules.specs.Dots.{undotted};
ghost use Rattle.em_plan.specs.Once.{is_among};
ghost use Rattle.em_plan.specs.Once.{each_once, once_more};

use em_base::{NoMemory, Seq, Table, Text};
use em_rules::undotted;
use std::alloc::Global;

/// The name without the `./` that it begins with, at the end, unless it is there. The table has the
/// names that are there.
pub(crate) fn add_once(
    alloc: Global,
    names: &mut Seq<Text>,
    there: &mut Table<()>,
    name: &[u8],
) -> Result<(), NoMemory>
    requires { (q : List ℕ) → is_some (finmap.get there.old q) ≡ is_among names.old q }
    ensures there { OnOk result
        ((q : List ℕ) → is_some (finmap.get there.new q) ≡ is_among names.new q) }
    ensures names { OnOk result (names.new ≡ once_more names.old (undotted name.now)) }
{
    let name = undotted(name);
    if there.get(name).is_none() {
        there.insert(Text::from_slice(alloc, name)?, ())?;
        names.push(Text::from_slice(alloc, name)?)?;
    }
    Ok(())
}

/// Each of these names likewise.
pub(crate) fn add_all(
    alloc: Global,
    names: &mut Seq<Text>,
    there: &mut Table<()>,
    more: &[Text],
) -> Result<(), NoMemory>
    requires { (q : List ℕ) → is_some (finmap.get there.old q) ≡ is_among names.old q }
    ensures there { OnOk result
        ((q : List ℕ) → is_some (finmap.get there.new q) ≡ is_among names.new q) }
    ensures names { OnOk result (names.new ≡ each_once names.old more.now) }
{
    for name in more {
        add_once(alloc, names, there, name.bytes())?;
    }
    Ok(())
}
