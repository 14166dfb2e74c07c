//! Path names in place of fields.
ghost use Rattle.std.specs.Prelude.{◌≡◌, ◌++◌, [], map, IfOk};
ghost use Rattle.em_glob.specs.Patterns.{bytes_of};
ghost use Rattle.em_view.specs.Performs.{Performs};
ghost use Rattle.em_word.specs.Ends.{is_want};
ghost use Rattle.em_word.specs.Turns as turns;
ghost use Rattle.em_word.specs.Turns.{or_itself};

use crate::fault::WordFault;
use em_base::{NoMemory, Seq, Text};
use em_glob::{Glyph, is_pattern};
use em_path::Path;
use em_pathname::matching_names;
use em_view::{Desk, View};
use std::alloc::Global;

/// The bytes of a field.
fn text_of(alloc: Global, field: &[Glyph]) -> Result<Text, NoMemory>
    ensures { IfOk result (λ t. t ≡ bytes_of field.now) }
{
    Ok(Text::from_vec(field.iter().map(|g| g.byte).collect(alloc)?))
}

/// The field itself where nothing matches.
fn or_itself(alloc: Global, field: &[Glyph], names: Seq<Text>) -> Result<Seq<Text>, NoMemory>
    ensures { IfOk result (λ ns. ns ≡ turns.or_itself field.now names) }
{
    let mut names = names;
    if names.is_empty() {
        names.push(text_of(alloc, field)?)?;
    }
    Ok(names)
}

/// The names that match a field, or the field itself.
fn names_of<V: View>(
    alloc: Global,
    field: &[Glyph],
    cwd: &Path,
    desk: &mut Desk<V>,
) -> Result<Seq<Text>, WordFault>
    ensures { Performs is_want V.tells desk.old desk.new result (turns.names_of cwd.now field.now) }
{
    if is_pattern(field) {
        let names = matching_names(alloc, field, cwd, desk)?;
        Ok(or_itself(alloc, field, names)?)
    } else {
        Ok(or_itself(alloc, field, Seq::new(alloc))?)
    }
}

fn appended(so_far: Seq<Text>, more: Seq<Text>) -> Result<Seq<Text>, NoMemory>
    ensures { IfOk result (λ all. all ≡ so_far ++ more) }
{
    let mut all = so_far.into_vec();
    all.extend(more.into_vec())?;
    Ok(Seq::from_vec(all))
}

/// The names of each field, in order.
pub(crate) fn names_of_each<V: View>(
    alloc: Global,
    fields: &[Seq<Glyph>],
    cwd: &Path,
    desk: &mut Desk<V>,
) -> Result<Seq<Text>, WordFault>
    ensures { Performs is_want V.tells desk.old desk.new result
        (turns.names_of_each cwd.now [] fields.now) }
{
    let mut all = Seq::new(alloc);
    for field in fields {
        let names = names_of(alloc, field.items(), cwd, desk)?;
        all = appended(all, names)?;
    }
    Ok(all)
}
