//! The lines for the shell that come of a recipe's line.
ghost use Rattle.std.specs.Prelude.{◌≡◌, ◌++◌, ◌∷◌, [], IfOk, OnOk};
ghost use Rattle.em_recipe.specs.Commands.{kept, commands_of};

use crate::mark::{Marks, bare, marks_of};
use em_base::{NoMemory, Seq, Text};
use std::alloc::Global;

/// A line for the shell, as it is echoed, and the marks that stood in front of it. It isn't empty.
#[derive(Debug, Drop, PartialEq, Eq)]
pub struct RecipeCommand {
    pub text: Text,
    pub marks: Marks,
}

/// Appends what comes of a line for the shell, unless that is empty.
fn add(
    alloc: Global,
    commands: &mut Seq<RecipeCommand>,
    front: Marks,
    line: &[u8],
) -> Result<(), NoMemory>
    ensures { OnOk result (commands.new ≡ commands.old ++ kept front (line.now ∷ [])) }
{
    let text = bare(line);
    if text.is_empty() {
        return Ok(());
    }
    commands.push(RecipeCommand {
        text: Text::from_slice(alloc, text)?,
        marks: front.or(marks_of(line)),
    })
}

/// The lines for the shell of a recipe's line that was written so and expanded to this: it is split
/// at newlines without a backslash in front; blanks and marks in front of each are taken off, and
/// those in front of the line as it was written hold for all; empty ones are left out. Each byte is
/// copied once.
pub fn commands(
    alloc: Global,
    written: &[u8],
    expanded: &[u8],
) -> Result<Seq<RecipeCommand>, NoMemory>
    ensures { IfOk result (λ cs. cs ≡ commands_of written.now expanded.now) }
{
    let front = marks_of(written);
    let mut commands = Seq::new(alloc);
    let mut start = 0;
    let mut quoted = false;
    for (i, byte) in expanded.iter().enumerate() {
        if *byte == b'\n' && !quoted {
            add(alloc, &mut commands, front, &expanded[start..i])?;
            start = i + 1;
        }
        quoted = *byte == b'\\';
    }
    add(alloc, &mut commands, front, &expanded[start..])?;
    Ok(commands)
}
