//! What a line is.
ghost use Rattle.std.specs.Prelude.{◌≡◌};

use crate::assignment::Assignment;
use crate::condition::Condition;
use em_base::Text;

/// The line of a rule. Nothing in it is expanded.
#[derive(Debug, Drop, PartialEq, Eq)]
pub struct RuleLine {
    /// What stands in front of the recipe and the comment.
    pub head: Text,
    /// Whether an assignment stands behind the rule's colon.
    pub assigns: bool,
    /// What stands behind the `;`, if there is one.
    pub recipe: Option<Text>,
}

/// `include`, `-include` or `sinclude`
#[derive(Debug, Drop, PartialEq, Eq)]
pub struct Include {
    /// Whether the files must be there.
    pub required: bool,
    /// Not expanded.
    pub names: Text,
}

/// `undefine`
#[derive(Debug, Drop, PartialEq, Eq)]
pub struct Undefine {
    /// `override`
    pub overriding: bool,
    /// Not expanded.
    pub name: Text,
}

/// What a logical line of a makefile is, outside recipes.
#[derive(Debug, Drop, PartialEq, Eq)]
pub enum Statement {
    /// Nothing but blanks and a comment.
    Blank,
    If(Condition),
    /// `else` alone.
    Else,
    /// `else` with a condition.
    ElseIf(Condition),
    Endif,
    /// `else` or `endif` with something else behind it.
    Extraneous,
    /// `define`: an assignment whose value stands on the lines up to its `endef`.
    Define(Assignment),
    Include(Include),
    Undefine(Undefine),
    /// `export` with names that aren't expanded.
    Export(Text),
    /// `unexport`
    Unexport(Text),
    Assign(Assignment),
    /// `endef` without its `define`, `override` without an assignment, `define` with something
    /// behind its operator.
    Stray,
    /// A line that is refused by its first word.
    Unsupported(Text),
    Rule(RuleLine),
}
