//! Logical lines.
ghost use Rattle.std.specs.Prelude.{◌≡◌};

use em_base::{Place, Seq, Text};

/// A logical line of a makefile.
#[derive(Debug, Drop, PartialEq, Eq)]
pub struct Line {
    /// Where its first line stands.
    pub place: Place,
    /// Whether it begins with a tab: it is a line of a recipe.
    pub tab: bool,
    /// The text, joined; that of a recipe's line without the tab.
    pub text: Text,
}

/// The logical lines of a makefile in front of the first one that is too long.
#[derive(Debug, Drop)]
pub struct Lines {
    /// The lines in order.
    pub lines: Seq<Line>,
    /// Where the first line stands that is longer than 1,048,576 bytes, if there is one.
    pub too_long: Option<Place>,
}
