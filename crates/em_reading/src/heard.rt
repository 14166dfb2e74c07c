//! What a statement has expanded.

use em_base::Text;

/// The expansion of a text.
#[derive(Debug, Drop, PartialEq, Eq)]
pub struct Expanded {
    /// The whole, or what is known to stand before the function that is refused.
    pub text: Text,
    /// The name of a function in it that is refused, if there is one.
    pub refused: Option<Text>,
}

/// The texts of a statement, expanded: a name and a value, the two sides of a condition, or one
/// text.
#[derive(Debug, Drop, PartialEq, Eq)]
pub struct Heard {
    pub first: Expanded,
    pub second: Expanded,
}
