//! What is read for a utility.

use em_base::Text;
use em_tree::Body;
use em_utility::Reason;

/// The bytes of a file or of the input, or why there are none.
#[derive(Debug, Drop, PartialEq, Eq)]
pub enum OperandContent {
    Bytes(Body),
    No(Reason),
}

/// An operand and what was found; the input has the empty name.
#[derive(Debug, Drop, PartialEq, Eq)]
pub struct ReadOperand {
    pub name: Text,
    pub found: OperandContent,
}
