//! Laws of the definitions: each function's contract is the law, and its body does nothing.
ghost use Rattle.std.specs.Prelude.{◌≡◌, ◌≢◌, ◌++◌, ℕ, List, None, Some, All, length};
ghost use Rattle.em_lines.specs.Kept.{IsComment};
ghost use Rattle.em_statement.specs.declared.assignment.Assignment.{Assignment};
ghost use Rattle.em_statement.specs.declared.assignment.Modifiers.{Modifiers};
ghost use Rattle.em_statement.specs.declared.statement.Statement.TheVariants.{Blank};
ghost use Rattle.em_statement.specs.Shapes.{shape};
ghost use Rattle.em_statement.specs.Written.{AllBlank, IsBlotted, IsWritten};
ghost use Rattle.em_statement.specs.Assignments.{assignment_of};
ghost use Rattle.em_statement.specs.Statements.{statement_of};

use em_base::laws::law_trimmed;

/// The shape of a text is as long as the text, and has its bytes or an `x` for them: what stands in
/// the shape and is no `x` stands at the same place of the text.
pub fn law_shape()
    ensures bytes { (text : List ℕ) → IsBlotted (shape text) text }
    ensures places { (text : List ℕ) → length (shape text) ≡ length text }
{}

/// A line of nothing but blanks and a comment is blank.
pub fn law_blank()
    ensures { (blanks comment : List ℕ) → AllBlank blanks → IsComment comment
        → statement_of (blanks ++ comment) ≡ Blank }
{}

/// An assignment's text is its name, its operator as it may be written, and its value, in this
/// order, with blanks round the name and behind the operator.
pub fn law_assignment()
    ensures { (modifiers : Modifiers) (text : List ℕ) (assignment : Assignment)
        → assignment_of modifiers text ≡ Some assignment → IsWritten text assignment }
{
    law_trimmed();
}

/// A text without `=` is no assignment.
pub fn law_operator()
    ensures { (modifiers : Modifiers) (text : List ℕ) → All (λ b. b ≢ 61) text
        → assignment_of modifiers text ≡ None }
{}
