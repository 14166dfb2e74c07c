//! Laws of the definitions: each function's contract is the law, and its body is empty.
ghost use Rattle.std.specs.Prelude.{◌≡◌, ◌↔◌, List, Some, map};
ghost use Rattle.em_syntax.specs.Nesting.{IsClosed, nesting_of, open_after};
ghost use Rattle.em_syntax.specs.declared.tree.WordPiece.{WordPiece};

/// In a list of pieces each `End` belongs to an `Argument` before it and none is left open, exactly
/// where counting them shows it.
pub fn law_closed()
    ensures { (pieces : List WordPiece)
        → IsClosed pieces ↔ (open_after 0 (map nesting_of pieces) ≡ Some 0) }
{}
