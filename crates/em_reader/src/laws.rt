//! Laws of the definitions: each function's contract is the law, and its body is empty.
ghost use Rattle.std.specs.Prelude.{◌≡◌, true, false, ℕ, suc, List, [], All, Ok, None};
ghost use Rattle.em_base.specs.declared.place.Place.{Place};
ghost use Rattle.em_lines.specs.declared.line.Line.{Line};
ghost use Rattle.em_view.specs.Actions.{Oracle, Workspace};
ghost use Rattle.em_reading.specs.declared.reading.Reading.{Reading};
ghost use Rattle.em_reading.specs.Changes.{is_read};
ghost use Rattle.em_reader.specs.Passing.{is_passed};
ghost use Rattle.em_reader.specs.Reading.{Deeper, read_lines, read_text};

/// Reading a text without lines changes nothing, asks nothing and costs nothing.
pub fn law_empty_text()
    ensures { (left : ℕ) (p : Place) (r : Reading) (o : Oracle) (w : Workspace) → r.define ≡ None
        → read_text (suc left) p (record { lines = []; too_long = None }) r o w ≡ (Ok (tt, r), w) }
{}

/// In a branch that isn't read, lines that are none of a conditional change nothing, ask nothing
/// and cost nothing.
pub fn law_unread_branch()
    ensures { (deeper : Deeper) (lines : List Line) (r : Reading) (o : Oracle) (w : Workspace)
        → r.define ≡ None → is_read r ≡ false → All (λ l. is_passed l ≡ true) lines
        → read_lines deeper None lines r o w ≡ (Ok (tt, r), w) }
{}
