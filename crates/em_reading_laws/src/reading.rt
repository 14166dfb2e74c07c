//! The reading of makefiles: each function's contract is the law, and its body is empty.
ghost use Rattle.std.specs.Prelude.{
  ◌≡◌,
  ◌≢◌,
  ◌⊎◌,
  ◌++◌,
  ◌∷◌,
  false,
  ℕ,
  suc,
  List,
  Option,
  Some,
  None,
  Ok,
  Err,
};
ghost use Rattle.em_base.specs.declared.place.Place.{Place};
ghost use Rattle.em_cmdline.specs.declared.order.Order.{Order};
ghost use Rattle.em_lines.specs.declared.line.Line.{Line};
ghost use Rattle.em_lines.specs.declared.line.Lines.{Lines};
ghost use Rattle.em_lines.specs.Lines as lines;
ghost use Rattle.em_rules.specs.declared.book.Book.{Book};
ghost use Rattle.em_vars.specs.Entries.{Entries};
ghost use Rattle.em_view.specs.Actions.{Oracle, Workspace};
ghost use Rattle.em_statement.specs.declared.statement.Include.{Include};
ghost use Rattle.em_reading.specs.declared.no.MakefileFault.TheVariants as fault;
ghost use Rattle.em_reading.specs.declared.no.ReadNo.{ReadNo};
ghost use Rattle.em_reading.specs.declared.reading.Reading.{Reading};
ghost use Rattle.em_reading.specs.declared.reading.OpenDefine.{OpenDefine};
ghost use Rattle.em_reading.specs.Changes.{after_opens};
ghost use Rattle.em_reading.specs.Faults.{at_place};
ghost use Rattle.em_reader.specs.Reading.{Deeper, read_lines, read_text};
ghost use Rattle.em_reader.specs.Makefiles.{reading, round};
ghost use Rattle.em_reader.specs.declared.makefiles.Round.{Round};
ghost use Rattle.em_reading_laws.specs.Rounds.{is_wanting, IsAbsent};
ghost use Rattle.em_reading_laws.specs.Steps.{Begins, state_of};
ghost use Rattle.em_reading_laws.specs.Reading.{End, from_there, IsOneInclude, IsTaken};

/// Lines are read from the left. Those in front come to an end that doesn't go by what stands
/// behind them; from there the others are read, with the rule, the conditionals and the `define`
/// that those in front have left open, and a fault in front is the whole's. So where lines are a
/// text of their own without a fault, what stands behind them is read from where that text ends.
/// Where the text's fault is a `define` that is open, it is its own one, and the others are read on
/// in it, or that of a text that a line has put in, and then the fault is the whole's, as every
/// other one is.
pub fn law_lines()
    ensures parted { (deeper : Deeper) (front : List Line) (r : Reading) (o : Oracle)
        (w : Workspace) → (e : End) × ((too_long : Option Place) (rest : List Line)
        → read_lines deeper too_long (front ++ rest) r o w
        ≡ from_there e (read_lines deeper too_long rest) o) }
    ensures text { (left : ℕ) (p : Place) (front rest : List Line) (too_long : Option Place)
        (r s : Reading) (o : Oracle) (w v : Workspace)
        → read_text (suc left) p (record { lines = front; too_long = None }) r o w ≡ (Ok (tt, s), v)
        → read_text (suc left) p (record { lines = front ++ rest; too_long = too_long }) r o w
        ≡ read_text (suc left) p (record { lines = rest; too_long = too_long }) s o v }
    ensures unended { (left : ℕ) (p : Place) (front rest : List Line) (too_long : Option Place)
        (r s : Reading) (b : OpenDefine) (o : Oracle) (w v : Workspace) → s.define ≡ Some b
        → read_text (suc left) p (record { lines = front; too_long = None }) r o w
        ≡ (Err (at_place b.place fault.Define, s), v)
        → (read_text (suc left) p (record { lines = front ++ rest; too_long = too_long }) r o w
        ≡ read_text (suc left) p (record { lines = rest; too_long = too_long }) s o v)
        ⊎ (read_text (suc left) p (record { lines = front ++ rest; too_long = too_long }) r o w
        ≡ (Err (at_place b.place fault.Define, s), v)) }
    ensures refused { (left : ℕ) (p : Place) (front rest : List Line) (too_long : Option Place)
        (r s : Reading) (found : ReadNo) (o : Oracle) (w v : Workspace)
        → ((b : OpenDefine) → s.define ≡ Some b → found ≢ at_place b.place fault.Define)
        → read_text (suc left) p (record { lines = front; too_long = None }) r o w
        ≡ (Err (found, s), v)
        → read_text (suc left) p (record { lines = front ++ rest; too_long = too_long }) r o w
        ≡ (Err (found, s), v) }
{}

/// What was said stays, however a reading ends: it only puts something behind it.
pub fn law_said()
    ensures text { (left : ℕ) (p : Place) (text : Lines) (r : Reading) (o : Oracle) (w : Workspace)
        → Begins r.spoken.said (state_of (read_text left p text r o w).0).spoken.said }
    ensures whole { (order : Order) (cwd : List ℕ) (defaults : Entries) (said : List ℕ)
        (o : Oracle) (w : Workspace)
        → Begins said (state_of (reading order cwd defaults said o w).0) }
{}

/// An `include` of one file is the text of that file, read where the line stands one level deeper,
/// with the places of the file; then the rest is read. Where the text is read without a fault, that
/// is what reading its lines in place of the line comes to, as if they stood there. Before its
/// lines the file is noted, where files are.
pub fn law_include()
    ensures read { (left : ℕ) (too_long : Option Place) (l : Line) (i : Include)
        (name bytes : List ℕ) (rest : List Line) (r s : Reading) (o : Oracle) (w v : Workspace)
        → IsOneInclude l i name r → IsTaken l name bytes r s o w v
        → read_lines (read_text left) too_long (l ∷ rest) r o w
        ≡ from_there (read_text left l.place (lines.joined name bytes) (after_opens name s) o v)
        (read_lines (read_text left) too_long rest) o }
    ensures in_place { (left : ℕ) (too_long : Option Place) (l : Line) (i : Include)
        (name bytes : List ℕ) (rest : List Line) (r s t : Reading) (o : Oracle)
        (w v u : Workspace) → IsOneInclude l i name r → IsTaken l name bytes r s o w v
        → read_text left l.place (lines.joined name bytes) (after_opens name s) o v
        ≡ (Ok (tt, t), u)
        → read_lines (read_text left) too_long (l ∷ rest) r o w
        ≡ read_lines (read_text left) too_long ((lines.joined name bytes).lines ++ rest)
        (after_opens name s) o v }
{
    em_expand::laws::law_plain();
}

/// A round against a reading of the same order. Where the reading gives a book, a round gives the
/// same book and says the same, and nothing that is needed is missing; where a round gives one and
/// nothing that is needed is missing, the reading gives the same. A reading's fault is a round's,
/// unless it is an absent makefile; a round's is the reading's, unless that one's is an absent
/// makefile, which stands in front of it.
pub fn law_round()
    ensures read { (order : Order) (cwd : List ℕ) (defaults : Entries) (said : List ℕ)
        (o : Oracle) (w : Workspace) (b : Book) (s : List ℕ) (v : Workspace)
        → reading order cwd defaults said o w ≡ (Ok (b, s), v)
        → (q : Round) × (round order cwd defaults said o w ≡ (Ok (q, s), v)) × (q.book ≡ b)
        × (is_wanting q.missing ≡ false) }
    ensures round { (order : Order) (cwd : List ℕ) (defaults : Entries) (said : List ℕ)
        (o : Oracle) (w : Workspace) (q : Round) (s : List ℕ) (v : Workspace)
        → round order cwd defaults said o w ≡ (Ok (q, s), v) → is_wanting q.missing ≡ false
        → reading order cwd defaults said o w ≡ (Ok (q.book, s), v) }
    ensures fault { (order : Order) (cwd : List ℕ) (defaults : Entries) (said : List ℕ)
        (o : Oracle) (w : Workspace) (e : ReadNo) (s : List ℕ) (v : Workspace)
        → (IsAbsent e → ⊥) → reading order cwd defaults said o w ≡ (Err (e, s), v)
        → round order cwd defaults said o w ≡ (Err (e, s), v) }
    ensures first { (order : Order) (cwd : List ℕ) (defaults : Entries) (said : List ℕ)
        (o : Oracle) (w : Workspace) (e : ReadNo) (s : List ℕ) (v : Workspace)
        → round order cwd defaults said o w ≡ (Err (e, s), v)
        → (reading order cwd defaults said o w ≡ (Err (e, s), v))
        ⊎ ((f : ReadNo) × (t : List ℕ) × (u : Workspace) × IsAbsent f
        × (reading order cwd defaults said o w ≡ (Err (f, t), u))) }
{}
