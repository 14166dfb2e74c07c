//! Laws of the definitions: each function's contract is the law, and its body is empty.
ghost use Rattle.std.specs.Prelude.{◌≡◌, ℕ, List};
ghost use Rattle.em_exec.specs.Exec.{run};
ghost use Rattle.em_gram.specs.Same.{script_shape};
ghost use Rattle.em_script.specs.Lines.{IsRead, run_line};
ghost use Rattle.em_script.specs.Strands.{IsMeant, Meaning};
ghost use Rattle.em_script.specs.declared.line.ShellLine.{ShellLine};
ghost use Rattle.em_syntax.specs.declared.tree.Script.{Script};

/// Scripts of one shape run alike: it doesn't matter where they lie in memory.
pub fn law_alike()
    ensures { (s t : Script) → script_shape s ≡ script_shape t → run s ≡ run t }
{}

/// A text means one thing to the shell: whatever it is read as, that runs alike.
pub fn law_one_meaning()
    ensures { (text : List ℕ) (a b : ShellLine) → IsRead text a → IsRead text b
        → run_line a ≡ run_line b }
{}

/// The same of all that a text means: the words of a make within a make come about alike too.
pub fn law_one_text()
    ensures { (text : List ℕ) (a b : Meaning) → IsMeant text a → IsMeant text b → a ≡ b }
{}
