//! Laws of the definitions: each function's contract is the law.
ghost use Rattle.std.specs.Prelude.{◌≡◌, ℕ, suc, Bool, List, [], ◌∷◌, codes, Ok};
ghost use Rattle.em_view.specs.Actions.{Oracle, Workspace};
ghost use Rattle.em_syntax.specs.declared.tree.Script.{Script, out-Script};
ghost use Rattle.em_command.specs.declared.here.Here.{Here};
ghost use Rattle.em_command.specs.declared.here.Scene.{Scene};
ghost use Rattle.em_command.specs.Builtins.{plain};
ghost use Rattle.em_command.specs.Commands.{run_command};
ghost use Rattle.em_command.specs.Heres.{with_status};
ghost use Rattle.em_utility.specs.Writing.{nothing};
ghost use Rattle.em_word.specs.declared.shell.Shell.{Shell};
ghost use Rattle.em_command.specs.Jumps.{Acts};
ghost use Rattle.em_exec.specs.Copies.{after, subshell};
ghost use Rattle.em_exec.specs.Running.{script_at};

/// An empty script does nothing: it writes nothing, changes nothing, asks nothing and costs
/// nothing. Its status is 0.
pub fn law_empty()
    ensures { (left : ℕ) (script : Script) (scene : Scene) (h : Here) (o : Oracle) (w : Workspace)
        → (out-Script script).list.items ≡ []
        → script_at (suc left) script scene h o w ≡ (Ok (tt, with_status 0 h), w) }
{}

/// A subshell leaves the shell's variables and working directory, whatever runs in it.
pub fn law_subshell()
    ensures { (m : Acts (Unit {0})) (h : Here) (o : Oracle) (w : Workspace)
        → (after (subshell m h o w).0).shell
        ≡ record h.shell { status = (after (subshell m h o w).0).shell.status } }
{}

/// `true` changes nothing but the status, writes nothing and asks nothing.
pub fn law_true()
    ensures { (input : List ℕ) (in_loop : Bool) (s : Shell) (o : Oracle) (w : Workspace)
        → run_command (codes "true" ∷ []) input in_loop s o w
        ≡ (Ok (plain nothing, record s { status = 0 }), w) }
{}
