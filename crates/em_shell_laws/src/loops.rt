//! `while` and `until`: the function's contract is the law.
ghost use Rattle.std.specs.Prelude.{◌≡◌, ◌<◌, ◌≤◌, ℕ, Ok};
ghost use Rattle.em_view.specs.declared.done.ExecNo.{ExecNo};
ghost use Rattle.em_view.specs.declared.done.ExecNo.TheVariants.{Spent};
ghost use Rattle.em_view.specs.Actions.{Oracle, Workspace};
ghost use Rattle.em_syntax.specs.declared.tree.Loop.{Loop, out-Loop};
ghost use Rattle.em_syntax.specs.declared.tree.Script.{Script};
ghost use Rattle.em_command.specs.declared.jump.Jump.{Jump};
ghost use Rattle.em_command.specs.declared.jump.Jump.TheVariants.{Exit, Break, Continue, End};
ghost use Rattle.em_command.specs.declared.here.Here.{Here};
ghost use Rattle.em_command.specs.declared.here.Scene.{Scene};
ghost use Rattle.em_command.specs.Heres.{with_status};
ghost use Rattle.em_exec.specs.Words.{Deeper};
ghost use Rattle.em_exec.specs.Running.{loop_of, script_at};
ghost use Rattle.em_exec.specs.Exec.{Session, run};
ghost use Rattle.em_shell_laws.specs.Ends.{Ends, Leaves};
ghost use Rattle.em_shell_laws.specs.Loops.{
  test_of,
  body_of,
  turns_of,
  going_on,
  Lets,
  turn_taken,
  MakesNoFuel,
};

/// A loop begins as one whose last body had status 0. Each turn takes a unit of fuel, and without
/// one there is no end. Then comes the test. Where it lets the loop go on, the body follows, and
/// then the loop again, with the body's status; else the loop ends with the status of its last
/// body. `break` ends it, in the body with the status that the shell has then; `continue` goes to
/// the next turn. What else leaves the test or the body leaves the loop. The number of turns never
/// bounds it, since the fuel ends first.
pub fn law_loop()
    ensures begins { (deeper : Deeper) (scene : Scene) (o : Oracle) (c : Loop) (h : Here)
        (w : Workspace) → loop_of deeper scene c h o w ≡ going_on deeper scene c 0 h o w }
    ensures spent { (deeper : Deeper) (scene : Scene) (o : Oracle) (c : Loop) (last : ℕ) (h : Here)
        (w : Workspace) → w.fuel ≡ 0
        → Leaves o (going_on deeper scene c last) h w (End Spent) h w }
    ensures over { (deeper : Deeper) (scene : Scene) (o : Oracle) (c : Loop) (last : ℕ) (h t : Here)
        (w v : Workspace) → 0 < w.fuel
        → Ends o (test_of deeper scene c) h (turn_taken w) tt t v
        → ¬ Lets (out-Loop c).until t.shell.status
        → Ends o (going_on deeper scene c last) h w tt (with_status last t) v }
    ensures again { (deeper : Deeper) (scene : Scene) (o : Oracle) (c : Loop) (last : ℕ)
        (h t k : Here) (w v x : Workspace) → MakesNoFuel (test_of deeper scene c)
        → MakesNoFuel (body_of deeper scene c) → 0 < w.fuel
        → Ends o (test_of deeper scene c) h (turn_taken w) tt t v
        → Lets (out-Loop c).until t.shell.status → Ends o (body_of deeper scene c) t v tt k x
        → going_on deeper scene c last h o w ≡ going_on deeper scene c k.shell.status k o x }
    ensures break_in_test { (deeper : Deeper) (scene : Scene) (o : Oracle) (c : Loop) (last : ℕ)
        (h t : Here) (w v : Workspace) → 0 < w.fuel
        → Leaves o (test_of deeper scene c) h (turn_taken w) Break t v
        → Ends o (going_on deeper scene c last) h w tt (with_status last t) v }
    ensures continue_in_test { (deeper : Deeper) (scene : Scene) (o : Oracle) (c : Loop) (last : ℕ)
        (h t : Here) (w v : Workspace) → MakesNoFuel (test_of deeper scene c)
        → MakesNoFuel (body_of deeper scene c) → 0 < w.fuel
        → Leaves o (test_of deeper scene c) h (turn_taken w) Continue t v
        → going_on deeper scene c last h o w ≡ going_on deeper scene c last t o v }
    ensures break_in_body { (deeper : Deeper) (scene : Scene) (o : Oracle) (c : Loop) (last : ℕ)
        (h t k : Here) (w v x : Workspace) → 0 < w.fuel
        → Ends o (test_of deeper scene c) h (turn_taken w) tt t v
        → Lets (out-Loop c).until t.shell.status → Leaves o (body_of deeper scene c) t v Break k x
        → Ends o (going_on deeper scene c last) h w tt k x }
    ensures continue_in_body { (deeper : Deeper) (scene : Scene) (o : Oracle) (c : Loop) (last : ℕ)
        (h t k : Here) (w v x : Workspace) → MakesNoFuel (test_of deeper scene c)
        → MakesNoFuel (body_of deeper scene c) → 0 < w.fuel
        → Ends o (test_of deeper scene c) h (turn_taken w) tt t v
        → Lets (out-Loop c).until t.shell.status
        → Leaves o (body_of deeper scene c) t v Continue k x
        → going_on deeper scene c last h o w ≡ going_on deeper scene c k.shell.status k o x }
    ensures exit_in_test { (deeper : Deeper) (scene : Scene) (o : Oracle) (c : Loop) (last : ℕ)
        (h t : Here) (w v : Workspace) → 0 < w.fuel
        → Leaves o (test_of deeper scene c) h (turn_taken w) Exit t v
        → Leaves o (going_on deeper scene c last) h w Exit t v }
    ensures exit_in_body { (deeper : Deeper) (scene : Scene) (o : Oracle) (c : Loop) (last : ℕ)
        (h t k : Here) (w v x : Workspace) → 0 < w.fuel
        → Ends o (test_of deeper scene c) h (turn_taken w) tt t v
        → Lets (out-Loop c).until t.shell.status → Leaves o (body_of deeper scene c) t v Exit k x
        → Leaves o (going_on deeper scene c last) h w Exit k x }
    ensures no_end_in_test { (deeper : Deeper) (scene : Scene) (o : Oracle) (c : Loop) (last : ℕ)
        (h t : Here) (w v : Workspace) (e : ExecNo) → 0 < w.fuel
        → Leaves o (test_of deeper scene c) h (turn_taken w) (End e) t v
        → Leaves o (going_on deeper scene c last) h w (End e) t v }
    ensures no_end_in_body { (deeper : Deeper) (scene : Scene) (o : Oracle) (c : Loop) (last : ℕ)
        (h t k : Here) (w v x : Workspace) (e : ExecNo) → 0 < w.fuel
        → Ends o (test_of deeper scene c) h (turn_taken w) tt t v
        → Lets (out-Loop c).until t.shell.status
        → Leaves o (body_of deeper scene c) t v (End e) k x
        → Leaves o (going_on deeper scene c last) h w (End e) k x }
    ensures unbounded { (deeper : Deeper) (scene : Scene) (o : Oracle) (c : Loop) (last n : ℕ)
        (h : Here) (w : Workspace) → MakesNoFuel (test_of deeper scene c)
        → MakesNoFuel (body_of deeper scene c) → w.fuel < n
        → turns_of deeper scene c n last h o w ≡ going_on deeper scene c last h o w }
{}

/// No script makes fuel, however many levels may stand in it and however it ends, and so no line.
pub fn law_no_fuel()
    ensures script { (left : ℕ) (s : Script) (scene : Scene)
        → MakesNoFuel (script_at left s scene) }
    ensures line { (script : Script) (s : Session) (o : Oracle) (w : Workspace)
        → (run script s o w).1.fuel ≤ w.fuel }
{}
