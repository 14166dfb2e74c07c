//! Pipelines joined by `&&` and `||`: the function's contract is the law.
ghost use Rattle.std.specs.Prelude.{◌≡◌, ◌≢◌, [], true, false, Ok};
ghost use Rattle.em_view.specs.Actions.{Oracle, Workspace};
ghost use Rattle.em_syntax.specs.declared.tree.AndOr.{AndOr, out-AndOr};
ghost use Rattle.em_syntax.specs.declared.tree.Joined.{Joined, out-Joined};
ghost use Rattle.em_command.specs.declared.jump.Jump.{Jump};
ghost use Rattle.em_command.specs.declared.here.Here.{Here};
ghost use Rattle.em_command.specs.declared.here.Scene.{Scene};
ghost use Rattle.em_exec.specs.Words.{Deeper};
ghost use Rattle.em_exec.specs.Running.{pipeline_of, and_or_of};
ghost use Rattle.em_shell_laws.specs.Ends.{Ends, Leaves};
ghost use Rattle.em_shell_laws.specs.Lists.{IsWith};

/// Behind `&&` a pipeline runs where what stands before it has status 0, behind `||` where it has
/// another. Where it doesn't run, the status stays and nothing is done. Before it stands all of the
/// list up to there, so both bind alike and from the left. What leaves the list before leaves it
/// with what follows.
pub fn law_joined()
    ensures alone { (deeper : Deeper) (scene : Scene) (o : Oracle) (a : AndOr) (h : Here)
        (w : Workspace) → (out-AndOr a).rest.items ≡ []
        → and_or_of deeper scene a h o w ≡ pipeline_of deeper scene (out-AndOr a).first h o w }
    ensures and_zero { (deeper : Deeper) (scene : Scene) (o : Oracle) (a b : AndOr) (j : Joined)
        (h t : Here) (w v : Workspace) → IsWith a j b → (out-Joined j).and ≡ true
        → Ends o (and_or_of deeper scene a) h w tt t v → t.shell.status ≡ 0
        → and_or_of deeper scene b h o w ≡ pipeline_of deeper scene (out-Joined j).next t o v }
    ensures and_other { (deeper : Deeper) (scene : Scene) (o : Oracle) (a b : AndOr) (j : Joined)
        (h t : Here) (w v : Workspace) → IsWith a j b → (out-Joined j).and ≡ true
        → Ends o (and_or_of deeper scene a) h w tt t v → t.shell.status ≢ 0
        → Ends o (and_or_of deeper scene b) h w tt t v }
    ensures or_zero { (deeper : Deeper) (scene : Scene) (o : Oracle) (a b : AndOr) (j : Joined)
        (h t : Here) (w v : Workspace) → IsWith a j b → (out-Joined j).and ≡ false
        → Ends o (and_or_of deeper scene a) h w tt t v → t.shell.status ≡ 0
        → Ends o (and_or_of deeper scene b) h w tt t v }
    ensures or_other { (deeper : Deeper) (scene : Scene) (o : Oracle) (a b : AndOr) (j : Joined)
        (h t : Here) (w v : Workspace) → IsWith a j b → (out-Joined j).and ≡ false
        → Ends o (and_or_of deeper scene a) h w tt t v → t.shell.status ≢ 0
        → and_or_of deeper scene b h o w ≡ pipeline_of deeper scene (out-Joined j).next t o v }
    ensures left { (deeper : Deeper) (scene : Scene) (o : Oracle) (a b : AndOr) (j : Joined)
        (h t : Here) (w v : Workspace) (why : Jump) → IsWith a j b
        → Leaves o (and_or_of deeper scene a) h w why t v
        → Leaves o (and_or_of deeper scene b) h w why t v }
{}
