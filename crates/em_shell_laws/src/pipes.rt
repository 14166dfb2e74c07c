//! Pipelines: the function's contract is the law.
ghost use Rattle.std.specs.Prelude.{◌≡◌, ◌≢◌, ◌++◌, ◌∷◌, [], List, map, true, false, Ok};
ghost use Rattle.std.specs.List.{flat_map};
ghost use Rattle.em_view.specs.Actions.{Oracle, Workspace};
ghost use Rattle.em_syntax.specs.declared.tree.Command.{Command};
ghost use Rattle.em_syntax.specs.declared.tree.Pipeline.{Pipeline, out-Pipeline};
ghost use Rattle.em_command.specs.declared.jump.Jump.{Jump};
ghost use Rattle.em_command.specs.declared.here.Here.{Here};
ghost use Rattle.em_command.specs.declared.here.Scene.{Scene};
ghost use Rattle.em_command.specs.Heres.{with_status, written};
ghost use Rattle.em_exec.specs.Words.{Deeper};
ghost use Rattle.em_exec.specs.Running.{command_of, pipeline_of};
ghost use Rattle.em_shell_laws.specs.Ends.{Ends, Leaves};
ghost use Rattle.em_shell_laws.specs.Pipes.{Stage, AreStages, beside, written_by};

/// A command alone runs in the shell itself. Of more than one each runs in a copy of the shell as
/// it was before the pipeline, and reads what the one before it wrote on stream 1, nothing at
/// first. What the last one wrote comes out, and before it what the others wrote on other streams,
/// in their order. The shell gets the last one's status and nothing else from the copies. `!` makes
/// a status 0 of another, and 1 of 0.
pub fn law_pipeline()
    ensures alone { (deeper : Deeper) (scene : Scene) (o : Oracle) (p : Pipeline) (c : Command)
        (h : Here) (w : Workspace) → (out-Pipeline p).stages.items ≡ c ∷ []
        → (out-Pipeline p).not ≡ false
        → pipeline_of deeper scene p h o w ≡ command_of deeper scene c h o w }
    ensures pipe { (deeper : Deeper) (scene : Scene) (o : Oracle) (p : Pipeline) (first : Stage)
        (more : List Stage) (last : Stage) (h : Here) (w : Workspace)
        → (out-Pipeline p).stages.items ≡ map (λ s. s.command) (first ∷ more ++ last ∷ [])
        → (out-Pipeline p).not ≡ false
        → AreStages deeper o h.shell [] w (first ∷ more ++ last ∷ [])
        → Ends o (pipeline_of deeper scene p) h w tt
        (with_status last.copy.shell.status
        (written (flat_map (λ s. beside 1 (written_by s)) (first ∷ more) ++ written_by last) h))
        last.after }
    ensures not_zero { (deeper : Deeper) (scene : Scene) (o : Oracle) (p q : Pipeline) (h t : Here)
        (w v : Workspace) → (out-Pipeline q).stages.items ≡ (out-Pipeline p).stages.items
        → (out-Pipeline p).not ≡ false → (out-Pipeline q).not ≡ true
        → Ends o (pipeline_of deeper scene p) h w tt t v → t.shell.status ≡ 0
        → Ends o (pipeline_of deeper scene q) h w tt (with_status 1 t) v }
    ensures not_other { (deeper : Deeper) (scene : Scene) (o : Oracle) (p q : Pipeline) (h t : Here)
        (w v : Workspace) → (out-Pipeline q).stages.items ≡ (out-Pipeline p).stages.items
        → (out-Pipeline p).not ≡ false → (out-Pipeline q).not ≡ true
        → Ends o (pipeline_of deeper scene p) h w tt t v → t.shell.status ≢ 0
        → Ends o (pipeline_of deeper scene q) h w tt (with_status 0 t) v }
    ensures left { (deeper : Deeper) (scene : Scene) (o : Oracle) (p q : Pipeline) (h t : Here)
        (w v : Workspace) (why : Jump)
        → (out-Pipeline q).stages.items ≡ (out-Pipeline p).stages.items
        → (out-Pipeline p).not ≡ false → Leaves o (pipeline_of deeper scene p) h w why t v
        → Leaves o (pipeline_of deeper scene q) h w why t v }
{}
