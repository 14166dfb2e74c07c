//! Laws of the definitions: each function's contract is the law, and its body is empty.
ghost use Rattle.std.specs.Prelude.{◌≡◌, ℕ, Bool, List, Ok};
ghost use Rattle.em_tree.specs.declared.state.State.{State};
ghost use Rattle.em_tree.specs.declared.way.Way.TheVariants.{To};
ghost use Rattle.em_tree.specs.Trees.{Changes, laid_over};
ghost use Rattle.em_tree.specs.Resolving.{Links, led, links_in};
ghost use Rattle.em_view.specs.Actions.{Oracle, Workspace, snapshot};
ghost use Rattle.em_view.specs.Walking.{resolve};
ghost use Rattle.em_view.specs.Bare.{TellsNone, Stays, TellsLinks, under, Finds, IsStill};

/// Where no link is told of, and own changes have none, a path leads to itself; else the walk over
/// a desk leads where the links under own changes do. On a state these are the links of the tree
/// that its own tree becomes by the changes.
pub fn law_resolved()
    ensures bare { (o : Oracle) → TellsNone o → (last : Bool) (p : List ℕ)
        → Stays o (resolve last p) (record { way = To p; followed = 0 }) }
    ensures leads { (o : Oracle) (ls : Links) (d : Changes) → TellsLinks o ls
        → (last : Bool) (p : List ℕ) → Finds o d (resolve last p) (led (under d ls) last p) }
    ensures snapshot { (s : State) (w : Workspace) (last : Bool) (p : List ℕ)
        → ((resolve last p (snapshot s) w).0
        ≡ Ok (led (links_in (laid_over w.changes s.tree)) last p))
        × IsStill w (resolve last p (snapshot s) w).1 }
{}
