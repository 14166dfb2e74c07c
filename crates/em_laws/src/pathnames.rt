//! Pathname expansion: each function's contract is the law, and its body is empty but where it
//! cites another law.
ghost use Rattle.std.specs.Prelude.{◌≡◌, ◌≢◌, ◌↔◌, ◌++◌, ◌∷◌, [], All, Contains, ℕ, List, Ok};
ghost use Rattle.std.specs.List.Sorted.{IsStrictlySortedBy};
ghost use Rattle.std.specs.Ordering.{nat_cmp};
ghost use Rattle.std.specs.Cmp.Lexicographic.{slice_cmp};
ghost use Rattle.em_tree.specs.declared.state.State.{State};
ghost use Rattle.em_view.specs.Actions.{Workspace, snapshot};
ghost use Rattle.em_glob.specs.declared.glyph.Glyph.{Glyph};
ghost use Rattle.em_pathname.specs.Walking.{components, name_below, matching_names};
ghost use Rattle.em_laws.specs.Expanded.{Begins, Leads};
ghost use Rattle.em_laws.specs.Nodes.{HasNoLinks};

/// On a state the names that a pattern gives stand in byte order, once each; each matches component
/// by component what is there, and each such name is given, where no symbolic link is seen.
pub fn law_names()
    ensures order { (s : State) (w : Workspace) (cwd : List ℕ) (gs : List Glyph)
        (out : List (List ℕ)) → (matching_names cwd gs (snapshot s) w).0 ≡ Ok out
        → IsStrictlySortedBy (slice_cmp nat_cmp) out }
    ensures given { (s : State) (w : Workspace) → HasNoLinks s w → (cwd : List ℕ) (gs : List Glyph)
        (out : List (List ℕ)) (end : List ℕ) → (matching_names cwd gs (snapshot s) w).0 ≡ Ok out
        → Contains out end ↔ ((name : List ℕ) × (path : List ℕ) × Begins cwd gs name path
        × Leads s w.changes cwd name path (components gs) end) }
{
    em_glob::laws::law_fits();
}

/// Slashes part components, quoted or not, and no component is empty.
pub fn law_components()
    ensures parted { (front rest : List Glyph) (g : Glyph) → g.byte ≡ 47
        → components (front ++ g ∷ rest) ≡ components front ++ components rest }
    ensures one { (g : Glyph) (gs : List Glyph) → All (λ h. h.byte ≢ 47) (g ∷ gs)
        → components (g ∷ gs) ≡ (g ∷ gs) ∷ [] }
    ensures none { components [] ≡ [] }
{}

/// A name below another stands behind it and a slash; below the root behind a slash, and below the
/// working directory alone.
pub fn law_below()
    ensures here { (n : List ℕ) → name_below [] n ≡ n }
    ensures root { (n : List ℕ) → name_below (47 ∷ []) n ≡ 47 ∷ n }
    ensures other { (name n : List ℕ) → name ≢ [] → name ≢ 47 ∷ []
        → name_below name n ≡ name ++ 47 ∷ n }
{}
