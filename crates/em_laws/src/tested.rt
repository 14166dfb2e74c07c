//! `test` and `[`: each function's contract is the law, and its body is empty.
ghost use Rattle.std.specs.Prelude.{
  ◌≡◌,
  ◌≢◌,
  ◌<◌,
  ◌++◌,
  ◌∷◌,
  [],
  ℕ,
  ℤ,
  ◌<ℤ◌,
  List,
  codes,
  Ok,
  Some,
  None,
};
ghost use Rattle.std.specs.FinMap.{get};
ghost use Rattle.em_path.specs.Reading.{read_fault, resolved_text};
ghost use Rattle.em_tree.specs.declared.node.Kind.TheVariants as kinds;
ghost use Rattle.em_tree.specs.declared.state.State.{State};
ghost use Rattle.em_tree.specs.Trees.{kind_of, stamp_of, content_of, link_of};
ghost use Rattle.em_view.specs.declared.done.Done.{Done};
ghost use Rattle.em_view.specs.Actions.{Oracle, Workspace};
ghost use Rattle.em_lineutil.specs.Formats.{number_of};
ghost use Rattle.em_textutil.specs.Expressions.{test_words};
ghost use Rattle.em_textutil.specs.Utilities.{bracketed};
ghost use Rattle.em_laws.specs.Nodes.{tree_seen, HasNoLinks, HasNoLinksAbove};
ghost use Rattle.em_laws.specs.Tested.{
  yes,
  no,
  Leaves,
  Compare,
  Finds,
  opposite_by,
  IsNoComparison,
};

/// A word is true where it isn't empty, and so is `-n`; `-z` where it is. `=` is true of one text
/// twice, `!=` of two different ones, also where one of them looks like an operator.
pub fn law_texts()
    ensures empty { Leaves ([] ∷ []) no × Leaves (codes "-n" ∷ [] ∷ []) no
        × Leaves (codes "-z" ∷ [] ∷ []) yes }
    ensures filled { (b : ℕ) (bs : List ℕ) → Leaves ((b ∷ bs) ∷ []) yes
        × Leaves (codes "-n" ∷ (b ∷ bs) ∷ []) yes × Leaves (codes "-z" ∷ (b ∷ bs) ∷ []) no }
    ensures same { (a : List ℕ) → Leaves (a ∷ codes "=" ∷ a ∷ []) yes
        × Leaves (a ∷ codes "!=" ∷ a ∷ []) no }
    ensures different { (a b : List ℕ) → a ≢ b → Leaves (a ∷ codes "=" ∷ b ∷ []) no
        × Leaves (a ∷ codes "!=" ∷ b ∷ []) yes }
{}

/// Numbers are compared as numbers.
pub fn law_numbers()
    ensures below { (a b : List ℕ) (x y : ℤ) → number_of a ≡ Some x → number_of b ≡ Some y
        → x <ℤ y → Compare a b no yes yes yes no no }
    ensures same { (a b : List ℕ) (x : ℤ) → number_of a ≡ Some x → number_of b ≡ Some x
        → Compare a b yes no no yes no yes }
    ensures above { (a b : List ℕ) (x y : ℤ) → number_of a ≡ Some x → number_of b ≡ Some y
        → y <ℤ x → Compare a b no yes no no yes yes }
{}

/// On a state where no symbolic link is seen `-e` is true of what is there, `-f` of a file, `-d` of
/// a directory, `-s` of a file that isn't empty; `-nt` where both are there and the first has the
/// greater stamp, `-ot` the second. `-h` and `-L` are true of a link, where no directory above the
/// path is one.
pub fn law_files()
    ensures exists { (s : State) (w : Workspace) → HasNoLinks s w
        → (cwd name : List ℕ) → read_fault cwd name ≡ None
        → Finds s w cwd (codes "-e" ∷ name ∷ [])
        (kind_of (get (tree_seen s w) (resolved_text cwd name)) ≢ kinds.Absent) }
    ensures file { (s : State) (w : Workspace) → HasNoLinks s w
        → (cwd name : List ℕ) → read_fault cwd name ≡ None
        → Finds s w cwd (codes "-f" ∷ name ∷ [])
        (kind_of (get (tree_seen s w) (resolved_text cwd name)) ≡ kinds.File) }
    ensures dir { (s : State) (w : Workspace) → HasNoLinks s w
        → (cwd name : List ℕ) → read_fault cwd name ≡ None
        → Finds s w cwd (codes "-d" ∷ name ∷ [])
        (kind_of (get (tree_seen s w) (resolved_text cwd name)) ≡ kinds.Dir) }
    ensures bytes { (s : State) (w : Workspace) → HasNoLinks s w
        → (cwd name : List ℕ) → read_fault cwd name ≡ None
        → Finds s w cwd (codes "-s" ∷ name ∷ []) ((b : ℕ) × (bs : List ℕ)
        × (content_of (get (tree_seen s w) (resolved_text cwd name)) ≡ Some (b ∷ bs))) }
    ensures newer { (s : State) (w : Workspace) → HasNoLinks s w
        → (cwd a b : List ℕ) → read_fault cwd a ≡ None
        → read_fault cwd b ≡ None → Finds s w cwd (a ∷ codes "-nt" ∷ b ∷ []) ((m : ℕ) × (n : ℕ)
        × (stamp_of (get (tree_seen s w) (resolved_text cwd a)) ≡ Some m)
        × (stamp_of (get (tree_seen s w) (resolved_text cwd b)) ≡ Some n) × (n < m)) }
    ensures older { (s : State) (w : Workspace) → HasNoLinks s w
        → (cwd a b : List ℕ) → read_fault cwd a ≡ None
        → read_fault cwd b ≡ None → Finds s w cwd (a ∷ codes "-ot" ∷ b ∷ []) ((m : ℕ) × (n : ℕ)
        × (stamp_of (get (tree_seen s w) (resolved_text cwd a)) ≡ Some m)
        × (stamp_of (get (tree_seen s w) (resolved_text cwd b)) ≡ Some n) × (m < n)) }
    ensures link { (s : State) (w : Workspace) (cwd name : List ℕ) → read_fault cwd name ≡ None
        → HasNoLinksAbove s w (resolved_text cwd name)
        → Finds s w cwd (codes "-h" ∷ name ∷ []) ((text : List ℕ)
        × (link_of (get (tree_seen s w) (resolved_text cwd name)) ≡ Some text))
        × Finds s w cwd (codes "-L" ∷ name ∷ []) ((text : List ℕ)
        × (link_of (get (tree_seen s w) (resolved_text cwd name)) ≡ Some text)) }
{}

/// A `!` turns what the words behind it say, unless it is compared itself.
pub fn law_not()
    ensures { (cwd : List ℕ) (ws : List (List ℕ)) (o : Oracle) (w : Workspace) → ws ≢ []
        → IsNoComparison (codes "!" ∷ ws)
        → test_words cwd (codes "!" ∷ ws) o w
        ≡ (opposite_by (test_words cwd ws o w).0, (test_words cwd ws o w).1) }
{}

/// `[` says what `test` says of the words before a `]`, which is to be the last one.
pub fn law_bracket()
    ensures ended { (cwd : List ℕ) (ws : List (List ℕ)) (o : Oracle) (w : Workspace)
        → bracketed cwd (ws ++ codes "]" ∷ []) o w ≡ test_words cwd ws o w }
    ensures open { (cwd : List ℕ) (ws : List (List ℕ)) (o : Oracle) (w : Workspace)
        → ((front : List (List ℕ)) → ws ≢ front ++ codes "]" ∷ [])
        → (d : Done) × (bracketed cwd ws o w ≡ (Ok d, w)) × (d.status ≡ 2) }
{}
