//! What the calls of a desk do on a state: when they succeed, what they cost, what they tell, and
//! what tree they leave. Each function's contract is the law, and its body is empty.
//!
//! `tree_seen s w` is the tree that a job sees: that of the state s, with what the workspace w has
//! changed so far laid over it. What a change leaves is said by an equation of the whole tree, so
//! nothing else has changed in it. The number of the change is the stamp of the node that it makes,
//! but where `place` is given another one; the directory above gets it where a name has come or
//! gone, and whenever a file is placed. A call that fails changes nothing, but fuel may be gone and
//! questions asked.
//!
//! `HasNoLinks s w` says that the job sees no symbolic link: each path then leads to itself.
ghost use Rattle.std.specs.Prelude.{
  ◌≡◌,
  ◌≢◌,
  ◌≤◌,
  ◌<◌,
  ◌↔◌,
  ℕ,
  ◌+◌,
  ◌-◌,
  List,
  [],
  length,
  map,
  sum,
  slice_get,
  unwrap_or,
  Ok,
  Some,
  None,
};
ghost use Rattle.std.specs.FinMap as finite;
ghost use Rattle.std.specs.FinMap.{get, insert};
ghost use Rattle.em_path.specs.Paths.{parent_text};
ghost use Rattle.em_tree.specs.declared.node.Kind.TheVariants as kinds;
ghost use Rattle.em_tree.specs.declared.node.Node.{Node};
ghost use Rattle.em_tree.specs.declared.node.Node.TheVariants as nodes;
ghost use Rattle.em_tree.specs.declared.state.State.{State};
ghost use Rattle.em_tree.specs.Names.{names_of};
ghost use Rattle.em_tree.specs.Trees.{IsTree, base_of, kind_of, stamp_of, content_of, link_of};
ghost use Rattle.em_view.specs.Actions.{Workspace, snapshot, spend};
ghost use Rattle.em_view.specs.Rows.{
  change_number,
  kind_at,
  stamp_at,
  content,
  names,
  outcome,
  put,
  place,
  make_dir,
  link_at,
  make_link,
  remove,
  touch,
};
ghost use Rattle.em_laws.specs.Calls.{
  next_number,
  HasFuel,
  IsPaid,
  IsAsked,
  IsCounted,
  MayPut,
  MayMake,
  MayRemove,
  MayTouch,
  with_stamp,
};
ghost use Rattle.em_laws.specs.Files.{AreOld, AreWhole};
ghost use Rattle.em_laws.specs.Nodes.{tree_seen, HasNoLinks, HasNoLinksAbove};

/// A file is put exactly where no directory is and a directory is right above, of at most 16 MiB,
/// while there is fuel. It then has the number of the change, and its directory gets it where the
/// name is new.
pub fn law_put()
    ensures ok { (s : State) (w : Workspace) → HasNoLinks s w → (p bytes : List ℕ)
        → ((put p bytes (snapshot s) w).0 ≡ Ok tt)
        ↔ (MayPut (tree_seen s w) p (length bytes) × HasFuel (length bytes) w) }
    ensures new { (s : State) (w : Workspace) → HasNoLinks s w → (p bytes dir : List ℕ)
        → (put p bytes (snapshot s) w).0 ≡ Ok tt → kind_of (get (tree_seen s w) p) ≡ kinds.Absent
        → parent_text p ≡ Some dir → tree_seen s (put p bytes (snapshot s) w).1
        ≡ insert (insert (tree_seen s w) p (nodes.File bytes (next_number w))) dir
        (nodes.Dir (next_number w)) }
    ensures over { (s : State) (w : Workspace) → HasNoLinks s w → (p bytes : List ℕ)
        → (put p bytes (snapshot s) w).0 ≡ Ok tt → kind_of (get (tree_seen s w) p) ≢ kinds.Absent
        → tree_seen s (put p bytes (snapshot s) w).1
        ≡ insert (tree_seen s w) p (nodes.File bytes (next_number w)) }
    ensures kept { (s : State) (w : Workspace) (p bytes : List ℕ)
        → (put p bytes (snapshot s) w).0 ≢ Ok tt → IsAsked w (put p bytes (snapshot s) w).1 }
    ensures cost { (s : State) (w : Workspace) → HasNoLinks s w → (p bytes : List ℕ)
        → (put p bytes (snapshot s) w).0 ≡ Ok tt
        → IsPaid (length bytes) w (put p bytes (snapshot s) w).1
        × IsCounted w (put p bytes (snapshot s) w).1 }
{}

/// A file is placed where it may be put. It has the stamp that was given, and its directory always
/// gets the number of the change.
pub fn law_place()
    ensures ok { (s : State) (w : Workspace) → HasNoLinks s w → (p bytes : List ℕ) (stamp : ℕ)
        → ((place p bytes stamp (snapshot s) w).0 ≡ Ok tt)
        ↔ (MayPut (tree_seen s w) p (length bytes) × HasFuel (length bytes) w) }
    ensures tree { (s : State) (w : Workspace) → HasNoLinks s w
        → (p bytes : List ℕ) (stamp : ℕ) (dir : List ℕ)
        → (place p bytes stamp (snapshot s) w).0 ≡ Ok tt → parent_text p ≡ Some dir
        → tree_seen s (place p bytes stamp (snapshot s) w).1
        ≡ insert (insert (tree_seen s w) p (nodes.File bytes stamp)) dir
        (nodes.Dir (next_number w)) }
    ensures kept { (s : State) (w : Workspace) (p bytes : List ℕ) (stamp : ℕ)
        → (place p bytes stamp (snapshot s) w).0 ≢ Ok tt
        → IsAsked w (place p bytes stamp (snapshot s) w).1 }
    ensures cost { (s : State) (w : Workspace) → HasNoLinks s w → (p bytes : List ℕ) (stamp : ℕ)
        → (place p bytes stamp (snapshot s) w).0 ≡ Ok tt
        → IsPaid (length bytes) w (place p bytes stamp (snapshot s) w).1
        × IsCounted w (place p bytes stamp (snapshot s) w).1 }
{}

/// A directory is made exactly where nothing is and a directory is right above, while there is
/// fuel. Both then have the number of the change.
pub fn law_make()
    ensures ok { (s : State) (w : Workspace) → HasNoLinks s w → (p : List ℕ)
        → ((make_dir p (snapshot s) w).0 ≡ Ok tt) ↔ (MayMake (tree_seen s w) p × HasFuel 0 w) }
    ensures tree { (s : State) (w : Workspace) → HasNoLinks s w → (p dir : List ℕ)
        → (make_dir p (snapshot s) w).0 ≡ Ok tt → parent_text p ≡ Some dir
        → tree_seen s (make_dir p (snapshot s) w).1
        ≡ insert (insert (tree_seen s w) p (nodes.Dir (next_number w))) dir
        (nodes.Dir (next_number w)) }
    ensures kept { (s : State) (w : Workspace) (p : List ℕ)
        → (make_dir p (snapshot s) w).0 ≢ Ok tt → IsAsked w (make_dir p (snapshot s) w).1 }
    ensures cost { (s : State) (w : Workspace) → HasNoLinks s w → (p : List ℕ)
        → (make_dir p (snapshot s) w).0 ≡ Ok tt
        → IsPaid 0 w (make_dir p (snapshot s) w).1
        × IsCounted w (make_dir p (snapshot s) w).1 }
{}

/// What is removed is there, isn't the root, and has nothing right below it; of all such, while
/// there is fuel. Its directory gets the number of the change.
pub fn law_remove()
    ensures ok { (s : State) (w : Workspace) → HasNoLinks s w → (p : List ℕ) → AreWhole s w
        → ((remove p (snapshot s) w).0 ≡ Ok tt) ↔ (MayRemove (tree_seen s w) p × HasFuel 0 w) }
    ensures tree { (s : State) (w : Workspace) → HasNoLinks s w → (p dir : List ℕ)
        → (remove p (snapshot s) w).0 ≡ Ok tt → parent_text p ≡ Some dir
        → tree_seen s (remove p (snapshot s) w).1
        ≡ insert (finite.remove (tree_seen s w) p) dir (nodes.Dir (next_number w)) }
    ensures kept { (s : State) (w : Workspace) (p : List ℕ)
        → (remove p (snapshot s) w).0 ≢ Ok tt → IsAsked w (remove p (snapshot s) w).1 }
    ensures cost { (s : State) (w : Workspace) → HasNoLinks s w → (p : List ℕ)
        → (remove p (snapshot s) w).0 ≡ Ok tt
        → IsPaid 0 w (remove p (snapshot s) w).1 × IsCounted w (remove p (snapshot s) w).1 }
{}

/// What is there can be touched, while there is fuel. It gets the number of the change, and nothing
/// else does.
pub fn law_touch()
    ensures ok { (s : State) (w : Workspace) → HasNoLinks s w → (p : List ℕ)
        → ((touch p (snapshot s) w).0 ≡ Ok tt) ↔ (MayTouch (tree_seen s w) p × HasFuel 0 w) }
    ensures tree { (s : State) (w : Workspace) → HasNoLinks s w → (p : List ℕ) (node : Node)
        → (touch p (snapshot s) w).0 ≡ Ok tt → get (tree_seen s w) p ≡ Some node
        → tree_seen s (touch p (snapshot s) w).1
        ≡ insert (tree_seen s w) p (with_stamp (next_number w) node) }
    ensures kept { (s : State) (w : Workspace) (p : List ℕ)
        → (touch p (snapshot s) w).0 ≢ Ok tt → IsAsked w (touch p (snapshot s) w).1 }
    ensures cost { (s : State) (w : Workspace) → HasNoLinks s w → (p : List ℕ)
        → (touch p (snapshot s) w).0 ≡ Ok tt
        → IsPaid 0 w (touch p (snapshot s) w).1 × IsCounted w (touch p (snapshot s) w).1 }
{}

/// What is told is what the tree says that the job sees, while there is fuel; and what is told was
/// paid, and changed nothing.
pub fn law_tell()
    ensures kind { (s : State) (w : Workspace) → HasNoLinks s w → (p : List ℕ) → HasFuel 0 w
        → (kind_at p (snapshot s) w).0 ≡ Ok (kind_of (get (tree_seen s w) p)) }
    ensures kind_cost { (s : State) (w : Workspace) → HasNoLinks s w → (p : List ℕ) (k : _)
        → (kind_at p (snapshot s) w).0 ≡ Ok k
        → HasFuel 0 w × IsPaid 0 w (kind_at p (snapshot s) w).1
        × IsAsked w (kind_at p (snapshot s) w).1 }
    ensures stamp { (s : State) (w : Workspace) → HasNoLinks s w → (p : List ℕ) → HasFuel 0 w
        → (stamp_at p (snapshot s) w).0 ≡ Ok (stamp_of (get (tree_seen s w) p)) }
    ensures stamp_cost { (s : State) (w : Workspace) → HasNoLinks s w → (p : List ℕ) (k : _)
        → (stamp_at p (snapshot s) w).0 ≡ Ok k
        → HasFuel 0 w × IsPaid 0 w (stamp_at p (snapshot s) w).1
        × IsAsked w (stamp_at p (snapshot s) w).1 }
    ensures content { (s : State) (w : Workspace) → HasNoLinks s w → (p : List ℕ)
        → HasFuel (length (unwrap_or (content_of (get (tree_seen s w) p)) [])) w
        → (content p (snapshot s) w).0 ≡ Ok (content_of (get (tree_seen s w) p)) }
    ensures content_cost { (s : State) (w : Workspace) → HasNoLinks s w → (p : List ℕ) (body : _)
        → (content p (snapshot s) w).0 ≡ Ok body → HasFuel (length (unwrap_or body [])) w
        × IsPaid (length (unwrap_or body [])) w (content p (snapshot s) w).1
        × IsAsked w (content p (snapshot s) w).1 }
    ensures names { (s : State) (w : Workspace) → HasNoLinks s w → (p : List ℕ) → AreWhole s w
        → HasFuel (sum (map length (unwrap_or (names_of (tree_seen s w) p) []))) w
        → (names p (snapshot s) w).0 ≡ Ok (names_of (tree_seen s w) p) }
    ensures names_cost { (s : State) (w : Workspace) → HasNoLinks s w → (p : List ℕ) (ns : _)
        → (names p (snapshot s) w).0 ≡ Ok ns → HasFuel (sum (map length (unwrap_or ns []))) w
        × IsPaid (sum (map length (unwrap_or ns []))) w (names p (snapshot s) w).1
        × IsAsked w (names p (snapshot s) w).1 }
    ensures outcome { (s : State) (w : Workspace) (j : ℕ) → HasFuel 0 w
        → (outcome j (snapshot s) w).0 ≡ Ok (slice_get s.outcomes j) }
    ensures outcome_cost { (s : State) (w : Workspace) (j : ℕ) (k : _)
        → (outcome j (snapshot s) w).0 ≡ Ok k
        → HasFuel 0 w × IsPaid 0 w (outcome j (snapshot s) w).1
        × IsAsked w (outcome j (snapshot s) w).1 }
{}

/// Of a path above which no directory is a link, it is told what link stands there, and none where
/// there is no link. A link is made there where a directory may be made, with the number of the
/// change, which the directory above gets, too. No directory above is a link where none is seen,
/// and, in a tree, above all that is there.
pub fn law_link()
    ensures text { (s : State) (w : Workspace) (p : List ℕ) → HasNoLinksAbove s w p
        → HasFuel (length (unwrap_or (link_of (get (tree_seen s w) p)) [])) w
        → (link_at p (snapshot s) w).0 ≡ Ok (link_of (get (tree_seen s w) p)) }
    ensures text_cost { (s : State) (w : Workspace) (p : List ℕ) → HasNoLinksAbove s w p
        → (text : _) → (link_at p (snapshot s) w).0 ≡ Ok text
        → HasFuel (length (unwrap_or text [])) w
        × IsPaid (length (unwrap_or text [])) w (link_at p (snapshot s) w).1
        × IsAsked w (link_at p (snapshot s) w).1 }
    ensures ok { (s : State) (w : Workspace) (p text : List ℕ) → HasNoLinksAbove s w p
        → ((make_link p text (snapshot s) w).0 ≡ Ok tt)
        ↔ (MayMake (tree_seen s w) p × HasFuel (length text) w) }
    ensures tree { (s : State) (w : Workspace) (p text dir : List ℕ) → HasNoLinksAbove s w p
        → (make_link p text (snapshot s) w).0 ≡ Ok tt → parent_text p ≡ Some dir
        → tree_seen s (make_link p text (snapshot s) w).1
        ≡ insert (insert (tree_seen s w) p (nodes.Link text (next_number w))) dir
        (nodes.Dir (next_number w)) }
    ensures kept { (s : State) (w : Workspace) (p text : List ℕ)
        → (make_link p text (snapshot s) w).0 ≢ Ok tt
        → IsAsked w (make_link p text (snapshot s) w).1 }
    ensures cost { (s : State) (w : Workspace) (p text : List ℕ) → HasNoLinksAbove s w p
        → (make_link p text (snapshot s) w).0 ≡ Ok tt
        → IsPaid (length text) w (make_link p text (snapshot s) w).1
        × IsCounted w (make_link p text (snapshot s) w).1 }
    ensures none { (s : State) (w : Workspace) → HasNoLinks s w → (p : List ℕ)
        → HasNoLinksAbove s w p × (link_of (get (tree_seen s w) p) ≡ None) }
    ensures there { (s : State) (w : Workspace) (p : List ℕ) → IsTree (tree_seen s w)
        → kind_of (get (tree_seen s w) p) ≢ kinds.Absent → HasNoLinksAbove s w p }
{}

/// Fuel is spent exactly where there is so much, and nothing else changes.
pub fn law_spend()
    ensures ok { (s : State) (w : Workspace) (n : ℕ)
        → ((spend n (snapshot s) w).0 ≡ Ok tt) ↔ (n ≤ w.fuel) }
    ensures left { (s : State) (w : Workspace) (n : ℕ) → n ≤ w.fuel
        → (spend n (snapshot s) w).1 ≡ record w { fuel = w.fuel - n } }
{}

/// Each change has a number of its own: the numbers of a job rise by one from change to change,
/// those of a later job are above those of an earlier one, and no two changes of a build have the
/// same. A job has no more changes than units of fuel, which are fewer than 1048576.
pub fn law_numbers()
    ensures rises { (w v : Workspace) → IsCounted w v → next_number v ≡ next_number w + 1 }
    ensures later { (base j i k l : ℕ) → j < i → k ≤ 1048576 → 1 ≤ l
        → change_number base j k < change_number base i l }
    ensures one { (base j i k l : ℕ) → 1 ≤ k → k ≤ 1048576 → 1 ≤ l → l ≤ 1048576
        → change_number base j k ≡ change_number base i l → (j ≡ i) × (k ≡ l) }
    ensures room { (n : ℕ) (w v : Workspace) → IsPaid n w v → IsCounted w v
        → w.count + w.fuel ≤ w.given → v.count + v.fuel ≤ v.given }
{}

/// No stamp is above the number of the last change: this is so for the first job of a build, whose
/// base is the greatest stamp of the tree; each call keeps it, if nothing is placed with a newer
/// stamp; and it is so for each later job. So the number of a change is above all stamps that were
/// there.
pub fn law_newest()
    ensures first { (s : State) (w : Workspace) → w.base ≡ base_of s.tree
        → w.changes ≡ finite.empty → AreOld s w }
    ensures put { (s : State) (w : Workspace) → AreOld s w → (p bytes : List ℕ)
        → (put p bytes (snapshot s) w).0 ≡ Ok tt → AreOld s (put p bytes (snapshot s) w).1 }
    ensures place { (s : State) (w : Workspace) → AreOld s w → (p bytes : List ℕ) (stamp : ℕ)
        → stamp ≤ next_number w → (place p bytes stamp (snapshot s) w).0 ≡ Ok tt
        → AreOld s (place p bytes stamp (snapshot s) w).1 }
    ensures make { (s : State) (w : Workspace) → AreOld s w → (p : List ℕ)
        → (make_dir p (snapshot s) w).0 ≡ Ok tt → AreOld s (make_dir p (snapshot s) w).1 }
    ensures remove { (s : State) (w : Workspace) → AreOld s w → (p : List ℕ)
        → (remove p (snapshot s) w).0 ≡ Ok tt → AreOld s (remove p (snapshot s) w).1 }
    ensures touch { (s : State) (w : Workspace) → AreOld s w → (p : List ℕ)
        → (touch p (snapshot s) w).0 ≡ Ok tt → AreOld s (touch p (snapshot s) w).1 }
    ensures above { (s : State) (w : Workspace) → AreOld s w → (q : List ℕ) (n : ℕ)
        → stamp_of (get (tree_seen s w) q) ≡ Some n → n < next_number w }
    ensures later { (s : State) (w : Workspace) → AreOld s w → (u : State) (v : Workspace)
        → w.count ≤ 1048576 → v.base ≡ w.base → w.job < v.job → tree_seen u v ≡ tree_seen s w
        → AreOld u v }
{}
