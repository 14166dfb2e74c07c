//! What the file utilities do to the tree that a job sees, on a state where no symbolic link is
//! seen, and what `rm` does with one: each function's contract is the law, and its body is empty.
ghost use Rattle.std.specs.Prelude.{
  ◌≡◌,
  ◌≢◌,
  ◌⊎◌,
  ◌<◌,
  ℕ,
  ◌+◌,
  true,
  false,
  List,
  [],
  ◌∷◌,
  codes,
  Ok,
  Some,
  None,
};
ghost use Rattle.std.specs.FinMap as finite;
ghost use Rattle.std.specs.FinMap.{get, insert};
ghost use Rattle.em_path.specs.Paths.{IsPath, parent_text};
ghost use Rattle.em_path.specs.Reading.{resolved_text};
ghost use Rattle.em_tree.specs.declared.node.Kind.TheVariants as kinds;
ghost use Rattle.em_tree.specs.declared.node.Node.TheVariants as nodes;
ghost use Rattle.em_tree.specs.declared.state.State.{State};
ghost use Rattle.em_tree.specs.Trees.{IsTree, kind_of, stamp_of, content_of};
ghost use Rattle.em_view.specs.declared.done.Done.{Done};
ghost use Rattle.em_view.specs.Actions.{Workspace, snapshot};
ghost use Rattle.em_fileutil.specs.Utilities.{utility};
ghost use Rattle.em_laws.specs.Calls.{next_number, with_stamp};
ghost use Rattle.em_laws.specs.Files.{
  removed,
  copied,
  moved,
  touched,
  unmade,
  made_all,
  AreOld,
  AreWhole,
  IsUnder,
  IsOver,
  target,
  IsCopied,
};
ghost use Rattle.em_laws.specs.Nodes.{tree_seen, HasNoLinks, HasNoLinksAbove, AreAlike};

/// What `rm` has removed without a fault isn't there, whatever it was, and nothing is below it.
/// Whatever faults it has, it changes nothing but what it was to remove and what is below that, and
/// the directory above, which may get a stamp; with links in the tree, too, where no directory
/// above its operand is one.
pub fn law_rm()
    ensures gone { (s : State) (w : Workspace) → HasNoLinks s w
        → (d : Done) (force recursive : _) (n : ℕ)
        (name p : List ℕ) (r : _) → (removed s w d force recursive n name p).0 ≡ Ok r
        → get (tree_seen s (removed s w d force recursive n name p).1) p ≡ None }
    ensures below { (s : State) (w : Workspace) → HasNoLinks s w
        → (d : Done) (force recursive : _) (n : ℕ)
        (name p : List ℕ) (r : _) (k : List ℕ) → AreWhole s w → IsPath p
        → (removed s w d force recursive n name p).0 ≡ Ok r → IsUnder p k
        → get (tree_seen s (removed s w d force recursive n name p).1) k ≡ None }
    ensures others { (s : State) (w : Workspace) (d : Done) (force recursive : _) (n : ℕ)
        (name p k : List ℕ) → HasNoLinksAbove s w p → AreWhole s w → IsPath p → ¬ IsUnder p k
        → parent_text p ≢ Some k
        → get (tree_seen s (removed s w d force recursive n name p).1) k
        ≡ get (tree_seen s w) k }
{}

/// Of a link `rm` removes the link alone, with `-r` too: nothing that it leads to has changed.
pub fn law_rm_links()
    ensures { (s : State) (w : Workspace) (d : Done) (force recursive : _) (n : ℕ)
        (name p text : List ℕ) (stamp : ℕ) (dir : List ℕ) (r : _) → HasNoLinksAbove s w p
        → get (tree_seen s w) p ≡ Some (nodes.Link text stamp) → parent_text p ≡ Some dir
        → (removed s w d force recursive n name p).0 ≡ Ok r
        → tree_seen s (removed s w d force recursive n name p).1
        ≡ insert (finite.remove (tree_seen s w) p) dir (nodes.Dir (next_number w)) }
{}

/// A file that `cp` has copied without a fault has the source's bytes, and the number of the change
/// as its stamp, which its directory gets, too, where the name is new. Nothing else has changed.
pub fn law_cp()
    ensures bytes { (s : State) (w : Workspace) → HasNoLinks s w
        → (d : Done) (from to p q : List ℕ) (r : _)
        → (copied s w d from to p q).0 ≡ Ok r
        → content_of (get (tree_seen s (copied s w d from to p q).1) q)
        ≡ content_of (get (tree_seen s w) p) }
    ensures new { (s : State) (w : Workspace) → HasNoLinks s w
        → (d : Done) (from to p q : List ℕ) (r : _)
        (bytes dir : List ℕ) → (copied s w d from to p q).0 ≡ Ok r
        → content_of (get (tree_seen s w) p) ≡ Some bytes
        → kind_of (get (tree_seen s w) q) ≡ kinds.Absent → parent_text q ≡ Some dir
        → tree_seen s (copied s w d from to p q).1
        ≡ insert (insert (tree_seen s w) q (nodes.File bytes (next_number w))) dir
        (nodes.Dir (next_number w)) }
    ensures over { (s : State) (w : Workspace) → HasNoLinks s w
        → (d : Done) (from to p q : List ℕ) (r : _)
        (bytes : List ℕ) → (copied s w d from to p q).0 ≡ Ok r
        → content_of (get (tree_seen s w) p) ≡ Some bytes
        → kind_of (get (tree_seen s w) q) ≢ kinds.Absent
        → tree_seen s (copied s w d from to p q).1
        ≡ insert (tree_seen s w) q (nodes.File bytes (next_number w)) }
{}

/// A file that `mv` has moved without a fault is at its new place, with its bytes and its stamp,
/// and no longer at the old one. The directory of its new place has the number of the first change,
/// that of its old place the number of the second one, and nothing else has changed.
pub fn law_mv()
    ensures bytes { (s : State) (w : Workspace) → HasNoLinks s w
        → (d : Done) (from to p q : List ℕ) (r : _)
        → IsTree (tree_seen s w) → p ≢ q → (moved s w d from to p q).0 ≡ Ok r
        → content_of (get (tree_seen s (moved s w d from to p q).1) q)
        ≡ content_of (get (tree_seen s w) p) }
    ensures stamp { (s : State) (w : Workspace) → HasNoLinks s w
        → (d : Done) (from to p q : List ℕ) (r : _)
        → IsTree (tree_seen s w) → p ≢ q → (moved s w d from to p q).0 ≡ Ok r
        → stamp_of (get (tree_seen s (moved s w d from to p q).1) q)
        ≡ stamp_of (get (tree_seen s w) p) }
    ensures gone { (s : State) (w : Workspace) → HasNoLinks s w
        → (d : Done) (from to p q : List ℕ) (r : _)
        → IsTree (tree_seen s w) → p ≢ q → (moved s w d from to p q).0 ≡ Ok r
        → get (tree_seen s (moved s w d from to p q).1) p ≡ None }
    ensures tree { (s : State) (w : Workspace) → HasNoLinks s w
        → (d : Done) (from to p q : List ℕ) (r : _)
        (bytes : List ℕ) (stamp : ℕ) (old new : List ℕ) → (moved s w d from to p q).0 ≡ Ok r
        → get (tree_seen s w) p ≡ Some (nodes.File bytes stamp) → parent_text p ≡ Some old
        → parent_text q ≡ Some new → tree_seen s (moved s w d from to p q).1
        ≡ insert (finite.remove (insert (insert (tree_seen s w) q (nodes.File bytes stamp)) new
        (nodes.Dir (next_number w))) p) old (nodes.Dir (next_number w + 1)) }
{}

/// What `touch` has touched without a fault is an empty file where nothing was, whose directory
/// gets the same stamp, and else the same node with the number of the change as its stamp, which is
/// above all stamps. Nothing else changes; with `-c` what is absent stays so.
pub fn law_touch()
    ensures newest { (s : State) (w : Workspace) → HasNoLinks s w
        → (d : Done) (create : _) (name p : List ℕ) (r : _)
        → AreOld s w → (touched s w d create name p).0 ≡ Ok r
        → (create ≡ true) ⊎ (kind_of (get (tree_seen s w) p) ≢ kinds.Absent) → (t : ℕ)
        × (stamp_of (get (tree_seen s (touched s w d create name p).1) p) ≡ Some t)
        × ((q : List ℕ) (n : ℕ) → stamp_of (get (tree_seen s w) q) ≡ Some n → n < t) }
    ensures none { (s : State) (w : Workspace) → HasNoLinks s w
        → (d : Done) (name p : List ℕ) (r : _)
        → (touched s w d false name p).0 ≡ Ok r → kind_of (get (tree_seen s w) p) ≡ kinds.Absent
        → tree_seen s (touched s w d false name p).1 ≡ tree_seen s w }
    ensures new { (s : State) (w : Workspace) → HasNoLinks s w
        → (d : Done) (name p : List ℕ) (r : _) (dir : List ℕ)
        → (touched s w d true name p).0 ≡ Ok r → kind_of (get (tree_seen s w) p) ≡ kinds.Absent
        → parent_text p ≡ Some dir → tree_seen s (touched s w d true name p).1
        ≡ insert (insert (tree_seen s w) p (nodes.File [] (next_number w))) dir
        (nodes.Dir (next_number w)) }
    ensures over { (s : State) (w : Workspace) → HasNoLinks s w
        → (d : Done) (create : _) (name p : List ℕ) (r : _)
        (node : _) → (touched s w d create name p).0 ≡ Ok r → get (tree_seen s w) p ≡ Some node
        → tree_seen s (touched s w d create name p).1
        ≡ insert (tree_seen s w) p (with_stamp (next_number w) node) }
{}

/// What `rmdir` has removed without a fault was a directory that held nothing, and isn't there; the
/// directory above has the number of the change, and nothing else changes.
pub fn law_rmdir()
    ensures empty { (s : State) (w : Workspace) → HasNoLinks s w
        → (d : Done) (name p : List ℕ) (r : _)
        → AreWhole s w → (unmade s w d name p).0 ≡ Ok r
        → (kind_of (get (tree_seen s w) p) ≡ kinds.Dir)
        × ((q : List ℕ) → parent_text q ≡ Some p → get (tree_seen s w) q ≡ None) }
    ensures gone { (s : State) (w : Workspace) → HasNoLinks s w
        → (d : Done) (name p : List ℕ) (r : _)
        → (unmade s w d name p).0 ≡ Ok r → get (tree_seen s (unmade s w d name p).1) p ≡ None }
    ensures tree { (s : State) (w : Workspace) → HasNoLinks s w
        → (d : Done) (name p : List ℕ) (r : _)
        (dir : List ℕ) → (unmade s w d name p).0 ≡ Ok r → parent_text p ≡ Some dir
        → tree_seen s (unmade s w d name p).1
        ≡ insert (finite.remove (tree_seen s w) p) dir (nodes.Dir (next_number w)) }
{}

/// Where the command `cp -r` has had no fault, and its source isn't below the target, all that
/// stood at the source and below it stands at the target and below it, beside what stood only
/// there, with its kind and its bytes, and all else has the kind and the bytes that it had. In a
/// directory the target is what has the source's last name, or, of a source that was named with a
/// `.` at the end, the directory itself.
pub fn law_cp_tree()
    ensures { (s : State) (w : Workspace) → HasNoLinks s w
        → (cwd from to : List ℕ) (d : Done) → AreWhole s w
        → IsPath cwd → (utility (codes "cp" ∷ codes "-r" ∷ codes "--" ∷ from ∷ to ∷ []) cwd
        (snapshot s) w).0 ≡ Ok (Some d) → d.status ≡ 0
        → ¬ IsUnder (target s w cwd from to) (resolved_text cwd from)
        → IsCopied (tree_seen s w) (tree_seen s (utility (codes "cp" ∷ codes "-r" ∷ codes "--"
        ∷ from ∷ to ∷ []) cwd (snapshot s) w).1)
        (resolved_text cwd from) (target s w cwd from to) }
{}

/// Where `mkdir -p` has had no fault, its operand is a directory, and so is each path above it;
/// what was there is still there, and nothing else has come. Whatever faults it has, a node stays
/// as it was, its stamp too, unless it or what stands right in it is a directory on the way that
/// wasn't there.
pub fn law_mkdir_all()
    ensures dirs { (s : State) (w : Workspace) → HasNoLinks s w
        → (d : Done) (name p : List ℕ) (r : _)
        → IsTree (tree_seen s w) → IsPath p → (made_all s w d name p).0 ≡ Ok r
        → (k : List ℕ) → IsOver p k
        → kind_of (get (tree_seen s (made_all s w d name p).1) k) ≡ kinds.Dir }
    ensures kept { (s : State) (w : Workspace) → HasNoLinks s w
        → (d : Done) (name p : List ℕ) (r : _)
        → IsTree (tree_seen s w) → IsPath p → (made_all s w d name p).0 ≡ Ok r
        → (k : List ℕ) → (kind_of (get (tree_seen s w) k) ≢ kinds.Absent) ⊎ (¬ IsOver p k)
        → AreAlike (get (tree_seen s w) k) (get (tree_seen s (made_all s w d name p).1) k) }
    ensures same { (s : State) (w : Workspace) → HasNoLinks s w
        → (d : Done) (name p k : List ℕ) → IsPath p
        → ((q : List ℕ) → IsOver p q → (q ≡ k) ⊎ (parent_text q ≡ Some k)
        → kind_of (get (tree_seen s w) q) ≢ kinds.Absent)
        → get (tree_seen s (made_all s w d name p).1) k ≡ get (tree_seen s w) k }
{}
