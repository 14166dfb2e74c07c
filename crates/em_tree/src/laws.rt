//! Laws of the definitions: each function's contract is the law, and its body is empty.
ghost use Rattle.std.specs.Prelude.{◌≡◌, ◌≤◌, ℕ, Bool, List, Option, None, Some, IsSome};
ghost use Rattle.std.specs.FinMap as map;
ghost use Rattle.em_path.specs.Paths.{IsPath, parent_text};
ghost use Rattle.em_tree.specs.declared.node.Kind.TheVariants as kind;
ghost use Rattle.em_tree.specs.declared.node.Node.{Node};
ghost use Rattle.em_tree.specs.declared.state.State.{State};
ghost use Rattle.em_tree.specs.declared.outcome.Outcome.{Outcome};
ghost use Rattle.em_tree.specs.declared.question.Question.{Question};
ghost use Rattle.em_tree.specs.declared.question.Question.TheVariants as ask;
ghost use Rattle.em_tree.specs.Trees.{Table, Changes, IsTree, kind_of, laid_over};
ghost use Rattle.em_tree.specs.Answers.{answer, answer_on};
ghost use Rattle.em_tree.specs.declared.way.Way.TheVariants.{To};
ghost use Rattle.em_tree.specs.Resolving.{Links, led, way_in};

/// A path that a delta names becomes what it says.
pub fn law_named_paths()
    ensures { (d : Changes) (t : Table) (p : List ℕ) (c : Option Node) → map.get d p ≡ Some c
        → map.get (laid_over d t) p ≡ c }
{}

/// Laying a delta changes no other path.
pub fn law_other_paths()
    ensures { (d : Changes) (t : Table) (p : List ℕ) → map.get d p ≡ None
        → map.get (laid_over d t) p ≡ map.get t p }
{}

/// A delta laid twice is as once.
pub fn law_laid_twice()
    ensures { (d : Changes) (t : Table) → laid_over d (laid_over d t) ≡ laid_over d t }
{}

/// What is said of one path depends on that path alone.
pub fn law_one_path()
    ensures kind { (s t : Table) (a b : ℕ → Option Outcome) (p : List ℕ) → map.get s p ≡ map.get t p
        → answer_on s a (ask.Kind p) ≡ answer_on t b (ask.Kind p) }
    ensures stamp { (s t : Table) (a b : ℕ → Option Outcome) (p : List ℕ)
        → map.get s p ≡ map.get t p
        → answer_on s a (ask.Stamp p) ≡ answer_on t b (ask.Stamp p) }
    ensures content { (s t : Table) (a b : ℕ → Option Outcome) (p : List ℕ)
        → map.get s p ≡ map.get t p
        → answer_on s a (ask.Content p) ≡ answer_on t b (ask.Content p) }
    ensures link { (s t : Table) (a b : ℕ → Option Outcome) (p : List ℕ) → map.get s p ≡ map.get t p
        → answer_on s a (ask.Link p) ≡ answer_on t b (ask.Link p) }
    ensures outcome { (s t : Table) (a b : ℕ → Option Outcome) (k : ℕ) → a k ≡ b k
        → answer_on s a (ask.Outcome k) ≡ answer_on t b (ask.Outcome k) }
{}

/// The names of a directory depend on its kind and on which children there are.
pub fn law_children()
    ensures { (s t : Table) (a b : ℕ → Option Outcome) (p : List ℕ)
        → kind_of (map.get s p) ≡ kind_of (map.get t p)
        → ((k : List ℕ) → parent_text k ≡ Some p → map.contains_key s k ≡ map.contains_key t k)
        → answer_on s a (ask.Names p) ≡ answer_on t b (ask.Names p) }
{}

/// States that answer all questions alike are equal.
pub fn law_all_answers()
    ensures { (s t : State) → ((q : Question) → answer s q ≡ answer t q) → s ≡ t }
{}

/// A tree stays a tree where a node is put into a directory; a directory that is there must stay
/// one.
pub fn law_put()
    ensures { (t : Table) (p above : List ℕ) (n : Node) → IsTree t → IsPath p
        → parent_text p ≡ Some above → kind_of (map.get t above) ≡ kind.Dir
        → (kind_of (map.get t p) ≡ kind.Dir → kind_of (Some n) ≡ kind.Dir)
        → IsTree (map.insert t p n) }
{}

/// A tree stays a tree where the root's node is replaced by a directory.
pub fn law_put_root()
    ensures { (t : Table) (p : List ℕ) (n : Node) → IsTree t → parent_text p ≡ None
        → IsSome (map.get t p) → kind_of (Some n) ≡ kind.Dir → IsTree (map.insert t p n) }
{}

/// A tree stays a tree where a path goes that isn't the root and under which nothing stands.
pub fn law_remove()
    ensures { (t : Table) (p above : List ℕ) → IsTree t → parent_text p ≡ Some above
        → ((k : List ℕ) → parent_text k ≡ Some p → map.get t k ≡ None) → IsTree (map.remove t p) }
{}

/// A table without links leads each path to itself; at most 40 links are followed.
pub fn law_led()
    ensures itself { (ls : Links) → ((q : List ℕ) → ls q ≡ None) → (last : Bool) (p : List ℕ)
        → led ls last p ≡ record { way = To p; followed = 0 } }
    ensures few { (ls : Links) (last : Bool) (p : List ℕ) → (led ls last p).followed ≤ 40 }
{}

/// A path behind the links leads to itself.
pub fn law_way_twice()
    ensures { (t : Table) (p q : List ℕ) → way_in t p ≡ Some q → way_in t q ≡ Some q }
{}
