//! Laws of the definitions: each function's contract is the law, and its body is empty.
ghost use Rattle.std.specs.Prelude.{◌≡◌, ◌↔◌, ℕ, List, All, Some, None, true};
ghost use Rattle.em_path.specs.Paths.{IsComponent, IsPath, is_component, is_path, child_text, parent_text, last_of};
ghost use Rattle.em_path.specs.Reading.{name_fault_of, resolve, resolved_text};

/// The tests tell components and the texts of paths.
pub fn law_tests()
    ensures component { (name : List ℕ) → (is_component name ≡ true) ↔ IsComponent name }
    ensures path { (text : List ℕ) → (is_path text ≡ true) ↔ IsPath text }
{}

/// A name resolves to components, and the text of a path to itself, against every directory.
pub fn law_resolved()
    ensures components { (cwd name : List ℕ) → IsPath cwd → name_fault_of name ≡ None
        → All IsComponent (resolve cwd name) }
    ensures itself { (cwd text : List ℕ) → IsPath text → resolved_text cwd text ≡ text }
{}

/// A child's parent and last component are those that it was made of.
pub fn law_child()
    ensures parent { (path name : List ℕ) → IsPath path → IsComponent name
        → parent_text (child_text path name) ≡ Some path }
    ensures last { (path name : List ℕ) → IsPath path → IsComponent name
        → last_of (child_text path name) ≡ Some name }
{}
