//! Laws of the definitions: each function's contract is the law, and its body is empty.
ghost use Rattle.std.specs.Prelude.{◌≡◌, ◌++◌, [], ℕ, true, false, List, codes, drop};
ghost use Rattle.std.specs.List.{list_any};
ghost use Rattle.em_namefn.specs.Names.{is_slash, is_dot, file_of, dir_of, suffix_of, base_of};

/// The directory and the file of a name joined are the name; a name without a slash is its own
/// file, in `./`.
pub fn law_dir()
    ensures joined { (w : List ℕ) → list_any is_slash w ≡ true → dir_of w ++ file_of w ≡ w }
    ensures plain { (w : List ℕ) → list_any is_slash w ≡ false → file_of w ≡ w }
    ensures here { (w : List ℕ) → list_any is_slash w ≡ false → dir_of w ≡ codes "./" }
    ensures file { (w : List ℕ) → list_any is_slash (file_of w) ≡ false }
{}

/// The name in front of the suffix and the suffix joined are the name. A suffix has a dot at its
/// begin alone and no slash, and only a file without a dot has none.
pub fn law_suffix()
    ensures joined { (w : List ℕ) → base_of w ++ suffix_of w ≡ w }
    ensures dot { (w : List ℕ) → list_any is_dot (drop 1 (suffix_of w)) ≡ false }
    ensures slash { (w : List ℕ) → list_any is_slash (suffix_of w) ≡ false }
    ensures none { (w : List ℕ) → suffix_of w ≡ [] → list_any is_dot (file_of w) ≡ false }
{}
