//! Parts of file names: each function's contract is the law, and its body is empty.
ghost use Rattle.std.specs.Prelude.{◌≡◌, ◌++◌, ◌∷◌, [], ℕ, List, codes, map, Some};
ghost use Rattle.em_wordlist.specs.Words.{words_of, joined};
ghost use Rattle.em_namefn.specs.Names.{file_of, dir_of, suffix_of, base_of, pairs};
ghost use Rattle.em_namefn.specs.Functions.{name_function};
ghost use Rattle.em_laws.specs.References.{HasNo};

/// `notdir` is what stands behind the last slash, and `dir` what stands up to it; a name without
/// one is in `./`.
pub fn law_slash()
    ensures file { (front file : List ℕ) → HasNo 47 file → file_of (front ++ 47 ∷ file) ≡ file }
    ensures dir { (front file : List ℕ) → HasNo 47 file
        → dir_of (front ++ 47 ∷ file) ≡ front ++ 47 ∷ [] }
    ensures plain { (file : List ℕ) → HasNo 47 file → file_of file ≡ file }
    ensures here { (file : List ℕ) → HasNo 47 file → dir_of file ≡ codes "./" }
{}

/// `suffix` is what stands from the last dot on, where no slash stands behind it, and `basename`
/// what stands in front of that; else there is no suffix, and `basename` is the name.
pub fn law_dot()
    ensures suffix { (front end : List ℕ) → HasNo 46 end → HasNo 47 end
        → suffix_of (front ++ 46 ∷ end) ≡ 46 ∷ end }
    ensures base { (front end : List ℕ) → HasNo 46 end → HasNo 47 end
        → base_of (front ++ 46 ∷ end) ≡ front }
    ensures none { (front file : List ℕ) → HasNo 46 file → HasNo 47 file
        → suffix_of (front ++ 47 ∷ file) ≡ [] }
    ensures whole { (front file : List ℕ) → HasNo 46 file → HasNo 47 file
        → base_of (front ++ 47 ∷ file) ≡ front ++ 47 ∷ file }
    ensures plain_none { (file : List ℕ) → HasNo 46 file → HasNo 47 file → suffix_of file ≡ [] }
    ensures plain_whole { (file : List ℕ) → HasNo 46 file → HasNo 47 file → base_of file ≡ file }
{}

/// The functions by their names, word by word.
pub fn law_functions()
    ensures dir { (x : List ℕ)
        → name_function (codes "dir") (x ∷ []) ≡ Some (joined (map dir_of (words_of x))) }
    ensures notdir { (x : List ℕ)
        → name_function (codes "notdir") (x ∷ []) ≡ Some (joined (map file_of (words_of x))) }
    ensures basename { (x : List ℕ)
        → name_function (codes "basename") (x ∷ []) ≡ Some (joined (map base_of (words_of x))) }
    ensures addsuffix { (s x : List ℕ)
        → name_function (codes "addsuffix") (s ∷ x ∷ [])
        ≡ Some (joined (map (λ w. w ++ s) (words_of x))) }
    ensures addprefix { (p x : List ℕ)
        → name_function (codes "addprefix") (p ∷ x ∷ [])
        ≡ Some (joined (map (λ w. p ++ w) (words_of x))) }
    ensures join { (x y : List ℕ)
        → name_function (codes "join") (x ∷ y ∷ [])
        ≡ Some (joined (pairs (words_of x) (words_of y))) }
{}
