//! The utilities `basename` and `dirname`: each function's contract is the law, and its body is
//! empty.
ghost use Rattle.std.specs.Prelude.{◌≡◌, ◌≢◌, ◌++◌, ◌∷◌, [], ℕ, List, replicate};
ghost use Rattle.em_lineutil.specs.Names.{base_name, without_suffix, dir_name};
ghost use Rattle.em_laws.specs.References.{HasNo};
ghost use Rattle.em_laws.specs.Expansions.{EndsOtherwise};

/// `basename` gives the last part of a name, without the slashes at its end; of slashes alone one,
/// of the empty name nothing. A suffix is taken off where something is left.
pub fn law_basename()
    ensures below { (front name : List ℕ) (n : ℕ) → name ≢ [] → HasNo 47 name
        → base_name ((front ++ 47 ∷ name) ++ replicate n 47) ≡ name }
    ensures plain { (name : List ℕ) (n : ℕ) → name ≢ [] → HasNo 47 name
        → base_name (name ++ replicate n 47) ≡ name }
    ensures root { (n : ℕ) → base_name (47 ∷ replicate n 47) ≡ 47 ∷ [] }
    ensures empty { base_name [] ≡ [] }
    ensures suffix { (name suffix : List ℕ) → name ≢ []
        → without_suffix suffix (name ++ suffix) ≡ name }
    ensures whole { (suffix : List ℕ) → without_suffix suffix suffix ≡ suffix }
    ensures other { (name suffix : List ℕ) → ((front : List ℕ) → name ≢ front ++ suffix)
        → without_suffix suffix name ≡ name }
{}

/// `dirname` gives what stands before the last part, without the slashes at its end: `.` where no
/// slash does, and `/` where nothing else does.
pub fn law_dirname()
    ensures below { (front name : List ℕ) (m n : ℕ) → front ≢ [] → EndsOtherwise 47 front
        → name ≢ [] → HasNo 47 name
        → dir_name (((front ++ 47 ∷ replicate m 47) ++ name) ++ replicate n 47) ≡ front }
    ensures top { (name : List ℕ) (m n : ℕ) → name ≢ [] → HasNo 47 name
        → dir_name (((47 ∷ replicate m 47) ++ name) ++ replicate n 47) ≡ 47 ∷ [] }
    ensures plain { (name : List ℕ) (n : ℕ) → name ≢ [] → HasNo 47 name
        → dir_name (name ++ replicate n 47) ≡ 46 ∷ [] }
    ensures root { (n : ℕ) → dir_name (47 ∷ replicate n 47) ≡ 47 ∷ [] }
    ensures empty { dir_name [] ≡ 46 ∷ [] }
{}
