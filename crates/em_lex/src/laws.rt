//! Laws of the definitions: each function's contract is the law, and its body is empty.
ghost use Rattle.std.specs.Prelude.{◌≡◌, ◌≢◌, ◌≤◌, ◌∷◌, ◌++◌, [], ℕ, List, length, All, IfOk, IfSome, true, false};
ghost use Rattle.em_lex.specs.Alone.{quoted_word, bare_word};
ghost use Rattle.em_lexeme.specs.Frames.{is_plain};
ghost use Rattle.em_lexeme.specs.Faults.{place_of};
ghost use Rattle.em_lex.specs.Lexing.{lexed};
ghost use Rattle.em_lex.specs.Standing.{InOrder, Stands, StandsUpTo};
ghost use Rattle.em_lex.specs.Tokens.{tokens_of};
ghost use Rattle.em_lexeme.specs.Words.{reserved, whole_start, is_assigning};

/// What stands between single quotes is one word of these bytes, whatever they are.
pub fn law_quoted()
    ensures { (bytes : List ℕ) → All (λ b. b ≢ 39) bytes
        → lexed (39 ∷ bytes ++ 39 ∷ []) ≡ quoted_word bytes }
{}

/// A line of bytes that mean nothing to the shell is one word of them; an assignment has two
/// pieces.
pub fn law_bare()
    ensures { (b : ℕ) (bytes : List ℕ) → b ≢ 35 → All (λ c. is_plain c ≡ true) (b ∷ bytes)
        → is_assigning (whole_start (reserved (b ∷ bytes)) (b ∷ bytes)) ≡ false
        → lexed (b ∷ bytes)
        ≡ bare_word (whole_start (reserved (b ∷ bytes)) (b ∷ bytes)) (b ∷ bytes) }
{}

/// Where a line has a fault, every lexeme ends at its place or before; only the first one of a
/// redirection that is refused begins there.
pub fn law_cut()
    ensures { (line : List ℕ) → IfSome (lexed line).stop
        (λ fault. All (StandsUpTo (place_of fault)) (lexed line).items) }
{}

/// Where a line has a fault, it stands within the line, and what isn't closed at an opener.
pub fn law_stands()
    ensures { (line : List ℕ) → IfSome (lexed line).stop (Stands line) }
{}

/// The tokens of a line stand one behind the other within it, each of one byte at least.
pub fn law_order()
    ensures { (line : List ℕ) → IfOk (tokens_of line) (λ ts. InOrder 0 ts (length line)) }
{}
