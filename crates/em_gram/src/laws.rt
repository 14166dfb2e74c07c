//! Laws of the definitions: each function's contract is the law, and its body is empty.
ghost use Rattle.std.specs.Prelude.{◌≡◌, ◌≢◌, ℕ, List};
ghost use Rattle.em_grammar.specs.Gives.{Spells};
ghost use Rattle.em_token.specs.Shell.{shell};
ghost use Rattle.em_gram.specs.Patterns.{word_spelling};
ghost use Rattle.em_gram.specs.Line.{IsScript, IsFault};
ghost use Rattle.em_gram.specs.Same.{script_shape};
ghost use Rattle.em_gram.specs.declared.no.GramNo.{GramNo};
ghost use Rattle.em_gram.specs.declared.no.GramNo.TheVariants as GramNo;
ghost use Rattle.em_lexeme.specs.declared.lexeme.Lexed.{Lexed};
ghost use Rattle.em_lexeme.specs.declared.lexeme.What.{What};
ghost use Rattle.em_syntax.specs.Nesting.{IsClosed};
ghost use Rattle.em_syntax.specs.declared.tree.Script.{Script};
ghost use Rattle.em_syntax.specs.declared.tree.Word.{Word, out-Word};

/// What was lexed has one tree: two are the same, wherever they lie in memory.
pub fn law_only_tree()
    ensures { (lexed : Lexed) (s t : Script) → IsScript lexed s → IsScript lexed t
        → script_shape s ≡ script_shape t }
{}

/// It has one fault.
pub fn law_only_fault()
    ensures { (lexed : Lexed) (len : ℕ) (e f : GramNo)
        → IsFault lexed len e → IsFault lexed len f
        → e ≢ GramNo.NoMemory → f ≢ GramNo.NoMemory → e ≡ f }
{}

/// It hasn't both a tree and a fault.
pub fn law_tree_or_fault()
    ensures { (lexed : Lexed) (len : ℕ) (s : Script) (e : GramNo)
        → IsScript lexed s → IsFault lexed len e → e ≡ GramNo.NoMemory }
{}

/// The pieces of a word that is spelled nest: each end of an argument belongs to a begin before it,
/// and none is left open.
pub fn law_words_nest()
    ensures { (word : Word) (whats rest : List What)
        → Spells shell (word_spelling word).pattern whats rest
        → IsClosed (out-Word word).pieces.items }
{}
