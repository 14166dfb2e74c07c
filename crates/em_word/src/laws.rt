//! Laws of the definitions: each function's contract is the law; the bodies call the laws below.
ghost use Rattle.std.specs.Prelude.{◌≡◌, ℕ, true, List, [], ◌∷◌, ◌++◌, None, Some};
ghost use Rattle.em_syntax.specs.Nesting.{IsClosed};
ghost use Rattle.em_syntax.specs.Pieces.{what_in};
ghost use Rattle.em_syntax.specs.declared.tree.Command.TheOpen.{WordWhat-F};
ghost use Rattle.em_syntax.specs.declared.tree.Script.{Script};
ghost use Rattle.em_syntax.specs.declared.tree.Value.{Value};
ghost use Rattle.em_syntax.specs.declared.tree.Word.{Word};
ghost use Rattle.em_syntax.specs.declared.tree.WordPiece.{WordPiece, out-WordPiece};
ghost use Rattle.em_glob.specs.declared.glyph.Glyph.{Glyph};
ghost use Rattle.em_glob.specs.Patterns.{bytes_of};
ghost use Rattle.em_view.specs.Actions.{done};
ghost use Rattle.em_fields.specs.Parts.{marked, joined};
ghost use Rattle.em_fields.specs.declared.part.Part.{Part};
ghost use Rattle.em_word.specs.Talk.{Ends, and_then};
ghost use Rattle.em_word.specs.Values.{output_piece, value_piece};
ghost use Rattle.em_word.specs.Words.{expansion, word_plan};
ghost use Rattle.em_word.specs.declared.shell.Shell.{Shell};
ghost use Rattle.em_word.specs.Literal.{literal_of};
ghost use Rattle.em_word.specs.Turns.{Finished, finish, or_itself, turn};
ghost use Rattle.em_word.specs.declared.turn.Mode.TheVariants as mode;

/// A word that is one quoted text comes to one field, this text, and asks nothing.
pub fn law_quoted()
    ensures { (cwd text : List ℕ)
        → finish mode.Fields cwd (marked true text) ≡ done (Finished (text ∷ [])) }
{
    em_glob::laws::law_quoted();
    em_fields::laws::law_quoted();
}

/// A pattern without a match stays.
pub fn law_unmatched()
    ensures { (field : List Glyph) → or_itself field [] ≡ bytes_of field ∷ [] }
{}

/// What is expanded first in a word that begins with closed pieces is these pieces; then come the
/// others.
pub fn law_in_order()
    ensures { (front rest : List WordPiece) → IsClosed front → (parts : List Part)
        → expansion parts (front ++ rest)
        ≡ and_then (expansion parts front) (λ more. expansion more rest) }
{}

/// A value is expanded with what stands between the begin and the end of its argument, and then
/// comes what follows: the argument is expanded by itself, from nothing, and only where it bears on
/// the value.
pub fn law_argument()
    ensures { (begin end : WordPiece) (value : Value) (inside rest : List WordPiece)
        → what_in begin ≡ WordWhat-F.Argument value → IsClosed inside → what_in end ≡ WordWhat-F.End
        → (parts : List Part)
        → expansion parts (begin ∷ inside ++ end ∷ rest)
        ≡ and_then (value_piece (out-WordPiece begin).quoted value.name value.form
        (Some (expansion [] inside)))
        (λ more. expansion (joined parts more) rest) }
{}

/// Pieces that open and end no argument: bytes stand for themselves, a value is expanded without
/// one, and an output is asked for.
pub fn law_plain()
    ensures bytes { (piece : WordPiece) (text : List ℕ) (rest : List WordPiece) (parts : List Part)
        → what_in piece ≡ WordWhat-F.Bytes text
        → expansion parts (piece ∷ rest)
        ≡ expansion (joined parts (marked (out-WordPiece piece).quoted text)) rest }
    ensures value { (piece : WordPiece) (value : Value) (rest : List WordPiece) (parts : List Part)
        → what_in piece ≡ WordWhat-F.Value value
        → expansion parts (piece ∷ rest)
        ≡ and_then (value_piece (out-WordPiece piece).quoted value.name value.form None)
        (λ more. expansion (joined parts more) rest) }
    ensures output { (piece : WordPiece) (s : Script) (rest : List WordPiece) (parts : List Part)
        → what_in piece ≡ WordWhat-F.Output s
        → expansion parts (piece ∷ rest)
        ≡ and_then (output_piece (out-WordPiece piece).quoted s)
        (λ more. expansion (joined parts more) rest) }
    ensures nothing { (parts : List Part) → expansion parts [] ≡ Ends parts }
{}

/// A word that is a literal comes to this one field in any shell, and asks nothing.
pub fn law_literal()
    ensures { (word : Word) (text : List ℕ) (shell : Shell) → literal_of word ≡ Some text
        → turn mode.Fields (word_plan word) shell ≡ done (Finished (text ∷ [])) }
{}
