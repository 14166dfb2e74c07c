//! Words whose texts are at hand.
ghost use Rattle.std.specs.Prelude.{◌≡◌, zip};
ghost use Rattle.std.specs.List.{list_all};
ghost use Rattle.em_exec.specs.Literals as literals;

use em_base::Text;
use em_syntax::Word;
use em_word::literal;

/// Whether the word is one text in any shell, and this one.
fn is_said(text: &Text, word: &Word) -> bool
    ensures { result ≡ literals.is_said text.now word.now }
{
    match literal(word) {
        Some(bytes) => bytes == text.bytes(),
        None => false,
    }
}

fn all_said(texts: &[Text], words: &[Word]) -> bool
    ensures { result ≡ list_all (λ p. literals.is_said p.0 p.1) (zip texts.now words.now) }
{
    texts.iter().zip(words).all(|(t, w)| is_said(t, w))
}

/// Whether these texts are what the words come to in any shell. Takes no memory; a step for each
/// byte, and one where their numbers differ.
pub(crate) fn are_said(texts: &[Text], words: &[Word]) -> bool
    ensures { result ≡ literals.are_said texts.now words.now }
{
    texts.len() == words.len() && all_said(texts, words)
}
