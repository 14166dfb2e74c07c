//! The form of a line that begins a make within a make. Nothing here takes memory.
ghost use Rattle.std.specs.Prelude.{◌≡◌, ℕ, List, Option, IfSome, IsNone, false, option_map};
ghost use Rattle.em_exec.specs.Literals.{is_text};
ghost use Rattle.em_exec.specs.Subs as subs;
ghost use Rattle.em_syntax.specs.Texts as texts;
ghost use Rattle.em_syntax.specs.declared.tree.Command.{out-Command};

use em_syntax::{Command, Pipeline, Simple, Word, WordPiece, WordWhat};

/// The bytes of a piece; none where something is expanded.
fn bytes_in(piece: &WordPiece) -> Option<&[u8]>
    ensures { option_map (λ t. t.now) result ≡ texts.bytes_in piece.now }
{
    match &piece.what {
        WordWhat::Bytes(text) => Some(text.bytes()),
        WordWhat::Value(_) | WordWhat::Argument(_) | WordWhat::End | WordWhat::Output(_) => None,
    }
}

/// What is left of a name behind the bytes of a piece, for the pieces behind it. None where these
/// bytes don't begin it: then no pieces behind it make the name of the whole.
fn behind_piece<'a>(name: &'a [u8], piece: &WordPiece) -> Option<&'a [u8]>
    ensures left { IfSome result (λ rest. (more : Option (List ℕ))
        → is_text name.now (subs.followed (texts.bytes_in piece.now) more)
        ≡ is_text rest.now more) }
    ensures other { IsNone result → (more : Option (List ℕ))
        → is_text name.now (subs.followed (texts.bytes_in piece.now) more) ≡ false }
{
    match bytes_in(piece) {
        Some(bytes) => name.strip_prefix(bytes),
        None => None,
    }
}

/// Whether the word is this name in the line, without its quotes. A step for each byte of the name
/// and for each piece of the word.
pub(crate) fn is_written(name: &[u8], word: &Word) -> bool
    ensures { result ≡ subs.is_written name.now word.now }
{
    let mut left = name;
    for piece in &word.pieces {
        match behind_piece(left, piece) {
            Some(rest) => left = rest,
            None => return false,
        }
    }
    left.is_empty()
}

/// Whether the word is a name of this program.
fn is_make(word: &Word) -> bool
    ensures { result ≡ subs.is_make word.now }
{
    is_written(b"emake", word) || is_written(b"make", word)
}

/// Whether such a name is the first of the words.
fn begins_with_make(words: &[Word]) -> bool
    ensures { result ≡ subs.begins_with_make words.now }
{
    match words {
        [] => false,
        [first, ..] => is_make(first),
    }
}

/// Whether the words are `cd` and one more.
fn is_cd(words: &[Word]) -> bool
    ensures { result ≡ subs.is_cd words.now }
{
    match words {
        [first, _] => is_written(b"cd", first),
        _ => false,
    }
}

/// Whether a command has neither assignments nor redirections.
fn is_bare(simple: &Simple) -> bool
    ensures { result ≡ subs.is_bare simple.now }
{
    simple.assigned.is_empty() && simple.redirects.is_empty()
}

/// A command, if it is a simple one.
fn simple_by(command: &Command) -> Option<&Simple>
    ensures { option_map (λ c. c.now) result ≡ subs.simple_by (out-Command command.now) }
{
    match command {
        Command::Simple(simple) => Some(simple),
        Command::Compound(_, _) => None,
    }
}

/// The simple command that the whole pipeline is, without `!`.
fn one_command(pipeline: &Pipeline) -> Option<&Simple>
    ensures { option_map (λ c. c.now) result ≡ subs.one_command pipeline.now }
{
    if pipeline.not {
        return None;
    }
    match pipeline.stages.as_slice() {
        [stage] => simple_by(stage),
        _ => None,
    }
}

/// The command `cd W` that the whole pipeline is.
pub(crate) fn cd_in(pipeline: &Pipeline) -> Option<&Simple>
    ensures { option_map (λ c. c.now) result ≡ subs.command_alone subs.is_cd pipeline.now }
{
    let simple = one_command(pipeline)?;
    if is_bare(simple) && is_cd(&simple.words) {
        return Some(simple);
    }
    None
}

/// The command that begins a make, if the whole pipeline is one.
pub(crate) fn make_in(pipeline: &Pipeline) -> Option<&Simple>
    ensures { option_map (λ c. c.now) result
        ≡ subs.command_alone subs.begins_with_make pipeline.now }
{
    let simple = one_command(pipeline)?;
    if is_bare(simple) && begins_with_make(&simple.words) {
        return Some(simple);
    }
    None
}
