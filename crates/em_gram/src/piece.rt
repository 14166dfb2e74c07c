//! Reading of the lexemes inside words, and of redirections' operators.
ghost use Rattle.std.specs.Prelude.{◌≡◌, ℕ, ◌<◌, ◌≤◌, ◌++◌, [], ◌∷◌, ◌-◌, List, Bool, length, take, slice_get, Some, None, true, false, IfOk, IfErr, IsOk};
ghost use Rattle.std.specs.Option.{option_map};
ghost use Rattle.em_grammar.specs.Production.{empty, this, nested, ◌⨾◌};
ghost use Rattle.em_grammar.specs.Gives.{begins_with, Gives, Turns, Spells, lead_of, lead_off};
ghost use Rattle.em_lexeme.specs.declared.lexeme.What.{What};
ghost use Rattle.em_lexeme.specs.declared.lexeme.What.TheVariants as What;
ghost use Rattle.em_token.specs.Kinds.{code_of, class_of, whats, kinds as kinds_of};
ghost use Rattle.em_token.specs.Shell as Grammar;
ghost use Rattle.em_token.specs.Shell.{shell, key, Expr};
ghost use Rattle.em_gram.specs.Patterns as Tree;
ghost use Rattle.em_gram.specs.Nesting.{piece_pattern, piece_nesting};
ghost use Rattle.em_syntax.specs.Nesting.{Stays, Opens};
ghost use Rattle.em_token.specs.Seen.{fault_of};
ghost use Rattle.em_token.specs.declared.kind.Kind.TheVariants as Kind;
ghost use Rattle.em_syntax.specs.declared.tree.RedirectKind.TheVariants as RedirectKind;

use em_base::Text;
use em_lex::Lexeme;
use em_syntax::{Redirect, RedirectKind, Script, Value, Word, WordPiece, WordWhat};
use em_token::held::{argument_in, bytes_in, number_in, substitution_in, value_in};
use em_token::kind::Kind;
use em_token::read::{descend, opens, skip, take};
use em_token::stop::Stop;
use std::alloc::Global;

/// A piece of bytes.
fn bytes<'a>(alloc: Global, tokens: &'a [Lexeme]) -> Result<(WordPiece, &'a [Lexeme]), Stop<'a>>
    ensures reads { (left : ℕ) → Gives shell left Grammar.any_bytes (whats tokens.now)
        (lead_of (λ x. (piece_pattern x.0, whats x.1.now)) fault_of result) }
    ensures stays { IfOk result (λ x. piece_nesting x.0 ≡ Stays) }
    ensures shorter { IfOk result (λ x. length x.1.now < length tokens.now) }
{
    let (token, rest) = take(tokens, &[Kind::Bytes, Kind::Assigning])?;
    let (quoted, held) = bytes_in(&token.what)?;
    let text = held.copy(alloc)?;
    Ok((bytes_piece(quoted, text), rest))
}

/// A value without an argument.
fn value<'a>(alloc: Global, tokens: &'a [Lexeme]) -> Result<(WordPiece, &'a [Lexeme]), Stop<'a>>
    ensures reads { (left : ℕ) → Gives shell left (key Kind.Value) (whats tokens.now)
        (lead_of (λ x. (piece_pattern x.0, whats x.1.now)) fault_of result) }
    ensures stays { IfOk result (λ x. piece_nesting x.0 ≡ Stays) }
    ensures shorter { IfOk result (λ x. length x.1.now < length tokens.now) }
{
    let (token, rest) = take(tokens, &[Kind::Value])?;
    let (quoted, held_name, held_form) = value_in(&token.what)?;
    let name = held_name.copy(alloc)?;
    let form = held_form.copy(alloc)?;
    Ok((value_piece(quoted, name, form), rest))
}

/// Bytes, or a value without an argument.
pub fn simple_piece<'a>(
    alloc: Global,
    tokens: &'a [Lexeme],
) -> Result<(WordPiece, &'a [Lexeme]), Stop<'a>>
    ensures reads { (left : ℕ) → Gives shell left Grammar.simple_piece (whats tokens.now)
        (lead_of (λ x. (piece_pattern x.0, whats x.1.now)) fault_of result) }
    ensures stays { IfOk result (λ x. piece_nesting x.0 ≡ Stays) }
    ensures shorter { IfOk result (λ x. length x.1.now < length tokens.now) }
{
    if opens(tokens, &[Kind::Bytes, Kind::Assigning]) {
        let (piece, rest) = bytes(alloc, tokens)?;
        return Ok((piece, rest));
    }
    let (piece, rest) = value(alloc, tokens)?;
    Ok((piece, rest))
}

fn bytes_piece(quoted: bool, text: Text) -> WordPiece
    ensures pattern { piece_pattern result
        ≡ this (kinds_of (Kind.Bytes ∷ Kind.Assigning ∷ [])) (What.Bytes quoted text) }
    ensures digit { (Tree.piece_spelling result).digit ≡ Tree.digit_of quoted text }
    ensures nesting { piece_nesting result ≡ Stays }
{
    WordPiece {
        quoted,
        what: WordWhat::Bytes(text),
    }
}

fn value_piece(quoted: bool, name: Text, form: Text) -> WordPiece
    ensures pattern { piece_pattern result
        ≡ this (kinds_of (Kind.Value ∷ [])) (What.Value quoted name form) }
    ensures nesting { piece_nesting result ≡ Stays }
{
    WordPiece {
        quoted,
        what: WordWhat::Value(Value { name, form }),
    }
}

fn argument_piece(quoted: bool, name: Text, form: Text) -> WordPiece
    ensures pattern { piece_pattern result
        ≡ this (kinds_of (Kind.ArgumentStart ∷ [])) (What.ArgumentStart quoted name form) }
    ensures nesting { piece_nesting result ≡ Opens }
{
    WordPiece {
        quoted,
        what: WordWhat::Argument(Value { name, form }),
    }
}

/// The begin of an argument.
pub fn argument_begin<'a>(
    alloc: Global,
    tokens: &'a [Lexeme],
) -> Result<(WordPiece, &'a [Lexeme]), Stop<'a>>
    ensures reads { (left : ℕ) → Gives shell left (key Kind.ArgumentStart) (whats tokens.now)
        (lead_of (λ x. (piece_pattern x.0, whats x.1.now)) fault_of result) }
    ensures opens { IfOk result (λ x. piece_nesting x.0 ≡ Opens) }
    ensures lexeme { IfOk result
        (λ x. Spells shell (key Kind.ArgumentStart) (whats tokens.now) (whats x.1.now)) }
    ensures free { IfErr result
        (λ x. begins_with shell (whats tokens.now) (kinds_of (Kind.ArgumentStart ∷ [])) ≡ true
        → fault_of x ≡ None) }
    ensures shorter { IfOk result (λ x. length x.1.now < length tokens.now) }
{
    let (token, rest) = take(tokens, &[Kind::ArgumentStart])?;
    let (quoted, held_name, held_form) = argument_in(&token.what)?;
    let name = held_name.copy(alloc)?;
    let form = held_form.copy(alloc)?;
    Ok((argument_piece(quoted, name, form), rest))
}

/// Whether the substitution that begins here is quoted.
fn first_quoted(tokens: &[Lexeme]) -> Result<bool, em_base::NoMemory>
    ensures held { IfOk result
        (λ x. slice_get (whats tokens.now) 0 ≡ Some (What.SubstitutionStart x)) }
    ensures comes { (quoted : Bool)
        → slice_get (whats tokens.now) 0 ≡ Some (What.SubstitutionStart quoted) → IsOk result }
{
    match tokens.first() {
        Some(token) => substitution_in(&token.what),
        None => Err(em_base::NoMemory),
    }
}

/// All bytes but the last.
fn without_last(bytes: &[u8]) -> &[u8]
    ensures { result.now ≡ take (length bytes.now - 1) bytes.now }
{
    &bytes[..bytes.len().saturating_sub(1)]
}

/// The begin of a substitution, which opens a level; and whether it is quoted.
pub fn substitution_begin<'a>(
    tokens: &'a [Lexeme],
    left: u32,
) -> Result<(bool, &'a [Lexeme]), Stop<'a>>
    ensures level { IfOk result (λ x. 0 < left) }
    ensures turns { IfOk result
        (λ x. (e : Expr)
        → Turns shell left (nested (kinds_of (Kind.SubstitutionStart ∷ [])) e)
        (whats tokens.now)
        (this (kinds_of (Kind.SubstitutionStart ∷ [])) (What.SubstitutionStart x.0)) e
        (whats x.1.now)) }
    ensures err { IfErr result
        (λ x. (e : Expr)
        → Gives shell left (nested (kinds_of (Kind.SubstitutionStart ∷ [])) e)
        (whats tokens.now)
        (lead_off (fault_of x))) }
    ensures shorter { IfOk result (λ x. length x.1.now < length tokens.now) }
{
    let rest = descend(tokens, &[Kind::SubstitutionStart], left)?;
    let quoted = first_quoted(tokens)?;
    Ok((quoted, rest))
}

/// The name in front of `=`, and what stands behind it.
pub fn assigned_name<'a>(
    alloc: Global,
    tokens: &'a [Lexeme],
) -> Result<(Text, &'a [Lexeme]), Stop<'a>>
    ensures reads { (left : ℕ) → Gives shell left (key Kind.Assigning) (whats tokens.now)
        (lead_of (λ x. (
          this (kinds_of (Kind.Assigning ∷ []))
              (What.Bytes false (x.0 ++ 61 ∷ [])),
          whats x.1.now,
        )) fault_of result) }
    ensures shorter { IfOk result (λ x. length x.1.now < length tokens.now) }
{
    let (token, rest) = take(tokens, &[Kind::Assigning])?;
    let (_, held) = bytes_in(&token.what)?;
    let name = Text::from_slice(alloc, without_last(held.bytes()))?;
    Ok((name, rest))
}

/// The digit of a descriptor.
pub fn digit<'a>(tokens: &'a [Lexeme]) -> Result<(u8, &'a [Lexeme]), Stop<'a>>
    ensures reads { (left : ℕ) → Gives shell left (key Kind.Number) (whats tokens.now)
        (lead_of (λ x. (
          this (kinds_of (Kind.Number ∷ []))
              (What.Number x.0),
          whats x.1.now,
        )) fault_of result) }
    ensures small { IfOk result (λ x. x.0 ≤ 9) }
    ensures shorter { IfOk result (λ x. length x.1.now < length tokens.now) }
{
    let (token, rest) = take(tokens, &[Kind::Number])?;
    let n = number_in(&token.what)?;
    Ok((n, rest))
}

/// The number in front of a redirection, perhaps.
pub fn number<'a>(tokens: &'a [Lexeme]) -> Result<(Option<u8>, &'a [Lexeme]), Stop<'a>>
    ensures reads { (left : ℕ) → Gives shell left Grammar.number (whats tokens.now)
        (lead_of (λ x. (Tree.number_of x.0, whats x.1.now)) fault_of result) }
    ensures within { IfOk result (λ x. length x.1.now ≤ length tokens.now) }
{
    if opens(tokens, &[Kind::Number]) {
        let (n, rest) = digit(tokens)?;
        return Ok((Some(n), rest));
    }
    Ok((None, tokens))
}

/// The word that stands for the digit behind `>&`.
fn digit_word(alloc: Global, n: u8) -> Result<Word, em_base::NoMemory>
    requires { n ≤ 9 }
    ensures { IfOk result (λ w. (Tree.word_spelling w).digit ≡ Some n) }
{
    let text = Text::from_slice(alloc, &[b'0' + n])?;
    let mut pieces = Vec::new(alloc);
    pieces.push(bytes_piece(false, text))?;
    Ok(Word { pieces })
}

/// `>&` and the digit behind it.
pub fn duplicate<'a>(alloc: Global, tokens: &'a [Lexeme]) -> Result<(Word, &'a [Lexeme]), Stop<'a>>
    ensures reads { (left : ℕ) → Gives shell left Grammar.duplicate (whats tokens.now)
        (lead_of (λ x. (
          Tree.target_spelled RedirectKind.Duplicate
              (Tree.word_spelling x.0),
          whats x.1.now,
        )) fault_of result) }
    ensures shorter { IfOk result (λ x. length x.1.now < length tokens.now) }
{
    let rest = skip(tokens, &[Kind::GreatAnd])?;
    let (n, rest) = digit(rest)?;
    let target = digit_word(alloc, n)?;
    Ok((target, rest))
}

/// `>`, `>>` or `<`.
pub fn file_operator<'a>(tokens: &'a [Lexeme]) -> Result<(RedirectKind, &'a [Lexeme]), Stop<'a>>
    ensures reads { (left : ℕ) → Gives shell left Grammar.file_operator (whats tokens.now)
        (lead_of (λ x. (Tree.operator_spelled x.0, whats x.1.now)) fault_of result) }
    ensures file { IfOk result (λ x. Tree.is_duplicate x.0 ≡ false) }
    ensures shorter { IfOk result (λ x. length x.1.now < length tokens.now) }
{
    if opens(tokens, &[Kind::Less]) {
        let rest = skip(tokens, &[Kind::Less])?;
        return Ok((RedirectKind::Read, rest));
    }
    if opens(tokens, &[Kind::Great]) {
        let rest = skip(tokens, &[Kind::Great])?;
        return Ok((RedirectKind::Write, rest));
    }
    let rest = skip(tokens, &[Kind::DoubleGreat])?;
    Ok((RedirectKind::Append, rest))
}

/// The descriptor that a redirection has without a number.
fn usual_fd(kind: RedirectKind) -> u8
    ensures { result ≡ Tree.usual kind }
{
    match kind {
        RedirectKind::Read => 0,
        RedirectKind::Write | RedirectKind::Append | RedirectKind::Duplicate => 1,
    }
}

/// A redirection of the descriptor that was given, or of the usual one.
pub fn redirection(number: Option<u8>, kind: RedirectKind, target: Word) -> Redirect
    ensures { (us rest : List What)
        → Spells shell (Tree.number_of number ⨾ Tree.target_spelled kind
        (Tree.word_spelling target)) us rest
        → Spells shell (Tree.redirect_pattern result) us rest }
{
    let fd = number.unwrap_or(usual_fd(kind));
    Redirect { fd, kind, target }
}

/// The piece for a substitution; where it has no commands, their list is empty.
pub fn output_piece(alloc: Global, quoted: bool, script: Option<Script>) -> WordPiece
    ensures spells { (us rest : List What)
        → Spells shell (this (kinds_of (Kind.SubstitutionStart ∷ []))
        (What.SubstitutionStart quoted)
        ⨾ Grammar.newlines ⨾ Tree.body_of (option_map Tree.script_pattern script)
        ⨾ key Kind.SubstitutionEnd) us rest
        → Spells shell (piece_pattern result) us rest }
    ensures nesting { piece_nesting result ≡ Stays }
{
    match script {
        Some(script) => WordPiece {
            quoted,
            what: WordWhat::Output(script),
        },
        None => WordPiece {
            quoted,
            what: WordWhat::Output(no_commands(alloc)),
        },
    }
}

/// The script without commands.
pub fn no_commands(alloc: Global) -> Script
    ensures { Tree.body_pattern result ≡ empty }
{
    Script {
        list: Vec::new(alloc),
    }
}
