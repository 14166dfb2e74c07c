//! Reading of what has no list and no word inside.
ghost use Rattle.std.specs.Prelude.{◌≡◌, ℕ, ◌<◌, ◌≤◌, ◌++◌, [], ◌∷◌, List, length, cond, true, false, IfOk, IfErr};
ghost use Rattle.em_grammar.specs.Production.{empty, one, this, nested, is_among};
ghost use Rattle.em_grammar.specs.Machine.{first_set};
ghost use Rattle.em_grammar.specs.Gives.{begins_with, Reads, Gives, Turns, lead_of, lead_off};
ghost use Rattle.em_token.specs.Kinds.{code_of, class_of, whats, words, words_but_esac, command_words, kinds as kinds_of};
ghost use Rattle.em_token.specs.Words.{bytes_spelled, name_spelled, word_goes_on};
ghost use Rattle.em_token.specs.Shell as Grammar;
ghost use Rattle.em_token.specs.Shell.{shell, key, Expr};
ghost use Rattle.em_token.specs.Seen.{fault_of};
ghost use Rattle.em_token.specs.declared.kind.Kind.TheVariants as Kind;

use crate::held::bytes_in;
use crate::kind::{Kind, kind_of};
use crate::stop::{Stop, Why};
use em_base::Text;
use em_lexeme::Lexeme;
use std::alloc::Global;

fn contains(kinds: &[Kind], kind: Kind) -> bool
    ensures { result ≡ is_among (code_of kind) (kinds_of kinds.now) }
{
    for other in kinds {
        if kind.code() == other.code() {
            return true;
        }
    }
    false
}

/// Whether the first of the lexemes is of one of these kinds.
pub fn opens(tokens: &[Lexeme], kinds: &[Kind]) -> bool
    ensures { result ≡ begins_with shell (whats tokens.now) (kinds_of kinds.now) }
{
    match tokens.first() {
        Some(token) => contains(kinds, kind_of(&token.what)),
        None => false,
    }
}

/// Passes the first lexeme, which must be of one of these kinds.
pub fn skip<'a>(tokens: &'a [Lexeme], kinds: &[Kind]) -> Result<&'a [Lexeme], Stop<'a>>
    ensures reads { (left : ℕ) → Gives shell left (one (kinds_of kinds.now)) (whats tokens.now)
        (lead_of (λ x. (one (kinds_of kinds.now), whats x.now)) fault_of result) }
    ensures wrong { IfErr result
        (λ x. begins_with shell (whats tokens.now) (kinds_of kinds.now) ≡ false) }
    ensures shorter { IfOk result (λ x. length x.now < length tokens.now) }
{
    if !opens(tokens, kinds) {
        return Err(Stop::Fault(Why::Unexpected, tokens));
    }
    Ok(&tokens[1..])
}

/// The first lexeme, which must be of one of these kinds, and the others.
pub fn take<'a>(
    tokens: &'a [Lexeme],
    kinds: &[Kind],
) -> Result<(&'a Lexeme, &'a [Lexeme]), Stop<'a>>
    ensures reads { (left : ℕ) → Gives shell left (one (kinds_of kinds.now)) (whats tokens.now)
        (lead_of (λ x. (this (kinds_of kinds.now) x.0.now.what, whats x.1.now)) fault_of result) }
    ensures among { IfOk result
        (λ x. is_among (class_of x.0.now.what) (kinds_of kinds.now) ≡ true) }
    ensures split { IfOk result (λ x. tokens.now ≡ x.0.now ∷ x.1.now) }
    ensures wrong { IfErr result
        (λ x. begins_with shell (whats tokens.now) (kinds_of kinds.now) ≡ false) }
    ensures shorter { IfOk result (λ x. length x.1.now < length tokens.now) }
{
    if !opens(tokens, kinds) {
        return Err(Stop::Fault(Why::Unexpected, tokens));
    }
    Ok((&tokens[0], &tokens[1..]))
}

/// Passes a lexeme that opens a level, where one is left.
pub fn descend<'a>(
    tokens: &'a [Lexeme],
    kinds: &[Kind],
    left: u32,
) -> Result<&'a [Lexeme], Stop<'a>>
    ensures level { IfOk result (λ x. 0 < left) }
    ensures turns { IfOk result
        (λ x. (e : Expr) → Turns shell left (nested (kinds_of kinds.now) e) (whats tokens.now)
        (one (kinds_of kinds.now)) e (whats x.now)) }
    ensures err { IfErr result
        (λ x. (e : Expr) → Gives shell left (nested (kinds_of kinds.now) e) (whats tokens.now)
        (lead_off (fault_of x))) }
    ensures shorter { IfOk result (λ x. length x.now < length tokens.now) }
{
    if !opens(tokens, kinds) {
        return Err(Stop::Fault(Why::Unexpected, tokens));
    }
    if left == 0 {
        return Err(Stop::Fault(Why::Depth, tokens));
    }
    Ok(&tokens[1..])
}

/// Passes newlines without a meaning.
pub fn newlines<'a>(tokens: &'a [Lexeme]) -> &'a [Lexeme]
    ensures within { length result.now ≤ length tokens.now }
    ensures reads { (left : ℕ)
        → Reads shell left Grammar.newlines (whats tokens.now) Grammar.newlines (whats result.now) }
{
    let mut rest = tokens;
    while opens(rest, &[Kind::Newline]) {
        rest = &rest[1..];
    }
    rest
}

/// The bytes and the end of a reserved word.
pub fn bare<'a>(tokens: &'a [Lexeme]) -> Result<&'a [Lexeme], Stop<'a>>
    ensures reads { (left : ℕ) → Gives shell left Grammar.bare (whats tokens.now)
        (lead_of (λ x. (Grammar.bare, whats x.now)) fault_of result) }
    ensures shorter { IfOk result (λ x. length x.now < length tokens.now) }
{
    let rest = skip(tokens, &[Kind::Bytes])?;
    let rest = skip(rest, &[Kind::WordEnd])?;
    Ok(rest)
}

/// A reserved word.
pub fn reserved<'a>(tokens: &'a [Lexeme], kind: Kind) -> Result<&'a [Lexeme], Stop<'a>>
    ensures reads { (left : ℕ) → Gives shell left (Grammar.reserved kind) (whats tokens.now)
        (lead_of (λ x. (Grammar.reserved kind, whats x.now)) fault_of result) }
    ensures shorter { IfOk result (λ x. length x.now < length tokens.now) }
{
    let rest = skip(tokens, &[kind])?;
    let rest = bare(rest)?;
    Ok(rest)
}

/// `!`, perhaps.
pub fn bang<'a>(tokens: &'a [Lexeme]) -> Result<(bool, &'a [Lexeme]), Stop<'a>>
    ensures reads { (left : ℕ) → Gives shell left Grammar.bang (whats tokens.now)
        (lead_of (λ x. (
          cond x.0
              (Grammar.reserved Kind.Bang) empty,
          whats x.1.now,
        )) fault_of result) }
    ensures within { IfOk result (λ x. length x.1.now ≤ length tokens.now) }
{
    if opens(tokens, &[Kind::Bang]) {
        let rest = reserved(tokens, Kind::Bang)?;
        return Ok((true, rest));
    }
    Ok((false, tokens))
}

/// `&&` or `||`.
pub fn operator<'a>(tokens: &'a [Lexeme]) -> Result<(bool, &'a [Lexeme]), Stop<'a>>
    ensures reads { (left : ℕ) → Gives shell left Grammar.operator (whats tokens.now)
        (lead_of (λ x. (key (cond x.0 Kind.AndIf Kind.OrIf), whats x.1.now)) fault_of result) }
    ensures shorter { IfOk result (λ x. length x.1.now < length tokens.now) }
{
    if opens(tokens, &[Kind::AndIf]) {
        let rest = skip(tokens, &[Kind::AndIf])?;
        return Ok((true, rest));
    }
    let rest = skip(tokens, &[Kind::OrIf])?;
    Ok((false, rest))
}

/// `;` or a newline, with the newlines behind it.
pub fn sequential<'a>(tokens: &'a [Lexeme]) -> Result<&'a [Lexeme], Stop<'a>>
    ensures reads { (left : ℕ) → Gives shell left Grammar.sequential (whats tokens.now)
        (lead_of (λ x. (Grammar.sequential, whats x.now)) fault_of result) }
    ensures shorter { IfOk result (λ x. length x.now < length tokens.now) }
{
    let rest = skip(tokens, &[Kind::Semicolon, Kind::Newline])?;
    Ok(newlines(rest))
}

/// A separator of commands.
pub fn separator<'a>(tokens: &'a [Lexeme]) -> Result<&'a [Lexeme], Stop<'a>>
    ensures reads { (left : ℕ) → Gives shell left Grammar.separator (whats tokens.now)
        (lead_of (λ x. (Grammar.sequential, whats x.now)) fault_of result) }
    ensures shorter { IfOk result (λ x. length x.now < length tokens.now) }
{
    if opens(tokens, &[Kind::Semicolon, Kind::Newline]) {
        let rest = sequential(tokens)?;
        return Ok(rest);
    }
    if opens(tokens, &[Kind::Ampersand]) {
        return Err(Stop::Fault(Why::Background, tokens));
    }
    Err(Stop::Fault(Why::Unexpected, tokens))
}

/// A `;` or newline where `in` should stand is refused, at the `for`.
pub fn in_word<'a>(tokens: &'a [Lexeme]) -> Result<&'a [Lexeme], Stop<'a>>
    ensures reads { (left : ℕ) → Gives shell left Grammar.in_word (whats tokens.now)
        (lead_of (λ x. (Grammar.reserved Kind.In, whats x.now)) fault_of result) }
    ensures shorter { IfOk result (λ x. length x.now < length tokens.now) }
{
    if opens(tokens, &[Kind::In]) {
        let rest = reserved(tokens, Kind::In)?;
        return Ok(rest);
    }
    if opens(tokens, &[Kind::Semicolon, Kind::Newline]) {
        return Err(Stop::Fault(Why::Positional, tokens));
    }
    Err(Stop::Fault(Why::Unexpected, tokens))
}

/// The bytes of a name alone.
fn bytes<'a>(alloc: Global, tokens: &'a [Lexeme]) -> Result<(Text, &'a [Lexeme]), Stop<'a>>
    ensures reads { (left : ℕ) → Gives shell left (key Kind.Bytes) (whats tokens.now)
        (lead_of (λ x. (bytes_spelled x.0, whats x.1.now)) fault_of result) }
    ensures shorter { IfOk result (λ x. length x.1.now < length tokens.now) }
{
    let (token, rest) = take(tokens, &[Kind::Bytes])?;
    let (_, text) = bytes_in(&token.what)?;
    let name = text.copy(alloc)?;
    Ok((name, rest))
}

/// A name alone, as behind `for`.
pub fn name<'a>(alloc: Global, tokens: &'a [Lexeme]) -> Result<(Text, &'a [Lexeme]), Stop<'a>>
    ensures reads { (left : ℕ) → Gives shell left Grammar.name (whats tokens.now)
        (lead_of (λ x. (name_spelled x.0, whats x.1.now)) fault_of result) }
    ensures shorter { IfOk result (λ x. length x.1.now < length tokens.now) }
{
    let rest = skip(
        tokens,
        &[
            Kind::Name,
            Kind::Esac,
            Kind::If,
            Kind::Then,
            Kind::Elif,
            Kind::Else,
            Kind::Fi,
            Kind::While,
            Kind::Until,
            Kind::Do,
            Kind::Done,
            Kind::For,
            Kind::In,
            Kind::Case,
        ],
    )?;
    let (name, rest) = bytes(alloc, rest)?;
    let rest = skip(rest, &[Kind::WordEnd])?;
    Ok((name, rest))
}

/// Whether a list begins here.
pub fn opens_list(tokens: &[Lexeme]) -> bool
    ensures { result ≡ begins_with shell (whats tokens.now) (kinds_of Grammar.list_begins) }
{
    opens(
        tokens,
        &[
            Kind::Bang,
            Kind::Name,
            Kind::Plain,
            Kind::Assignment,
            Kind::Number,
            Kind::Less,
            Kind::Great,
            Kind::DoubleGreat,
            Kind::GreatAnd,
            Kind::LeftParen,
            Kind::LeftBrace,
            Kind::If,
            Kind::While,
            Kind::Until,
            Kind::For,
            Kind::Case,
        ],
    )
}

/// Whether a simple command begins here.
pub fn opens_simple(tokens: &[Lexeme]) -> bool
    ensures { result
        ≡ begins_with shell (whats tokens.now) (first_set shell.list_first Grammar.simple) }
{
    opens(
        tokens,
        &[
            Kind::Name,
            Kind::Plain,
            Kind::Assignment,
            Kind::Number,
            Kind::Less,
            Kind::Great,
            Kind::DoubleGreat,
            Kind::GreatAnd,
        ],
    )
}

/// Whether a redirection begins here.
pub fn opens_redirect(tokens: &[Lexeme]) -> bool
    ensures { result
        ≡ begins_with shell (whats tokens.now) (first_set shell.list_first Grammar.redirect) }
{
    opens(
        tokens,
        &[
            Kind::Number,
            Kind::Less,
            Kind::Great,
            Kind::DoubleGreat,
            Kind::GreatAnd,
        ],
    )
}

/// Whether an assignment or a redirection begins here.
pub fn opens_prefix(tokens: &[Lexeme]) -> bool
    ensures { result
        ≡ begins_with shell (whats tokens.now) (first_set shell.list_first Grammar.prefix) }
{
    opens(
        tokens,
        &[
            Kind::Assignment,
            Kind::Number,
            Kind::Less,
            Kind::Great,
            Kind::DoubleGreat,
            Kind::GreatAnd,
        ],
    )
}

/// Whether a word begins here.
pub fn opens_word(tokens: &[Lexeme]) -> bool
    ensures { result ≡ begins_with shell (whats tokens.now) words }
{
    opens(
        tokens,
        &[
            Kind::Plain,
            Kind::Name,
            Kind::Assignment,
            Kind::Bang,
            Kind::LeftBrace,
            Kind::RightBrace,
            Kind::Esac,
            Kind::If,
            Kind::Then,
            Kind::Elif,
            Kind::Else,
            Kind::Fi,
            Kind::While,
            Kind::Until,
            Kind::Do,
            Kind::Done,
            Kind::For,
            Kind::In,
            Kind::Case,
        ],
    )
}

/// Whether a word or a redirection begins here.
pub fn opens_argument(tokens: &[Lexeme]) -> bool
    ensures { result
        ≡ begins_with shell (whats tokens.now) (first_set shell.list_first Grammar.argument) }
{
    opens(
        tokens,
        &[
            Kind::Plain,
            Kind::Name,
            Kind::Assignment,
            Kind::Bang,
            Kind::LeftBrace,
            Kind::RightBrace,
            Kind::Esac,
            Kind::If,
            Kind::Then,
            Kind::Elif,
            Kind::Else,
            Kind::Fi,
            Kind::While,
            Kind::Until,
            Kind::Do,
            Kind::Done,
            Kind::For,
            Kind::In,
            Kind::Case,
            Kind::Number,
            Kind::Less,
            Kind::Great,
            Kind::DoubleGreat,
            Kind::GreatAnd,
        ],
    )
}

/// Whether a word begins here that is no assignment.
pub fn opens_command_word(tokens: &[Lexeme]) -> bool
    ensures { result ≡ begins_with shell (whats tokens.now) command_words }
{
    opens(
        tokens,
        &[
            Kind::Plain,
            Kind::Name,
            Kind::Bang,
            Kind::LeftBrace,
            Kind::RightBrace,
            Kind::Esac,
            Kind::If,
            Kind::Then,
            Kind::Elif,
            Kind::Else,
            Kind::Fi,
            Kind::While,
            Kind::Until,
            Kind::Do,
            Kind::Done,
            Kind::For,
            Kind::In,
            Kind::Case,
        ],
    )
}

/// Whether an item of a `case` begins here.
pub fn opens_item(tokens: &[Lexeme]) -> bool
    ensures { result
        ≡ begins_with shell (whats tokens.now) (first_set shell.list_first Grammar.item) }
{
    opens(
        tokens,
        &[
            Kind::LeftParen,
            Kind::Plain,
            Kind::Name,
            Kind::Assignment,
            Kind::Bang,
            Kind::LeftBrace,
            Kind::RightBrace,
            Kind::If,
            Kind::Then,
            Kind::Elif,
            Kind::Else,
            Kind::Fi,
            Kind::While,
            Kind::Until,
            Kind::Do,
            Kind::Done,
            Kind::For,
            Kind::In,
            Kind::Case,
        ],
    )
}

/// The begin of any word.
pub fn skip_word<'a>(tokens: &'a [Lexeme]) -> Result<&'a [Lexeme], Stop<'a>>
    ensures reads { (left : ℕ) → Gives shell left (one words) (whats tokens.now)
        (lead_of (λ x. (one words, whats x.now)) fault_of result) }
    ensures shorter { IfOk result (λ x. length x.now < length tokens.now) }
{
    let rest = skip(
        tokens,
        &[
            Kind::Plain,
            Kind::Name,
            Kind::Assignment,
            Kind::Bang,
            Kind::LeftBrace,
            Kind::RightBrace,
            Kind::Esac,
            Kind::If,
            Kind::Then,
            Kind::Elif,
            Kind::Else,
            Kind::Fi,
            Kind::While,
            Kind::Until,
            Kind::Do,
            Kind::Done,
            Kind::For,
            Kind::In,
            Kind::Case,
        ],
    )?;
    Ok(rest)
}

/// The begin of a word that is no assignment.
pub fn skip_command_word<'a>(tokens: &'a [Lexeme]) -> Result<&'a [Lexeme], Stop<'a>>
    ensures reads { (left : ℕ) → Gives shell left (one command_words) (whats tokens.now)
        (lead_of (λ x. (one command_words, whats x.now)) fault_of result) }
    ensures shorter { IfOk result (λ x. length x.now < length tokens.now) }
{
    let rest = skip(
        tokens,
        &[
            Kind::Plain,
            Kind::Name,
            Kind::Bang,
            Kind::LeftBrace,
            Kind::RightBrace,
            Kind::Esac,
            Kind::If,
            Kind::Then,
            Kind::Elif,
            Kind::Else,
            Kind::Fi,
            Kind::While,
            Kind::Until,
            Kind::Do,
            Kind::Done,
            Kind::For,
            Kind::In,
            Kind::Case,
        ],
    )?;
    Ok(rest)
}

/// The begin of a word that isn't `esac`.
pub fn skip_pattern<'a>(tokens: &'a [Lexeme]) -> Result<&'a [Lexeme], Stop<'a>>
    ensures reads { (left : ℕ) → Gives shell left (one words_but_esac) (whats tokens.now)
        (lead_of (λ x. (one words_but_esac, whats x.now)) fault_of result) }
    ensures shorter { IfOk result (λ x. length x.now < length tokens.now) }
{
    let rest = skip(
        tokens,
        &[
            Kind::Plain,
            Kind::Name,
            Kind::Assignment,
            Kind::Bang,
            Kind::LeftBrace,
            Kind::RightBrace,
            Kind::If,
            Kind::Then,
            Kind::Elif,
            Kind::Else,
            Kind::Fi,
            Kind::While,
            Kind::Until,
            Kind::Do,
            Kind::Done,
            Kind::For,
            Kind::In,
            Kind::Case,
        ],
    )?;
    Ok(rest)
}

/// Whether a word goes on here, in an argument or not.
pub fn goes_on(tokens: &[Lexeme], is_open: bool) -> bool
    ensures { result ≡ word_goes_on is_open (whats tokens.now) }
{
    if opens(
        tokens,
        &[
            Kind::ArgumentStart,
            Kind::Bytes,
            Kind::Assigning,
            Kind::Value,
            Kind::SubstitutionStart,
        ],
    ) {
        return true;
    }
    is_open && opens(tokens, &[Kind::ArgumentEnd])
}

/// The word that begins a loop.
pub fn loop_kind(until: bool) -> Kind
    ensures { result ≡ cond until Kind.Until Kind.While }
{
    if until { Kind::Until } else { Kind::While }
}
