//! A line's tree, or its leftmost fault.
ghost use Rattle.std.specs.Prelude.{◌≡◌, ℕ, length, List, [], ◌∷◌, Option, Some, None, IfOk, IfErr};
ghost use Rattle.em_grammar.specs.Production.{◌⨾◌};
ghost use Rattle.em_grammar.specs.Machine.{run, fault};
ghost use Rattle.em_grammar.specs.Gives.{Reads};
ghost use Rattle.em_gram.specs.Patterns.{body_pattern};
ghost use Rattle.em_lexeme.specs.declared.lexeme.Lexeme.{Lexeme};
ghost use Rattle.em_lexeme.specs.declared.no.LexNo.{LexNo};
ghost use Rattle.em_token.specs.Seen.{why_code};
ghost use Rattle.em_token.specs.Shell.{shell, newlines, line as line_grammar};
ghost use Rattle.em_lex.specs.Lexing.{lexed};
ghost use Rattle.em_gram.specs.Line.{IsScript, IsFault, GoesOn, lexed_of, place_at, is_function};
ghost use Rattle.em_token.specs.Kinds.{whats};

use crate::no::GramNo;
use crate::parser::line;
use em_base::Construct;
use em_lex::{LexNo, Lexed, Lexeme, lexemes};
use em_syntax::Script;
use em_token::kind::Kind;
use em_token::read::opens;
use em_token::stop::{Stop, Why};
use std::alloc::Global;

/// Where the lexeme of this number begins, or the line's length behind the last.
fn place_of(tokens: &[Lexeme], number: usize, length: usize) -> usize
    ensures { result ≡ place_at tokens.now number length }
{
    match tokens.get(number) {
        Some(token) => token.span.start,
        None => length,
    }
}

/// Whether `()` stands here.
fn is_parens(rest: &[Lexeme]) -> bool
    ensures { result ≡ is_function (whats rest.now) }
{
    !rest.is_empty() && opens(&rest[1..], &[Kind::RightParen])
}

/// What a fault is, and where it is told. A function is refused at its name, and a `for` without
/// `in` at the `for`.
fn fault_at(why: Why, tokens: &[Lexeme], rest: &[Lexeme], length: usize) -> GramNo
    ensures { (stop : Option LexNo) → (whats rest.now ≡ [] → stop ≡ None)
        → run shell ((64, line_grammar) ∷ []) (whats tokens.now)
        ≡ fault (why_code why) (whats rest.now)
        → IsFault (lexed_of tokens.now stop) length result }
{
    let number = tokens.len().saturating_sub(rest.len());
    let here = place_of(tokens, number, length);
    match why {
        Why::Unexpected => GramNo::Unexpected(here),
        Why::Depth => GramNo::Refused(Construct::Depth, here),
        Why::Background => GramNo::Refused(Construct::Background, here),
        Why::Function => {
            if is_parens(rest) {
                return GramNo::Refused(
                    Construct::Function,
                    place_of(tokens, number.saturating_sub(3), length),
                );
            }
            GramNo::Unexpected(here)
        }
        Why::Positional => GramNo::Refused(
            Construct::Positional,
            place_of(tokens, number.saturating_sub(6), length),
        ),
    }
}

/// The fault that ended the lexer's reading.
fn stopped(stop: LexNo) -> GramNo
    ensures { (items : List Lexeme) (length : ℕ) → GoesOn items
        → IsFault (lexed_of items (Some stop)) length result }
{
    match stop {
        LexNo::Unclosed(at) => GramNo::Unclosed(at),
        LexNo::Refused(construct, at) => GramNo::Refused(construct, at),
        LexNo::NoMemory => GramNo::NoMemory,
    }
}

/// The fault of what was lexed, where the grammar stops at `rest`: at the end the lexer's fault
/// counts, if there is one.
fn fault_or_stop(
    why: Why,
    tokens: &[Lexeme],
    rest: &[Lexeme],
    stop: Option<LexNo>,
    length: usize,
) -> GramNo
    requires { run shell ((64, line_grammar) ∷ []) (whats tokens.now)
        ≡ fault (why_code why) (whats rest.now) }
    ensures { IsFault (lexed_of tokens.now stop) length result }
{
    if !rest.is_empty() {
        return fault_at(why, tokens, rest, length);
    }
    match stop {
        Some(no) => stopped(no),
        None => fault_at(why, tokens, rest, length),
    }
}

/// What was lexed is a line up to `rest`: it is the whole line, or what follows doesn't belong to
/// it.
fn whole(
    script: Script,
    tokens: &[Lexeme],
    rest: &[Lexeme],
    stop: Option<LexNo>,
    length: usize,
) -> Result<Script, GramNo>
    requires { Reads shell 64 line_grammar (whats tokens.now) (newlines ⨾ body_pattern script)
        (whats rest.now) }
    ensures tree { IfOk result (λ s. IsScript (lexed_of tokens.now stop) s) }
    ensures fault { IfErr result (λ e. IsFault (lexed_of tokens.now stop) length e) }
{
    if !rest.is_empty() {
        return Err(fault_at(Why::Unexpected, tokens, rest, length));
    }
    match stop {
        Some(no) => Err(stopped(no)),
        None => Ok(script),
    }
}

/// The tree of what was lexed of a line of this length.
fn tree_of(alloc: Global, lexed: Lexed, length: usize) -> Result<Script, GramNo>
    ensures tree { IfOk result (λ s. IsScript lexed s) }
    ensures fault { IfErr result (λ e. IsFault lexed length e) }
{
    let Lexed { items, stop } = lexed;
    let tokens = items.items();
    match line(alloc, tokens) {
        Ok((script, rest)) => whole(script, tokens, rest, stop, length),
        Err(Stop::Fault(why, rest)) => Err(fault_or_stop(why, tokens, rest, stop, length)),
        Err(Stop::NoMemory) => Err(GramNo::NoMemory),
    }
}

/// The tree of a line: what its lexemes are by the grammar. Else the leftmost fault: up to its
/// place some line of the grammar goes on, and with what stands there, or at the end, none does.
/// Reading takes time linear in the line's length.
pub fn parse(alloc: Global, line: &[u8]) -> Result<Script, GramNo>
    ensures tree { IfOk result (λ s. IsScript (lexed line.now) s) }
    ensures fault { IfErr result (λ e. IsFault (lexed line.now) (length line.now) e) }
{
    let lexed = lexemes(alloc, line)?;
    tree_of(alloc, lexed, line.len())
}
