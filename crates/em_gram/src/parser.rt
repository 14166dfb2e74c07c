//! The parser: a function for each part of the grammar.
ghost use Rattle.std.specs.Prelude.{◌≡◌, ◌<◌, ◌≤◌, length, map, IfOk, IfErr, [], ◌∷◌, cond, List, true, false};
ghost use Rattle.std.specs.Option.{option_map};
ghost use Rattle.em_grammar.specs.Production.{many, more, ◌⨾◌};
ghost use Rattle.em_grammar.specs.Gives.{begins_with, Gives, Passes, Moves, Spells, lead_of, lead_off, all};
ghost use Rattle.em_lexeme.specs.declared.lexeme.What.{What};
ghost use Rattle.em_token.specs.Kinds.{whats, words as word_kinds, reserved_words, kinds as kinds_of};
ghost use Rattle.em_token.specs.Shell as Grammar;
ghost use Rattle.em_token.specs.Shell.{shell, key, Expr};
ghost use Rattle.em_gram.specs.Patterns as Tree;
ghost use Rattle.em_gram.specs.Nesting.{piece_pattern, piece_nesting, nest_parts, nest_depth, may_go_on, IsCounted};
ghost use Rattle.em_syntax.specs.Nesting.{Stays};
ghost use Rattle.em_gram.specs.Simple.{so_far};
ghost use Rattle.em_token.specs.Seen.{fault_of};
ghost use Rattle.em_token.specs.declared.kind.Kind.TheVariants as Kind;

use crate::nest::Nest;
use crate::piece::{
    argument_begin, assigned_name, duplicate, file_operator, no_commands, number, output_piece,
    redirection, simple_piece, substitution_begin,
};
use em_lex::Lexeme;
use em_syntax::{
    AndOr, Assigned, Branch, Case, Command, Compound, For, If, Item, Joined, Loop, Pipeline,
    Redirect, RedirectKind, Script, Simple, Word, WordPiece, texts_of,
};
use em_token::kind::Kind;
use em_token::read::{
    bang, bare, descend, goes_on, in_word, loop_kind, name, newlines, opens, opens_argument,
    opens_command_word, opens_item, opens_list, opens_prefix, opens_redirect, opens_simple,
    opens_word, operator, reserved, separator, sequential, skip, skip_command_word, skip_pattern,
    skip_word,
};
use em_token::stop::{Stop, Why};
use std::alloc::Global;

/// The pieces of a word, and its end.
#[cycle(parser)]
fn word_rest<'a>(
    alloc: Global,
    tokens: &'a [Lexeme],
    left: u32,
) -> Result<(Word, &'a [Lexeme]), Stop<'a>>
    ensures reads { Gives shell left Grammar.word_rest (whats tokens.now)
        (lead_of (λ x. (
          (Tree.word_spelling x.0).pattern ⨾ key Kind.WordEnd,
          whats x.1.now,
        )) fault_of result) }
    ensures shorter { IfOk result (λ x. length x.1.now < length tokens.now) }
{
    let mut nest = Nest::new(alloc);
    let mut rest = tokens;
    while goes_on(rest, nest.is_open()) {
        let behind = word_step(alloc, rest, left, &mut nest)?;
        rest = behind;
    }
    if nest.is_open() {
        return Err(Stop::Fault(Why::Unexpected, rest));
    }
    let last = skip(rest, &[Kind::WordEnd])?;
    let pieces = nest.into_pieces();
    Ok((Word { pieces }, last))
}

/// One piece more, or the begin or end of an argument.
#[cycle(parser)]
fn word_step<'a>(
    alloc: Global,
    tokens: &'a [Lexeme],
    left: u32,
    nest: &mut Nest,
) -> Result<&'a [Lexeme], Stop<'a>>
    requires goes_on { may_go_on (nest_depth nest.old) (whats tokens.now) ≡ true }
    requires counted { IsCounted nest.old }
    ensures moves { IfOk result (λ x. (g : Expr)
        → Moves shell left (Grammar.pieces (nest_depth nest.old) ⨾ g) (whats tokens.now)
        (Grammar.pieces (nest_depth nest.new) ⨾ g) (whats x.now)) }
    ensures spells { IfOk result (λ x. (start : List What)
        → Spells shell (all (nest_parts nest.old)) start (whats tokens.now)
        → Spells shell (all (nest_parts nest.new)) start (whats x.now)) }
    ensures counted { IfOk result (λ x. IsCounted nest.new) }
    ensures err { IfErr result (λ x. (g : Expr)
        → Gives shell left (Grammar.pieces (nest_depth nest.old) ⨾ g) (whats tokens.now)
        (lead_off (fault_of x))) }
    ensures shorter { IfOk result (λ x. length x.now < length tokens.now) }
{
    if opens(tokens, &[Kind::ArgumentStart]) {
        let (begin, rest) = argument_begin(alloc, tokens)?;
        nest.enter(begin)?;
        return Ok(rest);
    }
    if opens(tokens, &[Kind::ArgumentEnd]) {
        let rest = skip(tokens, &[Kind::ArgumentEnd])?;
        nest.leave()?;
        return Ok(rest);
    }
    let (next, rest) = piece(alloc, tokens, left)?;
    nest.add(next)?;
    Ok(rest)
}

#[cycle(parser)]
fn piece<'a>(
    alloc: Global,
    tokens: &'a [Lexeme],
    left: u32,
) -> Result<(WordPiece, &'a [Lexeme]), Stop<'a>>
    ensures reads { Gives shell left Grammar.piece (whats tokens.now)
        (lead_of (λ x. (piece_pattern x.0, whats x.1.now)) fault_of result) }
    ensures stays { IfOk result (λ x. piece_nesting x.0 ≡ Stays) }
    ensures shorter { IfOk result (λ x. length x.1.now < length tokens.now) }
{
    if opens(tokens, &[Kind::Bytes, Kind::Assigning, Kind::Value]) {
        let (simple, rest) = simple_piece(alloc, tokens)?;
        return Ok((simple, rest));
    }
    let (output, rest) = output(alloc, tokens, left)?;
    Ok((output, rest))
}

/// A command substitution.
#[cycle(parser)]
fn output<'a>(
    alloc: Global,
    tokens: &'a [Lexeme],
    left: u32,
) -> Result<(WordPiece, &'a [Lexeme]), Stop<'a>>
    ensures reads { Gives shell left Grammar.output (whats tokens.now)
        (lead_of (λ x. (piece_pattern x.0, whats x.1.now)) fault_of result) }
    ensures stays { IfOk result (λ x. piece_nesting x.0 ≡ Stays) }
    ensures shorter { IfOk result (λ x. length x.1.now < length tokens.now) }
{
    let (quoted, rest) = substitution_begin(tokens, left)?;
    let rest = newlines(rest);
    let (script, rest) = body(alloc, rest, left)?;
    let rest = skip(rest, &[Kind::SubstitutionEnd])?;
    Ok((output_piece(alloc, quoted, script), rest))
}

/// Any word: a reserved word is one here.
#[cycle(parser)]
fn word<'a>(
    alloc: Global,
    tokens: &'a [Lexeme],
    left: u32,
) -> Result<(Word, &'a [Lexeme]), Stop<'a>>
    ensures reads { Gives shell left Grammar.word (whats tokens.now)
        (lead_of (λ x. (Tree.any_word (Tree.word_spelling x.0), whats x.1.now)) fault_of result) }
    ensures shorter { IfOk result (λ x. length x.1.now < length tokens.now) }
{
    let rest = skip_word(tokens)?;
    let (word, rest) = word_rest(alloc, rest, left)?;
    Ok((word, rest))
}

#[cycle(parser)]
fn words<'a>(
    alloc: Global,
    tokens: &'a [Lexeme],
    left: u32,
) -> Result<(Vec<Word>, &'a [Lexeme]), Stop<'a>>
    ensures reads { Gives shell left (many Grammar.word) (whats tokens.now)
        (lead_of (λ x. (
          all (map Tree.any_word (map Tree.word_spelling x.0.items)),
          whats x.1.now,
        )) fault_of result) }
    ensures within { IfOk result (λ x. length x.1.now ≤ length tokens.now) }
{
    let mut words = Vec::new(alloc);
    let mut rest = tokens;
    while opens_word(rest) {
        let (next, behind) = word(alloc, rest, left)?;
        words.push(next)?;
        rest = behind;
    }
    Ok((words, rest))
}

/// What a redirection does, and its target.
#[cycle(parser)]
fn target<'a>(
    alloc: Global,
    tokens: &'a [Lexeme],
    left: u32,
) -> Result<((RedirectKind, Word), &'a [Lexeme]), Stop<'a>>
    ensures reads { Gives shell left Grammar.target (whats tokens.now)
        (lead_of (λ x. (
          Tree.target_spelled x.0.0 (Tree.word_spelling x.0.1),
          whats x.1.now,
        )) fault_of result) }
    ensures shorter { IfOk result (λ x. length x.1.now < length tokens.now) }
{
    if opens(tokens, &[Kind::Less, Kind::Great, Kind::DoubleGreat]) {
        let (kind, rest) = file_operator(tokens)?;
        let (target, rest) = word(alloc, rest, left)?;
        return Ok(((kind, target), rest));
    }
    let (digit, rest) = duplicate(alloc, tokens)?;
    Ok(((RedirectKind::Duplicate, digit), rest))
}

#[cycle(parser)]
fn redirect<'a>(
    alloc: Global,
    tokens: &'a [Lexeme],
    left: u32,
) -> Result<(Redirect, &'a [Lexeme]), Stop<'a>>
    ensures reads { Gives shell left Grammar.redirect (whats tokens.now)
        (lead_of (λ x. (Tree.redirect_pattern x.0, whats x.1.now)) fault_of result) }
    ensures shorter { IfOk result (λ x. length x.1.now < length tokens.now) }
{
    let (number, rest) = number(tokens)?;
    let (found, rest) = target(alloc, rest, left)?;
    let (kind, target) = found;
    Ok((redirection(number, kind, target), rest))
}

#[cycle(parser)]
fn redirects<'a>(
    alloc: Global,
    tokens: &'a [Lexeme],
    left: u32,
) -> Result<(Vec<Redirect>, &'a [Lexeme]), Stop<'a>>
    ensures reads { Gives shell left (many Grammar.redirect) (whats tokens.now)
        (lead_of (λ x. (
          all (map Tree.redirect_pattern x.0.items),
          whats x.1.now,
        )) fault_of result) }
    ensures within { IfOk result (λ x. length x.1.now ≤ length tokens.now) }
{
    let mut redirects = Vec::new(alloc);
    let mut rest = tokens;
    while opens_redirect(rest) {
        let (next, behind) = redirect(alloc, rest, left)?;
        redirects.push(next)?;
        rest = behind;
    }
    Ok((redirects, rest))
}

#[cycle(parser)]
fn assigned<'a>(
    alloc: Global,
    tokens: &'a [Lexeme],
    left: u32,
) -> Result<(Assigned, &'a [Lexeme]), Stop<'a>>
    ensures reads { Gives shell left Grammar.assigned (whats tokens.now)
        (lead_of (λ x. (Tree.assigned_pattern x.0, whats x.1.now)) fault_of result) }
    ensures shorter { IfOk result (λ x. length x.1.now < length tokens.now) }
{
    let rest = skip(tokens, &[Kind::Assignment])?;
    let (name, rest) = assigned_name(alloc, rest)?;
    let (value, rest) = word_rest(alloc, rest, left)?;
    Ok((Assigned { name, value }, rest))
}

/// Adds a word or a redirection.
#[cycle(parser)]
fn argument<'a>(
    alloc: Global,
    tokens: &'a [Lexeme],
    left: u32,
    words: &mut Vec<Word>,
    redirects: &mut Vec<Redirect>,
) -> Result<&'a [Lexeme], Stop<'a>>
    ensures passes { IfOk result (λ x. Passes shell left Grammar.argument (whats tokens.now)
        (whats x.now)) }
    ensures spells { IfOk result (λ x. (start : List What) (assigned : List Expr)
        → 0 < length words.old.items
        → Spells shell (so_far assigned words.old.items redirects.old.items) start
        (whats tokens.now)
        → Spells shell (so_far assigned words.new.items redirects.new.items) start (whats x.now)) }
    ensures some { IfOk result (λ x. 0 < length words.old.items → 0 < length words.new.items) }
    ensures err { IfErr result (λ x. Gives shell left Grammar.argument (whats tokens.now)
        (lead_off (fault_of x))) }
    ensures shorter { IfOk result (λ x. length x.now < length tokens.now) }
{
    if opens_word(tokens) {
        let (next, rest) = word(alloc, tokens, left)?;
        words.push(next)?;
        return Ok(rest);
    }
    let (next, rest) = redirect(alloc, tokens, left)?;
    redirects.push(next)?;
    Ok(rest)
}

/// Adds words and redirections up to the last.
#[cycle(parser)]
fn arguments<'a>(
    alloc: Global,
    tokens: &'a [Lexeme],
    left: u32,
    words: &mut Vec<Word>,
    redirects: &mut Vec<Redirect>,
) -> Result<&'a [Lexeme], Stop<'a>>
    ensures passes { IfOk result (λ x. Passes shell left Grammar.arguments (whats tokens.now)
        (whats x.now)) }
    ensures spells { IfOk result (λ x. (start : List What) (assigned : List Expr)
        → 0 < length words.old.items
        → Spells shell (so_far assigned words.old.items redirects.old.items) start
        (whats tokens.now)
        → Spells shell (so_far assigned words.new.items redirects.new.items) start (whats x.now)) }
    ensures some { IfOk result (λ x. 0 < length words.old.items → 0 < length words.new.items) }
    ensures last { IfOk result (λ x. begins_with shell (whats x.now) word_kinds ≡ false) }
    ensures err { IfErr result (λ x. Gives shell left Grammar.arguments (whats tokens.now)
        (lead_off (fault_of x))) }
    ensures within { IfOk result (λ x. length x.now ≤ length tokens.now) }
{
    let mut rest = tokens;
    while opens_argument(rest) {
        let behind = argument(alloc, rest, left, words, redirects)?;
        rest = behind;
    }
    Ok(rest)
}

/// The simple command whose first word was read.
#[cycle(parser)]
fn with_arguments<'a>(
    alloc: Global,
    tokens: &'a [Lexeme],
    left: u32,
    first: Word,
    assigned: Vec<Assigned>,
    mut redirects: Vec<Redirect>,
) -> Result<(Simple, &'a [Lexeme]), Stop<'a>>
    ensures passes { IfOk result (λ x. Passes shell left Grammar.arguments (whats tokens.now)
        (whats x.1.now)) }
    ensures spells { IfOk result (λ x. (start : List What)
        → begins_with shell start reserved_words ≡ false
        → Spells shell (so_far (map Tree.assigned_pattern assigned.items) (first ∷ [])
        redirects.items) start (whats tokens.now)
        → Spells shell (Tree.simple_pattern x.0) start (whats x.1.now)) }
    ensures err { IfErr result (λ x. Gives shell left Grammar.arguments (whats tokens.now)
        (lead_off (fault_of x))) }
    ensures within { IfOk result (λ x. length x.1.now ≤ length tokens.now) }
{
    let mut words = Vec::new(alloc);
    words.push(first)?;
    let rest = arguments(alloc, tokens, left, &mut words, &mut redirects)?;
    let texts = texts_of(alloc, &words)?;
    Ok((
        Simple {
            assigned,
            words,
            texts,
            redirects,
        },
        rest,
    ))
}

/// A simple command that begins with a name: with `(` behind it that is the name of a function.
#[cycle(parser)]
fn named<'a>(
    alloc: Global,
    tokens: &'a [Lexeme],
    left: u32,
) -> Result<(Simple, &'a [Lexeme]), Stop<'a>>
    ensures reads { Gives shell left Grammar.named (whats tokens.now)
        (lead_of (λ x. (Tree.simple_pattern x.0, whats x.1.now)) fault_of result) }
    ensures shorter { IfOk result (λ x. length x.1.now < length tokens.now) }
{
    let rest = skip(tokens, &[Kind::Name])?;
    let (first, rest) = word_rest(alloc, rest, left)?;
    if opens(rest, &[Kind::LeftParen]) {
        return Err(Stop::Fault(Why::Function, rest));
    }
    let (simple, rest) = with_arguments(
        alloc,
        rest,
        left,
        first,
        Vec::new(alloc),
        Vec::new(alloc),
    )?;
    Ok((simple, rest))
}

#[cycle(parser)]
fn plain<'a>(
    alloc: Global,
    tokens: &'a [Lexeme],
    left: u32,
) -> Result<(Simple, &'a [Lexeme]), Stop<'a>>
    ensures reads { Gives shell left Grammar.plain (whats tokens.now)
        (lead_of (λ x. (Tree.simple_pattern x.0, whats x.1.now)) fault_of result) }
    ensures shorter { IfOk result (λ x. length x.1.now < length tokens.now) }
{
    let rest = skip(tokens, &[Kind::Plain])?;
    let (first, rest) = word_rest(alloc, rest, left)?;
    let (simple, rest) = with_arguments(
        alloc,
        rest,
        left,
        first,
        Vec::new(alloc),
        Vec::new(alloc),
    )?;
    Ok((simple, rest))
}

/// Adds an assignment or a redirection.
#[cycle(parser)]
fn prefix<'a>(
    alloc: Global,
    tokens: &'a [Lexeme],
    left: u32,
    assignments: &mut Vec<Assigned>,
    redirects: &mut Vec<Redirect>,
) -> Result<&'a [Lexeme], Stop<'a>>
    ensures passes { IfOk result (λ x. Passes shell left Grammar.prefix (whats tokens.now)
        (whats x.now)) }
    ensures spells { IfOk result (λ x. (start : List What)
        → Spells shell (so_far (map Tree.assigned_pattern assignments.old.items)
        [] redirects.old.items) start (whats tokens.now)
        → Spells shell (so_far (map Tree.assigned_pattern assignments.new.items)
        [] redirects.new.items) start (whats x.now)) }
    ensures begins { IfOk result (λ x. begins_with shell (whats tokens.now) reserved_words
        ≡ false) }
    ensures err { IfErr result (λ x. Gives shell left Grammar.prefix (whats tokens.now)
        (lead_off (fault_of x))) }
    ensures shorter { IfOk result (λ x. length x.now < length tokens.now) }
{
    if opens(tokens, &[Kind::Assignment]) {
        let (next, rest) = assigned(alloc, tokens, left)?;
        assignments.push(next)?;
        return Ok(rest);
    }
    let (next, rest) = redirect(alloc, tokens, left)?;
    redirects.push(next)?;
    Ok(rest)
}

/// The command behind assignments and redirections, if there is one.
#[cycle(parser)]
fn words_behind<'a>(
    alloc: Global,
    tokens: &'a [Lexeme],
    left: u32,
    assigned: Vec<Assigned>,
    redirects: Vec<Redirect>,
) -> Result<(Simple, &'a [Lexeme]), Stop<'a>>
    requires { begins_with shell (whats tokens.now) (kinds_of (Kind.Assignment ∷ [])) ≡ false }
    ensures passes { IfOk result (λ x. Passes shell left Grammar.words_behind (whats tokens.now)
        (whats x.1.now)) }
    ensures spells { IfOk result (λ x. (start : List What)
        → begins_with shell start reserved_words ≡ false
        → length (whats tokens.now) < length start
        → Spells shell (so_far (map Tree.assigned_pattern assigned.items) [] redirects.items) start
        (whats tokens.now)
        → Spells shell (Tree.simple_pattern x.0) start (whats x.1.now)) }
    ensures err { IfErr result (λ x. Gives shell left Grammar.words_behind (whats tokens.now)
        (lead_off (fault_of x))) }
    ensures within { IfOk result (λ x. length x.1.now ≤ length tokens.now) }
{
    if opens_command_word(tokens) {
        let rest = skip_command_word(tokens)?;
        let (first, rest) = word_rest(alloc, rest, left)?;
        let (simple, rest) = with_arguments(alloc, rest, left, first, assigned, redirects)?;
        return Ok((simple, rest));
    }
    let words = Vec::new(alloc);
    let texts = Vec::new(alloc);
    Ok((
        Simple {
            assigned,
            words,
            texts,
            redirects,
        },
        tokens,
    ))
}

#[cycle(parser)]
fn prefixed<'a>(
    alloc: Global,
    tokens: &'a [Lexeme],
    left: u32,
) -> Result<(Simple, &'a [Lexeme]), Stop<'a>>
    ensures reads { Gives shell left Grammar.prefixed (whats tokens.now)
        (lead_of (λ x. (Tree.simple_pattern x.0, whats x.1.now)) fault_of result) }
    ensures shorter { IfOk result (λ x. length x.1.now < length tokens.now) }
{
    let mut assignments = Vec::new(alloc);
    let mut redirects = Vec::new(alloc);
    let mut rest = prefix(alloc, tokens, left, &mut assignments, &mut redirects)?;
    while opens_prefix(rest) {
        let behind = prefix(alloc, rest, left, &mut assignments, &mut redirects)?;
        rest = behind;
    }
    let (simple, last) = words_behind(alloc, rest, left, assignments, redirects)?;
    Ok((simple, last))
}

#[cycle(parser)]
fn simple<'a>(
    alloc: Global,
    tokens: &'a [Lexeme],
    left: u32,
) -> Result<(Simple, &'a [Lexeme]), Stop<'a>>
    ensures reads { Gives shell left Grammar.simple (whats tokens.now)
        (lead_of (λ x. (Tree.simple_pattern x.0, whats x.1.now)) fault_of result) }
    ensures shorter { IfOk result (λ x. length x.1.now < length tokens.now) }
{
    if opens(tokens, &[Kind::Name]) {
        let (named, rest) = named(alloc, tokens, left)?;
        return Ok((named, rest));
    }
    if opens(tokens, &[Kind::Plain]) {
        let (plain, rest) = plain(alloc, tokens, left)?;
        return Ok((plain, rest));
    }
    let (prefixed, rest) = prefixed(alloc, tokens, left)?;
    Ok((prefixed, rest))
}

/// A list one level deeper, with newlines before it.
#[cycle(parser)]
fn block<'a>(
    alloc: Global,
    tokens: &'a [Lexeme],
    left: u32,
) -> Result<(Script, &'a [Lexeme]), Stop<'a>>
    requires { 0 < left }
    ensures reads { Gives shell left Grammar.block (whats tokens.now)
        (lead_of (λ x. (Tree.block_of (Tree.script_pattern x.0), whats x.1.now)) fault_of result) }
    ensures shorter { IfOk result (λ x. length x.1.now < length tokens.now) }
{
    let rest = newlines(tokens);
    let (script, rest) = list(alloc, rest, left - 1)?;
    Ok((script, rest))
}

/// A list one level deeper, or none.
#[cycle(parser)]
fn body<'a>(
    alloc: Global,
    tokens: &'a [Lexeme],
    left: u32,
) -> Result<(Option<Script>, &'a [Lexeme]), Stop<'a>>
    requires { 0 < left }
    ensures reads { Gives shell left Grammar.body (whats tokens.now)
        (lead_of (λ x. (
          Tree.body_of (option_map Tree.script_pattern x.0),
          whats x.1.now,
        )) fault_of result) }
    ensures within { IfOk result (λ x. length x.1.now ≤ length tokens.now) }
{
    if opens_list(tokens) {
        let (script, rest) = list(alloc, tokens, left - 1)?;
        return Ok((Some(script), rest));
    }
    Ok((None, tokens))
}

#[cycle(parser)]
fn list<'a>(
    alloc: Global,
    tokens: &'a [Lexeme],
    left: u32,
) -> Result<(Script, &'a [Lexeme]), Stop<'a>>
    ensures reads { Gives shell left Grammar.list (whats tokens.now)
        (lead_of (λ x. (Tree.script_pattern x.0, whats x.1.now)) fault_of result) }
    ensures shorter { IfOk result (λ x. length x.1.now < length tokens.now) }
{
    let (first, behind_first) = and_or(alloc, tokens, left)?;
    let mut list = Vec::new(alloc);
    list.push(first)?;
    let mut rest = behind_first;
    while opens(rest, &[Kind::Semicolon, Kind::Newline, Kind::Ampersand]) {
        let after = separator(rest)?;
        if !opens_list(after) {
            return Ok((Script { list }, after));
        }
        let (next, behind) = and_or(alloc, after, left)?;
        list.push(next)?;
        rest = behind;
    }
    Ok((Script { list }, rest))
}

#[cycle(parser)]
fn and_or<'a>(
    alloc: Global,
    tokens: &'a [Lexeme],
    left: u32,
) -> Result<(AndOr, &'a [Lexeme]), Stop<'a>>
    ensures reads { Gives shell left Grammar.and_or (whats tokens.now)
        (lead_of (λ x. (Tree.and_or_pattern x.0, whats x.1.now)) fault_of result) }
    ensures shorter { IfOk result (λ x. length x.1.now < length tokens.now) }
{
    let (first, behind_first) = pipeline(alloc, tokens, left)?;
    let mut joined_on = Vec::new(alloc);
    let mut rest = behind_first;
    while opens(rest, &[Kind::AndIf, Kind::OrIf]) {
        let (next, behind) = joined(alloc, rest, left)?;
        joined_on.push(next)?;
        rest = behind;
    }
    Ok((
        AndOr {
            first,
            rest: joined_on,
        },
        rest,
    ))
}

#[cycle(parser)]
fn joined<'a>(
    alloc: Global,
    tokens: &'a [Lexeme],
    left: u32,
) -> Result<(Joined, &'a [Lexeme]), Stop<'a>>
    ensures reads { Gives shell left Grammar.joined (whats tokens.now)
        (lead_of (λ x. (Tree.joined_pattern x.0, whats x.1.now)) fault_of result) }
    ensures shorter { IfOk result (λ x. length x.1.now < length tokens.now) }
{
    let (and, rest) = operator(tokens)?;
    let rest = newlines(rest);
    let (next, rest) = pipeline(alloc, rest, left)?;
    Ok((Joined { and, next }, rest))
}

#[cycle(parser)]
fn pipeline<'a>(
    alloc: Global,
    tokens: &'a [Lexeme],
    left: u32,
) -> Result<(Pipeline, &'a [Lexeme]), Stop<'a>>
    ensures reads { Gives shell left Grammar.pipeline (whats tokens.now)
        (lead_of (λ x. (Tree.pipeline_pattern x.0, whats x.1.now)) fault_of result) }
    ensures shorter { IfOk result (λ x. length x.1.now < length tokens.now) }
{
    let (not, rest) = bang(tokens)?;
    let (stages, rest) = stages(alloc, rest, left)?;
    Ok((Pipeline { not, stages }, rest))
}

#[cycle(parser)]
fn stages<'a>(
    alloc: Global,
    tokens: &'a [Lexeme],
    left: u32,
) -> Result<(Vec<Command>, &'a [Lexeme]), Stop<'a>>
    ensures reads { Gives shell left Grammar.stages (whats tokens.now)
        (lead_of (λ x. (
          Tree.staged (map Tree.command_pattern x.0.items),
          whats x.1.now,
        )) fault_of result) }
    ensures shorter { IfOk result (λ x. length x.1.now < length tokens.now) }
{
    let (first, behind_first) = command(alloc, tokens, left)?;
    let mut stages = Vec::new(alloc);
    stages.push(first)?;
    let mut rest = behind_first;
    while opens(rest, &[Kind::Pipe]) {
        let (next, behind) = stage(alloc, rest, left)?;
        stages.push(next)?;
        rest = behind;
    }
    Ok((stages, rest))
}

#[cycle(parser)]
fn stage<'a>(
    alloc: Global,
    tokens: &'a [Lexeme],
    left: u32,
) -> Result<(Command, &'a [Lexeme]), Stop<'a>>
    ensures reads { Gives shell left Grammar.stage (whats tokens.now)
        (lead_of (λ x. (
          (key Kind.Pipe ⨾ Grammar.newlines) ⨾ Tree.command_pattern x.0,
          whats x.1.now,
        )) fault_of result) }
    ensures shorter { IfOk result (λ x. length x.1.now < length tokens.now) }
{
    let rest = skip(tokens, &[Kind::Pipe])?;
    let rest = newlines(rest);
    let (next, rest) = command(alloc, rest, left)?;
    Ok((next, rest))
}

#[cycle(parser)]
fn command<'a>(
    alloc: Global,
    tokens: &'a [Lexeme],
    left: u32,
) -> Result<(Command, &'a [Lexeme]), Stop<'a>>
    ensures reads { Gives shell left Grammar.command (whats tokens.now)
        (lead_of (λ x. (Tree.command_pattern x.0, whats x.1.now)) fault_of result) }
    ensures shorter { IfOk result (λ x. length x.1.now < length tokens.now) }
{
    if opens_simple(tokens) {
        let (simple, rest) = simple(alloc, tokens, left)?;
        return Ok((Command::Simple(simple), rest));
    }
    let (compound, rest) = compound(alloc, tokens, left)?;
    let (redirects, rest) = redirects(alloc, rest, left)?;
    Ok((Command::Compound(compound, redirects), rest))
}

#[cycle(parser)]
fn compound<'a>(
    alloc: Global,
    tokens: &'a [Lexeme],
    left: u32,
) -> Result<(Compound, &'a [Lexeme]), Stop<'a>>
    ensures reads { Gives shell left Grammar.compound (whats tokens.now)
        (lead_of (λ x. (Tree.compound_pattern x.0, whats x.1.now)) fault_of result) }
    ensures shorter { IfOk result (λ x. length x.1.now < length tokens.now) }
{
    if opens(tokens, &[Kind::LeftParen]) {
        let (subshell, rest) = subshell(alloc, tokens, left)?;
        return Ok((Compound::Subshell(subshell), rest));
    }
    if opens(tokens, &[Kind::LeftBrace]) {
        let (group, rest) = group(alloc, tokens, left)?;
        return Ok((Compound::Group(group), rest));
    }
    if opens(tokens, &[Kind::If]) {
        let (conditional, rest) = conditional(alloc, tokens, left)?;
        return Ok((Compound::If(conditional), rest));
    }
    if opens(tokens, &[Kind::While]) {
        let (looped, rest) = loop_(alloc, tokens, left, false)?;
        return Ok((Compound::Loop(looped), rest));
    }
    if opens(tokens, &[Kind::Until]) {
        let (looped_until, rest) = loop_(alloc, tokens, left, true)?;
        return Ok((Compound::Loop(looped_until), rest));
    }
    if opens(tokens, &[Kind::For]) {
        let (over, rest) = for_(alloc, tokens, left)?;
        return Ok((Compound::For(over), rest));
    }
    let (choice, rest) = choice(alloc, tokens, left)?;
    Ok((Compound::Case(choice), rest))
}

#[cycle(parser)]
fn subshell<'a>(
    alloc: Global,
    tokens: &'a [Lexeme],
    left: u32,
) -> Result<(Script, &'a [Lexeme]), Stop<'a>>
    ensures reads { Gives shell left Grammar.subshell (whats tokens.now)
        (lead_of (λ x. (
          key Kind.LeftParen ⨾ Tree.block_of (Tree.script_pattern x.0)
              ⨾ key Kind.RightParen,
          whats x.1.now,
        )) fault_of result) }
    ensures shorter { IfOk result (λ x. length x.1.now < length tokens.now) }
{
    let rest = descend(tokens, &[Kind::LeftParen], left)?;
    let (script, rest) = block(alloc, rest, left)?;
    let rest = skip(rest, &[Kind::RightParen])?;
    Ok((script, rest))
}

#[cycle(parser)]
fn group<'a>(
    alloc: Global,
    tokens: &'a [Lexeme],
    left: u32,
) -> Result<(Script, &'a [Lexeme]), Stop<'a>>
    ensures reads { Gives shell left Grammar.group (whats tokens.now)
        (lead_of (λ x. (
          key Kind.LeftBrace ⨾ Grammar.bare ⨾ Tree.block_of (Tree.script_pattern x.0)
              ⨾ Grammar.reserved Kind.RightBrace,
          whats x.1.now,
        )) fault_of result) }
    ensures shorter { IfOk result (λ x. length x.1.now < length tokens.now) }
{
    let rest = descend(tokens, &[Kind::LeftBrace], left)?;
    let rest = bare(rest)?;
    let (script, rest) = block(alloc, rest, left)?;
    let rest = reserved(rest, Kind::RightBrace)?;
    Ok((script, rest))
}

#[cycle(parser)]
fn branch<'a>(
    alloc: Global,
    tokens: &'a [Lexeme],
    left: u32,
) -> Result<(Branch, &'a [Lexeme]), Stop<'a>>
    requires { 0 < left }
    ensures reads { Gives shell left Grammar.branch (whats tokens.now)
        (lead_of (λ x. (Tree.branch_pattern x.0, whats x.1.now)) fault_of result) }
    ensures shorter { IfOk result (λ x. length x.1.now < length tokens.now) }
{
    let (test, rest) = block(alloc, tokens, left)?;
    let rest = reserved(rest, Kind::Then)?;
    let (body, rest) = block(alloc, rest, left)?;
    Ok((Branch { test, body }, rest))
}

#[cycle(parser)]
fn elif_branch<'a>(
    alloc: Global,
    tokens: &'a [Lexeme],
    left: u32,
) -> Result<(Branch, &'a [Lexeme]), Stop<'a>>
    requires { 0 < left }
    ensures reads { Gives shell left Grammar.elif_branch (whats tokens.now)
        (lead_of (λ x. (
          Grammar.reserved Kind.Elif ⨾ Tree.branch_pattern x.0,
          whats x.1.now,
        )) fault_of result) }
    ensures shorter { IfOk result (λ x. length x.1.now < length tokens.now) }
{
    let rest = reserved(tokens, Kind::Elif)?;
    let (branch, rest) = branch(alloc, rest, left)?;
    Ok((branch, rest))
}

#[cycle(parser)]
fn branches<'a>(
    alloc: Global,
    tokens: &'a [Lexeme],
    left: u32,
) -> Result<(Vec<Branch>, &'a [Lexeme]), Stop<'a>>
    requires { 0 < left }
    ensures reads { Gives shell left Grammar.branches (whats tokens.now)
        (lead_of (λ x. (
          Tree.branches_of (map Tree.branch_pattern x.0.items),
          whats x.1.now,
        )) fault_of result) }
    ensures shorter { IfOk result (λ x. length x.1.now < length tokens.now) }
{
    let (first, behind_first) = branch(alloc, tokens, left)?;
    let mut branches = Vec::new(alloc);
    branches.push(first)?;
    let mut rest = behind_first;
    while opens(rest, &[Kind::Elif]) {
        let (next, behind) = elif_branch(alloc, rest, left)?;
        branches.push(next)?;
        rest = behind;
    }
    Ok((branches, rest))
}

#[cycle(parser)]
fn other<'a>(
    alloc: Global,
    tokens: &'a [Lexeme],
    left: u32,
) -> Result<(Option<Script>, &'a [Lexeme]), Stop<'a>>
    requires { 0 < left }
    ensures reads { Gives shell left Grammar.other (whats tokens.now)
        (lead_of (λ x. (
          Tree.else_of (option_map Tree.script_pattern x.0),
          whats x.1.now,
        )) fault_of result) }
    ensures within { IfOk result (λ x. length x.1.now ≤ length tokens.now) }
{
    if opens(tokens, &[Kind::Else]) {
        let rest = reserved(tokens, Kind::Else)?;
        let (script, rest) = block(alloc, rest, left)?;
        return Ok((Some(script), rest));
    }
    Ok((None, tokens))
}

#[cycle(parser)]
fn conditional<'a>(
    alloc: Global,
    tokens: &'a [Lexeme],
    left: u32,
) -> Result<(If, &'a [Lexeme]), Stop<'a>>
    ensures reads { Gives shell left Grammar.conditional (whats tokens.now)
        (lead_of (λ x. (Tree.if_pattern x.0, whats x.1.now)) fault_of result) }
    ensures shorter { IfOk result (λ x. length x.1.now < length tokens.now) }
{
    let rest = descend(tokens, &[Kind::If], left)?;
    let rest = bare(rest)?;
    let (branches, rest) = branches(alloc, rest, left)?;
    let (other, rest) = other(alloc, rest, left)?;
    let rest = reserved(rest, Kind::Fi)?;
    Ok((If { branches, other }, rest))
}

#[cycle(parser)]
fn do_block<'a>(
    alloc: Global,
    tokens: &'a [Lexeme],
    left: u32,
) -> Result<(Script, &'a [Lexeme]), Stop<'a>>
    requires { 0 < left }
    ensures reads { Gives shell left Grammar.do_block (whats tokens.now)
        (lead_of (λ x. (Tree.do_of (Tree.script_pattern x.0), whats x.1.now)) fault_of result) }
    ensures shorter { IfOk result (λ x. length x.1.now < length tokens.now) }
{
    let rest = reserved(tokens, Kind::Do)?;
    let (script, rest) = block(alloc, rest, left)?;
    let rest = reserved(rest, Kind::Done)?;
    Ok((script, rest))
}

#[cycle(parser)]
fn loop_<'a>(
    alloc: Global,
    tokens: &'a [Lexeme],
    left: u32,
    until: bool,
) -> Result<(Loop, &'a [Lexeme]), Stop<'a>>
    ensures reads { Gives shell left (Grammar.loop (cond until Kind.Until Kind.While))
        (whats tokens.now)
        (lead_of (λ x. (Tree.loop_pattern x.0, whats x.1.now)) fault_of result) }
    ensures shorter { IfOk result (λ x. length x.1.now < length tokens.now) }
{
    let rest = descend(tokens, &[loop_kind(until)], left)?;
    let rest = bare(rest)?;
    let (test, rest) = block(alloc, rest, left)?;
    let (body, rest) = do_block(alloc, rest, left)?;
    Ok((Loop { until, test, body }, rest))
}

#[cycle(parser)]
fn for_<'a>(alloc: Global, tokens: &'a [Lexeme], left: u32) -> Result<(For, &'a [Lexeme]), Stop<'a>>
    ensures reads { Gives shell left Grammar.for (whats tokens.now)
        (lead_of (λ x. (Tree.for_pattern x.0, whats x.1.now)) fault_of result) }
    ensures shorter { IfOk result (λ x. length x.1.now < length tokens.now) }
{
    let rest = descend(tokens, &[Kind::For], left)?;
    let rest = bare(rest)?;
    let (name, rest) = name(alloc, rest)?;
    let rest = in_word(rest)?;
    let (words, rest) = words(alloc, rest, left)?;
    let rest = sequential(rest)?;
    let (body, rest) = do_block(alloc, rest, left)?;
    Ok((For { name, words, body }, rest))
}

#[cycle(parser)]
fn choice<'a>(
    alloc: Global,
    tokens: &'a [Lexeme],
    left: u32,
) -> Result<(Case, &'a [Lexeme]), Stop<'a>>
    ensures reads { Gives shell left Grammar.choice (whats tokens.now)
        (lead_of (λ x. (Tree.case_pattern x.0, whats x.1.now)) fault_of result) }
    ensures shorter { IfOk result (λ x. length x.1.now < length tokens.now) }
{
    let rest = descend(tokens, &[Kind::Case], left)?;
    let rest = bare(rest)?;
    let (word, rest) = word(alloc, rest, left)?;
    let rest = reserved(rest, Kind::In)?;
    let rest = newlines(rest);
    let (items, rest) = items(alloc, rest, left)?;
    let rest = reserved(rest, Kind::Esac)?;
    Ok((Case { word, items }, rest))
}

#[cycle(parser)]
fn items<'a>(
    alloc: Global,
    tokens: &'a [Lexeme],
    left: u32,
) -> Result<(Vec<Item>, &'a [Lexeme]), Stop<'a>>
    requires { 0 < left }
    ensures reads { Gives shell left Grammar.items (whats tokens.now)
        (lead_of (λ x. (
          Tree.items_of (map Tree.item_pattern x.0.items),
          whats x.1.now,
        )) fault_of result) }
    ensures within { IfOk result (λ x. length x.1.now ≤ length tokens.now) }
{
    if opens_item(tokens) {
        let (items, rest) = item_row(alloc, tokens, left)?;
        return Ok((items, rest));
    }
    Ok((Vec::new(alloc), tokens))
}

#[cycle(parser)]
fn item_row<'a>(
    alloc: Global,
    tokens: &'a [Lexeme],
    left: u32,
) -> Result<(Vec<Item>, &'a [Lexeme]), Stop<'a>>
    requires { 0 < left }
    ensures reads { Gives shell left (Grammar.item ⨾ more Grammar.item Grammar.item_end)
        (whats tokens.now)
        (lead_of (λ x. (
          Tree.row Grammar.item_end (map Tree.item_pattern x.0.items),
          whats x.1.now,
        )) fault_of result) }
    ensures shorter { IfOk result (λ x. length x.1.now < length tokens.now) }
{
    let (first, behind_first) = item(alloc, tokens, left)?;
    let mut items = Vec::new(alloc);
    items.push(first)?;
    let mut rest = behind_first;
    while opens(rest, &[Kind::CaseEnd]) {
        let after = skip(rest, &[Kind::CaseEnd])?;
        let after = newlines(after);
        if !opens_item(after) {
            return Ok((items, after));
        }
        let (next, behind) = item(alloc, after, left)?;
        items.push(next)?;
        rest = behind;
    }
    Ok((items, rest))
}

#[cycle(parser)]
fn item<'a>(
    alloc: Global,
    tokens: &'a [Lexeme],
    left: u32,
) -> Result<(Item, &'a [Lexeme]), Stop<'a>>
    requires { 0 < left }
    ensures reads { Gives shell left Grammar.item (whats tokens.now)
        (lead_of (λ x. (Tree.item_pattern x.0, whats x.1.now)) fault_of result) }
    ensures shorter { IfOk result (λ x. length x.1.now < length tokens.now) }
{
    let (patterns, rest) = patterns(alloc, tokens, left)?;
    let rest = skip(rest, &[Kind::RightParen])?;
    let rest = newlines(rest);
    let (body, rest) = body(alloc, rest, left)?;
    Ok((Item { patterns, body }, rest))
}

#[cycle(parser)]
fn patterns<'a>(
    alloc: Global,
    tokens: &'a [Lexeme],
    left: u32,
) -> Result<(Vec<Word>, &'a [Lexeme]), Stop<'a>>
    ensures reads { Gives shell left Grammar.patterns (whats tokens.now)
        (lead_of (λ x. (
          Tree.patterns_of (map Tree.word_spelling x.0.items),
          whats x.1.now,
        )) fault_of result) }
    ensures shorter { IfOk result (λ x. length x.1.now < length tokens.now) }
{
    let (first, behind_first) = first_pattern(alloc, tokens, left)?;
    let mut patterns = Vec::new(alloc);
    patterns.push(first)?;
    let mut rest = behind_first;
    while opens(rest, &[Kind::Pipe]) {
        let (next, behind) = pattern_behind(alloc, rest, left)?;
        patterns.push(next)?;
        rest = behind;
    }
    Ok((patterns, rest))
}

#[cycle(parser)]
fn first_pattern<'a>(
    alloc: Global,
    tokens: &'a [Lexeme],
    left: u32,
) -> Result<(Word, &'a [Lexeme]), Stop<'a>>
    ensures reads { Gives shell left Grammar.first_pattern (whats tokens.now)
        (lead_of (λ x. (
          Tree.first_pattern_of (Tree.word_spelling x.0),
          whats x.1.now,
        )) fault_of result) }
    ensures shorter { IfOk result (λ x. length x.1.now < length tokens.now) }
{
    if opens(tokens, &[Kind::LeftParen]) {
        let rest = skip(tokens, &[Kind::LeftParen])?;
        let (pattern, rest) = word(alloc, rest, left)?;
        return Ok((pattern, rest));
    }
    let rest = skip_pattern(tokens)?;
    let (pattern, rest) = word_rest(alloc, rest, left)?;
    Ok((pattern, rest))
}

#[cycle(parser)]
fn pattern_behind<'a>(
    alloc: Global,
    tokens: &'a [Lexeme],
    left: u32,
) -> Result<(Word, &'a [Lexeme]), Stop<'a>>
    ensures reads { Gives shell left Grammar.pattern_more (whats tokens.now)
        (lead_of (λ x. (
          Tree.pattern_behind (Tree.word_spelling x.0),
          whats x.1.now,
        )) fault_of result) }
    ensures shorter { IfOk result (λ x. length x.1.now < length tokens.now) }
{
    let rest = skip(tokens, &[Kind::Pipe])?;
    let rest = newlines(rest);
    let (pattern, rest) = word(alloc, rest, left)?;
    Ok((pattern, rest))
}

/// A whole line, up to what can't belong to it.
pub fn line<'a>(alloc: Global, tokens: &'a [Lexeme]) -> Result<(Script, &'a [Lexeme]), Stop<'a>>
    ensures { Gives shell 64 Grammar.line (whats tokens.now)
        (lead_of (λ x. (
          Grammar.newlines ⨾ Tree.body_pattern x.0,
          whats x.1.now,
        )) fault_of result) }
{
    let rest = newlines(tokens);
    if opens_list(rest) {
        let (script, rest) = list(alloc, rest, 64)?;
        return Ok((script, rest));
    }
    Ok((no_commands(alloc), rest))
}
