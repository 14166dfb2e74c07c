//! Conditionals and directives.
ghost use Rattle.std.specs.Prelude.{◌≡◌, IfOk};
ghost use Rattle.em_statement.specs.Statements as statements;
ghost use Rattle.em_statement.specs.Statements.{keyword_in, conditional_by, directive_of, directive_behind};

use crate::assignment::{Assignment, Modifiers, Operator, read_assignment};
use crate::condition::read_condition;
use crate::keyword::{Keyword, find_keyword};
use crate::split::{after_word, first_word, is_empty};
use crate::statement::{Include, Statement, Undefine};
use em_base::{NoMemory, Text, trim};
use std::alloc::Global;

/// The keyword with which the text begins.
pub(crate) fn keyword_in(text: &[u8]) -> Option<Keyword>
    ensures { result ≡ keyword_in text.now }
{
    find_keyword(first_word(text))
}

/// `else`, with what stands behind it.
fn else_line(alloc: Global, text: &[u8]) -> Result<Statement, NoMemory>
    ensures { IfOk result (λ s. s ≡ statements.else_line text.now) }
{
    if is_empty(text) {
        return Ok(Statement::Else);
    }
    match read_condition(alloc, keyword_in(text), after_word(text))? {
        Some(condition) => Ok(Statement::ElseIf(condition)),
        None => Ok(Statement::Extraneous),
    }
}

/// `endif`, with what stands behind it.
fn endif_line(text: &[u8]) -> Statement
    ensures { result ≡ statements.endif_line text.now }
{
    if is_empty(text) {
        Statement::Endif
    } else {
        Statement::Extraneous
    }
}

/// `else` and `endif`.
fn other_conditional(
    alloc: Global,
    keyword: Option<Keyword>,
    text: &[u8],
) -> Result<Option<Statement>, NoMemory>
    ensures { IfOk result (λ s. s ≡ statements.other_conditional keyword text.now) }
{
    Ok(match keyword {
        Some(Keyword::Else) => Some(else_line(alloc, text)?),
        Some(Keyword::Endif) => Some(endif_line(text)),
        _ => None,
    })
}

/// The conditional that begins with this keyword, if one does.
#[tactic(auto, unfolding(crate::specs::Statements::conditional_by))]
pub(crate) fn conditional(
    alloc: Global,
    keyword: Option<Keyword>,
    text: &[u8],
) -> Result<Option<Statement>, NoMemory>
    ensures { IfOk result (λ s. s ≡ conditional_by keyword text.now) }
{
    match read_condition(alloc, keyword, text)? {
        Some(condition) => Ok(Some(Statement::If(condition))),
        None => other_conditional(alloc, keyword, text),
    }
}

/// These modifiers.
pub(crate) fn modifiers(overriding: bool, exported: bool) -> Modifiers
    ensures { result ≡ statements.modifiers overriding exported }
{
    Modifiers {
        overriding,
        exported,
    }
}

/// `override` and what stands behind it, which may be `export`.
fn behind_override(text: &[u8]) -> (Modifiers, &[u8])
    ensures { (result.0, result.1.now) ≡ statements.behind_override (keyword_in text.now) text.now }
{
    match keyword_in(text) {
        Some(Keyword::Export) => (modifiers(true, true), after_word(text)),
        _ => (modifiers(true, false), text),
    }
}

/// `export` and what stands behind it, which may be `override`.
fn behind_export(text: &[u8]) -> (Modifiers, &[u8])
    ensures { (result.0, result.1.now) ≡ statements.behind_export (keyword_in text.now) text.now }
{
    match keyword_in(text) {
        Some(Keyword::Override) => (modifiers(true, true), after_word(text)),
        _ => (modifiers(false, true), text),
    }
}

/// The modifiers with which the text begins, and what stands behind them.
fn modified(text: &[u8]) -> (Modifiers, &[u8])
    ensures { (result.0, result.1.now) ≡ statements.modified text.now }
{
    match keyword_in(text) {
        Some(Keyword::Override) => behind_override(after_word(text)),
        Some(Keyword::Export) => behind_export(after_word(text)),
        _ => (modifiers(false, false), text),
    }
}

/// `define`, with what stands behind it.
fn define_line(alloc: Global, modifiers: Modifiers, text: &[u8]) -> Result<Statement, NoMemory>
    ensures { IfOk result (λ s. s ≡ statements.define_line modifiers text.now) }
{
    match read_assignment(alloc, modifiers, text)? {
        Some(assignment) => {
            if is_empty(assignment.value.bytes()) {
                Ok(Statement::Define(assignment))
            } else {
                Ok(Statement::Stray)
            }
        }
        None => Ok(Statement::Define(Assignment {
            modifiers,
            name: Text::from_slice(alloc, trim(text))?,
            operator: Operator::Recursive,
            value: Text::new(alloc),
        })),
    }
}

/// The assignment that the text is, without the words in front of it.
pub(crate) fn assignment_line(
    alloc: Global,
    modifiers: Modifiers,
    text: &[u8],
) -> Result<Option<Statement>, NoMemory>
    ensures { IfOk result (λ s. s ≡ statements.assignment_line modifiers text.now) }
{
    match read_assignment(alloc, modifiers, text)? {
        Some(assignment) => Ok(Some(Statement::Assign(assignment))),
        None => Ok(None),
    }
}

/// `undefine`, with what stands behind it.
fn undefine(alloc: Global, modifiers: Modifiers, text: &[u8]) -> Result<Statement, NoMemory>
    ensures { IfOk result (λ s. s ≡ statements.undefine modifiers text.now) }
{
    let overriding = modifiers.overriding;
    let name = Text::from_slice(alloc, trim(text))?;
    Ok(Statement::Undefine(Undefine { overriding, name }))
}

/// What modifiers are put before: `define`, `undefine` and, where there are modifiers, an
/// assignment.
#[tactic(auto, unfolding(crate::specs::Statements::directive_behind))]
fn with_modifiers(
    alloc: Global,
    modifiers: Modifiers,
    text: &[u8],
) -> Result<Option<Statement>, NoMemory>
    ensures { IfOk result (λ s. s ≡ directive_behind modifiers text.now) }
{
    match keyword_in(text) {
        Some(Keyword::Define) => Ok(Some(define_line(alloc, modifiers, after_word(text))?)),
        Some(Keyword::Undefine) => Ok(Some(undefine(alloc, modifiers, after_word(text))?)),
        _ => {
            if modifiers.overriding || modifiers.exported {
                assignment_line(alloc, modifiers, text)
            } else {
                Ok(None)
            }
        }
    }
}

/// `include` and its kin.
fn include(alloc: Global, required: bool, text: &[u8]) -> Result<Statement, NoMemory>
    ensures { IfOk result (λ s. s ≡ statements.include required text.now) }
{
    let names = Text::from_slice(alloc, text)?;
    Ok(Statement::Include(Include { required, names }))
}

/// `export` and names.
fn export_line(alloc: Global, text: &[u8]) -> Result<Statement, NoMemory>
    ensures { IfOk result (λ s. s ≡ statements.export_line text.now) }
{
    if is_empty(text) {
        Ok(Statement::Unsupported(Text::from_slice(alloc, b"export")?))
    } else {
        Ok(Statement::Export(Text::from_slice(alloc, text)?))
    }
}

/// `unexport` and names.
fn unexport_line(alloc: Global, text: &[u8]) -> Result<Statement, NoMemory>
    ensures { IfOk result (λ s. s ≡ statements.unexport_line text.now) }
{
    if is_empty(text) {
        Ok(Statement::Unsupported(Text::from_slice(alloc, b"unexport")?))
    } else {
        Ok(Statement::Unexport(Text::from_slice(alloc, text)?))
    }
}

/// The other directives, which have no modifiers.
fn other_directive(alloc: Global, text: &[u8]) -> Result<Option<Statement>, NoMemory>
    ensures { IfOk result (λ s. s ≡ statements.other_directive (keyword_in text.now) text.now) }
{
    let rest = after_word(text);
    Ok(match keyword_in(text) {
        Some(Keyword::Include) => Some(include(alloc, true, rest)?),
        Some(Keyword::TryInclude) => Some(include(alloc, false, rest)?),
        Some(Keyword::Export) => Some(export_line(alloc, rest)?),
        Some(Keyword::Unexport) => Some(unexport_line(alloc, rest)?),
        Some(Keyword::Override) => Some(Statement::Stray),
        Some(Keyword::Endef) => Some(Statement::Stray),
        Some(Keyword::Refused) => {
            let word = Text::from_slice(alloc, first_word(text))?;
            Some(Statement::Unsupported(word))
        }
        _ => None,
    })
}

/// The directive that the text is, by its first word.
#[tactic(auto, unfolding(crate::specs::Statements::directive_of))]
pub(crate) fn directive(alloc: Global, text: &[u8]) -> Result<Option<Statement>, NoMemory>
    ensures { IfOk result (λ s. s ≡ directive_of text.now) }
{
    let (modifiers, rest) = modified(text);
    match with_modifiers(alloc, modifiers, rest)? {
        Some(statement) => Ok(Some(statement)),
        None => other_directive(alloc, text),
    }
}
