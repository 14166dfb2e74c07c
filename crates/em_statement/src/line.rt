//! The statement of a line.
ghost use Rattle.std.specs.Prelude.{◌≡◌, IfOk};
ghost use Rattle.em_statement.specs.Statements as statements;
ghost use Rattle.em_lines.specs.Comments as comments;
ghost use Rattle.em_statement.specs.Statements.{statement_of, rule_of, recipe_start};

use crate::assignment::sign_of;
use crate::directive::{assignment_line, conditional, directive, keyword_in, modifiers};
use crate::head::behind_colon;
use crate::shape::shape;
use crate::split::{after_word, before, behind, is_empty, place_of};
use crate::statement::{RuleLine, Statement};
use em_base::{NoMemory, Text};
use em_lines::{bare, comment_start};
use std::alloc::Global;

/// Whether an operator stands behind the rule's colon, which may be `::`, in front of any other.
fn assigns(shape: &[u8]) -> bool
    ensures { result ≡ statements.assigns shape.now }
{
    match place_of(b':', shape) {
        None => false,
        Some(at) => sign_of(behind_colon(behind(at, shape))).is_some(),
    }
}

/// A text without its comment.
fn bared(alloc: Global, text: &[u8]) -> Result<Text, NoMemory>
    ensures { IfOk result (λ t. t ≡ comments.bare text.now) }
{
    bare(alloc, Text::from_slice(alloc, text)?)
}

/// The rule with this head and recipe.
fn rule_of(alloc: Global, head: Text, recipe: Option<Text>) -> Result<RuleLine, NoMemory>
    ensures { IfOk result (λ r. r ≡ rule_of head recipe) }
{
    let shaped = shape(alloc, head.bytes())?;
    let assigns = assigns(shaped.bytes());
    Ok(RuleLine {
        head,
        assigns,
        recipe,
    })
}

/// The place of the `;` that begins the recipe.
fn recipe_start(shape: &[u8]) -> Option<usize>
    ensures { result ≡ recipe_start shape.now }
{
    let at = place_of(b';', shape)?;
    if at < comment_start(shape) {
        Some(at)
    } else {
        None
    }
}

/// The line as that of a rule.
#[tactic(auto, unfolding(crate::specs::Statements::rule_line))]
fn rule_line(alloc: Global, line: &[u8]) -> Result<RuleLine, NoMemory>
    ensures { IfOk result (λ r. r ≡ statements.rule_line line.now) }
{
    let shaped = shape(alloc, line)?;
    match recipe_start(shaped.bytes()) {
        None => rule_of(alloc, bared(alloc, line)?, None),
        Some(at) => {
            let recipe = Text::from_slice(alloc, behind(at, line))?;
            rule_of(alloc, bared(alloc, before(at, line))?, Some(recipe))
        }
    }
}

/// The conditional, the directive or the assignment that the text without its comment is.
fn by_first_word(alloc: Global, text: &[u8]) -> Result<Option<Statement>, NoMemory>
    ensures { IfOk result (λ s. s ≡ statements.by_first_word text.now) }
{
    match conditional(alloc, keyword_in(text), after_word(text))? {
        Some(statement) => Ok(Some(statement)),
        None => directive(alloc, text),
    }
}

/// What a logical line is that stands outside recipes, with its comment. The tests come in this
/// order: nothing but blanks, a conditional, a directive by its first word, an assignment, a rule.
/// Nothing is expanded. Steps for each byte; a byte of the line is copied at most six times.
#[tactic(auto, unfolding(crate::specs::Statements::statement_of))]
pub fn read_statement(alloc: Global, line: &[u8]) -> Result<Statement, NoMemory>
    ensures { IfOk result (λ s. s ≡ statement_of line.now) }
{
    let text = bared(alloc, line)?;
    if is_empty(text.bytes()) {
        return Ok(Statement::Blank);
    }
    if let Some(statement) = by_first_word(alloc, text.bytes())? {
        return Ok(statement);
    }
    if let Some(statement) = assignment_line(alloc, modifiers(false, false), text.bytes())? {
        return Ok(statement);
    }
    Ok(Statement::Rule(rule_line(alloc, line)?))
}
