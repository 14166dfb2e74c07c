//! The lines of a `define`.
ghost use Rattle.std.specs.Prelude.{◌≡◌, [], unwrap_or, IfOk};
ghost use Rattle.em_reading.specs.Changes as changes;
ghost use Rattle.em_reading.specs.Changes.{body_after, ends_body, is_define, is_endef, joined_to, line_start, with_body_line};

use crate::reading::OpenDefine;
use em_base::{NoMemory, Text};
use em_lines::{Line, bare};
use em_statement::{Assignment, first_word};
use std::alloc::Global;

/// Whether the line isn't of a recipe, and its first word is this one.
fn starts_with_word(alloc: Global, word: &[u8], line: &Line) -> Result<bool, NoMemory>
    ensures { IfOk result (λ b. b ≡ changes.starts_with_word word.now line.now) }
{
    if line.tab {
        return Ok(false);
    }
    let text = bare(alloc, line.text.copy(alloc)?)?;
    Ok(first_word(text.bytes()) == word)
}

fn is_define(alloc: Global, line: &Line) -> Result<bool, NoMemory>
    ensures { IfOk result (λ b. b ≡ is_define line.now) }
{
    starts_with_word(alloc, b"define", line)
}

fn is_endef(alloc: Global, line: &Line) -> Result<bool, NoMemory>
    ensures { IfOk result (λ b. b ≡ is_endef line.now) }
{
    starts_with_word(alloc, b"endef", line)
}

/// Appends the line to the body, with the tab that it began with.
fn with_body_line(alloc: Global, body: OpenDefine, line: &Line) -> Result<OpenDefine, NoMemory>
    ensures { IfOk result (λ b. b ≡ with_body_line body line.now) }
{
    let OpenDefine {
        place,
        assignment,
        nested,
        text,
    } = body;
    let text = Some(joined_to(alloc, text, line)?);
    Ok(OpenDefine {
        place,
        assignment,
        nested,
        text,
    })
}

/// The text with the line behind it.
fn joined_to(alloc: Global, text: Option<Text>, line: &Line) -> Result<Text, NoMemory>
    ensures { IfOk result (λ t. t ≡ joined_to text (changes.body_text line.now)) }
{
    let mut joined = line_start(alloc, text)?;
    if line.tab {
        joined.add(b"\t")?;
    }
    joined.add(line.text.bytes())?;
    Ok(joined)
}

/// The text with a newline behind it, or an empty one.
fn line_start(alloc: Global, text: Option<Text>) -> Result<Text, NoMemory>
    ensures { IfOk result (λ t. t ≡ line_start text) }
{
    match text {
        None => Ok(Text::new(alloc)),
        Some(mut text) => {
            text.add(b"\n")?;
            Ok(text)
        }
    }
}

impl OpenDefine {
    /// Whether this line ends the body.
    pub fn ends(&self, alloc: Global, line: &Line) -> Result<bool, NoMemory>
        ensures { IfOk result (λ b. b ≡ ends_body self.now line.now) }
    {
        Ok(is_endef(alloc, line)? && self.nested == 0)
    }

    /// The body with one line more. A `define` in it has an `endef` of its own.
    pub fn with_line(self, alloc: Global, line: &Line) -> Result<OpenDefine, NoMemory>
        ensures { IfOk result (λ b. b ≡ body_after self line.now) }
    {
        let OpenDefine {
            place,
            assignment,
            nested,
            text,
        } = self;
        let nested = if is_define(alloc, line)? {
            nested.saturating_add(1)
        } else if is_endef(alloc, line)? {
            nested.saturating_sub(1)
        } else {
            nested
        };
        let body = OpenDefine {
            place,
            assignment,
            nested,
            text,
        };
        with_body_line(alloc, body, line)
    }
}

/// The assignment that the whole `define` is.
pub fn whole(alloc: Global, assignment: Assignment, text: Option<Text>) -> Assignment
    ensures { result ≡ record assignment { value = unwrap_or text [] } }
{
    let Assignment {
        modifiers,
        name,
        operator,
        value: _,
    } = assignment;
    let value = match text {
        Some(text) => text,
        None => Text::new(alloc),
    };
    Assignment {
        modifiers,
        name,
        operator,
        value,
    }
}
