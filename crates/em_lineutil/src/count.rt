//! `wc`: how many lines, words and bytes there are.
ghost use Rattle.std.specs.Prelude.{◌≡◌, ◌++◌, map, IfOk, OnOk};
ghost use Rattle.std.specs.Option.{option_to_list};
ghost use Rattle.em_lineutil.specs.Lines as lines;
ghost use Rattle.em_lineutil.specs.Lines.{counts, is_space, if_asked};

use em_base::{NoMemory, Text};
use em_wordlist::join_texts;
use itoa::Buffer;
use std::alloc::Global;

/// Which counts are asked for.
#[derive(Clone, Copy, Debug, PartialEq, Eq)]
pub struct Asked {
    /// How many newlines there are.
    pub lines: bool,
    /// How many words, which stand between spaces, tabs and newlines.
    pub words: bool,
    pub bytes: bool,
}

fn line_count(text: &[u8]) -> usize
    ensures { result ≡ lines.line_count text.now }
{
    text.iter().filter(|b| **b == b'\n').count()
}

fn is_space(byte: u8) -> bool
    ensures { result ≡ is_space byte }
{
    byte == b' ' || byte == b'\t' || byte == b'\n'
}

fn word_count(text: &[u8]) -> usize
    ensures { result ≡ lines.word_count text.now }
{
    text.split(|b| is_space(*b))
        .filter(|word| !word.is_empty())
        .count()
}

fn push_if(words: &mut Vec<Text>, alloc: Global, asked: bool, n: usize) -> Result<(), NoMemory>
    ensures { OnOk result (words.new.items ≡ words.old.items ++ if_asked asked n) }
{
    if asked {
        words.push(Text::from_slice(alloc, Buffer::new().format(n).as_bytes())?)?;
    }
    Ok(())
}

fn counts(alloc: Global, asked: &Asked, text: &[u8]) -> Result<Vec<Text>, NoMemory>
    ensures { IfOk result (λ v. v.items ≡ counts asked.now text.now) }
{
    let mut words = Vec::new(alloc);
    push_if(&mut words, alloc, asked.lines, line_count(text))?;
    push_if(&mut words, alloc, asked.words, word_count(text))?;
    push_if(&mut words, alloc, asked.bytes, text.len())?;
    Ok(words)
}

fn push_name(words: &mut Vec<Text>, name: Option<Text>) -> Result<(), NoMemory>
    ensures { OnOk result (words.new.items ≡ words.old.items ++ option_to_list name) }
{
    if let Some(name) = name {
        words.push(name)?;
    }
    Ok(())
}

/// The counts that are asked for and then the name, if there is one, with a space between each two
/// and a newline behind. A step for each byte and count.
#[tactic(auto, unfolding(crate::specs::Lines::count_line))]
pub fn count_line(
    alloc: Global,
    asked: &Asked,
    text: &[u8],
    name: Option<Text>,
) -> Result<Text, NoMemory>
    ensures { IfOk result (λ t. t ≡ lines.count_line asked.now text.now (option_to_list name)) }
{
    let mut words = counts(alloc, asked, text)?;
    push_name(&mut words, name)?;
    let mut line = join_texts(alloc, &words)?;
    line.add(b"\n")?;
    Ok(line)
}
