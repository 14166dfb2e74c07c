//! What the words of a utility ask for.
ghost use Rattle.std.specs.Prelude.{◌≡◌, false, IfOk};
ghost use Rattle.em_view.specs.Performs.{is_free};
ghost use Rattle.em_view.specs.Ends.{is_want};
ghost use Rattle.em_textutil.specs.Plans as plans;
ghost use Rattle.em_textutil.specs.Plans.{at_most_one, by_number, asked_of, pair_plan, grep_plan, files_of, given_options, is_silent};

use crate::job::{Filter, Grep, TextOperation};
use crate::name::{InputUtility, letters_of, name_of, valued_of};
use em_base::{Construct, NoMemory, Text, number};
use em_lineutil::{Asked, Order, Search};
use em_utility::{Options, Reason, read_options};
use em_view::ExecNo;
use std::alloc::Global;

/// What the words of a utility ask for.
#[derive(Debug, Drop, PartialEq, Eq)]
pub enum ParsedArgs {
    /// The operands are read, and then this is done.
    Read(TextOperation),
    /// They are written wrongly: the word that is wrong, which may be empty, and why.
    Wrong(Text, Reason),
}

/// At most one file is read.
fn at_most_one(alloc: Global, filter: Filter, operands: &[Text]) -> ParsedArgs
    ensures { result ≡ at_most_one filter operands.now }
{
    if operands.len() > 1 {
        ParsedArgs::Wrong(Text::new(alloc), Reason::ExtraOperand)
    } else {
        ParsedArgs::Read(TextOperation::Each(filter))
    }
}

fn lines_of(tail: bool, n: u64) -> Filter
    ensures { result ≡ plans.lines_of tail n }
{
    if tail {
        Filter::Tail(n)
    } else {
        Filter::Head(n)
    }
}

fn by_number(
    alloc: Global,
    tail: bool,
    word: &Text,
    operands: &[Text],
) -> Result<ParsedArgs, NoMemory>
    ensures { IfOk result
        (λ p. p ≡ by_number (plans.count_of word.now) tail word.now operands.now) }
{
    match number(u64::MAX, word.bytes()) {
        Some(n) => Ok(at_most_one(alloc, lines_of(tail, n), operands)),
        None => Ok(ParsedArgs::Wrong(word.copy(alloc)?, Reason::NotANumber)),
    }
}

/// The first or the last lines of a file; how many is the value of `-n`, or 10.
fn counted_plan(
    alloc: Global,
    options: &Options,
    tail: bool,
    operands: &[Text],
) -> Result<ParsedArgs, NoMemory>
    ensures { IfOk result (λ p. p ≡ plans.counted_plan options.now tail operands.now) }
{
    if options.lacks {
        return Ok(ParsedArgs::Wrong(Text::new(alloc), Reason::MissingOperand));
    }
    match &options.value {
        Some(word) => by_number(alloc, tail, word, operands),
        None => Ok(at_most_one(alloc, lines_of(tail, 10), operands)),
    }
}

fn asked_of(options: &Options) -> Asked
    ensures { result ≡ asked_of options.now }
{
    if options.letters.bytes().is_empty() {
        Asked {
            lines: true,
            words: true,
            bytes: true,
        }
    } else {
        Asked {
            lines: options.has(b'l'),
            words: options.has(b'w'),
            bytes: options.has(b'c'),
        }
    }
}

fn pair_plan(alloc: Global, options: &Options, operands: &[Text]) -> ParsedArgs
    ensures { result ≡ pair_plan options.now operands.now }
{
    if operands.len() < 2 {
        ParsedArgs::Wrong(Text::new(alloc), Reason::MissingOperand)
    } else if operands.len() > 2 {
        ParsedArgs::Wrong(Text::new(alloc), Reason::ExtraOperand)
    } else {
        ParsedArgs::Read(TextOperation::Pair(options.has(b's')))
    }
}

fn grep_plan(alloc: Global, options: &Options, operands: &[Text]) -> Result<ParsedArgs, NoMemory>
    ensures { IfOk result (λ p. p ≡ grep_plan options.now operands.now) }
{
    match operands.split_first() {
        None => Ok(ParsedArgs::Wrong(Text::new(alloc), Reason::MissingOperand)),
        Some((pattern, files)) => Ok(ParsedArgs::Read(TextOperation::Grep(Grep {
            search: Search {
                whole: options.has(b'x'),
                inverted: options.has(b'v'),
            },
            counted: options.has(b'c'),
            quiet: options.has(b'q'),
            several: files.len() > 1,
            pattern: pattern.copy(alloc)?,
        }))),
    }
}

/// `grep`, by its name.
fn grep_refused(alloc: Global) -> Result<Construct, NoMemory>
    ensures { IfOk result (λ c. c ≡ plans.grep_refused) }
{
    Ok(Construct::Command(Text::from_slice(alloc, b"grep")?))
}

/// What the operands ask for, with these options.
pub(crate) fn planned(
    alloc: Global,
    reading: InputUtility,
    options: &Options,
    operands: &[Text],
) -> Result<ParsedArgs, ExecNo>
    ensures { is_free is_want result ≡ false → result
        ≡ plans.planned reading options.now operands.now }
{
    match reading {
        InputUtility::Cat => Ok(ParsedArgs::Read(TextOperation::Each(Filter::Cat))),
        InputUtility::Head => Ok(counted_plan(alloc, options, false, operands)?),
        InputUtility::Tail => Ok(counted_plan(alloc, options, true, operands)?),
        InputUtility::Wc => Ok(at_most_one(alloc, Filter::Count(asked_of(options)), operands)),
        InputUtility::Sort => Ok(ParsedArgs::Read(TextOperation::Sort(Order {
            backwards: options.has(b'r'),
            unique: options.has(b'u'),
        }))),
        InputUtility::Uniq => Ok(at_most_one(alloc, Filter::Uniq(options.has(b'c')), operands)),
        InputUtility::Cmp => Ok(pair_plan(alloc, options, operands)),
        InputUtility::Grep => {
            if options.has(b'F') {
                Ok(grep_plan(alloc, options, operands)?)
            } else {
                Err(ExecNo::Refused(grep_refused(alloc)?))
            }
        }
    }
}

/// The options of the utility's words.
pub(crate) fn given_options(
    alloc: Global,
    reading: InputUtility,
    words: &[Text],
) -> Result<Options, ExecNo>
    ensures { is_free is_want result ≡ false → result ≡ given_options reading words.now }
{
    read_options(
        alloc,
        name_of(reading),
        letters_of(reading),
        valued_of(reading),
        words,
    )
}

/// The files among the operands.
pub(crate) fn files_of<'a>(job: &TextOperation, operands: &'a [Text]) -> &'a [Text]
    ensures { result.now ≡ files_of job.now operands.now }
{
    match job {
        TextOperation::Grep(_) => operands.get(1..).unwrap_or(&[]),
        _ => operands,
    }
}

/// Whether not even what is wrong is written.
pub(crate) fn is_silent(reading: InputUtility, options: &Options) -> bool
    ensures { result ≡ is_silent reading options.now }
{
    match reading {
        InputUtility::Cmp => options.has(b's'),
        _ => false,
    }
}
