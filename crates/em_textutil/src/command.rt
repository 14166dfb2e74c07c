//! A text utility by its name.
ghost use Rattle.std.specs.Prelude.{◌≡◌, IfOk};
ghost use Rattle.em_view.specs.Performs.{Performs};
ghost use Rattle.em_view.specs.Ends.{is_want};
ghost use Rattle.em_textutil.specs.Jobs as jobs;
ghost use Rattle.em_textutil.specs.Utilities as utilities;
ghost use Rattle.em_textutil.specs.Utilities.{carried, wrong_done, with_options, reads, run, run_by};

use crate::bracket::bracketed;
use crate::expression::test_words;
use crate::gather::read_all;
use crate::grep::grep_done;
use crate::job::TextOperation;
use crate::name::{InputUtility, TextUtility, is_dashed, name_of, utility_of};
use crate::pair::{compare_done, muted};
use crate::plain::plain_done;
use crate::plan::{ParsedArgs, files_of, given_options, is_silent, planned};
use crate::source::ReadOperand;
use crate::texts::{each_done, sort_done};
use em_base::{NoMemory, Text};
use em_path::Path;
use em_utility::{Options, Reason, begun, fail};
use em_view::{Desk, Done, ExecNo, View};
use std::alloc::Global;

/// What the job writes of what was read.
#[tactic(auto, unfolding(crate::specs::Jobs::job_done))]
fn job_done(
    alloc: Global,
    utility: &[u8],
    job: &TextOperation,
    sources: &[ReadOperand],
) -> Result<Done, NoMemory>
    ensures { IfOk result (λ d. d ≡ jobs.job_done utility.now job.now sources.now) }
{
    match job {
        TextOperation::Each(filter) => each_done(alloc, utility, filter, sources),
        TextOperation::Sort(order) => sort_done(alloc, utility, order, sources),
        TextOperation::Pair(silent) => compare_done(alloc, *silent, sources),
        TextOperation::Grep(grep) => grep_done(alloc, grep, sources),
    }
}

/// What a utility leaves whose words are written wrongly.
fn wrong_done(
    alloc: Global,
    reading: InputUtility,
    options: &Options,
    word: &Text,
    reason: Reason,
) -> Result<Done, NoMemory>
    ensures { IfOk result (λ d. d ≡ wrong_done reading options.now word.now reason) }
{
    let mut done = begun(alloc);
    fail(alloc, &mut done, name_of(reading), word.bytes(), reason)?;
    Ok(muted(alloc, is_silent(reading, options), done))
}

/// Reads what the plan wants, and does its job.
fn carried<V: View>(
    alloc: Global,
    cwd: &Path,
    reading: InputUtility,
    options: &Options,
    input: &[u8],
    operands: &[Text],
    plan: &ParsedArgs,
    desk: &mut Desk<V>,
) -> Result<Done, ExecNo>
    ensures { Performs is_want V.tells desk.old desk.new result
        (carried cwd.now reading options.now input.now operands.now plan.now) }
{
    match plan {
        ParsedArgs::Wrong(word, reason) => Ok(wrong_done(alloc, reading, options, word, *reason)?),
        ParsedArgs::Read(job) => {
            let files = files_of(job, operands);
            let sources = read_all(alloc, cwd, is_dashed(reading), input, files, desk)?;
            Ok(job_done(alloc, name_of(reading), job, sources.items())?)
        }
    }
}

fn with_options<V: View>(
    alloc: Global,
    cwd: &Path,
    reading: InputUtility,
    input: &[u8],
    words: &[Text],
    options: &Options,
    desk: &mut Desk<V>,
) -> Result<Done, ExecNo>
    ensures { Performs is_want V.tells desk.old desk.new result
        (with_options cwd.now reading input.now words.now options.now) }
{
    let operands = options.operands(words);
    let plan = planned(alloc, reading, options, operands)?;
    carried(alloc, cwd, reading, options, input, operands, &plan, desk)
}

/// A utility that reads.
fn reads<V: View>(
    alloc: Global,
    cwd: &Path,
    reading: InputUtility,
    input: &[u8],
    words: &[Text],
    desk: &mut Desk<V>,
) -> Result<Done, ExecNo>
    ensures { Performs is_want V.tells desk.old desk.new result
        (reads cwd.now reading input.now words.now) }
{
    let options = given_options(alloc, reading, words)?;
    with_options(alloc, cwd, reading, input, words, &options, desk)
}

fn run<V: View>(
    alloc: Global,
    cwd: &Path,
    utility: TextUtility,
    input: &[u8],
    words: &[Text],
    desk: &mut Desk<V>,
) -> Result<Done, ExecNo>
    ensures { Performs is_want V.tells desk.old desk.new result
        (run cwd.now utility input.now words.now) }
{
    match utility {
        TextUtility::Plain(plain) => plain_done(alloc, plain, words),
        TextUtility::Reading(reading) => reads(alloc, cwd, reading, input, words, desk),
        TextUtility::Test => test_words(alloc, cwd, words, desk),
        TextUtility::Bracket => bracketed(alloc, cwd, words, desk),
    }
}

fn run_by<V: View>(
    alloc: Global,
    cwd: &Path,
    utility: Option<TextUtility>,
    input: &[u8],
    words: &[Text],
    desk: &mut Desk<V>,
) -> Result<Option<Done>, ExecNo>
    ensures { Performs is_want V.tells desk.old desk.new result
        (run_by utility cwd.now input.now words.now) }
{
    match utility {
        None => Ok(None),
        Some(utility) => Ok(Some(run(alloc, cwd, utility, input, words, desk)?)),
    }
}

/// Does what the command says whose first word names a text utility: `cat`, `echo`, `printf`,
/// `head`, `tail`, `wc`, `sort`, `uniq`, `cmp`, `grep`, `basename`, `dirname`, `test`, `[`, `true`,
/// `false` or `:`; `None` exactly where it names none of them. Files are read against the working
/// directory, and nothing is changed. What is left is the status and what was written, a piece for
/// each file's output and each error line. POSIX.1-2017, Shell and Utilities; docs/FORMATS.md has
/// the differences.
///
/// Errors: `Refused` for an option that isn't listed, for `grep` without `-F`, for `-r`, `-w` and
/// `-x` of `test`, and for a directive of `printf` but `%s`, `%d` and `%%`; `Spent`, where the fuel
/// doesn't suffice for a question; `NoMemory`. It costs what the desk takes for each question.
/// Steps for each byte that is read or written, times log n for the n lines of `sort`.
pub fn utility<V: View>(
    alloc: Global,
    words: &[Text],
    input: &[u8],
    cwd: &Path,
    desk: &mut Desk<V>,
) -> Result<Option<Done>, ExecNo>
    ensures { Performs is_want V.tells desk.old desk.new result
        (utilities.utility words.now input.now cwd.now) }
{
    match words.split_first() {
        None => Ok(None),
        Some((name, rest)) => run_by(alloc, cwd, utility_of(name.bytes()), input, rest, desk),
    }
}
