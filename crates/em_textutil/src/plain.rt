//! The utilities that read nothing.
ghost use Rattle.std.specs.Prelude.{◌≡◌, [], codes, false, IfOk, OnOk};
ghost use Rattle.em_wordlist.specs.Words.{joined};
ghost use Rattle.em_view.specs.Performs.{is_free};
ghost use Rattle.em_view.specs.Ends.{is_want};
ghost use Rattle.em_utility.specs.Options.{read_options};
ghost use Rattle.em_textutil.specs.Plain as plain;
ghost use Rattle.em_textutil.specs.Plain.{line, strange_words, print_words, base_words, dir_words, plain_done, of_operands, ok_base, ok_dir};

use crate::name::NoInputUtility;
use em_base::{Construct, NoMemory, Text};
use em_lineutil::{FormatNo, base_name, dir_name, faults, format_of, printed, without_suffix};
use em_utility::{Reason, begun, fail, read_options, write};
use em_view::{Done, ExecNo};
use em_wordlist::join_texts;
use std::alloc::Global;

/// A command that writes the text as a line.
fn line(alloc: Global, text: &[u8]) -> Result<Done, NoMemory>
    ensures { IfOk result (λ d. d ≡ line text.now) }
{
    let mut all = Text::from_slice(alloc, text)?;
    all.add(b"\n")?;
    let mut done = begun(alloc);
    write(&mut done, 1, all)?;
    Ok(done)
}

/// A command whose operands aren't as many as it wants.
fn wrong(alloc: Global, utility: &[u8], reason: Reason) -> Result<Done, NoMemory>
    ensures { IfOk result (λ d. d ≡ plain.wrong utility.now reason) }
{
    let mut done = begun(alloc);
    fail(alloc, &mut done, utility, b"", reason)?;
    Ok(done)
}

/// Writes that each of the words is no number.
fn strange_words(alloc: Global, done: &mut Done, words: &[Text]) -> Result<(), NoMemory>
    ensures { OnOk result (done.new ≡ strange_words words.now done.old) }
{
    for word in words {
        fail(alloc, done, b"printf", word.bytes(), Reason::NotANumber)?;
    }
    Ok(())
}

fn print_parts(alloc: Global, parts: &[em_lineutil::Part], words: &[Text]) -> Result<Done, NoMemory>
    ensures { IfOk result (λ d. d ≡ plain.printed_done parts.now words.now) }
{
    let mut done = begun(alloc);
    strange_words(alloc, &mut done, faults(alloc, parts, words)?.items())?;
    write(&mut done, 1, printed(alloc, parts, words)?)?;
    Ok(done)
}

fn print_words(alloc: Global, words: &[Text]) -> Result<Done, ExecNo>
    ensures { is_free is_want result ≡ false → result ≡ print_words words.now }
{
    let Some((format, rest)) = words.split_first() else {
        return Ok(wrong(alloc, b"printf", Reason::MissingOperand)?);
    };
    match format_of(alloc, format.bytes()) {
        Ok(parts) => Ok(print_parts(alloc, parts.items(), rest)?),
        Err(no) => match no {
            FormatNo::Refused(byte) => Err(ExecNo::Refused(Construct::Format(byte))),
            FormatNo::NoMemory => Err(ExecNo::NoMemory),
        },
    }
}

fn base_words(alloc: Global, words: &[Text]) -> Result<Done, NoMemory>
    ensures { IfOk result (λ d. d ≡ base_words words.now) }
{
    match words {
        [] => wrong(alloc, b"basename", Reason::MissingOperand),
        [name] => line(alloc, base_name(name.bytes())),
        [name, suffix] => line(
            alloc,
            without_suffix(base_name(name.bytes()), suffix.bytes()),
        ),
        _ => wrong(alloc, b"basename", Reason::ExtraOperand),
    }
}

fn dir_words(alloc: Global, words: &[Text]) -> Result<Done, NoMemory>
    ensures { IfOk result (λ d. d ≡ dir_words words.now) }
{
    match words {
        [] => wrong(alloc, b"dirname", Reason::MissingOperand),
        [name] => line(alloc, dir_name(name.bytes())),
        _ => wrong(alloc, b"dirname", Reason::ExtraOperand),
    }
}

fn print(alloc: Global, words: &[Text]) -> Result<Done, ExecNo>
    ensures { is_free is_want result ≡ false → result
        ≡ of_operands (read_options (codes "printf") [] [] words.now) print_words words.now }
{
    let options = read_options(alloc, b"printf", b"", b"", words)?;
    print_words(alloc, options.operands(words))
}

fn base(alloc: Global, words: &[Text]) -> Result<Done, ExecNo>
    ensures { is_free is_want result ≡ false → result
        ≡ of_operands (read_options (codes "basename") [] [] words.now) ok_base words.now }
{
    let options = read_options(alloc, b"basename", b"", b"", words)?;
    Ok(base_words(alloc, options.operands(words))?)
}

fn dir(alloc: Global, words: &[Text]) -> Result<Done, ExecNo>
    ensures { is_free is_want result ≡ false → result
        ≡ of_operands (read_options (codes "dirname") [] [] words.now) ok_dir words.now }
{
    let options = read_options(alloc, b"dirname", b"", b"", words)?;
    Ok(dir_words(alloc, options.operands(words))?)
}

/// A command that did nothing, with this status.
fn ended(alloc: Global, status: u8) -> Done
    ensures { result ≡ record { status = status; pieces = [] } }
{
    let mut done = begun(alloc);
    done.status = status;
    done
}

fn echo(alloc: Global, words: &[Text]) -> Result<Done, NoMemory>
    ensures { IfOk result (λ d. d ≡ line (joined words.now)) }
{
    let text = join_texts(alloc, words)?;
    line(alloc, text.bytes())
}

/// What the utility leaves, of the words behind its name.
#[tactic(auto, unfolding(crate::specs::Plain::plain_done))]
pub(crate) fn plain_done(
    alloc: Global,
    plain: NoInputUtility,
    words: &[Text],
) -> Result<Done, ExecNo>
    ensures { is_free is_want result ≡ false → result ≡ plain_done plain words.now }
{
    match plain {
        NoInputUtility::Echo => Ok(echo(alloc, words)?),
        NoInputUtility::Printf => print(alloc, words),
        NoInputUtility::Basename => base(alloc, words),
        NoInputUtility::Dirname => dir(alloc, words),
        NoInputUtility::True => Ok(ended(alloc, 0)),
        NoInputUtility::False => Ok(ended(alloc, 1)),
    }
}
