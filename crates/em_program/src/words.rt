//! The words of a command line.
ghost use Rattle.std.specs.Prelude.{◌≡◌, IfOk, IfErr, IsErr, map, drop, string_bytes};
ghost use Rattle.std.specs.IoError.{error_kind};
ghost use Rattle.std.specs.Vec.Iter.{into_iter_items};
ghost use Rattle.em_cmdline.specs.Words.{HasRanges};
ghost use Rattle.em_program.specs.Course.{Follows, faults_after};
ghost use Rattle.em_program.specs.Words as words;
ghost use Rattle.em_program.specs.Words.{words_of, unread, ordered, read};

use crate::say::stop;
use crate::stop::ProgramEnd;
use crate::verdict::BuildStatus;
use em_base::{NoMemory, Seq, Text};
use em_closing::word_line;
use em_cmdline::{Order, WordNo, page_in, read_words};
use em_host::Host;
use std::alloc::Global;
use std::env::Args;
use std::io::{self, ErrorKind};

fn texts(alloc: Global, args: Args) -> Result<Seq<Text>, NoMemory>
    ensures { IfOk result (λ texts. texts ≡ map (λ s. string_bytes s) (into_iter_items args)) }
{
    let mut texts = Seq::new(alloc);
    for arg in args {
        texts.push(Text::from_slice(alloc, arg.as_bytes())?)?;
    }
    Ok(texts)
}

/// In place of words that can't be read as a whole: a name, and a word that is no text.
fn unread(alloc: Global) -> Result<Seq<Text>, NoMemory>
    ensures { IfOk result (λ words. drop 1 words ≡ unread) }
{
    let mut words = Seq::new(alloc);
    words.push(Text::new(alloc))?;
    words.push(Text::from_slice(alloc, &[255])?)?;
    Ok(words)
}

/// The program's name and the words, as the system gives them. Where they can't be read as a whole,
/// as where one isn't UTF-8, a word that is no text stands for them.
pub fn given_words(alloc: Global, args: io::Result<Args>) -> Result<Seq<Text>, NoMemory>
    ensures words { IfOk result (λ words. drop 1 words ≡ words_of args) }
    ensures memory { IfErr args (λ e. error_kind e ≡ ErrorKind.OutOfMemory → IsErr result) }
{
    match args {
        Ok(args) => texts(alloc, args),
        Err(e) => match e.kind() {
            ErrorKind::OutOfMemory => Err(NoMemory),
            _ => unread(alloc),
        },
    }
}

/// The words behind the first.
pub fn behind_first(words: &[Text]) -> &[Text]
    ensures { result.now ≡ drop 1 words.now }
{
    match words {
        [_, rest @ ..] => rest,
        [] => words,
    }
}

/// With the one goal `all`, where a project is to be generated.
fn aimed(alloc: Global, order: Order) -> Result<Order, NoMemory>
    ensures aimed { IfOk result (λ o. o ≡ words.aimed order) }
    ensures ranges { HasRanges order → IfOk result HasRanges }
{
    if order.generate.is_none() {
        return Ok(order);
    }
    let mut goals = Seq::new(alloc);
    goals.push(Text::from_slice(alloc, b"all")?)?;
    let mut aimed = order;
    aimed.goals = goals;
    Ok(aimed)
}

/// What the words order, where they ask for no page.
fn read<H: Host>(alloc: Global, words: &[Text], host: &mut H) -> Result<Order, ProgramEnd>
    ensures told { Follows (read words.now) result (H.told host.old) (H.told host.new) }
    ensures faults { H.faults host.new ≡ faults_after result (H.faults host.old) }
    ensures ranges { IfOk result HasRanges }
{
    match read_words(alloc, words) {
        Ok(order) => Ok(aimed(alloc, order)?),
        Err(WordNo::NoMemory) => Err(ProgramEnd::NoMemory),
        Err(no) => {
            let line = word_line(alloc, &no)?;
            stop(host, line.bytes(), BuildStatus::Faulty)
        }
    }
}

/// What the words order; `--help` and `--version`, each alone, print a page, which ends the run.
pub fn ordered<H: Host>(alloc: Global, words: &[Text], host: &mut H) -> Result<Order, ProgramEnd>
    ensures told { Follows (ordered words.now) result (H.told host.old) (H.told host.new) }
    ensures faults { H.faults host.new ≡ faults_after result (H.faults host.old) }
    ensures ranges { IfOk result HasRanges }
{
    match page_in(words) {
        Some(page) => stop(host, page.text(), BuildStatus::Done),
        None => read(alloc, words, host),
    }
}
