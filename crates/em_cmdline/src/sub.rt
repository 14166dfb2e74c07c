//! Reading the words of a sub-make.
ghost use Rattle.std.specs.Prelude.{◌≡◌, ◌≢◌, ◌⊎◌, [], map, IfOk, IfErr, None, Some};
ghost use Rattle.clap.specs.Words.{app_of, found_of, rows_of};
ghost use Rattle.em_cmdline.specs.SubWords.{sub_app, sub_faults, sub_found, sub_causes, sub_order_from, sub_refusal, sub_order};
ghost use Rattle.em_cmdline.specs.Words as spec;

use crate::check::{bad_name, bad_value};
use crate::command::{flag, is_set, matches_by, others, texts, value, valued};
use crate::order::{HistoryMode, Order, WordNo};
use crate::read::{assigned, goals, own};
use clap::{Arg, ArgAction, ArgMatches, Command};
use em_base::{NoMemory, Text};
use std::alloc::{AllocError, Global};

/// The command: its options, and any number of other words.
fn sub_command<'a>(alloc: Global) -> Result<Command<'a>, AllocError>
    ensures { IfOk result (λ c. app_of c ≡ sub_app) }
{
    Command::new(alloc, "make")
        .no_binary_name(true)
        .disable_help_flag(true)
        .disable_version_flag(true)
        .arg(valued(alloc, "makefile").short('f'))?
        .arg(valued(alloc, "dir").short('C'))?
        .arg(flag(alloc, "keep_going").short('k'))?
        .arg(flag(alloc, "silent").short('s'))?
        .arg(flag(alloc, "ignore").short('i'))?
        .arg(flag(alloc, "always").short('B'))?
        .arg(valued(alloc, "workers").short('j'))?
        .arg(flag(alloc, "no_print_directory").long("no-print-directory"))?
        .arg(Arg::new(alloc, "words").action(ArgAction::Append))
}

/// What the words give this command. `Unknown` comes exactly where clap refuses them.
fn sub_matches<'a>(alloc: Global, words: &'a [&'a str]) -> Result<ArgMatches<'a>, WordNo>
    ensures ok { IfOk result
        (λ m. (sub_faults (map (λ s. s.now) words.entry.now) ≡ [])
        × (rows_of (found_of m) ≡ sub_found (map (λ s. s.now) words.entry.now))) }
    ensures err { IfErr result
        (λ e. (e ≡ WordNo.NoMemory)
        ⊎ ((e ≡ WordNo.Unknown) × (sub_faults (map (λ s. s.now) words.entry.now) ≢ []))) }
{
    let command = sub_command(alloc)?;
    matches_by(command, words)
}

/// Answers the first refusal.
fn check_sub(alloc: Global, found: &ArgMatches<'_>) -> Result<(), WordNo>
    ensures ok { IfOk result
        (λ _. spec.first_some (sub_causes (rows_of (found_of found.now))) ≡ None) }
    ensures err { IfErr result
        (λ e. (e ≡ WordNo.NoMemory)
        ⊎ (spec.first_some (sub_causes (rows_of (found_of found.now))) ≡ Some e)) }
{
    if let Some(text) = bad_value(64, value(found, "workers")) {
        return Err(WordNo::BadNumber(Text::from_slice(alloc, text.as_bytes())?));
    }
    if let Some(word) = bad_name(found) {
        return Err(WordNo::BadName(Text::from_slice(alloc, word.as_bytes())?));
    }
    Ok(())
}

/// What words that aren't refused order.
fn order_from(alloc: Global, found: &ArgMatches<'_>) -> Result<Order, NoMemory>
    ensures { IfOk result (λ o. o ≡ sub_order_from (rows_of (found_of found.now))) }
{
    let words = others(found).unwrap_or(&[]);
    Ok(Order {
        image: None,
        makefile: own(alloc, value(found, "makefile"))?,
        dir: Text::from_slice(alloc, value(found, "dir").unwrap_or(".").as_bytes())?,
        keep_going: is_set(found, "keep_going"),
        dry: false,
        question: false,
        silent: is_set(found, "silent"),
        ignore: is_set(found, "ignore"),
        always: is_set(found, "always"),
        workers: 1,
        fuel: 1_000_000,
        history: None,
        mode: HistoryMode::Merge,
        report: None,
        generate: None,
        explain: None,
        agents: 1,
        goals: goals(alloc, words)?,
        assigned: assigned(alloc, words)?,
    })
}

/// Reads the words of a sub-make, those behind `make` or `emake` in a line of a recipe. They are
/// read as the words of the command line, with these options: `-C` (without it the directory is
/// `.`), `-f`, `-k`, `-s`, `-i`, `-B`; `-j N` and `--no-print-directory`, which makefiles for GNU
/// make write there, are read and order nothing. The error is the first of `Unknown`, `BadNumber`
/// (of `-j`) and `BadName` that applies, or `NoMemory`.
///
/// Steps for each byte of the words, and a copy of each.
#[tactic(auto, unfolding(crate::specs::SubWords::sub_refusal, crate::specs::SubWords::sub_order))]
pub fn read_sub_words(alloc: Global, words: &[Text]) -> Result<Order, WordNo>
    ensures ok { IfOk result
        (λ o. (sub_refusal words.now ≡ None) × (o ≡ sub_order words.now)) }
    ensures err { IfErr result
        (λ e. (e ≡ WordNo.NoMemory) ⊎ (sub_refusal words.now ≡ Some e)) }
{
    let texts = texts(alloc, words)?;
    let found = sub_matches(alloc, texts.as_slice())?;
    check_sub(alloc, &found)?;
    Ok(order_from(alloc, &found)?)
}
