//! Reading the words.
ghost use Rattle.std.specs.Prelude.{◌≡◌, ◌≤◌, ◌⊎◌, codes, map, not, is_some, option_map, option_and_then, IfOk, IfErr, IfSome, None, Some};
ghost use Rattle.std.specs.List.{filter, filter_map};
ghost use Rattle.clap.specs.Words.{first_of, found_of, rows_of};
ghost use Rattle.em_cmdline.specs.Words.{refusal, order_of, order_from, HasNames, HasRanges, HasSource};
ghost use Rattle.em_cmdline.specs.Words as spec;

use crate::check::{assignment, check, is_goal, mode, positive};
use crate::command::{is_set, matches, others, texts, value};
use crate::order::{HistoryMode, Order, WordNo};
use clap::ArgMatches;
use em_base::{NoMemory, Seq, Text};
use std::alloc::Global;

/// The text as a text of its own.
pub(crate) fn own(alloc: Global, text: Option<&str>) -> Result<Option<Text>, NoMemory>
    ensures { IfOk result (λ t. t ≡ option_map (λ s. s.now) text.entry) }
{
    match text {
        Some(text) => Ok(Some(Text::from_slice(alloc, text.as_bytes())?)),
        None => Ok(None),
    }
}

/// The number from 1 to the limit that an option has.
fn count(limit: u64, text: Option<&str>) -> Option<u64>
    ensures value { result
        ≡ option_and_then (spec.positive limit) (option_map (λ s. s.now) text.entry) }
    ensures range { IfSome result (λ n. (1 ≤ n) × (n ≤ limit)) }
{
    positive(limit, text?)
}

/// The size of a project to generate.
fn size(found: &ArgMatches<'_>) -> Option<u32>
    ensures value { result ≡ option_and_then (spec.positive 10000)
        (first_of (codes "generate") (rows_of (found_of found.now))) }
    ensures range { IfSome result (λ n. (1 ≤ n) × (n ≤ 10000)) }
{
    count(10_000, value(found, "generate")).map(|n| n as u32)
}

/// The words that are no assignments.
pub(crate) fn goals(alloc: Global, words: &[&str]) -> Result<Seq<Text>, NoMemory>
    ensures { IfOk result (λ g. g ≡ filter spec.is_goal (map (λ s. s.now) words.now)) }
{
    let mut goals = Seq::new(alloc);
    for word in words {
        if is_goal(word) {
            goals.push(Text::from_slice(alloc, word.as_bytes())?)?;
        }
    }
    Ok(goals)
}

/// The assignments, each as its name and its value.
pub(crate) fn assigned(alloc: Global, words: &[&str]) -> Result<Seq<(Text, Text)>, NoMemory>
    ensures { IfOk result (λ a. a ≡ filter_map spec.assignment (map (λ s. s.now) words.now)) }
{
    let mut assigned = Seq::new(alloc);
    for word in words {
        if let Some((name, value)) = assignment(word) {
            let name = Text::from_slice(alloc, name.as_bytes())?;
            assigned.push((name, Text::from_slice(alloc, value.as_bytes())?))?;
        }
    }
    Ok(assigned)
}

/// What words that aren't refused order.
fn order(alloc: Global, found: &ArgMatches<'_>) -> Result<Order, NoMemory>
    requires { spec.first_some (spec.causes (rows_of (found_of found.now))) ≡ None }
    ensures value { IfOk result (λ o. o ≡ order_from (rows_of (found_of found.now))) }
    ensures ranges { IfOk result HasRanges }
    ensures source { IfOk result HasSource }
    ensures names { IfOk result HasNames }
{
    let words = others(found).unwrap_or(&[]);
    Ok(Order {
        image: own(alloc, value(found, "image"))?,
        makefile: own(alloc, value(found, "makefile"))?,
        dir: Text::from_slice(alloc, value(found, "dir").unwrap_or("/").as_bytes())?,
        keep_going: is_set(found, "keep_going"),
        dry: is_set(found, "dry"),
        question: is_set(found, "question"),
        silent: is_set(found, "silent"),
        ignore: is_set(found, "ignore"),
        always: is_set(found, "always"),
        workers: count(64, value(found, "workers")).unwrap_or(1) as u32,
        fuel: count(1_000_000, value(found, "fuel")).unwrap_or(1_000_000),
        history: own(alloc, value(found, "history"))?,
        mode: mode(found).unwrap_or(HistoryMode::Merge),
        report: own(alloc, value(found, "report"))?,
        generate: size(found),
        explain: own(alloc, value(found, "explain"))?,
        agents: count(64, value(found, "agents")).unwrap_or(1) as u32,
        goals: goals(alloc, words)?,
        assigned: assigned(alloc, words)?,
    })
}

/// Reads the words after the program's name. Each option may stand once, before or after the other
/// words; `--` ends the options. Of the other words those with `=` are assignments, which are split
/// at their first `=` and never expanded, and the rest are goals. An order has an image, the size
/// of a project or a report to explain, one of them alone; image, history and report differ. The
/// error is the first of `WordNo` that applies, or `NoMemory`.
#[tactic(auto, unfolding(crate::specs::Words::refusal, crate::specs::Words::order_of))]
pub fn read_words(alloc: Global, words: &[Text]) -> Result<Order, WordNo>
    ensures ok { IfOk result (λ o. (refusal words.now ≡ None) × (o ≡ order_of words.now)) }
    ensures ranges { IfOk result HasRanges }
    ensures source { IfOk result HasSource }
    ensures names { IfOk result HasNames }
    ensures err { IfErr result (λ e. (e ≡ WordNo.NoMemory) ⊎ (refusal words.now ≡ Some e)) }
{
    let texts = texts(alloc, words)?;
    let found = matches(alloc, texts.as_slice())?;
    if mode(&found).is_none() {
        return Err(WordNo::Unknown);
    }
    check(alloc, &found)?;
    Ok(order(alloc, &found)?)
}
