//! Why words that clap takes are refused.
ghost use Rattle.std.specs.Prelude.{◌≡◌, ◌≤◌, ◌⊎◌, [], ◌∷◌, option_map, not, is_some, IfOk, IfErr, IfSome, None, Some};
ghost use Rattle.clap.specs.Words.{found_of, rows_of};
ghost use Rattle.em_cmdline.specs.Words as spec;

use crate::command::{others, value};
use crate::order::{HistoryMode, WordNo};
use clap::ArgMatches;
use em_base::{Text, is_blank, number};
use std::alloc::Global;

/// The number that a text writes in canonical decimal, from 1 to the limit.
pub(crate) fn positive(limit: u64, text: &str) -> Option<u64>
    ensures value { result ≡ spec.positive limit text.now }
    ensures range { IfSome result (λ n. (1 ≤ n) × (n ≤ limit)) }
{
    number(limit, text.as_bytes()).filter(|n| *n > 0)
}

/// The name and the value of an assignment: what stands before its first `=`, and what stands after
/// it.
pub(crate) fn assignment(word: &str) -> Option<(&str, &str)>
    ensures { option_map (λ a. (a.0.now, a.1.now)) result ≡ spec.assignment word.now }
{
    word.split_once('=')
}

/// Whether the word is no assignment.
pub(crate) fn is_goal(word: &str) -> bool
    ensures { result ≡ spec.is_goal word.now }
{
    assignment(word).is_none()
}

/// What becomes of the history; `None` where the value is none of its three.
pub(crate) fn mode(found: &ArgMatches<'_>) -> Option<HistoryMode>
    ensures { result ≡ spec.mode_of (rows_of (found_of found.now)) }
{
    match value(found, "mode") {
        Some("create") => Some(HistoryMode::Create),
        None | Some("merge") => Some(HistoryMode::Merge),
        Some("read") => Some(HistoryMode::Read),
        Some(_) => None,
    }
}

/// The value where it is no number from 1 to the limit.
pub(crate) fn bad_value<'a>(limit: u64, value: Option<&'a str>) -> Option<&'a str>
    ensures { option_map (λ s. s.now) result
        ≡ spec.bad_value limit (option_map (λ s. s.now) value.entry) }
{
    value.filter(|text| positive(limit, text).is_none())
}

/// The first value of those of a build that is no number in its range.
fn bad_build_number<'a>(found: &ArgMatches<'a>) -> Option<&'a str>
    ensures { option_map (λ s. s.now) result
        ≡ spec.bad_build_number (rows_of (found_of found.now)) }
{
    bad_value(64, value(found, "workers"))
        .or(bad_value(1_000_000, value(found, "fuel")))
        .or(bad_value(10_000, value(found, "generate")))
}

/// The first value that is no number in its range.
fn bad_number<'a>(found: &ArgMatches<'a>) -> Option<&'a str>
    ensures { option_map (λ s. s.now) result ≡ spec.bad_number (rows_of (found_of found.now)) }
{
    bad_build_number(found).or(bad_value(64, value(found, "agents")))
}

/// Whether no name holds the byte: a space, a tab, `:`, `#` or `$`.
fn breaks_name(b: u8) -> bool
    ensures { result ≡ spec.breaks_name b }
{
    is_blank(b) || b == b':' || b == b'#' || b == b'$'
}

/// Whether the name is empty or holds such a byte.
fn is_bad_name(name: &[u8]) -> bool
    ensures { result ≡ spec.is_bad_name name.now }
{
    name.is_empty() || name.iter().any(|b| breaks_name(*b))
}

/// Whether the word is an assignment with such a name.
fn has_bad_name(word: &str) -> bool
    ensures { result ≡ spec.has_bad_name word.now }
{
    match assignment(word) {
        Some((name, _)) => is_bad_name(name.as_bytes()),
        None => false,
    }
}

/// The first such word.
pub(crate) fn bad_name<'a>(found: &ArgMatches<'a>) -> Option<&'a str>
    ensures { option_map (λ s. s.now) result ≡ spec.bad_name (rows_of (found_of found.now)) }
{
    others(found)?
        .iter()
        .copied()
        .find(|word| has_bad_name(word))
}

/// The first name, where both are there and the same.
fn same<'a>(first: Option<&'a str>, second: Option<&'a str>) -> Option<&'a str>
    ensures { option_map (λ s. s.now) result
        ≡ spec.same (option_map (λ s. s.now) first.entry) (option_map (λ s. s.now) second.entry) }
{
    if first == second { first } else { None }
}

/// The name of a host's file that is to be two things.
fn same_name<'a>(found: &ArgMatches<'a>) -> Option<&'a str>
    ensures { option_map (λ s. s.now) result ≡ spec.same_name (rows_of (found_of found.now)) }
{
    let image = value(found, "image");
    let history = value(found, "history");
    let report = value(found, "report");
    same(image, history)
        .or(same(image, report))
        .or(same(history, report))
}

/// Whether exactly one of the three is so.
fn is_one(a: bool, b: bool, c: bool) -> bool
    ensures { result ≡ spec.is_one a b c }
{
    if a {
        return !(b || c);
    }
    if b { !c } else { c }
}

/// Whether there isn't exactly one of the image, the size of a project and a report to explain.
fn is_missing(found: &ArgMatches<'_>) -> bool
    ensures { result ≡ spec.is_missing (rows_of (found_of found.now)) }
{
    let image = value(found, "image").is_some();
    let generate = value(found, "generate").is_some();
    !is_one(image, generate, value(found, "explain").is_some())
}

/// Answers the first refusal.
pub(crate) fn check(alloc: Global, found: &ArgMatches<'_>) -> Result<(), WordNo>
    ensures ok { IfOk result
        (λ _. spec.first_some (spec.causes (rows_of (found_of found.now))) ≡ None) }
    ensures err { IfErr result
        (λ e. (e ≡ WordNo.NoMemory)
        ⊎ (spec.first_some (spec.causes (rows_of (found_of found.now))) ≡ Some e)) }
{
    if is_missing(found) {
        return Err(WordNo::Missing);
    }
    if let Some(text) = bad_number(found) {
        return Err(WordNo::BadNumber(Text::from_slice(alloc, text.as_bytes())?));
    }
    if let Some(word) = bad_name(found) {
        return Err(WordNo::BadName(Text::from_slice(alloc, word.as_bytes())?));
    }
    if let Some(name) = same_name(found) {
        return Err(WordNo::SameName(Text::from_slice(alloc, name.as_bytes())?));
    }
    Ok(())
}
