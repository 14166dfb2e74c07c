//! The words as clap reads them.
ghost use Rattle.std.specs.Prelude.{◌≡◌, ◌≢◌, ◌⊎◌, [], map, true, false, length, codes, option_map, unwrap_or, IfOk, IfErr};
ghost use Rattle.std.specs.List.{list_all};
ghost use Rattle.std.specs.Str.{is_utf8};
ghost use Rattle.clap.specs.Words.{all_of, app_of, fault_of, first_of, found_of, is_simple_and_free, matches_of, rows_of, rule_of};
ghost use Rattle.em_cmdline.specs.Words.{order_app, faults, other_words};
ghost use Rattle.em_cmdline.specs.Words as spec;

use crate::order::WordNo;
use clap::error::ErrorKind;
use clap::{Arg, ArgAction, ArgMatches, Command};
use em_base::Text;
use std::alloc::{AllocError, Global};

/// An option that takes a value.
pub(crate) fn valued<'a>(alloc: Global, id: &'a str) -> Arg<'a>
    ensures rule { rule_of result ≡ spec.valued id.entry.now }
    ensures local { result.global ≡ false }
{
    Arg::new(alloc, id).action(ArgAction::Set)
}

/// An option that takes none.
pub(crate) fn flag<'a>(alloc: Global, id: &'a str) -> Arg<'a>
    ensures rule { rule_of result ≡ spec.flag id.entry.now }
    ensures local { result.global ≡ false }
{
    Arg::new(alloc, id).action(ArgAction::SetTrue)
}

/// The command: its options, and any number of other words.
fn command<'a>(alloc: Global) -> Result<Command<'a>, AllocError>
    ensures { IfOk result (λ c. app_of c ≡ order_app) }
{
    Command::new(alloc, "emake")
        .no_binary_name(true)
        .disable_help_flag(true)
        .disable_version_flag(true)
        .arg(valued(alloc, "image").short('I'))?
        .arg(valued(alloc, "makefile").short('f'))?
        .arg(valued(alloc, "dir").short('C'))?
        .arg(flag(alloc, "keep_going").short('k'))?
        .arg(flag(alloc, "dry").short('n'))?
        .arg(flag(alloc, "question").short('q'))?
        .arg(flag(alloc, "silent").short('s'))?
        .arg(flag(alloc, "ignore").short('i'))?
        .arg(flag(alloc, "always").short('B'))?
        .arg(valued(alloc, "workers").short('j'))?
        .arg(valued(alloc, "fuel").long("fuel"))?
        .arg(valued(alloc, "history").long("history"))?
        .arg(valued(alloc, "mode").long("mode"))?
        .arg(valued(alloc, "report").long("report"))?
        .arg(valued(alloc, "generate").long("gen"))?
        .arg(valued(alloc, "explain").long("explain"))?
        .arg(valued(alloc, "agents").long("agents"))?
        .arg(Arg::new(alloc, "words").action(ArgAction::Append))
}

/// The words as text. `Unknown` comes exactly where one isn't UTF-8.
pub(crate) fn texts(alloc: Global, words: &[Text]) -> Result<Vec<&str>, WordNo>
    ensures ok { IfOk result
        (λ v. (list_all is_utf8 words.now ≡ true) × (map (λ s. s.now) v.items ≡ words.now)) }
    ensures err { IfErr result
        (λ e. (e ≡ WordNo.NoMemory)
        ⊎ ((e ≡ WordNo.Unknown) × (list_all is_utf8 words.now ≡ false))) }
{
    let mut texts = Vec::new(alloc);
    for word in words {
        match simdutf8::compat::from_utf8(word.bytes()) {
            Ok(text) => texts.push(text)?,
            Err(_) => return Err(WordNo::Unknown),
        }
    }
    Ok(texts)
}

/// What the words give a command. `Unknown` comes exactly where clap refuses them.
pub(crate) fn matches_by<'a>(
    command: Command<'a>,
    words: &'a [&'a str],
) -> Result<ArgMatches<'a>, WordNo>
    requires { is_simple_and_free (app_of command) ≡ true }
    ensures ok { IfOk result
        (λ m. (fault_of (app_of command.entry) (map (λ s. s.now) words.entry.now) ≡ [])
        × (rows_of (found_of m)
        ≡ matches_of (app_of command.entry) (map (λ s. s.now) words.entry.now))) }
    ensures err { IfErr result
        (λ e. (e ≡ WordNo.NoMemory)
        ⊎ ((e ≡ WordNo.Unknown)
        × (fault_of (app_of command.entry) (map (λ s. s.now) words.entry.now) ≢ []))) }
{
    match command.try_get_matches_from(words) {
        Ok(found) => Ok(found),
        Err(e) => match e.kind() {
            ErrorKind::OutOfMemory => Err(WordNo::NoMemory),
            _ => Err(WordNo::Unknown),
        },
    }
}

/// What the words give the command of this program. `Unknown` comes exactly where clap refuses
/// them.
pub(crate) fn matches<'a>(alloc: Global, words: &'a [&'a str]) -> Result<ArgMatches<'a>, WordNo>
    ensures ok { IfOk result
        (λ m. (faults (map (λ s. s.now) words.entry.now) ≡ [])
        × (rows_of (found_of m) ≡ spec.found (map (λ s. s.now) words.entry.now))) }
    ensures err { IfErr result
        (λ e. (e ≡ WordNo.NoMemory)
        ⊎ ((e ≡ WordNo.Unknown) × (faults (map (λ s. s.now) words.entry.now) ≢ []))) }
{
    let command = command(alloc)?;
    matches_by(command, words)
}

/// The value of an option.
pub(crate) fn value<'a>(found: &ArgMatches<'a>, id: &str) -> Option<&'a str>
    ensures { option_map (λ s. s.now) result ≡ first_of id.now (rows_of (found_of found.now)) }
{
    found.get_str(id)
}

/// Whether a flag stands.
pub(crate) fn is_set(found: &ArgMatches<'_>, id: &str) -> bool
    ensures { result ≡ spec.is_set id.now (rows_of (found_of found.now)) }
{
    value(found, id) == Some("true")
}

/// The other words, if there are any.
pub(crate) fn others<'m, 'a>(found: &'m ArgMatches<'a>) -> Option<&'m [&'a str]>
    ensures { option_map (λ ws. map (λ s. s.now) ws.now) result
        ≡ all_of (codes "words") (rows_of (found_of found.now)) }
{
    found.get_strs("words")
}
