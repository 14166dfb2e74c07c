//! What is refused in a rule's head.
ghost use Rattle.std.specs.Prelude.{◌≡◌, ◌++◌, ◌∷◌, map, not, option_map, Some, IfOk, IsErr, IsSome};
ghost use Rattle.std.specs.List.{list_any, position};
ghost use Rattle.em_rules.specs.Dots.{undotted};
ghost use Rattle.em_statement.specs.Heads as heads;
ghost use Rattle.em_statement.specs.Heads.{is_member, is_special, is_known, has_percent, is_lone_double, percent_refusal, target_refusal, prerequisite_refusal, colon_refusal, head_of, is_colon, refusal_of, first_of, is_mixed, is_followed};

use crate::head::{Colons, Head, colons_of, head_at};
use crate::split::{before, behind, from, place_of};
use em_base::{NoMemory, Text};
use em_rules::undotted;
use std::alloc::Global;

/// Whether a word names a member of an archive.
fn is_member(word: &[u8]) -> bool
    ensures { result ≡ is_member word.now }
{
    word.ends_with(b")") && from(1, word).contains(&b'(')
}

/// Whether a target is one of the special ones that are refused.
fn is_special(word: &[u8]) -> bool
    ensures { result ≡ is_special word.now }
{
    match word {
        b".DEFAULT" => true,
        b".SECONDEXPANSION" => true,
        b".LOW_RESOLUTION_TIME" => true,
        b".EXPORT_ALL_VARIABLES" => true,
        b".ONESHELL" => true,
        b".POSIX" => true,
        b".NOTINTERMEDIATE" => true,
        _ => false,
    }
}

/// Whether a target is one of the special ones that aren't refused.
fn is_known(name: &[u8]) -> bool
    ensures { result ≡ is_known name.now }
{
    name == b".PHONY".as_slice()
        || name == b".SILENT".as_slice()
        || name == b".IGNORE".as_slice()
        || name == b".DELETE_ON_ERROR".as_slice()
        || name == b".SUFFIXES".as_slice()
        || name == b".NOTPARALLEL".as_slice()
        || name == b".PRECIOUS".as_slice()
        || name == b".INTERMEDIATE".as_slice()
        || name == b".SECONDARY".as_slice()
}

/// The first `\%`, or where a `%` is refused the first of both.
fn percent_refusal(mixed: bool, word: &[u8]) -> Option<&'static [u8]>
    ensures { option_map (λ r. r.now) result ≡ percent_refusal mixed word.now }
{
    for (at, byte) in word.iter().enumerate() {
        if *byte == b'\\' && word[at + 1..].starts_with(b"%") {
            return Some(b"\\%");
        }
        if mixed && *byte == b'%' {
            return Some(b"%");
        }
    }
    None
}

/// What is refused in a target.
fn target_refusal(mixed: bool, followed: bool, word: &[u8]) -> Option<&[u8]>
    ensures { option_map (λ r. r.now) result ≡ target_refusal mixed followed word.now }
{
    let name = undotted(word);
    if is_member(word) {
        Some(word)
    } else if is_special(name) || followed && name == b".SUFFIXES".as_slice() {
        Some(name)
    } else {
        percent_refusal(mixed, word)
    }
}

/// What is refused in a prerequisite.
fn prerequisite_refusal(word: &[u8]) -> Option<&[u8]>
    ensures { option_map (λ r. r.now) result ≡ prerequisite_refusal word.now }
{
    let name = undotted(word);
    if is_member(word) {
        Some(word)
    } else if name == b".WAIT".as_slice() {
        Some(name)
    } else {
        percent_refusal(false, word)
    }
}

/// The first target that is refused.
fn first_target_refusal(mixed: bool, followed: bool, targets: &[Text]) -> Option<&[u8]>
    ensures { option_map (λ r. r.now) result
        ≡ first_of (map (target_refusal mixed followed) targets.now) }
{
    for target in targets {
        let refused = target_refusal(mixed, followed, target.bytes());
        if refused.is_some() {
            return refused;
        }
    }
    None
}

/// The first prerequisite that is refused.
fn first_prerequisite_refusal(prerequisites: &[Text]) -> Option<&[u8]>
    ensures { option_map (λ r. r.now) result
        ≡ first_of (map prerequisite_refusal prerequisites.now) }
{
    for prerequisite in prerequisites {
        let refused = prerequisite_refusal(prerequisite.bytes());
        if refused.is_some() {
            return refused;
        }
    }
    None
}

fn has_percent(word: &[u8]) -> bool
    ensures { result ≡ has_percent word.now }
{
    word.contains(&b'%')
}

fn any_percent(targets: &[Text]) -> bool
    ensures { result ≡ list_any has_percent targets.now }
{
    targets.iter().any(|target| has_percent(target.bytes()))
}

fn any_known(targets: &[Text]) -> bool
    ensures { result ≡ list_any (λ t. is_known (undotted t)) targets.now }
{
    targets
        .iter()
        .any(|target| is_known(undotted(target.bytes())))
}

fn any_without_percent(targets: &[Text]) -> bool
    ensures { result ≡ list_any (λ t. not (has_percent t)) targets.now }
{
    targets.iter().any(|target| !has_percent(target.bytes()))
}

/// Whether the `::` is one that no rule has: behind an `&`, a pattern or a special target.
fn is_lone_double(colons: Colons, targets: &[Text]) -> bool
    ensures { result ≡ is_lone_double colons targets.now }
{
    colons.double && (colons.grouped || any_percent(targets) || any_known(targets))
}

/// What is refused at the colon.
fn colon_refusal(colons: Colons, assigns: bool, targets: &[Text]) -> Option<&[u8]>
    ensures { option_map (λ r. r.now) result ≡ colon_refusal colons assigns targets.now }
{
    if is_lone_double(colons, targets) {
        return Some(b"::");
    }
    if assigns {
        let target = targets.first()?;
        return Some(target.bytes());
    }
    if colons.again {
        return Some(b"::");
    }
    None
}

/// Whether there are several targets, with and without a `%`, that aren't of a static pattern rule.
fn is_mixed(head: &Head) -> bool
    ensures { result ≡ is_mixed head.now }
{
    head.targets.len() > 1 && head.form.is_none() && any_without_percent(head.targets.items())
}

/// Whether there are prerequisites.
fn is_followed(head: &Head) -> bool
    ensures { result ≡ is_followed head.now }
{
    !head.normal.is_empty() || !head.order.is_empty()
}

/// The first thing that is refused in the head with these colons.
fn head_refusal(assigns: bool, colons: Colons, head: &Head) -> Option<&[u8]>
    ensures { option_map (λ r. r.now) result ≡ heads.head_refusal assigns colons head.now }
{
    let targets = head.targets.items();
    let refused = first_target_refusal(is_mixed(head), is_followed(head), targets);
    if refused.is_some() {
        return refused;
    }
    let refused = colon_refusal(colons, assigns, targets);
    if refused.is_some() {
        return refused;
    }
    let refused = first_prerequisite_refusal(head.normal.items());
    if refused.is_some() {
        return refused;
    }
    first_prerequisite_refusal(head.order.items())
}

/// The name of the leftmost construct that is refused in a rule's head, when it is expanded; `None`
/// where there is none, and, also where memory is short, where no colon is in it. `assigns` tells
/// that an assignment stands behind the colon. Refused are a `::` behind an `&`, a target with a
/// `%` or a special target, and one that is the next colon behind the rule's; a `%` beside a target
/// without one, a member of an archive, `\%`, an assignment (by the first target, if there is one),
/// the special targets that aren't supported, `.SUFFIXES` with prerequisites and the prerequisite
/// `.WAIT`; these names also
/// with `./` in front. Steps for each byte, and one copy of each word.
#[tactic(auto, unfolding(crate::specs::Heads::refusal_of))]
pub fn refused_in_head(alloc: Global, assigns: bool, text: &[u8]) -> Result<Option<Text>, NoMemory>
    ensures value { IfOk result (λ r. r ≡ refusal_of assigns text.now) }
    ensures memory { IsErr result → IsSome (position is_colon text.now) }
{
    let Some(at) = place_of(b':', text) else {
        return Ok(None);
    };
    let head = head_at(alloc, text, at)?;
    let colons = colons_of(before(at, text), behind(at, text));
    match head_refusal(assigns, colons, &head) {
        None => Ok(None),
        Some(name) => Ok(Some(Text::from_slice(alloc, name)?)),
    }
}

/// The same of a text whose head has been read, and is this. Takes no memory, and steps for each
/// byte.
#[tactic(auto, unfolding(crate::specs::Heads::refusal_of, crate::specs::Heads::head_of))]
pub fn refused_in_read<'a>(assigns: bool, text: &[u8], head: &'a Head) -> Option<&'a [u8]>
    requires { head_of text.now ≡ Some head.now }
    ensures { option_map (λ r. r.now) result ≡ refusal_of assigns text.now }
{
    let at = place_of(b':', text)?;
    let colons = colons_of(before(at, text), behind(at, text));
    head_refusal(assigns, colons, head)
}
