//! The expanded text in front of a rule's recipe.
ghost use Rattle.std.specs.Prelude.{◌≡◌, IfOk, IsErr, IsSome};
ghost use Rattle.std.specs.List.{position};
ghost use Rattle.em_statement.specs.Heads as heads;
ghost use Rattle.em_statement.specs.Heads.{head_of, head_at, is_colon, is_grouped, targets_text, normal_text, order_text};
ghost use Rattle.em_wordlist.specs.Words.{words_of};

use crate::split::{before, behind, place_of};
use em_base::{NoMemory, Seq, Text, trim};
use em_rules::RuleKind;
use em_wordlist::texts;
use std::alloc::Global;

/// `targets : normal | order`, or `targets : form : normal | order`.
#[derive(Debug, Drop, PartialEq, Eq)]
pub struct Head {
    /// By the rule's colon.
    pub kind: RuleKind,
    pub targets: Seq<Text>,
    /// What a static pattern rule's targets match.
    pub form: Option<Text>,
    pub normal: Seq<Text>,
    /// The order-only prerequisites.
    pub order: Seq<Text>,
}

/// The colons of a head.
#[derive(Clone, Copy, Debug)]
pub(crate) struct Colons {
    /// Whether an `&` stands right before the rule's colon.
    pub grouped: bool,
    /// Whether the rule's colon is a `::`.
    pub double: bool,
    /// Whether the next colon behind it is one.
    pub again: bool,
}

/// What stands in front of the first `|`.
fn normal_text(text: &[u8]) -> &[u8]
    ensures { result.now ≡ normal_text text.now }
{
    match place_of(b'|', text) {
        Some(at) => before(at, text),
        None => text,
    }
}

/// What stands behind it.
fn order_text(text: &[u8]) -> &[u8]
    ensures { result.now ≡ order_text text.now }
{
    match place_of(b'|', text) {
        Some(at) => behind(at, text),
        None => &[],
    }
}

/// The targets without the `&` that belongs to the colon.
fn targets_text(text: &[u8]) -> &[u8]
    ensures { result.now ≡ targets_text text.now }
{
    match text {
        [targets @ .., b'&'] => targets,
        _ => text,
    }
}

/// The kind of a rule whose colon stands between these texts.
fn kind_of(targets: &[u8], rest: &[u8]) -> RuleKind
    ensures { result ≡ heads.kind_of targets.now rest.now }
{
    if rest.starts_with(b":") {
        RuleKind::Double
    } else if targets.ends_with(b"&") {
        RuleKind::Grouped
    } else {
        RuleKind::Ordinary
    }
}

/// The words of a text, in order. Steps for each byte, and one copy of each word.
pub fn words(alloc: Global, text: &[u8]) -> Result<Seq<Text>, NoMemory>
    ensures { IfOk result (λ ws. ws ≡ words_of text.now) }
{
    let mut words = Seq::new(alloc);
    let slices = texts(alloc, text)?;
    for word in &slices {
        words.push(Text::from_slice(alloc, word)?)?;
    }
    Ok(words)
}

/// The head of these parts.
fn head_by(
    alloc: Global,
    kind: RuleKind,
    targets: &[u8],
    form: Option<Text>,
    prerequisites: &[u8],
) -> Result<Head, NoMemory>
    ensures { IfOk result (λ h. h ≡ heads.head kind targets.now form prerequisites.now) }
{
    Ok(Head {
        kind,
        targets: words(alloc, targets)?,
        form,
        normal: words(alloc, normal_text(prerequisites))?,
        order: words(alloc, order_text(prerequisites))?,
    })
}

/// What stands behind the rule's colon, which may be `::`.
pub(crate) fn behind_colon(rest: &[u8]) -> &[u8]
    ensures { result.now ≡ heads.behind_colon rest.now }
{
    match rest {
        [b':', rest @ ..] => rest,
        _ => rest,
    }
}

/// Whether the next colon is a `::`.
fn is_doubled(rest: &[u8]) -> bool
    ensures { result ≡ heads.is_doubled rest.now }
{
    match place_of(b':', rest) {
        Some(at) => behind(at, rest).starts_with(b":"),
        None => false,
    }
}

/// The colons of a head whose first one stands between these texts.
pub(crate) fn colons_of(targets: &[u8], rest: &[u8]) -> Colons
    ensures { result ≡ heads.colons_of targets.now rest.now }
{
    Colons {
        grouped: targets.ends_with(b"&"),
        double: rest.starts_with(b":"),
        again: is_doubled(behind_colon(rest)),
    }
}

/// The head of these targets and of what stands behind the colon.
fn head_with(alloc: Global, kind: RuleKind, targets: &[u8], rest: &[u8]) -> Result<Head, NoMemory>
    ensures { IfOk result (λ h. h ≡ heads.head_with kind targets.now rest.now) }
{
    match place_of(b':', rest) {
        None => head_by(alloc, kind, targets, None, rest),
        Some(at) => {
            let form = Text::from_slice(alloc, trim(before(at, rest)))?;
            head_by(alloc, kind, targets, Some(form), behind(at, rest))
        }
    }
}

/// The head whose colon stands at a place.
pub(crate) fn head_at(alloc: Global, text: &[u8], at: usize) -> Result<Head, NoMemory>
    ensures { IfOk result (λ h. h ≡ head_at text.now at) }
{
    let targets = before(at, text);
    let rest = behind(at, text);
    let kind = kind_of(targets, rest);
    head_with(alloc, kind, targets_text(targets), behind_colon(rest))
}

/// The parts of a rule's head, when it is expanded; `None` exactly where no colon is in it, also
/// where memory is short. A second colon ends the form of a static pattern rule; the first `|`
/// begins the order-only prerequisites. Steps for each byte, and one copy of each word.
#[tactic(auto, unfolding(crate::specs::Heads::head_of))]
pub fn read_head(alloc: Global, text: &[u8]) -> Result<Option<Head>, NoMemory>
    ensures value { IfOk result (λ h. h ≡ head_of text.now) }
    ensures memory { IsErr result → IsSome (position is_colon text.now) }
{
    match place_of(b':', text) {
        None => Ok(None),
        Some(at) => Ok(Some(head_at(alloc, text, at)?)),
    }
}
