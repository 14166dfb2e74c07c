//! What a pattern rule makes for a match.
ghost use Rattle.std.specs.Prelude.{◌≡◌, map, IfOk, Some};
ghost use Rattle.em_implicit.specs.Matches.{made, members_of, normal_of, order_of};

use crate::pattern::Match;
use em_base::{NoMemory, Seq, Text};
use em_rules::{Rule, undotted};
use em_wordlist::fill;
use std::alloc::Global;

/// The prerequisites of one target.
#[derive(Debug, Drop)]
pub struct Prerequisites {
    pub normal: Seq<Text>,
    pub order: Seq<Text>,
}

/// The name that a pattern is for a match, as it is known. The directory is put before it where it
/// has a `%`.
pub(crate) fn made(alloc: Global, found: Match<'_>, pattern: &[u8]) -> Result<Text, NoMemory>
    ensures { IfOk result (λ t. t ≡ made found.entry.dir.now found.entry.stem.now pattern.now) }
{
    if !pattern.contains(&b'%') {
        return Text::from_slice(alloc, undotted(pattern));
    }
    let mut name = Text::from_slice(alloc, found.dir)?;
    name.add(fill(alloc, pattern, found.stem)?.bytes())?;
    Text::from_slice(alloc, undotted(name.bytes()))
}

/// The names that the patterns are.
fn made_all(alloc: Global, found: Match<'_>, patterns: &[Text]) -> Result<Seq<Text>, NoMemory>
    ensures { IfOk result (λ s. s
        ≡ map (made found.entry.dir.now found.entry.stem.now) patterns.now) }
{
    let mut names = Seq::new(alloc);
    for pattern in patterns {
        names.push(made(alloc, found, pattern.bytes())?)?;
    }
    Ok(names)
}

/// The prerequisites that a pattern rule makes for a match, in the rule's order and as they are
/// known. Three copies of each name.
pub fn prerequisites_of(
    alloc: Global,
    rule: &Rule,
    found: Match<'_>,
) -> Result<Prerequisites, NoMemory>
    ensures { let m = Some (found.entry.dir.now, found.entry.stem.now) in IfOk result
        (λ p. (p.normal ≡ normal_of rule.now m) × (p.order ≡ order_of rule.now m)) }
{
    Ok(Prerequisites {
        normal: made_all(alloc, found, rule.normal.items())?,
        order: made_all(alloc, found, rule.order.items())?,
    })
}

/// The targets that a pattern rule makes for a match, one of each target pattern, in the rule's
/// order and as they are known. Three copies of each name.
pub fn members_of(alloc: Global, rule: &Rule, found: Match<'_>) -> Result<Seq<Text>, NoMemory>
    ensures { IfOk result
        (λ s. s ≡ members_of rule.now (Some (found.entry.dir.now, found.entry.stem.now))) }
{
    made_all(alloc, found, rule.targets.items())
}
