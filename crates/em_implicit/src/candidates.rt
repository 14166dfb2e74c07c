//! The target patterns that a target matches.
ghost use Rattle.std.specs.Prelude.{◌≡◌, ◌++◌, ◌∷◌, [], Some, None, Ok, Option, option_map, false, map, IfOk, IsOkAnd};
ghost use Rattle.std.specs.List.{list_any};
ghost use Rattle.em_implicit.specs.Matches.{is_matched, match_of};
ghost use Rattle.em_implicit.specs.Seeking.{by_stem, candidate_by, matches, matches_of, seen};

use crate::pattern::{Match, matched};
use crate::seek::Found;
use em_base::{NoMemory, Text};
use em_rules::Rule;
use std::alloc::Global;

/// A target pattern that the target matches.
#[derive(Drop)]
pub(crate) struct Candidate<'a> {
    pub found: Found,
    pub rule: &'a Rule,
    pub parts: Match<'a>,
}

/// A pattern rule and its number.
#[derive(Clone, Copy)]
struct Numbered<'a> {
    number: usize,
    rule: &'a Rule,
}

/// The match's stem, with its directory.
fn whole_stem(alloc: Global, parts: Match<'_>) -> Result<Text, NoMemory>
    ensures { IfOk result (λ t. t ≡ parts.entry.dir.now ++ parts.entry.stem.now) }
{
    let mut stem = Text::from_slice(alloc, parts.dir)?;
    stem.add(parts.stem)?;
    Ok(stem)
}

/// The match of the target pattern of this number.
fn held<'a>(
    alloc: Global,
    numbered: Numbered<'a>,
    pattern: usize,
    parts: Match<'a>,
) -> Result<Candidate<'a>, NoMemory>
    ensures { IfOk result (λ c. seen c ∷ []
        ≡ candidate_by numbered.entry.number pattern numbered.entry.rule.now
        (Some (parts.entry.dir.now, parts.entry.stem.now))) }
{
    Ok(Candidate {
        found: Found {
            rule: numbered.number,
            pattern,
            stem: whole_stem(alloc, parts)?,
        },
        rule: numbered.rule,
        parts,
    })
}

/// The matches with that of one target pattern more, the one of this number.
fn with_pattern<'a>(
    alloc: Global,
    mut all: Vec<Candidate<'a>>,
    numbered: Numbered<'a>,
    number: usize,
    pattern: &[u8],
    target: &'a [u8],
) -> Result<Vec<Candidate<'a>>, NoMemory>
    ensures more { IfOk result (λ v. map seen v.items ≡ map seen all.entry.items
        ++ candidate_by numbered.entry.number number numbered.entry.rule.now
        (match_of pattern.now target.now)) }
    ensures unmatched { match_of pattern.now target.now ≡ None → result ≡ Ok all.entry }
{
    match matched(pattern, target) {
        None => Ok(all),
        Some(parts) => {
            all.push(held(alloc, numbered, number, parts)?)?;
            Ok(all)
        }
    }
}

/// The matches with those of one pattern rule more.
fn with_rule<'a>(
    alloc: Global,
    mut all: Vec<Candidate<'a>>,
    numbered: Numbered<'a>,
    target: &'a [u8],
) -> Result<Vec<Candidate<'a>>, NoMemory>
    ensures more { IfOk result (λ v. map seen v.items ≡ map seen all.entry.items
        ++ matches_of 0 target.now numbered.entry.number numbered.entry.rule.now
        numbered.entry.rule.now.targets) }
    ensures unmatched { is_matched numbered.entry.rule.now target.now ≡ false
        → result ≡ Ok all.entry }
{
    for (i, pattern) in numbered.rule.targets.items().iter().enumerate() {
        all = with_pattern(alloc, all, numbered, i, pattern.bytes(), target)?;
    }
    Ok(all)
}

/// The target patterns that match, rule by rule. A comparison with each target pattern of each
/// rule, and a copy of the stem for each one that matches.
pub(crate) fn matches<'a>(
    alloc: Global,
    patterns: &'a [Rule],
    target: &'a [u8],
) -> Result<Vec<Candidate<'a>>, NoMemory>
    ensures all { IfOk result (λ v. map seen v.items ≡ matches patterns.now target.now) }
    ensures unmatched { list_any (λ r. is_matched r target.now) patterns.now ≡ false
        → IsOkAnd result (λ v. v.items ≡ []) }
{
    let mut all = Vec::new(alloc);
    for (number, rule) in patterns.iter().enumerate() {
        all = with_rule(alloc, all, Numbered { number, rule }, target)?;
    }
    Ok(all)
}

/// The same matches, the shorter stem first; those whose stems are as short stay in order. The
/// steps of a sort.
pub(crate) fn sorted(mut all: Vec<Candidate<'_>>) -> Result<Vec<Candidate<'_>>, NoMemory>
    ensures { IfOk result (λ v. map seen v.items ≡ by_stem (map seen all.entry.items)) }
{
    all.sort_by_key(|c| c.found.stem.bytes().len())?;
    Ok(all)
}
