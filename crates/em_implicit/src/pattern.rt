//! Whether a target matches a target pattern.
ghost use Rattle.std.specs.Prelude.{◌≡◌, ◌++◌, ◌<◌, ◌≤◌, length, option_copied, option_map, slice_get, IfSome, IsSomeAnd};
ghost use Rattle.em_wordlist.specs.Stems.{filled};
ghost use Rattle.em_implicit.specs.Matches.{behind, filled_stem, match_at, match_of};

use em_rules::Rule;
use em_wordlist::laws::law_filled_matches;
use em_wordlist::stem;

/// How a target matches a target pattern.
#[derive(Clone, Copy, Debug)]
pub struct Match<'a> {
    /// The target's directory with its slash, where the pattern has no slash; else empty.
    pub dir: &'a [u8],
    /// What the pattern's `%` stands for, behind the directory. It isn't empty.
    pub stem: &'a [u8],
}

/// How many bytes stand behind the last slash, or in all.
fn behind(name: &[u8]) -> usize
    ensures count { result ≡ behind name.now }
    ensures within { result ≤ length name.now }
{
    name.iter().rev().take_while(|b| **b != b'/').count()
}

/// What the pattern's `%` stands for in a word: at least one byte.
fn filled_stem<'a>(pattern: &[u8], word: &'a [u8]) -> Option<&'a [u8]>
    ensures stem { option_copied result ≡ filled_stem pattern.now word.now }
    ensures spelled { IfSome result (λ s. (0 < length s.now)
        × (word.now ≡ filled pattern.now s.now)) }
{
    law_filled_matches();
    let found = stem(pattern, word)?.of(word);
    if found.is_empty() { None } else { Some(found) }
}

/// How a target matches a target pattern; `None` exactly where it doesn't. A pattern without a
/// slash is matched against what stands behind the target's last slash, and its `%` stands for at
/// least one byte.
pub(crate) fn matched<'a>(pattern: &[u8], target: &'a [u8]) -> Option<Match<'a>>
    ensures parts { option_map (λ m. (m.dir.now, m.stem.now)) result
        ≡ match_of pattern.now target.now }
    ensures spelled { IfSome result (λ m. (0 < length m.stem.now)
        × (target.now ≡ m.dir.now ++ filled pattern.now m.stem.now)) }
{
    let at = if pattern.contains(&b'/') {
        0
    } else {
        target.len() - behind(target)
    };
    let (dir, word) = target.split_at(at);
    let stem = filled_stem(pattern, word)?;
    Some(Match { dir, stem })
}

/// How a target matches the target pattern of this number of a rule; `None` exactly where it
/// doesn't match it, or there is no such pattern.
pub fn match_at<'a>(rule: &Rule, pattern: usize, target: &'a [u8]) -> Option<Match<'a>>
    ensures parts { option_map (λ m. (m.dir.now, m.stem.now)) result
        ≡ match_at rule.now pattern target.now }
    ensures spelled { IfSome result (λ m. (0 < length m.stem.now)
        × IsSomeAnd (slice_get rule.now.targets pattern)
        (λ p. target.now ≡ m.dir.now ++ filled p m.stem.now)) }
{
    matched(rule.targets.get(pattern)?.bytes(), target)
}
