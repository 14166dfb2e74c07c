//! `cmp`: where two texts differ.
ghost use Rattle.std.specs.Prelude.{◌≡◌, ◌<◌, ◌≤◌, length, count_by, IfSome};
ghost use Rattle.em_lineutil.specs.Lines.{is_newline};
ghost use Rattle.em_lineutil.specs.Searching.{comparison, comparison_by, first_difference, by_length};

/// How two texts compare.
#[derive(Clone, Copy, Debug, PartialEq, Eq)]
pub enum Comparison {
    Same,
    /// They differ first at this byte, in this line; both are counted from 1.
    Differ(usize, usize),
    /// The first text ends where the second goes on.
    FirstShort,
    /// The second text ends where the first goes on.
    SecondShort,
}

fn first_difference(a: &[u8], b: &[u8]) -> Option<usize>
    ensures place { result ≡ first_difference a.now b.now }
    ensures within { IfSome result (λ i. i < length a.now) }
{
    a.iter().zip(b).position(|(x, y)| x != y)
}

fn by_length(m: usize, n: usize) -> Comparison
    ensures { result ≡ by_length m n }
{
    if m < n {
        Comparison::FirstShort
    } else if n < m {
        Comparison::SecondShort
    } else {
        Comparison::Same
    }
}

/// How many newlines there are.
fn newlines(text: &[u8]) -> usize
    ensures count { result ≡ count_by is_newline text.now }
    ensures within { result ≤ length text.now }
{
    text.iter().filter(|b| **b == b'\n').count()
}

/// Where two texts differ. A step for each byte up to there; takes no memory.
#[tactic(auto, unfolding(crate::specs::Searching::comparison))]
pub fn compare(a: &[u8], b: &[u8]) -> Comparison
    ensures { result ≡ comparison a.now b.now }
{
    match first_difference(a, b) {
        Some(at) => {
            let line = newlines(&a[..at]);
            Comparison::Differ(at + 1, line + 1)
        }
        None => by_length(a.len(), b.len()),
    }
}
