//! The leftmost fault, and what stands before it.
ghost use Rattle.std.specs.Prelude.{◌≡◌};
ghost use Rattle.em_lexeme.specs.Faults as faults;

use crate::lexeme::{Lexed, Lexeme, What};
use crate::no::LexNo;
use em_base::Seq;

/// Where a fault stands.
fn place_of(fault: &LexNo) -> usize
    ensures { result ≡ faults.place_of fault.now }
{
    match fault {
        LexNo::Unclosed(at) => *at,
        LexNo::Refused(_, at) => *at,
        LexNo::NoMemory => 0,
    }
}

/// The leftmost of what isn't closed and another fault.
pub fn leftmost(unclosed: Option<usize>, fault: Option<LexNo>) -> Option<LexNo>
    ensures { result ≡ faults.leftmost unclosed fault }
{
    let Some(at) = unclosed else {
        return fault;
    };
    if let Some(other) = fault {
        if at > place_of(&other) {
            return Some(other);
        }
    }
    Some(LexNo::Unclosed(at))
}

/// Whether this is of a redirection.
fn redirects(what: &What) -> bool
    ensures { result ≡ faults.redirects what.now }
{
    matches!(
        what,
        What::Number(_) | What::Less | What::Great | What::DoubleGreat | What::GreatAnd
    )
}

/// Whether the lexeme ends at the place or before, or a redirection begins there with it.
fn is_until(l: &Lexeme, at: usize) -> bool
    ensures { result ≡ faults.is_until at l.now }
{
    l.span.end <= at || l.span.start == at && redirects(&l.what)
}

/// How many lexemes at the begin stand up to the place.
fn count_until(items: &[Lexeme], at: usize) -> usize
    ensures { result ≡ faults.count_until at items.now }
{
    items.iter().take_while(|l| is_until(l, at)).count()
}

/// The lexemes up to the fault.
pub fn up_to(stop: Option<LexNo>, items: Seq<Lexeme>) -> Lexed
    ensures { result ≡ faults.up_to stop items }
{
    let Some(fault) = stop else {
        return Lexed { items, stop: None };
    };
    let mut held = items.into_vec();
    let count = count_until(held.as_slice(), place_of(&fault));
    held.truncate(count);
    let items = Seq::from_vec(held);
    let stop = Some(fault);
    Lexed { items, stop }
}
