//! Arguments that aren't expanded yet, what a value decides, and what it costs.
ghost use Rattle.std.specs.Prelude.{◌≡◌, ◌-◌, map, length};
ghost use Rattle.em_view.specs.Rows as rows;
ghost use Rattle.em_expand.specs.Scopes.{nth};
ghost use Rattle.em_expand.specs.Expansion.{picked, ends};

use em_base::Text;
use em_view::blocks;

/// The n-th argument, unexpanded; one that isn't there is empty.
pub(crate) fn nth<'a>(n: usize, args: &[&'a [u8]]) -> &'a [u8]
    ensures { result.now ≡ nth n (map (λ a. a.now) args.now) }
{
    match args.get(n) {
        Some(text) => *text,
        None => b"",
    }
}

/// The text that a condition picks.
pub(crate) fn picked<'a>(condition: &Text, args: &[&'a [u8]]) -> &'a [u8]
    ensures { result.now ≡ picked condition.now (map (λ a. a.now) args.now) }
{
    if condition.bytes().is_empty() {
        nth(2, args)
    } else {
        nth(1, args)
    }
}

/// Whether a value ends `or`, at true, or `and`.
pub(crate) fn ends(filled: bool, value: &Text) -> bool
    ensures { result ≡ ends filled value.now }
{
    value.bytes().is_empty() != filled
}

/// How many bytes a text has.
pub(crate) fn length_of(text: &Text) -> usize
    ensures { result ≡ length text.now }
{
    text.bytes().len()
}

/// How many blocks a text has behind its first so many bytes.
pub(crate) fn cost(text: &Text, before: usize) -> u64
    ensures { result ≡ rows.blocks (length text.now - before) }
{
    blocks(text.bytes().len().saturating_sub(before) as u64)
}
