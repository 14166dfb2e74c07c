//! The order of texts, by words of eight or four bytes, the last of which may overlap the one
//! before.
ghost use Rattle.std.specs.Prelude.{◌≡◌, ◌+◌, ◌≤◌, min, length, take, drop};
ghost use Rattle.std.specs.Ordering.{nat_cmp};
ghost use Rattle.std.specs.Cmp.Lexicographic.{slice_cmp};
ghost use Rattle.std.specs.Slice.Scan.{big_endian};

use std::cmp::Ordering;

/// The number that eight bytes spell, the greatest first.
fn word(text: &[u8], at: usize) -> u64
    requires { at + 8 ≤ length text.now }
    ensures { result ≡ big_endian 0 (take 8 (drop at text.now)) }
{
    u64::from_be_bytes([
        text[at],
        text[at + 1],
        text[at + 2],
        text[at + 3],
        text[at + 4],
        text[at + 5],
        text[at + 6],
        text[at + 7],
    ])
}

/// The number that four bytes spell, the greatest first.
fn half_word(text: &[u8], at: usize) -> u32
    requires { at + 4 ≤ length text.now }
    ensures { result ≡ big_endian 0 (take 4 (drop at text.now)) }
{
    u32::from_be_bytes([text[at], text[at + 1], text[at + 2], text[at + 3]])
}

/// How two texts stand of which one has fewer than four bytes.
fn order_bytes(one: &[u8], other: &[u8]) -> Ordering
    ensures { result ≡ slice_cmp nat_cmp one.now other.now }
{
    one.cmp(other)
}

/// How two texts stand of which both have at least four bytes and one at most eight: the first four
/// bytes, then the last four of the shorter one's length, which may overlap them, then the lengths.
fn order_halves(one: &[u8], other: &[u8], both: usize) -> Ordering
    requires four { 4 ≤ both }
    requires eight { both ≤ 8 }
    requires both { both ≡ min (length one.now) (length other.now) }
    ensures { result ≡ slice_cmp nat_cmp one.now other.now }
{
    let (x, y) = (half_word(one, 0), half_word(other, 0));
    if x != y {
        return x.cmp(&y);
    }
    let (v, w) = (half_word(one, both - 4), half_word(other, both - 4));
    if v != w {
        return v.cmp(&w);
    }
    one.len().cmp(&other.len())
}

/// How two texts stand of which both have at least eight bytes: word by word, the last one ending
/// where the shorter text does.
fn order_words(one: &[u8], other: &[u8], both: usize) -> Ordering
    requires eight { 8 ≤ both }
    requires both { both ≡ min (length one.now) (length other.now) }
    ensures { result ≡ slice_cmp nat_cmp one.now other.now }
{
    let mut at = 0;
    while at + 8 <= both {
        let (x, y) = (word(one, at), word(other, at));
        if x != y {
            return x.cmp(&y);
        }
        at += 8;
    }
    let (v, w) = (word(one, both - 8), word(other, both - 8));
    if v != w {
        return v.cmp(&w);
    }
    one.len().cmp(&other.len())
}

/// How two texts stand in byte order. Steps for each eight bytes that they share.
pub(crate) fn order(one: &[u8], other: &[u8]) -> Ordering
    ensures { result ≡ slice_cmp nat_cmp one.now other.now }
{
    let both = one.len().min(other.len());
    if both >= 8 {
        return order_words(one, other, both);
    }
    if both >= 4 {
        return order_halves(one, other, both);
    }
    order_bytes(one, other)
}
