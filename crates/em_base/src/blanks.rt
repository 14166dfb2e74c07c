//! Blanks.
ghost use Rattle.std.specs.Prelude.{◌≡◌, ◌≤◌, length};
ghost use Rattle.std.specs.List.{prefix_len, suffix_len};
ghost use Rattle.em_base.specs.Blanks.{is_blank, trimmed, trimmed_start, trimmed_end};

/// Whether the byte is a space or a tab; a newline is no blank.
pub fn is_blank(byte: u8) -> bool
    ensures { result ≡ is_blank byte }
{
    byte == b' ' || byte == b'\t'
}

/// How many blanks the text begins with.
fn blanks_before(text: &[u8]) -> usize
    ensures count { result ≡ prefix_len is_blank text.now }
    ensures within { result ≤ length text.now }
{
    text.iter().take_while(|b| is_blank(**b)).count()
}

/// How many blanks the text ends with.
fn blanks_behind(text: &[u8]) -> usize
    ensures count { result ≡ suffix_len is_blank text.now }
    ensures within { result ≤ length text.now }
{
    text.iter().rev().take_while(|b| is_blank(**b)).count()
}

/// The text without the blanks that it begins with. Takes no memory; a step for each of them.
pub fn trim_start(text: &[u8]) -> &[u8]
    ensures { result.now ≡ trimmed_start text.now }
{
    &text[blanks_before(text)..]
}

/// The text without the blanks that it ends with. Takes no memory; a step for each of them.
pub fn trim_end(text: &[u8]) -> &[u8]
    ensures { result.now ≡ trimmed_end text.now }
{
    &text[..text.len() - blanks_behind(text)]
}

/// The text without the blanks at its two ends. Takes no memory; a step for each of them.
#[tactic(auto, unfolding(crate::specs::Blanks::trimmed))]
pub fn trim(text: &[u8]) -> &[u8]
    ensures { result.now ≡ trimmed text.now }
{
    trim_end(trim_start(text))
}
