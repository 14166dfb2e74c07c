//! `basename` and `dirname`.
ghost use Rattle.std.specs.Prelude.{◌≡◌, ◌≤◌, length, IsTrue};
ghost use Rattle.std.specs.List.{suffix_len};
ghost use Rattle.em_lineutil.specs.Names as names;
ghost use Rattle.em_lineutil.specs.Names.{has_suffix, is_slash, is_other, trimmed, or_root, above};

/// How many slashes the name ends with.
fn slashes_behind(name: &[u8]) -> usize
    ensures count { result ≡ suffix_len is_slash name.now }
    ensures within { result ≤ length name.now }
{
    name.iter().rev().take_while(|b| **b == b'/').count()
}

/// How many bytes stand behind the last slash.
fn last_length(name: &[u8]) -> usize
    ensures count { result ≡ suffix_len is_other name.now }
    ensures within { result ≤ length name.now }
{
    name.iter().rev().take_while(|b| **b != b'/').count()
}

fn trimmed(name: &[u8]) -> &[u8]
    ensures { result.now ≡ trimmed name.now }
{
    &name[..name.len() - slashes_behind(name)]
}

/// The last part of a name: what stands behind the last slash that isn't at its end. Of slashes
/// alone one is left, and the empty name stays. A step for each byte; takes no memory.
#[tactic(auto, unfolding(crate::specs::Names::base_name))]
pub fn base_name(name: &[u8]) -> &[u8]
    ensures { result.now ≡ names.base_name name.now }
{
    let text = trimmed(name);
    if text.is_empty() {
        return &name[..name.len().min(1)];
    }
    &text[text.len() - last_length(text)..]
}

/// Whether the name is more than the suffix, and ends with it.
fn has_suffix(name: &[u8], suffix: &[u8]) -> bool
    ensures value { result ≡ has_suffix suffix.now name.now }
    ensures within { IsTrue result → length suffix.now ≤ length name.now }
{
    name.ends_with(suffix) && name != suffix
}

/// The name without the suffix, if it ends with it and is longer. A step for each byte of the
/// suffix; takes no memory.
#[tactic(auto, unfolding(crate::specs::Names::without_suffix))]
pub fn without_suffix<'a>(name: &'a [u8], suffix: &[u8]) -> &'a [u8]
    ensures { result.now ≡ names.without_suffix suffix.now name.now }
{
    if has_suffix(name, suffix) {
        &name[..name.len() - suffix.len()]
    } else {
        name
    }
}

fn or_root(name: &[u8]) -> &[u8]
    ensures { result.now ≡ or_root name.now }
{
    if name.is_empty() { b"/" } else { name }
}

fn above(front: &[u8]) -> &[u8]
    ensures { result.now ≡ above front.now }
{
    if front.is_empty() {
        b"."
    } else {
        or_root(trimmed(front))
    }
}

/// What stands before the last part of a name: `.` where there is no slash before it, `/` where
/// there are slashes alone. A step for each byte; takes no memory.
#[tactic(auto, unfolding(crate::specs::Names::dir_name))]
pub fn dir_name(name: &[u8]) -> &[u8]
    ensures { result.now ≡ names.dir_name name.now }
{
    let text = trimmed(name);
    if name.is_empty() {
        b"."
    } else if text.is_empty() {
        b"/"
    } else {
        above(&text[..text.len() - last_length(text)])
    }
}
