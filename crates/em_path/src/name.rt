//! Which bytes are a component, and which are a path's text.
ghost use Rattle.std.specs.Prelude.{◌≡◌, ◌+◌, ◌<◌, ◌≤◌, ◌↔◌, ◌==◌, length, IsTrue, All, MatchOption, ◌∷◌, ◌++◌, drop, take, slice_index, ◌≢◌, ℕ, [], if◌then◌else◌, IfOk};
ghost use Rattle.std.specs.List.{slice_split};
ghost use Rattle.em_path.specs.Paths.{IsComponent, IsPath, components};

use std::alloc::{AllocError, Global};

/// Whether the name is one component: not empty, `.` or `..`, and without `/`, NUL and newline.
pub fn is_component(name: &[u8]) -> bool
    ensures { IsTrue result ↔ IsComponent name.now }
{
    !name.is_empty()
        && name != b".".as_slice()
        && name != b"..".as_slice()
        && name.iter().all(|b| *b != b'/' && *b != 0 && *b != b'\n')
}

/// Whether each part between slashes is a component.
fn are_components(parts: &[u8]) -> bool
    ensures { IsTrue result ↔ All IsComponent (slice_split (λ b. b == 47) parts.now) }
{
    parts.split(|b| *b == b'/').all(|part| is_component(part))
}

/// How many parts stand between slashes.
fn count_parts(parts: &[u8]) -> usize
    ensures { result ≡ length (slice_split (λ b. b == 47) parts.now) }
{
    parts.split(|b| *b == b'/').count()
}

/// Whether the text spells a path.
pub(crate) fn is_path(text: &[u8]) -> bool
    ensures { IsTrue result ↔ IsPath text.now }
{
    match text.split_first() {
        Some((b'/', [])) => true,
        Some((b'/', parts)) => {
            text.len() <= 1024 && count_parts(parts) <= 64 && are_components(parts)
        }
        _ => false,
    }
}

/// How many components a path's text has.
pub(crate) fn depth(text: &[u8]) -> usize
    requires { 1 ≤ length text.now }
    ensures { result ≡ length (components text.now) }
{
    if text.len() == 1 {
        return 0;
    }
    count_parts(&text[1..])
}

/// What stands before a child's slash: nothing for the root, else the text.
pub(crate) fn front(text: &[u8]) -> &[u8]
    ensures { result.now ≡ (if length text.now == 1 then [] else text.now) }
{
    if text.len() == 1 { b"" } else { text }
}

/// The texts with a slash between.
pub(crate) fn joined(alloc: Global, front: &[u8], name: &[u8]) -> Result<Vec<u8>, AllocError>
    ensures { IfOk result (λ v. v.items ≡ front.now ++ 47 ∷ name.now) }
{
    let mut text = Vec::from_slice(alloc, front)?;
    text.push(b'/')?;
    text.extend_from_slice(name)?;
    Ok(text)
}

/// Where the last slash stands.
pub(crate) fn last_slash(text: &[u8]) -> usize
    requires { (1 ≤ length text.now) × (slice_index text.now 0 ≡ 47) }
    ensures bound { result < length text.now }
    ensures found { slice_index text.now result ≡ 47 }
    ensures after { (k : ℕ) → result < k → k < length text.now → slice_index text.now k ≢ 47 }
{
    let mut at = text.len() - 1;
    while text[at] != b'/' {
        at -= 1;
    }
    at
}
