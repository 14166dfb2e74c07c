//! Reading a name against a working directory.
ghost use Rattle.std.specs.Prelude.{◌≡◌, ◌<◌, ◌≤◌, ◌≢◌, ◌+◌, ◌-◌, ◌==◌, ◌∷◌, ◌++◌, ◌⊎◌, [], ℕ, List, All, length, take, drop, slice_index, IfOk, IfErr, OnOk, OnErr, None, Some};
ghost use Rattle.std.specs.List.{slice_split, list_any};
ghost use Rattle.em_path.specs.Paths.{IsComponent, IsPath, components, path_text};
ghost use Rattle.em_path.specs.Reading.{name_fault_of, limit_fault, start_of, step, walk, resolved_text};
ghost use Rattle.em_path.specs.Spelled.{spelled};

use crate::name::{front, last_slash};
use crate::path::PathNo;
use std::alloc::{AllocError, Global};

/// Whether the byte stands in the name.
fn holds(name: &[u8], byte: u8) -> bool
    ensures { result ≡ list_any (λ b. b == byte) name.now }
{
    name.iter().any(|b| *b == byte)
}

/// Why the name is no path by its bytes alone.
pub(crate) fn name_fault(name: &[u8]) -> Option<PathNo>
    ensures { result ≡ name_fault_of name.now }
{
    if name.is_empty() {
        Some(PathNo::Empty)
    } else if holds(name, 0) {
        Some(PathNo::Nul)
    } else if holds(name, b'\n') {
        Some(PathNo::Newline)
    } else {
        None
    }
}

/// The components from which the name goes on, each behind a slash.
fn start(alloc: Global, cwd: &[u8], name: &[u8]) -> Result<Vec<u8>, AllocError>
    requires { IsPath cwd.now }
    ensures { IfOk result (λ v. v.items ≡ spelled (start_of cwd.now name.now)) }
{
    if name.first() == Some(&b'/') {
        return Ok(Vec::new(alloc));
    }
    Vec::from_slice(alloc, front(cwd))
}

/// Takes the last component off, if there is one.
fn up(text: &mut Vec<u8>)
    ensures { (cs : List (List ℕ)) → All IsComponent cs → text.old.items ≡ spelled cs
        → text.new.items ≡ spelled (take (length cs - 1) cs) }
{
    if text.is_empty() || text[0] != b'/' {
        return;
    }
    let at = last_slash(text.as_slice());
    text.truncate(at);
}

/// Goes one part of the name on.
fn go(text: &mut Vec<u8>, part: &[u8]) -> Result<(), AllocError>
    ensures { OnOk result ((cs : List (List ℕ)) → All IsComponent cs → text.old.items ≡ spelled cs
        → text.new.items ≡ spelled (step cs part.now)) }
{
    if part == b"".as_slice() || part == b".".as_slice() {
        return Ok(());
    }
    if part == b"..".as_slice() {
        up(text);
        return Ok(());
    }
    text.push(b'/')?;
    text.extend_from_slice(part)?;
    Ok(())
}

/// Goes all parts of the name on.
fn go_on(text: &mut Vec<u8>, name: &[u8]) -> Result<(), AllocError>
    requires { name_fault_of name.now ≡ None }
    ensures { OnOk result ((cs : List (List ℕ)) → All IsComponent cs → text.old.items ≡ spelled cs
        → text.new.items ≡ spelled (walk cs (slice_split (λ b. b == 47) name.now))) }
{
    for part in name.split(|b| *b == b'/') {
        go(text, part)?;
    }
    Ok(())
}

/// Makes the root's text of nothing.
fn rooted(text: &mut Vec<u8>) -> Result<(), AllocError>
    ensures { OnOk result ((cs : List (List ℕ)) → text.old.items ≡ spelled cs
        → text.new.items ≡ path_text cs) }
{
    if text.is_empty() {
        text.push(b'/')?;
    }
    Ok(())
}

/// The text that the name comes to.
pub(crate) fn resolved(alloc: Global, cwd: &[u8], name: &[u8]) -> Result<Vec<u8>, AllocError>
    requires path { IsPath cwd.now }
    requires named { name_fault_of name.now ≡ None }
    ensures { IfOk result (λ v. v.items ≡ resolved_text cwd.now name.now) }
{
    let mut text = start(alloc, cwd, name)?;
    go_on(&mut text, name)?;
    rooted(&mut text)?;
    Ok(text)
}
