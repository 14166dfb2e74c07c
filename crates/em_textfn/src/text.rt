//! The functions on a text as a whole.
ghost use Rattle.std.specs.Prelude.{◌≡◌, [], IfOk, if◌then◌else◌};
ghost use Rattle.em_textfn.specs.Texts.{substituted, occurs};

use bstr::ByteSlice;
use em_base::{NoMemory, Text};
use std::alloc::Global;

/// `subst f,t,x`: each f in x replaced by t, where an empty f stands at the end of x alone.
pub(crate) fn subst(alloc: Global, f: &[u8], t: &[u8], x: &[u8]) -> Result<Text, NoMemory>
    ensures { IfOk result (λ r. r ≡ substituted f.now t.now x.now) }
{
    if f.is_empty() {
        let mut text = Text::from_slice(alloc, x)?;
        text.add(t)?;
        return Ok(text);
    }
    Ok(Text::from_vec(x.replace(alloc, f, t)?))
}

/// Whether f stands in x.
fn holds(f: &[u8], x: &[u8]) -> bool
    ensures { result ≡ occurs f.now x.now }
{
    x.split_once_str(f).is_some()
}

/// `findstring f,x`: f where it stands in x, else nothing.
pub(crate) fn find_string(alloc: Global, f: &[u8], x: &[u8]) -> Result<Text, NoMemory>
    ensures { IfOk result (λ r. r ≡ (if occurs f.now x.now then f.now else [])) }
{
    Text::from_slice(alloc, if holds(f, x) { f } else { b"" })
}
