//! What bytes cost.
ghost use Rattle.std.specs.Prelude.{◌≡◌, min, sum, map, length};
ghost use Rattle.em_view.specs.Rows.{blocks, size_of};
ghost use Rattle.em_view.specs.Names.{names_size};

use em_base::Text;
use em_tree::{Body, LinkText, NameList};

/// How many blocks of 256 bytes so many bytes take.
pub fn blocks(bytes: u64) -> u64
    ensures { result ≡ blocks bytes }
{
    bytes.div_ceil(256)
}

pub(crate) fn body_size(body: &Option<Body>) -> u64
    ensures { result ≡ size_of body.now }
{
    match body {
        Some(body) => body.bytes().len() as u64,
        None => 0,
    }
}

pub(crate) fn text_size(text: &Option<LinkText>) -> u64
    ensures { result ≡ size_of text.now }
{
    match text {
        Some(text) => text.bytes().len() as u64,
        None => 0,
    }
}

/// How many bytes the names have, or the greatest number where they have more.
pub(crate) fn names_size(names: &Option<NameList>) -> u64
    ensures { result ≡ min (names_size names.now) u64.MAX }
{
    match names {
        Some(names) => texts_size(names.names()),
        None => 0,
    }
}

fn texts_size(texts: &[Text]) -> u64
    ensures { result ≡ min (sum (map length texts.now)) u64.MAX }
{
    let mut size: u64 = 0;
    for text in texts {
        size = size.saturating_add(text.bytes().len() as u64);
    }
    size
}
