//! What a word comes to.
ghost use Rattle.std.specs.Prelude.{◌≡◌};
ghost use Rattle.em_exec.specs.Words as words;

use em_base::{Seq, Text};
use em_glob::Glyph;
use std::alloc::Global;

/// What a word comes to.
#[derive(Drop)]
pub(crate) enum Expansion {
    Fields(Seq<Text>),
    Pattern(Seq<Glyph>),
}

/// Its fields.
pub(crate) fn fields_in(alloc: Global, expansion: Expansion) -> Seq<Text>
    ensures { result ≡ words.fields_in expansion }
{
    match expansion {
        Expansion::Fields(fields) => fields,
        Expansion::Pattern(_) => Seq::new(alloc),
    }
}

/// The first of the fields.
pub(crate) fn first_in(alloc: Global, fields: Seq<Text>) -> Text
    ensures { result ≡ words.first_in fields }
{
    match fields.into_vec().into_iter().next() {
        Some(first) => first,
        None => Text::new(alloc),
    }
}

/// Its glyphs.
pub(crate) fn glyphs_in(alloc: Global, expansion: Expansion) -> Seq<Glyph>
    ensures { result ≡ words.glyphs_in expansion }
{
    match expansion {
        Expansion::Fields(_) => Seq::new(alloc),
        Expansion::Pattern(glyphs) => glyphs,
    }
}
