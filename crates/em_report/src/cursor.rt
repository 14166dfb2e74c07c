//! Where reading stands.
ghost use Rattle.std.specs.Prelude.{◌+◌, ◌^◌, ◌<◌, length};

/// A place in the text, and the bytes from there on.
#[derive(Clone, Copy)]
pub struct Cursor<'a> {
    pub at: usize,
    pub rest: &'a [u8],
    ghost near: { at + length rest.now < 2 ^ 64 },
}
