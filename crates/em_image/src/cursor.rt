//! Where reading stands.
ghost use Rattle.std.specs.Prelude.{◌+◌, ◌≤◌, length};

/// What a line begins with.
#[derive(Clone, Copy, Debug, PartialEq, Eq)]
pub enum Mark {
    /// `d`, of a directory.
    Dir,
    /// `f`, of a file.
    File,
    /// `l`, of a symbolic link.
    Link,
    /// `.`, of the end.
    End,
}

/// A place in the input, and the bytes from there on.
#[derive(Clone, Copy)]
pub struct Cursor<'a> {
    pub at: u32,
    pub rest: &'a [u8],
    ghost near: { at + length rest.now ≤ 67108864 },
}
