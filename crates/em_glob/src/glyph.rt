//! A byte of a pattern.
ghost use Rattle.std.specs.Prelude.{◌≡◌};

/// A byte of a pattern, and whether it was quoted where it stood. A quoted one stands for itself.
#[derive(Clone, Copy, Debug, PartialEq, Eq)]
pub struct Glyph {
    pub byte: u8,
    pub quoted: bool,
}

impl Glyph {
    ghost use Rattle.em_glob.specs.Patterns.{is_bare};

    /// Whether this is the byte, not quoted.
    pub(crate) fn is_bare(self, byte: u8) -> bool
        ensures { result ≡ is_bare byte self }
    {
        !self.quoted && self.byte == byte
    }
}
