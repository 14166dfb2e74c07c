//! The text of a symbolic link.
ghost use Rattle.std.specs.Prelude.{◌≡◌, nat_eq, refl, Some, IfOk};
ghost use Rattle.std.specs.Ordering.{nat_cmp};
ghost use Rattle.std.specs.Cmp.Lexicographic.{pointwise, slice_cmp, nat_list_eq_equiv, nat_list_cmp_total, texts_ties, texts_po};
ghost use Rattle.std.specs.Cmp.{partial_equiv_from_equiv};
ghost use Rattle.em_tree.specs.LinkTexts.{IsLinkText};

use em_base::{NoMemory, Text};
use std::alloc::AllocError;
use std::cmp::Ordering;
use std::marker::Model;

/// What a symbolic link says: 1 to 1,024 bytes without NUL and newline, as POSIX's `symlink` keeps
/// them. They need not be a path. Contracts see the list of the bytes; `==` and the order go by
/// them.
#[derive(Debug, Drop)]
pub struct LinkText {
    held: Vec<u8>,
}

impl Model for LinkText {
    ghost use Rattle.std.specs.Prelude.{List, ℕ};
    ghost use Rattle.em_tree.specs.LinkTexts.{IsLinkText};

    ghost Value = { List ℕ };

    ghost view = { λ t. t.held.items };

    ghost invariant = { λ t. IsLinkText t.held.items };
}

impl LinkText {
    /// The text of a link. It takes no memory.
    pub fn new(text: Text) -> LinkText
        requires { IsLinkText text }
        ensures { result ≡ text }
    {
        LinkText {
            held: text.into_vec(),
        }
    }

    /// The bytes. It takes no memory.
    pub fn bytes(&self) -> &[u8]
        ensures bytes { result.now ≡ self.now }
        ensures text { IsLinkText self.now }
    {
        self.held.as_slice()
    }

    /// An equal text, in as many steps as it has bytes.
    pub fn copy(&self) -> Result<LinkText, NoMemory>
        ensures { IfOk result (λ t. t ≡ self.now) }
    {
        Ok(self.clone()?)
    }
}

impl Clone for LinkText {
    ghost is_clone = { λ t copy. copy ≡ t };

    fn clone(&self) -> Result<LinkText, AllocError> {
        Ok(LinkText {
            held: self.held.clone()?,
        })
    }
}

impl PartialEq for LinkText {
    ghost eq = { pointwise nat_eq };

    ghost laws = { partial_equiv_from_equiv nat_list_eq_equiv };

    fn eq(&self, other: &Self) -> bool {
        self.bytes() == other.bytes()
    }
}

impl Eq for LinkText {
    ghost laws = { nat_list_eq_equiv };
}

impl PartialOrd for LinkText {
    ghost partial_cmp = { λ x y. Some (slice_cmp nat_cmp x y) };

    ghost laws = { texts_po };

    fn partial_cmp(&self, other: &Self) -> Option<Ordering> {
        Some(self.cmp(other))
    }
}

impl Ord for LinkText {
    ghost cmp = { slice_cmp nat_cmp };

    ghost total = { nat_list_cmp_total };

    ghost matches_partial_cmp = { λ x y. refl };

    ghost matches_eq = { texts_ties };

    fn cmp(&self, other: &Self) -> Ordering {
        self.bytes().cmp(other.bytes())
    }
}
