//! What stands at a path.
ghost use Rattle.std.specs.Prelude.{◌≡◌, ◌≢◌, IfOk, OnErr, nat_eq, Some, option_copied, is_some, ◌||◌};
ghost use Rattle.em_tree.specs.declared.node.Kind.TheVariants as kind;
ghost use Rattle.em_tree.specs.Trees.{kind_of, stamp_in, link_of};
ghost use Rattle.std.specs.Cmp.Lexicographic.{pointwise, nat_list_eq_equiv};
ghost use Rattle.std.specs.Cmp.{partial_equiv_from_equiv};

use crate::link::LinkText;
use bytes::Bytes;
use em_base::NoMemory;
use std::alloc::{AllocError, Global};
use std::marker::Model;

/// What kind of node stands at a path.
#[derive(Clone, Copy, Debug, PartialEq, Eq)]
pub enum Kind {
    Absent,
    File,
    Dir,
    /// A symbolic link, whatever it leads to.
    Link,
}

/// The bytes of a file. Contracts see the list of its bytes; a copy shares them.
#[derive(Debug, Drop)]
pub struct Body {
    shared: Bytes,
}

impl Model for Body {
    ghost use Rattle.std.specs.Prelude.{List, ℕ};

    ghost Value = { List ℕ };

    ghost view = { λ b. b.shared };
}

impl Body {
    /// A body of these bytes.
    pub fn from_slice(alloc: Global, bytes: &[u8]) -> Result<Body, NoMemory>
        ensures { IfOk result (λ b. b ≡ bytes.now) }
    {
        Ok(Body {
            shared: Bytes::copy_from_slice(alloc, bytes)?,
        })
    }

    /// A body over these bytes, without a copy.
    pub fn from_bytes(shared: Bytes) -> Body
        ensures { result ≡ shared }
    {
        Body { shared }
    }

    /// The bytes.
    pub fn bytes(&self) -> &[u8]
        ensures { result.now ≡ self.now }
    {
        self.shared.as_slice()
    }

    /// An equal body, over the same bytes.
    pub fn copy(&self) -> Result<Body, NoMemory>
        ensures { IfOk result (λ b. b ≡ self.now) }
    {
        Ok(self.clone()?)
    }
}

impl Clone for Body {
    ghost is_clone = { λ b copy. copy ≡ b };

    fn clone(&self) -> Result<Body, AllocError> {
        Ok(Body {
            shared: self.shared.clone()?,
        })
    }
}

impl PartialEq for Body {
    ghost eq = { pointwise nat_eq };

    ghost laws = { partial_equiv_from_equiv nat_list_eq_equiv };

    fn eq(&self, other: &Self) -> bool {
        self.shared == other.shared
    }
}

impl Eq for Body {
    ghost laws = { nat_list_eq_equiv };
}

/// A file with its bytes, a directory, or a symbolic link with its text. The stamp is the number of
/// the change that made or touched it.
#[derive(Debug, Drop, PartialEq, Eq)]
pub enum Node {
    File { body: Body, stamp: u64 },
    Dir { stamp: u64 },
    Link { text: LinkText, stamp: u64 },
}

/// The flag, raised where more says so.
pub(crate) fn raised(linked: bool, more: bool) -> bool
    ensures { result ≡ (linked || more) }
{
    linked || more
}

impl Node {
    /// File, directory or link.
    pub fn kind(&self) -> Kind
        ensures { result ≡ kind_of (Some self.now) }
    {
        match self {
            Node::File { .. } => Kind::File,
            Node::Dir { .. } => Kind::Dir,
            Node::Link { .. } => Kind::Link,
        }
    }

    /// The number of the change that made or touched it.
    pub fn stamp(&self) -> u64
        ensures { result ≡ stamp_in self.now }
    {
        match self {
            Node::File { stamp, .. } | Node::Dir { stamp } | Node::Link { stamp, .. } => *stamp,
        }
    }

    /// What a link says; `None` of another node.
    pub fn link(&self) -> Option<&LinkText>
        ensures { option_copied result ≡ link_of (Some self.now) }
    {
        match self {
            Node::Link { text, .. } => Some(text),
            _ => None,
        }
    }

    pub(crate) fn is_link(&self) -> bool
        ensures { result ≡ is_some (link_of (Some self.now)) }
    {
        self.link().is_some()
    }

    /// An equal node, over the same bytes of a file; those of a link are copied. A directory always
    /// comes.
    pub fn copy(&self) -> Result<Node, NoMemory>
        ensures ok { IfOk result (λ n. n ≡ self.now) }
        ensures err { OnErr result (kind_of (Some self.now) ≢ kind.Dir) }
    {
        Ok(match self {
            Node::File { body, stamp } => Node::File {
                body: body.copy()?,
                stamp: *stamp,
            },
            Node::Dir { stamp } => Node::Dir { stamp: *stamp },
            Node::Link { text, stamp } => Node::Link {
                text: text.copy()?,
                stamp: *stamp,
            },
        })
    }
}

impl Clone for Node {
    ghost is_clone = { λ n copy. copy ≡ n };

    fn clone(&self) -> Result<Node, AllocError> {
        Ok(match self {
            Node::File { body, stamp } => Node::File {
                body: body.clone()?,
                stamp: *stamp,
            },
            Node::Dir { stamp } => Node::Dir { stamp: *stamp },
            Node::Link { text, stamp } => Node::Link {
                text: text.clone()?,
                stamp: *stamp,
            },
        })
    }
}
