//! Why an image is refused.
ghost use Rattle.std.specs.Prelude.{◌≡◌};
ghost use Rattle.em_image.specs.declared.no.ImageNo.TheVariants as no;

use em_base::NoMemory;
use std::alloc::{AllocError, AllocFailed};
use thiserror::Error;

/// What is too big.
#[derive(Clone, Copy, Debug, PartialEq, Eq, Error)]
pub enum Which {
    /// The text has more than 67,108,864 bytes.
    #[error("Image")]
    Image,
    /// There are more than 100,000 nodes.
    #[error("Nodes")]
    Nodes,
    /// A file has more than 16,777,216 bytes.
    #[error("File")]
    File,
    /// A stamp is above 2^62.
    #[error("Stamp")]
    Stamp,
    /// The text of a symbolic link has no byte, or more than 1,024.
    #[error("Link")]
    Link,
}

/// The first fault of an image, with its place: an offset in bytes. A refusal to write has the
/// place 0.
#[derive(Clone, Copy, Debug, PartialEq, Eq, Error)]
pub enum ImageNo {
    /// A fixed byte isn't there, a byte can't stand in the text of a link, or the end comes where
    /// the first line says that there is a link and none came. The place is that byte.
    #[error("Form at byte {at}")]
    Form { at: u32 },
    /// A number has no digit or a leading zero. The place is that of its first digit.
    #[error("Number at byte {at}")]
    Number { at: u32 },
    /// A path's text is no path. The place is its first byte.
    #[error("Path at byte {at}")]
    Path { at: u32 },
    /// A path isn't greater than the path before. The place is its first byte.
    #[error("Order at byte {at}")]
    Order { at: u32 },
    /// A path's parent is no directory that was read before, or the first node isn't the directory
    /// `/`. The place is the path's first byte.
    #[error("Parent at byte {at}")]
    Parent { at: u32 },
    /// The input ends inside a part. The place is the input's length.
    #[error("Short at byte {at}")]
    Short { at: u32 },
    /// Bytes stand behind the end line. The place is the first of them.
    #[error("Rest at byte {at}")]
    Rest { at: u32 },
    /// Something is above its limit. The place is 67,108,864 for the image, the letter of the first
    /// node too many, or the number.
    #[error("Limit({which}) at byte {at}")]
    Limit { which: Which, at: u32 },
    /// Memory ran out.
    #[error("out of memory")]
    NoMemory,
}

impl From<NoMemory> for ImageNo {
    ghost from_gives = { λ _ e. e ≡ no.NoMemory };

    fn from(_e: NoMemory) -> ImageNo {
        ImageNo::NoMemory
    }
}

impl From<AllocError> for ImageNo {
    ghost from_gives = { λ _ e. e ≡ no.NoMemory };

    fn from(_e: AllocError) -> ImageNo {
        ImageNo::NoMemory
    }
}

impl<T: Drop> From<AllocFailed<T>> for ImageNo {
    ghost from_gives = { λ _ e. e ≡ no.NoMemory };

    fn from(_e: AllocFailed<T>) -> ImageNo {
        ImageNo::NoMemory
    }
}
