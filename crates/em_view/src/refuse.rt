//! Which operations are refused.
ghost use Rattle.std.specs.Prelude.{◌≡◌};
ghost use Rattle.em_view.specs.Rows.{above_refusal, size_refusal, put_refusal, dir_refusal, names_refusal, stamped};

use crate::no::FileNo;
use em_path::Path;
use em_tree::{Kind, NameList};

/// The greatest length of a file's bytes.
const GREATEST: u64 = 16_777_216;

fn above_refusal(kind: Kind) -> Option<FileNo>
    ensures { result ≡ above_refusal kind }
{
    match kind {
        Kind::Absent => Some(FileNo::NoParent),
        Kind::File => Some(FileNo::NotDir),
        Kind::Dir => None,
        Kind::Link => Some(FileNo::NotDir),
    }
}

fn size_refusal(size: u64) -> Option<FileNo>
    ensures { result ≡ size_refusal size }
{
    if size > GREATEST {
        Some(FileNo::TooBig)
    } else {
        None
    }
}

/// Why no file of so many bytes can be put where this kind of node is, with this kind of parent.
/// The root is a directory.
pub(crate) fn put_refusal(kind: Kind, above: Option<Kind>, size: u64) -> Option<FileNo>
    ensures { result ≡ put_refusal kind above size }
{
    match above {
        None => Some(FileNo::IsDir),
        Some(above) => match kind {
            Kind::Dir => Some(FileNo::IsDir),
            _ => above_refusal(above).or_else(|| size_refusal(size)),
        },
    }
}

/// Why no directory can be made where this kind of node is, with this kind of parent.
pub(crate) fn dir_refusal(kind: Kind, above: Option<Kind>) -> Option<FileNo>
    ensures { result ≡ dir_refusal kind above }
{
    match above {
        None => Some(FileNo::Exists),
        Some(above) => match kind {
            Kind::Absent => above_refusal(above),
            _ => Some(FileNo::Exists),
        },
    }
}

/// Why a directory of these names can't be removed.
pub(crate) fn names_refusal(names: &Option<NameList>) -> Option<FileNo>
    ensures { result ≡ names_refusal names.now }
{
    match names {
        Some(names) => {
            if names.names().is_empty() {
                None
            } else {
                Some(FileNo::NotEmpty)
            }
        }
        None => None,
    }
}

/// The directory that gets the stamp of a file that is put where this kind of node is: the one
/// above a new name.
pub(crate) fn stamped(kind: Kind, above: Option<Path>) -> Option<Path>
    ensures { result ≡ stamped kind above }
{
    match kind {
        Kind::Absent => above,
        _ => None,
    }
}
