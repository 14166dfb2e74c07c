//! Why a text has no expansion.
ghost use Rattle.std.specs.Prelude.{◌≡◌, false};
ghost use Rattle.em_expand.specs.declared.no.ExpandNo.TheVariants.{NoMemory};
ghost use Rattle.em_expand.specs.Desks.{is_free, of_desk};

use em_base::Text;
use em_view::DeskNo;
use std::alloc::{AllocError, AllocFailed, Global};
use thiserror::Error;

/// Why a text has no expansion. What was said and kept for `eval` before it stands.
#[derive(Debug, Drop, PartialEq, Eq, Error)]
pub enum ExpandNo {
    /// A recursive variable of this name is referred to while it is being expanded.
    #[error("a recursive variable references itself")]
    SelfReference(Text),
    /// The text of `error`.
    #[error("an error of the makefile")]
    UserError(Text),
    /// The function of this name is called with too few arguments or with one that it can't take.
    #[error("a bad argument of a function")]
    BadArgument(Text),
    /// A reference isn't closed, or its `$` is the last byte.
    #[error("unterminated reference")]
    Unclosed,
    /// The function of this name isn't supported.
    #[error("a function that is refused")]
    Refused(Text),
    /// The fuel doesn't suffice.
    #[error("fuel spent")]
    Spent,
    /// More than 200 references and calls stand in one another.
    #[error("too deep")]
    TooDeep,
    #[error("out of memory")]
    NoMemory,
}

impl From<em_base::NoMemory> for ExpandNo {
    ghost from_gives = { λ _ e. e ≡ NoMemory };

    fn from(_e: em_base::NoMemory) -> ExpandNo {
        ExpandNo::NoMemory
    }
}

impl From<AllocError> for ExpandNo {
    ghost from_gives = { λ _ e. e ≡ NoMemory };

    fn from(_e: AllocError) -> ExpandNo {
        ExpandNo::NoMemory
    }
}

impl<T: Drop> From<AllocFailed<T>> for ExpandNo {
    ghost from_gives = { λ _ e. e ≡ NoMemory };

    fn from(_e: AllocFailed<T>) -> ExpandNo {
        ExpandNo::NoMemory
    }
}

/// A desk's refusal in an expansion, which changes no file: a refusal of an operation never comes.
impl From<DeskNo> for ExpandNo {
    ghost from_gives = { λ e r. r ≡ of_desk e };

    fn from(e: DeskNo) -> ExpandNo {
        match e {
            DeskNo::NoMemory => ExpandNo::NoMemory,
            DeskNo::Spent => ExpandNo::Spent,
            DeskNo::File(_) => ExpandNo::Spent,
        }
    }
}

/// The variable of this name refers to itself.
pub(crate) fn self_reference(alloc: Global, text: &[u8]) -> ExpandNo
    ensures { is_free result ≡ false → result ≡ ExpandNo.SelfReference text.now }
{
    match Text::from_slice(alloc, text) {
        Ok(text) => ExpandNo::SelfReference(text),
        Err(_) => ExpandNo::NoMemory,
    }
}

/// An error of the makefile with this text.
pub(crate) fn user_error(alloc: Global, text: &[u8]) -> ExpandNo
    ensures { is_free result ≡ false → result ≡ ExpandNo.UserError text.now }
{
    match Text::from_slice(alloc, text) {
        Ok(text) => ExpandNo::UserError(text),
        Err(_) => ExpandNo::NoMemory,
    }
}

/// The function of this name has too few arguments, or one that it can't take.
pub(crate) fn bad_argument(alloc: Global, text: &[u8]) -> ExpandNo
    ensures { is_free result ≡ false → result ≡ ExpandNo.BadArgument text.now }
{
    match Text::from_slice(alloc, text) {
        Ok(text) => ExpandNo::BadArgument(text),
        Err(_) => ExpandNo::NoMemory,
    }
}

/// The function of this name isn't supported.
pub(crate) fn refused(alloc: Global, text: &[u8]) -> ExpandNo
    ensures { is_free result ≡ false → result ≡ ExpandNo.Refused text.now }
{
    match Text::from_slice(alloc, text) {
        Ok(text) => ExpandNo::Refused(text),
        Err(_) => ExpandNo::NoMemory,
    }
}
