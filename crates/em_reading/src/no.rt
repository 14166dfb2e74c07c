//! Why a reading ends early.
ghost use Rattle.std.specs.Prelude.{◌≡◌, false};
ghost use Rattle.em_reading.specs.declared.no.ReadNo.TheVariants.{NoMemory as OutOfMemory};
ghost use Rattle.em_reading.specs.declared.no.MakefileFault.TheVariants as fault;
ghost use Rattle.em_reading.specs.Faults.{is_free, at_place, of_expand, of_book, of_desk};

use em_base::{NoMemory, Place, Text};
use em_expand::ExpandNo;
use em_rules::BookNo;
use em_view::DeskNo;
use std::alloc::{AllocError, AllocFailed, Global};
use thiserror::Error;

/// What is wrong with a rule.
#[derive(Debug, Drop, PartialEq, Eq, Error)]
pub enum RuleNo {
    /// A recipe's line without a rule before it.
    #[error("recipe commences before first target")]
    Recipe,
    /// The first target of a static pattern rule that its target pattern doesn't match.
    #[error("a target doesn't match the target pattern")]
    Static(Text),
    /// The first target of a grouped rule without a recipe.
    #[error("a grouped target needs a recipe")]
    Group(Text),
    /// The first target that has rules of both kinds, ordinary and double-colon.
    #[error("a target has both kinds of rules")]
    Mixed(Text),
}

/// What is wrong at a place.
#[derive(Debug, Drop, PartialEq, Eq, Error)]
pub enum MakefileFault {
    /// The line is no statement.
    #[error("missing separator")]
    Separator,
    /// `else` or `endif` without its conditional.
    #[error("extraneous conditional")]
    Conditional,
    /// A conditional without its `endif`, at the line that opens it.
    #[error("missing endif")]
    Endless,
    /// The file of this name is absent.
    #[error("no such makefile")]
    Include(Text),
    /// A text can't be expanded.
    #[error("a text can't be expanded")]
    Expand(ExpandNo),
    /// A `define` without its `endef`, at its line.
    #[error("missing endef")]
    Define,
    /// A construct that isn't supported, by its name.
    #[error("a construct that is refused")]
    Refused(Text),
    /// The fuel of reading doesn't suffice.
    #[error("fuel spent")]
    Spent,
    /// A line is longer than 1,048,576 bytes, or more than 64 texts are put into one another by
    /// `include` and `eval`.
    #[error("a limit is passed")]
    Limit,
    #[error("a faulty rule")]
    Rule(RuleNo),
}

/// Why makefiles can't be read: the first fault in reading order.
#[derive(Debug, Drop, PartialEq, Eq, Error)]
pub enum ReadNo {
    #[error("a fault in a makefile")]
    At(Place, MakefileFault),
    #[error("out of memory")]
    NoMemory,
}

impl From<NoMemory> for ReadNo {
    ghost from_gives = { λ _ e. e ≡ OutOfMemory };

    fn from(_e: NoMemory) -> ReadNo {
        ReadNo::NoMemory
    }
}

impl From<AllocError> for ReadNo {
    ghost from_gives = { λ _ e. e ≡ OutOfMemory };

    fn from(_e: AllocError) -> ReadNo {
        ReadNo::NoMemory
    }
}

impl<T: Drop> From<AllocFailed<T>> for ReadNo {
    ghost from_gives = { λ _ e. e ≡ OutOfMemory };

    fn from(_e: AllocFailed<T>) -> ReadNo {
        ReadNo::NoMemory
    }
}

/// The fault at a place.
pub fn at(alloc: Global, place: &Place, fault: MakefileFault) -> ReadNo
    ensures { is_free result ≡ false → result ≡ at_place place.now fault }
{
    match place.copy(alloc) {
        Ok(place) => ReadNo::At(place, fault),
        Err(_) => ReadNo::NoMemory,
    }
}

/// A construct of this name is refused.
pub fn refused(alloc: Global, place: &Place, name: &[u8]) -> ReadNo
    ensures { is_free result ≡ false → result ≡ at_place place.now (fault.Refused name.now) }
{
    match Text::from_slice(alloc, name) {
        Ok(name) => at(alloc, place, MakefileFault::Refused(name)),
        Err(_) => ReadNo::NoMemory,
    }
}

/// The file of this name is absent.
pub fn absent(alloc: Global, place: &Place, name: &[u8]) -> ReadNo
    ensures { is_free result ≡ false → result ≡ at_place place.now (fault.Include name.now) }
{
    match Text::from_slice(alloc, name) {
        Ok(name) => at(alloc, place, MakefileFault::Include(name)),
        Err(_) => ReadNo::NoMemory,
    }
}

/// A fault of an expansion, at its place.
pub fn expand_fault(alloc: Global, place: &Place, e: ExpandNo) -> ReadNo
    ensures { is_free result ≡ false → result ≡ of_expand place.now e }
{
    match e {
        ExpandNo::NoMemory => ReadNo::NoMemory,
        ExpandNo::Spent => at(alloc, place, MakefileFault::Spent),
        ExpandNo::Refused(name) => at(alloc, place, MakefileFault::Refused(name)),
        ExpandNo::SelfReference(name) => {
            at(
                alloc,
                place,
                MakefileFault::Expand(ExpandNo::SelfReference(name)),
            )
        }
        ExpandNo::UserError(text) => at(
            alloc,
            place,
            MakefileFault::Expand(ExpandNo::UserError(text)),
        ),
        ExpandNo::BadArgument(name) => at(
            alloc,
            place,
            MakefileFault::Expand(ExpandNo::BadArgument(name)),
        ),
        ExpandNo::Unclosed => at(alloc, place, MakefileFault::Expand(ExpandNo::Unclosed)),
        ExpandNo::TooDeep => at(alloc, place, MakefileFault::Expand(ExpandNo::TooDeep)),
    }
}

/// A book's refusal of a rule, at the rule's place.
pub fn book_fault(place: Place, e: BookNo) -> ReadNo
    ensures { result ≡ of_book place e }
{
    match e {
        BookNo::NoMemory => ReadNo::NoMemory,
        BookNo::Static(target) => ReadNo::At(place, MakefileFault::Rule(RuleNo::Static(target))),
        BookNo::Group(target) => ReadNo::At(place, MakefileFault::Rule(RuleNo::Group(target))),
        BookNo::Mixed(target) => ReadNo::At(place, MakefileFault::Rule(RuleNo::Mixed(target))),
    }
}

/// A desk's refusal, at its place. A question is refused only for want of fuel or memory.
pub fn desk_fault(alloc: Global, place: &Place, e: DeskNo) -> ReadNo
    ensures { is_free result ≡ false → result ≡ of_desk place.now e }
{
    match e {
        DeskNo::NoMemory => ReadNo::NoMemory,
        DeskNo::Spent => at(alloc, place, MakefileFault::Spent),
        DeskNo::File(_) => at(alloc, place, MakefileFault::Spent),
    }
}
