//! Where commands may begin, as far as that tells which bracket ends the patterns of a `case`.
ghost use Rattle.std.specs.Prelude.{◌≡◌};
ghost use Rattle.em_lexeme.specs.Spots as spots;

use crate::frame::{Frame, is_cases};
use crate::lexeme::{Start, What};

/// Where in a list the next word or operator stands, as far as it bears on the brackets of `case`.
#[derive(Clone, Copy)]
pub enum Spot {
    /// Where a command may begin.
    Command,
    /// Behind a compound command and its redirections, where a reserved word may stand.
    Closed,
    /// Within a simple command, or where the grammar has no place.
    Operand,
    /// Where the word of a compound command's redirection stands.
    Target,
    /// Behind the `>&` that stands there, and whether it is a compound command's.
    Duplicate(usize, bool),
    /// Behind `case`.
    Subject,
    /// Behind the word of a `case`, where `in` comes.
    Inside,
    /// Where an item of a `case` may begin.
    Item,
    /// Within the patterns of an item.
    Pattern,
}

/// Whether an item of a `case` may begin.
pub fn is_item(spot: Spot) -> bool
    ensures { result ≡ spots.is_item spot }
{
    matches!(spot, Spot::Item)
}

/// Whether it is among the patterns of an item.
pub fn is_pattern(spot: Spot) -> bool
    ensures { result ≡ spots.is_pattern spot }
{
    matches!(spot, Spot::Pattern)
}

/// Whether it is behind a compound command.
fn is_closed(spot: Spot) -> bool
    ensures { result ≡ spots.is_closed spot }
{
    matches!(spot, Spot::Closed)
}

/// Where the word of a redirection stands.
fn target_of(closed: bool) -> Spot
    ensures { result ≡ spots.target_of closed }
{
    if closed { Spot::Target } else { Spot::Operand }
}

/// The spot behind the word of a redirection.
pub fn behind_target(closed: bool) -> Spot
    ensures { result ≡ spots.behind_target closed }
{
    if closed { Spot::Closed } else { Spot::Operand }
}

/// The spot behind an operator that began at `at`.
pub fn spot_behind(what: &What, frame: Option<Frame>, spot: Spot, at: usize) -> Spot
    ensures { result ≡ spots.spot_behind what.now frame spot at }
{
    match what {
        What::CaseEnd => item_or_command(is_cases(frame)),
        What::Pipe => pattern_or_command(is_pattern(spot)),
        What::Less => target_of(is_closed(spot)),
        What::Great => target_of(is_closed(spot)),
        What::DoubleGreat => target_of(is_closed(spot)),
        What::GreatAnd => Spot::Duplicate(at, is_closed(spot)),
        What::Newline => spot_past(spot),
        _ => Spot::Command,
    }
}

/// The spot behind a newline.
fn spot_past(spot: Spot) -> Spot
    ensures { result ≡ spots.spot_past spot }
{
    match spot {
        Spot::Item | Spot::Pattern => spot,
        _ => Spot::Command,
    }
}

fn item_or_command(item: bool) -> Spot
    ensures { result ≡ spots.item_or_command item }
{
    if item { Spot::Item } else { Spot::Command }
}

fn pattern_or_command(pattern: bool) -> Spot
    ensures { result ≡ spots.pattern_or_command pattern }
{
    if pattern {
        Spot::Pattern
    } else {
        Spot::Command
    }
}

/// Whether a command begins behind the word.
fn joins(start: Start) -> bool
    ensures { result ≡ spots.joins start }
{
    matches!(
        start,
        Start::Bang
            | Start::If
            | Start::Then
            | Start::Elif
            | Start::Else
            | Start::While
            | Start::Until
            | Start::Do
            | Start::LeftBrace
    )
}

/// Whether the word ends a compound command.
fn ends(start: Start) -> bool
    ensures { result ≡ spots.ends start }
{
    matches!(
        start,
        Start::Fi | Start::Done | Start::Esac | Start::RightBrace
    )
}

/// Whether the word is `case`.
fn is_case(start: Start) -> bool
    ensures { result ≡ spots.is_case start }
{
    matches!(start, Start::Case)
}

/// Whether the word is `esac`.
fn is_esac(start: Start) -> bool
    ensures { result ≡ spots.is_esac start }
{
    matches!(start, Start::Esac)
}

/// The spot behind a word where a command may begin.
fn spot_in_command(start: Start) -> Spot
    ensures { result ≡ spots.spot_in_command start }
{
    if ends(start) {
        Spot::Closed
    } else if joins(start) {
        Spot::Command
    } else if is_case(start) {
        Spot::Subject
    } else {
        Spot::Operand
    }
}

/// The spot behind a word where `in` comes.
fn spot_in_inside(start: Start) -> Spot
    ensures { result ≡ spots.spot_in_inside start }
{
    if matches!(start, Start::In) {
        Spot::Item
    } else {
        Spot::Operand
    }
}

/// The spot behind a word where an item may begin.
fn spot_in_item(start: Start) -> Spot
    ensures { result ≡ spots.spot_in_item start }
{
    if is_esac(start) {
        Spot::Closed
    } else {
        Spot::Pattern
    }
}

/// The spot behind a word.
pub fn spot_in(spot: Spot, start: Start) -> Spot
    ensures { result ≡ spots.spot_in spot start }
{
    match spot {
        Spot::Command | Spot::Closed => spot_in_command(start),
        Spot::Operand => Spot::Operand,
        Spot::Target => Spot::Closed,
        Spot::Duplicate(_, closed) => behind_target(closed),
        Spot::Subject => Spot::Inside,
        Spot::Inside => spot_in_inside(start),
        Spot::Item => spot_in_item(start),
        Spot::Pattern => Spot::Pattern,
    }
}

/// Whether the word is `case` as a reserved word.
pub fn opens_cases(spot: Spot, start: Start) -> bool
    ensures { result ≡ spots.opens_cases spot start }
{
    matches!(spot, Spot::Command | Spot::Closed) && is_case(start)
}

/// Whether the word is `esac` as a reserved word.
pub fn closes_cases(spot: Spot, start: Start) -> bool
    ensures { result ≡ spots.closes_cases spot start }
{
    matches!(spot, Spot::Command | Spot::Closed | Spot::Item) && is_esac(start)
}
