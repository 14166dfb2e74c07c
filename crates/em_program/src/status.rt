//! How a run ends: its status.
ghost use Rattle.std.specs.Prelude.{◌≡◌};
ghost use Rattle.std.specs.List.{list_any};
ghost use Rattle.em_job.specs.Making.{ends_after, flags_of};
ghost use Rattle.em_program.specs.Statuses as statuses;

use crate::verdict::BuildStatus;
use em_closing::{has_faulty, has_made};
use em_cmdline::Order;
use em_task::Flags;
use em_tree::Outcome;

fn has_spent(outcomes: &[Outcome]) -> bool
    ensures { result ≡ list_any statuses.is_spent outcomes.now }
{
    outcomes.iter().any(|o| matches!(o, Outcome::Spent))
}

fn has_refused(outcomes: &[Outcome]) -> bool
    ensures { result ≡ list_any statuses.is_refused outcomes.now }
{
    outcomes
        .iter()
        .any(|o| matches!(o, Outcome::Refused { .. }))
}

/// Whether the run ends after a job with this outcome.
fn ends(order: &Order, outcome: &Outcome) -> bool
    ensures { result ≡ ends_after (flags_of order.now) outcome.now }
{
    Flags::of_order(order).ends_after(outcome)
}

/// Whether a job ended the run, of which these are the outcomes.
pub fn has_ended(order: &Order, outcomes: &[Outcome]) -> bool
    ensures { result ≡ statuses.has_ended order.now outcomes.now }
{
    outcomes.iter().any(|o| ends(order, o))
}

/// The run's status, by the outcomes of its last build, and of the builds before; `asked` tells
/// that it was only asked whether something is to be made, and `broken` that the new image breaks a
/// limit. Linear in all of them.
pub fn status_of(
    asked: bool,
    broken: bool,
    earlier: &[Outcome],
    outcomes: &[Outcome],
) -> BuildStatus
    ensures { result ≡ statuses.status_of asked broken earlier.now outcomes.now }
{
    if has_spent(earlier) || has_spent(outcomes) {
        BuildStatus::Spent
    } else if has_refused(earlier) || has_refused(outcomes) {
        BuildStatus::Refused
    } else if broken || has_faulty(earlier) || has_faulty(outcomes) {
        BuildStatus::Faulty
    } else if asked && has_made(outcomes) {
        BuildStatus::Outdated
    } else {
        BuildStatus::Done
    }
}
