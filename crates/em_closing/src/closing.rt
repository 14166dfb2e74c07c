//! The closing text.
ghost use Rattle.std.specs.Prelude.{◌≡◌, ◌++◌, slice_get, IfOk, OnOk, take, drop};
ghost use Rattle.std.specs.List.{list_any};
ghost use Rattle.em_closing.specs.Closing as closing;

use crate::goals::Goal;
use crate::lines::{put_not_remade, put_nothing_to_do, put_up_to_date};
use em_base::{NoMemory, Text};
use em_plan::{Plan, SharedJob};
use em_tree::Outcome;
use std::alloc::Global;

// ---- what is known of a job, where it is there

fn is_made(outcome: &Outcome) -> bool
    ensures { result ≡ closing.is_made outcome.now }
{
    matches!(outcome, Outcome::Made)
}

fn made_at(outcomes: &[Outcome], job: u32) -> bool
    ensures { result ≡ closing.was_made (slice_get outcomes.now job) }
{
    matches!(outcomes.get(job as usize), Some(Outcome::Made))
}

fn skipped_at(outcomes: &[Outcome], job: u32) -> bool
    ensures { result ≡ closing.was_skipped (slice_get outcomes.now job) }
{
    matches!(outcomes.get(job as usize), Some(Outcome::Skipped))
}

fn failed_at(outcomes: &[Outcome], job: u32) -> bool
    ensures { result ≡ closing.has_failed (slice_get outcomes.now job) }
{
    matches!(
        outcomes.get(job as usize),
        Some(Outcome::Failed(_) | Outcome::NoRule)
    )
}

fn recipe_at(plan: &[SharedJob], job: u32) -> bool
    ensures { result ≡ closing.has_recipe (slice_get plan.now job) }
{
    match plan.get(job as usize) {
        Some(job) => job.get().recipe.is_some(),
        None => false,
    }
}

// ---- and of several

/// Whether one of them is `Made`.
pub fn has_made(outcomes: &[Outcome]) -> bool
    ensures { result ≡ list_any closing.is_made outcomes.now }
{
    outcomes.iter().any(is_made)
}

/// Whether one of them makes the build a failure: a job that failed, has no rule or was halted.
/// Linear in them.
pub fn has_faulty(outcomes: &[Outcome]) -> bool
    ensures { result ≡ list_any closing.is_faulty outcomes.now }
{
    outcomes.iter().any(|o| {
        matches!(
            o,
            Outcome::Failed(_) | Outcome::NoRule | Outcome::Halted { .. }
        )
    })
}

fn any_made(outcomes: &[Outcome], jobs: &[u32]) -> bool
    ensures { result ≡ list_any (λ k. closing.was_made (slice_get outcomes.now k)) jobs.now }
{
    jobs.iter().any(|k| made_at(outcomes, *k))
}

fn any_skipped(outcomes: &[Outcome], jobs: &[u32]) -> bool
    ensures { result ≡ list_any (λ k. closing.was_skipped (slice_get outcomes.now k)) jobs.now }
{
    jobs.iter().any(|k| skipped_at(outcomes, *k))
}

fn any_failed(outcomes: &[Outcome], jobs: &[u32]) -> bool
    ensures { result ≡ list_any (λ k. closing.has_failed (slice_get outcomes.now k)) jobs.now }
{
    jobs.iter().any(|k| failed_at(outcomes, *k))
}

fn any_recipe(plan: &[SharedJob], jobs: &[u32]) -> bool
    ensures { result ≡ list_any (λ k. closing.has_recipe (slice_get plan.now k)) jobs.now }
{
    jobs.iter().any(|k| recipe_at(plan, *k))
}

/// The items from one place up to before another.
fn between(outcomes: &[Outcome], from: usize, to: usize) -> &[Outcome]
    ensures { result.now ≡ drop from (take to outcomes.now) }
{
    let (front, _) = outcomes.split_at(to.min(outcomes.len()));
    let (_, back) = front.split_at(from.min(front.len()));
    back
}

/// One more than the last number.
fn end_of(jobs: &[u32]) -> usize
    ensures { result ≡ closing.end_of jobs.now }
{
    match jobs.last() {
        Some(last) => *last as usize + 1,
        None => 0,
    }
}

/// Whether something was made for the goal with these jobs, where those from `from` on are first
/// reached through it.
fn is_renewed(outcomes: &[Outcome], from: usize, jobs: &[u32]) -> bool
    ensures { result ≡ closing.has_made outcomes.now from jobs.now }
{
    any_made(outcomes, jobs) || has_made(between(outcomes, from, end_of(jobs)))
}

// ---- what is said

/// Appends what is said of a goal for which nothing was made.
fn put_idle(out: &mut Text, goal: &Goal, recipe: bool) -> Result<(), NoMemory>
    ensures { OnOk result (out.new ≡ out.old ++ closing.idle goal.now recipe) }
{
    if goal.phony || !recipe {
        put_nothing_to_do(out, goal.name.bytes())
    } else {
        put_up_to_date(out, goal.name.bytes())
    }
}

/// Appends what is said of the goal with these jobs, where those from `from` on are first reached
/// through it.
fn put_goal(
    out: &mut Text,
    silent: bool,
    plan: &Plan,
    outcomes: &[Outcome],
    from: usize,
    goal: &Goal,
    jobs: &[u32],
) -> Result<(), NoMemory>
    ensures { OnOk result (out.new ≡ out.old
        ++ closing.goal_line silent plan.now outcomes.now from goal.now jobs.now) }
{
    if any_skipped(outcomes, jobs) {
        return put_not_remade(out, goal.name.bytes());
    }
    if any_failed(outcomes, jobs) || silent || is_renewed(outcomes, from, jobs) {
        return Ok(());
    }
    put_idle(out, goal, any_recipe(plan.jobs.items(), jobs))
}

/// What is said of the goals of the plan, whose jobs ended so; `early` tells that one of them ended
/// the run. Linear in goals and jobs.
pub fn closing_text(
    alloc: Global,
    silent: bool,
    goals: &[Goal],
    plan: &Plan,
    outcomes: &[Outcome],
    early: bool,
) -> Result<Text, NoMemory>
    ensures { IfOk result (λ t. t
        ≡ closing.closing silent plan.now outcomes.now goals.now early) }
{
    let mut text = Text::new(alloc);
    if early {
        return Ok(text);
    }
    let mut from: usize = 0;
    for (goal, jobs) in goals.iter().zip(plan.goals.items()) {
        let jobs = jobs.items();
        put_goal(&mut text, silent, plan, outcomes, from, goal, jobs)?;
        from = from.max(end_of(jobs));
    }
    Ok(text)
}
