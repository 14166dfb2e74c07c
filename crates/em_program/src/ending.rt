//! The end of the last build: the closing text, the new image, the history and the report.
ghost use Rattle.std.specs.Prelude.{◌≡◌, ◌++◌, IfOk};
ghost use Rattle.em_learning.specs.Telling as telling;
ghost use Rattle.em_report.specs.Reports as reports;
ghost use Rattle.em_program.specs.Course.{Follows, faults_after};
ghost use Rattle.em_program.specs.Endings as endings;
ghost use Rattle.em_program.specs.Messages as messages;

use crate::messages::image_line;
use crate::project::Terms;
use crate::rounds::shown_by;
use crate::say::{keep, say};
use crate::status::status_of;
use crate::stop::ProgramEnd;
use crate::verdict::BuildStatus;
use em_base::{NoMemory, Seq, Text};
use em_closing::closing_text;
use em_cmdline::HistoryMode;
use em_engine::Note;
use em_host::Host;
use em_image::{ImageNo, write_image};
use em_learning::report_of;
use em_report::write;
use em_tree::{Outcome, State};
use std::alloc::Global;

/// The closing text with the line of the image's refusal.
fn refused_closing(alloc: Global, text: Text, no: ImageNo) -> Result<Text, NoMemory>
    ensures { IfOk result (λ t. t ≡ text ++ messages.image_line no) }
{
    let mut last = text;
    last.add(image_line(alloc, no)?.bytes())?;
    Ok(last)
}

/// Says the closing text and replaces the image, unless the new one breaks a limit.
fn close<H: Host>(
    alloc: Global,
    image: &[u8],
    text: Text,
    earlier: &[Outcome],
    state: &State,
    host: &mut H,
) -> Result<BuildStatus, ProgramEnd>
    ensures told { Follows
        (endings.closed image.now text earlier.now state.now (endings.written state.now))
        result (H.told host.old) (H.told host.new) }
    ensures faults { H.faults host.new ≡ faults_after result (H.faults host.old) }
{
    let outcomes = state.outcomes.items();
    match write_image(alloc, &state.tree) {
        Ok(written) => {
            say(host, text.bytes())?;
            keep(alloc, host, image, written.bytes())?;
            Ok(status_of(false, false, earlier, outcomes))
        }
        Err(no) => match no {
            ImageNo::NoMemory => Err(ProgramEnd::NoMemory),
            _ => {
                let last = refused_closing(alloc, text, no)?;
                say(host, last.bytes())?;
                Ok(status_of(false, true, earlier, outcomes))
            }
        },
    }
}

/// The history's new text: what was known, and what the builds have shown.
fn history_text(alloc: Global, terms: &Terms, notes: &Seq<Note>) -> Result<Text, NoMemory>
    ensures { IfOk result (λ t. t ≡ endings.history_text terms.now notes.now) }
{
    let mut all = shown_by(alloc, terms, notes)?;
    all.merge(alloc, &terms.old)?;
    all.write(alloc)
}

/// Replaces the history's file, where there is one.
fn keep_known<H: Host>(
    alloc: Global,
    terms: &Terms,
    notes: &Seq<Note>,
    host: &mut H,
) -> Result<(), ProgramEnd>
    ensures told { Follows
        (endings.kept terms.now.order.history (endings.history_text terms.now notes.now))
        result (H.told host.old) (H.told host.new) }
    ensures faults { H.faults host.new ≡ faults_after result (H.faults host.old) }
{
    match &terms.order.history {
        None => Ok(()),
        Some(name) => {
            let text = history_text(alloc, terms, notes)?;
            keep(alloc, host, name.bytes(), text.bytes())
        }
    }
}

/// Replaces the history's file, unless it is only read.
fn keep_history<H: Host>(
    alloc: Global,
    terms: &Terms,
    notes: &Seq<Note>,
    host: &mut H,
) -> Result<(), ProgramEnd>
    ensures told { Follows (endings.history_kept terms.now notes.now terms.now.order.mode) result
        (H.told host.old) (H.told host.new) }
    ensures faults { H.faults host.new ≡ faults_after result (H.faults host.old) }
{
    match terms.order.mode {
        HistoryMode::Create => keep_known(alloc, terms, notes, host),
        HistoryMode::Merge => keep_known(alloc, terms, notes, host),
        HistoryMode::Read => Ok(()),
    }
}

/// The report's text.
fn report_text(
    alloc: Global,
    terms: &Terms,
    notes: &Seq<Note>,
    fuel: &Seq<u64>,
    status: u8,
) -> Result<Text, NoMemory>
    ensures { IfOk result (λ t. t ≡ reports.report_text
        (telling.report_of terms.now.plan.jobs terms.now.waits notes.now fuel.now status)) }
{
    let jobs = terms.plan.jobs.items();
    let (notes, fuel) = (notes.items(), fuel.items());
    let report = report_of(alloc, jobs, terms.waits.items(), notes, fuel, status)?;
    write(alloc, &report)
}

/// Replaces the report's file, where there is one.
fn keep_report<H: Host>(
    alloc: Global,
    terms: &Terms,
    notes: &Seq<Note>,
    fuel: &Seq<u64>,
    verdict: BuildStatus,
    host: &mut H,
) -> Result<(), ProgramEnd>
    ensures told { Follows (endings.report_kept terms.now notes.now fuel.now verdict) result
        (H.told host.old) (H.told host.new) }
    ensures faults { H.faults host.new ≡ faults_after result (H.faults host.old) }
{
    match &terms.order.report {
        None => Ok(()),
        Some(name) => {
            let text = report_text(alloc, terms, notes, fuel, verdict.code())?;
            keep(alloc, host, name.bytes(), text.bytes())
        }
    }
}

/// Says the closing text, and replaces the image, the history and the report. Of a generated
/// project, which has no image, nothing is replaced.
fn replace_all<H: Host>(
    alloc: Global,
    terms: &Terms,
    notes: &Seq<Note>,
    fuel: &Seq<u64>,
    text: Text,
    state: &State,
    host: &mut H,
) -> Result<BuildStatus, ProgramEnd>
    ensures told { Follows
        (endings.replaced terms.now notes.now terms.now.order.image fuel.now text state.now)
        result (H.told host.old) (H.told host.new) }
    ensures faults { H.faults host.new ≡ faults_after result (H.faults host.old) }
{
    let earlier = terms.earlier.outcomes.items();
    match &terms.order.image {
        None => {
            say(host, text.bytes())?;
            Ok(status_of(false, false, earlier, state.outcomes.items()))
        }
        Some(image) => {
            let verdict = close(alloc, image.bytes(), text, earlier, state, host)?;
            keep_history(alloc, terms, notes, host)?;
            keep_report(alloc, terms, notes, fuel, verdict, host)?;
            Ok(verdict)
        }
    }
}

/// The end of the last build: the closing text, and the files that are replaced. Where it was only
/// asked there is neither.
pub fn finish<H: Host>(
    alloc: Global,
    terms: &Terms,
    notes: &Seq<Note>,
    asked: bool,
    fuel: &Seq<u64>,
    early: bool,
    state: &State,
    host: &mut H,
) -> Result<BuildStatus, ProgramEnd>
    ensures told { Follows
        (endings.finish terms.now notes.now asked fuel.now early state.now) result
        (H.told host.old) (H.told host.new) }
    ensures faults { H.faults host.new ≡ faults_after result (H.faults host.old) }
{
    let outcomes = state.outcomes.items();
    if asked {
        return Ok(status_of(true, false, terms.earlier.outcomes.items(), outcomes));
    }
    let goals = terms.goals.items();
    let silent = terms.order.silent;
    let text = closing_text(alloc, silent, goals, &terms.plan, outcomes, early)?;
    replace_all(alloc, terms, notes, fuel, text, state, host)
}
