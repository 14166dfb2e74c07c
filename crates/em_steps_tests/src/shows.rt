//! What a job does from pause to pause, as one text.
use em_base::{Construct, Fuel, Text};
use em_cmdline::Order;
use em_exec::{SubLine, Turn};
use em_states::put_all;
use em_steps::JobSteps;
use em_tree::Outcome;
use em_view::{Desk, View};
use em_wordlist::join_texts;
use std::alloc::Global;
use std::test::Fail;

/// How a job ended.
pub(super) fn name_of(outcome: &Outcome) -> &'static str {
    match outcome {
        Outcome::Upto => "up to date",
        Outcome::Made => "made",
        Outcome::Failed(1) => "failed 1",
        Outcome::Failed(2) => "failed 2",
        Outcome::Skipped => "skipped",
        Outcome::Spent => "spent",
        Outcome::Refused {
            construct: Construct::Depth,
            ..
        } => "refused depth",
        Outcome::Refused {
            construct: Construct::Submake,
            ..
        } => "refused make",
        _ => "another end",
    }
}

fn put_flag(out: &mut Text, is_set: bool, flag: &[u8]) {
    if is_set {
        put_all(out, &[flag]);
    }
}

fn put_settings(out: &mut Text, order: &Order) {
    put_flag(out, order.keep_going, b" -k");
    put_flag(out, order.dry, b" -n");
    put_flag(out, order.question, b" -q");
    put_flag(out, order.silent, b" -s");
    put_flag(out, order.ignore, b" -i");
    put_flag(out, order.always, b" -B");
    for (name, value) in order.assigned.items() {
        put_all(out, &[b" ", name.bytes(), b"=", value.bytes()]);
    }
}

/// `<words> working-directory directory depth settings assignments`, and a newline.
fn put_pause(alloc: Global, out: &mut Text, line: &SubLine) -> Result<(), Fail> {
    let words = join_texts(alloc, line.words.items())?;
    put_all(out, &[b"<", words.bytes(), b"> "]);
    put_all(
        out,
        &[line.shell.cwd.text(), b" ", line.order.dir.bytes(), b" "],
    );
    put_all(out, &[&[b'0' | (line.depth % 10)]]);
    put_settings(out, &line.order);
    put_all(out, &[b"\n"]);
    Ok(())
}

/// Tells the job of its line's make: by `s` that it has spent the fuel, by a digit its status.
fn tell(steps: &mut JobSteps, told: u8) {
    if told == b's' {
        steps.spent();
    } else {
        steps.resume(told.saturating_sub(b'0'));
    }
}

/// Goes through the job, which is told so at its pauses.
fn go_through<V: View>(
    alloc: Global,
    desk: &mut Desk<V>,
    steps: JobSteps,
    told: &str,
    out: &mut Text,
) -> Result<Outcome, Fail> {
    let mut steps = steps;
    for told in told.bytes() {
        match steps.step(alloc, desk, out)? {
            Turn::Ended(outcome) => return Ok(outcome),
            Turn::Sub(line) => put_pause(alloc, out, &line)?,
        }
        tell(&mut steps, told);
    }
    match steps.step(alloc, desk, out)? {
        Turn::Ended(outcome) => Ok(outcome),
        Turn::Sub(_) => Err("one more pause".into()),
    }
}

/// What a job says over this view, with its pauses; then `|`, how it ends, and the units that are
/// left of these.
pub(super) fn shown<V: View>(
    alloc: Global,
    view: V,
    units: u64,
    steps: JobSteps,
    told: &str,
) -> Result<Text, Fail> {
    let mut desk = Desk::new(alloc, view, 5, 0, Fuel::new(units.min(90)));
    let mut out = Text::new(alloc);
    let outcome = go_through(alloc, &mut desk, steps, told, &mut out)?;
    let left = desk.left();
    let end = format!(in alloc; " {left}")?;
    put_all(
        &mut out,
        &[b"|", name_of(&outcome).as_bytes(), end.as_bytes()],
    );
    Ok(out)
}
