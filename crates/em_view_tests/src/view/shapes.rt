//! A function of each shape over a desk: see docs/DESKS.md.
ghost use Rattle.em_view.specs.Examples.{said, show, wait, is_free_above, known, show_first};
ghost use Rattle.em_view.specs.Performs.{Performs};
ghost use Rattle.em_view.specs.Rows.{Acts, is_memory};
ghost use Rattle.em_view.specs.Steps.{Does, Works};

use super::*;

fn say(output: &mut Text, text: &[u8]) -> Result<(), DeskNo>
    ensures { Works is_memory output.old output.new result (said text.now) }
{
    output.add(text)?;
    Ok(())
}

/// An output, with a refusal after what was said.
fn show<V: View>(desk: &mut Desk<V>, p: &Path, output: &mut Text) -> Result<(), DeskNo>
    ensures { Does is_memory V.tells desk.old desk.new output.old output.new result (show p.now) }
{
    say(output, b"read ")?;
    let Some(body) = desk.content(p)? else {
        return Err(DeskNo::File(FileNo::Absent));
    };
    say(output, body.bytes())
}

/// A recursion on a number of turns.
fn wait<V: View>(desk: &mut Desk<V>, p: &Path, turns: u32) -> Result<bool, DeskNo>
    ensures { Acts V.tells desk.old desk.new result (wait turns p.now) }
{
    if turns == 0 {
        return Ok(false);
    }
    match desk.kind(p)? {
        Kind::Absent => wait(desk, p, turns - 1),
        Kind::File => Ok(true),
        Kind::Dir => Ok(true),
        Kind::Link => Ok(true),
    }
}

/// A lower layer's error under its name in a higher one.
fn known<V: View>(desk: &mut Desk<V>, p: &Path) -> Result<Kind, Option<DeskNo>>
    ensures { Performs is_free_above V.tells desk.old desk.new result (known p.now) }
{
    match desk.kind(p) {
        Err(e) => Err(Some(e)),
        Ok(kind) => match kind {
            Kind::Absent => Err(None),
            Kind::File => Ok(Kind::File),
            Kind::Dir => Ok(Kind::Dir),
            Kind::Link => Ok(Kind::Link),
        },
    }
}

/// A part of a state lent to a lower layer.
fn show_first<V: View>(
    desk: &mut Desk<V>,
    p: &Path,
    outputs: &mut (Text, Text),
) -> Result<(), DeskNo>
    ensures { Does is_memory V.tells desk.old desk.new outputs.old outputs.new result
        (show_first p.now) }
{
    match show(desk, p, &mut outputs.0) {
        Ok(()) => Ok(()),
        Err(e) => Err(e),
    }
}

/// Reads a file that is there and one that isn't.
fn show_both<V: View>(
    desk: &mut Desk<V>,
    file: &Path,
    absent: &Path,
    outputs: &mut (Text, Text),
    log: &mut String,
) -> Result<(), AllocError> {
    show_done(log, show_first(desk, file, outputs))?;
    show_done(log, show_first(desk, absent, outputs))
}

fn read_both<V: View>(
    alloc: Global,
    desk: &mut Desk<V>,
    file: &Path,
    absent: &Path,
    log: &mut String,
) -> Result<(), AllocError> {
    let mut outputs = (Text::new(alloc), Text::new(alloc));
    show_both(desk, file, absent, &mut outputs, log)?;
    show_bytes(log, outputs.0.bytes())
}

fn waits<V: View>(desk: &mut Desk<V>, p: &Path) -> &'static str {
    match wait(desk, p, 3) {
        Ok(true) => "there ",
        Ok(false) => "absent ",
        Err(_) => "refused ",
    }
}

fn knows<V: View>(desk: &mut Desk<V>, p: &Path) -> &'static str {
    match known(desk, p) {
        Ok(_) => "there ",
        Err(None) => "absent ",
        Err(Some(_)) => "refused ",
    }
}

fn ask_both<V: View>(
    desk: &mut Desk<V>,
    absent: &Path,
    log: &mut String,
) -> Result<(), AllocError> {
    log.push_str(waits(desk, absent))?;
    log.push_str(knows(desk, absent))?;
    let left = desk.left();
    write!(log, "{left}")
}

fn run_each<V: View>(alloc: Global, desk: &mut Desk<V>, log: &mut String) -> Result<(), NoMemory> {
    let file = path(alloc, b"/a")?;
    let absent = path(alloc, b"/b")?;
    read_both(alloc, desk, &file, &absent, log)?;
    Ok(ask_both(desk, &absent, log)?)
}

fn run_shapes(alloc: Global, log: &mut String) -> Result<(), NoMemory> {
    let state = state(alloc, "f2/a")?;
    let view = PlainView::new(&state);
    let mut desk = Desk::new(alloc, view, 100, 1, Fuel::new(20));
    run_each(alloc, &mut desk, log)
}

/// The units: 2 for the file's content, 1 for that of an absent one, 3 for the turns, and 1.
#[test]
fn each_shape_runs(rt: HostRuntime) -> Result<(), Fail> {
    let mut log = String::new(rt.alloc());
    run_shapes(rt.alloc(), &mut log)?;
    assert_eq!(rt; log.as_str(), "ok!Absentread abread absent absent 13");
    Ok(())
}
