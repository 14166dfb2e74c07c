//! A line of the recipe that may begin a make within a make.
ghost use Rattle.std.specs.Prelude.{◌≡◌, ◌<◌, ◌≤◌, ◌||◌, ◌++◌, nat_lt, None, Some, Ok};
ghost use Rattle.std.specs.Prelude.{IfOk, IfErr, IfSome};
ghost use Rattle.em_closing.specs.Refusals as refusals;
ghost use Rattle.em_cmdline.specs.SubWords.{sub_refusal, sub_order};
ghost use Rattle.em_job.specs.Deciding as deciding;
ghost use Rattle.em_steps.specs.Laps as laps;
ghost use Rattle.em_steps.specs.Turns.{IfBegins, IfTried};
ghost use Rattle.em_job.specs.Stops.{is_free};
ghost use Rattle.em_script.specs.Strands.{IsSent, meaning_of, sub_of};
ghost use Rattle.em_view.specs.Steps.{Does, Works};

use em_base::{Construct, NoMemory, Place, Seq, Text};
use em_closing::{dir_line, word_line};
use em_cmdline::{Order, WordNo, read_sub_words};
use em_exec::{SubLine, SubWords};
use em_expand::Spoken;
use em_job::{
    Job, JobStop, LineEnd, ParsedLine, RecipeStart, after_line, does_run, echo, environment_once,
    of_desk, of_line, refused, run_in, shell_of,
};
use em_path::{Path, PathNo};
use em_script::ShellLine;
use em_tree::{Kind, Outcome};
use em_vars::Vars;
use em_view::{Desk, View};
use em_word::Shell;
use std::alloc::Global;
use std::mem;

/// The most makes within makes.
const DEEPEST: u8 = 8;

/// What a line comes to by itself.
#[derive(Drop)]
pub(crate) enum Tried {
    /// It has ended with this status.
    Ran(u8),
    /// It begins a make.
    Begins(SubLine),
}

/// What a line comes to in its job.
#[derive(Drop)]
pub(crate) enum Lap {
    /// The next line runs, with these variables in its shell if they were made.
    Next(Option<Vars>),
    /// The job has ended.
    Ended(Outcome),
    /// It begins a make, behind which the next line has these variables in its shell.
    Begins(Option<Vars>, SubLine),
}

/// What the command line of the job's make assigns.
fn assigned_of(alloc: Global, job: &Job) -> Result<Seq<(Text, Text)>, NoMemory>
    ensures { IfOk result (λ all. all ≡ job.now.assigned) }
{
    let mut all = Seq::new(alloc);
    for (name, value) in job.assigned.pairs() {
        all.push((name.copy(alloc)?, value.copy(alloc)?))?;
    }
    Ok(all)
}

/// One list behind the other.
fn appended(
    so_far: Seq<(Text, Text)>,
    more: Seq<(Text, Text)>,
) -> Result<Seq<(Text, Text)>, NoMemory>
    ensures { IfOk result (λ all. all ≡ so_far ++ more) }
{
    let mut all = so_far.into_vec();
    all.extend(more.into_vec())?;
    Ok(Seq::from_vec(all))
}

fn either(a: bool, b: bool) -> bool
    ensures { result ≡ a || b }
{
    a || b
}

/// What a line orders: the settings of the job's make, and then the line's own.
fn handed(alloc: Global, job: &Job, order: Order, dir: &Path) -> Result<Order, NoMemory>
    ensures { IfOk result (λ o. o ≡ laps.handed job.now order dir.now) }
{
    let mut order = order;
    let own = mem::replace(&mut order.assigned, Seq::new(alloc));
    order.dir = Text::from_slice(alloc, dir.text())?;
    order.keep_going = either(job.flags.keep_going, order.keep_going);
    order.dry = false;
    order.question = false;
    order.silent = either(job.flags.silent, order.silent);
    order.ignore = either(job.flags.ignore, order.ignore);
    order.always = either(job.flags.always, order.always);
    order.assigned = appended(assigned_of(alloc, job)?, own)?;
    Ok(order)
}

/// The line has this refusal as its output, and status 2.
fn refuse_line(spoken: &mut Spoken, text: &[u8]) -> Result<Tried, JobStop>
    ensures works { Works is_free spoken.old spoken.new result (laps.refused text.now) }
    ensures sent { IfTried result IsSent }
{
    spoken.said.add(text)?;
    Ok(Tried::Ran(2))
}

/// `-C` names no directory.
fn refuse_dir(alloc: Global, spoken: &mut Spoken, name: &[u8]) -> Result<Tried, JobStop>
    ensures works { Works is_free spoken.old spoken.new result
        (laps.refused (refusals.dir_line name.now)) }
    ensures sent { IfTried result IsSent }
{
    let line = dir_line(alloc, name)?;
    refuse_line(spoken, line.bytes())
}

/// The words of the line order nothing.
fn refuse_words(alloc: Global, spoken: &mut Spoken, no: &WordNo) -> Result<Tried, JobStop>
    ensures works { Works is_free spoken.old spoken.new result
        (laps.refused (refusals.word_line no.now)) }
    ensures sent { IfTried result IsSent }
{
    let line = word_line(alloc, no)?;
    refuse_line(spoken, line.bytes())
}

/// The path that a name is; `None` exactly where it is none.
fn path_of(alloc: Global, cwd: &Path, name: &[u8]) -> Result<Option<Path>, NoMemory>
    ensures { IfOk result (λ p. p ≡ deciding.path_of cwd.now name.now) }
{
    match Path::read(alloc, cwd, name) {
        Ok(path) => Ok(Some(path)),
        Err(PathNo::NoMemory) => Err(NoMemory),
        Err(_) => Ok(None),
    }
}

/// The make that the line begins in this directory.
fn begun_at(
    alloc: Global,
    job: &Job,
    depth: u8,
    words: Seq<Text>,
    shell: Shell,
    order: Order,
    dir: Path,
) -> Result<SubLine, NoMemory>
    requires depth { depth < 8 }
    requires units { order.fuel ≤ 1000000 }
    ensures line { IfOk result
        (λ l. l ≡ laps.begun_at job.now depth words shell order dir) }
    ensures sent { IfOk result IsSent }
{
    let order = handed(alloc, job, order, &dir)?;
    let Shell { vars, status, .. } = shell;
    Ok(SubLine {
        words,
        shell: Shell {
            vars,
            cwd: dir,
            status,
        },
        order,
        depth: depth + 1,
    })
}

fn is_dir(kind: Kind) -> bool
    ensures { result ≡ laps.is_dir kind }
{
    matches!(kind, Kind::Dir)
}

/// Whether a make of this depth may begin another one.
fn goes_deeper(depth: u8) -> bool
    ensures { result ≡ nat_lt depth 8 }
{
    depth < DEEPEST
}

/// What becomes of a line whose words order this, by the kind of its directory.
fn by_kind(
    alloc: Global,
    spoken: &mut Spoken,
    job: &Job,
    depth: u8,
    place: &Place,
    words: Seq<Text>,
    shell: Shell,
    order: Order,
    dir: Path,
    kind: Kind,
) -> Result<Tried, JobStop>
    requires { order.fuel ≤ 1000000 }
    ensures works { Works is_free spoken.old spoken.new result
        (laps.by_kind job.now depth place.now words shell order dir kind) }
    ensures sent { IfTried result IsSent }
{
    if !is_dir(kind) {
        return refuse_dir(alloc, spoken, order.dir.bytes());
    }
    if !goes_deeper(depth) {
        return Err(refused(alloc, place, Construct::Depth));
    }
    let line = begun_at(alloc, job, depth, words, shell, order, dir)?;
    Ok(Tried::Begins(line))
}

/// What becomes of a line whose words order this.
fn in_dir<V: View>(
    alloc: Global,
    desk: &mut Desk<V>,
    spoken: &mut Spoken,
    job: &Job,
    depth: u8,
    place: &Place,
    words: Seq<Text>,
    shell: Shell,
    order: Order,
) -> Result<Tried, JobStop>
    requires { order.fuel ≤ 1000000 }
    ensures does { Does is_free V.tells desk.old desk.new spoken.old spoken.new result
        (laps.in_dir job.now depth place.now words shell order
        (deciding.path_of shell.cwd order.dir)) }
    ensures sent { IfTried result IsSent }
{
    let Some(dir) = path_of(alloc, &shell.cwd, order.dir.bytes())? else {
        return refuse_dir(alloc, spoken, order.dir.bytes());
    };
    match desk.kind(&dir) {
        Ok(kind) => by_kind(
            alloc, spoken, job, depth, place, words, shell, order, dir, kind,
        ),
        Err(e) => Err(of_desk(alloc, place, e)),
    }
}

/// What the words order, or why they order nothing.
fn order_of(alloc: Global, words: &[Text]) -> Result<Result<Order, WordNo>, NoMemory>
    ensures { IfOk result (λ r. IfOk r (λ o. (sub_refusal words.now ≡ None)
        × (o ≡ sub_order words.now)) × IfErr r (λ e. sub_refusal words.now ≡ Some e)) }
{
    match read_sub_words(alloc, words) {
        Ok(order) => Ok(Ok(order)),
        Err(WordNo::NoMemory) => Err(NoMemory),
        Err(no) => Ok(Err(no)),
    }
}

/// What becomes of a line with these words behind its command's name.
fn by_order<V: View>(
    alloc: Global,
    desk: &mut Desk<V>,
    spoken: &mut Spoken,
    job: &Job,
    depth: u8,
    place: &Place,
    words: Seq<Text>,
    shell: Shell,
) -> Result<Tried, JobStop>
    ensures does { Does is_free V.tells desk.old desk.new spoken.old spoken.new result
        (laps.by_order job.now depth place.now words shell (sub_refusal words)
        (sub_order words)) }
    ensures sent { IfTried result IsSent }
{
    match order_of(alloc, words.items())? {
        Ok(order) => in_dir(alloc, desk, spoken, job, depth, place, words, shell, order),
        Err(no) => refuse_words(alloc, spoken, &no),
    }
}

/// The words of a line that begins a make, and the shell behind them.
fn words_in<V: View>(
    alloc: Global,
    desk: &mut Desk<V>,
    spoken: &mut Spoken,
    place: &Place,
    line: &ShellLine,
    shell: Shell,
) -> Result<(Option<SubWords>, Shell), JobStop>
    ensures does { Does is_free V.tells desk.old desk.new spoken.old spoken.new result
        (laps.words_in place.now (sub_of line.now) shell) }
    ensures burns { IfOk result (λ p. IfSome p.0 (λ w. desk.new.work.fuel < desk.old.work.fuel)) }
{
    let mut shell = shell;
    match line.sub_words(alloc, &mut shell, desk, &mut spoken.said) {
        Ok(words) => Ok((words, shell)),
        Err(e) => Err(of_line(alloc, place, e)),
    }
}

/// Runs a line, or comes to the make that it begins.
fn try_line<V: View>(
    alloc: Global,
    desk: &mut Desk<V>,
    spoken: &mut Spoken,
    job: &Job,
    depth: u8,
    place: &Place,
    line: &ShellLine,
    shell: Shell,
) -> Result<Tried, JobStop>
    ensures does { Does is_free V.tells desk.old desk.new spoken.old spoken.new result
        (laps.try_line job.now depth place.now (meaning_of line.now) shell) }
    ensures sent { IfTried result IsSent }
    ensures burns { IfTried result (λ l. desk.new.work.fuel < desk.old.work.fuel) }
{
    let (words, shell) = words_in(alloc, desk, spoken, place, line, shell)?;
    match words {
        None => {
            let status = run_in(alloc, desk, spoken, place, line, shell)?;
            Ok(Tried::Ran(status))
        }
        Some(SubWords::Words(words)) => {
            by_order(alloc, desk, spoken, job, depth, place, words, shell)
        }
        Some(SubWords::NoDir(name)) => refuse_dir(alloc, spoken, name.bytes()),
        Some(SubWords::Status(status)) => Ok(Tried::Ran(status)),
    }
}

/// The same in the shell of the job's lines, whose variables are handed on.
fn in_env<V: View>(
    alloc: Global,
    desk: &mut Desk<V>,
    spoken: &mut Spoken,
    job: &Job,
    depth: u8,
    opened: &RecipeStart,
    env: Option<Vars>,
    ready: &ParsedLine,
) -> Result<(Option<Vars>, Tried), JobStop>
    ensures does { Does is_free V.tells desk.old desk.new spoken.old spoken.new result
        (laps.in_env job.now depth opened.now env ready.now.placed (meaning_of ready.now.line)) }
    ensures sent { IfOk result (λ t. IfTried (Ok t.1) IsSent) }
    ensures burns { IfOk result
        (λ t. IfTried (Ok t.1) (λ l. desk.new.work.fuel < desk.old.work.fuel)) }
{
    let ParsedLine { placed, line } = ready;
    let place = &placed.place;
    let autos = opened.autos.items();
    let env = environment_once(alloc, desk, spoken, job, autos, place, env)?;
    let shell = shell_of(alloc, job, &env)?;
    let tried = try_line(alloc, desk, spoken, job, depth, place, line, shell)?;
    Ok((Some(env), tried))
}

/// Echoes the line, and runs it or comes to its make. One that is only shown has status 0.
fn tried_line<V: View>(
    alloc: Global,
    desk: &mut Desk<V>,
    spoken: &mut Spoken,
    job: &Job,
    depth: u8,
    opened: &RecipeStart,
    env: Option<Vars>,
    ready: &ParsedLine,
) -> Result<(Option<Vars>, Tried), JobStop>
    ensures does { Does is_free V.tells desk.old desk.new spoken.old spoken.new result
        (laps.tried_line job.now depth opened.now env ready.now.placed
        (meaning_of ready.now.line)) }
    ensures sent { IfOk result (λ t. IfTried (Ok t.1) IsSent) }
    ensures burns { IfOk result
        (λ t. IfTried (Ok t.1) (λ l. desk.new.work.fuel < desk.old.work.fuel)) }
{
    echo(spoken, job, &ready.placed)?;
    if does_run(job, &ready.placed) {
        return in_env(alloc, desk, spoken, job, depth, opened, env, ready);
    }
    Ok((env, Tried::Ran(0)))
}

/// What follows a line.
fn lap_of(end: LineEnd) -> Lap
    ensures { result ≡ laps.lap_of end }
{
    match end {
        LineEnd::Next(env) => Lap::Next(env),
        LineEnd::Ended(outcome) => Lap::Ended(outcome),
    }
}

/// Does a line of the recipe, up to its end or to the make that it begins.
pub(crate) fn run_lap<V: View>(
    alloc: Global,
    desk: &mut Desk<V>,
    spoken: &mut Spoken,
    job: &Job,
    depth: u8,
    opened: &RecipeStart,
    env: Option<Vars>,
    ready: &ParsedLine,
) -> Result<Lap, JobStop>
    ensures does { Does is_free V.tells desk.old desk.new spoken.old spoken.new result
        (laps.lap job.now depth opened.now env ready.now.placed (meaning_of ready.now.line)) }
    ensures sent { IfBegins result IsSent }
    ensures burns { IfBegins result (λ l. desk.new.work.fuel < desk.old.work.fuel) }
{
    let (env, tried) = tried_line(alloc, desk, spoken, job, depth, opened, env, ready)?;
    match tried {
        Tried::Ran(status) => {
            let stamps = opened.stamps.items();
            let placed = &ready.placed;
            let end = after_line(alloc, desk, spoken, job, stamps, placed, env, status)?;
            Ok(lap_of(end))
        }
        Tried::Begins(line) => Ok(Lap::Begins(env, line)),
    }
}
