//! The words of a line that begins a make within a make.
ghost use Rattle.std.specs.Prelude.{◌≡◌, ◌<◌, false, Some, drop, option_map, IfOk, IfSome};
ghost use Rattle.em_command.specs.Jumps.{is_free};
ghost use Rattle.em_exec.specs.Running.{script_at};
ghost use Rattle.em_exec.specs.Subs as subs;
ghost use Rattle.em_exec.specs.Subs.{Alone, Behind, is_ended};
ghost use Rattle.em_syntax.specs.declared.tree.Joined.{out-Joined};
ghost use Rattle.em_view.specs.Ends.{is_want};
ghost use Rattle.em_view.specs.Performs.{is_free as free_in};
ghost use Rattle.em_view.specs.Steps.{Does, with_state};

use crate::enter::inside;
use crate::form::{cd_in, make_in};
use crate::parts::charge_unit;
use crate::run::{fields_of, joined_in, worded_in};
use crate::script::{begin, go_back, line_scene};
use em_base::{Seq, Text};
use em_command::{Here, Jump, Scene};
use em_syntax::{Joined, Pipeline, Script, Simple};
use em_view::{Desk, ExecNo, View};
use em_word::Shell;
use std::alloc::Global;

/// What the words of a line come to that begins a make within a make.
#[derive(Debug, Drop)]
pub enum SubWords {
    /// The words behind the command's name.
    Words(Seq<Text>),
    /// This, behind `cd`, is no directory.
    NoDir(Text),
    /// The line has run as an ordinary one, or ended in its words; this is its status.
    Status(u8),
}

/// What was heard of the words.
#[derive(Drop)]
pub(crate) enum WordsHeard {
    /// Those behind the name.
    Told(Seq<Text>),
    /// This is no directory.
    Missed(Text),
    /// An ordinary line has run.
    Ran,
}

/// The texts behind the first one. A step for each; no bytes are copied.
pub(crate) fn behind_first(words: Seq<Text>) -> Seq<Text>
    ensures { result ≡ drop 1 words }
{
    let mut rest = words.into_vec();
    if !rest.is_empty() {
        rest.remove(0);
    }
    Seq::from_vec(rest)
}

/// The fields of a command's words.
pub(crate) fn fields_in<V: View>(
    alloc: Global,
    left: u32,
    simple: &Simple,
    scene: &Scene,
    here: &mut Here,
    desk: &mut Desk<V>,
) -> Result<Seq<Text>, Jump>
    ensures { Does is_free V.tells desk.old desk.new here.old here.new result
        (subs.fields_in (script_at left) scene.now simple.now) }
{
    here.substituted = 0;
    fields_of(alloc, left, &simple.words, scene, here, desk)
}

/// A command's unit, and then the fields of its words.
fn charged<V: View>(
    alloc: Global,
    left: u32,
    simple: &Simple,
    scene: &Scene,
    here: &mut Here,
    desk: &mut Desk<V>,
) -> Result<Seq<Text>, Jump>
    ensures does { Does is_free V.tells desk.old desk.new here.old here.new result
        (subs.charged (script_at left) scene.now simple.now) }
    ensures burns { is_ended result ≡ false → desk.new.work.fuel < desk.old.work.fuel }
{
    charge_unit(desk)?;
    fields_in(alloc, left, simple, scene, here, desk)
}

/// What `cd` does with these words, and then what is joined to it.
fn ordinary<V: View>(
    alloc: Global,
    left: u32,
    cd: &Simple,
    words: &[Text],
    joined: &Joined,
    scene: &Scene,
    here: &mut Here,
    desk: &mut Desk<V>,
) -> Result<WordsHeard, Jump>
    ensures { Does is_free V.tells desk.old desk.new here.old here.new result
        (subs.ordinary (script_at left) scene.now cd.now words.now joined.now) }
{
    worded_in(alloc, left, cd, words, scene, here, desk)?;
    joined_in(alloc, left, joined, scene, here, desk)?;
    Ok(WordsHeard::Ran)
}

/// The line once the words of its `cd` are known. Where they aren't two it is an ordinary one.
fn by_fields<V: View>(
    alloc: Global,
    left: u32,
    cd: &Simple,
    joined: &Joined,
    make: &Simple,
    words: &[Text],
    scene: &Scene,
    here: &mut Here,
    desk: &mut Desk<V>,
) -> Result<WordsHeard, Jump>
    ensures { Does is_free V.tells desk.old desk.new here.old here.new result
        (subs.by_fields (script_at left) scene.now cd.now joined.now make.now words.now) }
{
    if words.len() == 2 {
        return inside(alloc, left, &words[1], make, scene, here, desk);
    }
    ordinary(alloc, left, cd, words, joined, scene, here, desk)
}

/// The words of a command that is the whole line.
fn heard_alone<V: View>(
    alloc: Global,
    left: u32,
    make: &Simple,
    scene: &Scene,
    here: &mut Here,
    desk: &mut Desk<V>,
) -> Result<WordsHeard, Jump>
    ensures does { Does is_free V.tells desk.old desk.new here.old here.new result
        (subs.heard (script_at left) scene.now (Alone make.now)) }
    ensures burns { is_ended result ≡ false → desk.new.work.fuel < desk.old.work.fuel }
{
    let words = charged(alloc, left, make, scene, here, desk)?;
    Ok(WordsHeard::Told(behind_first(words)))
}

/// The words of a command behind `cd W &&`.
fn heard_behind<V: View>(
    alloc: Global,
    left: u32,
    cd: &Simple,
    joined: &Joined,
    make: &Simple,
    scene: &Scene,
    here: &mut Here,
    desk: &mut Desk<V>,
) -> Result<WordsHeard, Jump>
    ensures does { Does is_free V.tells desk.old desk.new here.old here.new result
        (subs.heard (script_at left) scene.now (Behind cd.now joined.now make.now)) }
    ensures burns { is_ended result ≡ false → desk.new.work.fuel < desk.old.work.fuel }
{
    let words = charged(alloc, left, cd, scene, here, desk)?;
    by_fields(
        alloc,
        left,
        cd,
        joined,
        make,
        words.items(),
        scene,
        here,
        desk,
    )
}

/// Goes back to the shell that was lent, with what was heard.
fn close_with(
    ended: Result<WordsHeard, Jump>,
    here: Here,
    shell: &mut Shell,
    out: &mut Text,
) -> Result<SubWords, ExecNo>
    ensures { free_in is_want result ≡ false →
        with_state result (record { shell = shell.new; output = out.new })
        ≡ subs.closed_with (record { shell = shell.old; output = out.old })
        (with_state ended here) }
{
    let status = here.shell.status;
    go_back(here, shell, out)?;
    match ended {
        Ok(WordsHeard::Told(words)) => Ok(SubWords::Words(words)),
        Ok(WordsHeard::Missed(name)) => Ok(SubWords::NoDir(name)),
        Ok(WordsHeard::Ran) | Err(Jump::Exit) | Err(Jump::Break) | Err(Jump::Continue) => {
            Ok(SubWords::Status(status))
        }
        Err(Jump::End(e)) => Err(e),
    }
}

/// A line that is the command alone.
fn words_alone<V: View>(
    alloc: Global,
    make: &Simple,
    shell: &mut Shell,
    desk: &mut Desk<V>,
    out: &mut Text,
) -> Result<SubWords, ExecNo>
    ensures does { Does is_want V.tells desk.old desk.new
        (record { shell = shell.old; output = out.old })
        (record { shell = shell.new; output = out.new })
        result (subs.words_of (Alone make.now)) }
    ensures burns { IfOk result (λ w. desk.new.work.fuel < desk.old.work.fuel) }
{
    let mut here = begin(alloc, shell)?;
    let scene = line_scene(alloc)?;
    let ended = heard_alone(alloc, 64, make, &scene, &mut here, desk);
    close_with(ended, here, shell, out)
}

/// A line that is `cd W`, and joined to it the command.
fn words_behind<V: View>(
    alloc: Global,
    cd: &Simple,
    joined: &Joined,
    make: &Simple,
    shell: &mut Shell,
    desk: &mut Desk<V>,
    out: &mut Text,
) -> Result<SubWords, ExecNo>
    ensures does { Does is_want V.tells desk.old desk.new
        (record { shell = shell.old; output = out.old })
        (record { shell = shell.new; output = out.new })
        result (subs.words_of (Behind cd.now joined.now make.now)) }
    ensures burns { IfOk result (λ w. desk.new.work.fuel < desk.old.work.fuel) }
{
    let mut here = begin(alloc, shell)?;
    let scene = line_scene(alloc)?;
    let ended = heard_behind(alloc, 64, cd, joined, make, &scene, &mut here, desk);
    close_with(ended, here, shell, out)
}

/// A pipeline alone.
fn pipeline_words<V: View>(
    alloc: Global,
    pipeline: &Pipeline,
    shell: &mut Shell,
    desk: &mut Desk<V>,
    out: &mut Text,
) -> Result<Option<SubWords>, ExecNo>
    ensures does { Does is_want V.tells desk.old desk.new
        (record { shell = shell.old; output = out.old })
        (record { shell = shell.new; output = out.new })
        result (subs.words_if (option_map subs.words_of (option_map Alone
        (subs.command_alone subs.begins_with_make pipeline.now)))) }
    ensures burns { IfOk result
        (λ w. IfSome w (λ x. desk.new.work.fuel < desk.old.work.fuel)) }
{
    match make_in(pipeline) {
        Some(make) => Ok(Some(words_alone(alloc, make, shell, desk, out)?)),
        None => Ok(None),
    }
}

/// A command `cd W`, and a pipeline that is joined to it.
fn joined_make<V: View>(
    alloc: Global,
    cd: &Simple,
    joined: &Joined,
    shell: &mut Shell,
    desk: &mut Desk<V>,
    out: &mut Text,
) -> Result<Option<SubWords>, ExecNo>
    ensures does { Does is_want V.tells desk.old desk.new
        (record { shell = shell.old; output = out.old })
        (record { shell = shell.new; output = out.new })
        result (subs.words_if (option_map subs.words_of (subs.behind joined.now (Some cd.now)
        (subs.command_alone subs.begins_with_make (out-Joined joined.now).next)))) }
    ensures burns { IfOk result
        (λ w. IfSome w (λ x. desk.new.work.fuel < desk.old.work.fuel)) }
{
    if !joined.and {
        return Ok(None);
    }
    match make_in(&joined.next) {
        Some(make) => Ok(Some(words_behind(alloc, cd, joined, make, shell, desk, out)?)),
        None => Ok(None),
    }
}

/// A pipeline, and one that is joined to it.
fn joined_words<V: View>(
    alloc: Global,
    first: &Pipeline,
    joined: &Joined,
    shell: &mut Shell,
    desk: &mut Desk<V>,
    out: &mut Text,
) -> Result<Option<SubWords>, ExecNo>
    ensures does { Does is_want V.tells desk.old desk.new
        (record { shell = shell.old; output = out.old })
        (record { shell = shell.new; output = out.new })
        result (subs.words_if (option_map subs.words_of (subs.behind joined.now
        (subs.command_alone subs.is_cd first.now)
        (subs.command_alone subs.begins_with_make (out-Joined joined.now).next)))) }
    ensures burns { IfOk result
        (λ w. IfSome w (λ x. desk.new.work.fuel < desk.old.work.fuel)) }
{
    match cd_in(first) {
        Some(cd) => joined_make(alloc, cd, joined, shell, desk, out),
        None => Ok(None),
    }
}

/// A pipeline with those that are joined to it.
fn words_in<V: View>(
    alloc: Global,
    first: &Pipeline,
    rest: &[Joined],
    shell: &mut Shell,
    desk: &mut Desk<V>,
    out: &mut Text,
) -> Result<Option<SubWords>, ExecNo>
    ensures does { Does is_want V.tells desk.old desk.new
        (record { shell = shell.old; output = out.old })
        (record { shell = shell.new; output = out.new })
        result (subs.words_if (option_map subs.words_of (subs.form_by first.now rest.now))) }
    ensures burns { IfOk result
        (λ w. IfSome w (λ x. desk.new.work.fuel < desk.old.work.fuel)) }
{
    match rest {
        [] => pipeline_words(alloc, first, shell, desk, out),
        [joined] => joined_words(alloc, first, joined, shell, desk, out),
        _ => Ok(None),
    }
}

/// The words of a line that begins a make within a make: those behind the command's name, as the
/// shell expands them. The line is one simple command whose first word is `emake` or `make`, or
/// `cd W &&` and such a command; neither has assignments or redirections. The names count as they
/// stand in the line, without their quotes. `None` comes exactly where the script has no such form,
/// and then nothing is done.
///
/// Behind `cd W` the words are expanded in the directory that W names. Where there is none the
/// answer is `NoDir`, and the shell stays where it is. Where W comes to no field, or to more than
/// one, the line runs as an ordinary one; its status is the answer.
///
/// The units are taken in this order: 1 for `cd`, those of W's expansion, 1 for the command, those
/// of asking for W, which are 1 and 1 for each link that is followed, and those of the words.
/// Without a `cd` they are 1 for the command, and those of the words. An expansion, and an ordinary
/// line, cost what they do in `exec`. So where the answer isn't `None`, at least one is gone.
///
/// What is written to the streams 1 and 2 is appended to `out`, in the order of writing, also
/// before an error. After it the shell has its variables, and the working directory behind the
/// `cd`; `$?` is what it was, unless commands have run in the shell itself: a command substitution
/// runs in a copy. An unset name in `${name?word}` ends the line with its status, as `exit` does in
/// an ordinary one.
///
/// Errors, as of `exec`: `Refused` by a construct that isn't supported, and `Spent`; the changes
/// till then stand. `NoMemory`, which alone may come freely.
///
/// To see the form takes a step for each piece of the first words and for each byte of the names.
/// Then the shell's variables are copied once, and for the rest it takes the steps of the
/// expansions, and a step for each word.
pub fn sub_words<V: View>(
    alloc: Global,
    script: &Script,
    shell: &mut Shell,
    desk: &mut Desk<V>,
    out: &mut Text,
) -> Result<Option<SubWords>, ExecNo>
    ensures does { Does is_want V.tells desk.old desk.new
        (record { shell = shell.old; output = out.old })
        (record { shell = shell.new; output = out.new })
        result (subs.words_if (option_map subs.words_of (subs.sub_form script.now))) }
    ensures burns { IfOk result
        (λ w. IfSome w (λ x. desk.new.work.fuel < desk.old.work.fuel)) }
{
    match script.list.as_slice() {
        [] => Ok(None),
        [one] => words_in(alloc, &one.first, &one.rest, shell, desk, out),
        _ => Ok(None),
    }
}
