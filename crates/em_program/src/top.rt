//! The top call: what the program does.
ghost use Rattle.std.specs.Prelude.{◌≡◌, ◌≢◌, ◌⊎◌, All, List, [], length, take};
ghost use Rattle.em_host.specs.Outside.{Files, Tells};
ghost use Rattle.em_host.specs.Faults.{next_count};
ghost use Rattle.em_tree.specs.declared.state.State.{State};
ghost use Rattle.em_history.specs.Histories.{Pair, IsHistory, united};
ghost use Rattle.em_cmdline.specs.declared.order.Order.{Order};
ghost use Rattle.em_learning.specs.Learnt as shown;
ghost use Rattle.em_plan.specs.declared.planned.PlanJob.{PlanJob};
ghost use Rattle.em_engine.specs.declared.note.Note.{Note};
ghost use Rattle.em_workers.specs.Builds.{IsOnce};
ghost use Rattle.em_workers.specs.Notes.{AreNotes};
ghost use Rattle.em_run.specs.Serial.{Made, Ran, IsSerial};
ghost use Rattle.em_task.specs.declared.job.Job.{Job};
ghost use Rattle.em_nesting.specs.Nested.{MakesAll};
ghost use Rattle.em_program.specs.Course.{faults_after};
ghost use Rattle.em_program.specs.Endings.{verdict_in, notes_in};
ghost use Rattle.em_program.specs.Headline.{Headline, Exits, Reaches, exit_status};
ghost use Rattle.em_program.specs.Alike.{AreProjects, AreSites, IsSame};
ghost use Rattle.em_program.specs.Rounds.{first, following, moved};
ghost use Rattle.em_program.specs.Serial.{ends};
ghost use Rattle.em_program.specs.declared.project.Project.{Project};
ghost use Rattle.em_program.specs.declared.rounds.Remaking.{Remaking};
ghost use Rattle.em_program.specs.declared.site.Site.{Site};
ghost use Rattle.em_program.specs.Words.{words_of};

use crate::build::Finished;
use crate::count::{count, work};
use crate::site::site_of;
use crate::stop::ProgramEnd;
use crate::words::{behind_first, given_words};
use em_base::{NoMemory, Seq, Text};
use em_engine::Note;
use em_history::laws::{law_one_history, law_united};
use em_host::Host;
use em_nesting::MakeSpec;
use em_nesting::laws::law_one_effect;
use em_run::law_one_run;
use std::alloc::Global;
use std::env::Args;
use std::io;
use std::sync::Wait;
use std::thread::Threads;

/// How a run ended.
#[derive(Debug, Drop, PartialEq, Eq)]
pub struct Ended {
    /// 0: nothing went wrong. 1: `-q` was given, and something is to be made. 2: a fault. 3: the
    /// host failed. 4: a construct was refused. 5: fuel was spent. 7: memory ran out.
    pub status: u8,
    /// One for each job of the serial runs of all builds, in order: in how many runs it came to be
    /// committed, and why in two. None where the words, the image, the directory, a makefile, a
    /// round or a plan was refused, and at 3 and 7.
    pub notes: Seq<Note>,
}

/// The run, from the words to its end.
fn run<R: Threads + Wait + Sync, H: Host>(
    rt: &R,
    alloc: Global,
    words: &[Text],
    host: &mut H,
) -> Result<Finished, ProgramEnd>
    ensures told { Tells (Reaches words.now result) (H.told host.old) (H.told host.new) }
    ensures faults { H.faults host.new ≡ faults_after result (H.faults host.old) }
{
    let site = site_of(alloc, words, host)?;
    match site.order.generate {
        None => work(rt, alloc, site, host),
        Some(_) => count(rt, alloc, site, host),
    }
}

fn exit_status(answer: &Result<Finished, ProgramEnd>) -> u8
    ensures { result ≡ exit_status (verdict_in answer.now) }
{
    match answer {
        Ok(finished) => finished.verdict.code(),
        Err(ProgramEnd::End(verdict)) => verdict.code(),
        Err(ProgramEnd::Failed) => 3,
        Err(ProgramEnd::NoMemory) => 7,
    }
}

/// The notes, none where the run broke off.
fn notes_in(alloc: Global, answer: Result<Finished, ProgramEnd>) -> Seq<Note>
    ensures { result ≡ notes_in answer }
{
    match answer {
        Ok(finished) => finished.notes,
        Err(_) => Seq::new(alloc),
    }
}

/// Does all that the program does, in this order: reads the words, the image, the history and the
/// makefiles, plans, runs the jobs, says the closing text and replaces the image, the history and
/// the report. Makefiles that rules make are made first, as goals of a build of their own: where
/// one changed, the makefiles are read anew, at most eight times. A generated project is built
/// beside the host: only a summary is said, and nothing is replaced. `--explain` says what a report
/// tells, `--help` and `--version` print a page, and nothing else is done.
///
/// Over a host that tells its files and what was printed, and with a status other than 3 and 7, the
/// printed bytes grew by exactly what the serial runs of the builds say, the image is that of the
/// last one, and the status is that of all of them, for every number of workers that the words
/// order, and whatever the history tells (`law_history`). The history tells the notes of all
/// builds, the report those of the last one. At 3 and 7 a front of this was done. No other file is
/// touched. Status 3 comes only where a call on the host failed, and where one failed the status is
/// 3 or 7 and nothing more is called.
///
/// Over such a host a job's note has one run, or two and why: its first run was answered otherwise
/// than the serial run is, isn't what the board was asked, is another job's, or was given up for
/// want of memory. With one worker each note has one run. With more the call may wait.
///
/// Besides the jobs themselves it takes time linear in the image, in the history, in what is read
/// of makefiles and in the plans, with searches by name or path for each name and each change, and
/// a sort of the pairs that were learnt; with more than one worker also what a board takes of them.
/// A round that makes makefiles copies the tree, whose files share their bytes.
pub fn emake<R: Threads + Wait + Sync, H: Host>(
    rt: &R,
    alloc: Global,
    words: &[Text],
    host: &mut H,
) -> Ended
    ensures headline { Tells (Headline words.now result.status result.notes)
        (H.told host.old) (H.told host.new) }
    ensures cause { result.status ≡ 3 → H.faults host.new ≡ next_count (H.faults host.old) }
    ensures effect { H.faults host.new ≢ H.faults host.old
        → (result.status ≡ 3) ⊎ (result.status ≡ 7) }
    ensures none { (result.status ≡ 3) ⊎ (result.status ≡ 7) → result.notes ≡ [] }
{
    let answer = run(rt, alloc, words, host);
    let status = exit_status(&answer);
    let notes = notes_in(alloc, answer);
    Ended { status, notes }
}

/// Jobs have one serial run at most, and jobs that have run so are a front of it.
pub fn law_one_build()
    ensures front { (start : State) (jobs : List Job) (a b : List Made)
        → Ran MakesAll ends start jobs a → IsSerial MakesAll ends start jobs b
        → a ≡ take (length a) b }
    ensures one { (start : State) (jobs : List Job) (a b : List Made)
        → IsSerial MakesAll ends start jobs a → IsSerial MakesAll ends start jobs b → a ≡ b }
{
    law_one_effect();
    law_one_run::<MakeSpec>();
}

/// Where each job was run once, as with one worker, nothing is learnt, and a history that is merged
/// with what was learnt is as it was.
pub fn law_alone()
    ensures none { (jobs : List PlanJob) (s : State) (made : List Made) (notes : List Note)
        → AreNotes s [] made notes → All IsOnce notes → shown.learnt jobs notes ≡ [] }
    ensures still { (ps : List Pair) → IsHistory ps → united ps [] ≡ ps }
{
    law_united();
    law_one_history();
}

/// A history changes nothing of what there is to build but what jobs wait for: not what is said on
/// the way, the order, the plan, the jobs or the tree from which they start. So it is of the first
/// build, and of each behind one whose jobs have made the same.
pub fn law_history()
    ensures first { (s t : Site) (files : Files) → AreSites s t → IsSame (first s) (first t) files }
    ensures following { (m : Remaking) (s t : Site) (files : Files) → AreSites s t
        → IsSame (following m s) (following m t) files }
    ensures moved { (order : Order) (p q : Project) (s : State) (notes others : List Note)
        → AreProjects p q
        → AreSites (moved order p.terms s notes) (moved order q.terms s others) }
{}

/// The program, from the words that the system gives to the exit status.
pub fn program<R: Threads + Wait + Sync, H: Host>(
    rt: &R,
    alloc: Global,
    args: io::Result<Args>,
    host: &mut H,
) -> u8
    ensures headline { Tells (Exits (words_of args) result) (H.told host.old) (H.told host.new) }
    ensures cause { result ≡ 3 → H.faults host.new ≡ next_count (H.faults host.old) }
    ensures effect { H.faults host.new ≢ H.faults host.old → (result ≡ 3) ⊎ (result ≡ 7) }
{
    match given_words(alloc, args) {
        Ok(words) => emake(rt, alloc, behind_first(words.items()), host).status,
        Err(NoMemory) => 7,
    }
}
