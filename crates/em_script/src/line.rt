//! A line for the shell.
ghost use Rattle.std.specs.Prelude.{◌<◌, IfOk, IfSome};
ghost use Rattle.em_exec.specs.Subs.{words_if};
ghost use Rattle.em_script.specs.Lines.{IsRead, run_line};
ghost use Rattle.em_script.specs.Strands.{sub_of};
ghost use Rattle.em_view.specs.Ends.{is_want};
ghost use Rattle.em_view.specs.Steps.{Does};

use em_base::{Construct, NoMemory, Text};
use em_exec::{SubWords, exec};
use em_gram::{GramNo, parse};
use em_syntax as tree;
use em_view::{Desk, ExecNo, View};
use em_word::Shell;
use std::alloc::Global;

/// What a line is by the grammar.
#[derive(Drop)]
pub enum ShellLine {
    Script(tree::Script),
    /// Its leftmost fault is an error of syntax.
    Wrong,
    /// Its leftmost fault is a construct that isn't supported.
    Refused(Construct),
}

impl ShellLine {
    /// Reads a line, in time linear in its length.
    pub fn read(alloc: Global, text: &[u8]) -> Result<ShellLine, NoMemory>
        ensures { IfOk result (λ line. IsRead text.now line) }
    {
        match parse(alloc, text) {
            Ok(script) => Ok(ShellLine::Script(script)),
            Err(GramNo::Unexpected(_)) => Ok(ShellLine::Wrong),
            Err(GramNo::Unclosed(_)) => Ok(ShellLine::Wrong),
            Err(GramNo::Refused(construct, _)) => Ok(ShellLine::Refused(construct)),
            Err(GramNo::NoMemory) => Err(NoMemory),
        }
    }

    /// Runs it as `exec` does a script. Wrong syntax is written as `emake: sh: syntax error` and
    /// has status 2. A construct that isn't supported is refused before anything runs.
    pub fn run<V: View>(
        &self,
        alloc: Global,
        shell: &mut Shell,
        desk: &mut Desk<V>,
        out: &mut Text,
    ) -> Result<u8, ExecNo>
        ensures { Does is_want V.tells desk.old desk.new
            (record { shell = shell.old; output = out.old })
            (record { shell = shell.new; output = out.new })
            result (run_line self.now) }
    {
        match self {
            ShellLine::Script(script) => exec(alloc, script, shell, desk, out),
            ShellLine::Wrong => {
                out.add(b"emake: sh: syntax error\n")?;
                Ok(2)
            }
            ShellLine::Refused(construct) => Err(ExecNo::Refused(construct.copy(alloc)?)),
        }
    }

    /// What a line comes to that begins a make within a make: one command `emake` or `make`, alone
    /// or behind `cd W &&`. Its words are expanded as `run` expands them, in the directory that
    /// `cd` gives, but no make is run. Where W isn't one field, the whole line has run. Any other
    /// line has no words, and for it nothing is done.
    ///
    /// Errors and cost are those of `run` for what is expanded or has run; where there are words,
    /// at least one unit of fuel is gone. What was written is appended to `out`, also before an
    /// error.
    pub fn sub_words<V: View>(
        &self,
        alloc: Global,
        shell: &mut Shell,
        desk: &mut Desk<V>,
        out: &mut Text,
    ) -> Result<Option<SubWords>, ExecNo>
        ensures does { Does is_want V.tells desk.old desk.new
            (record { shell = shell.old; output = out.old })
            (record { shell = shell.new; output = out.new })
            result (words_if (sub_of self.now)) }
        ensures burns { IfOk result
            (λ w. IfSome w (λ x. desk.new.work.fuel < desk.old.work.fuel)) }
    {
        match self {
            ShellLine::Script(script) => em_exec::sub_words(alloc, script, shell, desk, out),
            ShellLine::Wrong => Ok(None),
            ShellLine::Refused(_) => Ok(None),
        }
    }
}
