//! A generated project's build, which is only counted.
ghost use Rattle.std.specs.Prelude.{◌≡◌, IfOk};
ghost use Rattle.em_host.specs.Outside.{Tells};
ghost use Rattle.em_program.specs.Statuses.{code_of};
ghost use Rattle.em_program.specs.Course.{faults_after};
ghost use Rattle.em_program.specs.Endings.{IsCount, IsWork};
ghost use Rattle.em_program.specs.Messages as messages;
ghost use Rattle.em_program.specs.Projects.{IsSite};

use crate::build::{Finished, run_from};
use crate::rounds::first;
use crate::say::{say, stop};
use crate::site::Site;
use crate::stop::ProgramEnd;
use em_base::{NoMemory, Text};
use em_host::{Host, MemHost};
use itoa::Buffer;
use std::alloc::Global;
use std::sync::Wait;
use std::thread::Threads;

/// What a generated project's build comes to: how many jobs its plan has, how many bytes it would
/// print, how many nodes the new tree has, and the status.
fn summary(alloc: Global, finished: &Finished, printed: usize) -> Result<Text, NoMemory>
    ensures { IfOk result (λ t. t ≡
        messages.summary finished.now.jobs printed finished.now.nodes
        (code_of finished.now.verdict)) }
{
    let mut buffer = Buffer::new();
    let mut out = Text::from_slice(alloc, b"jobs ")?;
    out.add(buffer.format(finished.jobs).as_bytes())?;
    out.add(b"\nprinted ")?;
    out.add(buffer.format(printed).as_bytes())?;
    out.add(b"\nnodes ")?;
    out.add(buffer.format(finished.nodes).as_bytes())?;
    out.add(b"\nstatus ")?;
    out.add(buffer.format(finished.verdict.code()).as_bytes())?;
    out.add(b"\n")?;
    Ok(out)
}

/// What there is to build at the site, built.
pub fn work<R: Threads + Wait + Sync, H: Host>(
    rt: &R,
    alloc: Global,
    site: Site,
    host: &mut H,
) -> Result<Finished, ProgramEnd>
    requires { IsSite site }
    ensures told { Tells (IsWork site result) (H.told host.old) (H.told host.new) }
    ensures faults { H.faults host.new ≡ faults_after result (H.faults host.old) }
{
    let step = first(alloc, site, host)?;
    run_from(rt, alloc, step, host)
}

/// Builds beside the host, and says only how much there was; where the build is refused, what it
/// said.
pub fn count<R: Threads + Wait + Sync, H: Host>(
    rt: &R,
    alloc: Global,
    site: Site,
    host: &mut H,
) -> Result<Finished, ProgramEnd>
    requires { IsSite site }
    ensures told { Tells (IsCount site result) (H.told host.old) (H.told host.new) }
    ensures faults { H.faults host.new ≡ faults_after result (H.faults host.old) }
{
    let mut quiet = MemHost::new(alloc);
    match work(rt, alloc, site, &mut quiet) {
        Ok(finished) => {
            let line = summary(alloc, &finished, quiet.printed().len())?;
            say(host, line.bytes())?;
            Ok(finished)
        }
        Err(ProgramEnd::End(verdict)) => stop(host, quiet.printed(), verdict),
        Err(_) => Err(ProgramEnd::NoMemory),
    }
}
