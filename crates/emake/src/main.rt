//! `emake`: builds goals of a makefile in a tree of files that one file holds.
#![tactic(auto)]

ghost use Rattle.std.specs.Prelude.{◌≡◌, IsSome};

use em_base::NoMemory;
use em_host::{Fault, RealHost};
use em_program::program;
use std::alloc::Global;
use std::env;
use std::process::ExitCode;

fn main(rt: HostRuntime) -> ExitCode {
    let args = env::args(&rt);
    let alloc = rt.alloc();
    let mut host = RealHost::new(alloc, rt);
    let status = program(&rt, alloc, args, &mut host);
    explain(&rt, alloc, status, host.fault());
    ExitCode::from(status)
}

/// Says in one line on standard error why the program did only a part, and nothing at a status
/// other than 3 and 7. Where that can't be said either, the status alone tells it.
fn explain(rt: &impl Eprint, alloc: Global, status: u8, fault: Option<&Fault>)
    requires { status ≡ 3 → IsSome fault }
{
    let _ = match status {
        3 => match fault.unwrap().words(alloc) {
            Ok(words) => eprintln!(rt; "emake: {words}"),
            Err(NoMemory) => eprintln!(rt; "emake: out of memory"),
        },
        7 => eprintln!(rt; "emake: out of memory"),
        _ => Ok(()),
    };
}
