//! What the jobs of a makefile are asked to do.
use super::makefiles::read_with;
use em_job::Job;
use em_plan::SharedJob;
use em_rules::Book;
use em_testing::{show_bytes, show_path};
use std::alloc::{AllocError, Global};
use std::test::Fail;

/// Three jobs: `b`, `c` and `a`, which waits for both.
const MARKED: &str = "EMTREE 1\nd 5 /\nd 5 /d\nf 5 80 /d/Makefile\n\
    .SILENT: a\n.IGNORE: b\n.DELETE_ON_ERROR:\n.PHONY: b\nV = v\n\
    a: b | c\n\techo $^\nb:\nc:\n\n.\n";

/// The letter of the order's option, and of each job: its number, the base, the fuel and the
/// directory; the options; whether it is quiet, lenient, and deletes on an error; and the phony
/// names.
type Row = (char, &'static str);

static ROWS: [Row; 6] = [
    (
        'k',
        "0 5 9 /d -k lenient delete b; 1 5 9 /d -k delete; 2 5 9 /d -k quiet delete b; ",
    ),
    (
        'n',
        "0 5 9 /d -n lenient delete b; 1 5 9 /d -n delete; 2 5 9 /d -n quiet delete b; ",
    ),
    (
        'q',
        "0 5 9 /d -q lenient delete b; 1 5 9 /d -q delete; 2 5 9 /d -q quiet delete b; ",
    ),
    (
        's',
        "0 5 9 /d -s quiet lenient delete b; 1 5 9 /d -s quiet delete; \
         2 5 9 /d -s quiet delete b; ",
    ),
    (
        'i',
        "0 5 9 /d -i lenient delete b; 1 5 9 /d -i lenient delete; \
         2 5 9 /d -i quiet lenient delete b; ",
    ),
    (
        'B',
        "0 5 9 /d -B lenient delete b; 1 5 9 /d -B delete; 2 5 9 /d -B quiet delete b; ",
    ),
];

/// A word where it applies.
fn show_if(log: &mut String, applies: bool, word: &str) -> Result<(), AllocError> {
    log.push_str(if applies { word } else { "" })
}

fn show_flags(log: &mut String, job: &Job) -> Result<(), AllocError> {
    show_if(log, job.flags.keep_going, " -k")?;
    show_if(log, job.flags.dry, " -n")?;
    show_if(log, job.flags.question, " -q")?;
    show_if(log, job.flags.silent, " -s")?;
    show_if(log, job.flags.ignore, " -i")?;
    show_if(log, job.flags.always, " -B")?;
    show_if(log, job.quiet, " quiet")?;
    show_if(log, job.lenient, " lenient")?;
    show_if(log, job.delete_on_error, " delete")
}

fn show_phony(log: &mut String, job: &Job) -> Result<(), AllocError> {
    for name in job.phony.items() {
        log.push_str(" ")?;
        show_bytes(log, name.bytes())?;
    }
    Ok(())
}

/// Whether the job is the plan's, with the makefile's variables.
fn is_of(job: &Job, planned: &SharedJob, book: &Book) -> bool {
    job.plan == *planned && *job.vars.vars() == book.vars
}

fn show_job(
    log: &mut String,
    job: &Job,
    planned: &SharedJob,
    book: &Book,
) -> Result<(), AllocError> {
    let (number, base, fuel) = (job.job, job.base, job.fuel);
    write!(log, "{number} {base} {fuel} ")?;
    show_path(log, "", &job.cwd)?;
    show_flags(log, job)?;
    show_phony(log, job)?;
    show_if(log, !is_of(job, planned, book), " another")?;
    log.push_str("; ")
}

/// The makefile's jobs, by an order with this option.
fn show_jobs(alloc: Global, letter: char, log: &mut String) -> Result<(), Fail> {
    let (book, plan, jobs) = read_with(alloc, MARKED, letter)?;
    for (spec, planned) in jobs.specs.items().iter().zip(plan.jobs.items()) {
        show_job(log, spec.get(), planned, &book)?;
    }
    Ok(())
}

fn log_of(alloc: Global, letter: char) -> Result<String, Fail> {
    let mut log = String::new(alloc);
    show_jobs(alloc, letter, &mut log)?;
    Ok(log)
}

#[test]
fn a_job_has_what_order_makefile_and_plan_say(rt: HostRuntime) -> Result<(), Fail> {
    for (letter, wanted) in &ROWS {
        let log = log_of(rt.alloc(), *letter)?;
        assert_eq!(rt; log.as_str(), *wanted);
    }
    Ok(())
}
