//! What the tests compare, as texts.
use em_base::{Place, Text};
use em_engine::{Cause, Note};
use em_path::Path;
use em_tree::{Answer, Entry, Outcome, Question};
use std::alloc::{AllocError, Global};

/// The bytes, each as a character.
pub fn show_bytes(log: &mut String, bytes: &[u8]) -> Result<(), AllocError> {
    for byte in bytes {
        log.push(char::from(*byte))?;
    }
    Ok(())
}

/// The word, and the path.
pub fn show_path(log: &mut String, word: &str, path: &Path) -> Result<(), AllocError> {
    log.push_str(word)?;
    show_bytes(log, path.text())
}

fn show_question(log: &mut String, question: &Question) -> Result<(), AllocError> {
    match question {
        Question::Kind(path) => show_path(log, "kind of ", path),
        Question::Stamp(path) => show_path(log, "stamp of ", path),
        Question::Content(path) => show_path(log, "content of ", path),
        Question::Names(path) => show_path(log, "names of ", path),
        Question::Link(path) => show_path(log, "link of ", path),
        Question::Outcome(job) => write!(log, "outcome of {job}"),
    }
}

/// How many names there are, and each.
fn show_names(log: &mut String, names: &[Text]) -> Result<(), AllocError> {
    let count = names.len();
    write!(log, "{count} names")?;
    for name in names {
        log.push_str(" ")?;
        show_bytes(log, name.bytes())?;
    }
    Ok(())
}

/// The answer, with what kind it is of.
pub fn show_answer(log: &mut String, answer: &Answer) -> Result<(), AllocError> {
    match answer {
        Answer::Kind(kind) => write!(log, "{kind:?}"),
        Answer::Stamp(Some(stamp)) => write!(log, "stamp {stamp}"),
        Answer::Stamp(None) => log.push_str("no stamp"),
        Answer::Content(Some(body)) => show_bytes(log, body.bytes()),
        Answer::Content(None) => log.push_str("no content"),
        Answer::Names(Some(names)) => show_names(log, names.names()),
        Answer::Names(None) => log.push_str("no names"),
        Answer::Link(Some(text)) => show_bytes(log, text.bytes()),
        Answer::Link(None) => log.push_str("no link"),
        Answer::Outcome(Some(outcome)) => show_outcome(log, outcome),
        Answer::Outcome(None) => log.push_str("no outcome"),
    }
}

fn show_entry(log: &mut String, entry: &Option<Entry>) -> Result<(), AllocError> {
    match entry {
        Some(entry) => {
            show_question(log, &entry.question)?;
            log.push_str(" is ")?;
            show_answer(log, &entry.answer)
        }
        None => log.push_str("none"),
    }
}

fn show_place(log: &mut String, place: &Place) -> Result<(), AllocError> {
    log.push_str(" at ")?;
    show_bytes(log, place.file.bytes())?;
    let line = place.line;
    write!(log, ":{line}")
}

/// How a job ended, with all that is told of it.
pub fn show_outcome(log: &mut String, outcome: &Outcome) -> Result<(), AllocError> {
    match outcome {
        Outcome::Upto => log.push_str("up to date"),
        Outcome::Counted => log.push_str("counted"),
        Outcome::Made => log.push_str("made"),
        Outcome::Failed(status) => write!(log, "failed {status}"),
        Outcome::NoRule => log.push_str("no rule"),
        Outcome::Skipped => log.push_str("skipped"),
        Outcome::Halted { text, place } => {
            log.push_str("halted ")?;
            show_bytes(log, text.bytes())?;
            show_place(log, place)
        }
        Outcome::Refused { construct, place } => {
            write!(log, "refused {construct:?}")?;
            show_place(log, place)
        }
        Outcome::Spent => log.push_str("spent"),
    }
}

fn show_after(log: &mut String, after: &Option<u32>) -> Result<(), AllocError> {
    match after {
        Some(job) => write!(log, " after {job}"),
        None => log.push_str(" after none"),
    }
}

fn show_cause(log: &mut String, cause: &Cause) -> Result<(), AllocError> {
    match cause {
        Cause::Differ {
            place,
            question,
            recorded,
            now,
            after,
        } => {
            write!(log, " differ {place}: ")?;
            show_question(log, question)?;
            log.push_str(" was ")?;
            show_answer(log, recorded)?;
            log.push_str(" is ")?;
            show_answer(log, now)?;
            show_after(log, after)
        }
        Cause::Strange { place, board, run } => {
            write!(log, " strange {place}: board ")?;
            show_entry(log, board)?;
            log.push_str(", run ")?;
            show_entry(log, run)
        }
        Cause::Foreign => log.push_str(" foreign"),
        Cause::WantOfMemory => log.push_str(" memory"),
    }
}

/// The job, in how many runs it came to be committed, and why in two.
pub fn show_note(log: &mut String, note: &Note) -> Result<(), AllocError> {
    let job = note.job;
    let runs = note.runs;
    write!(log, "{job} in {runs}")?;
    match &note.cause {
        Some(cause) => show_cause(log, cause),
        None => Ok(()),
    }
}

/// The notes, each with what follows it.
pub fn show_notes(log: &mut String, notes: &[Note]) -> Result<(), AllocError> {
    for note in notes {
        show_note(log, note)?;
        log.push_str("; ")?;
    }
    Ok(())
}
