//! The makefile of an order, over any desk and over a state.
ghost use Rattle.std.specs.Prelude.{◌≡◌, [], None, false, map, IfOk};
ghost use Rattle.em_path.specs.Paths.{root_text};
ghost use Rattle.em_path.specs.Reading.{read_fault, resolved_text};
ghost use Rattle.em_reading.specs.Faults.{is_free};
ghost use Rattle.em_reader.specs.Makefiles as makefiles;
ghost use Rattle.em_reader.specs.Makefiles.{fresh, line_one, reading, read_all, round};
ghost use Rattle.em_view.specs.Actions.{snapshot};
ghost use Rattle.em_view.specs.Performs as performs;
ghost use Rattle.em_view.specs.Steps.{Does, with_state};

use crate::files::{Makefile, content_of};
use crate::goal::default_goal;
use crate::read::read_text;
use em_base::{Fuel, NoMemory, Place, Seq, Text};
use em_cmdline::Order;
use em_lines::joined;
use em_path::{Path, PathNo};
use em_reading::{Missing, Noted, ReadNo, Reading, absent, start, start_vars};
use em_rules::Book;
use em_tree::State;
use em_vars::Vars;
use em_view::{Desk, PlainView, View};
use std::alloc::Global;
use std::mem;

/// How many texts may be put into one another, and the first one.
const LEVELS: u32 = 65;

/// The units of a reading's fuel.
const FUEL: u64 = 10_000_000;

// ---- the makefile

/// The first line of the file of this name.
fn line_one(alloc: Global, name: &[u8]) -> Result<Place, NoMemory>
    ensures { IfOk result (λ p. p ≡ line_one name.now) }
{
    let file = Text::from_slice(alloc, name)?;
    Ok(Place { file, line: 1 })
}

/// The makefile that is asked for.
fn asked_for<V: View>(
    alloc: Global,
    desk: &mut Desk<V>,
    reading: &mut Reading,
    name: &Text,
) -> Result<Option<Makefile>, ReadNo>
    ensures { Does is_free V.tells desk.old desk.new reading.old reading.new result
        (makefiles.asked_for name.now) }
{
    let place = line_one(alloc, name.bytes())?;
    match content_of(alloc, desk, reading, &place, name.bytes())? {
        None => Err(absent(alloc, &place, name.bytes())),
        Some(bytes) => Ok(Some(Makefile {
            name: name.copy(alloc)?,
            bytes,
        })),
    }
}

/// The first of these files.
fn first_file<V: View>(
    alloc: Global,
    desk: &mut Desk<V>,
    reading: &mut Reading,
    names: &[&[u8]],
) -> Result<Option<Makefile>, ReadNo>
    ensures { Does is_free V.tells desk.old desk.new reading.old reading.new result
        (makefiles.first_file (map (λ n. n.now) names.now)) }
{
    for name in names {
        let place = line_one(alloc, name)?;
        if let Some(bytes) = content_of(alloc, desk, reading, &place, name)? {
            let name = Text::from_slice(alloc, name)?;
            return Ok(Some(Makefile { name, bytes }));
        }
    }
    Ok(None)
}

/// The makefile.
fn makefile_of<V: View>(
    alloc: Global,
    desk: &mut Desk<V>,
    reading: &mut Reading,
    name: &Option<Text>,
) -> Result<Option<Makefile>, ReadNo>
    ensures { Does is_free V.tells desk.old desk.new reading.old reading.new result
        (makefiles.makefile_of name.now) }
{
    match name {
        Some(name) => asked_for(alloc, desk, reading, name),
        None => {
            let names: [&[u8]; 3] = [b"GNUmakefile", b"makefile", b"Makefile"];
            first_file(alloc, desk, reading, &names)
        }
    }
}

/// The lines of the makefile.
fn read_file<V: View>(
    alloc: Global,
    desk: &mut Desk<V>,
    reading: &mut Reading,
    makefile: &Makefile,
) -> Result<(), ReadNo>
    ensures { Does is_free V.tells desk.old desk.new reading.old reading.new result
        (makefiles.read_file makefile.now) }
{
    reading.book.found = true;
    reading.opens(alloc, makefile.name.bytes())?;
    let place = line_one(alloc, makefile.name.bytes())?;
    let lines = joined(alloc, &makefile.name, makefile.bytes.bytes())?;
    read_text(alloc, LEVELS, desk, reading, &place, &lines)
}

/// The lines of the makefile, if there is one.
fn read_makefile<V: View>(
    alloc: Global,
    desk: &mut Desk<V>,
    reading: &mut Reading,
    makefile: &Option<Makefile>,
) -> Result<(), ReadNo>
    ensures { Does is_free V.tells desk.old desk.new reading.old reading.new result
        (makefiles.read_makefile makefile.now) }
{
    match makefile {
        None => Ok(()),
        Some(makefile) => read_file(alloc, desk, reading, makefile),
    }
}

/// The first line of the makefile, or of no file.
fn place_of(alloc: Global, makefile: &Option<Makefile>) -> Result<Place, NoMemory>
    ensures { IfOk result (λ p. p ≡ makefiles.place_of makefile.now) }
{
    match makefile {
        None => line_one(alloc, &[]),
        Some(makefile) => line_one(alloc, makefile.name.bytes()),
    }
}

/// All that the order asks to read.
fn read_all<V: View>(
    alloc: Global,
    desk: &mut Desk<V>,
    reading: &mut Reading,
    name: &Option<Text>,
) -> Result<(), ReadNo>
    ensures { Does is_free V.tells desk.old desk.new reading.old reading.new result
        (read_all name.now) }
{
    let makefile = makefile_of(alloc, desk, reading, name)?;
    read_makefile(alloc, desk, reading, &makefile)?;
    reading.end_rule(alloc)?;
    reading.end_conditionals(alloc)?;
    let place = place_of(alloc, &makefile)?;
    default_goal(alloc, desk, reading, &place)
}

// ---- the whole

/// What a round of reading gives.
#[derive(Drop)]
pub struct Round {
    pub book: Book,
    /// The names of the files that were read, in order: the makefile's, and those of `include`.
    pub files: Seq<Text>,
    /// The files that an `include` names and that aren't there, in order.
    pub missing: Seq<Missing>,
}

/// The book, with what was noted of files.
fn round_of(alloc: Global, book: Book, noted: Option<Noted>) -> Round
    ensures { result ≡ makefiles.round_of book noted }
{
    let Noted { files, missing } = match noted {
        Some(noted) => noted,
        None => Noted::new(alloc),
    };
    Round {
        book,
        files,
        missing,
    }
}

/// The reading from its start on, where files are noted behind these.
fn round_from<V: View>(
    alloc: Global,
    desk: &mut Desk<V>,
    order: &Order,
    noted: Option<Noted>,
    cwd: Path,
    vars: Vars,
    said: &mut Text,
) -> Result<Round, ReadNo>
    ensures { Does is_free V.tells desk.old desk.new said.old said.new result
        (makefiles.round_from noted order.now.makefile cwd vars) }
{
    let mut reading = start(alloc, cwd, vars, Text::new(alloc))?;
    reading.spoken.said = mem::replace(said, Text::new(alloc));
    reading.noted = noted;
    let result = read_all(alloc, desk, &mut reading, &order.makefile);
    let Reading {
        cwd: _,
        book,
        nest: _,
        opened: _,
        begun: _,
        around: _,
        define: _,
        spoken,
        noted,
    } = reading;
    *said = spoken.said;
    match result {
        Ok(()) => Ok(round_of(alloc, book, noted)),
        Err(e) => Err(e),
    }
}

/// Reads the makefile that the order asks for, where files are noted behind these.
fn noting<V: View>(
    alloc: Global,
    desk: &mut Desk<V>,
    order: &Order,
    noted: Option<Noted>,
    defaults: &Vars,
    said: &mut Text,
) -> Result<Round, ReadNo>
    requires { read_fault root_text order.now.dir ≡ None }
    ensures { Does is_free V.tells desk.old desk.new said.old said.new result
        (makefiles.noting noted order.now (resolved_text root_text order.now.dir) defaults.now) }
{
    let cwd = match Path::read(alloc, &Path::root(), order.dir.bytes()) {
        Ok(cwd) => cwd,
        Err(_) => return Err(ReadNo::NoMemory),
    };
    let vars = start_vars(
        alloc,
        order.goals.items(),
        order.assigned.items(),
        &cwd,
        defaults,
    )?;
    round_from(alloc, desk, order, noted, cwd, vars, said)
}

/// Reads the makefile that the order asks for, over any desk: its `-f`, else the first of
/// `GNUmakefile`, `makefile` and `Makefile` that is a file in the working directory, as GNU make
/// does. The variables of `defaults` that a make hands to a shell, the exported ones and those of
/// its command line, are there at the start, as exported defaults. What is said on the way is
/// appended to `said`, also before a fault; the first fault in reading order comes with its place.
///
/// The time is linear in what is read and expanded, with a few searches by name for each name in a
/// rule. A byte of a rule's line is copied at most eight times: when lines are joined, when the
/// line is parted, as a piece of the head, when that is expanded and put together again, as a word,
/// as a name, and as a key of the book's index. A byte of any other line is copied at most five
/// times, besides its expansion.
pub fn read_through<V: View>(
    alloc: Global,
    desk: &mut Desk<V>,
    order: &Order,
    defaults: &Vars,
    said: &mut Text,
) -> Result<Book, ReadNo>
    requires { read_fault root_text order.now.dir ≡ None }
    ensures { Does is_free V.tells desk.old desk.new said.old said.new result
        (reading order.now (resolved_text root_text order.now.dir) defaults.now) }
{
    let round = noting(alloc, desk, order, None, defaults, said)?;
    Ok(round.book)
}

/// Reads the makefile that the order asks for in a state, with 10,000,000 units of fuel: `Spent`
/// comes exactly where they don't suffice. Errors, what is said and cost are those of
/// `read_through`.
pub fn read_makefiles(
    alloc: Global,
    state: &State,
    order: &Order,
    said: &mut Text,
) -> Result<Book, ReadNo>
    requires { read_fault root_text order.now.dir ≡ None }
    ensures { performs.is_free is_free result ≡ false
        → with_state result said.new
        ≡ (reading order.now (resolved_text root_text order.now.dir) [] said.old
        (snapshot state.now) fresh).0 }
{
    let defaults = Vars::new(alloc)?;
    let mut desk = Desk::new(alloc, PlainView::new(state), 0, 0, Fuel::new(FUEL));
    read_through(alloc, &mut desk, order, &defaults, said)
}

/// As `read_makefiles`, but an absent file of `include` is noted instead of refused, and so are
/// those that `-include` and `sinclude` pass over, with the names of the files that are read. So
/// `Include` comes only of the makefile that the order names, and a fault behind an absent
/// `include` comes first. The cost is that of `read_through`, with a copy of each name and place
/// that is noted.
pub fn read_round(
    alloc: Global,
    state: &State,
    order: &Order,
    said: &mut Text,
) -> Result<Round, ReadNo>
    requires { read_fault root_text order.now.dir ≡ None }
    ensures { performs.is_free is_free result ≡ false
        → with_state result said.new
        ≡ (round order.now (resolved_text root_text order.now.dir) [] said.old
        (snapshot state.now) fresh).0 }
{
    let defaults = Vars::new(alloc)?;
    let mut desk = Desk::new(alloc, PlainView::new(state), 0, 0, Fuel::new(FUEL));
    let noted = Some(Noted::new(alloc));
    noting(alloc, &mut desk, order, noted, &defaults, said)
}
