//! Desks over small trees. A state is a text of words like `f4/d/x`: d a directory, f a file of 2
//! bytes and g one of 300, then the stamp and the path; `l5/l>d/x` is a link and what it says, L
//! one that says 64 components and X one that says 1,023 bytes. The root is always there, with
//! stamp 1, and job 0 has ended. A call is a word of a letter and a path: k kind, s stamp, c
//! content, n names, i link, o outcome of job 0, O of job 1, m make_dir, r remove, t touch, p put
//! of 1 byte, P put of 300, l place of 1 byte with stamp 7; `y/l>d/x` is make_link; or a digit and
//! a path, for spend. What is expected stands in one text: results | usage | units left + units
//! used | changes. A file is shown as its bytes and its stamp, as `1b101`, a directory as `d101`, a
//! link as `l101>d/x`, or by how many bytes it says where these are more than 20. A job's first
//! change has number 101.
ghost use Rattle.std.specs.Prelude.{◌≡◌, IsTrue, Some};
ghost use Rattle.std.specs.FinMap as map;
ghost use Rattle.em_path.specs.Paths.{IsPath, parent_text};
ghost use Rattle.em_tree.specs.declared.node.Kind.TheVariants as kind;
ghost use Rattle.em_tree.specs.LinkTexts.{IsLinkText};
ghost use Rattle.em_tree.specs.Trees.{IsTree, kind_of};

use super::common::{file, path, show_bytes};
use em_base::{Fuel, NoMemory, Text};
use em_path::Path;
use em_tree::{
    Answer, Delta, Entry, Kind, LinkText, NameList, Node, Outcome, Outcomes, Question, State, Tree,
};
use em_view::{Desk, DeskNo, FileNo, PlainView, ScriptView, View, blocks};
use std::alloc::{AllocError, Global};
use std::test::Fail;

mod calls;
mod links;
mod rows;
mod scripts;
mod shapes;
mod usage;
mod walks;

/// The calls, the units that there are for them, and what is expected.
type Row = (&'static str, u16, &'static str);

/// Puts a node where there is none.
fn put(tree: &mut Tree, above: &Path, path: Path, node: Node) -> Result<(), NoMemory>
    requires tree { IsTree tree.old }
    requires path { IsPath path }
    requires parent { parent_text path ≡ Some above.now }
    requires dir { kind_of (map.get tree.old above.now) ≡ kind.Dir }
    requires absent { kind_of (map.get tree.old path) ≡ kind.Absent }
{
    em_tree::laws::law_put();
    tree.set(path, node)
}

/// Puts a node at an absent path of this directory, if it is one, and else does nothing.
fn add_below(tree: &mut Tree, above: &Path, path: Path, node: Node) -> Result<(), NoMemory>
    requires { parent_text path ≡ Some above.now }
{
    let _ = path.text();
    if tree.kind(above) == Kind::Dir && tree.kind(&path) == Kind::Absent {
        return put(tree, above, path, node);
    }
    Ok(())
}

/// The same by the path alone.
fn add(alloc: Global, tree: &mut Tree, path: Path, node: Node) -> Result<(), NoMemory> {
    match path.parent(alloc) {
        Ok(Some(above)) => add_below(tree, &above, path, node),
        Ok(None) => Ok(()),
        Err(_) => Err(NoMemory),
    }
}

/// Whether a link may say this.
fn is_link_text(text: &[u8]) -> bool
    ensures { IsTrue result → IsLinkText text.now }
{
    !text.is_empty() && text.len() <= 1024 && text.iter().all(|b| *b != 0 && *b != b'\n')
}

/// A link that says this; a directory where no link may say it, which no row expects.
fn link(alloc: Global, text: &[u8], stamp: u64) -> Result<Node, NoMemory> {
    if !is_link_text(text) {
        return Ok(Node::Dir { stamp });
    }
    let text = LinkText::new(Text::from_slice(alloc, text)?);
    Ok(Node::Link { text, stamp })
}

/// A link that says so many components.
fn deep_link(alloc: Global, components: usize, stamp: u64) -> Result<Node, NoMemory> {
    let mut text = Text::from_slice(alloc, b"a")?;
    for _ in 1..components {
        text.add(b"/a")?;
    }
    link(alloc, text.bytes(), stamp)
}

/// A link that says one component of so many bytes.
fn long_link(alloc: Global, size: usize, stamp: u64) -> Result<Node, NoMemory> {
    link(alloc, bytes(alloc, size)?.bytes(), stamp)
}

fn node(alloc: Global, letter: u8, stamp: u64, text: &[u8]) -> Result<Node, NoMemory> {
    match letter {
        b'd' => Ok(Node::Dir { stamp }),
        b'g' => file(alloc, &[b'x'; 300], stamp),
        b'l' => link(alloc, text, stamp),
        b'L' => deep_link(alloc, 64, stamp),
        b'X' => long_link(alloc, 1023, stamp),
        _ => file(alloc, b"ab", stamp),
    }
}

/// A word, and what a link says in it.
fn parts(word: &str) -> (&[u8], &[u8]) {
    match word.split_once('>') {
        Some((front, text)) => (front.as_bytes(), text.as_bytes()),
        None => (word.as_bytes(), b""),
    }
}

/// Adds what a word names.
fn add_word(alloc: Global, tree: &mut Tree, word: &str) -> Result<(), NoMemory> {
    let (front, text) = parts(word);
    if let [letter, digit @ b'0'..=b'9', place @ ..] = front {
        let path = path(alloc, place)?;
        let node = node(alloc, *letter, u64::from(*digit - b'0'), text)?;
        return add(alloc, tree, path, node);
    }
    Ok(())
}

fn tree(alloc: Global, text: &str) -> Result<Tree, NoMemory> {
    let mut tree = Tree::new(alloc, 1)?;
    for word in text.split(' ') {
        add_word(alloc, &mut tree, word)?;
    }
    Ok(tree)
}

fn outcomes(alloc: Global) -> Result<Outcomes, NoMemory> {
    let mut outcomes = Outcomes::new(alloc);
    outcomes.push(Outcome::Made)?;
    Ok(outcomes)
}

fn state(alloc: Global, text: &str) -> Result<State, NoMemory> {
    let tree = tree(alloc, text)?;
    let outcomes = outcomes(alloc)?;
    Ok(State { tree, outcomes })
}

fn keep(states: &mut Vec<State>, state: State) -> Result<(), NoMemory> {
    states.push(state)?;
    Ok(())
}

/// The states that the text names, with `;` between them.
fn states(alloc: Global, text: &str) -> Result<Vec<State>, NoMemory> {
    let mut states = Vec::new(alloc);
    for one in text.split(';') {
        keep(&mut states, state(alloc, one)?)?;
    }
    Ok(states)
}

fn read<V: View>(desk: &mut Desk<V>, letter: u8, path: &Path) -> Result<Answer, DeskNo> {
    Ok(match letter {
        b'k' => Answer::Kind(desk.kind(path)?),
        b's' => Answer::Stamp(desk.stamp(path)?),
        b'c' => Answer::Content(desk.content(path)?),
        b'n' => Answer::Names(desk.names(path)?),
        b'i' => Answer::Link(desk.link(path)?),
        b'O' => Answer::Outcome(desk.outcome(1)?),
        _ => Answer::Outcome(desk.outcome(0)?),
    })
}

fn spend<V: View>(desk: &mut Desk<V>, units: u64) -> Result<(), DeskNo> {
    Ok(desk.spend(units)?)
}

/// Puts a file of these bytes, or places it.
fn write_file<V: View>(
    desk: &mut Desk<V>,
    letter: u8,
    path: &Path,
    bytes: &[u8],
) -> Result<(), DeskNo> {
    match letter {
        b'l' => desk.place(path, bytes, 7),
        _ => desk.put(path, bytes),
    }
}

/// Makes a link; a text that no link may say is refused, which no row expects.
fn make_link<V: View>(desk: &mut Desk<V>, path: &Path, text: &[u8]) -> Result<(), DeskNo> {
    if is_link_text(text) {
        desk.make_link(path, text)
    } else {
        Err(DeskNo::Spent)
    }
}

fn change<V: View>(desk: &mut Desk<V>, letter: u8, path: &Path, text: &[u8]) -> Result<(), DeskNo> {
    match letter {
        b'm' => desk.make_dir(path),
        b'y' => make_link(desk, path, text),
        b'r' => desk.remove(path),
        b't' => desk.touch(path),
        b'P' => write_file(desk, letter, path, &[b'x'; 300]),
        b'0'..=b'9' => spend(desk, u64::from(letter - b'0')),
        _ => write_file(desk, letter, path, b"x"),
    }
}

fn show_name_list(log: &mut String, names: &[Text]) -> Result<(), AllocError> {
    for name in names {
        show_bytes(log, name.bytes())?;
        log.push_str(".")?;
    }
    Ok(())
}

fn show_names(log: &mut String, names: &NameList) -> Result<(), AllocError> {
    log.push_str("[")?;
    show_name_list(log, names.names())?;
    log.push_str("]")
}

fn show_text(log: &mut String, text: &LinkText) -> Result<(), AllocError> {
    let text = text.bytes();
    if text.len() <= 20 {
        return show_bytes(log, text);
    }
    let size = text.len();
    write!(log, "{size}b")
}

fn show_answer(log: &mut String, answer: &Answer) -> Result<(), AllocError> {
    match answer {
        Answer::Kind(kind) => write!(log, "{kind:?}"),
        Answer::Stamp(Some(stamp)) => write!(log, "{stamp}"),
        Answer::Content(Some(body)) => {
            let size = body.bytes().len();
            write!(log, "{size}b")
        }
        Answer::Names(Some(names)) => show_names(log, names),
        Answer::Link(Some(text)) => show_text(log, text),
        Answer::Outcome(Some(outcome)) => write!(log, "{outcome:?}"),
        _ => log.push_str("-"),
    }
}

fn show_no(log: &mut String, no: DeskNo) -> Result<(), AllocError> {
    match no {
        DeskNo::File(no) => write!(log, "!{no:?}"),
        no => write!(log, "!{no:?}"),
    }
}

fn show_question(log: &mut String, question: &Question) -> Result<(), AllocError> {
    let (letter, path) = match question {
        Question::Kind(path) => ('K', path),
        Question::Stamp(path) => ('S', path),
        Question::Content(path) => ('C', path),
        Question::Names(path) => ('N', path),
        Question::Link(path) => ('L', path),
        Question::Outcome(job) => return write!(log, "O{job}"),
    };
    log.push(letter)?;
    show_bytes(log, path.text())
}

fn show_node(log: &mut String, node: &Option<Node>) -> Result<(), AllocError> {
    match node {
        None => log.push_str("-"),
        Some(Node::Dir { stamp }) => write!(log, "d{stamp}"),
        Some(Node::File { body, stamp }) => {
            let size = body.bytes().len();
            write!(log, "{size}b{stamp}")
        }
        Some(Node::Link { text, stamp }) => {
            write!(log, "l{stamp}>")?;
            show_text(log, text)
        }
    }
}

fn show_usage(log: &mut String, usage: &[Entry]) -> Result<(), AllocError> {
    for entry in usage {
        show_question(log, &entry.question)?;
        log.push_str("=")?;
        show_answer(log, &entry.answer)?;
        log.push_str(" ")?;
    }
    Ok(())
}

fn show_changes(log: &mut String, changes: &Delta) -> Result<(), AllocError> {
    for (path, node) in changes.changes() {
        log.push_str(" ")?;
        show_bytes(log, path.text())?;
        log.push_str("=")?;
        show_node(log, node)?;
    }
    Ok(())
}

fn show_done(log: &mut String, done: Result<(), DeskNo>) -> Result<(), AllocError> {
    match done {
        Ok(()) => log.push_str("ok"),
        Err(no) => show_no(log, no),
    }
}

fn show_read(log: &mut String, read: Result<Answer, DeskNo>) -> Result<(), AllocError> {
    match read {
        Ok(answer) => show_answer(log, &answer),
        Err(no) => show_no(log, no),
    }
}

/// Does one call, and shows its result.
fn step<V: View>(
    desk: &mut Desk<V>,
    letter: u8,
    path: &Path,
    text: &[u8],
    log: &mut String,
) -> Result<(), AllocError> {
    match letter {
        b'k' | b's' | b'c' | b'n' | b'i' | b'o' | b'O' => show_read(log, read(desk, letter, path)),
        _ => show_done(log, change(desk, letter, path, text)),
    }
}

/// Does the call that a word names.
fn step_word<V: View>(
    alloc: Global,
    desk: &mut Desk<V>,
    word: &str,
    log: &mut String,
) -> Result<(), NoMemory> {
    let (front, text) = parts(word);
    if let [letter, place @ ..] = front {
        let path = path(alloc, place)?;
        step(desk, *letter, &path, text, log)?;
    }
    Ok(())
}

fn steps<V: View>(
    alloc: Global,
    desk: &mut Desk<V>,
    script: &str,
    log: &mut String,
) -> Result<(), NoMemory> {
    for word in script.split(' ') {
        step_word(alloc, desk, word, log)?;
        log.push_str(" ")?;
    }
    Ok(())
}

/// What is left of a desk.
fn show_end(
    log: &mut String,
    usage: &[Entry],
    changes: &Delta,
    left: u64,
    used: u64,
) -> Result<(), AllocError> {
    log.push_str("| ")?;
    show_usage(log, usage)?;
    write!(log, "| {left}+{used} |")?;
    show_changes(log, changes)
}

fn finish<V: View>(alloc: Global, desk: Desk<V>, log: &mut String) -> Result<(), NoMemory> {
    let left = desk.left();
    let (usage, changes, used) = desk.close();
    let entries = usage.entries(alloc)?;
    Ok(show_end(log, entries.as_slice(), &changes, left, used)?)
}

/// What the calls of a job give, in the order of the script, and what is left of its desk.
fn run<V: View>(
    alloc: Global,
    view: V,
    job: u32,
    fuel: u16,
    script: &str,
    log: &mut String,
) -> Result<(), NoMemory> {
    let mut desk = Desk::new(alloc, view, 100, job, Fuel::new(u64::from(fuel)));
    steps(alloc, &mut desk, script, log)?;
    finish(alloc, desk, log)
}

/// The calls over the states, one for each question and the last one for all that come then.
fn play(
    alloc: Global,
    text: &str,
    fuel: u16,
    script: &str,
    log: &mut String,
) -> Result<(), NoMemory> {
    let states = states(alloc, text)?;
    if states.is_empty() {
        return Ok(());
    }
    run(alloc, ScriptView::new(states), 0, fuel, script, log)
}

fn log_of(alloc: Global, text: &str, fuel: u16, script: &str) -> Result<String, NoMemory> {
    let mut log = String::new(alloc);
    play(alloc, text, fuel, script, &mut log)?;
    Ok(log)
}

/// Adds the calls to those that are wrong, unless they give what is expected.
fn check(
    alloc: Global,
    text: &str,
    fuel: u16,
    script: &str,
    want: &str,
    wrong: &mut String,
) -> Result<(), NoMemory> {
    let log = log_of(alloc, text, fuel, script)?;
    if log.as_str() != want {
        write!(wrong, "{script}: {log}\n")?;
    }
    Ok(())
}

fn check_rows(alloc: Global, text: &str, rows: &[Row], wrong: &mut String) -> Result<(), NoMemory> {
    for (script, fuel, want) in rows {
        check(alloc, text, *fuel, script, want, wrong)?;
    }
    Ok(())
}

/// The ten tables over the state of two directories and two files.
fn table(i: u8) -> &'static [Row] {
    match i {
        0 => &calls::KINDS_AND_STAMPS,
        1 => &calls::CONTENTS_AND_NAMES,
        2 => &calls::PUTS,
        3 => &calls::PLACES,
        4 => &calls::DIRECTORIES,
        5 => &calls::REMOVALS,
        6 => &calls::TOUCHES,
        7 => &scripts::SPENT,
        8 => &scripts::FILES,
        _ => &scripts::DIRECTORIES,
    }
}

fn check_tables(alloc: Global, wrong: &mut String) -> Result<(), NoMemory> {
    for i in 0..10 {
        check_rows(alloc, calls::STATE, table(i), wrong)?;
    }
    Ok(())
}

fn check_contradictions(alloc: Global, wrong: &mut String) -> Result<(), NoMemory> {
    for (text, script, want) in &rows::CONTRADICTIONS {
        check(alloc, text, 20, script, want, wrong)?;
    }
    Ok(())
}

#[test]
fn calls_over_the_root_alone(rt: HostRuntime) -> Result<(), Fail> {
    let mut wrong = String::new(rt.alloc());
    check_rows(rt.alloc(), "", &rows::ROOT_ALONE, &mut wrong)?;
    assert_eq!(rt; wrong.as_str(), "");
    Ok(())
}

#[test]
fn each_call_is_as_its_row_says(rt: HostRuntime) -> Result<(), Fail> {
    let mut wrong = String::new(rt.alloc());
    check_tables(rt.alloc(), &mut wrong)?;
    assert_eq!(rt; wrong.as_str(), "");
    Ok(())
}

#[test]
fn answers_that_do_not_fit_together_are_taken_as_they_come(rt: HostRuntime) -> Result<(), Fail> {
    let mut wrong = String::new(rt.alloc());
    check_contradictions(rt.alloc(), &mut wrong)?;
    assert_eq!(rt; wrong.as_str(), "");
    Ok(())
}

/// So many bytes.
fn bytes(alloc: Global, size: usize) -> Result<Text, NoMemory> {
    Ok(Text::from_vec(vec![in alloc; b'x'; size]?))
}

/// Files that are put or placed one after another, with the units for the greatest.
static SIZES: [(u8, usize); 3] = [(b'p', 16_777_217), (b'l', 16_777_217), (b'p', 16_777_216)];

fn write_much<V: View>(
    alloc: Global,
    desk: &mut Desk<V>,
    letter: u8,
    size: usize,
    log: &mut String,
) -> Result<(), NoMemory> {
    let text = bytes(alloc, size)?;
    let path = path(alloc, b"/a")?;
    Ok(show_done(log, write_file(desk, letter, &path, text.bytes()))?)
}

/// What each file gives, and the units that are left then.
fn write_sizes<V: View>(
    alloc: Global,
    desk: &mut Desk<V>,
    log: &mut String,
) -> Result<(), NoMemory> {
    for (letter, size) in &SIZES {
        write_much(alloc, desk, *letter, *size, log)?;
        let left = desk.left();
        write!(log, " {left} ")?;
    }
    Ok(())
}

fn try_sizes(alloc: Global, log: &mut String) -> Result<(), NoMemory> {
    let state = state(alloc, "")?;
    let view = PlainView::new(&state);
    let mut desk = Desk::new(alloc, view, 100, 0, Fuel::new(65_537));
    write_sizes(alloc, &mut desk, log)
}

#[test]
fn a_file_of_16_mib_is_the_greatest(rt: HostRuntime) -> Result<(), Fail> {
    let mut log = String::new(rt.alloc());
    try_sizes(rt.alloc(), &mut log)?;
    assert_eq!(rt; log.as_str(), "!TooBig 65537 !TooBig 65537 ok 0 ");
    Ok(())
}

/// A change of job 2, which has 5 units.
fn try_number(alloc: Global, log: &mut String) -> Result<(), NoMemory> {
    let state = state(alloc, "")?;
    let view = PlainView::new(&state);
    run(alloc, view, 2, 5, "t/ s/ O/ 3/ 1/", log)
}

#[test]
fn a_change_has_a_number_of_its_job(rt: HostRuntime) -> Result<(), Fail> {
    let mut log = String::new(rt.alloc());
    try_number(rt.alloc(), &mut log)?;
    assert_eq!(rt;
        log.as_str(),
        "ok 2097253 - !Spent ok | K/=Dir O1=- | 1+4 | /=d2097253"
    );
    Ok(())
}

static BLOCKS: [(u64, u64); 5] = [
    (0, 0),
    (1, 1),
    (256, 1),
    (257, 2),
    (u64::MAX, 72_057_594_037_927_936),
];

#[test]
fn blocks_have_256_bytes(rt: HostRuntime) {
    for (bytes, want) in &BLOCKS {
        assert_eq!(rt; blocks(*bytes), *want);
    }
}

static REFUSALS: [FileNo; 10] = [
    FileNo::Absent,
    FileNo::NoParent,
    FileNo::NotDir,
    FileNo::IsDir,
    FileNo::Exists,
    FileNo::NotEmpty,
    FileNo::TooBig,
    FileNo::Root,
    FileNo::TooManyLinks,
    FileNo::LinkPath,
];

static IN_WORDS: &str = "absent; no parent; not a directory; is a directory; exists; not empty; \
    too big; root; too many links; bad path; ";

fn show_refusals(log: &mut String) -> Result<(), AllocError> {
    for no in &REFUSALS {
        let no = DeskNo::File(*no);
        write!(log, "{no}; ")?;
    }
    Ok(())
}

#[test]
fn refusals_are_told_in_words(rt: HostRuntime) -> Result<(), Fail> {
    let mut log = String::new(rt.alloc());
    show_refusals(&mut log)?;
    assert_eq!(rt; log.as_str(), IN_WORDS);
    Ok(())
}
