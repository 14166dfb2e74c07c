use em_base::{Construct, NoMemory, Place, Text, TryClone};
use em_path::Path;
use em_states::{add, file, path};
use em_tree::{
    Answer, Delta, Entry, Kind, NameList, Node, Outcome, Outcomes, Question, State, Tree,
};
use std::alloc::{AllocError, Global};
use std::test::Fail;

/// Lays a delta that puts a node at an absent path of a directory that is there, and else does
/// nothing.
fn lay_new(tree: &mut Tree, alloc: Global, p: Path, n: Node) -> Result<(), NoMemory> {
    let Ok(Some(above)) = p.parent(alloc) else {
        return Ok(());
    };
    let _text = p.text();
    match (tree.kind(&above), tree.kind(&p)) {
        (Kind::Dir, Kind::Absent) => {
            let mut d = Delta::new(alloc);
            d.set(p, Some(n))?;
            tree.lay(&d)
        }
        _ => Ok(()),
    }
}

/// Lays a delta that takes a file out, and does nothing where none stands there.
fn take_out(tree: &mut Tree, alloc: Global, p: Path) -> Result<(), NoMemory> {
    let Ok(Some(_)) = p.parent(alloc) else {
        return Ok(());
    };
    match tree.kind(&p) {
        Kind::File => {
            let mut d = Delta::new(alloc);
            d.set(p, None)?;
            tree.lay(&d)
        }
        _ => Ok(()),
    }
}

/// A tree of a directory `/d` with files whose names sort around the slash, and one below a
/// directory.
fn sample(alloc: Global) -> Result<Tree, Fail> {
    let mut tree = Tree::new(alloc, 1)?;
    for (text, stamp) in [(b"/d".as_slice(), 2), (b"/d/a".as_slice(), 3)] {
        add(alloc, &mut tree, text, Node::Dir { stamp })?;
    }
    for text in [
        b"/d/a0".as_slice(),
        b"/d/a.b".as_slice(),
        b"/d/a/b".as_slice(),
    ] {
        let n = file(alloc, b"x", 7)?;
        add(alloc, &mut tree, text, n)?;
    }
    Ok(tree)
}

fn place(alloc: Global) -> Result<Place, NoMemory> {
    let file = Text::from_slice(alloc, b"Makefile")?;
    Ok(Place { file, line: 3 })
}

fn halted(alloc: Global) -> Result<Outcome, NoMemory> {
    let place = place(alloc)?;
    let text = Text::from_slice(alloc, b"stop")?;
    Ok(Outcome::Halted { text, place })
}

fn refused(alloc: Global) -> Result<Outcome, NoMemory> {
    let place = place(alloc)?;
    let construct = Construct::Command(Text::from_slice(alloc, b"ssh")?);
    Ok(Outcome::Refused { construct, place })
}

/// The outcome of this number, counted from 0.
fn outcome(alloc: Global, number: u32) -> Result<Outcome, NoMemory> {
    match number {
        0 => Ok(Outcome::Upto),
        1 => Ok(Outcome::Counted),
        2 => Ok(Outcome::Made),
        3 => Ok(Outcome::Failed(3)),
        4 => Ok(Outcome::NoRule),
        5 => Ok(Outcome::Skipped),
        6 => halted(alloc),
        7 => refused(alloc),
        _ => Ok(Outcome::Spent),
    }
}

/// One outcome of each variant.
fn outcomes(alloc: Global) -> Result<Outcomes, NoMemory> {
    let mut all = Vec::new(alloc);
    for number in 0..9 {
        let outcome = outcome(alloc, number)?;
        all.push(outcome)?;
    }
    Ok(Outcomes::from_vec(all))
}

/// What a question asks of a path.
#[derive(Clone, Copy)]
enum QuestionKind {
    Kind,
    Stamp,
    Content,
    Names,
}

fn question_of(ask: QuestionKind, path: Path) -> Question {
    match ask {
        QuestionKind::Kind => Question::Kind(path),
        QuestionKind::Stamp => Question::Stamp(path),
        QuestionKind::Content => Question::Content(path),
        QuestionKind::Names => Question::Names(path),
    }
}

fn question(alloc: Global, ask: QuestionKind, text: &[u8]) -> Result<Question, Fail> {
    let path = path(alloc, text)?;
    Ok(question_of(ask, path))
}

/// Each question on a path.
fn add_questions(alloc: Global, all: &mut Vec<Question>, text: &[u8]) -> Result<(), Fail> {
    for ask in [
        QuestionKind::Kind,
        QuestionKind::Stamp,
        QuestionKind::Content,
        QuestionKind::Names,
    ] {
        let question = question(alloc, ask, text)?;
        all.push(question)?;
    }
    Ok(())
}

const PATHS: [&[u8]; 4] = [b"/", b"/d", b"/d/a0", b"/x"];

/// Each question on each of a few paths, and on jobs with each outcome and one without.
fn questions(alloc: Global) -> Result<Vec<Question>, Fail> {
    let mut all = Vec::new(alloc);
    for text in &PATHS {
        add_questions(alloc, &mut all, text)?;
    }
    for job in 0..10 {
        all.push(Question::Outcome(job))?;
    }
    Ok(all)
}

fn show_bytes(log: &mut String, bytes: &[u8]) -> Result<(), AllocError> {
    for byte in bytes {
        log.push(char::from(*byte))?;
    }
    Ok(())
}

fn show_names(log: &mut String, names: &NameList) -> Result<(), AllocError> {
    for name in names.names() {
        show_bytes(log, name.bytes())?;
        log.push_str(",")?;
    }
    Ok(())
}

fn show_outcome(log: &mut String, outcome: &Outcome) -> Result<(), AllocError> {
    log.push_str(match outcome {
        Outcome::Upto => "upto",
        Outcome::Counted => "counted",
        Outcome::Made => "made",
        Outcome::Failed(_) => "failed",
        Outcome::NoRule => "norule",
        Outcome::Skipped => "skipped",
        Outcome::Halted { .. } => "halted",
        Outcome::Refused { .. } => "refused",
        Outcome::Spent => "spent",
    })
}

fn show_answer(log: &mut String, answer: &Answer) -> Result<(), AllocError> {
    match answer {
        Answer::Kind(kind) => write!(log, "{kind:?}"),
        Answer::Stamp(Some(stamp)) => write!(log, "{stamp}"),
        Answer::Content(Some(body)) => show_bytes(log, body.bytes()),
        Answer::Names(Some(names)) => show_names(log, names),
        Answer::Outcome(Some(outcome)) => show_outcome(log, outcome),
        _ => log.push_str("-"),
    }
}

const SAID: &str = "Dir 1 - d, Dir 2 - a,a.b,a0, File 7 x - Absent - - - \
upto counted made failed norule skipped halted refused spent - ";

/// Whether the entry equals a copy of it, part by part.
fn copies_are_equal(alloc: Global, entry: &Entry) -> Result<bool, NoMemory> {
    let question = entry.question.try_clone(alloc)?;
    let answer = entry.answer.try_clone(alloc)?;
    let copy = Entry { question, answer };
    Ok(copy == entry.try_clone(alloc)?)
}

fn outcome_copies_are_equal(alloc: Global) -> Result<bool, NoMemory> {
    let all = outcomes(alloc)?;
    Ok(all == all.copy(alloc)?)
}

/// Asks a question, shows the answer, and gives both.
fn entry(alloc: Global, state: &State, q: Question, log: &mut String) -> Result<Entry, NoMemory> {
    let answer = state.answer(alloc, &q)?;
    show_answer(log, &answer)?;
    Ok(Entry {
        question: q,
        answer,
    })
}

/// The same, and shows whether the state does not agree with the entry, or the entry with its copy.
fn ask(alloc: Global, state: &State, q: Question, log: &mut String) -> Result<(), NoMemory> {
    let entry = entry(alloc, state, q, log)?;
    let equal = copies_are_equal(alloc, &entry)?;
    let agree = state.agrees(&entry);
    Ok(log.push_str(if agree && equal { " " } else { " no " })?)
}

/// The answer to each question.
fn answers(alloc: Global, state: &State) -> Result<String, Fail> {
    let mut log = String::new(alloc);
    for q in questions(alloc)? {
        ask(alloc, state, q, &mut log)?;
    }
    Ok(log)
}

fn state(alloc: Global) -> Result<State, Fail> {
    let outcomes = outcomes(alloc)?;
    let tree = sample(alloc)?;
    Ok(State { tree, outcomes })
}

#[test]
fn each_question_is_answered_agreed_with_and_copied(rt: HostRuntime) -> Result<(), Fail> {
    let state = state(rt.alloc())?;
    let log = answers(rt.alloc(), &state)?;
    assert_eq!(rt; log.as_str(), SAID);
    Ok(())
}

#[test]
fn a_state_is_copied(rt: HostRuntime) -> Result<(), Fail> {
    let state = state(rt.alloc())?;
    let copy = state.copy(rt.alloc())?;
    assert!(rt; copy == state);
    assert!(rt; outcome_copies_are_equal(rt.alloc())?);
    Ok(())
}

/// An answer that the sample does not give.
#[derive(Clone, Copy)]
enum Other {
    Dir,
    Stamp(u64),
    NoContent,
    NoNames,
    EmptyNames,
}

fn answer_of(alloc: Global, other: Other) -> Answer {
    match other {
        Other::Dir => Answer::Kind(Kind::Dir),
        Other::Stamp(stamp) => Answer::Stamp(Some(stamp)),
        Other::NoContent => Answer::Content(None),
        Other::NoNames => Answer::Names(None),
        Other::EmptyNames => Answer::Names(Some(NameList::new(alloc))),
    }
}

const OTHERS: [(QuestionKind, &[u8], Other); 6] = [
    (QuestionKind::Kind, b"/d/a0", Other::Dir),
    (QuestionKind::Stamp, b"/d/a0", Other::Stamp(8)),
    (QuestionKind::Content, b"/d/a0", Other::Stamp(7)),
    (QuestionKind::Content, b"/d/a0", Other::NoContent),
    (QuestionKind::Names, b"/d", Other::NoNames),
    (QuestionKind::Names, b"/d", Other::EmptyNames),
];

fn agrees(state: &State, question: Question, answer: Answer) -> bool {
    state.agrees(&Entry { question, answer })
}

#[test]
fn other_answers_are_not_agreed_with(rt: HostRuntime) -> Result<(), Fail> {
    let state = state(rt.alloc())?;
    for (ask, text, other) in &OTHERS {
        let question = question(rt.alloc(), *ask, text)?;
        assert!(rt; !agrees(&state, question, answer_of(rt.alloc(), *other)));
    }
    let made = Answer::Outcome(Some(Outcome::Made));
    assert!(rt; !agrees(&state, Question::Outcome(0), made));
    Ok(())
}

/// The paths of a tree with their stamps.
fn show_tree(log: &mut String, tree: &Tree) -> Result<(), AllocError> {
    for (p, n) in tree.nodes() {
        show_bytes(log, p.text())?;
        let stamp = n.stamp();
        write!(log, "={stamp} ")?;
    }
    Ok(())
}

fn shown(alloc: Global, tree: &Tree) -> Result<String, AllocError> {
    let mut log = String::new(alloc);
    show_tree(&mut log, tree)?;
    Ok(log)
}

/// The sample without a file, and with one more directory.
fn changed(alloc: Global) -> Result<Tree, Fail> {
    let file = path(alloc, b"/d/a.b")?;
    let dir = path(alloc, b"/d/e")?;
    let mut tree = sample(alloc)?;
    take_out(&mut tree, alloc, file)?;
    lay_new(&mut tree, alloc, dir, Node::Dir { stamp: 9 })?;
    Ok(tree)
}

/// Whether the node of this number, from 0 on, stands at this path.
fn is_at(tree: &Tree, number: usize, text: &[u8]) -> bool {
    match tree.at(number) {
        Some((path, _)) => path.text() == text,
        None => false,
    }
}

#[test]
fn a_tree_is_gone_over_in_byte_order(rt: HostRuntime) -> Result<(), Fail> {
    let tree = sample(rt.alloc())?;
    let log = shown(rt.alloc(), &tree)?;
    assert!(rt; log.as_str() == "/=1 /d=2 /d/a=3 /d/a.b=7 /d/a/b=7 /d/a0=7 ");
    assert!(rt; is_at(&tree, 1, b"/d") && is_at(&tree, 5, b"/d/a0"));
    assert!(rt; tree.at(6).is_none());
    Ok(())
}

#[test]
fn a_tree_is_changed(rt: HostRuntime) -> Result<(), Fail> {
    let tree = changed(rt.alloc())?;
    let log = shown(rt.alloc(), &tree)?;
    assert!(rt; log.as_str() == "/=1 /d=2 /d/a=3 /d/a/b=7 /d/a0=7 /d/e=9 ");
    assert!(rt; tree.count() == 6 && tree.base() == 9);
    Ok(())
}

#[test]
fn trees_are_compared(rt: HostRuntime) -> Result<(), Fail> {
    let tree = changed(rt.alloc())?;
    let other = sample(rt.alloc())?;
    assert!(rt; tree != other);
    let copy = tree.copy()?;
    assert!(rt; tree == copy);
    Ok(())
}

#[test]
fn a_node_is_copied(rt: HostRuntime) -> Result<(), Fail> {
    let node = file(rt.alloc(), b"y", 4)?;
    assert!(rt; node.copy()? == node);
    Ok(())
}

/// Names a path.
fn change(alloc: Global, d: &mut Delta, text: &[u8], n: Option<Node>) -> Result<(), Fail> {
    let path = path(alloc, text)?;
    Ok(d.set(path, n)?)
}

/// Changes two paths at once, the second right under the first.
fn change_both(alloc: Global, d: &mut Delta) -> Result<(), Fail> {
    let p = path(alloc, b"/d")?;
    let q = path(alloc, b"/d/a0")?;
    if p != q {
        d.set_both(q, None, p, Some(Node::Dir { stamp: 4 }))?;
    }
    Ok(())
}

/// The same, with each of the two named before or not.
fn both(alloc: Global, first: bool, second: bool) -> Result<Delta, Fail> {
    let mut d = Delta::new(alloc);
    if first {
        change(alloc, &mut d, b"/d", Some(Node::Dir { stamp: 1 }))?;
    }
    if second {
        change(alloc, &mut d, b"/d/a0", Some(Node::Dir { stamp: 1 }))?;
    }
    change_both(alloc, &mut d)?;
    Ok(d)
}

/// Shows what a delta makes of a path.
fn show_change(log: &mut String, n: &Option<Node>) -> Result<(), AllocError> {
    match n {
        Some(n) => {
            let stamp = n.stamp();
            write!(log, "={stamp} ")
        }
        None => log.push_str("=- "),
    }
}

/// Shows the path of this number, from 0 on, and what the delta makes of it.
fn show_named(log: &mut String, d: &Delta, number: usize) -> Result<(), AllocError> {
    let Some((path, n)) = d.at(number) else {
        return log.push_str("none ");
    };
    show_bytes(log, path.text())?;
    show_change(log, n)
}

fn delta_shown(alloc: Global, d: &Delta) -> Result<String, AllocError> {
    let mut log = String::new(alloc);
    for number in 0..3 {
        show_named(&mut log, d, number)?;
    }
    Ok(log)
}

/// Whether the delta makes `/d` a directory of stamp 4.
fn is_dir(alloc: Global, d: &Delta) -> Result<bool, Fail> {
    let p = path(alloc, b"/d")?;
    match d.get(&p) {
        Some(Some(n)) => Ok(n.stamp() == 4),
        _ => Ok(false),
    }
}

fn is_copied(d: &Delta) -> Result<bool, NoMemory> {
    let copy = d.copy()?;
    Ok(copy == *d)
}

#[test]
fn two_paths_are_changed_at_once(rt: HostRuntime) -> Result<(), Fail> {
    for (first, second) in [(false, false), (false, true), (true, false), (true, true)] {
        let d = both(rt.alloc(), first, second)?;
        let log = delta_shown(rt.alloc(), &d)?;
        assert_eq!(rt; log.as_str(), "/d=4 /d/a0=- none ");
        assert!(rt; d.len() == 2 && is_dir(rt.alloc(), &d)?);
        assert!(rt; is_copied(&d)?);
    }
    Ok(())
}

const UNDER: [&[u8]; 5] = [b"/d/a0", b"/d/a/x", b"/d/a", b"/d/a.b", b"/e"];

/// A delta that takes out what stands at a few paths.
fn taken_out(alloc: Global) -> Result<Delta, Fail> {
    let mut d = Delta::new(alloc);
    for text in &UNDER {
        change(alloc, &mut d, text, None)?;
    }
    Ok(d)
}

/// Shows what the delta names right under a path.
fn show_under(log: &mut String, d: &Delta, p: &Path) -> Result<(), AllocError> {
    if let Some(paths) = d.under(p) {
        for path in paths {
            show_bytes(log, path.text())?;
            log.push_str(" ")?;
        }
    }
    log.push_str("; ")
}

#[test]
fn a_delta_lists_what_it_names_right_under_a_path(rt: HostRuntime) -> Result<(), Fail> {
    let d = taken_out(rt.alloc())?;
    let mut log = String::new(rt.alloc());
    for text in [b"/d".as_slice(), b"/".as_slice(), b"/e".as_slice()] {
        let p = path(rt.alloc(), text)?;
        show_under(&mut log, &d, &p)?;
    }
    assert_eq!(rt; log.as_str(), "/d/a /d/a.b /d/a0 ; /e ; ; ");
    Ok(())
}

/// A list of one name.
fn names(alloc: Global) -> Result<NameList, NoMemory> {
    let name = Text::from_slice(alloc, b"a")?;
    let mut list = NameList::new(alloc);
    if em_path::is_component(name.bytes()) {
        list.add(name)?;
    }
    Ok(list)
}

#[test]
fn names_are_kept(rt: HostRuntime) -> Result<(), Fail> {
    let list = names(rt.alloc())?;
    let copy = list.copy(rt.alloc())?;
    assert!(rt; copy == list);
    assert_eq!(rt; copy.names().len(), 1);
    Ok(())
}
