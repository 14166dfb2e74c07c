ghost use Rattle.std.specs.Prelude.{IfOk};
ghost use Rattle.em_learning.specs.Waits.{ArePlanned};

use em_base::{NoMemory, Place, Seq, Text};
use em_engine::{Cause, Note};
use em_history::History;
use em_learning::laws::law_planned;
use em_learning::{learnt, report_of, waits_with};
use em_path::Path;
use em_plan::{Plan, plan};
use em_report::CauseWord;
use em_rules::{Book, Rule, RuleKind};
use em_tree::{Answer, Question, Tree};
use std::alloc::Global;
use std::test::Fail;

/// Texts of these bytes.
fn texts(alloc: Global, names: &[&[u8]]) -> Result<Seq<Text>, NoMemory> {
    let mut all = Seq::new(alloc);
    for name in names {
        all.push(Text::from_slice(alloc, name)?)?;
    }
    Ok(all)
}

/// The rule `target: needed`.
fn rule(alloc: Global, target: &[u8], needed: &[u8]) -> Result<Rule, NoMemory> {
    Ok(Rule {
        targets: texts(alloc, &[target])?,
        kind: RuleKind::Ordinary,
        pattern: false,
        form: None,
        normal: texts(alloc, &[needed])?,
        order: Seq::new(alloc),
        recipe: None,
        place: Place {
            file: Text::new(alloc),
            line: 1,
        },
    })
}

/// A plan of five jobs, of which the second waits for the first, and the fourth for the third.
fn five(alloc: Global) -> Result<Plan, Fail>
    ensures { IfOk result (λ p. ArePlanned p.jobs) }
{
    let mut book = Book::new(alloc)?;
    book.add(rule(alloc, b"b", b"a")?)?;
    book.add(rule(alloc, b"d", b"c")?)?;
    let goals = texts(alloc, &[b"a", b"b", b"c", b"d", b"e f"])?;
    let tree = Tree::new(alloc, 5)?;
    law_planned();
    Ok(plan(alloc, &book, goals.items(), &tree, &Path::root())?)
}

/// What a job made and what it needed.
type Shown<'a> = (&'a [u8], &'a [u8]);

fn history(alloc: Global, shown: &[Shown<'_>]) -> Result<History, NoMemory> {
    let mut pairs = Vec::new(alloc);
    for (made, needed) in shown {
        pairs.push((
            Text::from_slice(alloc, made)?,
            Text::from_slice(alloc, needed)?,
        ))?;
    }
    History::of(pairs)
}

#[test]
fn a_history_adds_waits(rt: HostRuntime) -> Result<(), Fail> {
    let alloc = rt.alloc();
    let plan = five(alloc)?;
    let shown: [Shown<'_>; 6] = [
        (b"b", b"a"),
        (b"d", b"a"),
        (b"d", b"c"),
        (b"a", b"d"),
        (b"x", b"a"),
        (b"c", b"x"),
    ];
    let by_plan: [&[u32]; 5] = [&[], &[0], &[], &[2], &[]];
    let with_more: [&[u32]; 5] = [&[], &[0], &[], &[0, 2], &[]];
    for (shown, wanted) in [(&shown[..0], by_plan), (&shown[..], with_more)] {
        let history = history(alloc, shown)?;
        let waits = waits_with(alloc, &history, plan.jobs.items())?;
        assert_eq!(rt; waits.len(), 5);
        for (waits, wanted) in waits.items().iter().zip(wanted.iter()) {
            assert_eq!(rt; waits.items(), *wanted);
        }
    }
    Ok(())
}

/// The note of a job that had one run, or two for this cause.
fn note(job: u32, cause: Option<Cause>) -> Note {
    Note {
        job,
        runs: if cause.is_some() { 2 } else { 1 },
        cause,
    }
}

fn differ(after: Option<u32>) -> Option<Cause> {
    Some(Cause::Differ {
        place: 0,
        question: Question::Outcome(0),
        recorded: Answer::Outcome(None),
        now: Answer::Outcome(None),
        after,
    })
}

fn strange() -> Option<Cause> {
    Some(Cause::Strange {
        place: 0,
        board: None,
        run: None,
    })
}

/// Runs, cause, fuel, target and waits.
type Told<'a> = (u8, CauseWord, u64, &'a [u8], &'a [u32]);

#[test]
fn notes_teach_pairs_and_are_told(rt: HostRuntime) -> Result<(), Fail> {
    let alloc = rt.alloc();
    let plan = five(alloc)?;
    let jobs = plan.jobs.items();
    let notes = [
        note(0, None),
        note(1, differ(None)),
        note(2, strange()),
        note(3, differ(Some(0))),
        note(4, differ(Some(0))),
    ];
    let known = learnt(alloc, jobs, &notes)?;
    assert_eq!(rt; known.pairs().len(), 1);
    for (made, needed) in known.pairs() {
        assert_eq!(rt; made.bytes(), b"d".as_slice());
        assert_eq!(rt; needed.bytes(), b"a".as_slice());
    }
    let waits = waits_with(alloc, &known, jobs)?;
    let report = report_of(alloc, jobs, waits.items(), &notes, &[5, 6, 7, 8, 9], 2)?;
    let wanted: [Told<'_>; 5] = [
        (1, CauseWord::Clean, 5, b"a", &[]),
        (2, CauseWord::Differ, 6, b"b", &[0]),
        (2, CauseWord::Strange, 7, b"c", &[]),
        (2, CauseWord::Differ, 8, b"d", &[0, 2]),
        (2, CauseWord::Differ, 9, b"e f", &[]),
    ];
    assert_eq!(rt; (report.status, report.lines.len()), (2, 5));
    for (line, (runs, cause, fuel, target, waits)) in report.lines.items().iter().zip(wanted) {
        assert_eq!(rt; (line.runs, line.cause, line.fuel), (runs, cause, fuel));
        assert_eq!(rt; line.target.bytes(), target);
        assert_eq!(rt; line.waits.items(), waits);
    }
    Ok(())
}
