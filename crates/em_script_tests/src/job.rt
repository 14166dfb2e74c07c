//! Jobs with one line of recipe, over a tree with the root alone. The texts are those of
//! docs/FORMATS.md.
use em_base::{NoMemory, Place, Seq, Text};
use em_job::{Flags, Job, JobSpec, JobWork, SharedPairs, SharedVars};
use em_path::Path;
use em_plan::{PlanJob, SharedJob};
use em_rules::RecipeLine;
use em_run::{Run, Work};
use em_tree::{Outcome, Outcomes, State, Tree};
use em_vars::Vars;
use em_view::PlainView;
use std::alloc::Global;
use std::test::Fail;

/// A recipe's line, whether lines are only shown, the units of fuel; what is said, and a letter for
/// how the job ends.
type Row = (&'static str, bool, u16, &'static str, char);

static ROWS: [Row; 16] = [
    ("@echo hi", false, 90, "hi\n", 'M'),
    ("echo $@ $(@D) $*", false, 90, "echo all . \nall .\n", 'M'),
    ("", false, 90, "", 'M'),
    (
        "-false",
        false,
        90,
        "false\nemake: [Makefile:2: all] Error 1 (ignored)\n",
        'M',
    ),
    (
        "false",
        false,
        90,
        "false\nemake: *** [Makefile:2: all] Error 1\n",
        'F',
    ),
    (
        "@nothere",
        false,
        90,
        "emake: sh: nothere: not found\nemake: *** [Makefile:2: all] Error 127\n",
        'F',
    ),
    (
        "@if",
        false,
        90,
        "emake: sh: syntax error\nemake: *** [Makefile:2: all] Error 2\n",
        'F',
    ),
    (
        "@echo a & echo b",
        false,
        90,
        "emake: *** [Makefile:2: all] Refused: &.  Stop.\n",
        'R',
    ),
    (
        "@while :; do :; done",
        false,
        90,
        "emake: *** [Makefile:2: all] Fuel spent.  Stop.\n",
        'S',
    ),
    (
        "echo $(error e)",
        false,
        90,
        "Makefile:2: *** e.  Stop.\n",
        'H',
    ),
    (
        "echo $(word 0,a)",
        false,
        90,
        "Makefile:2: *** bad argument of 'word'.  Stop.\n",
        'H',
    ),
    (
        "$(eval X = 1)",
        false,
        90,
        "emake: *** [Makefile:2: all] Refused: eval.  Stop.\n",
        'R',
    ),
    (
        "$(shell ls)",
        false,
        90,
        "emake: *** [Makefile:2: all] Refused: shell.  Stop.\n",
        'R',
    ),
    ("$(info i)@false", true, 90, "i\nfalse\n", 'M'),
    ("+@echo hi", true, 90, "echo hi\nhi\n", 'M'),
    (
        "@echo hi",
        false,
        0,
        "emake: *** [all] Fuel spent.  Stop.\n",
        'S',
    ),
];

fn letter(outcome: &Outcome) -> char {
    match outcome {
        Outcome::Made => 'M',
        Outcome::Failed(_) => 'F',
        Outcome::Refused { .. } => 'R',
        Outcome::Spent => 'S',
        Outcome::Halted { .. } => 'H',
        _ => '-',
    }
}

fn line_of(alloc: Global, text: &str) -> Result<RecipeLine, NoMemory> {
    let file = Text::from_slice(alloc, b"Makefile")?;
    let text = Text::from_slice(alloc, text.as_bytes())?;
    let place = Place { file, line: 2 };
    Ok(RecipeLine { place, text })
}

fn recipe_of(alloc: Global, text: &str) -> Result<Seq<RecipeLine>, NoMemory> {
    let mut recipe = Seq::new(alloc);
    recipe.push(line_of(alloc, text)?)?;
    Ok(recipe)
}

fn plan_of(alloc: Global, text: &str) -> Result<PlanJob, NoMemory> {
    let target = Text::from_slice(alloc, b"all")?;
    let mut targets = Seq::new(alloc);
    targets.push(target.copy(alloc)?)?;
    let recipe = recipe_of(alloc, text)?;
    Ok(PlanJob {
        target,
        targets,
        double: false,
        normal: Seq::new(alloc),
        order: Seq::new(alloc),
        stem: Text::new(alloc),
        recipe: Some(recipe),
        ruled: true,
        phony: false,
        needed_by: None,
        waits: Seq::new(alloc),
    })
}

fn flags(dry: bool) -> Flags {
    Flags {
        keep_going: false,
        dry,
        question: false,
        silent: false,
        ignore: false,
        always: false,
    }
}

fn spec_of(alloc: Global, row: &Row) -> Result<JobSpec, NoMemory> {
    let vars = SharedVars::new(alloc, Vars::new(alloc)?)?;
    let plan = plan_of(alloc, row.0)?;
    let job = Job {
        job: 0,
        base: 5,
        fuel: u64::from(row.2),
        cwd: Path::root(),
        flags: flags(row.1),
        quiet: false,
        lenient: false,
        delete_on_error: false,
        phony: Seq::new(alloc),
        plan: SharedJob::new(alloc, plan)?,
        vars,
        assigned: SharedPairs::new(alloc, Seq::new(alloc))?,
    };
    JobSpec::new(alloc, job)
}

fn state(alloc: Global) -> Result<State, NoMemory> {
    let tree = Tree::new(alloc, 5)?;
    let outcomes = Outcomes::new(alloc);
    Ok(State { tree, outcomes })
}

/// Through the bound.
fn run_of<W: Work<JobSpec>>(alloc: Global, work: &W, row: &Row) -> Result<Run<JobSpec>, NoMemory> {
    let state = state(alloc)?;
    let spec = spec_of(alloc, row)?;
    work.run(alloc, &spec, PlainView::new(&state))
}

fn is_row(run: &Run<JobSpec>, row: &Row) -> bool {
    run.output().bytes() == row.3.as_bytes() && letter(run.outcome()) == row.4
}

#[test]
fn jobs_say_what_their_lines_come_to(rt: HostRuntime) -> Result<(), Fail> {
    let alloc = rt.alloc();
    for row in &ROWS {
        let run = run_of(alloc, &JobWork::new(), row)?;
        let is_said = is_row(&run, row);
        let line = row.0;
        assert!(rt; is_said, "{line}");
    }
    Ok(())
}
