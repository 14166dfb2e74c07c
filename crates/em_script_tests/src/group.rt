//! Jobs with several targets, and jobs of double-colon rules, over small trees whose files all have
//! one stamp. The texts are those of docs/FORMATS.md.
use em_base::{NoMemory, Place, Seq, Text};
use em_job::{Flags, Job, JobSpec, JobWork, SharedPairs, SharedVars};
use em_path::Path;
use em_plan::{Numbers, PlanJob, Pre, SharedJob};
use em_rules::RecipeLine;
use em_run::{Run, Work};
use em_states::state;
use em_tree::{Outcome, State};
use em_vars::Vars;
use em_view::PlainView;
use std::alloc::Global;
use std::test::Fail;

/// A tree, as `em_states` reads it; the targets; those that are phony; the normal prerequisites;
/// whether the rule is a double-colon rule; the recipe. The job is named after its last target, and
/// its prerequisites are remade by job 0.
type Given = (
    &'static str,
    &'static str,
    &'static str,
    &'static str,
    bool,
    &'static str,
);

/// With what the job says, and a letter for how it ends.
type Row = (Given, &'static str, char);

static ROWS: [Row; 12] = [
    // due where one of the targets is absent or phony, not where all are there
    (("f/x f/y", "x y", "", "", false, "@echo $@"), "", 'U'),
    (("f/x", "x y", "", "", false, "@echo $@"), "y\n", 'M'),
    (("f/y", "x y", "", "", false, "@echo $@"), "y\n", 'M'),
    (("f/x f/y", "x y", "x", "", false, "@echo $@"), "y\n", 'M'),
    // a double-colon rule without normal prerequisites is always due
    (("f/x", "x", "", "", true, "@echo $@"), "x\n", 'M'),
    (("f/x f/p", "x", "", "p", true, "@echo $@"), "", 'U'),
    // all prerequisites made it due where one of the targets is absent
    (
        ("f/x f/p", "x y", "", "p p", false, "@echo $? $+"),
        "p p p\n",
        'M',
    ),
    (("f/x", "x", "", "p", false, "@echo $?"), "p\n", 'M'),
    // each target is deleted by itself: not one that is phony, a directory or as it was
    (
        (
            "f/z",
            "x y",
            "",
            "",
            false,
            "@echo a > y; echo b > x; false",
        ),
        "emake: *** [Makefile:2: y] Error 1\n\
         emake: *** Deleting file 'x'\n\
         emake: *** Deleting file 'y'\n",
        'F',
    ),
    (
        ("f/x", "x y", "", "", false, "@echo a > y; false"),
        "emake: *** [Makefile:2: y] Error 1\nemake: *** Deleting file 'y'\n",
        'F',
    ),
    (
        ("f/y", "x y", "", "", false, "@mkdir x; false"),
        "emake: *** [Makefile:2: y] Error 1\n",
        'F',
    ),
    (
        (
            "f/z",
            "x y",
            "y",
            "",
            false,
            "@echo a > y; echo b > x; false",
        ),
        "emake: *** [Makefile:2: y] Error 1\nemake: *** Deleting file 'x'\n",
        'F',
    ),
];

fn letter(outcome: &Outcome) -> char {
    match outcome {
        Outcome::Upto => 'U',
        Outcome::Made => 'M',
        Outcome::Failed(_) => 'F',
        _ => '-',
    }
}

fn words(alloc: Global, text: &str) -> Result<Seq<Text>, NoMemory> {
    let mut words = Seq::new(alloc);
    for word in text.split(' ') {
        if !word.is_empty() {
            words.push(Text::from_slice(alloc, word.as_bytes())?)?;
        }
    }
    Ok(words)
}

fn pres(alloc: Global, text: &str) -> Result<Seq<Pre>, NoMemory> {
    let mut pres = Seq::new(alloc);
    for name in words(alloc, text)?.into_vec() {
        let jobs = Numbers::one(0);
        pres.push(Pre { name, jobs })?;
    }
    Ok(pres)
}

fn recipe_of(alloc: Global, text: &str) -> Result<Seq<RecipeLine>, NoMemory> {
    let file = Text::from_slice(alloc, b"Makefile")?;
    let place = Place { file, line: 2 };
    let text = Text::from_slice(alloc, text.as_bytes())?;
    let mut recipe = Seq::new(alloc);
    recipe.push(RecipeLine { place, text })?;
    Ok(recipe)
}

fn last_of(alloc: Global, names: &[Text]) -> Result<Text, NoMemory> {
    match names.last() {
        Some(name) => name.copy(alloc),
        None => Ok(Text::new(alloc)),
    }
}

fn plan_of(alloc: Global, given: &Given) -> Result<PlanJob, NoMemory> {
    let (_, targets, phony, normal, double, recipe) = given;
    let targets = words(alloc, targets)?;
    Ok(PlanJob {
        target: last_of(alloc, targets.items())?,
        targets,
        double: *double,
        normal: pres(alloc, normal)?,
        order: Seq::new(alloc),
        stem: Text::new(alloc),
        recipe: Some(recipe_of(alloc, recipe)?),
        ruled: true,
        phony: !phony.is_empty(),
        needed_by: None,
        waits: Seq::new(alloc),
    })
}

fn flags() -> Flags {
    Flags {
        keep_going: false,
        dry: false,
        question: false,
        silent: false,
        ignore: false,
        always: false,
    }
}

fn spec_of(alloc: Global, given: &Given) -> Result<JobSpec, NoMemory> {
    let job = Job {
        job: 1,
        base: 1,
        fuel: 90,
        cwd: Path::root(),
        flags: flags(),
        quiet: false,
        lenient: false,
        delete_on_error: true,
        phony: words(alloc, given.2)?,
        plan: SharedJob::new(alloc, plan_of(alloc, given)?)?,
        vars: SharedVars::new(alloc, Vars::new(alloc)?)?,
        assigned: SharedPairs::new(alloc, Seq::new(alloc))?,
    };
    JobSpec::new(alloc, job)
}

fn state_of(alloc: Global, given: &Given) -> Result<State, Fail> {
    let mut state = state(alloc, given.0)?;
    state.outcomes.push(Outcome::Upto)?;
    Ok(state)
}

/// Through the bound.
fn run_of<W: Work<JobSpec>>(alloc: Global, work: &W, given: &Given) -> Result<Run<JobSpec>, Fail> {
    let state = state_of(alloc, given)?;
    let spec = spec_of(alloc, given)?;
    Ok(work.run(alloc, &spec, PlainView::new(&state))?)
}

fn is_row(run: &Run<JobSpec>, row: &Row) -> bool {
    run.output().bytes() == row.1.as_bytes() && letter(run.outcome()) == row.2
}

#[test]
fn jobs_go_over_all_their_targets(rt: HostRuntime) -> Result<(), Fail> {
    let alloc = rt.alloc();
    for row in &ROWS {
        let run = run_of(alloc, &JobWork::new(), &row.0)?;
        let is_said = is_row(&run, row);
        let line = row.0.5;
        assert!(rt; is_said, "{line}");
    }
    Ok(())
}
