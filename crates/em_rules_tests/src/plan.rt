use crate::written::{add_name, names, recipe, rule as bare_rule};
use em_base::{NoMemory, Text};
use em_path::Path;
use em_plan::{Numbers, Plan, PlanJob, PlanNo, Pre, SharedJob, plan};
use em_rules::{Book, BookNo, Rule, RuleKind};
use em_tree::Tree;
use em_wordlist::join_texts;
use std::alloc::Global;
use std::process::Abort;
use std::test::Fail;

/// The lists of a rule that is written as `targets|normal|order-only`, and whether there is a
/// further `|`.
fn fields(written: &[u8]) -> ([&[u8]; 3], bool) {
    let mut fields = written.split(|b| *b == b'|');
    let targets = fields.next().unwrap_or(b"");
    let normal = fields.next().unwrap_or(b"");
    let order = fields.next().unwrap_or(b"");
    ([targets, normal, order], fields.next().is_some())
}

/// The kind of a rule, and the rule without its first byte, which is `&` in a grouped rule and `:`
/// in a double-colon rule.
fn kind(written: &[u8]) -> (RuleKind, &[u8]) {
    match written {
        [b'&', rest @ ..] => (RuleKind::Grouped, rest),
        [b':', rest @ ..] => (RuleKind::Double, rest),
        _ => (RuleKind::Ordinary, written),
    }
}

/// A written rule; with the further `|` it has a recipe: one line, the normal prerequisites' text.
fn rule(alloc: Global, written: &[u8]) -> Result<Rule, NoMemory> {
    let (kind, written) = kind(written);
    let (lists, has_recipe) = fields(written);
    let mut rule = bare_rule(alloc, lists)?;
    rule.kind = kind;
    if has_recipe {
        rule.recipe = Some(recipe(alloc, lists[1])?);
    }
    Ok(rule)
}

fn add(alloc: Global, book: &mut Book, written: &[u8]) -> Result<(), BookNo> {
    let rule = rule(alloc, written)?;
    book.add(rule)
}

/// A makefile's rules, separated by `;`.
pub fn book(alloc: Global, makefile: &[u8]) -> Result<Book, BookNo> {
    let mut book = Book::new(alloc)?;
    for written in makefile.split(|b| *b == b';') {
        add(alloc, &mut book, written)?;
    }
    Ok(book)
}

fn plan_over(alloc: Global, book: &Book, goals: &[Text]) -> Result<Plan, PlanNo> {
    let tree = Tree::new(alloc, 5)?;
    plan(alloc, book, goals, &tree, &Path::root())
}

fn planned(alloc: Global, book: &Book, goals: &[u8]) -> Result<Plan, PlanNo> {
    let goals = names(alloc, goals)?;
    plan_over(alloc, book, goals.items())
}

/// The plan of a makefile for these goals.
fn plan_of(alloc: Global, makefile: &[u8], goals: &[u8]) -> Result<Plan, Fail> {
    let book = book(alloc, makefile)?;
    Ok(planned(alloc, &book, goals)?)
}

fn add_number(text: &mut Text, number: u32) -> Result<(), NoMemory> {
    text.add(&[b'0' + (number % 10) as u8])
}

fn add_numbers(text: &mut Text, numbers: &[u32]) -> Result<(), NoMemory> {
    for number in numbers {
        add_number(text, *number)?;
    }
    Ok(())
}

fn add_goals(text: &mut Text, goals: &[Numbers]) -> Result<(), NoMemory> {
    for numbers in goals {
        add_numbers(text, numbers.items())?;
    }
    Ok(())
}

fn add_pre(text: &mut Text, before: &[u8], pre: &Pre) -> Result<(), NoMemory> {
    text.add(before)?;
    text.add(pre.name.bytes())?;
    add_numbers(text, pre.jobs.items())
}

fn add_pres(text: &mut Text, before: &[u8], pres: &[Pre]) -> Result<(), NoMemory> {
    for pre in pres {
        add_pre(text, before, pre)?;
    }
    Ok(())
}

/// `{targets}` where there are several, `*` where it is the job of a double-colon rule.
fn add_unit(alloc: Global, text: &mut Text, job: &PlanJob) -> Result<(), NoMemory> {
    if job.targets.len() > 1 {
        text.add(b"{")?;
        text.add(join_texts(alloc, job.targets.items())?.bytes())?;
        text.add(b"}")?;
    }
    if job.double {
        text.add(b"*")?;
    }
    Ok(())
}

/// `target<needed_by:`
fn add_target(alloc: Global, text: &mut Text, job: &PlanJob) -> Result<(), NoMemory> {
    text.add(job.target.bytes())?;
    add_unit(alloc, text, job)?;
    text.add(b"<")?;
    if let Some(name) = &job.needed_by {
        text.add(name.bytes())?;
    }
    text.add(b":")
}

/// `(waits);`
fn add_waits(text: &mut Text, job: &PlanJob) -> Result<(), NoMemory> {
    text.add(b"(")?;
    add_numbers(text, job.waits.items())?;
    text.add(b");")
}

/// `target<needed_by: prerequisites |order-only ones (waits);`
fn add_job(alloc: Global, text: &mut Text, job: &PlanJob) -> Result<(), NoMemory> {
    add_target(alloc, text, job)?;
    add_pres(text, b" ", job.normal.items())?;
    add_pres(text, b" |", job.order.items())?;
    add_waits(text, job)
}

fn add_jobs(alloc: Global, text: &mut Text, jobs: &[SharedJob]) -> Result<(), NoMemory> {
    for job in jobs {
        add_job(alloc, text, job.get())?;
    }
    Ok(())
}

/// The jobs in order, the goals' numbers and the notes.
fn shown(alloc: Global, plan: &Plan) -> Result<Text, NoMemory> {
    let mut text = Text::new(alloc);
    add_jobs(alloc, &mut text, plan.jobs.items())?;
    add_goals(&mut text, plan.goals.items())?;
    text.add(plan.notes.bytes())?;
    Ok(text)
}

fn is_shown(alloc: Global, plan: &Plan, wanted: &[u8]) -> Result<bool, NoMemory> {
    let text = shown(alloc, plan)?;
    Ok(text.bytes() == wanted)
}

/// A makefile, goals, and what is shown of the plan for them.
type Row = (&'static [u8], &'static [u8], &'static [u8]);

fn check(rt: &impl Abort, alloc: Global, rows: &[Row]) -> Result<(), Fail> {
    for (makefile, goals, wanted) in rows {
        let plan = plan_of(alloc, makefile, goals)?;
        assert!(rt; is_shown(alloc, &plan, wanted)?);
    }
    Ok(())
}

const PREREQUISITES: [Row; 5] = [
    (
        b"a|b c||;b c|d||",
        b"a",
        b"d<b:();b<a: d0(0);c<a: d0(0);a<: b1 c2(12);3",
    ),
    // the rule with the recipe first, each rule's normal prerequisites before its order-only ones
    (
        b"a|b|c;a|d|e|;a|f|",
        b"a",
        b"d<a:();e<a:();b<a:();c<a:();f<a:();a<: d0 b2 f4 |e1 |c3(01234);5",
    ),
    // the last recipe is the name's
    (b"a|b||;a|c||", b"a", b"c<a:();b<a:();a<: c0 b1(01);2"),
    // a prerequisite that is written twice
    (b"a|b c b|b|", b"a", b"b<a:();c<a:();a<: b0 c1 b0 |b0(01);2"),
    // waits rise
    (b"a|b c||", b"c a", b"c<:();b<a:();a<: b1 c0(01);02"),
];

#[test]
fn prerequisites_come_first_from_left_to_right(rt: HostRuntime) -> Result<(), Fail> {
    check(&rt, rt.alloc(), &PREREQUISITES)
}

const GOALS: [Row; 3] = [
    (b"a|b||", b"a b ./a a", b"b<a:();a<: b0(0);10"),
    // a goal that is also a prerequisite
    (b"a|b||", b"b a", b"b<:();a<: b0(0);01"),
    // leading `./` are no part of a name
    (
        b"./a|././b||;b|./c||",
        b"./a b",
        b"c<b:();b<a: c0(0);a<: b1(1);21",
    ),
];

#[test]
fn goals_stand_once(rt: HostRuntime) -> Result<(), Fail> {
    check(&rt, rt.alloc(), &GOALS)
}

const CIRCLES: [Row; 5] = [
    (
        b"a|b||;b|a||",
        b"a",
        b"b<a:();a<: b0(0);1emake: Circular b <- a dependency dropped.\n",
    ),
    (
        b"a|a||",
        b"a",
        b"a<:();0emake: Circular a <- a dependency dropped.\n",
    ),
    (
        b"a|b||;b|c||;c|a d||",
        b"a",
        b"d<c:();c<b: d0(0);b<a: c1(1);a<: b2(2);3emake: Circular c <- a dependency dropped.\n",
    ),
    // through order-only prerequisites
    (
        b"a||b|;b||a|",
        b"a",
        b"b<a:();a<: |b0(0);1emake: Circular b <- a dependency dropped.\n",
    ),
    // written twice
    (
        b"a|b||;b|a a||",
        b"a",
        b"b<a:();a<: b0(0);1emake: Circular b <- a dependency dropped.\nemake: Circular b <- a dependency dropped.\n",
    ),
];

#[test]
fn circles_are_dropped(rt: HostRuntime) -> Result<(), Fail> {
    check(&rt, rt.alloc(), &CIRCLES)
}

const UNITS: [Row; 8] = [
    // the members of a group have one job
    (b"&x y|s||", b"y x", b"s<y:();y{x y}<: s0(0);11"),
    // each double-colon rule has one, and waits for the earlier ones
    (
        b":t|a||;:t|b||",
        b"t",
        b"a<t:();t*<: a0(0);b<t:();t*<: b2(12);13",
    ),
    (
        b"all|t||;:t t|||",
        b"all",
        b"t*<all:();t*<all:(0);all<: t01(01);2",
    ),
    // a later recipe takes a member out of its group
    (
        b"&x y|s||;y|q||",
        b"x y",
        b"s<x:();x<: s0(0);q<y:();y<: q2 s0(02);13",
    ),
    // other rules of the members
    (
        b"&x y|s||;y x|z|;x|w|",
        b"x",
        b"s<x:();z<x:();w<x:();x{x y}<: s0 z1 w2 z1(012);3",
    ),
    // a pattern rule makes all that its target patterns are
    (
        b"%.h %.c|%.y||;all|p.y|;p.h|i|",
        b"p.c p.h",
        b"p.y<p.c:();i<p.c:();p.c{p.h p.c}<: p.y0 i1(01);22",
    ),
    (
        b"%.h %.c|%.y||;all|p.y|;:p.h|q||",
        b"p.c p.h",
        b"p.y<p.c:();p.c<: p.y0(0);q<p.h:();p.h*<: q2(2);13",
    ),
    // each member is open
    (
        b"&x y|z||;z|y||",
        b"x",
        b"z<x:();x{x y}<: z0(0);1emake: Circular z <- y dependency dropped.\n",
    ),
];

#[test]
fn units_have_jobs(rt: HostRuntime) -> Result<(), Fail> {
    check(&rt, rt.alloc(), &UNITS)
}

/// Whether the plan has a job of this number, which is one of a pattern rule with the stem `e`.
fn is_made(plan: &Plan, number: usize) -> bool {
    match plan.jobs.get(number) {
        Some(job) => {
            let job = job.get();
            job.ruled && !job.phony && job.recipe.is_some() && job.stem.bytes() == b"e".as_slice()
        }
        None => false,
    }
}

/// Whether the plan has a job of this number, which no rule is of.
fn is_bare(plan: &Plan, number: usize) -> bool {
    match plan.jobs.get(number) {
        Some(job) => {
            let job = job.get();
            !job.ruled && job.recipe.is_none() && job.stem.bytes().is_empty()
        }
        None => false,
    }
}

#[test]
fn a_pattern_rule_is_the_rule_with_the_recipe(rt: HostRuntime) -> Result<(), Fail> {
    let plan = plan_of(rt.alloc(), b"e.o|k|;all|e.c h|;%.o|%.c|h|", b"e.o")?;
    let wanted = b"e.c<e.o:();h<e.o:();k<e.o:();e.o<: e.c0 k2 |h1(012);3";
    assert!(rt; is_shown(rt.alloc(), &plan, wanted)?);
    assert!(rt; is_made(&plan, 3));
    assert!(rt; is_bare(&plan, 0));
    Ok(())
}

/// Whether the plan has a job of this number, which is phony and no rule is of.
fn is_phony(plan: &Plan, number: usize) -> bool {
    match plan.jobs.get(number) {
        Some(job) => {
            let job = job.get();
            job.phony && !job.ruled && job.recipe.is_none()
        }
        None => false,
    }
}

#[test]
fn a_phony_name_has_no_pattern_rule(rt: HostRuntime) -> Result<(), Fail> {
    let plan = plan_of(rt.alloc(), b".PHONY|e.o|;%.o|.PHONY||", b"e.o d.o")?;
    let wanted = b"e.o<:();.PHONY<d.o: e.o0(0);d.o<: .PHONY1(1);02";
    assert!(rt; is_shown(rt.alloc(), &plan, wanted)?);
    assert!(rt; is_phony(&plan, 0));
    Ok(())
}

#[test]
fn without_a_goal_there_is_no_plan(rt: HostRuntime) -> Result<(), Fail> {
    let book = book(rt.alloc(), b"a|b||")?;
    let none = plan_over(rt.alloc(), &book, &[]);
    assert!(rt; none.is_err_and(|e| e == PlanNo::NoTargets));
    Ok(())
}

/// A makefile's rules with the default goal `./a`.
fn book_with_goal(alloc: Global, makefile: &[u8]) -> Result<Book, BookNo> {
    let mut book = book(alloc, makefile)?;
    book.default_goal = Some(Text::from_slice(alloc, b"./a")?);
    Ok(book)
}

#[test]
fn the_default_goal_is_planned(rt: HostRuntime) -> Result<(), Fail> {
    let book = book_with_goal(rt.alloc(), b"a|b||")?;
    let plan = planned(rt.alloc(), &book, b"")?;
    assert!(rt; is_shown(rt.alloc(), &plan, b"b<a:();a<: b0(0);1")?);
    Ok(())
}

/// A rule for `all`, which needs some names and one more for each number below this one.
fn fan(alloc: Global, others: u16, more: &[u8]) -> Result<Rule, NoMemory> {
    let mut fan = bare_rule(alloc, [b"all", more, b""])?;
    for number in 0..others {
        let name = [b'x', (number >> 8) as u8, (number & 255) as u8];
        add_name(alloc, &mut fan.normal, &name)?;
    }
    Ok(fan)
}

fn book_of(alloc: Global, rule: Rule) -> Result<Book, BookNo> {
    let mut book = Book::new(alloc)?;
    book.add(rule)?;
    Ok(book)
}

/// How many jobs `all` comes to, or why there is no plan.
fn jobs_of(alloc: Global, book: &Book) -> Result<usize, PlanNo> {
    let plan = planned(alloc, book, b"all")?;
    Ok(plan.jobs.len())
}

#[test]
fn at_most_65536_units_are_reached(rt: HostRuntime) -> Result<(), Fail> {
    for (more, wanted) in [
        (b"".as_slice(), Ok(65_536)),
        (b"y".as_slice(), Err(PlanNo::TooManyJobs)),
    ] {
        let fan = fan(rt.alloc(), 65_535, more)?;
        let book = book_of(rt.alloc(), fan)?;
        assert!(rt; jobs_of(rt.alloc(), &book) == wanted);
    }
    Ok(())
}
