use em_base::{Construct, Fuel, NoMemory, Place, Seq, Text};
use em_expand::{ExpandNo, Layers, Spoken, expand};
use em_path::Path;
use em_plan::{Numbers, PlanJob, Pre};
use em_recipe::{
    Marks, automatic_vars, bare, commands, fault_text, marks_of, put_deleted, put_failed,
    put_halted, put_ignored, put_no_rule, put_quoted, put_refused, put_spent, put_spent_early,
};
use em_states::{put_all, put_part, state};
use em_vars::{Flavour, Origin, Var, Vars};
use em_view::{Desk, PlainView};
use std::alloc::Global;
use std::test::Fail;

/// The words between single spaces; none of an empty text.
fn words(alloc: Global, text: &[u8]) -> Result<Seq<Text>, NoMemory> {
    let mut words = Seq::new(alloc);
    for word in text.split(|b| *b == b' ') {
        if !word.is_empty() {
            words.push(Text::from_slice(alloc, word)?)?;
        }
    }
    Ok(words)
}

fn pres(alloc: Global, text: &[u8]) -> Result<Seq<Pre>, NoMemory> {
    let mut pres = Seq::new(alloc);
    for name in words(alloc, text)?.into_vec() {
        let jobs = Numbers::one(0);
        pres.push(Pre { name, jobs })?;
    }
    Ok(pres)
}

/// A target, its normal prerequisites, its order-only ones, its stem.
type Written = (&'static [u8], &'static [u8], &'static [u8], &'static [u8]);

/// A job with a target and a stem.
fn bare_job(alloc: Global, target: Text, stem: Text) -> PlanJob {
    PlanJob {
        target,
        targets: Seq::new(alloc),
        double: false,
        normal: Seq::new(alloc),
        order: Seq::new(alloc),
        stem,
        recipe: None,
        ruled: true,
        phony: false,
        needed_by: None,
        waits: Seq::new(alloc),
    }
}

fn named_job(alloc: Global, written: &Written) -> Result<PlanJob, NoMemory> {
    let target = Text::from_slice(alloc, written.0)?;
    let stem = Text::from_slice(alloc, written.3)?;
    Ok(bare_job(alloc, target, stem))
}

fn job(alloc: Global, written: &Written) -> Result<PlanJob, NoMemory> {
    let mut job = named_job(alloc, written)?;
    job.targets.push(job.target.copy(alloc)?)?;
    job.normal = pres(alloc, written.1)?;
    job.order = pres(alloc, written.2)?;
    Ok(job)
}

fn old(alloc: Global, origin: Origin) -> Result<Var, NoMemory> {
    Ok(Var {
        flavour: Flavour::Recursive,
        origin,
        text: Text::from_slice(alloc, b"old")?,
        exported: true,
    })
}

fn set(alloc: Global, vars: &mut Vars, name: &[u8], origin: Origin) -> Result<(), NoMemory> {
    let var = old(alloc, origin)?;
    vars.set(Text::from_slice(alloc, name)?, var)?;
    Ok(())
}

/// Two variables, of which the second has the name of an automatic one.
fn variables(alloc: Global) -> Result<Vars, NoMemory> {
    let mut vars = Vars::new(alloc)?;
    set(alloc, &mut vars, b"A", Origin::File)?;
    set(alloc, &mut vars, b"^D", Origin::Override)?;
    Ok(vars)
}

/// A variable of makefiles, and each automatic one.
static EACH: &[u8] = b"A=$A;@=$@;@D=$(@D);@F=$(@F);<=$<;<D=$(<D);<F=$(<F);^=$^;^D=$(^D);^F=$(^F);\
    +=$+;+D=$(+D);+F=$(+F);?=$?;?D=$(?D);?F=$(?F);*=$*;*D=$(*D);*F=$(*F);|=$|;";

/// What these names are in a recipe.
fn in_recipe(alloc: Global, vars: &Layers) -> Result<Text, Fail> {
    let there = state(alloc, "")?;
    let mut desk = Desk::new(alloc, PlainView::new(&there), 1, 0, Fuel::new(1_000));
    let mut spoken = Spoken::new(alloc);
    let place = place(alloc)?;
    match expand(
        alloc,
        EACH,
        vars,
        &Path::root(),
        &place,
        &mut desk,
        &mut spoken,
    ) {
        Ok(text) => Ok(text),
        Err(_) => Ok(Text::new(alloc)),
    }
}

/// The same with the automatic variables of a job with these newer prerequisites.
fn with_job(alloc: Global, written: &Written, newer: &[u8]) -> Result<Text, Fail> {
    let shared = variables(alloc)?;
    let job = job(alloc, written)?;
    let newer = words(alloc, newer)?;
    let own = automatic_vars(alloc, &job, newer.items())?;
    let vars = Layers {
        shared: &shared,
        own: own.items(),
    };
    in_recipe(alloc, &vars)
}

static FULL: Written = (b"d/x.o", b"a b a d/c", b"o p o", b"d/x");

#[test]
fn automatic_variables_tell_of_the_job(rt: HostRuntime) -> Result<(), Fail> {
    let given = with_job(rt.alloc(), &FULL, b"d/c a d/c")?;
    let want = b"A=old;@=d/x.o;@D=d;@F=x.o;<=a;<D=.;<F=a;^=a b d/c;^D=. . d;^F=a b c;\
        +=a b a d/c;+D=. . . d;+F=a b a c;?=d/c a;?D=d .;?F=c a;*=d/x;*D=d;*F=x;|=o p o;";
    assert_eq!(rt; given.bytes(), want.as_slice());
    Ok(())
}

static EMPTY: Written = (b"/b", b"", b"", b"");

#[test]
fn what_is_not_there_is_empty(rt: HostRuntime) -> Result<(), Fail> {
    let given = with_job(rt.alloc(), &EMPTY, b"")?;
    let want = b"A=old;@=/b;@D=;@F=b;<=;<D=;<F=;^=;^D=;^F=;+=;+D=;+F=;?=;?D=;?F=;*=;*D=;*F=;|=;";
    assert_eq!(rt; given.bytes(), want.as_slice());
    Ok(())
}

/// The mark where it is there.
fn if_there(there: bool, mark: &'static [u8]) -> &'static [u8] {
    if there { mark } else { b"" }
}

fn show_line(to: &mut Text, marks: &Marks, line: &[u8]) {
    put_part(to, if_there(marks.silent, b"@"));
    put_part(to, if_there(marks.lenient, b"-"));
    put_part(to, if_there(marks.forced, b"+"));
    put_all(to, &[b">", line, b";"]);
}

/// The lines for the shell, each as its marks, `>`, its text and `;`.
fn lines(alloc: Global, written: &[u8], expanded: &[u8]) -> Result<Text, NoMemory> {
    let mut text = Text::new(alloc);
    for command in commands(alloc, written, expanded)?.items() {
        show_line(&mut text, &command.marks, command.text.bytes());
    }
    Ok(text)
}

/// A line as it is written, as it is expanded, and the lines for the shell.
static LINES: [(&[u8], &[u8], &[u8]); 10] = [
    (b"echo a", b"echo a", b">echo a;"),
    (b"@echo $(x)", b"@echo -a @", b"@>echo -a @;"),
    (b" \t- +@ $(x)", b" \t- +@ echo", b"@-+>echo;"),
    (
        b"$(x)",
        b"@echo a\n- echo b\necho c",
        b"@>echo a;->echo b;>echo c;",
    ),
    (b"@$(x)", b"@echo a\n-echo b", b"@>echo a;@->echo b;"),
    (b"$(x)", b"\n\techo a\n\n @ \n", b">echo a;"),
    (b"echo \\\nb", b"echo \\\nb", b">echo \\\nb;"),
    (b"$(x)", b"a\\\n\nb", b">a\\\n;>b;"),
    (b"@-", b"@-", b""),
    (b"", b"", b""),
];

#[test]
fn a_line_becomes_lines_for_the_shell(rt: HostRuntime) -> Result<(), Fail> {
    for (written, expanded, want) in &LINES {
        let given = lines(rt.alloc(), written, expanded)?;
        assert_eq!(rt; given.bytes(), *want);
    }
    Ok(())
}

fn place(alloc: Global) -> Result<Place, NoMemory> {
    Ok(Place {
        file: Text::from_slice(alloc, b"Makefile")?,
        line: 7,
    })
}

/// A quoted name, and how lines of the job `d/x` ended.
fn put_ends(out: &mut Text, place: &Place) -> Result<(), NoMemory> {
    put_quoted(out, b"it's")?;
    put_failed(out, place, b"d/x", 2)?;
    put_ignored(out, place, b"d/x", 255)?;
    put_deleted(out, b"d/x")?;
    put_spent(out, place, b"d/x")?;
    put_spent_early(out, b"d/x")?;
    put_halted(out, place, b"too deep")?;
    put_refused(out, place, b"d/x", &Construct::Positional)
}

fn ends(alloc: Global) -> Result<Text, NoMemory> {
    let place = place(alloc)?;
    let mut out = Text::from_slice(alloc, b"before\n")?;
    put_ends(&mut out, &place)?;
    Ok(out)
}

#[test]
fn it_is_said_how_a_line_ended(rt: HostRuntime) -> Result<(), Fail> {
    let out = ends(rt.alloc())?;
    let want = b"before\n'it's'\
        emake: *** [Makefile:7: d/x] Error 2\n\
        emake: [Makefile:7: d/x] Error 255 (ignored)\n\
        emake: *** Deleting file 'd/x'\n\
        emake: *** [Makefile:7: d/x] Fuel spent.  Stop.\n\
        emake: *** [d/x] Fuel spent.  Stop.\n\
        Makefile:7: *** too deep.  Stop.\n\
        emake: *** [Makefile:7: d/x] Refused: positional parameter.  Stop.\n";
    assert_eq!(rt; out.bytes(), want.as_slice());
    Ok(())
}

fn put_lacks(out: &mut Text, by: &Option<Text>) -> Result<(), NoMemory> {
    put_no_rule(out, b"x", by, false)?;
    put_no_rule(out, b"x", by, true)?;
    put_no_rule(out, b"y", &None, false)
}

fn lacks(alloc: Global) -> Result<Text, NoMemory> {
    let by = Some(Text::from_slice(alloc, b"all")?);
    let mut out = Text::new(alloc);
    put_lacks(&mut out, &by)?;
    Ok(out)
}

#[test]
fn it_is_said_that_there_is_no_rule(rt: HostRuntime) -> Result<(), Fail> {
    let out = lacks(rt.alloc())?;
    let want = b"emake: *** No rule to make target 'x', needed by 'all'.  Stop.\n\
        emake: *** No rule to make target 'x', needed by 'all'.\n\
        emake: *** No rule to make target 'y'.  Stop.\n";
    assert_eq!(rt; out.bytes(), want.as_slice());
    Ok(())
}

/// The names of the constructs below, in order.
static NAMES: [&[u8]; 14] = [
    b"&",
    b"function",
    b"<<",
    b"$((",
    b"descriptor",
    b"redirection",
    b"depth",
    b"eval",
    b"emake",
    b"eval",
    b"ls -R",
    b"printf %5",
    b"printf %",
    b"shell",
];

/// The construct of this number.
fn construct(alloc: Global, number: usize) -> Result<Construct, NoMemory> {
    Ok(match number {
        0 => Construct::Background,
        1 => Construct::Function,
        2 => Construct::HereDocument,
        3 => Construct::Arithmetic,
        4 => Construct::Descriptor,
        5 => Construct::Redirection,
        6 => Construct::Depth,
        7 => Construct::Eval,
        8 => Construct::Submake,
        9 => Construct::Command(Text::from_slice(alloc, b"eval")?),
        10 => Construct::Letter(Text::from_slice(alloc, b"ls")?, b'R'),
        11 => Construct::Format(Some(b'5')),
        12 => Construct::Format(None),
        _ => Construct::MakeName(Text::from_slice(alloc, b"shell")?),
    })
}

/// What is said of the construct of this number.
fn refusal(alloc: Global, number: usize) -> Result<Text, NoMemory> {
    let construct = construct(alloc, number)?;
    let place = place(alloc)?;
    let mut out = Text::new(alloc);
    put_refused(&mut out, &place, b"x", &construct)?;
    Ok(out)
}

/// The line of a construct with this name.
fn refused(alloc: Global, name: &[u8]) -> Text {
    let mut line = Text::new(alloc);
    let front = b"emake: *** [Makefile:7: x] Refused: ";
    put_all(&mut line, &[front, name, b".  Stop.\n"]);
    line
}

fn is_named(alloc: Global, number: usize, name: &[u8]) -> Result<bool, NoMemory> {
    let given = refusal(alloc, number)?;
    Ok(given.bytes() == refused(alloc, name).bytes())
}

#[test]
fn constructs_have_names(rt: HostRuntime) -> Result<(), Fail> {
    for (number, name) in NAMES.iter().enumerate() {
        assert!(rt; is_named(rt.alloc(), number, name)?, "construct {number}");
    }
    Ok(())
}

/// The texts of the faults below, in order.
static FAULTS: [&[u8]; 5] = [
    b"Recursive variable 'A' references itself (eventually)",
    b"no compiler",
    b"bad argument of 'word'",
    b"unterminated reference",
    b"too deep",
];

/// The fault of this number.
fn fault(alloc: Global, number: usize) -> Result<ExpandNo, NoMemory> {
    Ok(match number {
        0 => ExpandNo::SelfReference(Text::from_slice(alloc, b"A")?),
        1 => ExpandNo::UserError(Text::from_slice(alloc, b"no compiler")?),
        2 => ExpandNo::BadArgument(Text::from_slice(alloc, b"word")?),
        3 => ExpandNo::Unclosed,
        _ => ExpandNo::TooDeep,
    })
}

fn is_said(alloc: Global, number: usize, want: &[u8]) -> Result<bool, NoMemory> {
    let no = fault(alloc, number)?;
    Ok(fault_text(alloc, &no)?.bytes() == want)
}

#[test]
fn faults_have_texts(rt: HostRuntime) -> Result<(), Fail> {
    for (number, want) in FAULTS.iter().enumerate() {
        assert!(rt; is_said(rt.alloc(), number, want)?, "fault {number}");
    }
    Ok(())
}

#[test]
fn a_line_has_marks(rt: HostRuntime) {
    let line = b" -@\techo +";
    let none = marks_of(b"echo @");
    let some = Marks {
        silent: true,
        lenient: true,
        forced: false,
    };
    assert_eq!(rt; marks_of(line), some);
    assert_eq!(rt; bare(line), b"echo +".as_slice());
    assert_eq!(rt; none.or(some), some);
}
