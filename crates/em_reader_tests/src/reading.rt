use em_base::{NoMemory, Place, Text};
use em_lines::{Line, joined};
use em_path::Path;
use em_reading::{Expanded, Heard, OpenDefine, ReadNo, Reading, start, start_vars, whole};
use em_rules::Rule;
use em_statement::{
    Assignment, Condition, Head, Modifiers, Operator, Statement, read_head, read_statement,
};
use em_vars::{Flavour, Origin, Var, Vars};
use std::alloc::Global;
use std::test::Fail;

fn nothing_read(alloc: Global) -> Result<Reading, Fail> {
    let vars = Vars::new(alloc)?;
    Ok(start(alloc, Path::root(), vars, Text::new(alloc))?)
}

fn place(alloc: Global) -> Result<Place, NoMemory> {
    let file = Text::from_slice(alloc, b"Makefile")?;
    Ok(Place { file, line: 1 })
}

fn expanded(alloc: Global, text: &Text) -> Result<Expanded, NoMemory> {
    let text = text.copy(alloc)?;
    Ok(Expanded {
        text,
        refused: None,
    })
}

/// Two texts in which nothing is expanded.
fn heard(alloc: Global, first: &Text, second: &Text) -> Result<Heard, NoMemory> {
    let first = expanded(alloc, first)?;
    let second = expanded(alloc, second)?;
    Ok(Heard { first, second })
}

/// A simple variable `X` of this origin that is there before; the operator, and whether `override`
/// stands before it; the origin and the text of `X` after `X OPERATOR b`, and whether it is simple.
type Row = (
    Option<(Origin, &'static [u8])>,
    Operator,
    bool,
    Origin,
    &'static [u8],
    bool,
);

const ASSIGNMENTS: [Row; 14] = [
    (None, Operator::Recursive, false, Origin::File, b"b", false),
    (None, Operator::Simple, false, Origin::File, b"b", true),
    (
        None,
        Operator::IfUndefined,
        false,
        Origin::File,
        b"b",
        false,
    ),
    (None, Operator::Append, false, Origin::File, b"b", false),
    (None, Operator::Append, true, Origin::Override, b"b", false),
    (
        Some((Origin::File, b"a")),
        Operator::Recursive,
        false,
        Origin::File,
        b"b",
        false,
    ),
    (
        Some((Origin::File, b"a")),
        Operator::IfUndefined,
        false,
        Origin::File,
        b"a",
        true,
    ),
    (
        Some((Origin::File, b"a")),
        Operator::Append,
        false,
        Origin::File,
        b"a b",
        true,
    ),
    (
        Some((Origin::File, b"")),
        Operator::Append,
        false,
        Origin::File,
        b" b",
        true,
    ),
    (
        Some((Origin::Default, b"a")),
        Operator::Append,
        false,
        Origin::File,
        b"a b",
        true,
    ),
    (
        Some((Origin::CommandLine, b"a")),
        Operator::Recursive,
        false,
        Origin::CommandLine,
        b"a",
        true,
    ),
    (
        Some((Origin::CommandLine, b"a")),
        Operator::Append,
        false,
        Origin::CommandLine,
        b"a",
        true,
    ),
    (
        Some((Origin::CommandLine, b"a")),
        Operator::Append,
        true,
        Origin::Override,
        b"a b",
        true,
    ),
    (
        Some((Origin::Override, b"a")),
        Operator::Simple,
        false,
        Origin::Override,
        b"a",
        true,
    ),
];

fn simple(alloc: Global, origin: Origin, text: &[u8]) -> Result<Var, NoMemory> {
    let text = Text::from_slice(alloc, text)?;
    Ok(Var {
        flavour: Flavour::Simple,
        origin,
        text,
        exported: false,
    })
}

/// Sets `X`.
fn set_x(alloc: Global, vars: &mut Vars, v: Var) -> Result<(), Fail> {
    let name = Text::from_slice(alloc, b"X")?;
    vars.set(name, v)?;
    Ok(())
}

fn before(alloc: Global, old: Option<(Origin, &[u8])>) -> Result<Reading, Fail> {
    let mut reading = nothing_read(alloc)?;
    if let Some((origin, text)) = old {
        let v = simple(alloc, origin, text)?;
        set_x(alloc, &mut reading.book.vars, v)?;
    }
    Ok(reading)
}

fn assignment(alloc: Global, operator: Operator, overriding: bool) -> Result<Assignment, NoMemory> {
    let name = Text::from_slice(alloc, b"X")?;
    let value = Text::from_slice(alloc, b"b")?;
    Ok(Assignment {
        modifiers: Modifiers {
            overriding,
            exported: false,
        },
        name,
        operator,
        value,
    })
}

/// Whether the row's assignment is made.
fn is_made(alloc: Global, reading: &mut Reading, row: &Row) -> Result<bool, NoMemory> {
    let place = place(alloc)?;
    let a = assignment(alloc, row.1, row.2)?;
    Ok(assign(alloc, reading, &place, &a).is_ok())
}

/// Whether `X` is now as the row says.
fn is_assigned(reading: &Reading, row: &Row) -> bool {
    let (_, _, _, origin, text, simple) = row;
    match reading.book.vars.get(b"X") {
        Some(v) => {
            v.origin == *origin
                && v.text.bytes() == *text
                && (v.flavour == Flavour::Simple) == *simple
        }
        None => false,
    }
}

#[test]
fn an_assignment_goes_by_operator_and_origin(rt: HostRuntime) -> Result<(), Fail> {
    for row in &ASSIGNMENTS {
        let mut reading = before(rt.alloc(), row.0)?;
        assert!(rt; is_made(rt.alloc(), &mut reading, row)?);
        assert!(rt; is_assigned(&reading, row));
    }
    Ok(())
}

/// The end of a `define`.
fn end_define(alloc: Global, reading: &mut Reading, body: OpenDefine) -> Result<(), ReadNo> {
    let OpenDefine {
        place,
        assignment,
        nested: _,
        text,
    } = body;
    let whole = whole(alloc, assignment, text);
    assign(alloc, reading, &place, &whole)
}

/// A line of a `define`.
fn read_body(
    alloc: Global,
    reading: &mut Reading,
    body: OpenDefine,
    line: &Line,
) -> Result<(), ReadNo> {
    if body.ends(alloc, line)? {
        return end_define(alloc, reading, body);
    }
    reading.body_line(alloc, body, line)
}

fn read_line(alloc: Global, reading: &mut Reading, line: &Line) -> Result<(), ReadNo> {
    let statement = read_statement(alloc, line.text.bytes())?;
    act(alloc, reading, &line.place, &statement)
}

/// A line in which nothing is expanded.
fn read(alloc: Global, reading: &mut Reading, line: &Line) -> Result<(), ReadNo> {
    if let Some(body) = reading.take_define() {
        return read_body(alloc, reading, body, line);
    }
    if line.tab {
        return reading.recipe(alloc, line);
    }
    read_line(alloc, reading, line)
}

fn assign(
    alloc: Global,
    reading: &mut Reading,
    place: &Place,
    a: &Assignment,
) -> Result<(), ReadNo> {
    let heard = heard(alloc, &a.name, &a.value)?;
    reading.assign(alloc, place, a, &heard)
}

fn assign_line(
    alloc: Global,
    reading: &mut Reading,
    place: &Place,
    a: &Assignment,
) -> Result<(), ReadNo> {
    if !reading.is_read() {
        return Ok(());
    }
    reading.close_rule(alloc)?;
    assign(alloc, reading, place, a)
}

/// What a condition hears that asks for `X`.
fn asked(alloc: Global) -> Result<Heard, NoMemory> {
    let x = Text::from_slice(alloc, b"X")?;
    heard(alloc, &x, &Text::new(alloc))
}

fn if_line(
    alloc: Global,
    reading: &mut Reading,
    place: &Place,
    c: &Condition,
) -> Result<(), ReadNo> {
    let heard = asked(alloc)?;
    reading.if_heard(alloc, place, c, &heard)
}

fn act(alloc: Global, reading: &mut Reading, place: &Place, s: &Statement) -> Result<(), ReadNo> {
    match s {
        Statement::If(c) => if_line(alloc, reading, place, c),
        Statement::Else => reading.other(alloc, place, None),
        Statement::Endif => reading.leave(alloc, place),
        Statement::Define(a) => reading.define_line(alloc, place, a),
        Statement::Rule(line) => rule(alloc, reading, place, line.head.bytes()),
        Statement::Assign(a) => assign_line(alloc, reading, place, a),
        _ => Ok(()),
    }
}

fn rule_of(head: Head, place: Place) -> Rule {
    Rule {
        targets: head.targets,
        kind: head.kind,
        pattern: false,
        form: head.form,
        normal: head.normal,
        order: head.order,
        recipe: None,
        place,
    }
}

fn begin_rule(
    alloc: Global,
    reading: &mut Reading,
    place: &Place,
    head: Head,
) -> Result<(), ReadNo> {
    let place = place.copy(alloc)?;
    reading.begin_rule(alloc, rule_of(head, place))
}

fn rule(alloc: Global, reading: &mut Reading, place: &Place, text: &[u8]) -> Result<(), ReadNo> {
    reading.close_rule(alloc)?;
    match read_head(alloc, text)? {
        Some(head) => begin_rule(alloc, reading, place, head),
        None => Ok(()),
    }
}

fn read_lines(alloc: Global, reading: &mut Reading, lines: &[Line]) -> Result<(), ReadNo> {
    for line in lines {
        read(alloc, reading, line)?;
    }
    Ok(())
}

fn read_text(alloc: Global, reading: &mut Reading, text: &[u8]) -> Result<(), ReadNo> {
    let file = Text::from_slice(alloc, b"Makefile")?;
    let lines = joined(alloc, &file, text)?;
    read_lines(alloc, reading, lines.lines.items())?;
    reading.end_text(alloc, &lines.too_long)
}

/// All lines of a text, and the end.
fn read_all(alloc: Global, reading: &mut Reading, text: &[u8]) -> Result<(), ReadNo> {
    read_text(alloc, reading, text)?;
    reading.close_rule(alloc)?;
    reading.end_conditionals(alloc)?;
    reading.set_goal(alloc, b"")
}

/// A makefile without references, in which each condition asks for `X`; how many rules it makes;
/// the text of `X`; what is said; the default goal; and the line of the fault, or 0.
type Made = (
    &'static [u8],
    usize,
    &'static [u8],
    &'static [u8],
    &'static [u8],
    u32,
);

const MAKEFILES: [Made; 15] = [
    (
        b"a: b | c\n\techo 1\n# no end\n\n\techo 2\n",
        1,
        b"",
        b"",
        b"a",
        0,
    ),
    (b".PHONY: a\n.b:\n.d/e:\n", 3, b"", b"", b".d/e", 0),
    (
        b"a b:\n\t1\nb c:\n\t2\n",
        2,
        b"",
        b"Makefile:3: warning: overriding recipe for target 'b'\n",
        b"a",
        0,
    ),
    (
        b"a e:\n\t1\ne a e:\n\t2\n",
        2,
        b"",
        b"Makefile:3: warning: overriding recipe for target 'e'\nMakefile:3: warning: overriding recipe for target 'a'\n",
        b"a",
        0,
    ),
    (b"a:\n\t1\na: b\n", 2, b"", b"", b"a", 0),
    (b"\techo\n", 0, b"", b"", b"", 1),
    (b"a:\nX = 1\n\techo\n", 1, b"1", b"", b"", 3),
    (b"x.o y.c: %.o: %.c\n", 0, b"", b"", b"", 1),
    (
        b"ifdef X\n\techo\nX = 1\nelse\nX = 2\nendif\n",
        0,
        b"2",
        b"",
        b"",
        0,
    ),
    (
        b"X = 1\nifdef X\nifndef X\nX = 2\nelse\nX = 3\nendif\nendif\n",
        0,
        b"3",
        b"",
        b"",
        0,
    ),
    (b"a:\nifdef X\nendif\n\techo\n", 1, b"", b"", b"a", 0),
    (b"ifdef X\nifdef X\nendif\n", 0, b"", b"", b"", 1),
    (b"ifdef X\nelse\nelse\n", 0, b"", b"", b"", 3),
    (
        b"define X\na # b\n\tdefine y\ndefine z\nendef\nendef\n",
        0,
        b"a # b\n\tdefine y\ndefine z\nendef",
        b"",
        b"",
        0,
    ),
    (b"\ndefine X\na\n", 0, b"", b"", b"", 2),
];

fn line_of(read: &Result<(), ReadNo>) -> u32 {
    match read {
        Err(ReadNo::At(place, _)) => place.line,
        _ => 0,
    }
}

fn is_text(text: Option<&Text>, bytes: &[u8]) -> bool {
    match text {
        Some(text) => text.bytes() == bytes,
        None => bytes.is_empty(),
    }
}

/// Whether what was read is as the row says.
fn is_row(reading: &Reading, row: &Made) -> bool {
    let (_, rules, x, said, goal, _) = row;
    reading.book.rules.len() == *rules
        && is_var(&reading.book.vars, b"X", x)
        && reading.spoken.said.bytes() == *said
        && is_text(reading.book.default_goal.as_ref(), goal)
}

/// Whether a variable has a text; or is not there, where the text is empty.
fn is_var(vars: &Vars, name: &[u8], text: &[u8]) -> bool {
    match vars.get(name) {
        Some(v) => v.text.bytes() == text,
        None => text.is_empty(),
    }
}

#[test]
fn makefiles_without_references(rt: HostRuntime) -> Result<(), Fail> {
    for row in &MAKEFILES {
        let mut reading = nothing_read(rt.alloc())?;
        let result = read_all(rt.alloc(), &mut reading, row.0);
        assert!(rt; line_of(&result) == row.5);
        assert!(rt; is_row(&reading, row));
    }
    Ok(())
}

fn goals(alloc: Global) -> Result<[Text; 2], NoMemory> {
    let first = Text::from_slice(alloc, b"a")?;
    let second = Text::from_slice(alloc, b"b")?;
    Ok([first, second])
}

fn assigned(alloc: Global) -> Result<[(Text, Text); 1], NoMemory> {
    let name = Text::from_slice(alloc, b"MAKE")?;
    let text = Text::from_slice(alloc, b"x")?;
    Ok([(name, text)])
}

/// The variables at the start, with those goals and that variable of the command line.
fn vars_at_start(alloc: Global) -> Result<Vars, Fail> {
    let goals = goals(alloc)?;
    let assigned = assigned(alloc)?;
    let none = Vars::new(alloc)?;
    Ok(start_vars(alloc, &goals, &assigned, &Path::root(), &none)?)
}

#[test]
fn the_variables_at_the_start(rt: HostRuntime) -> Result<(), Fail> {
    let vars = vars_at_start(rt.alloc())?;
    assert!(rt; is_var(&vars, b"MAKE", b"x"));
    assert!(rt; is_var(&vars, b"CURDIR", b"/"));
    assert!(rt; is_var(&vars, b"MAKECMDGOALS", b"a b"));
    assert!(rt; vars.len() == 3);
    Ok(())
}
