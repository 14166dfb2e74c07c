use em_base::{NoMemory, Seq, Text};
use em_statement::{
    Assignment, Condition, Head, Include, Operator, Statement, Undefine, first_word, is_empty,
    read_head, read_statement, refused_in_head, words,
};
use std::alloc::Global;
use std::process::Abort;
use std::test::Fail;

/// What is seen of a statement.
#[derive(Clone, Copy)]
struct StatementParts<'a> {
    /// What it is.
    kind: &'static [u8],
    /// The name, the names or the left side.
    first: &'a [u8],
    /// The operator, or what a condition asks.
    operator: &'static [u8],
    /// The value or the right side.
    second: &'a [u8],
}

fn seen_as<'a>(
    kind: &'static [u8],
    first: &'a [u8],
    operator: &'static [u8],
    second: &'a [u8],
) -> StatementParts<'a> {
    StatementParts {
        kind,
        first,
        operator,
        second,
    }
}

/// A line, and what is seen of its statement.
type Row = [&'static [u8]; 5];

fn condition_seen<'a>(kind: &'static [u8], condition: &'a Condition) -> StatementParts<'a> {
    match condition {
        Condition::Same(sides) => seen_as(kind, sides.left.bytes(), b"is", sides.right.bytes()),
        Condition::Different(sides) => seen_as(
            kind,
            sides.left.bytes(),
            b"is not",
            sides.right.bytes(),
        ),
        Condition::Defined(name) => seen_as(kind, name.bytes(), b"defined", b""),
        Condition::Undefined(name) => seen_as(kind, name.bytes(), b"undefined", b""),
        Condition::Malformed => seen_as(kind, b"", b"malformed", b""),
    }
}

fn operator_text(operator: Operator) -> &'static [u8] {
    match operator {
        Operator::Recursive => b"=",
        Operator::Simple => b":=",
        Operator::IfUndefined => b"?=",
        Operator::Append => b"+=",
        Operator::Shell => b"!=",
        Operator::Posix => b":::=",
    }
}

/// An assignment, whose kinds are named with no modifier, with `override`, with `export` and with
/// both.
fn assignment_seen<'a>(
    kinds: [&'static [u8]; 4],
    assignment: &'a Assignment,
) -> StatementParts<'a> {
    let [plain, overriding, exported, both] = kinds;
    let modifiers = assignment.modifiers;
    let kind = match (modifiers.overriding, modifiers.exported) {
        (false, false) => plain,
        (true, false) => overriding,
        (false, true) => exported,
        (true, true) => both,
    };
    let operator = operator_text(assignment.operator);
    seen_as(
        kind,
        assignment.name.bytes(),
        operator,
        assignment.value.bytes(),
    )
}

const ASSIGN: [&[u8]; 4] = [
    b"assign",
    b"override assign",
    b"export assign",
    b"override export assign",
];

const DEFINE: [&[u8]; 4] = [
    b"define",
    b"override define",
    b"export define",
    b"override export define",
];

fn include_seen(include: &Include) -> StatementParts<'_> {
    let kind: &'static [u8] = if include.required {
        b"include"
    } else {
        b"-include"
    };
    seen_as(kind, include.names.bytes(), b"", b"")
}

fn undefine_seen(undefine: &Undefine) -> StatementParts<'_> {
    let kind: &'static [u8] = if undefine.overriding {
        b"override undefine"
    } else {
        b"undefine"
    };
    seen_as(kind, undefine.name.bytes(), b"", b"")
}

fn statement_seen(statement: &Statement) -> StatementParts<'_> {
    match statement {
        Statement::Blank => seen_as(b"blank", b"", b"", b""),
        Statement::If(condition) => condition_seen(b"if", condition),
        Statement::Else => seen_as(b"else", b"", b"", b""),
        Statement::ElseIf(condition) => condition_seen(b"else if", condition),
        Statement::Endif => seen_as(b"endif", b"", b"", b""),
        Statement::Extraneous => seen_as(b"extraneous", b"", b"", b""),
        Statement::Define(assignment) => assignment_seen(DEFINE, assignment),
        Statement::Include(include) => include_seen(include),
        Statement::Undefine(undefine) => undefine_seen(undefine),
        Statement::Export(names) => seen_as(b"export", names.bytes(), b"", b""),
        Statement::Unexport(names) => seen_as(b"unexport", names.bytes(), b"", b""),
        Statement::Assign(assignment) => assignment_seen(ASSIGN, assignment),
        Statement::Stray => seen_as(b"stray", b"", b"", b""),
        Statement::Unsupported(word) => seen_as(b"unsupported", word.bytes(), b"", b""),
        Statement::Rule(rule) => seen_as(b"rule", rule.head.bytes(), b"", b""),
    }
}

fn is_seen(statement: &Statement, row: &Row) -> bool {
    let seen = statement_seen(statement);
    seen.kind == row[1] && seen.first == row[2] && seen.operator == row[3] && seen.second == row[4]
}

/// That each line is read as the statement of its row.
fn are_read(rt: &impl Abort, alloc: Global, rows: &[Row]) -> Result<(), NoMemory> {
    for row in rows {
        let statement = read_statement(alloc, row[0])?;
        assert!(rt; is_seen(&statement, row));
    }
    Ok(())
}

/// Lines that are blank or of a conditional.
const CONDITIONALS: [Row; 26] = [
    [b"", b"blank", b"", b"", b""],
    [b" \t", b"blank", b"", b"", b""],
    [b" # ifdef X ; y", b"blank", b"", b"", b""],
    [b"ifeq (a,b)", b"if", b"a", b"is", b"b"],
    [b" ifeq ( a , b ) # c", b"if", b" a", b"is", b"b "],
    [b"ifneq ($(x),)", b"if", b"$(x)", b"is not", b""],
    [
        b"ifeq ($(call f,a),(c,d))",
        b"if",
        b"$(call f,a)",
        b"is",
        b"(c,d)",
    ],
    [b"ifeq ((a,b),c)", b"if", b"(a,b)", b"is", b"c"],
    [b"ifeq (a,b) c", b"if", b"", b"malformed", b""],
    [b"ifeq (a),b)", b"if", b"", b"malformed", b""],
    [b"ifneq (a,b", b"if", b"", b"malformed", b""],
    [b"ifeq \"a 'b\" 'c'", b"if", b"a 'b", b"is", b"c"],
    [b"ifneq 'a''$(x)'\t", b"if", b"a", b"is not", b"$(x)"],
    [b"ifeq 'a' 'b' c", b"if", b"", b"malformed", b""],
    [b"ifeq 'a' b", b"if", b"", b"malformed", b""],
    [b"ifeq", b"if", b"", b"malformed", b""],
    [b"ifdef X", b"if", b"X", b"defined", b""],
    [b"ifndef $(X) y", b"if", b"$(X) y", b"undefined", b""],
    [b" else # x", b"else", b"", b"", b""],
    [b"else ifdef X", b"else if", b"X", b"defined", b""],
    [b"else ifeq (a,b) c", b"else if", b"", b"malformed", b""],
    [b"else x", b"extraneous", b"", b"", b""],
    [b"else endif", b"extraneous", b"", b"", b""],
    [b"endif", b"endif", b"", b"", b""],
    [b"endif x", b"extraneous", b"", b"", b""],
    [b"ifeq(a,b)", b"rule", b"ifeq(a,b)", b"", b""],
];

#[test]
fn a_conditional_has_its_texts(rt: HostRuntime) -> Result<(), Fail> {
    Ok(are_read(&rt, rt.alloc(), &CONDITIONALS)?)
}

/// Lines with a directive as their first word.
const DIRECTIVES: [Row; 25] = [
    [b"define X", b"define", b"X", b"=", b""],
    [
        b"override define a b +=",
        b"override define",
        b"a b",
        b"+=",
        b"",
    ],
    [b"define X = y", b"stray", b"", b"", b""],
    [b"endef x", b"stray", b"", b"", b""],
    [b"undefine X ", b"undefine", b"X", b"", b""],
    [
        b"override undefine $(X)",
        b"override undefine",
        b"$(X)",
        b"",
        b"",
    ],
    [b"include a $(b)", b"include", b"a $(b)", b"", b""],
    [b"-include a", b"-include", b"a", b"", b""],
    [b"sinclude = x", b"-include", b"= x", b"", b""],
    [b"include", b"include", b"", b"", b""],
    [b"export # X", b"unsupported", b"export", b"", b""],
    [b"export X $(Y)", b"export", b"X $(Y)", b"", b""],
    [b"export override X", b"export", b"override X", b"", b""],
    [b"unexport", b"unsupported", b"unexport", b"", b""],
    [b"unexport X = 1", b"unexport", b"X = 1", b"", b""],
    [b"override X", b"stray", b"", b"", b""],
    [b"override export X", b"stray", b"", b"", b""],
    [b"override X = 1", b"override assign", b"X", b"=", b"1"],
    [b"export X := 1", b"export assign", b"X", b":=", b"1"],
    [
        b"export override X=1",
        b"override export assign",
        b"X",
        b"=",
        b"1",
    ],
    [
        b"override export = 1",
        b"override export assign",
        b"",
        b"=",
        b"1",
    ],
    [b"vpath = x", b"unsupported", b"vpath", b"", b""],
    [b"private X = 1", b"unsupported", b"private", b"", b""],
    [b"load x", b"unsupported", b"load", b"", b""],
    [b"vpath: x", b"rule", b"vpath: x", b"", b""],
];

#[test]
fn a_directive_is_known_by_its_first_word(rt: HostRuntime) -> Result<(), Fail> {
    Ok(are_read(&rt, rt.alloc(), &DIRECTIVES)?)
}

/// Assignments with their names, operators and values.
const ASSIGNMENTS: [Row; 23] = [
    [b"X = a", b"assign", b"X", b"=", b"a"],
    [b"X := a", b"assign", b"X", b":=", b"a"],
    [b"X ::= a", b"assign", b"X", b":=", b"a"],
    [b"X ?= a", b"assign", b"X", b"?=", b"a"],
    [b"X += a", b"assign", b"X", b"+=", b"a"],
    [b"X != a", b"assign", b"X", b"!=", b"a"],
    [b"X :::= a", b"assign", b"X", b":::=", b"a"],
    [b" \tX\t=\ta b \t", b"assign", b"X", b"=", b"a b \t"],
    [b"X:=a", b"assign", b"X", b":=", b"a"],
    [b"a b = c", b"assign", b"a b", b"=", b"c"],
    [b"$(x:=y) = z", b"assign", b"$(x:=y)", b"=", b"z"],
    [b"$?=1", b"assign", b"$?", b"=", b"1"],
    [b"X?==1", b"assign", b"X", b"?=", b"=1"],
    [b"X? =1", b"assign", b"X?", b"=", b"1"],
    [b"X = # c", b"assign", b"X", b"=", b""],
    [b"X = a # c", b"assign", b"X", b"=", b"a "],
    [b"X = a\\#b#c", b"assign", b"X", b"=", b"a#b"],
    [b"X = $(a#b)", b"assign", b"X", b"=", b"$(a#b)"],
    [b"X = a: b = c", b"assign", b"X", b"=", b"a: b = c"],
    [b"X = a ; b", b"assign", b"X", b"=", b"a ; b"],
    [b"= a", b"assign", b"", b"=", b"a"],
    [b"$(X)y = $(", b"assign", b"$(X)y", b"=", b"$("],
    [b"includes = a", b"assign", b"includes", b"=", b"a"],
];

#[test]
fn an_operator_stands_before_any_other_colon(rt: HostRuntime) -> Result<(), Fail> {
    Ok(are_read(&rt, rt.alloc(), &ASSIGNMENTS)?)
}

/// A line of a rule: the head, whether it assigns, the recipe.
type RuleRow = (&'static [u8], &'static [u8], bool, Option<&'static [u8]>);

const RULES: [RuleRow; 19] = [
    (b"a: b", b"a: b", false, None),
    (b"a", b"a", false, None),
    (b"a: b ; c", b"a: b ", false, Some(b" c")),
    (b"a:;", b"a:", false, Some(b"")),
    (b"a: b;c;d", b"a: b", false, Some(b"c;d")),
    (b"a: b ; c # d", b"a: b ", false, Some(b" c # d")),
    (b"a: b # c ; d", b"a: b ", false, None),
    (b"a: \\# ; c \\#", b"a: # ", false, Some(b" c \\#")),
    (b"a: X = 1", b"a: X = 1", true, None),
    (b"a: X := 1 ; c", b"a: X := 1 ", true, Some(b" c")),
    (b"a:b:=c", b"a:b:=c", true, None),
    (b"a: ; X = 1", b"a: ", false, Some(b" X = 1")),
    (b"a: b: X = 1", b"a: b: X = 1", false, None),
    (b"a:: X = 1", b"a:: X = 1", true, None),
    (b"a: $(X=1)", b"a: $(X=1)", false, None),
    (b"a: # X = 1", b"a: ", false, None),
    (b"$(a:;b): c", b"$(a:;b): c", false, None),
    (b"a: ${x;y};z", b"a: ${x;y}", false, Some(b"z")),
    (b"$(a ; b # c", b"$(a ; b # c", false, None),
];

/// Whether there is a text where one is wanted, and the wanted one.
fn is_text(text: &Option<Text>, wanted: Option<&[u8]>) -> bool {
    match (text, wanted) {
        (Some(text), Some(wanted)) => text.bytes() == wanted,
        (None, None) => true,
        _ => false,
    }
}

fn is_rule(statement: &Statement, row: &RuleRow) -> bool {
    let (_, head, assigns, recipe) = row;
    match statement {
        Statement::Rule(rule) => {
            rule.head.bytes() == *head && rule.assigns == *assigns && is_text(&rule.recipe, *recipe)
        }
        _ => false,
    }
}

#[test]
fn a_rule_has_a_head_and_a_recipe(rt: HostRuntime) -> Result<(), Fail> {
    for row in &RULES {
        let statement = read_statement(rt.alloc(), row.0)?;
        assert!(rt; is_rule(&statement, row));
    }
    Ok(())
}

/// An expanded head with the targets, the form, the prerequisites and the order-only ones.
type HeadRow = (
    &'static [u8],
    &'static [u8],
    Option<&'static [u8]>,
    &'static [u8],
    &'static [u8],
);

const HEADS: [HeadRow; 11] = [
    (b"a: b c", b"a,", None, b"b,c,", b""),
    (b" a  b :", b"a,b,", None, b"", b""),
    (b"a:b|c d", b"a,", None, b"b,", b"c,d,"),
    (b"a: | c | d", b"a,", None, b"", b"c,|,d,"),
    (b"a&: b", b"a,", None, b"b,", b""),
    (b"a & : b", b"a,&,", None, b"b,", b""),
    (b"a.o: %.o : %.c | d", b"a.o,", Some(b"%.o"), b"%.c,", b"d,"),
    (b"a: : b", b"a,", Some(b""), b"b,", b""),
    (b"a: b c : d: e", b"a,", Some(b"b c"), b"d:,e,", b""),
    (b"a:: b", b"a,", None, b"b,", b""),
    (b": b", b"", None, b"b,", b""),
];

/// Whether these are the words, with a comma behind each.
fn are_words(alloc: Global, words: &Seq<Text>, wanted: &[u8]) -> Result<bool, NoMemory> {
    let mut list = Text::new(alloc);
    for word in words.items() {
        list.add(word.bytes())?;
        list.add(b",")?;
    }
    Ok(list.bytes() == wanted)
}

fn is_head(alloc: Global, head: &Head, row: &HeadRow) -> Result<bool, NoMemory> {
    let (_, targets, form, normal, order) = row;
    let parts = [
        (&head.targets, *targets),
        (&head.normal, *normal),
        (&head.order, *order),
    ];
    for (words, wanted) in &parts {
        if !are_words(alloc, words, wanted)? {
            return Ok(false);
        }
    }
    Ok(is_text(&head.form, *form))
}

fn is_head_read(alloc: Global, row: &HeadRow) -> Result<bool, NoMemory> {
    match read_head(alloc, row.0)? {
        Some(head) => is_head(alloc, &head, row),
        None => Ok(false),
    }
}

#[test]
fn a_head_has_parts(rt: HostRuntime) -> Result<(), Fail> {
    for row in &HEADS {
        assert!(rt; is_head_read(rt.alloc(), row)?);
    }
    Ok(())
}

fn are_words_of(alloc: Global, text: &[u8], wanted: &[u8]) -> Result<bool, NoMemory> {
    let words = words(alloc, text)?;
    are_words(alloc, &words, wanted)
}

#[test]
fn words_are_no_head(rt: HostRuntime) -> Result<(), Fail> {
    let head = read_head(rt.alloc(), b"a b")?;
    assert!(rt; head.is_none());
    assert!(rt; are_words_of(rt.alloc(), b" a  b", b"a,b,")?);
    Ok(())
}

/// Whether the head is of an assignment, the head, and the name of what is refused first.
type RefusedRow = (bool, &'static [u8], Option<&'static [u8]>);

const REFUSED: [RefusedRow; 45] = [
    (false, b"a b: c | d", None),
    (true, b"a b", None),
    (false, b"a:: b", None),
    (false, b"a:: l(m)", Some(b"l(m)")),
    (false, b"a &:: b", Some(b"::")),
    (false, b"a & :: b", None),
    (true, b"a &:: X = 1", Some(b"::")),
    (false, b"a b&: c", None),
    (false, b"a: b:: c", Some(b"::")),
    (false, b"a: b:: l(m)", Some(b"::")),
    (false, b"a:: b:: c", Some(b"::")),
    (false, b"a:::b", None),
    (false, b"a::::b", Some(b"::")),
    (true, b"a: X ::= 1", Some(b"a")),
    (true, b"a:: X ::= 1", Some(b"a")),
    (false, b"a .PHONY:: b", Some(b"::")),
    (false, b"./.SECONDARY ::", Some(b"::")),
    (false, b".SUFFIXES::", Some(b"::")),
    (false, b".SUFFIXES:: .c", Some(b".SUFFIXES")),
    (false, b".PHONY&: b", None),
    (false, b"%.o: %.c", None),
    (false, b"%.o %.p: %.c", None),
    (false, b"%.o b%&: c", None),
    (false, b"%.o b: c", Some(b"%")),
    (false, b"b %.o&: c", Some(b"%")),
    (false, b"%.o b% :: c", Some(b"::")),
    (false, b"%.o b :: c", Some(b"%")),
    (false, b"%.o b: %: c", None),
    (false, b"%.o b:: %: c", Some(b"::")),
    (false, b"l(m): (m) l( m)", Some(b"l(m)")),
    (false, b"a: b | l(m)", Some(b"l(m)")),
    (false, b"a(b : c)", None),
    (false, b"\\%: b", Some(b"\\%")),
    (false, b"a: b\\%c", Some(b"\\%")),
    (true, b"a b: X = 1", Some(b"a")),
    (true, b"a b: l(m)", Some(b"a")),
    (true, b": X = 1", None),
    (true, b"a&: l(m)", Some(b"a")),
    (false, b".SUFFIXES:", None),
    (false, b".SUFFIXES: | .c", Some(b".SUFFIXES")),
    (false, b"a .DEFAULT:: b", Some(b".DEFAULT")),
    (false, b"././.POSIX:", Some(b".POSIX")),
    (false, b"a: .POSIX .PHONY", None),
    (false, b"a: b .WAIT l(m)", Some(b".WAIT")),
    (false, b".WAIT: ./a", None),
];

fn is_refused(alloc: Global, row: &RefusedRow) -> Result<bool, NoMemory> {
    let (assigns, text, wanted) = row;
    let refused = refused_in_head(alloc, *assigns, text)?;
    Ok(is_text(&refused, *wanted))
}

#[test]
fn the_leftmost_construct_is_refused(rt: HostRuntime) -> Result<(), Fail> {
    for row in &REFUSED {
        assert!(rt; is_refused(rt.alloc(), row)?);
    }
    Ok(())
}

/// Heads whose targets are refused.
const SPECIAL: [&[u8]; 7] = [
    b".DEFAULT:",
    b".SECONDEXPANSION:",
    b".LOW_RESOLUTION_TIME:",
    b".EXPORT_ALL_VARIABLES:",
    b".ONESHELL:",
    b".POSIX:",
    b".NOTINTERMEDIATE:",
];

fn is_special(alloc: Global, head: &[u8]) -> Result<bool, NoMemory> {
    match refused_in_head(alloc, false, head)? {
        Some(word) => Ok(head.starts_with(word.bytes())),
        None => Ok(false),
    }
}

#[test]
fn every_special_target_is_refused(rt: HostRuntime) -> Result<(), Fail> {
    for head in &SPECIAL {
        assert!(rt; is_special(rt.alloc(), head)?);
    }
    Ok(())
}

/// Texts with their first words.
const FIRST: [(&[u8], &[u8]); 5] = [
    (b" a b", b"a"),
    (b"\ta:\tb", b"a:"),
    (b"$(x y)", b"$(x"),
    (b"a", b"a"),
    (b" \t", b""),
];

#[test]
fn a_first_word_ends_at_a_blank(rt: HostRuntime) {
    for (text, word) in &FIRST {
        assert!(rt; first_word(text) == *word);
        assert!(rt; is_empty(text) == word.is_empty());
    }
}
