use crate::written::{add_list, recipe, rule as bare_rule};
use em_base::{NoMemory, Text};
use em_rules::{Book, BookNo, Names, Rule, Special, undotted};
use std::alloc::Global;
use std::test::Fail;

/// Targets, target pattern, normal and order-only prerequisites and the recipe of a rule; `-` where
/// there is no target pattern or recipe.
pub type Row = [&'static [u8]; 5];

/// Makes a rule a static pattern rule.
fn add_form(alloc: Global, rule: &mut Rule, form: &[u8]) -> Result<(), NoMemory> {
    if form != b"-".as_slice() {
        rule.form = Some(Text::from_slice(alloc, form)?);
        rule.pattern = false;
    }
    Ok(())
}

fn add_recipe(alloc: Global, rule: &mut Rule, text: &[u8]) -> Result<(), NoMemory> {
    if text != b"-".as_slice() {
        rule.recipe = Some(recipe(alloc, text)?);
    }
    Ok(())
}

/// The ordinary rule of a row.
pub fn rule(alloc: Global, row: &Row) -> Result<Rule, NoMemory> {
    let [targets, form, normal, order, lines] = *row;
    let mut rule = bare_rule(alloc, [targets, normal, order])?;
    add_form(alloc, &mut rule, form)?;
    add_recipe(alloc, &mut rule, lines)?;
    Ok(rule)
}

fn add(alloc: Global, book: &mut Book, row: &Row) -> Result<(), BookNo> {
    let rule = rule(alloc, row)?;
    book.add(rule)
}

fn book(alloc: Global, rows: &[Row]) -> Result<Book, BookNo> {
    let mut book = Book::new(alloc)?;
    for row in rows {
        add(alloc, &mut book, row)?;
    }
    Ok(book)
}

/// Appends a rule as `targets: normal | order`, with a line's end.
fn add_shown(alloc: Global, text: &mut Text, rule: &Rule) -> Result<(), NoMemory> {
    add_list(alloc, text, rule.targets.items(), b": ")?;
    add_list(alloc, text, rule.normal.items(), b" | ")?;
    add_list(alloc, text, rule.order.items(), b"\n")
}

/// The rules, a line each.
pub fn shown(alloc: Global, rules: &[Rule]) -> Result<Text, NoMemory> {
    let mut text = Text::new(alloc);
    for rule in rules {
        add_shown(alloc, &mut text, rule)?;
    }
    Ok(text)
}

/// Names, each with what is known of it.
const DOTS: [(&[u8], &[u8]); 9] = [
    (b"a", b"a"),
    (b"./a", b"a"),
    (b"././d/./a", b"d/./a"),
    (b"./", b""),
    (b"./.", b"."),
    (b".", b"."),
    (b"../a", b"../a"),
    (b".a", b".a"),
    (b"", b""),
];

#[test]
fn names_lose_their_dots(rt: HostRuntime) {
    for (name, want) in &DOTS {
        assert_eq!(rt; undotted(name), *want);
    }
}

const STATIC: [(Row, &[u8]); 7] = [
    (
        [b"a.o b.o", b"%.o", b"%.c x.h", b"", b"r"],
        b"a.o: a.c x.h | \nb.o: b.c x.h | \n",
    ),
    ([b".o", b"%.o", b"%.c", b"", b"r"], b".o: .c | \n"),
    ([b"./a.o", b"%.o", b"./%.c", b"", b"r"], b"a.o: a.c | \n"),
    (
        [b"d/a.o", b"d/%.o", b"%.c d/%.%", b"", b"r"],
        b"d/a.o: a.c d/a.% | \n",
    ),
    ([b"a", b"a", b"x%", b"", b"r"], b"a: x | \n"),
    ([b"", b"%.o", b"%.c", b"", b"r"], b""),
    ([b"./a b", b"-", b"././c", b"./d", b"-"], b"a b: c | d\n"),
];

/// What a rule comes to.
fn come_to(alloc: Global, row: &Row) -> Result<Text, BookNo> {
    let mut book = Book::new(alloc)?;
    add(alloc, &mut book, row)?;
    Ok(shown(alloc, book.rules.items())?)
}

#[test]
fn each_target_of_a_static_pattern_rule_has_its_own(rt: HostRuntime) -> Result<(), Fail> {
    for (row, want) in &STATIC {
        let text = come_to(rt.alloc(), row)?;
        assert_eq!(rt; text.bytes(), *want);
    }
    Ok(())
}

const UNMATCHED: [(Row, &[u8]); 4] = [
    ([b"a.x", b"%.o", b"%.c", b"", b"r"], b"a.x"),
    ([b"a.o b.x c.y", b"%.o", b"%.c", b"", b"r"], b"b.x"),
    ([b"./a.o ./b", b"%.o %.x", b"%.c", b"", b"r"], b"a.o"),
    ([b"a", b"", b"", b"", b"r"], b"a"),
];

/// Whether a rule was refused for this target, which its target pattern doesn't match.
fn names_target(added: &Result<(), BookNo>, want: &[u8]) -> bool {
    match added {
        Err(BookNo::Static(target)) => target.bytes() == want,
        _ => false,
    }
}

/// Whether the rule is refused for this target, and the book has no rule then.
fn is_unmatched(alloc: Global, row: &Row, want: &[u8]) -> Result<bool, NoMemory> {
    let mut book = Book::new(alloc)?;
    let added = add(alloc, &mut book, row);
    Ok(names_target(&added, want) && book.rules.is_empty())
}

#[test]
fn a_target_must_match_the_target_pattern(rt: HostRuntime) -> Result<(), Fail> {
    for (row, want) in &UNMATCHED {
        assert!(rt; is_unmatched(rt.alloc(), row, want)?);
    }
    Ok(())
}

const PATTERNS: [Row; 8] = [
    [b"%.o", b"-", b"%.c", b"", b"first"],
    [b"%.o", b"-", b"%.s", b"", b"r"],
    [b"%.o", b"-", b"%.c", b"x", b"r"],
    [b"%.o", b"-", b"%.c x", b"", b"r"],
    [b"%.o", b"-", b"./%.c", b"", b"second"],
    [b"%.o", b"-", b"%.c", b"", b"-"],
    [b"%.x", b"-", b"", b"", b"-"],
    [b"%.o", b"-", b"%.c", b"", b"third"],
];

#[test]
fn a_pattern_rule_without_a_recipe_takes_out_its_like(rt: HostRuntime) -> Result<(), Fail> {
    let book = book(rt.alloc(), &PATTERNS)?;
    assert!(rt; book.rules.is_empty());
    let text = shown(rt.alloc(), book.patterns.items())?;
    let want = b"%.o: %.s | \n%.o: %.c | x\n%.o: %.c x | \n%.o: %.c | \n";
    assert_eq!(rt; text.bytes(), want.as_slice());
    Ok(())
}

const RULES: [Row; 7] = [
    [b".PHONY", b"-", b"all", b"clean", b"-"],
    [b"all", b"-", b"a b", b"", b"-"],
    [b"a b a", b"-", b"c", b"d", b"r"],
    [b"%.o", b"-", b"%.c", b"", b"r"],
    [b"x.o y.o", b"%.o", b"%.c", b"", b"r"],
    [b"a", b"-", b"e", b"", b""],
    [b"a", b"-", b"f", b"", b"-"],
];

/// A name, the numbers of its rules, its recipe's, and whether it is mentioned and phony.
type NameRow = (&'static [u8], &'static [usize], Option<usize>, bool, bool);

const ANSWERS: [NameRow; 12] = [
    (b".PHONY", &[0], None, true, false),
    (b"all", &[1], None, true, true),
    (b"clean", &[], None, true, true),
    (b"a", &[2, 5, 6], Some(5), true, false),
    (b"b", &[2], Some(2), true, false),
    (b"c", &[], None, true, false),
    (b"d", &[], None, true, false),
    (b"x.o", &[3], Some(3), true, false),
    (b"y.o", &[4], Some(4), true, false),
    (b"y.c", &[], None, true, false),
    (b"%.c", &[], None, false, false),
    (b"q", &[], None, false, false),
];

/// Whether the rules of a name have these numbers.
fn has_rules(alloc: Global, book: &Book, name: &[u8], numbers: &[usize]) -> Result<bool, NoMemory> {
    let found = book.rules.rules_of(alloc, name)?;
    Ok(found.items() == numbers)
}

/// Whether all else of a name is as wanted.
fn is_known(book: &Book, known: &NameRow) -> bool {
    let (name, numbers, recipe, mentioned, phony) = known;
    book.rules.recipe_rule(name) == *recipe
        && book.rules.is_target(name) != numbers.is_empty()
        && book.rules.is_mentioned(name) == *mentioned
        && book.rules.is_phony(name) == *phony
}

#[test]
fn rules_are_found_by_name(rt: HostRuntime) -> Result<(), Fail> {
    let book = book(rt.alloc(), &RULES)?;
    for known in &ANSWERS {
        assert!(rt; has_rules(rt.alloc(), &book, known.0, known.1)?);
        assert!(rt; is_known(&book, known));
    }
    Ok(())
}

/// Whether the rule has a recipe that is equal to its copy.
fn has_copy(alloc: Global, rule: &Rule) -> Result<bool, NoMemory> {
    let Some(lines) = &rule.recipe else {
        return Ok(false);
    };
    let copy = lines.copy(alloc)?;
    Ok(copy == *lines)
}

#[test]
fn a_rule_is_found_by_number(rt: HostRuntime) -> Result<(), Fail> {
    let book = book(rt.alloc(), &RULES)?;
    assert_eq!(rt; book.rules.len(), 7);
    assert!(rt; book.rules.get(7).is_none());
    let Some(found) = book.rules.get(3) else {
        return Err(Fail::from("no rule"));
    };
    assert_eq!(rt; found.stem(b"x.o"), b"x".as_slice());
    assert!(rt; has_copy(rt.alloc(), found)?);
    Ok(())
}

/// Appends which names these are.
fn add_covered(alloc: Global, text: &mut Text, names: &Names) -> Result<(), NoMemory> {
    match names {
        Names::All => text.add(b"all|"),
        Names::Listed(names) => add_list(alloc, text, names.items(), b"|"),
    }
}

/// Appends the phony, silent and ignored names, and whether targets are deleted.
fn add_special(alloc: Global, text: &mut Text, special: &Special) -> Result<(), NoMemory> {
    add_list(alloc, text, special.phony.items(), b"|")?;
    add_covered(alloc, text, &special.silent)?;
    add_covered(alloc, text, &special.ignore)?;
    text.add(if special.delete_on_error {
        b"delete"
    } else {
        b"keep"
    })
}

/// What the rules' special targets say.
fn special_text(alloc: Global, rows: &[Row]) -> Result<Text, BookNo> {
    let special = book(alloc, rows)?.special(alloc)?;
    let mut text = Text::new(alloc);
    add_special(alloc, &mut text, &special)?;
    Ok(text)
}

const SPECIAL: [Row; 6] = [
    [b".PHONY", b"-", b"p", b"q", b"-"],
    [b".SILENT .DELETE_ON_ERROR", b"-", b"", b"", b"-"],
    [b"a", b"-", b".IGNORE", b"", b"-"],
    [b".PHONY", b"-", b"p r", b"", b"-"],
    [b".IGNORE", b"-", b"", b"", b"-"],
    [b".IGNORE", b"-", b"s", b"t", b"-"],
];

#[test]
fn special_targets_speak_of_names(rt: HostRuntime) -> Result<(), Fail> {
    for (rows, want) in [
        (SPECIAL.as_slice(), b"p q p r|all|s t|delete".as_slice()),
        (&SPECIAL[..1], b"p q|||keep"),
        (&SPECIAL[2..5], b"p r||all|keep"),
    ] {
        let text = special_text(rt.alloc(), rows)?;
        assert_eq!(rt; text.bytes(), want);
    }
    Ok(())
}
