//! Makefiles over a small tree, read whole. What is read is shown as a text: what was said; each
//! rule as `targets: normal|order`, with its recipe lines in braces; `=` and the default goal; `V=`
//! and the text of `V`, if it is defined, with a `+` before where it is exported. A fault stands
//! behind `*** ` with its place. What is expected is what GNU make reads, or what docs/FORMATS.md
//! refuses.
ghost use Rattle.std.specs.Prelude.{◌≡◌, None, IfOk};
ghost use Rattle.em_path.specs.Paths.{root_text};
ghost use Rattle.em_path.specs.Reading.{read_fault};

use em_base::{NoMemory, Place, Seq, Text};
use em_cmdline::{HistoryMode, Order};
use em_expand::ExpandNo;
use em_reader::{MakefileFault, ReadNo, RuleNo, read_makefiles};
use em_rules::{Book, RecipeLine, Rule};
use em_states::{add, file};
use em_tree::{Outcomes, State, Tree};
use em_wordlist::join_texts;
use itoa::Buffer;
use std::alloc::Global;
use std::test::Fail;

mod faults;
mod good;
mod orders;
mod rounds;

/// The files beside the makefile.
const FILES: [(&[u8], &[u8]); 9] = [
    (b"/a.c", b""),
    (b"/b.c", b""),
    (b"/inc.mk", b"X = inc\n"),
    (b"/open.mk", b"ifdef X\n"),
    (b"/close.mk", b"endif\n"),
    (b"/bad.mk", b"\nbad\n"),
    (b"/half.mk", b"define V\n"),
    (b"/self.mk", b"include self.mk\n"),
    (
        b"/deep.mk",
        b"N := x$(N)\nifneq ($(N),$(MAX))\ninclude deep.mk\nendif\n",
    ),
];

fn add_files(alloc: Global, tree: &mut Tree) -> Result<(), Fail> {
    for (path, bytes) in &FILES {
        add(alloc, tree, path, file(alloc, bytes, 5)?)?;
    }
    Ok(())
}

/// A state with these files and a makefile of this name.
fn state(alloc: Global, name: &[u8], makefile: &[u8]) -> Result<State, Fail> {
    let mut tree = Tree::new(alloc, 5)?;
    add(alloc, &mut tree, name, file(alloc, makefile, 5)?)?;
    add_files(alloc, &mut tree)?;
    Ok(State {
        tree,
        outcomes: Outcomes::new(alloc),
    })
}

/// The order of no words but the image's.
fn order(alloc: Global) -> Result<Order, NoMemory>
    ensures { IfOk result (λ o. read_fault root_text o.dir ≡ None) }
{
    Ok(Order {
        image: None,
        makefile: None,
        dir: Text::from_slice(alloc, b"/")?,
        keep_going: false,
        dry: false,
        question: false,
        silent: false,
        ignore: false,
        always: false,
        workers: 1,
        fuel: 1_000_000,
        history: None,
        mode: HistoryMode::Merge,
        report: None,
        generate: None,
        explain: None,
        agents: 1,
        goals: Seq::new(alloc),
        assigned: Seq::new(alloc),
    })
}

/// Appends names with a blank between two, and a text behind them.
fn add_list(alloc: Global, text: &mut Text, names: &[Text], after: &[u8]) -> Result<(), NoMemory> {
    let joined = join_texts(alloc, names)?;
    text.add(joined.bytes())?;
    text.add(after)
}

fn add_line(text: &mut Text, line: &RecipeLine) -> Result<(), NoMemory> {
    text.add(b"{")?;
    text.add(line.text.bytes())?;
    text.add(b"}")
}

fn add_lines(text: &mut Text, lines: &[RecipeLine]) -> Result<(), NoMemory> {
    for line in lines {
        add_line(text, line)?;
    }
    Ok(())
}

fn add_recipe(text: &mut Text, rule: &Rule) -> Result<(), NoMemory> {
    if let Some(lines) = &rule.recipe {
        add_lines(text, lines.items())?;
    }
    text.add(b"\n")
}

/// Appends a rule.
fn add_rule(alloc: Global, text: &mut Text, rule: &Rule) -> Result<(), NoMemory> {
    add_list(alloc, text, rule.targets.items(), b": ")?;
    add_list(alloc, text, rule.normal.items(), b"|")?;
    add_list(alloc, text, rule.order.items(), b"")?;
    add_recipe(text, rule)
}

fn add_rules(alloc: Global, text: &mut Text, rules: &[Rule]) -> Result<(), NoMemory> {
    for rule in rules {
        add_rule(alloc, text, rule)?;
    }
    Ok(())
}

fn add_goal(text: &mut Text, book: &Book) -> Result<(), NoMemory> {
    text.add(b"=")?;
    match &book.default_goal {
        Some(goal) => text.add(goal.bytes()),
        None => Ok(()),
    }
}

fn add_variable(text: &mut Text, book: &Book) -> Result<(), NoMemory> {
    let Some(v) = book.vars.get(b"V") else {
        return Ok(());
    };
    text.add(if v.exported { b"+V=" } else { b" V=" })?;
    text.add(v.text.bytes())
}

/// Appends what was read.
fn add_book(alloc: Global, text: &mut Text, book: &Book) -> Result<(), NoMemory> {
    add_rules(alloc, text, book.rules.items())?;
    add_rules(alloc, text, book.patterns.items())?;
    add_goal(text, book)?;
    add_variable(text, book)
}

/// The name of a fault of an expansion, and what it names.
fn expand_text(no: &ExpandNo) -> (&'static [u8], &[u8]) {
    match no {
        ExpandNo::SelfReference(name) => (b"self ", name.bytes()),
        ExpandNo::UserError(text) => (b"error ", text.bytes()),
        ExpandNo::BadArgument(name) => (b"argument ", name.bytes()),
        ExpandNo::Unclosed => (b"unclosed", b""),
        ExpandNo::TooDeep => (b"too deep", b""),
        _ => (b"expand", b""),
    }
}

/// The name of a fault, and what it names.
fn fault_text(fault: &MakefileFault) -> (&'static [u8], &[u8]) {
    match fault {
        MakefileFault::Separator => (b"separator", b""),
        MakefileFault::Conditional => (b"conditional", b""),
        MakefileFault::Endless => (b"no endif", b""),
        MakefileFault::Include(name) => (b"include ", name.bytes()),
        MakefileFault::Expand(no) => expand_text(no),
        MakefileFault::Define => (b"define", b""),
        MakefileFault::Refused(name) => (b"refused ", name.bytes()),
        MakefileFault::Spent => (b"spent", b""),
        MakefileFault::Limit => (b"limit", b""),
        MakefileFault::Rule(RuleNo::Recipe) => (b"recipe", b""),
        MakefileFault::Rule(RuleNo::Static(name)) => (b"static ", name.bytes()),
        MakefileFault::Rule(RuleNo::Group(name)) => (b"group ", name.bytes()),
        MakefileFault::Rule(RuleNo::Mixed(name)) => (b"mixed ", name.bytes()),
    }
}

/// Appends a place.
fn add_place(text: &mut Text, place: &Place) -> Result<(), NoMemory> {
    let mut buffer = Buffer::new();
    text.add(b"*** ")?;
    text.add(place.file.bytes())?;
    text.add(b":")?;
    text.add(buffer.format(place.line).as_bytes())?;
    text.add(b": ")
}

/// Appends a fault with its place.
fn add_fault(text: &mut Text, no: &ReadNo) -> Result<(), NoMemory> {
    let ReadNo::At(place, fault) = no else {
        return Err(NoMemory);
    };
    add_place(text, place)?;
    let (name, detail) = fault_text(fault);
    text.add(name)?;
    text.add(detail)
}

/// Appends what the order reads in the state.
fn add_read(alloc: Global, text: &mut Text, state: &State, order: &Order) -> Result<(), NoMemory>
    requires { read_fault root_text order.now.dir ≡ None }
{
    match read_makefiles(alloc, state, order, text) {
        Ok(book) => add_book(alloc, text, &book),
        Err(no) => add_fault(text, &no),
    }
}

/// What the order reads in the state, as a text.
fn shown(alloc: Global, state: &State, order: &Order) -> Result<Text, NoMemory>
    requires { read_fault root_text order.now.dir ≡ None }
{
    let mut said = Text::new(alloc);
    add_read(alloc, &mut said, state, order)?;
    Ok(said)
}

/// Whether this is what the order reads, where a makefile of this name stands.
fn is_read(
    alloc: Global,
    order: &Order,
    makefile: (&[u8], &[u8]),
    wanted: &[u8],
) -> Result<bool, Fail>
    requires { read_fault root_text order.now.dir ≡ None }
{
    let (name, text) = makefile;
    let state = state(alloc, name, text)?;
    let text = shown(alloc, &state, order)?;
    Ok(text.bytes() == wanted)
}

/// A makefile, and what is read of it.
type Row = (&'static [u8], &'static [u8]);

/// What is read of each makefile is what its row says.
fn compare(alloc: Global, rows: &[Row]) -> Result<(), Fail> {
    let order = order(alloc)?;
    for (makefile, wanted) in rows {
        if !is_read(alloc, &order, (b"/Makefile", makefile), wanted)? {
            return Err(Fail::from("another text"));
        }
    }
    Ok(())
}
