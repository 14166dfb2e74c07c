//! Why there is no build.
ghost use Rattle.std.specs.Prelude.{◌≡◌, ◌++◌, IfOk};
ghost use Rattle.em_closing.specs.Refusals as refusals;
ghost use Rattle.em_recipe.specs.Messages.{quoted};

use em_base::{NoMemory, Place, Text};
use em_cmdline::WordNo;
use em_plan::PlanNo;
use em_reading::{MakefileFault, RuleNo};
use em_recipe::{fault_text, put_halted, put_quoted};
use std::alloc::Global;

/// A refusal that ends the run.
pub fn stopped(alloc: Global, text: &[u8]) -> Result<Text, NoMemory>
    ensures { IfOk result (λ t. t ≡ refusals.stopped text.now) }
{
    let mut out = Text::from_slice(alloc, b"emake: *** ")?;
    out.add(text)?;
    out.add(b".  Stop.\n")?;
    Ok(out)
}

/// A text with a name in quotes behind it.
fn of_name(alloc: Global, text: &[u8], name: &[u8]) -> Result<Text, NoMemory>
    ensures { IfOk result (λ t. t ≡ text.now ++ quoted name.now) }
{
    let mut out = Text::from_slice(alloc, text)?;
    put_quoted(&mut out, name)?;
    Ok(out)
}

fn word_text(alloc: Global, no: &WordNo) -> Result<Text, NoMemory>
    ensures { IfOk result (λ t. t ≡ refusals.word_text no.now) }
{
    match no {
        WordNo::Unknown => Text::from_slice(alloc, b"bad words"),
        WordNo::Missing => Text::from_slice(alloc, b"missing -I"),
        WordNo::BadNumber(word) => of_name(alloc, b"bad number ", word.bytes()),
        WordNo::BadName(word) => of_name(alloc, b"bad name ", word.bytes()),
        WordNo::SameName(word) => of_name(alloc, b"same file ", word.bytes()),
        WordNo::NoMemory => Ok(Text::new(alloc)),
    }
}

/// Why the words order nothing.
pub fn word_line(alloc: Global, no: &WordNo) -> Result<Text, NoMemory>
    ensures { IfOk result (λ t. t ≡ refusals.word_line no.now) }
{
    stopped(alloc, word_text(alloc, no)?.bytes())
}

/// `-C` names no directory of the tree.
pub fn dir_line(alloc: Global, name: &[u8]) -> Result<Text, NoMemory>
    ensures { IfOk result (λ t. t ≡ refusals.dir_line name.now) }
{
    let mut text = Text::from_slice(alloc, name)?;
    text.add(b": no such directory")?;
    stopped(alloc, text.bytes())
}

fn rule_text(alloc: Global, no: &RuleNo) -> Result<Text, NoMemory>
    ensures { IfOk result (λ t. t ≡ refusals.rule_text no.now) }
{
    match no {
        RuleNo::Recipe => Text::from_slice(alloc, b"recipe commences before first target"),
        RuleNo::Static(target) => {
            let mut text = of_name(alloc, b"target ", target.bytes())?;
            text.add(b" doesn't match the target pattern")?;
            Ok(text)
        }
        RuleNo::Group(target) => {
            let mut text = of_name(alloc, b"grouped target ", target.bytes())?;
            text.add(b" needs a recipe")?;
            Ok(text)
        }
        RuleNo::Mixed(target) => {
            let mut text = of_name(alloc, b"target file ", target.bytes())?;
            text.add(b" has both : and :: entries")?;
            Ok(text)
        }
    }
}

/// Two texts joined.
fn joined(alloc: Global, first: &[u8], last: &[u8]) -> Result<Text, NoMemory>
    ensures { IfOk result (λ t. t ≡ first.now ++ last.now) }
{
    let mut text = Text::from_slice(alloc, first)?;
    text.add(last)?;
    Ok(text)
}

fn read_text(alloc: Global, no: &MakefileFault) -> Result<Text, NoMemory>
    ensures { IfOk result (λ t. t ≡ refusals.read_text no.now) }
{
    match no {
        MakefileFault::Separator => Text::from_slice(alloc, b"missing separator"),
        MakefileFault::Conditional => Text::from_slice(alloc, b"extraneous conditional"),
        MakefileFault::Endless => Text::from_slice(alloc, b"missing endif"),
        MakefileFault::Include(name) => joined(alloc, name.bytes(), b": absent"),
        MakefileFault::Expand(no) => fault_text(alloc, no),
        MakefileFault::Define => Text::from_slice(alloc, b"missing endef"),
        MakefileFault::Refused(name) => joined(alloc, b"refused: ", name.bytes()),
        MakefileFault::Spent => Text::from_slice(alloc, b"fuel spent"),
        MakefileFault::Limit => Text::from_slice(alloc, b"limit"),
        MakefileFault::Rule(no) => rule_text(alloc, no),
    }
}

/// Why the makefiles can't be read, at its place.
pub fn fault_line(alloc: Global, place: &Place, no: &MakefileFault) -> Result<Text, NoMemory>
    ensures { IfOk result (λ t. t ≡ refusals.fault_line place.now no.now) }
{
    let text = read_text(alloc, no)?;
    let mut out = Text::new(alloc);
    put_halted(&mut out, place, text.bytes())?;
    Ok(out)
}

fn no_targets(found: bool) -> &'static [u8]
    ensures { result.now ≡ refusals.no_targets found }
{
    if found {
        b"No targets"
    } else {
        b"No targets specified and no makefile found"
    }
}

fn plan_text(found: bool, no: PlanNo) -> &'static [u8]
    ensures { result.now ≡ refusals.plan_text found no }
{
    match no {
        PlanNo::NoTargets => no_targets(found),
        PlanNo::TooManyJobs => b"Too many jobs",
        PlanNo::Spent | PlanNo::NoMemory => b"",
    }
}

/// Why there is no plan; `found` tells whether there was a makefile.
pub fn plan_line(alloc: Global, found: bool, no: PlanNo) -> Result<Text, NoMemory>
    ensures { IfOk result (λ t. t ≡ refusals.plan_line found no) }
{
    stopped(alloc, plan_text(found, no))
}
