//! What is said of a job.
ghost use Rattle.std.specs.Prelude.{◌≡◌, ◌++◌, IfOk, OnOk};
ghost use Rattle.em_recipe.specs.Messages as messages;

use em_base::{Construct, NoMemory, Place, Text};
use em_expand::ExpandNo;
use itoa::Buffer;
use std::alloc::Global;

/// Appends a name in single quotes, as messages have it.
pub fn put_quoted(out: &mut Text, name: &[u8]) -> Result<(), NoMemory>
    ensures { OnOk result (out.new ≡ out.old ++ messages.quoted name.now) }
{
    out.add(b"'")?;
    out.add(name)?;
    out.add(b"'")
}

/// Why a text can't be expanded, as it is told of a job that halts for that.
pub fn fault_text(alloc: Global, no: &ExpandNo) -> Result<Text, NoMemory>
    ensures { IfOk result (λ t. t ≡ messages.fault_text no.now) }
{
    let mut text = Text::new(alloc);
    match no {
        ExpandNo::SelfReference(name) => {
            text.add(b"Recursive variable ")?;
            put_quoted(&mut text, name.bytes())?;
            text.add(b" references itself (eventually)")?;
        }
        ExpandNo::UserError(error) => text.add(error.bytes())?,
        ExpandNo::BadArgument(name) => {
            text.add(b"bad argument of ")?;
            put_quoted(&mut text, name.bytes())?;
        }
        ExpandNo::Unclosed => text.add(b"unterminated reference")?,
        ExpandNo::Refused(name) => text.add(name.bytes())?,
        ExpandNo::Spent => text.add(b"fuel spent")?,
        ExpandNo::TooDeep => text.add(b"too deep")?,
        ExpandNo::NoMemory => {}
    }
    Ok(text)
}

fn put_place(out: &mut Text, place: &Place) -> Result<(), NoMemory>
    ensures { OnOk result (out.new ≡ out.old ++ messages.place_text place.now) }
{
    let mut buffer = Buffer::new();
    out.add(place.file.bytes())?;
    out.add(b":")?;
    out.add(buffer.format(place.line).as_bytes())
}

/// The line of a recipe, with its target.
fn put_line(out: &mut Text, place: &Place, target: &[u8]) -> Result<(), NoMemory>
    ensures { OnOk result (out.new ≡ out.old ++ messages.line_text place.now target.now) }
{
    out.add(b"[")?;
    put_place(out, place)?;
    out.add(b": ")?;
    out.add(target)?;
    out.add(b"]")
}

fn put_error(out: &mut Text, place: &Place, target: &[u8], status: u8) -> Result<(), NoMemory>
    ensures { OnOk result (out.new
        ≡ out.old ++ messages.error_line (messages.line_text place.now target.now) status) }
{
    let mut buffer = Buffer::new();
    put_line(out, place, target)?;
    out.add(b" Error ")?;
    out.add(buffer.format(status).as_bytes())
}

/// Appends that a line of the target's recipe ended with this status, which isn't ignored.
pub fn put_failed(out: &mut Text, place: &Place, target: &[u8], status: u8) -> Result<(), NoMemory>
    ensures { OnOk result (out.new ≡ out.old ++ messages.failed place.now target.now status) }
{
    out.add(b"emake: *** ")?;
    put_error(out, place, target, status)?;
    out.add(b"\n")
}

/// Appends that a line of the target's recipe ended with this status, which is ignored.
pub fn put_ignored(out: &mut Text, place: &Place, target: &[u8], status: u8) -> Result<(), NoMemory>
    ensures { OnOk result (out.new ≡ out.old ++ messages.ignored place.now target.now status) }
{
    out.add(b"emake: ")?;
    put_error(out, place, target, status)?;
    out.add(b" (ignored)\n")
}

/// Appends that the target of a recipe that failed is deleted.
pub fn put_deleted(out: &mut Text, target: &[u8]) -> Result<(), NoMemory>
    ensures { OnOk result (out.new ≡ out.old ++ messages.deleted target.now) }
{
    out.add(b"emake: *** Deleting file ")?;
    put_quoted(out, target)?;
    out.add(b"\n")
}

fn put_needed(out: &mut Text, by: &Option<Text>) -> Result<(), NoMemory>
    ensures { OnOk result (out.new ≡ out.old ++ messages.needed by.now) }
{
    let Some(name) = by else {
        return Ok(());
    };
    out.add(b", needed by ")?;
    put_quoted(out, name.bytes())
}

fn stop_text(keep_going: bool) -> &'static [u8]
    ensures { result.now ≡ messages.stop_text keep_going }
{
    if keep_going { b".\n" } else { b".  Stop.\n" }
}

/// Appends that no rule makes the target, which is needed by this name, or is a goal. Under `-k`
/// the build goes on.
pub fn put_no_rule(
    out: &mut Text,
    target: &[u8],
    by: &Option<Text>,
    keep_going: bool,
) -> Result<(), NoMemory>
    ensures { OnOk result (out.new ≡ out.old ++ messages.no_rule target.now by.now keep_going) }
{
    out.add(b"emake: *** No rule to make target ")?;
    put_quoted(out, target)?;
    put_needed(out, by)?;
    out.add(stop_text(keep_going))
}

fn put_format(out: &mut Text, byte: Option<u8>) -> Result<(), NoMemory>
    ensures { OnOk result (out.new ≡ out.old ++ messages.construct_name (Construct.Format byte)) }
{
    out.add(b"printf %")?;
    match byte {
        Some(byte) => out.add(&[byte]),
        None => Ok(()),
    }
}

fn put_letter(out: &mut Text, utility: &[u8], letter: u8) -> Result<(), NoMemory>
    ensures { OnOk result (out.new
        ≡ out.old ++ messages.construct_name (Construct.Letter utility.now letter)) }
{
    out.add(utility)?;
    out.add(b" -")?;
    out.add(&[letter])
}

/// The name under which a construct is refused.
fn put_construct(out: &mut Text, construct: &Construct) -> Result<(), NoMemory>
    ensures { OnOk result (out.new ≡ out.old ++ messages.construct_name construct.now) }
{
    match construct {
        Construct::Background => out.add(b"&"),
        Construct::Function => out.add(b"function"),
        Construct::HereDocument => out.add(b"<<"),
        Construct::Arithmetic => out.add(b"$(("),
        Construct::Positional => out.add(b"positional parameter"),
        Construct::Descriptor => out.add(b"descriptor"),
        Construct::Redirection => out.add(b"redirection"),
        Construct::Depth => out.add(b"depth"),
        Construct::Eval => out.add(b"eval"),
        Construct::Submake => out.add(b"emake"),
        Construct::Command(name) => out.add(name.bytes()),
        Construct::Letter(utility, letter) => put_letter(out, utility.bytes(), *letter),
        Construct::Format(byte) => put_format(out, *byte),
        Construct::MakeName(name) => out.add(name.bytes()),
    }
}

/// Appends that a line of the target's recipe has a construct that is refused, which ends the
/// build.
pub fn put_refused(
    out: &mut Text,
    place: &Place,
    target: &[u8],
    construct: &Construct,
) -> Result<(), NoMemory>
    ensures { OnOk result (out.new
        ≡ out.old ++ messages.refused place.now target.now construct.now) }
{
    out.add(b"emake: *** ")?;
    put_line(out, place, target)?;
    out.add(b" Refused: ")?;
    put_construct(out, construct)?;
    out.add(b".  Stop.\n")
}

/// Appends that the job's fuel ended in a line of the target's recipe, which ends the build.
pub fn put_spent(out: &mut Text, place: &Place, target: &[u8]) -> Result<(), NoMemory>
    ensures { OnOk result (out.new ≡ out.old ++ messages.spent place.now target.now) }
{
    out.add(b"emake: *** ")?;
    put_line(out, place, target)?;
    out.add(b" Fuel spent.  Stop.\n")
}

/// Appends that the job's fuel ended before a line of the target's recipe was begun, which ends the
/// build.
pub fn put_spent_early(out: &mut Text, target: &[u8]) -> Result<(), NoMemory>
    ensures { OnOk result (out.new ≡ out.old ++ messages.spent_early target.now) }
{
    out.add(b"emake: *** [")?;
    out.add(target)?;
    out.add(b"] Fuel spent.  Stop.\n")
}

/// Appends that the expansion of a line failed for this reason, which ends the build.
pub fn put_halted(out: &mut Text, place: &Place, text: &[u8]) -> Result<(), NoMemory>
    ensures { OnOk result (out.new ≡ out.old ++ messages.halted place.now text.now) }
{
    put_place(out, place)?;
    out.add(b": *** ")?;
    out.add(text)?;
    out.add(b".  Stop.\n")
}
