//! What a function gives for arguments that are expanded, put behind a text.
ghost use Rattle.std.specs.Prelude.{◌≡◌, ◌++◌, [], ◌∷◌, false, Ok, IfOk, unwrap_or};
ghost use Rattle.em_view.specs.Performs.{is_free as free_in};
ghost use Rattle.em_view.specs.Steps.{Does, Works};
ghost use Rattle.em_textfn.specs.Functions.{text_function};
ghost use Rattle.em_namefn.specs.Functions.{name_function};
ghost use Rattle.em_expand.specs.declared.spoken.Spoken.{Spoken};
ghost use Rattle.em_expand.specs.Desks.{is_free, pay};
ghost use Rattle.em_expand.specs.Scopes.{frames_of};
ghost use Rattle.em_expand.specs.Table.{row_of};
ghost use Rattle.em_expand.specs.Calls.{substitution_seen};
ghost use Rattle.em_expand.specs.Values.{warned};
ghost use Rattle.em_expand.specs.Expansion.{setting_of, enough, text_value, substituted, put_wildcard, say, keep, put_plain};

use crate::calls::{Substitution, with_percent};
use crate::no::{ExpandNo, bad_argument, user_error};
use crate::scope::{Scope, nth};
use crate::spoken::Spoken;
use crate::table::{FunctionRow, SimpleFunction};
use crate::text::Setting;
use crate::values::{flavour_of, origin_of, text_of};
use em_base::{NoMemory, Place, Text};
use em_namefn::{name_function, wildcard};
use em_path::Path;
use em_textfn::{TextfnNo, text_function};
use em_view::{Desk, View};
use itoa::Buffer;
use std::alloc::Global;

/// Takes so many units.
pub(crate) fn pay<V: View>(desk: &mut Desk<V>, units: u64) -> Result<(), ExpandNo>
    ensures { (s : Spoken) → Does is_free V.tells desk.old desk.new s s result (pay units) }
{
    Ok(desk.take(units)?)
}

/// The text with the bytes behind it.
pub(crate) fn put(out: Text, bytes: &[u8]) -> Result<Text, ExpandNo>
    ensures { free_in is_free result ≡ false → result ≡ Ok (out ++ bytes.now) }
{
    let mut out = out;
    out.add(bytes)?;
    Ok(out)
}

/// A function on texts and words.
fn text_value(alloc: Global, name: &[u8], args: &[Text], out: Text) -> Result<Text, ExpandNo>
    ensures { free_in is_free result ≡ false →
        result ≡ text_value name.now (text_function name.now args.now) out }
{
    match text_function(alloc, name, args) {
        Ok(Some(value)) => put(out, value.bytes()),
        Ok(None) => Ok(out),
        Err(TextfnNo::BadArgument) => Err(bad_argument(alloc, name)),
        Err(TextfnNo::NoMemory) => Err(ExpandNo::NoMemory),
    }
}

/// `x:a=b`, for the value of x.
pub(crate) fn substituted(
    alloc: Global,
    parts: &Substitution,
    value: Text,
    out: Text,
) -> Result<Text, ExpandNo>
    ensures { free_in is_free result ≡ false →
        result ≡ substituted (substitution_seen parts.now) value out }
{
    let mut args = Vec::new(alloc);
    args.push(with_percent(alloc, parts.from, parts.from)?)?;
    args.push(with_percent(alloc, parts.from, parts.to)?)?;
    args.push(value)?;
    text_value(alloc, b"patsubst", &args, out)
}

/// A function on file names.
fn name_value(alloc: Global, name: &[u8], args: &[Text], out: Text) -> Result<Text, ExpandNo>
    ensures { free_in is_free result ≡ false →
        result ≡ Ok (out ++ unwrap_or (name_function name.now args.now) []) }
{
    match name_function(alloc, name, args)? {
        Some(value) => put(out, value.bytes()),
        None => Ok(out),
    }
}

fn put_wildcard<V: View>(
    alloc: Global,
    cwd: &Path,
    patterns: &[u8],
    desk: &mut Desk<V>,
    out: Text,
) -> Result<Text, ExpandNo>
    ensures { (s : Spoken) → Does is_free V.tells desk.old desk.new s s result
        (put_wildcard cwd.now patterns.now out) }
{
    let names = wildcard(alloc, patterns, cwd, desk)?;
    put(out, names.bytes())
}

/// `info`: says a line.
fn info(spoken: &mut Spoken, text: &[u8], out: Text) -> Result<Text, ExpandNo>
    ensures { Works is_free spoken.old spoken.new result (say (text.now ++ 10 ∷ []) out) }
{
    spoken.said.add(text)?;
    spoken.said.add(b"\n")?;
    Ok(out)
}

/// FILE:LINE: and the text, as a line.
fn warned(alloc: Global, place: &Place, text: &[u8]) -> Result<Text, NoMemory>
    ensures { IfOk result (λ t. t ≡ warned place.now text.now) }
{
    let mut buffer = Buffer::new();
    let mut line = place.file.copy(alloc)?;
    line.add(b":")?;
    line.add(buffer.format(place.line).as_bytes())?;
    line.add(b": ")?;
    line.add(text)?;
    line.add(b"\n")?;
    Ok(line)
}

/// `warning`: says a line with its place.
fn warn(
    alloc: Global,
    place: &Place,
    spoken: &mut Spoken,
    text: &[u8],
    out: Text,
) -> Result<Text, ExpandNo>
    ensures { Works is_free spoken.old spoken.new result (say (warned place.now text.now) out) }
{
    let line = warned(alloc, place, text)?;
    spoken.said.add(line.bytes())?;
    Ok(out)
}

/// `eval`: keeps the text.
fn keep(alloc: Global, spoken: &mut Spoken, text: &[u8], out: Text) -> Result<Text, ExpandNo>
    ensures { Works is_free spoken.old spoken.new result (keep text.now out) }
{
    spoken.evals.push(Text::from_slice(alloc, text)?)?;
    Ok(out)
}

/// What a function gives for its arguments.
fn put_plain<V: View>(
    alloc: Global,
    setting: &Setting,
    scope: &Scope,
    desk: &mut Desk<V>,
    spoken: &mut Spoken,
    name: &[u8],
    function: SimpleFunction,
    args: &[Text],
    out: Text,
) -> Result<Text, ExpandNo>
    ensures { Does is_free V.tells desk.old desk.new spoken.old spoken.new result
        (put_plain (setting_of setting.now) (frames_of scope.now) name.now function args.now out) }
{
    let first = nth(0, args);
    match function {
        SimpleFunction::Text => text_value(alloc, name, args, out),
        SimpleFunction::Name => name_value(alloc, name, args, out),
        SimpleFunction::Wildcard => put_wildcard(alloc, setting.cwd, first, desk, out),
        SimpleFunction::Value => put(out, text_of(setting.vars, scope, first)),
        SimpleFunction::Origin => put(out, origin_of(setting.vars, scope, first)),
        SimpleFunction::Flavour => put(out, flavour_of(setting.vars, scope, first)),
        SimpleFunction::Eval => keep(alloc, spoken, first, out),
        SimpleFunction::Info => info(spoken, first, out),
        SimpleFunction::Warning => warn(alloc, setting.place, spoken, first, out),
        SimpleFunction::Error => Err(user_error(alloc, first)),
    }
}

/// The same, where there are enough arguments.
pub(crate) fn put_value<V: View>(
    alloc: Global,
    setting: &Setting,
    scope: &Scope,
    desk: &mut Desk<V>,
    spoken: &mut Spoken,
    row: &FunctionRow,
    function: SimpleFunction,
    args: &[Text],
    out: Text,
) -> Result<Text, ExpandNo>
    ensures { Does is_free V.tells desk.old desk.new spoken.old spoken.new result
        (enough (row_of row.now) args.now (put_plain (setting_of setting.now)
        (frames_of scope.now) row.now.name.now function args.now out)) }
{
    if args.len() < row.least {
        return Err(bad_argument(alloc, row.name));
    }
    put_plain(
        alloc, setting, scope, desk, spoken, row.name, function, args, out,
    )
}
