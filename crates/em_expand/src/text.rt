//! The expansion of a text.
ghost use Rattle.std.specs.Prelude.{[], true, map};
ghost use Rattle.em_view.specs.Steps.{Does};
ghost use Rattle.em_expand.specs.Desks.{is_free};
ghost use Rattle.em_expand.specs.Layered.{entries_of};
ghost use Rattle.em_expand.specs.Scopes.{frames_of, nth};
ghost use Rattle.em_expand.specs.Table.{row_of};
ghost use Rattle.em_expand.specs.Expansion as steps;
ghost use Rattle.em_expand.specs.Expansion.{expansion, setting_of, expand_text, reference, evaluate, put_part, put_call, named, variable, enough, choose, until, foreach, turns, arguments};

use crate::calls::{call_of, substitution_of};
use crate::layers::Layers;
use crate::no::{ExpandNo, bad_argument, refused, self_reference};
use crate::pick::{cost, ends, length_of, nth, picked};
use crate::put::{pay, put, put_value, substituted};
use crate::scope::{Scope, argument, is_open};
use crate::spoken::Spoken;
use crate::table::{FunctionKind, FunctionRow};
use crate::values::{Meaning, meaning_of};
use em_base::{Place, Seq, Text, trim};
use em_path::Path;
use em_refs::{Bracket, Part, Parted, parts_before};
use em_view::{Desk, View};
use em_wordlist::texts;
use std::alloc::Global;

/// What stays the same throughout an expansion.
#[derive(Clone, Copy)]
pub(crate) struct Setting<'a> {
    pub(crate) vars: &'a Layers<'a>,
    pub(crate) cwd: &'a Path,
    pub(crate) place: &'a Place,
}

/// The expansion of a text behind what there is, in which at most `left` references stand in one
/// another.
#[cycle(expander)]
fn expand_text<V: View>(
    alloc: Global,
    left: u32,
    setting: &Setting,
    scope: &Scope,
    desk: &mut Desk<V>,
    spoken: &mut Spoken,
    text: &[u8],
    out: Text,
) -> Result<Text, ExpandNo>
    ensures { Does is_free V.tells desk.old desk.new spoken.old spoken.new result
        (expand_text left (setting_of setting.now) (frames_of scope.now) text.now out) }
{
    let Parted { parts, unclosed } = parts_before(alloc, text)?;
    let mut out = out;
    for part in parts.items() {
        out = put_part(alloc, left, setting, scope, desk, spoken, text, *part, out)?;
    }
    match unclosed {
        None => Ok(out),
        Some(_) => Err(ExpandNo::Unclosed),
    }
}

/// A part of a text. A reference costs a unit, and the blocks of what it gives.
#[cycle(expander)]
fn put_part<V: View>(
    alloc: Global,
    left: u32,
    setting: &Setting,
    scope: &Scope,
    desk: &mut Desk<V>,
    spoken: &mut Spoken,
    text: &[u8],
    part: Part,
    out: Text,
) -> Result<Text, ExpandNo>
    ensures { Does is_free V.tells desk.old desk.new spoken.old spoken.new result
        (put_part (reference left (setting_of setting.now)
        (frames_of scope.now)) text.now part out) }
{
    match part {
        Part::Literal(span) => put(out, span.of(text)),
        Part::Dollar => put(out, b"$"),
        Part::Ref(span) => {
            if left == 0 {
                return Err(ExpandNo::TooDeep);
            }
            pay(desk, 1)?;
            let before = length_of(&out);
            let bracket = Bracket::before(text, span);
            let inner = span.of(text);
            let all = evaluate(
                alloc,
                left - 1,
                setting,
                scope,
                desk,
                spoken,
                bracket,
                inner,
                out,
            )?;
            pay(desk, cost(&all, before))?;
            Ok(all)
        }
    }
}

/// What the text in a reference's brackets asks for.
#[cycle(expander)]
fn evaluate<V: View>(
    alloc: Global,
    left: u32,
    setting: &Setting,
    scope: &Scope,
    desk: &mut Desk<V>,
    spoken: &mut Spoken,
    bracket: Option<Bracket>,
    inner: &[u8],
    out: Text,
) -> Result<Text, ExpandNo>
    ensures { Does is_free V.tells desk.old desk.new spoken.old spoken.new result
        (evaluate (expand_text left (setting_of setting.now)) (setting_of setting.now)
        (frames_of scope.now) bracket inner.now out) }
{
    match call_of(alloc, bracket, inner)? {
        None => named(alloc, left, setting, scope, desk, spoken, inner, out),
        Some(call) => put_call(
            alloc, left, setting, scope, desk, spoken, call.row, &call.args, out,
        ),
    }
}

/// A call of a function.
#[cycle(expander)]
fn put_call<V: View>(
    alloc: Global,
    left: u32,
    setting: &Setting,
    scope: &Scope,
    desk: &mut Desk<V>,
    spoken: &mut Spoken,
    row: &FunctionRow,
    args: &[&[u8]],
    out: Text,
) -> Result<Text, ExpandNo>
    ensures { Does is_free V.tells desk.old desk.new spoken.old spoken.new result
        (put_call (expand_text left (setting_of setting.now)) (setting_of setting.now)
        (frames_of scope.now) (row_of row.now) row.now.function (map
        (λ a. a.now) args.now) out) }
{
    match row.function {
        FunctionKind::Refused => Err(refused(alloc, row.name)),
        FunctionKind::If => choose(alloc, left, setting, scope, desk, spoken, row, args, out),
        FunctionKind::Or => until(alloc, left, setting, scope, desk, spoken, true, args, out),
        FunctionKind::And => until(alloc, left, setting, scope, desk, spoken, false, args, out),
        FunctionKind::Foreach => foreach(alloc, left, setting, scope, desk, spoken, row, args, out),
        FunctionKind::Call => {
            let values = arguments(alloc, left, setting, scope, desk, spoken, args)?;
            call(
                alloc,
                left,
                setting,
                scope,
                desk,
                spoken,
                values.items(),
                out,
            )
        }
        FunctionKind::Plain(function) => {
            let values = arguments(alloc, left, setting, scope, desk, spoken, args)?;
            put_value(
                alloc,
                setting,
                scope,
                desk,
                spoken,
                row,
                function,
                values.items(),
                out,
            )
        }
    }
}

/// A name, which is expanded first, or a substitution.
#[cycle(expander)]
fn named<V: View>(
    alloc: Global,
    left: u32,
    setting: &Setting,
    scope: &Scope,
    desk: &mut Desk<V>,
    spoken: &mut Spoken,
    inner: &[u8],
    out: Text,
) -> Result<Text, ExpandNo>
    ensures { Does is_free V.tells desk.old desk.new spoken.old spoken.new result
        (named (expand_text left (setting_of setting.now)) (setting_of setting.now)
        (frames_of scope.now) inner.now out) }
{
    let empty = Text::new(alloc);
    let name = expand_text(alloc, left, setting, scope, desk, spoken, inner, empty)?;
    match substitution_of(name.bytes()) {
        None => variable(alloc, left, setting, scope, desk, spoken, name.bytes(), out),
        Some(parts) => {
            let none = Text::new(alloc);
            let value = variable(alloc, left, setting, scope, desk, spoken, parts.name, none)?;
            substituted(alloc, &parts, value, out)
        }
    }
}

/// A variable's value.
#[cycle(expander)]
fn variable<V: View>(
    alloc: Global,
    left: u32,
    setting: &Setting,
    scope: &Scope,
    desk: &mut Desk<V>,
    spoken: &mut Spoken,
    name: &[u8],
    out: Text,
) -> Result<Text, ExpandNo>
    ensures { Does is_free V.tells desk.old desk.new spoken.old spoken.new result
        (variable (expand_text left (setting_of setting.now)) (entries_of setting.now.vars.now)
        (frames_of scope.now) name.now out) }
{
    match meaning_of(setting.vars, scope, name) {
        Meaning::Bound(text) => put(out, text),
        Meaning::Simple(text) => put(out, text),
        Meaning::Recursive(text) => {
            if is_open(scope, name) {
                return Err(self_reference(alloc, name));
            }
            let inside = Scope::Within(&*name, &*scope);
            expand_text(alloc, left, setting, &inside, desk, spoken, text, out)
        }
    }
}

/// `if`: only the branch that is picked is expanded.
#[cycle(expander)]
fn choose<V: View>(
    alloc: Global,
    left: u32,
    setting: &Setting,
    scope: &Scope,
    desk: &mut Desk<V>,
    spoken: &mut Spoken,
    row: &FunctionRow,
    args: &[&[u8]],
    out: Text,
) -> Result<Text, ExpandNo>
    ensures { Does is_free V.tells desk.old desk.new spoken.old spoken.new result
        (enough (row_of row.now) (map (λ a. a.now) args.now) (choose (expand_text left
        (setting_of setting.now)) (frames_of scope.now) (map (λ a. a.now) args.now) out)) }
{
    if args.len() < row.least {
        return Err(bad_argument(alloc, row.name));
    }
    let given = nth(0, args);
    let test = trim(given);
    let none = Text::new(alloc);
    let condition = expand_text(alloc, left, setting, scope, desk, spoken, test, none)?;
    let text = picked(&condition, args);
    expand_text(alloc, left, setting, scope, desk, spoken, text, out)
}

/// `or`, where a filled value ends it, and `and`.
#[cycle(expander)]
fn until<V: View>(
    alloc: Global,
    left: u32,
    setting: &Setting,
    scope: &Scope,
    desk: &mut Desk<V>,
    spoken: &mut Spoken,
    filled: bool,
    args: &[&[u8]],
    out: Text,
) -> Result<Text, ExpandNo>
    ensures { Does is_free V.tells desk.old desk.new spoken.old spoken.new result
        (until (expand_text left (setting_of setting.now)) (frames_of scope.now) filled (map
        (λ a. a.now) args.now) [] out) }
{
    let mut last = Text::new(alloc);
    for arg in args {
        let text = trim(arg);
        let none = Text::new(alloc);
        last = expand_text(alloc, left, setting, scope, desk, spoken, text, none)?;
        if ends(filled, &last) {
            return put(out, last.bytes());
        }
    }
    put(out, last.bytes())
}

/// `foreach`: its name and its list are expanded once, and its text for each word.
#[cycle(expander)]
fn foreach<V: View>(
    alloc: Global,
    left: u32,
    setting: &Setting,
    scope: &Scope,
    desk: &mut Desk<V>,
    spoken: &mut Spoken,
    row: &FunctionRow,
    args: &[&[u8]],
    out: Text,
) -> Result<Text, ExpandNo>
    ensures { Does is_free V.tells desk.old desk.new spoken.old spoken.new result
        (enough (row_of row.now) (map (λ a. a.now) args.now) (foreach (expand_text left
        (setting_of setting.now)) (frames_of scope.now) (map (λ a. a.now) args.now) out)) }
{
    if args.len() < row.least {
        return Err(bad_argument(alloc, row.name));
    }
    let given = nth(0, args);
    let none = Text::new(alloc);
    let name = expand_text(alloc, left, setting, scope, desk, spoken, given, none)?;
    let listed = nth(1, args);
    let empty = Text::new(alloc);
    let list = expand_text(alloc, left, setting, scope, desk, spoken, listed, empty)?;
    let words = texts(alloc, list.bytes())?;
    let each = trim(name.bytes());
    let body = nth(2, args);
    turns(
        alloc, left, setting, scope, desk, spoken, each, body, &words, out,
    )
}

/// The turns of `foreach`, each of which costs a unit.
#[cycle(expander)]
fn turns<V: View>(
    alloc: Global,
    left: u32,
    setting: &Setting,
    scope: &Scope,
    desk: &mut Desk<V>,
    spoken: &mut Spoken,
    name: &[u8],
    text: &[u8],
    words: &[&[u8]],
    out: Text,
) -> Result<Text, ExpandNo>
    ensures { Does is_free V.tells desk.old desk.new spoken.old spoken.new result
        (turns (expand_text left (setting_of setting.now)) (frames_of scope.now) name.now text.now
        (map (λ w. w.now) words.now) [] out) }
{
    let mut out = out;
    let mut gap: &[u8] = b"";
    for word in words {
        pay(desk, 1)?;
        let begun = put(out, gap)?;
        let inside = Scope::Each(&*name, *word, &*scope);
        out = expand_text(alloc, left, setting, &inside, desk, spoken, text, begun)?;
        gap = b" ";
    }
    Ok(out)
}

/// All arguments, expanded from the left.
#[cycle(expander)]
fn arguments<V: View>(
    alloc: Global,
    left: u32,
    setting: &Setting,
    scope: &Scope,
    desk: &mut Desk<V>,
    spoken: &mut Spoken,
    args: &[&[u8]],
) -> Result<Seq<Text>, ExpandNo>
    ensures { Does is_free V.tells desk.old desk.new spoken.old spoken.new result
        (arguments (expand_text left (setting_of setting.now)) (frames_of scope.now) (map
        (λ a. a.now) args.now) []) }
{
    let mut values = Seq::new(alloc);
    for arg in args {
        let none = Text::new(alloc);
        let value = expand_text(alloc, left, setting, scope, desk, spoken, arg, none)?;
        values.push(value)?;
    }
    Ok(values)
}

/// `call`: the text of a variable, with the arguments under their numbers.
#[cycle(expander)]
fn call<V: View>(
    alloc: Global,
    left: u32,
    setting: &Setting,
    scope: &Scope,
    desk: &mut Desk<V>,
    spoken: &mut Spoken,
    args: &[Text],
    out: Text,
) -> Result<Text, ExpandNo>
    ensures { Does is_free V.tells desk.old desk.new spoken.old spoken.new result
        (steps.call (expand_text left (setting_of setting.now)) (entries_of setting.now.vars.now)
        (frames_of scope.now) args.now out) }
{
    let name = argument(args, 0);
    match meaning_of(setting.vars, scope, name) {
        Meaning::Bound(text) => put(out, text),
        Meaning::Simple(text) => put(out, text),
        Meaning::Recursive(text) => {
            let inside = Scope::Called(&*args, &*scope);
            expand_text(alloc, left, setting, &inside, desk, spoken, text, out)
        }
    }
}

/// The expansion of a text: `$$` is `$`, `$x`, `$(x)` and `${x}` are the value of a variable,
/// `$(x:a=b)` is that of a substitution, and `$(function arguments)` what the function gives. Names
/// are read against `cwd`, and `warning` says `place`.
///
/// What `info` and `warning` say and the texts for `eval` are appended to `spoken`; after an error
/// it holds what came before. The error is the first in the text, from the left: `SelfReference`
/// where a recursive variable that is being expanded is referred to again; `UserError` by `error`;
/// `BadArgument` for too few arguments, or bad ones of `word` and `wordlist`; `Unclosed` at a
/// reference that isn't closed; `Refused` for a function that isn't supported; `TooDeep` where more
/// than 200 references and calls stand in one another; `Spent` where fuel doesn't suffice. Each
/// reference and call costs a unit before and the blocks of its result behind it, each turn of
/// `foreach` a unit, and `wildcard` what it asks.
///
/// The time is linear in what is expanded and made, with a step for each scope at each name. A byte
/// of plain text is copied once, to the result, at whatever depth it stands; no variable is copied.
/// A value that is needed apart, as a name, an argument or a list, is a text of its own, so that a
/// byte that passes through a function is copied at most three times for it.
pub fn expand<V: View>(
    alloc: Global,
    text: &[u8],
    vars: &Layers,
    cwd: &Path,
    place: &Place,
    desk: &mut Desk<V>,
    spoken: &mut Spoken,
) -> Result<Text, ExpandNo>
    ensures { Does is_free V.tells desk.old desk.new spoken.old spoken.new result
        (expansion (entries_of vars.now) cwd.now place.now text.now) }
{
    let setting = Setting { vars, cwd, place };
    let out = Text::new(alloc);
    expand_text(alloc, 200, &setting, &Scope::Top, desk, spoken, text, out)
}
