//! The text functions by their names.
ghost use Rattle.std.specs.Prelude.{◌≡◌, ◌⊎◌, ◌↔◌, Ok, Err, None, IfOk, IfErr, IsOk, IsOkAnd, IsNone, IsSome};
ghost use Rattle.em_textfn.specs.Functions as functions;
ghost use Rattle.em_textfn.specs.Functions.{value_of, index_of, positive_of, nth_of, range_of};
ghost use Rattle.em_wordlist.specs.Words.{words_of};

use crate::no::TextfnNo;
use crate::{list, text};
use em_base::{Text, number};
use std::alloc::Global;

/// A text function.
#[derive(Clone, Copy)]
enum Function {
    Subst,
    Patsubst,
    Strip,
    Words,
    FirstWord,
    LastWord,
    FindString,
    Filter,
    FilterOut,
    Sort,
    Word,
    WordList,
}

/// The function of this name, where it is a text function.
fn function_of(name: &[u8]) -> Option<Function>
    ensures { result ≡ functions.function_of name.now }
{
    match name {
        b"subst" => Some(Function::Subst),
        b"patsubst" => Some(Function::Patsubst),
        b"strip" => Some(Function::Strip),
        b"words" => Some(Function::Words),
        b"firstword" => Some(Function::FirstWord),
        b"lastword" => Some(Function::LastWord),
        b"findstring" => Some(Function::FindString),
        b"filter" => Some(Function::Filter),
        b"filter-out" => Some(Function::FilterOut),
        b"sort" => Some(Function::Sort),
        b"word" => Some(Function::Word),
        b"wordlist" => Some(Function::WordList),
        _ => None,
    }
}

/// A number of a word: canonical decimal, below 2^32.
fn index(text: &Text) -> Option<usize>
    ensures { result ≡ index_of text.now }
{
    Some(number(u32::MAX as u64, text.bytes())? as usize)
}

/// Such a number from 1 on.
fn positive(text: &Text) -> Option<usize>
    ensures { result ≡ positive_of text.now }
{
    match index(text) {
        Some(0) => None,
        other => other,
    }
}

/// `word n,x`: the n-th word, from 1; nothing beyond the end.
fn word(alloc: Global, n: &Text, x: &Text) -> Result<Text, TextfnNo>
    ensures ok { IfOk result (λ t. nth_of (positive_of n.now) (words_of x.now) ≡ Ok t) }
    ensures err { IfErr result
        (λ e. (e ≡ TextfnNo.NoMemory) ⊎ (nth_of (positive_of n.now) (words_of x.now) ≡ Err e)) }
    ensures memory { result ≡ Err TextfnNo.NoMemory
        → IsOk (nth_of (positive_of n.now) (words_of x.now)) }
{
    match positive(n) {
        Some(n) => Ok(list::word(alloc, n, x.bytes())?),
        None => Err(TextfnNo::BadArgument),
    }
}

/// `wordlist s,e,x`: the words from number s, from 1, up to and with number e.
fn word_list(alloc: Global, s: &Text, e: &Text, x: &Text) -> Result<Text, TextfnNo>
    ensures ok { IfOk result
        (λ t. range_of (positive_of s.now) (index_of e.now) (words_of x.now) ≡ Ok t) }
    ensures err { IfErr result
        (λ no. (no ≡ TextfnNo.NoMemory)
        ⊎ (range_of (positive_of s.now) (index_of e.now) (words_of x.now) ≡ Err no)) }
    ensures memory { result ≡ Err TextfnNo.NoMemory
        → IsOk (range_of (positive_of s.now) (index_of e.now) (words_of x.now)) }
{
    match (positive(s), index(e)) {
        (Some(s), Some(e)) => Ok(list::word_list(alloc, s, e, x.bytes())?),
        _ => Err(TextfnNo::BadArgument),
    }
}

/// What the function gives. Arguments beyond those that it needs are ignored.
fn value(alloc: Global, function: Function, args: &[Text]) -> Result<Text, TextfnNo>
    ensures ok { IfOk result (λ t. value_of function args.now ≡ Ok t) }
    ensures err { IfErr result
        (λ e. (e ≡ TextfnNo.NoMemory) ⊎ (value_of function args.now ≡ Err e)) }
    ensures memory { result ≡ Err TextfnNo.NoMemory → IsOk (value_of function args.now) }
{
    let text = match (function, args) {
        (Function::Subst, [f, t, x, ..]) => text::subst(alloc, f.bytes(), t.bytes(), x.bytes())?,
        (Function::Patsubst, [p, r, x, ..]) => list::patsubst(
            alloc,
            p.bytes(),
            r.bytes(),
            x.bytes(),
        )?,
        (Function::Strip, [x, ..]) => list::strip(alloc, x.bytes())?,
        (Function::Words, [x, ..]) => list::word_count(alloc, x.bytes())?,
        (Function::FirstWord, [x, ..]) => list::first_word(alloc, x.bytes())?,
        (Function::LastWord, [x, ..]) => list::last_word(alloc, x.bytes())?,
        (Function::FindString, [f, x, ..]) => text::find_string(alloc, f.bytes(), x.bytes())?,
        (Function::Filter, [p, x, ..]) => list::filter(alloc, p.bytes(), x.bytes())?,
        (Function::FilterOut, [p, x, ..]) => list::filter_out(alloc, p.bytes(), x.bytes())?,
        (Function::Sort, [x, ..]) => list::sort(alloc, x.bytes())?,
        (Function::Word, [n, x, ..]) => word(alloc, n, x)?,
        (Function::WordList, [s, e, x, ..]) => word_list(alloc, s, e, x)?,
        _ => return Err(TextfnNo::BadArgument),
    };
    Ok(text)
}

/// What the function of this name gives for these arguments, which are expanded; `None` exactly
/// where no text function has the name. Arguments beyond those that it needs are ignored.
///
/// The error is `BadArgument` for too few arguments, and where the first of `word` or one of the
/// first two of `wordlist` isn't a canonical decimal number below 2^32, or the first is 0; else it
/// is `NoMemory`, which comes only where there is a text to give.
pub fn text_function(alloc: Global, name: &[u8], args: &[Text]) -> Result<Option<Text>, TextfnNo>
    ensures ok { IfOk result (λ r. functions.text_function name.now args.now ≡ Ok r) }
    ensures err { IfErr result
        (λ e. (e ≡ TextfnNo.NoMemory) ⊎ (functions.text_function name.now args.now ≡ Err e)) }
    ensures none { IfOk result (λ r. IsNone r ↔ functions.function_of name.now ≡ None) }

    // another name and bad arguments are told without memory
    ensures memory { result ≡ Err TextfnNo.NoMemory
        → IsOkAnd (functions.text_function name.now args.now) IsSome }
{
    match function_of(name) {
        Some(function) => Ok(Some(value(alloc, function, args)?)),
        None => Ok(None),
    }
}
