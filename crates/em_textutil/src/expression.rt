//! `test`: what an expression says.
ghost use Rattle.std.specs.Prelude.{◌≡◌, IfOk};
ghost use Rattle.em_view.specs.Performs.{Performs};
ghost use Rattle.em_view.specs.Ends.{is_want};
ghost use Rattle.em_lineutil.specs.Formats.{number_of};
ghost use Rattle.em_textutil.specs.Expressions as expressions;
ghost use Rattle.em_textutil.specs.Expressions.{path_of, kind_by, stamp_by, content_by, link_by, has_bytes, is_filled, word_at, is_above, says_kind, says_bytes, says_link, says_unary, numbers_say, says_stamps, says_binary, says, truth, answer, test_words};

use em_base::{Construct, NoMemory, Text};
use em_lineutil::{Binary, Form, Relation, Unary, form_of, is_related, number, stripped};
use em_path::{Path, PathNo};
use em_tree::{Body, Kind, LinkText};
use em_utility::{Reason, begun, fail, write};
use em_view::{Desk, Done, ExecNo, View};
use std::alloc::Global;

/// What an expression says.
#[derive(Debug, Drop, PartialEq, Eq)]
pub enum ExpressionResult {
    /// It holds, or it doesn't.
    Is(bool),
    /// This word should be a number.
    Strange(Text),
    /// It is no expression.
    Syntax,
}

/// The path that a name says, if it says one.
fn path_of(alloc: Global, cwd: &Path, name: &[u8]) -> Result<Option<Path>, NoMemory>
    ensures { IfOk result (λ p. p ≡ path_of cwd.now name.now) }
{
    match Path::read(alloc, cwd, name) {
        Ok(path) => Ok(Some(path)),
        Err(PathNo::NoMemory) => Err(NoMemory),
        Err(_) => Ok(None),
    }
}

fn kind_by<V: View>(path: Option<Path>, desk: &mut Desk<V>) -> Result<Kind, ExecNo>
    ensures { Performs is_want V.tells desk.old desk.new result (kind_by path) }
{
    match path {
        None => Ok(Kind::Absent),
        Some(path) => Ok(desk.kind(&path)?),
    }
}

fn stamp_by<V: View>(path: Option<Path>, desk: &mut Desk<V>) -> Result<Option<u64>, ExecNo>
    ensures { Performs is_want V.tells desk.old desk.new result (stamp_by path) }
{
    match path {
        None => Ok(None),
        Some(path) => Ok(desk.stamp(&path)?),
    }
}

fn content_by<V: View>(path: Option<Path>, desk: &mut Desk<V>) -> Result<Option<Body>, ExecNo>
    ensures { Performs is_want V.tells desk.old desk.new result (content_by path) }
{
    match path {
        None => Ok(None),
        Some(path) => Ok(desk.content(&path)?),
    }
}

fn link_by<V: View>(path: Option<Path>, desk: &mut Desk<V>) -> Result<Option<LinkText>, ExecNo>
    ensures { Performs is_want V.tells desk.old desk.new result (link_by path) }
{
    match path {
        None => Ok(None),
        Some(path) => Ok(desk.link(&path)?),
    }
}

/// Whether this is what the operator asks for; one that doesn't ask for a kind asks for none.
fn is_of(unary: Unary, kind: Kind) -> bool
    ensures { result ≡ expressions.is_of unary kind }
{
    match unary {
        Unary::Exists => kind != Kind::Absent,
        Unary::IsFile => kind == Kind::File,
        Unary::IsDir => kind == Kind::Dir,
        _ => false,
    }
}

fn says_kind<V: View>(
    alloc: Global,
    cwd: &Path,
    unary: Unary,
    word: &[u8],
    desk: &mut Desk<V>,
) -> Result<ExpressionResult, ExecNo>
    ensures { Performs is_want V.tells desk.old desk.new result (says_kind cwd.now unary word.now) }
{
    let path = path_of(alloc, cwd, word)?;
    let kind = kind_by(path, desk)?;
    Ok(ExpressionResult::Is(is_of(unary, kind)))
}

fn is_filled(word: &[u8]) -> bool
    ensures { result ≡ is_filled word.now }
{
    !word.is_empty()
}

/// The i-th word, counted from 0; nothing beyond the end.
fn word_at(words: &[Text], i: usize) -> &[u8]
    ensures { result.now ≡ word_at words.now i }
{
    match words.get(i) {
        Some(word) => word.bytes(),
        None => b"",
    }
}

fn has_bytes(body: Option<Body>) -> bool
    ensures { result ≡ has_bytes body }
{
    match body {
        Some(body) => is_filled(body.bytes()),
        None => false,
    }
}

fn says_bytes<V: View>(
    alloc: Global,
    cwd: &Path,
    word: &[u8],
    desk: &mut Desk<V>,
) -> Result<ExpressionResult, ExecNo>
    ensures { Performs is_want V.tells desk.old desk.new result (says_bytes cwd.now word.now) }
{
    let path = path_of(alloc, cwd, word)?;
    let body = content_by(path, desk)?;
    Ok(ExpressionResult::Is(has_bytes(body)))
}

fn says_link<V: View>(
    alloc: Global,
    cwd: &Path,
    word: &[u8],
    desk: &mut Desk<V>,
) -> Result<ExpressionResult, ExecNo>
    ensures { Performs is_want V.tells desk.old desk.new result (says_link cwd.now word.now) }
{
    let path = path_of(alloc, cwd, word)?;
    let link = link_by(path, desk)?;
    Ok(ExpressionResult::Is(link.is_some()))
}

fn says_unary<V: View>(
    alloc: Global,
    cwd: &Path,
    unary: Unary,
    word: &[u8],
    desk: &mut Desk<V>,
) -> Result<ExpressionResult, ExecNo>
    ensures { Performs is_want V.tells desk.old desk.new result
        (says_unary cwd.now unary word.now) }
{
    match unary {
        Unary::Filled => Ok(ExpressionResult::Is(is_filled(word))),
        Unary::Empty => Ok(ExpressionResult::Is(!is_filled(word))),
        Unary::Exists => says_kind(alloc, cwd, Unary::Exists, word, desk),
        Unary::IsFile => says_kind(alloc, cwd, Unary::IsFile, word, desk),
        Unary::IsDir => says_kind(alloc, cwd, Unary::IsDir, word, desk),
        Unary::HasBytes => says_bytes(alloc, cwd, word, desk),
        Unary::IsLink => says_link(alloc, cwd, word, desk),
    }
}

fn numbers_say(
    alloc: Global,
    relation: Relation,
    a: &[u8],
    b: &[u8],
) -> Result<ExpressionResult, NoMemory>
    ensures { IfOk result
        (λ v. v ≡ numbers_say relation (number_of a.now) (number_of b.now) a.now b.now) }
{
    match number(a) {
        None => Ok(ExpressionResult::Strange(Text::from_slice(alloc, a)?)),
        Some(x) => match number(b) {
            None => Ok(ExpressionResult::Strange(Text::from_slice(alloc, b)?)),
            Some(y) => Ok(ExpressionResult::Is(is_related(relation, x, y))),
        },
    }
}

/// Whether both are there and the first is the greater.
fn is_above(s: Option<u64>, t: Option<u64>) -> bool
    ensures { result ≡ is_above s t }
{
    match s {
        Some(s) => match t {
            Some(t) => s > t,
            None => false,
        },
        None => false,
    }
}

/// Whether the first, or else the second, is the newer one.
fn is_newest(first: bool, s: Option<u64>, t: Option<u64>) -> bool
    ensures { result ≡ expressions.is_newest first s t }
{
    if first {
        is_above(s, t)
    } else {
        is_above(t, s)
    }
}

fn says_stamps<V: View>(
    alloc: Global,
    cwd: &Path,
    first: bool,
    a: &[u8],
    b: &[u8],
    desk: &mut Desk<V>,
) -> Result<ExpressionResult, ExecNo>
    ensures { Performs is_want V.tells desk.old desk.new result
        (says_stamps cwd.now first a.now b.now) }
{
    let path = path_of(alloc, cwd, a)?;
    let other = path_of(alloc, cwd, b)?;
    let s = stamp_by(path, desk)?;
    let t = stamp_by(other, desk)?;
    Ok(ExpressionResult::Is(is_newest(first, s, t)))
}

fn says_binary<V: View>(
    alloc: Global,
    cwd: &Path,
    binary: Binary,
    a: &[u8],
    b: &[u8],
    desk: &mut Desk<V>,
) -> Result<ExpressionResult, ExecNo>
    ensures { Performs is_want V.tells desk.old desk.new result
        (says_binary cwd.now binary a.now b.now) }
{
    match binary {
        Binary::Same => Ok(ExpressionResult::Is(a == b)),
        Binary::Other => Ok(ExpressionResult::Is(a != b)),
        Binary::Number(relation) => Ok(numbers_say(alloc, relation, a, b)?),
        Binary::Newer => says_stamps(alloc, cwd, true, a, b, desk),
        Binary::Older => says_stamps(alloc, cwd, false, a, b, desk),
    }
}

/// A letter of `test`, which is refused.
fn letter(alloc: Global, letter: u8) -> Result<Construct, NoMemory>
    ensures { IfOk result (λ c. c ≡ expressions.letter letter) }
{
    Ok(Construct::Letter(Text::from_slice(alloc, b"test")?, letter))
}

/// What an expression of this form says.
fn says<V: View>(
    alloc: Global,
    cwd: &Path,
    form: Form,
    words: &[Text],
    desk: &mut Desk<V>,
) -> Result<ExpressionResult, ExecNo>
    ensures { Performs is_want V.tells desk.old desk.new result (says cwd.now form words.now) }
{
    match form {
        Form::Word => Ok(ExpressionResult::Is(is_filled(word_at(words, 0)))),
        Form::Unary(unary) => says_unary(alloc, cwd, unary, word_at(words, 1), desk),
        Form::Binary(binary) => {
            says_binary(
                alloc,
                cwd,
                binary,
                word_at(words, 0),
                word_at(words, 2),
                desk,
            )
        }
        Form::Letter(byte) => Err(ExecNo::Refused(letter(alloc, byte)?)),
        Form::Syntax => Ok(ExpressionResult::Syntax),
    }
}

fn truth(negated: bool, holds: bool) -> u8
    ensures { result ≡ truth negated holds }
{
    if negated == holds { 1 } else { 0 }
}

/// What is written, and the status.
pub(crate) fn answer(
    alloc: Global,
    negated: bool,
    verdict: ExpressionResult,
) -> Result<Done, NoMemory>
    ensures { IfOk result (λ d. d ≡ answer negated verdict) }
{
    let mut done = begun(alloc);
    match verdict {
        ExpressionResult::Is(holds) => done.status = truth(negated, holds),
        ExpressionResult::Strange(word) => {
            fail(alloc, &mut done, b"test", word.bytes(), Reason::NotANumber)?;
        }
        ExpressionResult::Syntax => {
            write(
                &mut done,
                2,
                Text::from_slice(alloc, b"emake: test: syntax error\n")?,
            )?;
            done.status = 2;
        }
    }
    Ok(done)
}

/// What `test` leaves, of the words of its expression.
pub(crate) fn test_words<V: View>(
    alloc: Global,
    cwd: &Path,
    words: &[Text],
    desk: &mut Desk<V>,
) -> Result<Done, ExecNo>
    ensures { Performs is_want V.tells desk.old desk.new result (test_words cwd.now words.now) }
{
    let (negated, rest) = stripped(false, words);
    let verdict = says(alloc, cwd, form_of(rest), rest, desk)?;
    Ok(answer(alloc, negated, verdict)?)
}
