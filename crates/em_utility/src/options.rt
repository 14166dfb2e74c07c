//! The options of a utility.
ghost use Rattle.std.specs.Prelude.{◌≡◌, ◌+◌, ◌<◌, ◌≤◌, ◌^◌, IfOk, drop, length, false};
ghost use Rattle.em_view.specs.Ends.{is_want};
ghost use Rattle.em_view.specs.Performs.{is_free};
ghost use Rattle.em_utility.specs.Options as options;
ghost use Rattle.em_utility.specs.Options.{is_letter, is_in, are_letters, plain_count, letter_count, is_digit, are_digits, is_old_form, is_option, takes_value, lacks_value, or_before, no_options, role_of, with_letters, with_word, goes_on, options_of, unlisted, read_options};

use em_base::{Construct, NoMemory, Text};
use em_view::ExecNo;
use std::alloc::Global;

/// The options that stand before the operands.
#[derive(Debug, Drop, PartialEq, Eq)]
pub struct Options {
    /// The letters, in order.
    pub letters: Text,
    /// The last value of a letter that takes one.
    pub value: Option<Text>,
    /// Whether the words end where a value is wanted.
    pub lacks: bool,
    /// How many words the options take, with their values and `--`.
    pub taken: usize,
}

impl Options {
    /// Whether the letter is given. Steps for each letter.
    pub fn has(&self, letter: u8) -> bool
        ensures { result ≡ is_in self.now.letters letter }
    {
        is_in(self.letters.bytes(), letter)
    }

    /// The operands among the words that the options were read from.
    pub fn operands<'a>(&self, words: &'a [Text]) -> &'a [Text]
        ensures { result.now ≡ drop self.now.taken words.now }
    {
        words.get(self.taken..).unwrap_or(&[])
    }
}

/// What a word before the operands is.
#[derive(Clone, Copy, PartialEq, Eq)]
pub(crate) enum Role {
    /// The value of the letter before it.
    Value,
    Letters,
    /// `--`
    End,
    /// The first operand.
    Operand,
}

fn is_in(bytes: &[u8], byte: u8) -> bool
    ensures { result ≡ is_in bytes.now byte }
{
    bytes.contains(&byte)
}

fn is_letter(byte: u8) -> bool
    ensures { result ≡ is_letter byte }
{
    matches!(byte, b'A'..=b'Z' | b'a'..=b'z')
}

fn are_letters(listed: &[u8], bytes: &[u8]) -> bool
    ensures { result ≡ are_letters listed.now bytes.now }
{
    bytes.iter().all(|b| is_letter(*b) || is_in(listed, *b))
}

/// How many of the bytes stand before the first letter that takes a value.
fn plain_count(valued: &[u8], bytes: &[u8]) -> usize
    ensures count { result ≡ plain_count valued.now bytes.now }
    ensures within { result ≤ length bytes.now }
{
    bytes.iter().take_while(|b| !is_in(valued, **b)).count()
}

/// How many of the bytes are letters, up to the first one that takes a value.
fn letter_count(valued: &[u8], bytes: &[u8]) -> usize
    ensures count { result ≡ letter_count valued.now bytes.now }
    ensures within { result ≤ length bytes.now }
{
    bytes.len().min(plain_count(valued, bytes) + 1)
}

/// The letters of a word without its dash.
fn letters_in<'a>(valued: &[u8], bytes: &'a [u8]) -> &'a [u8]
    ensures { result.now ≡ options.letters_in valued.now bytes.now }
{
    &bytes[..letter_count(valued, bytes)]
}

/// What stands behind them: the value of the last one, unless it is empty.
fn value_in<'a>(valued: &[u8], bytes: &'a [u8]) -> &'a [u8]
    ensures { result.now ≡ options.value_in valued.now bytes.now }
{
    &bytes[letter_count(valued, bytes)..]
}

fn is_digit(byte: u8) -> bool
    ensures { result ≡ is_digit byte }
{
    matches!(byte, b'0'..=b'9')
}

fn are_digits(bytes: &[u8]) -> bool
    ensures { result ≡ are_digits bytes.now }
{
    bytes.iter().all(|b| is_digit(*b))
}

/// Whether the bytes behind a dash are the old form of an option with a value.
fn is_old_form(valued: &[u8], bytes: &[u8]) -> bool
    ensures { result ≡ is_old_form valued.now bytes.now }
{
    !valued.is_empty() && are_digits(bytes)
}

/// Whether the word is one of options.
fn is_option(listed: &[u8], valued: &[u8], word: &[u8]) -> bool
    ensures { result ≡ is_option listed.now valued.now word.now }
{
    match word.split_first() {
        Some((dash, bytes)) => {
            *dash == b'-'
                && !bytes.is_empty()
                && (are_letters(listed, letters_in(valued, bytes)) || is_old_form(valued, bytes))
        }
        None => false,
    }
}

/// Whether a letter of the word takes a value.
fn takes_value(valued: &[u8], bytes: &[u8]) -> bool
    ensures { result ≡ takes_value valued.now bytes.now }
{
    bytes.iter().any(|b| is_in(valued, *b))
}

/// Whether the value of a letter is the next word.
fn lacks_value(valued: &[u8], bytes: &[u8]) -> bool
    ensures { result ≡ lacks_value valued.now bytes.now }
{
    takes_value(valued, bytes) && value_in(valued, bytes).is_empty()
}

fn role_of(listed: &[u8], valued: &[u8], awaits: bool, word: &[u8]) -> Role
    ensures { result ≡ role_of listed.now valued.now awaits word.now }
{
    if awaits {
        Role::Value
    } else if word == b"--".as_slice() {
        Role::End
    } else if is_option(listed, valued, word) {
        Role::Letters
    } else {
        Role::Operand
    }
}

fn goes_on(role: Role) -> bool
    ensures { result ≡ goes_on role }
{
    match role {
        Role::Value | Role::Letters => true,
        Role::End | Role::Operand => false,
    }
}

fn no_options(alloc: Global) -> Options
    ensures { result ≡ no_options }
{
    Options {
        letters: Text::new(alloc),
        value: None,
        lacks: false,
        taken: 0,
    }
}

/// The value, or the one before where it is empty.
fn or_before(alloc: Global, before: Option<Text>, value: &[u8]) -> Result<Option<Text>, NoMemory>
    ensures { IfOk result (λ v. v ≡ or_before before value.now) }
{
    if value.is_empty() {
        return Ok(before);
    }
    Ok(Some(Text::from_slice(alloc, value)?))
}

/// The options with those of a word, without its dash.
fn with_letters(
    alloc: Global,
    valued: &[u8],
    so_far: Options,
    bytes: &[u8],
) -> Result<Options, NoMemory>
    requires { so_far.taken + 1 < 2 ^ 64 }
    ensures { IfOk result (λ o. o ≡ with_letters valued.now so_far bytes.now) }
{
    let Options {
        mut letters,
        value,
        lacks: _,
        taken,
    } = so_far;
    letters.add(letters_in(valued, bytes))?;
    Ok(Options {
        letters,
        value: or_before(alloc, value, value_in(valued, bytes))?,
        lacks: lacks_value(valued, bytes),
        taken: taken + 1,
    })
}

/// The options with those of one more word.
fn with_word(
    alloc: Global,
    valued: &[u8],
    so_far: Options,
    word: &[u8],
    role: Role,
) -> Result<Options, NoMemory>
    requires { so_far.taken + 1 < 2 ^ 64 }
    ensures { IfOk result (λ o. o ≡ with_word valued.now so_far word.now role) }
{
    let mut all = so_far;
    match role {
        Role::Value => {
            all.value = Some(Text::from_slice(alloc, word)?);
            all.lacks = false;
            all.taken += 1;
        }
        Role::Letters => {
            let bytes = word.get(1..).unwrap_or(&[]);
            return with_letters(alloc, valued, all, bytes);
        }
        Role::End => all.taken += 1,
        Role::Operand => {}
    }
    Ok(all)
}

/// The options before the first operand.
fn options_of(
    alloc: Global,
    listed: &[u8],
    valued: &[u8],
    words: &[Text],
) -> Result<Options, NoMemory>
    ensures { IfOk result (λ o. o ≡ options_of listed.now valued.now words.now) }
{
    let mut so_far = no_options(alloc);
    for word in words {
        let role = role_of(listed, valued, so_far.lacks, word.bytes());
        so_far = with_word(alloc, valued, so_far, word.bytes(), role)?;
        if !goes_on(role) {
            return Ok(so_far);
        }
    }
    Ok(so_far)
}

/// The first letter that isn't listed.
fn unlisted(listed: &[u8], letters: &[u8]) -> Option<u8>
    ensures { result ≡ unlisted listed.now letters.now }
{
    letters.iter().copied().find(|b| !is_in(listed, *b))
}

fn letter(alloc: Global, utility: &[u8], letter: u8) -> Result<Construct, NoMemory>
    ensures { IfOk result (λ c. c ≡ Construct.Letter utility.now letter) }
{
    Ok(Construct::Letter(Text::from_slice(alloc, utility)?, letter))
}

/// The options of a utility's words, without its name: the words of a dash and ASCII letters before
/// the first operand, or before `--`. A dash alone is an operand, and so is a word with another
/// byte, unless that is listed. `listed` are the letters that the utility has, and `valued` those
/// of them that take a value: what stands behind the letter in its word, or else the next word.
/// Where there are such, a dash and digits alone is refused by its first digit: the old form of an
/// option with a value. The error is `Refused` by the first letter that isn't listed, and else want
/// of memory. POSIX, Utility Syntax Guidelines 3 to 10. Steps for each byte of the options, times
/// the letters that are listed.
pub fn read_options(
    alloc: Global,
    utility: &[u8],
    listed: &[u8],
    valued: &[u8],
    words: &[Text],
) -> Result<Options, ExecNo>
    ensures { is_free is_want result ≡ false →
        result ≡ read_options utility.now listed.now valued.now words.now }
{
    let options = options_of(alloc, listed, valued, words)?;
    match unlisted(listed, options.letters.bytes()) {
        Some(other) => Err(ExecNo::Refused(letter(alloc, utility, other)?)),
        None => Ok(options),
    }
}
