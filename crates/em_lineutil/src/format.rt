//! `printf`: a format, and what it writes of words.
ghost use Rattle.std.specs.Prelude.{◌<◌, ◌^◌, true, pos, neg_ℤ, if◌then◌else◌, ◌≡◌, ◌++◌, ◌≤◌, [], ◌∷◌, Ok, IfOk, OnOk, IfErr, ◌⊎◌, count_by, length};
ghost use Rattle.std.specs.List.{list_all};
ghost use Rattle.std.specs.Char.{is_ascii_digit};
ghost use Rattle.std.specs.Str.Parse.{without_leading_sign, starts_with_minus, digits_value};
ghost use Rattle.em_lineutil.specs.declared.format.FormatNo.TheVariants.{NoMemory};
ghost use Rattle.em_lineutil.specs.Formats as formats;
ghost use Rattle.em_lineutil.specs.Formats.{is_number, number_of, written, escaped, directive, before, refused, format_of, takes, repeats_by, shown_part, shown, strange_part, strange, behind, left};

use em_base::{NoMemory, Seq, Text};
use itoa::Buffer;
use std::alloc::Global;
use thiserror::Error;

/// A part of a format.
#[derive(Clone, Copy, Debug, PartialEq, Eq)]
pub enum Part {
    /// This byte.
    Byte(u8),
    /// `%s`: the next word.
    Word,
    /// `%d`: the next word, which is a number.
    Number,
}

/// The bytes behind a sign.
fn without_sign(text: &[u8]) -> &[u8]
    ensures { result.now ≡ without_leading_sign text.now }
{
    match text {
        [b'-', digits @ ..] => digits,
        [b'+', digits @ ..] => digits,
        _ => text,
    }
}

/// Whether each byte is a digit.
fn are_digits(text: &[u8]) -> bool
    ensures { result ≡ list_all is_ascii_digit text.now }
{
    text.iter().all(|b| b.is_ascii_digit())
}

/// Whether the text is a number: a sign or none, and 1 to 18 digits.
fn is_number(text: &[u8]) -> bool
    ensures { result ≡ is_number text.now }
{
    let digits = without_sign(text);
    !digits.is_empty() && digits.len() <= 18 && are_digits(digits)
}

/// The number that the digits write.
fn value(digits: &[u8]) -> u64
    requires digits { list_all is_ascii_digit digits.now ≡ true }
    requires short { length digits.now ≤ 18 }
    ensures value { result ≡ digits_value 10 digits.now }
    ensures below { result < 10 ^ 18 }
{
    let mut value = 0;
    for digit in digits {
        value = value * 10 + u64::from(*digit - b'0');
    }
    value
}

/// The number with a minus, if the text begins with one.
fn signed(text: &[u8], value: u64) -> i64
    requires { value < 10 ^ 18 }
    ensures { result ≡ (if starts_with_minus text.now then neg_ℤ (pos value) else pos value) }
{
    if text.first() == Some(&b'-') {
        -(value as i64)
    } else {
        value as i64
    }
}

/// The number that the text is, with a sign or none and 1 to 18 digits, of which the first ones may
/// be zeros; `None` exactly where it is none.
pub fn number(text: &[u8]) -> Option<i64>
    ensures { result ≡ number_of text.now }
{
    if !is_number(text) {
        return None;
    }
    Some(signed(text, value(without_sign(text))))
}

/// Appends what a backslash and a byte behind it stand for.
fn push_escaped(parts: &mut Vec<Part>, byte: u8) -> Result<(), NoMemory>
    ensures { OnOk result (parts.new.items ≡ parts.old.items ++ escaped byte) }
{
    match byte {
        b'n' => parts.push(Part::Byte(b'\n'))?,
        b't' => parts.push(Part::Byte(b'\t'))?,
        b'\\' => parts.push(Part::Byte(b'\\'))?,
        other => {
            parts.push(Part::Byte(b'\\'))?;
            parts.push(Part::Byte(other))?;
        }
    }
    Ok(())
}

/// What a `%` and a byte behind it stand for.
fn directive(byte: u8) -> Option<Part>
    ensures { result ≡ directive byte }
{
    match byte {
        b's' => Some(Part::Word),
        b'd' => Some(Part::Number),
        b'%' => Some(Part::Byte(b'%')),
        _ => None,
    }
}

/// Why a format isn't one.
#[derive(Clone, Copy, Debug, PartialEq, Eq, Error)]
pub enum FormatNo {
    /// The byte behind a `%` that begins no directive, or none where nothing is behind it.
    #[error("a directive of a format")]
    Refused(Option<u8>),
    #[error("out of memory")]
    NoMemory,
}

impl From<em_base::NoMemory> for FormatNo {
    ghost from_gives = { λ _ e. e ≡ NoMemory };

    fn from(_e: em_base::NoMemory) -> FormatNo {
        FormatNo::NoMemory
    }
}

fn push(parts: &mut Vec<Part>, part: Part) -> Result<(), NoMemory>
    ensures { OnOk result (parts.new.items ≡ parts.old.items ++ part ∷ []) }
{
    parts.push(part)?;
    Ok(())
}

/// Appends a directive, and gives what stands behind it.
fn push_directive<'a>(parts: &mut Vec<Part>, behind: &'a [u8]) -> Result<&'a [u8], FormatNo>
    ensures ok { IfOk result (λ r. before parts.new.items (format_of r.now)
        ≡ before parts.old.items (format_of (37 ∷ behind.now))) }
    ensures shorter { IfOk result (λ r. length r.now ≤ length behind.now) }
    ensures err { IfErr result (λ e. (e ≡ FormatNo.NoMemory)
        ⊎ (refused e ≡ before parts.old.items (format_of (37 ∷ behind.now)))) }
{
    let Some((byte, rest)) = behind.split_first() else {
        return Err(FormatNo::Refused(None));
    };
    let Some(part) = directive(*byte) else {
        return Err(FormatNo::Refused(Some(*byte)));
    };
    push(parts, part)?;
    Ok(rest)
}

/// Appends a backslash, or what it stands for with the byte behind it, and gives what stands
/// behind.
fn push_escape<'a>(parts: &mut Vec<Part>, behind: &'a [u8]) -> Result<&'a [u8], FormatNo>
    ensures ok { IfOk result (λ r. before parts.new.items (format_of r.now)
        ≡ before parts.old.items (format_of (92 ∷ behind.now))) }
    ensures shorter { IfOk result (λ r. length r.now ≤ length behind.now) }
    ensures err { IfErr result (λ e. e ≡ FormatNo.NoMemory) }
{
    let Some((byte, rest)) = behind.split_first() else {
        push(parts, Part::Byte(b'\\'))?;
        return Ok(behind);
    };
    push_escaped(parts, *byte)?;
    Ok(rest)
}

/// Appends the first part of a text, and gives what stands behind it.
fn push_part<'a>(parts: &mut Vec<Part>, byte: u8, behind: &'a [u8]) -> Result<&'a [u8], FormatNo>
    ensures ok { IfOk result (λ r. before parts.new.items (format_of r.now)
        ≡ before parts.old.items (format_of (byte ∷ behind.now))) }
    ensures shorter { IfOk result (λ r. length r.now ≤ length behind.now) }
    ensures err { IfErr result (λ e. (e ≡ FormatNo.NoMemory)
        ⊎ (refused e ≡ before parts.old.items (format_of (byte ∷ behind.now)))) }
{
    if byte == b'\\' {
        return push_escape(parts, behind);
    }
    if byte == b'%' {
        return push_directive(parts, behind);
    }
    push(parts, Part::Byte(byte))?;
    Ok(behind)
}

/// The parts of a format: `%s`, `%d`, and bytes. `%%` is a `%`; `\n`, `\t` and `\\` are a newline,
/// a tab and a backslash, and a backslash before another byte stays as both. `Refused` comes
/// exactly where another byte or none stands behind a `%`, with the first such byte. A step for
/// each byte.
pub fn format_of(alloc: Global, text: &[u8]) -> Result<Seq<Part>, FormatNo>
    ensures ok { IfOk result (λ ps. Ok ps ≡ format_of text.now) }
    ensures err { IfErr result (λ e. (e ≡ FormatNo.NoMemory) ⊎ (refused e ≡ format_of text.now)) }
{
    let mut parts = Vec::new(alloc);
    let mut rest = text;
    while let Some((byte, behind)) = rest.split_first() {
        rest = push_part(&mut parts, *byte, behind)?;
    }
    Ok(Seq::from_vec(parts))
}

fn takes(part: Part) -> bool
    ensures { result ≡ takes part }
{
    match part {
        Part::Byte(_) => false,
        Part::Word | Part::Number => true,
    }
}

fn taken(parts: &[Part]) -> usize
    ensures { result ≡ count_by takes parts.now }
{
    parts.iter().filter(|part| takes(**part)).count()
}

fn repeats_by(taken: usize, words: usize) -> usize
    ensures { result ≡ repeats_by taken words }
{
    if taken == 0 || words == 0 {
        1
    } else {
        (words - 1) / taken + 1
    }
}

fn repeats(parts: &[Part], words: &[Text]) -> usize
    ensures { result ≡ formats.repeats parts.now words.now }
{
    repeats_by(taken(parts), words.len())
}

/// The words behind those that the part takes.
fn behind<'a>(part: Part, words: &'a [Text]) -> &'a [Text]
    ensures { result.now ≡ behind part words.now }
{
    match words.split_first() {
        Some((_, rest)) if takes(part) => rest,
        _ => words,
    }
}

fn add_number(out: &mut Text, word: &[u8]) -> Result<(), NoMemory>
    ensures { OnOk result (out.new ≡ out.old ++ written (number_of word.now)) }
{
    if let Some(number) = number(word) {
        out.add(Buffer::new().format(number).as_bytes())?;
    }
    Ok(())
}

fn add_part(out: &mut Text, part: Part, words: &[Text]) -> Result<(), NoMemory>
    ensures { OnOk result (out.new ≡ out.old ++ shown_part part words.now) }
{
    match (part, words.first()) {
        (Part::Byte(byte), _) => out.add(&[byte]),
        (Part::Word, Some(word)) => out.add(word.bytes()),
        (Part::Word, None) => Ok(()),
        (Part::Number, Some(word)) => add_number(out, word.bytes()),
        (Part::Number, None) => out.add(b"0"),
    }
}

/// Appends what the format writes once, and gives the words that are left.
fn add_parts<'a>(out: &mut Text, parts: &[Part], words: &'a [Text]) -> Result<&'a [Text], NoMemory>
    ensures { IfOk result (λ ws. (out.new ≡ out.old ++ shown parts.now words.now)
        × (ws.now ≡ left parts.now words.now)) }
{
    let mut rest = words;
    for part in parts {
        add_part(out, *part, rest)?;
        rest = behind(*part, rest);
    }
    Ok(rest)
}

/// What the format writes of the words: it is written again as long as words are left, if it takes
/// any. A word that is missing is empty, or 0; of one that should be a number and isn't nothing is
/// written. A step for each byte that is written, and for each part of the format each time.
#[tactic(auto, unfolding(crate::specs::Formats::printed))]
pub fn printed(alloc: Global, parts: &[Part], words: &[Text]) -> Result<Text, NoMemory>
    ensures { IfOk result (λ t. t ≡ formats.printed parts.now words.now) }
{
    let mut out = Text::new(alloc);
    let mut rest = words;
    let mut times = repeats(parts, words);
    while times > 0 {
        rest = add_parts(&mut out, parts, rest)?;
        times -= 1;
    }
    Ok(out)
}

fn push_strange(
    alloc: Global,
    all: &mut Seq<Text>,
    part: Part,
    words: &[Text],
) -> Result<(), NoMemory>
    ensures { OnOk result (all.new ≡ all.old ++ strange_part part words.now) }
{
    match (part, words.first()) {
        (Part::Number, Some(word)) => {
            if number(word.bytes()).is_none() {
                all.push(word.copy(alloc)?)?;
            }
            Ok(())
        }
        _ => Ok(()),
    }
}

/// Appends the words that are strange to the format once, and gives the words that are left.
fn push_all_strange<'a>(
    alloc: Global,
    all: &mut Seq<Text>,
    parts: &[Part],
    words: &'a [Text],
) -> Result<&'a [Text], NoMemory>
    ensures { IfOk result (λ ws. (all.new ≡ all.old ++ strange parts.now words.now)
        × (ws.now ≡ left parts.now words.now)) }
{
    let mut rest = words;
    for part in parts {
        push_strange(alloc, all, *part, rest)?;
        rest = behind(*part, rest);
    }
    Ok(rest)
}

/// The words that should be numbers and aren't, in the order in which the format takes them. A step
/// for each byte of the words, and for each part of the format each time.
#[tactic(auto, unfolding(crate::specs::Formats::faults))]
pub fn faults(alloc: Global, parts: &[Part], words: &[Text]) -> Result<Seq<Text>, NoMemory>
    ensures { IfOk result (λ ws. ws ≡ formats.faults parts.now words.now) }
{
    let mut all = Seq::new(alloc);
    let mut rest = words;
    let mut times = repeats(parts, words);
    while times > 0 {
        rest = push_all_strange(alloc, &mut all, parts, rest)?;
        times -= 1;
    }
    Ok(all)
}
