//! `test`: the form of an expression.
ghost use Rattle.std.specs.Prelude.{◌≡◌};
ghost use Rattle.em_lineutil.specs.Tests as tests;
ghost use Rattle.em_lineutil.specs.Tests.{unary_of, binary_of, mode_letter, is_compared, mode_form, unary_form, binary_form, by_order};

use em_base::Text;

/// An operator before a word.
#[derive(Clone, Copy, Debug, PartialEq, Eq)]
pub enum Unary {
    /// `-n`: the word isn't empty.
    Filled,
    /// `-z`: it is.
    Empty,
    /// `-e`: something is at this path.
    Exists,
    /// `-f`: it is a file.
    IsFile,
    /// `-d`: it is a directory.
    IsDir,
    /// `-s`: it is a file that isn't empty.
    HasBytes,
    /// `-h`, `-L`: the name itself is a symbolic link.
    IsLink,
}

/// How two numbers stand.
#[derive(Clone, Copy, Debug, PartialEq, Eq)]
pub enum Relation {
    /// `-eq`
    Equal,
    /// `-ne`
    Unequal,
    /// `-lt`
    Below,
    /// `-le`
    AtMost,
    /// `-gt`
    Above,
    /// `-ge`
    AtLeast,
}

/// An operator between two words.
#[derive(Clone, Copy, Debug, PartialEq, Eq)]
pub enum Binary {
    /// `=`: they are the same text.
    Same,
    /// `!=`: they aren't.
    Other,
    /// They are numbers that stand so.
    Number(Relation),
    /// `-nt`: both are there, and the first has the greater stamp.
    Newer,
    /// `-ot`: both are there, and the second has the greater stamp.
    Older,
}

/// The form of an expression without a `!` before it.
#[derive(Clone, Copy, Debug, PartialEq, Eq)]
pub enum Form {
    /// A word alone, which is true where it isn't empty.
    Word,
    /// An operator and a word.
    Unary(Unary),
    /// An operator between two words.
    Binary(Binary),
    /// An operator on modes, which aren't known: its letter.
    Letter(u8),
    /// No expression.
    Syntax,
}

fn unary_of(operator: &[u8]) -> Option<Unary>
    ensures { result ≡ unary_of operator.now }
{
    match operator {
        b"-n" => Some(Unary::Filled),
        b"-z" => Some(Unary::Empty),
        b"-e" => Some(Unary::Exists),
        b"-f" => Some(Unary::IsFile),
        b"-d" => Some(Unary::IsDir),
        b"-s" => Some(Unary::HasBytes),
        b"-h" | b"-L" => Some(Unary::IsLink),
        _ => None,
    }
}

fn binary_of(operator: &[u8]) -> Option<Binary>
    ensures { result ≡ binary_of operator.now }
{
    match operator {
        b"=" => Some(Binary::Same),
        b"!=" => Some(Binary::Other),
        b"-eq" => Some(Binary::Number(Relation::Equal)),
        b"-ne" => Some(Binary::Number(Relation::Unequal)),
        b"-lt" => Some(Binary::Number(Relation::Below)),
        b"-le" => Some(Binary::Number(Relation::AtMost)),
        b"-gt" => Some(Binary::Number(Relation::Above)),
        b"-ge" => Some(Binary::Number(Relation::AtLeast)),
        b"-nt" => Some(Binary::Newer),
        b"-ot" => Some(Binary::Older),
        _ => None,
    }
}

/// The letter of an operator on modes.
fn mode_letter(operator: &[u8]) -> Option<u8>
    ensures { result ≡ mode_letter operator.now }
{
    match operator {
        b"-r" => Some(b'r'),
        b"-w" => Some(b'w'),
        b"-x" => Some(b'x'),
        _ => None,
    }
}

fn is_compared(words: &[Text]) -> bool
    ensures { result ≡ is_compared words.now }
{
    match words {
        [_, operator, _] => binary_of(operator.bytes()).is_some(),
        _ => false,
    }
}

/// Whether a `!` stands before an expression of the other words.
fn is_negated(words: &[Text]) -> bool
    ensures { result ≡ tests.is_negated words.now }
{
    match words {
        [first, _, ..] => first.bytes() == b"!".as_slice() && !is_compared(words),
        _ => false,
    }
}

/// The expression behind each `!`, and whether they negate it; `so_far` tells it of those before.
/// A few steps for each `!`.
pub fn stripped(so_far: bool, words: &[Text]) -> (bool, &[Text])
    ensures negated { result.0 ≡ (tests.stripped so_far words.now).0 }
    ensures rest { result.1.now ≡ (tests.stripped so_far words.now).1 }
{
    let mut negated = so_far;
    let mut rest = words;
    while is_negated(rest) {
        negated = !negated;
        rest = &rest[1..];
    }
    (negated, rest)
}

fn unary_form(operator: &[u8]) -> Form
    ensures { result ≡ unary_form (unary_of operator.now) operator.now }
{
    match unary_of(operator) {
        Some(unary) => Form::Unary(unary),
        None => match mode_letter(operator) {
            Some(letter) => Form::Letter(letter),
            None => Form::Syntax,
        },
    }
}

fn binary_form(operator: &[u8]) -> Form
    ensures { result ≡ binary_form (binary_of operator.now) }
{
    match binary_of(operator) {
        Some(binary) => Form::Binary(binary),
        None => Form::Syntax,
    }
}

/// The form of an expression without a `!` before it, by the number of its words; of two words the
/// first is the operator, of three the second.
pub fn form_of(words: &[Text]) -> Form
    ensures { result ≡ tests.form_of words.now }
{
    match words {
        [_] => Form::Word,
        [operator, _] => unary_form(operator.bytes()),
        [_, operator, _] => binary_form(operator.bytes()),
        _ => Form::Syntax,
    }
}

/// Whether two numbers stand so.
pub fn is_related(relation: Relation, a: i64, b: i64) -> bool
    ensures { result ≡ tests.is_related relation a b }
{
    let order = a.cmp(&b);
    match relation {
        Relation::Equal => order.is_eq(),
        Relation::Unequal => order.is_ne(),
        Relation::Below => order.is_lt(),
        Relation::AtMost => order.is_le(),
        Relation::Above => order.is_gt(),
        Relation::AtLeast => order.is_ge(),
    }
}
