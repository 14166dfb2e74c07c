//! The forms of `$name` and `${name..}`.
ghost use Rattle.std.specs.Prelude.{◌≡◌, option_map};
ghost use Rattle.em_fields.specs.Forms as forms;

use crate::cut::Cut;

/// What a value is made of. With a colon a variable that is empty counts as unset.
#[derive(Clone, Copy, Debug, PartialEq, Eq)]
pub enum Form {
    /// `$name`: the variable's text, nothing where it is unset
    Value,
    /// `${#name}`: its length in bytes
    Length,
    /// `$?`: the status of the last command
    Status,
    /// `${name-word}`: the word where the variable is unset
    Default { colon: bool },
    /// `${name=word}`: the same, and the variable is set to it
    Assign { colon: bool },
    /// `${name?word}`: where it is unset, an error with this text
    Error { colon: bool },
    /// `${name+word}`: the word where the variable is set, else nothing
    Alternative { colon: bool },
    /// `${name%pattern}` and its kin: the text without what matches
    Cut(Cut),
}

/// A form without an argument.
fn bare_form(name: &[u8], form: &[u8]) -> Option<Form>
    ensures { result ≡ forms.bare_form name.now form.now }
{
    match form {
        b"" => Some(Form::Value),
        b"#" => Some(Form::Length),
        b"?" if name.is_empty() => Some(Form::Status),
        _ => None,
    }
}

/// A form with an argument.
fn argued_form(form: &[u8]) -> Option<Form>
    ensures { result ≡ forms.argued_form form.now }
{
    match form {
        b"-" => Some(Form::Default { colon: false }),
        b":-" => Some(Form::Default { colon: true }),
        b"=" => Some(Form::Assign { colon: false }),
        b":=" => Some(Form::Assign { colon: true }),
        b"?" => Some(Form::Error { colon: false }),
        b":?" => Some(Form::Error { colon: true }),
        b"+" => Some(Form::Alternative { colon: false }),
        b":+" => Some(Form::Alternative { colon: true }),
        b"%" => Some(Form::Cut(Cut::ShortSuffix)),
        b"%%" => Some(Form::Cut(Cut::LongSuffix)),
        b"#" => Some(Form::Cut(Cut::ShortPrefix)),
        b"##" => Some(Form::Cut(Cut::LongPrefix)),
        _ => None,
    }
}

/// The form that is written between the name and the argument. `None` exactly where a parameter
/// can't be expanded so. Takes no memory, and a bounded number of steps.
pub fn form_of(name: &[u8], form: &[u8], argued: bool) -> Option<Form>
    ensures { result ≡ forms.form_of name.now form.now argued }
{
    if argued {
        argued_form(form)
    } else {
        bare_form(name, form)
    }
}

/// What is known of a value before its argument.
#[derive(Clone, Copy, Debug, PartialEq, Eq)]
pub enum Early<'a> {
    /// It is this text, and the argument isn't expanded.
    Text(&'a [u8]),
    /// It is this number, in decimal.
    Number(usize),
    /// It takes the argument.
    Argument,
}

/// Whether the variable has a text. With a colon the empty one is none.
fn has(colon: bool, value: Option<&[u8]>) -> bool
    ensures { result ≡ forms.has colon (option_map (λ v. v.now) value.entry) }
{
    value.is_some_and(|v| !colon || !v.is_empty())
}

/// The text, the empty one where there is none.
fn text<'a>(value: Option<&'a [u8]>) -> &'a [u8]
    ensures { result.now ≡ forms.text (option_map (λ v. v.now) value.entry) }
{
    value.unwrap_or(b"")
}

/// The value, where the argument doesn't bear on it.
pub fn early_value<'a>(form: Form, value: Option<&'a [u8]>, status: u8) -> Early<'a>
    ensures { forms.told result
        ≡ forms.early_value form (option_map (λ v. v.now) value.entry) status }
{
    match form {
        Form::Value => Early::Text(text(value)),
        Form::Length => Early::Number(text(value).len()),
        Form::Status => Early::Number(usize::from(status)),
        Form::Default { colon } | Form::Assign { colon } | Form::Error { colon } => {
            if has(colon, value) {
                return Early::Text(text(value));
            }
            Early::Argument
        }
        Form::Alternative { colon } => {
            if has(colon, value) {
                return Early::Argument;
            }
            Early::Text(b"")
        }
        Form::Cut(_) => Early::Argument,
    }
}

/// What is made of the argument, where it bears on the value.
#[derive(Clone, Copy, Debug, PartialEq, Eq)]
pub enum Late {
    /// The value is the argument, as it is.
    Keep,
    /// The variable is set to it, and the value is its text.
    Assign,
    /// It is the text of an error.
    Complain,
    /// It is a pattern, and the value is the variable's text without what matches.
    Cut(Cut),
}

/// What is made of the argument. Where none bears on the value, it would be kept.
pub fn late_value(form: Form) -> Late
    ensures { result ≡ forms.late_value form }
{
    match form {
        Form::Value
        | Form::Length
        | Form::Status
        | Form::Default { .. }
        | Form::Alternative { .. } => Late::Keep,
        Form::Assign { .. } => Late::Assign,
        Form::Error { .. } => Late::Complain,
        Form::Cut(cut) => Late::Cut(cut),
    }
}
