//! What a lexeme holds. The caller has looked at its kind, so that another lexeme doesn't come:
//! only for such a one the answer is want of memory.
ghost use Rattle.std.specs.Prelude.{◌≡◌, ℕ, Bool, List, IfOk, IsOk};
ghost use Rattle.em_lexeme.specs.declared.lexeme.What.TheVariants as What;

use em_base::{NoMemory, Text};
use em_lexeme::What;

/// Whether bytes are quoted, and the bytes.
pub fn bytes_in(what: &What) -> Result<(bool, &Text), NoMemory>
    ensures held { IfOk result (λ x. what.now ≡ What.Bytes x.0 x.1.now) }
    ensures comes { (quoted : Bool) (text : List ℕ)
        → what.now ≡ What.Bytes quoted text → IsOk result }
{
    match what {
        What::Bytes { quoted, text } => Ok((*quoted, text)),
        _ => Err(NoMemory),
    }
}

/// Whether a value is quoted, its name and its form.
pub fn value_in(what: &What) -> Result<(bool, &Text, &Text), NoMemory>
    ensures held { IfOk result (λ x. what.now ≡ What.Value x.0 x.1.now x.2.now) }
    ensures comes { (quoted : Bool) (name form : List ℕ)
        → what.now ≡ What.Value quoted name form → IsOk result }
{
    match what {
        What::Value { quoted, name, form } => Ok((*quoted, name, form)),
        _ => Err(NoMemory),
    }
}

/// Whether a value with an argument is quoted, its name and its form.
pub fn argument_in(what: &What) -> Result<(bool, &Text, &Text), NoMemory>
    ensures held { IfOk result (λ x. what.now ≡ What.ArgumentStart x.0 x.1.now x.2.now) }
    ensures comes { (quoted : Bool) (name form : List ℕ)
        → what.now ≡ What.ArgumentStart quoted name form → IsOk result }
{
    match what {
        What::ArgumentStart { quoted, name, form } => Ok((*quoted, name, form)),
        _ => Err(NoMemory),
    }
}

/// Whether a substitution is quoted.
pub fn substitution_in(what: &What) -> Result<bool, NoMemory>
    ensures held { IfOk result (λ x. what.now ≡ What.SubstitutionStart x) }
    ensures comes { (quoted : Bool) → what.now ≡ What.SubstitutionStart quoted → IsOk result }
{
    match what {
        What::SubstitutionStart { quoted } => Ok(*quoted),
        _ => Err(NoMemory),
    }
}

/// The number.
pub fn number_in(what: &What) -> Result<u8, NoMemory>
    ensures held { IfOk result (λ x. what.now ≡ What.Number x) }
    ensures comes { (n : ℕ) → what.now ≡ What.Number n → IsOk result }
{
    match what {
        What::Number(n) => Ok(*n),
        _ => Err(NoMemory),
    }
}
