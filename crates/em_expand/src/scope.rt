//! Where a text stands: the names that are bound there, and the variables that are being expanded.
ghost use Rattle.std.specs.Prelude.{◌≡◌, option_map};
ghost use Rattle.em_expand.specs.Scopes.{frames_of, nth, argument, argument_of, bound, is_open};

use em_base::{Text, number, trim};

/// The names that are bound and the variables that are being expanded around a text. Each scope
/// stands in an outer one and lies on the stack of the call that made it, so that nothing is to be
/// restored.
#[derive(Clone, Copy)]
pub(crate) enum Scope<'a> {
    /// Nothing is bound.
    Top,
    /// A turn of `foreach`: its name and its word.
    Each(&'a [u8], &'a [u8], &'a Scope<'a>),
    /// A `call`: its arguments, the first of them the name that is called.
    Called(&'a [Text], &'a Scope<'a>),
    /// The text of the recursive variable of this name.
    Within(&'a [u8], &'a Scope<'a>),
}

/// The n-th argument; one that isn't there is empty.
pub(crate) fn nth(n: usize, args: &[Text]) -> &[u8]
    ensures { result.now ≡ nth n args.now }
{
    match args.get(n) {
        Some(text) => text.bytes(),
        None => b"",
    }
}

/// What a call binds a number to: 0 to the name that is called, without blanks at its ends.
pub(crate) fn argument(args: &[Text], n: usize) -> &[u8]
    ensures { result.now ≡ argument args.now n }
{
    let text = nth(n, args);
    if n == 0 { trim(text) } else { text }
}

/// What a call binds a name to, where the name is a number.
fn argument_of<'a>(args: &'a [Text], name: &[u8]) -> Option<&'a [u8]>
    ensures { option_map (λ t. t.now) result ≡ argument_of args.now name.now }
{
    let n = number(u32::MAX as u64, name)?;
    Some(argument(args, n as usize))
}

/// What the innermost turn of `foreach` or `call` that binds the name binds it to. Steps for each
/// scope.
pub(crate) fn bound<'a>(scope: &Scope<'a>, name: &[u8]) -> Option<&'a [u8]>
    ensures { option_map (λ t. t.now) result ≡ bound (frames_of scope.now) name.now }
{
    match scope {
        Scope::Top => None,
        Scope::Each(this, word, outer) => {
            if *this == name {
                return Some(*word);
            }
            bound(*outer, name)
        }
        Scope::Called(args, outer) => match argument_of(*args, name) {
            Some(text) => Some(text),
            None => bound(*outer, name),
        },
        Scope::Within(_, outer) => bound(*outer, name),
    }
}

/// Whether the recursive variable of this name is being expanded. Steps for each scope.
pub(crate) fn is_open(scope: &Scope, name: &[u8]) -> bool
    ensures { result ≡ is_open (frames_of scope.now) name.now }
{
    match scope {
        Scope::Top => false,
        Scope::Each(_, _, outer) => is_open(*outer, name),
        Scope::Called(_, outer) => is_open(*outer, name),
        Scope::Within(this, outer) => *this == name || is_open(*outer, name),
    }
}
