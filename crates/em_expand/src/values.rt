//! What is known of a variable, where a text stands.
ghost use Rattle.std.specs.Prelude.{◌≡◌};
ghost use Rattle.em_expand.specs.Layered.{entries_of};
ghost use Rattle.em_expand.specs.Scopes.{frames_of};
ghost use Rattle.em_expand.specs.Values.{stands, meaning_of, text_of, origin_of, flavour_of};

use crate::layers::{LayeredVar, Layers, variable_of};
use crate::scope::{Scope, bound};
use em_vars::{Flavour, Origin};

/// What a name stands for.
#[derive(Drop)]
pub(crate) enum Meaning<'b, 'v> {
    /// The text that it is bound to.
    Bound(&'b [u8]),
    /// A variable's text as it is.
    Simple(&'v [u8]),
    /// A variable's text, which is expanded.
    Recursive(&'v [u8]),
}

/// What the name stands for: what it is bound to, else its variable's text; an undefined name is
/// empty. One search, and steps for each scope.
pub(crate) fn meaning_of<'b, 'v>(
    vars: &Layers<'v>,
    scope: &Scope<'b>,
    name: &[u8],
) -> Meaning<'b, 'v>
    ensures { stands result ≡ meaning_of (entries_of vars.now) (frames_of scope.now) name.now }
{
    if let Some(text) = bound(scope, name) {
        return Meaning::Bound(text);
    }
    match variable_of(vars, name) {
        None => Meaning::Simple(b""),
        Some(LayeredVar::Own(text)) => Meaning::Simple(text),
        Some(LayeredVar::Shared(var)) => match var.flavour {
            Flavour::Simple => Meaning::Simple(var.text.bytes()),
            Flavour::Recursive => Meaning::Recursive(var.text.bytes()),
        },
    }
}

/// `value`: the text, unexpanded.
pub(crate) fn text_of<'a>(vars: &Layers<'a>, scope: &Scope<'a>, name: &[u8]) -> &'a [u8]
    ensures { result.now ≡ text_of (entries_of vars.now) (frames_of scope.now) name.now }
{
    match meaning_of(vars, scope, name) {
        Meaning::Bound(text) => text,
        Meaning::Simple(text) => text,
        Meaning::Recursive(text) => text,
    }
}

/// `origin`: where the name's value comes from.
pub(crate) fn origin_of(vars: &Layers, scope: &Scope, name: &[u8]) -> &'static [u8]
    ensures { result.now ≡ origin_of (entries_of vars.now) (frames_of scope.now) name.now }
{
    if bound(scope, name).is_some() {
        return b"automatic";
    }
    match variable_of(vars, name) {
        None => b"undefined",
        Some(LayeredVar::Own(_)) => b"automatic",
        Some(LayeredVar::Shared(var)) => match var.origin {
            Origin::Default => b"default",
            Origin::File => b"file",
            Origin::CommandLine => b"command line",
            Origin::Override => b"override",
            Origin::Automatic => b"automatic",
        },
    }
}

/// `flavor`: whether the name's text is expanded at each use.
pub(crate) fn flavour_of(vars: &Layers, scope: &Scope, name: &[u8]) -> &'static [u8]
    ensures { result.now ≡ flavour_of (entries_of vars.now) (frames_of scope.now) name.now }
{
    if bound(scope, name).is_some() {
        return b"simple";
    }
    match variable_of(vars, name) {
        None => b"undefined",
        Some(LayeredVar::Own(_)) => b"simple",
        Some(LayeredVar::Shared(var)) => match var.flavour {
            Flavour::Simple => b"simple",
            Flavour::Recursive => b"recursive",
        },
    }
}
