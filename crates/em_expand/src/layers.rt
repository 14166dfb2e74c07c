//! The variables with which a text is expanded.
ghost use Rattle.std.specs.Prelude.{◌≡◌, option_map};
ghost use Rattle.em_vars.specs.Entries.{value_of};
ghost use Rattle.em_expand.specs.Layered.{entries_of, own_text, var_of};

use em_base::Text;
use em_vars::{Var, Vars};
use std::marker::Model;

/// A variable of a text's own: simple, of origin `Automatic`, and not exported. Contracts see the
/// pair of its name and its text.
#[derive(Drop)]
pub struct OwnVar {
    name: &'static [u8],
    text: Text,
}

impl Model for OwnVar {
    ghost use Rattle.std.specs.Prelude.{ℕ, List};

    ghost Value = { List ℕ × List ℕ };

    ghost view = { λ v. (v.name.now, v.text) };
}

impl OwnVar {
    /// The variable of this name and text.
    pub fn new(name: &'static [u8], text: Text) -> OwnVar
        ensures { result ≡ (name.now, text) }
    {
        OwnVar { name, text }
    }
}

/// Variables that many texts share, and over them some of the text's own, so that none is copied.
#[derive(Clone, Copy)]
pub struct Layers<'a> {
    pub shared: &'a Vars,
    /// They hide shared ones. Where two have the same name, the first is meant.
    pub own: &'a [OwnVar],
}

/// A variable, and the layer in which it is.
pub(crate) enum LayeredVar<'a> {
    /// A text of its own.
    Own(&'a [u8]),
    Shared(&'a Var),
}

/// The text of a text's own variable of this name; `None` exactly where there is none. Steps for
/// each of the variables.
pub fn own_text<'a>(own: &'a [OwnVar], name: &[u8]) -> Option<&'a [u8]>
    ensures { option_map (λ t. t.now) result ≡ own_text own.now name.now }
{
    let var = own.iter().find(|v| name == v.name)?;
    Some(var.text.bytes())
}

/// The variable of this name. A search, and steps for each of the text's own variables.
#[tactic(auto, using(crate::proofs::Layering::own_value, crate::proofs::Layering::shared_value))]
pub(crate) fn variable_of<'a>(vars: &Layers<'a>, name: &[u8]) -> Option<LayeredVar<'a>>
    ensures { option_map var_of result ≡ value_of (entries_of vars.now) name.now }
{
    if let Some(text) = own_text(vars.own, name) {
        return Some(LayeredVar::Own(text));
    }
    let var = vars.shared.get(name)?;
    Some(LayeredVar::Shared(var))
}
