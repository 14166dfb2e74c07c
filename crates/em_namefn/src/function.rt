//! The functions by their names.
ghost use Rattle.std.specs.Prelude.{◌≡◌, Ok, None, IfOk};
ghost use Rattle.em_namefn.specs.Functions as functions;
ghost use Rattle.em_namefn.specs.Functions.{value_of, argument};

use crate::list;
use crate::name::NamePart;
use em_base::{NoMemory, Text};
use std::alloc::Global;

/// A function on file names.
#[derive(Clone, Copy)]
enum NameFunction {
    Dir,
    NotDir,
    Suffix,
    BaseName,
    AddSuffix,
    AddPrefix,
    Join,
}

/// The function of this name, where it is one of these.
fn function_of(name: &[u8]) -> Option<NameFunction>
    ensures { result ≡ functions.function_of name.now }
{
    match name {
        b"dir" => Some(NameFunction::Dir),
        b"notdir" => Some(NameFunction::NotDir),
        b"suffix" => Some(NameFunction::Suffix),
        b"basename" => Some(NameFunction::BaseName),
        b"addsuffix" => Some(NameFunction::AddSuffix),
        b"addprefix" => Some(NameFunction::AddPrefix),
        b"join" => Some(NameFunction::Join),
        _ => None,
    }
}

/// The n-th argument; one that isn't there is empty.
fn argument(n: usize, args: &[Text]) -> &[u8]
    ensures { result.now ≡ argument n args.now }
{
    match args.get(n) {
        Some(text) => text.bytes(),
        None => b"",
    }
}

fn value(alloc: Global, function: NameFunction, args: &[Text]) -> Result<Text, NoMemory>
    ensures { IfOk result (λ t. t ≡ value_of function args.now) }
{
    let (first, second) = (argument(0, args), argument(1, args));
    match function {
        NameFunction::Dir => list::part(alloc, NamePart::Dir, first),
        NameFunction::NotDir => list::part(alloc, NamePart::File, first),
        NameFunction::Suffix => list::suffix(alloc, first),
        NameFunction::BaseName => list::part(alloc, NamePart::Base, first),
        NameFunction::AddSuffix => list::add_suffix(alloc, first, second),
        NameFunction::AddPrefix => list::add_prefix(alloc, first, second),
        NameFunction::Join => list::join_pairs(alloc, first, second),
    }
}

/// What the function of this name gives for these arguments, which are expanded: `dir`, `notdir`,
/// `suffix`, `basename`, `addsuffix`, `addprefix` and `join`, as GNU make's manual tells them.
/// `None` exactly where none of these has the name. An argument that isn't there is empty, and one
/// too many is ignored. Steps for each byte of arguments and result.
pub fn name_function(alloc: Global, name: &[u8], args: &[Text]) -> Result<Option<Text>, NoMemory>
    ensures value { IfOk result (λ t. t ≡ functions.name_function name.now args.now) }
    ensures other { functions.function_of name.now ≡ None → result ≡ Ok None }
{
    match function_of(name) {
        Some(function) => Ok(Some(value(alloc, function, args)?)),
        None => Ok(None),
    }
}
