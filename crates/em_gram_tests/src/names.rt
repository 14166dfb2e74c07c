//! Constructs by name.
use em_base::Construct;

/// A construct's mark, or its name.
pub(super) fn name_of(construct: &Construct) -> &'static str {
    match construct {
        Construct::Background => "&",
        Construct::Function => "function",
        Construct::HereDocument => "<<",
        Construct::Arithmetic => "$((",
        Construct::Positional => "positional",
        Construct::Descriptor => "descriptor",
        Construct::Redirection => "redirection",
        Construct::Depth => "depth",
        _ => "",
    }
}
