//! Names that can stand in a line.
ghost use Rattle.std.specs.Prelude.{◌≡◌, not};
ghost use Rattle.std.specs.List.{list_all};
ghost use Rattle.em_history.specs.Names as names;

/// Whether the byte can't stand in a name.
fn parts_names(byte: u8) -> bool
    ensures { result ≡ names.parts_names byte }
{
    matches!(byte, b' ' | b'\t' | b'\n' | 0)
}

fn all_stand(text: &[u8]) -> bool
    ensures { result ≡ list_all (λ b. not (names.parts_names b)) text.now }
{
    text.iter().all(|b| !parts_names(*b))
}

/// Whether the text can stand in a line with blanks between names: it isn't empty, and holds no
/// space, tab, newline or NUL. Linear.
pub fn is_name(text: &[u8]) -> bool
    ensures { result ≡ names.is_name text.now }
{
    !text.is_empty() && all_stand(text)
}
