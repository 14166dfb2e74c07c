//! Texts of what was found, compared with what is expected.
use em_base::Text;

/// Appends this. A part for which there is no memory is left out, and the text isn't what is
/// expected.
pub fn put_part(to: &mut Text, part: &[u8]) {
    let _ = to.add(part);
}

/// Appends these. A part for which there is no memory is left out, and the text isn't what is
/// expected.
pub fn put_all(to: &mut Text, parts: &[&[u8]]) {
    for part in parts {
        let _ = to.add(part);
    }
}
