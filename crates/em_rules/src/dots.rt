//! Names as they are known.
ghost use Rattle.std.specs.Prelude.{◌≡◌, ◌≤◌, length};
ghost use Rattle.em_rules.specs.Dots.{undotted};

use em_base::Text;

/// The name without the `./` that it begins with, however often: `./a` and `a` are one name. `./`
/// alone is the empty name.
pub fn undotted(name: &[u8]) -> &[u8]
    ensures name { result.now ≡ undotted name.now }
    ensures within { length result.now ≤ length name.now }
{
    let mut rest = name;
    while let [b'.', b'/', behind @ ..] = rest {
        rest = behind;
    }
    rest
}

/// The same over the name's own memory.
pub(crate) fn undot(name: Text) -> Text
    ensures { result ≡ undotted name }
{
    let dots = name.bytes().len() - undotted(name.bytes()).len();
    if dots == 0 {
        return name;
    }
    let mut bytes = name.into_vec();
    let left = bytes.len() - dots;
    bytes.as_mut_slice().rotate_left(dots);
    bytes.truncate(left);
    Text::from_vec(bytes)
}
