//! Which job changed a path last.
ghost use Rattle.std.specs.Prelude.{◌≡◌, ◌<◌, ◌^◌, length};
ghost use Rattle.em_engine.specs.Fronts.{named_last};

use em_path::Path;
use em_tree::Delta;

/// The place of the last of these deltas that names the path. A search in each, from the last one
/// back.
pub(crate) fn named_last(deltas: &[Delta], p: &Path) -> Option<u32>
    requires { length deltas.now < 2 ^ 32 }
    ensures { result ≡ named_last deltas.now p.now }
{
    let mut left = deltas.len();
    while left > 0 {
        left -= 1;
        if deltas[left].get(p).is_some() {
            return Some(left as u32);
        }
    }
    None
}
