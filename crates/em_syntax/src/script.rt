//! The command substitutions of a word.
ghost use Rattle.std.specs.Prelude.{◌≡◌, ◌≤◌, length, slice_get, Some, IsNone, IfSome};
ghost use Rattle.em_syntax.specs.Scripts.{scripts};

use crate::tree::{Script, Word, WordWhat};

impl Word {
    /// The command substitution of number n, counted from 0 from left to right. Those in an
    /// argument count, those inside another substitution don't. `None` exactly where there are not
    /// so many. It takes no memory, and a step for each of the word's pieces.
    pub fn script(&self, n: usize) -> Option<&Script>
        ensures found { IfSome result (λ s. slice_get (scripts self.now) n ≡ Some s.now) }
        ensures none { IsNone result → length (scripts self.now) ≤ n }
    {
        let mut left = n;
        for piece in &self.pieces {
            if let WordWhat::Output(script) = &piece.what {
                if left == 0 {
                    return Some(script);
                }
                left -= 1;
            }
        }
        None
    }
}
