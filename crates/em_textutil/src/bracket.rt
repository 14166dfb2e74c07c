//! `[`
ghost use Rattle.std.specs.Prelude.{◌≡◌};
ghost use Rattle.em_view.specs.Performs.{Performs};
ghost use Rattle.em_view.specs.Ends.{is_want};
ghost use Rattle.em_textutil.specs.Utilities.{bracketed, lacks_end};

use crate::expression::{ExpressionResult, answer, test_words};
use em_base::Text;
use em_path::Path;
use em_view::{Desk, Done, ExecNo, View};
use std::alloc::Global;

/// Whether the last word isn't a `]`, or there is none.
fn lacks_end(words: &[Text]) -> bool
    ensures { result ≡ lacks_end words.now }
{
    match words.last() {
        Some(last) => last.bytes() != b"]".as_slice(),
        None => true,
    }
}

/// What `[` leaves: what `test` does with the words before the last one, which is to be a `]`.
pub(crate) fn bracketed<V: View>(
    alloc: Global,
    cwd: &Path,
    words: &[Text],
    desk: &mut Desk<V>,
) -> Result<Done, ExecNo>
    ensures { Performs is_want V.tells desk.old desk.new result (bracketed cwd.now words.now) }
{
    if lacks_end(words) {
        return Ok(answer(alloc, false, ExpressionResult::Syntax)?);
    }
    let end = words.len().saturating_sub(1);
    test_words(alloc, cwd, &words[..end], desk)
}
