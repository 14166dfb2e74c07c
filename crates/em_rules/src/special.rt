//! What the special targets say.
ghost use Rattle.std.specs.Prelude.{◌≡◌, IfOk};
ghost use Rattle.em_rules.specs.Rules.{covered, special};

use crate::rules::Rules;
use em_base::{NoMemory, Seq, Text};
use std::alloc::Global;

/// Which names a special target speaks of.
#[derive(Debug, Drop)]
pub enum Names {
    /// All: it stands without prerequisites.
    All,
    /// Its prerequisites, in order; none where it is no target.
    Listed(Seq<Text>),
}

/// What the special targets of a makefile say.
#[derive(Debug, Drop)]
pub struct Special {
    /// The prerequisites of `.PHONY`, in order: names that no file stands for.
    pub phony: Seq<Text>,
    /// What `.SILENT` says: whose recipes aren't echoed.
    pub silent: Names,
    /// What `.IGNORE` says: whose recipes' failures are ignored.
    pub ignore: Names,
    /// Whether `.DELETE_ON_ERROR` is a target: a failed recipe's target is then deleted.
    pub delete_on_error: bool,
}

/// The names that a special target speaks of.
fn covered(alloc: Global, rules: &Rules, target: &[u8]) -> Result<Names, NoMemory>
    ensures { IfOk result (λ n. n ≡ covered rules.now target.now) }
{
    let listed = rules.prerequisites_of(alloc, target)?;
    if rules.is_target(target) && listed.is_empty() {
        return Ok(Names::All);
    }
    Ok(Names::Listed(listed))
}

/// What the special targets of the rules say: a search for each, and a copy of their prerequisites.
pub(crate) fn special_of(alloc: Global, rules: &Rules) -> Result<Special, NoMemory>
    ensures { IfOk result (λ s. s ≡ special rules.now) }
{
    Ok(Special {
        phony: rules.prerequisites_of(alloc, b".PHONY")?,
        silent: covered(alloc, rules, b".SILENT")?,
        ignore: covered(alloc, rules, b".IGNORE")?,
        delete_on_error: rules.is_target(b".DELETE_ON_ERROR"),
    })
}
