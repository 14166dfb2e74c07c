//! Whether what a pattern rule makes for a match is there.
ghost use Rattle.std.specs.Prelude.{◌≡◌, IfErr, IfOk, false};
ghost use Rattle.em_view.specs.Rows.{is_refusal};
ghost use Rattle.em_implicit.specs.Asking.{Asked};
ghost use Rattle.em_implicit.specs.Seeking.{path_of, name_there, all_there, applying, seen};

use crate::candidates::Candidate;
use crate::made::prerequisites_of;
use crate::there::There;
use em_base::{NoMemory, Text};
use em_path::{Path, PathNo};
use em_rules::Rules;
use em_view::DeskNo;
use std::alloc::Global;

/// By what names are looked up.
#[derive(Clone, Copy)]
pub(crate) struct Known<'a> {
    pub rules: &'a Rules,
    pub cwd: &'a Path,
}

/// The path that a name is; `None` exactly where it is none.
fn path_of(alloc: Global, cwd: &Path, name: &[u8]) -> Result<Option<Path>, NoMemory>
    ensures { IfOk result (λ p. p ≡ path_of cwd.now name.now) }
{
    match Path::read(alloc, cwd, name) {
        Ok(path) => Ok(Some(path)),
        Err(PathNo::NoMemory) => Err(NoMemory),
        Err(_) => Ok(None),
    }
}

impl Known<'_> {
    /// Whether the name is mentioned as a target or an explicit prerequisite, or something stands
    /// there: the one place where this is asked. A name that is no path is absent.
    fn name_there<T: There>(
        &self,
        alloc: Global,
        name: &[u8],
        there: &mut T,
    ) -> Result<bool, DeskNo>
        ensures asked { Asked T.asks there.old there.new result
            (name_there self.now.rules.now self.now.cwd.now name.now) }
        ensures unrefused { IfErr result (λ e. is_refusal e ≡ false) }
    {
        if self.rules.is_mentioned(name) {
            return Ok(true);
        }
        let Some(path) = path_of(alloc, self.cwd, name)? else {
            return Ok(false);
        };
        there.is_there(alloc, &path)
    }

    /// Whether each of the names is there; it asks up to the first that isn't.
    fn all_there<T: There>(
        &self,
        alloc: Global,
        names: &[Text],
        there: &mut T,
    ) -> Result<bool, DeskNo>
        ensures asked { Asked T.asks there.old there.new result
            (all_there self.now.rules.now self.now.cwd.now names.now) }
        ensures unrefused { IfErr result (λ e. is_refusal e ≡ false) }
    {
        for name in names {
            if !self.name_there(alloc, name.bytes(), there)? {
                return Ok(false);
            }
        }
        Ok(true)
    }

    /// Whether each prerequisite that the rule makes for the match is there.
    pub(crate) fn applies<T: There>(
        &self,
        alloc: Global,
        candidate: &Candidate<'_>,
        there: &mut T,
    ) -> Result<bool, DeskNo>
        ensures asked { Asked T.asks there.old there.new result
            (applying self.now.rules.now self.now.cwd.now (seen candidate.now)) }
        ensures unrefused { IfErr result (λ e. is_refusal e ≡ false) }
    {
        let needed = prerequisites_of(alloc, candidate.rule, candidate.parts)?;
        if !self.all_there(alloc, needed.normal.items(), there)? {
            return Ok(false);
        }
        self.all_there(alloc, needed.order.items(), there)
    }
}
