//! Whether something stands at a path.
ghost use Rattle.std.specs.Prelude.{◌≡◌, ℕ, List, Bool, Result, IfOk, IfErr, false};
ghost use Rattle.em_view.specs.declared.no.DeskNo.{DeskNo as Refusal};
ghost use Rattle.em_view.specs.declared.no.DeskNo.TheVariants as no;
ghost use Rattle.em_view.specs.Rows.{Acts, is_refusal};
ghost use Rattle.em_implicit.specs.Asking.{Ask, Had, acted, is_something};
ghost use Rattle.em_implicit.specs.Seeking.{stands};

use em_path::Path;
use em_tree::{Kind, Tree};
use em_view::{Desk, DeskNo, View};
use std::alloc::Global;

/// Who is asked what stands where.
pub trait There: Drop {
    /// What one question does, from one moment to the next, and its answer.
    ghost asks: { Self → Self → List ℕ → Result Bool Refusal → Type 0 };

    /// Whether something stands at the path, behind the links on its way.
    fn is_there(&mut self, alloc: Global, path: &Path) -> Result<bool, DeskNo>
        ensures asked { asks self.old self.new path.now result }
        ensures unrefused { IfErr result (λ e. is_refusal e ≡ false) };
}

/// A tree, which answers each question alike, however often it is asked.
#[derive(Drop)]
pub struct OnTree<'a> {
    pub tree: &'a Tree,
}

impl<'a> There for OnTree<'a> {
    ghost asks = { λ a b p r. (b ≡ a) × IfOk r (λ v. v ≡ stands a.tree.now p)
        × IfErr r (λ e. e ≡ no.NoMemory) };

    fn is_there(&mut self, _alloc: Global, path: &Path) -> Result<bool, DeskNo> {
        Ok(self.tree.behind(path)?.is_some())
    }
}

/// Whether something is there.
fn is_something(kind: Kind) -> bool
    ensures { result ≡ is_something kind }
{
    kind != Kind::Absent
}

impl<V: View> There for Desk<V> {
    ghost asks = { λ a b p r. Acts V.tells a b r (acted (Ask p Had)) };

    /// The kind of the path, which costs what the desk takes for it.
    fn is_there(&mut self, _alloc: Global, path: &Path) -> Result<bool, DeskNo> {
        Ok(is_something(self.kind(path)?))
    }
}
