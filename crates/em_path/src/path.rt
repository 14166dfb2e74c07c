//! A path in a tree.
ghost use Rattle.std.specs.Prelude.{◌≡◌, ◌+◌, ◌<◌, ◌≤◌, ◌∷◌, ◌↔◌, ◌==◌, ◌⊎◌, if◌then◌else◌, nat_eq, refl, length, Some, None, Ok, All, IfOk, IfSome, IfErr, IsNone, IsErrOf, option_copied};
ghost use Rattle.std.specs.Ordering.{nat_cmp};
ghost use Rattle.std.specs.Cmp.Lexicographic.{pointwise, slice_cmp, nat_list_eq_equiv, nat_list_cmp_total, texts_ties, texts_po};
ghost use Rattle.std.specs.Cmp.{partial_equiv_from_equiv};
ghost use Rattle.std.specs.Hash as fed;
ghost use Rattle.std.specs.Cmp.Rules.{hashing};
ghost use Rattle.std.proofs.Common.{rules};
ghost use Rattle.em_path.specs.Paths.{IsComponent, IsPath, root_text, child_text, components, last_of, parent_text, path_text};
ghost use Rattle.em_path.specs.Reading.{read_fault, resolved_text, name_fault_of, limit_fault};
ghost use Rattle.em_path.specs.declared.path.PathNo.TheVariants.{NoMemory};

use crate::name::{depth, front, is_path, joined, last_slash};
use crate::order::order;
use crate::read::{name_fault, resolved};
use bytes::Bytes;
use em_base::NoMemory;
use std::alloc::{AllocError, AllocFailed, Global};
use std::cmp::Ordering;
use std::hash::{Hash, Hasher};
use std::marker::Model;
use thiserror::Error;

/// Why a name is no path. The first that applies counts.
#[derive(Clone, Copy, Debug, PartialEq, Eq, Error)]
pub enum PathNo {
    #[error("the name is empty")]
    Empty,
    #[error("the name holds a NUL")]
    Nul,
    #[error("the name holds a newline")]
    Newline,
    #[error("the path is longer than 1024 bytes")]
    TooLong,
    #[error("the path has more than 64 components")]
    TooDeep,
    #[error("out of memory")]
    NoMemory,
}

impl From<AllocError> for PathNo {
    ghost from_gives = { λ _ e. e ≡ NoMemory };

    fn from(_e: AllocError) -> PathNo {
        PathNo::NoMemory
    }
}

impl<T: Drop> From<AllocFailed<T>> for PathNo {
    ghost from_gives = { λ _ e. e ≡ NoMemory };

    fn from(_e: AllocFailed<T>) -> PathNo {
        PathNo::NoMemory
    }
}

impl From<em_base::NoMemory> for PathNo {
    ghost from_gives = { λ _ e. e ≡ NoMemory };

    fn from(_e: em_base::NoMemory) -> PathNo {
        PathNo::NoMemory
    }
}

/// A list of components, `/` where there is none. Contracts see its text; a copy shares the bytes.
#[derive(Debug, Drop)]
pub struct Path {
    spelled: Bytes,
}

impl Model for Path {
    ghost use Rattle.std.specs.Prelude.{List, ℕ};
    ghost use Rattle.em_path.specs.Paths.{IsPath};

    ghost Value = { List ℕ };

    ghost view = { λ p. p.spelled };

    ghost invariant = { λ p. IsPath p.spelled };
}

impl Path {
    /// The root, `/`.
    pub fn root() -> Path
        ensures text { result ≡ root_text }
        ensures path { IsPath result }
    {
        Path {
            spelled: Bytes::from_static(b"/"),
        }
    }

    /// The path that this text spells. `None` comes exactly where it spells none, and then also
    /// where memory is short. Steps for each byte.
    pub fn from_text(alloc: Global, text: &[u8]) -> Result<Option<Path>, NoMemory>
        ensures some { IfOk result (λ r. IfSome r (λ p. p ≡ text.now)) }
        ensures none { IfOk result (λ r. IsNone r ↔ (IsPath text.now → ⊥)) }
        ensures refused { (IsPath text.now → ⊥) → result ≡ Ok None }
    {
        if !is_path(text) {
            return Ok(None);
        }
        Ok(Some(Path {
            spelled: Bytes::copy_from_slice(alloc, text)?,
        }))
    }

    /// The path that these bytes spell, without a copy. `None` comes exactly where they spell none.
    pub fn from_bytes(spelled: Bytes) -> Option<Path>
        ensures some { IfSome result (λ p. p ≡ spelled) }
        ensures none { IsNone result ↔ (IsPath spelled → ⊥) }
    {
        if is_path(spelled.as_slice()) {
            Some(Path { spelled })
        } else {
            None
        }
    }

    /// The text: `/`, or each component behind a `/`.
    pub fn text(&self) -> &[u8]
        ensures text { result.now ≡ self.now }
        ensures path { IsPath self.now }
    {
        self.spelled.as_slice()
    }

    /// The last component; `None` for the root alone.
    pub fn last(&self) -> Option<&[u8]>
        ensures { option_copied result ≡ last_of self.now }
    {
        let text = self.text();
        if text.len() == 1 {
            return None;
        }
        Some(&text[last_slash(text) + 1..])
    }

    /// The text of the path without its last component; `None` for the root alone. It takes no
    /// memory, and a step for each byte of that component.
    pub fn parent_text(&self) -> Option<&[u8]>
        ensures { option_copied result ≡ parent_text self.now }
    {
        let text = self.text();
        if text.len() == 1 {
            return None;
        }
        let at = last_slash(text);
        if at == 0 {
            return Some(b"/");
        }
        Some(&text[..at])
    }

    /// The path without its last component, over the same bytes; `None` for the root alone. The
    /// only error is `NoMemory`, which comes neither for the root nor for what stands right under
    /// it.
    pub fn parent(&self, _alloc: Global) -> Result<Option<Path>, PathNo>
        ensures ok { IfOk result (λ r. r ≡ parent_text self.now) }
        ensures only { IfErr result (λ e. e ≡ PathNo.NoMemory) }
        ensures root { parent_text self.now ≡ None → result ≡ Ok None }
        ensures top { parent_text self.now ≡ Some root_text → result ≡ Ok (Some root_text) }
    {
        let text = self.text();
        if text.len() == 1 {
            return Ok(None);
        }
        let at = last_slash(text);
        if at == 0 {
            return Ok(Some(Path::root()));
        }
        let mut spelled = self.spelled.clone()?;
        spelled.truncate(at);
        Ok(Some(Path { spelled }))
    }

    /// The path that a name says, read against a working directory: repeated and trailing slashes
    /// are dropped, `.` and `..` are resolved in the text, and `..` at the root is the root. The
    /// errors are the first of `PathNo` that applies; `TooLong` and `TooDeep` speak of the result.
    pub fn read(alloc: Global, cwd: &Path, name: &[u8]) -> Result<Path, PathNo>
        ensures ok { IfOk result (λ p. (read_fault cwd.now name.now ≡ None)
            × (p ≡ resolved_text cwd.now name.now)) }
        ensures err { IfErr result
            (λ e. (e ≡ PathNo.NoMemory) ⊎ (read_fault cwd.now name.now ≡ Some e)) }
        ensures named { (e : PathNo) → name_fault_of name.now ≡ Some e → IsErrOf result e }
    {
        if let Some(fault) = name_fault(name) {
            return Err(fault);
        }
        Path::within(resolved(alloc, cwd.text(), name)?)
    }

    /// The path of this text, if it is within the limits.
    fn within(text: Vec<u8>) -> Result<Path, PathNo>
        requires spelled { text.items ≡ path_text (components text.items) }
        requires names { All IsComponent (components text.items) }
        ensures ok { IfOk result (λ p. (limit_fault text.items ≡ None) × (p ≡ text.items)) }
        ensures err { IfErr result
            (λ e. (e ≡ PathNo.NoMemory) ⊎ (limit_fault text.items ≡ Some e)) }
    {
        if text.len() > 1024 {
            return Err(PathNo::TooLong);
        }
        if depth(text.as_slice()) > 64 {
            return Err(PathNo::TooDeep);
        }
        Ok(Path {
            spelled: Bytes::from_vec(text)?,
        })
    }

    /// The path of one component more. Errors: `TooLong` and `TooDeep`, exactly as the limits say,
    /// and `NoMemory`.
    #[tactic(auto, using(crate::proofs::Spelling::child_spelled, crate::proofs::Spelling::child_depth, crate::proofs::Spelling::child_is_path))]
    pub fn child(&self, alloc: Global, name: &[u8]) -> Result<Path, PathNo>
        requires component { IsComponent name.now }
        ensures ok { IfOk result (λ p. p ≡ child_text self.now name.now) }
        ensures long { IsErrOf result PathNo.TooLong
            ↔ (1024 < length (child_text self.now name.now)) }
        ensures deep { IsErrOf result PathNo.TooDeep
            ↔ (length (child_text self.now name.now) ≤ 1024)
            × (64 < length (components (child_text self.now name.now))) }
        ensures only { IfErr result (λ e. (e ≡ PathNo.TooLong) ⊎ (e ≡ PathNo.TooDeep)
            ⊎ (e ≡ PathNo.NoMemory)) }
        ensures under_root { self.now ≡ root_text → IfOk result (λ p. p ≡ 47 ∷ name.now) }
    {
        let front = front(self.text());
        if front.len() + 1 + name.len() > 1024 {
            return Err(PathNo::TooLong);
        }
        if depth(self.text()) == 64 {
            return Err(PathNo::TooDeep);
        }
        Ok(Path {
            spelled: Bytes::from_vec(joined(alloc, front, name)?)?,
        })
    }

    /// An equal path, over the same bytes.
    pub fn copy(&self) -> Result<Path, NoMemory>
        ensures { IfOk result (λ p. p ≡ self.now) }
    {
        Ok(self.clone()?)
    }
}

impl Clone for Path {
    ghost is_clone = { λ p copy. copy ≡ p };

    fn clone(&self) -> Result<Path, AllocError> {
        Ok(Path {
            spelled: self.spelled.clone()?,
        })
    }
}

impl PartialEq for Path {
    ghost eq = { pointwise nat_eq };

    ghost laws = { partial_equiv_from_equiv nat_list_eq_equiv };

    fn eq(&self, other: &Self) -> bool {
        self.spelled == other.spelled
    }
}

impl Eq for Path {
    ghost laws = { nat_list_eq_equiv };
}

impl PartialOrd for Path {
    ghost partial_cmp = { λ x y. Some (slice_cmp nat_cmp x y) };

    ghost laws = { texts_po };

    fn partial_cmp(&self, other: &Self) -> Option<Ordering> {
        Some(self.cmp(other))
    }
}

impl Ord for Path {
    ghost cmp = { slice_cmp nat_cmp };

    ghost total = { nat_list_cmp_total };

    ghost matches_partial_cmp = { λ x y. refl };

    ghost matches_eq = { texts_ties };

    fn cmp(&self, other: &Self) -> Ordering {
        order(self.text(), other.text())
    }
}

impl Hash for Path {
    ghost hash_input = { fed.slice fed.u8 };

    ghost respects_eq = { Prim.search (hashing, rules) };

    fn hash<H: Hasher>(&self, state: &mut H) {
        self.text().hash(state);
    }
}
