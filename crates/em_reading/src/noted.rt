//! What a reading notes of files: those that it reads, and those that aren't there.
ghost use Rattle.std.specs.Prelude.{◌≡◌, OnOk};
ghost use Rattle.em_reading.specs.Changes as changes;
ghost use Rattle.em_reading.specs.Changes.{with_name, with_missing};
ghost use Rattle.em_reading.specs.Faults.{is_free};
ghost use Rattle.em_view.specs.Steps.{Works};

use crate::no::{ReadNo, absent};
use crate::reading::Reading;
use em_base::{NoMemory, Place, Seq, Text};
use std::alloc::Global;

/// A file that an `include` names and that isn't there.
#[derive(Debug, Drop)]
pub struct Missing {
    pub name: Text,
    /// The place of the `include`.
    pub place: Place,
    /// By `include`, not by `-include` or `sinclude`.
    pub needed: bool,
}

/// What a reading has noted of files.
#[derive(Debug, Drop)]
pub struct Noted {
    /// The names of the files that were read, in order.
    pub files: Seq<Text>,
    /// Those that an `include` names and that aren't there, in order.
    pub missing: Seq<Missing>,
}

impl Noted {
    /// Nothing is noted yet. Takes no memory.
    pub fn new(alloc: Global) -> Noted
        ensures { result ≡ changes.nothing_noted }
    {
        Noted {
            files: Seq::new(alloc),
            missing: Seq::new(alloc),
        }
    }

    /// A file of this name was read.
    fn add(&mut self, alloc: Global, name: &[u8]) -> Result<(), NoMemory>
        ensures { OnOk result (self.new ≡ with_name name.now self.old) }
    {
        self.files.push(Text::from_slice(alloc, name)?)?;
        Ok(())
    }

    /// A file of this name isn't there.
    fn miss(
        &mut self,
        alloc: Global,
        needed: bool,
        place: &Place,
        name: &[u8],
    ) -> Result<(), NoMemory>
        ensures { OnOk result (self.new ≡ with_missing needed place.now name.now self.old) }
    {
        self.missing.push(Missing {
            name: Text::from_slice(alloc, name)?,
            place: place.copy(alloc)?,
            needed,
        })?;
        Ok(())
    }
}

impl Reading {
    /// The lines of a file of this name are read next.
    pub fn opens(&mut self, alloc: Global, name: &[u8]) -> Result<(), ReadNo>
        ensures { Works is_free self.old self.new result (changes.opens name.now) }
    {
        if let Some(noted) = &mut self.noted {
            noted.add(alloc, name)?;
        }
        Ok(())
    }

    /// A file that an `include` names isn't there: it is noted, or is a fault where it is needed.
    pub fn lacks(
        &mut self,
        alloc: Global,
        needed: bool,
        place: &Place,
        name: &[u8],
    ) -> Result<(), ReadNo>
        ensures { Works is_free self.old self.new result
            (changes.lacks needed place.now name.now) }
    {
        if let Some(noted) = &mut self.noted {
            noted.miss(alloc, needed, place, name)?;
            return Ok(());
        }
        if needed {
            return Err(absent(alloc, place, name));
        }
        Ok(())
    }
}
