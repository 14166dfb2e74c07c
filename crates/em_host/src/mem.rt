//! A host over memory.
ghost use Rattle.std.specs.Prelude.{◌≡◌, ◌↔◌, ◌⊎◌, ◌++◌, ◌∷◌, [], Some, Contains, IsTrue, IsErrOf, IfOk, OnOk, OnErr};
ghost use Rattle.std.specs.Option.{option_copied};
ghost use Rattle.std.specs.FinMap as map;
ghost use Rattle.em_host.specs.Outside.{Takes, Replaces, Prints, contents};
ghost use Rattle.em_host.specs.Faults.{count_after, next_count};
ghost use Rattle.em_host.specs.Memory.{number_of, nothing, with_files};

use crate::call::{Call, Called};
use crate::calls::Calls;
use crate::host::Host;
use crate::no::HostNo;
use em_base::{NoMemory, Table, Text};
use std::alloc::Global;
use std::marker::Model;

/// Files and one output in memory. Chosen calls on it fail, and it notes its calls. Tests run on
/// it, and a program that wants only the number of printed bytes makes its calls on one.
///
/// A call's number is how many calls on the host were made before it. `put` and `fail_at` set the
/// host up and are no calls. A call is noted before it acts: where there is no memory for that, it
/// answers `NoMemory` and does nothing. A call that fails because it was chosen changes neither the
/// files nor what was printed.
#[derive(Drop)]
pub struct MemHost {
    files: Table<Text>,
    printed: Text,
    calls: Calls,
}

impl Model for MemHost {
    ghost use Rattle.em_host.specs.Memory.{Memory, memory_code};

    ghost Value = { Memory };

    ghost coded = { memory_code };

    ghost view = { λ h. record {
      outside = record {
        files = h.files;
        printed = h.printed;
        calls = h.calls.noted.items;
        lost = h.calls.lost;
        failed = h.calls.failed;
      };
      faults = h.calls.faults;
      failing = h.calls.failing.items;
    } };
}

impl MemHost {
    /// A host with no file, that has printed nothing.
    pub fn new(alloc: Global) -> MemHost
        ensures { result ≡ nothing }
    {
        MemHost {
            files: Table::new(alloc),
            printed: Text::new(alloc),
            calls: Calls {
                noted: Vec::new(alloc),
                lost: 0,
                failing: Vec::new(alloc),
                faults: 0,
                failed: false,
            },
        }
    }

    /// Sets a file up. This is no call.
    pub fn put(&mut self, alloc: Global, name: &[u8], bytes: &[u8]) -> Result<(), NoMemory>
        ensures ok { OnOk result
            (self.new
            ≡ with_files self.old (map.insert self.old.outside.files name.now bytes.now)) }
        ensures err { OnErr result (self.new ≡ self.old) }
    {
        self.files.insert(
            Text::from_slice(alloc, name)?,
            Text::from_slice(alloc, bytes)?,
        )?;
        Ok(())
    }

    /// Lets the call of this number fail.
    pub fn fail_at(&mut self, number: u64) -> Result<(), NoMemory>
        ensures ok { OnOk result
            (self.new ≡ record self.old { failing = self.old.failing ++ number ∷ [] }) }
        ensures err { OnErr result (self.new ≡ self.old) }
    {
        self.calls.failing.push(number)?;
        Ok(())
    }

    /// The bytes of a file, or None where there is no such file.
    pub fn file(&self, name: &[u8]) -> Option<&[u8]>
        ensures { option_copied result ≡ map.get self.now.outside.files name.now }
    {
        Some(self.files.get(name)?.bytes())
    }

    /// What was printed.
    pub fn printed(&self) -> &[u8]
        ensures { result.now ≡ self.now.outside.printed }
    {
        self.printed.bytes()
    }

    /// The calls that were noted, in order.
    pub fn calls(&self) -> &[Called]
        ensures { result.now ≡ self.now.outside.calls }
    {
        self.calls.noted.as_slice()
    }
}

impl Host for MemHost {
    ghost told = { λ m. Some m.outside };

    ghost faults = { λ m. m.faults };

    fn take(&mut self, alloc: Global, name: &[u8]) -> Result<Option<Vec<u8>>, HostNo>
        ensures chosen { Contains self.old.failing (number_of self.old.outside)
            → IsErrOf result HostNo.Failed
            ⊎ (self.new.outside.lost ≡ next_count self.old.outside.lost) }
        ensures fails { IsErrOf result HostNo.Failed
            → Contains self.old.failing (number_of self.old.outside) }
        ensures takes { Takes name.now (contents result) self.old.outside self.new.outside }
        ensures faults { self.new.faults ≡ count_after result self.old.faults }
        ensures failing { self.new.failing ≡ self.old.failing }
    {
        let begun = self.calls.begin(Call::take(alloc, name))?;
        let answer = copied(alloc, begun.fails, self.files.get(name));
        self.calls.end(begun.call, &answer);
        answer
    }

    fn replace(&mut self, alloc: Global, name: &[u8], bytes: &[u8]) -> Result<(), HostNo>
        ensures chosen { Contains self.old.failing (number_of self.old.outside)
            → IsErrOf result HostNo.Failed
            ⊎ (self.new.outside.lost ≡ next_count self.old.outside.lost) }
        ensures fails { IsErrOf result HostNo.Failed
            → Contains self.old.failing (number_of self.old.outside) }
        ensures replaces { Replaces name.now bytes.now result self.old.outside self.new.outside }
        ensures faults { self.new.faults ≡ count_after result self.old.faults }
        ensures failing { self.new.failing ≡ self.old.failing }
    {
        let begun = self.calls.begin(Call::replace(alloc, name, bytes))?;
        let answer = written(alloc, begun.fails, &mut self.files, name, bytes);
        self.calls.end(begun.call, &answer);
        answer
    }

    fn print(&mut self, bytes: &[u8]) -> Result<(), HostNo>
        ensures chosen { Contains self.old.failing (number_of self.old.outside)
            → IsErrOf result HostNo.Failed
            ⊎ (self.new.outside.lost ≡ next_count self.old.outside.lost) }
        ensures fails { IsErrOf result HostNo.Failed
            → Contains self.old.failing (number_of self.old.outside) }
        ensures prints { Prints bytes.now result self.old.outside self.new.outside }
        ensures whole_or_nothing { OnErr result
            (self.new.outside.printed ≡ self.old.outside.printed) }
        ensures faults { self.new.faults ≡ count_after result self.old.faults }
        ensures failing { self.new.failing ≡ self.old.failing }
    {
        let alloc = *self.calls.noted.allocator();
        let begun = self.calls.begin(Call::print(alloc, bytes))?;
        let answer = appended(begun.fails, &mut self.printed, bytes);
        self.calls.end(begun.call, &answer);
        answer
    }
}

/// A copy of the bytes, where there are any, unless the call is to fail.
fn copied(alloc: Global, fails: bool, bytes: Option<&Text>) -> Result<Option<Vec<u8>>, HostNo>
    ensures fails { IsErrOf result HostNo.Failed ↔ IsTrue fails }
    ensures copy { IfOk (contents result) (λ copy. copy ≡ option_copied bytes.entry) }
{
    if fails {
        return Err(HostNo::Failed);
    }
    match bytes {
        Some(bytes) => Ok(Some(bytes.copy(alloc)?.into_vec())),
        None => Ok(None),
    }
}

/// Makes the file these bytes, unless the call is to fail.
fn written(
    alloc: Global,
    fails: bool,
    files: &mut Table<Text>,
    name: &[u8],
    bytes: &[u8],
) -> Result<(), HostNo>
    ensures fails { IsErrOf result HostNo.Failed ↔ IsTrue fails }
    ensures ok { OnOk result (files.new ≡ map.insert files.old name.now bytes.now) }
    ensures err { OnErr result (files.new ≡ files.old) }
{
    if fails {
        return Err(HostNo::Failed);
    }
    files.insert(
        Text::from_slice(alloc, name)?,
        Text::from_slice(alloc, bytes)?,
    )?;
    Ok(())
}

/// Appends the bytes, unless the call is to fail.
fn appended(fails: bool, printed: &mut Text, bytes: &[u8]) -> Result<(), HostNo>
    ensures fails { IsErrOf result HostNo.Failed ↔ IsTrue fails }
    ensures ok { OnOk result (printed.new ≡ printed.old ++ bytes.now) }
    ensures err { OnErr result (printed.new ≡ printed.old) }
{
    if fails {
        return Err(HostNo::Failed);
    }
    printed.add(bytes)?;
    Ok(())
}
