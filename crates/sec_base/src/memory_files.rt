// Files in memory, for tests.
ghost use Rattle.std.specs.Prelude.{◌≡◌, ◌≢◌, ◌≤◌, ◌+◌, ◌⊎◌, List, ℕ, [], ◌∷◌, ◌++◌, Ok, Err, length, IfOk, OnOk, OnErr, Some, IsOk};
ghost use Rattle.std.specs.Option.{option_copied};
ghost use Rattle.sec_base.specs.Count.{more_by};
ghost use Rattle.sec_base.specs.FailingCalls.{next_fails};
ghost use Rattle.sec_base.specs.MemoryFiles.{new_files, content_of, files_state, with_file, read_answer, files_after_call, files_after_asking, files_after_read};
ghost use Rattle.sec_base.specs.declared.files.ReadStop.TheVariants.{Failed, Long, NoMemory as no_memory};

use crate::bytes::Bytes;
use crate::failing_calls::contains_number;
use crate::files::{Files, ReadStop};
use crate::stop::NoMemory;
use std::alloc::Global;
use std::marker::Model;

// A file in memory.
#[derive(Debug, Drop)]
struct NamedFile {
    pub name: Bytes,
    pub bytes: Bytes,
}

/// Files in memory, some of whose reads fail.
#[derive(Debug, Drop)]
pub struct MemoryFiles {
    alloc: Global,
    files: Vec<NamedFile>,
    fails: Vec<u64>,
    calls: u64,
    faults: u64,
    taken: u64,
    asked: Vec<Bytes>,
}

impl Model for MemoryFiles {
    ghost use Rattle.sec_base.specs.MemoryFiles.{MemoryFilesView};

    ghost Value = { MemoryFilesView };

    ghost view = { λ memory. record {
      files = memory.files.items;
      fails = memory.fails.items;
      calls = memory.calls;
      faults = memory.faults;
      taken = memory.taken;
      asked = memory.asked.items;
    } };
}

impl MemoryFiles {
    /// No file yet. `fails` are the numbers of the reads that are to fail, from 1. Fails only if out of memory.
    pub fn new(alloc: Global, fails: &[u64]) -> Result<MemoryFiles, NoMemory>
        ensures { IfOk result (λ files. files ≡ new_files fails.now) }
    {
        Ok(MemoryFiles {
            alloc,
            files: Vec::new(alloc),
            fails: Vec::from_slice(alloc, fails)?,
            calls: 0,
            faults: 0,
            taken: 0,
            asked: Vec::new(alloc),
        })
    }

    /// Adds a file. A name that is there gets the new bytes. Fails only if out of memory.
    pub fn add(&mut self, name: &str, bytes: &[u8]) -> Result<(), NoMemory>
        ensures added { OnOk result (self.new ≡ with_file name.now bytes.now self.old) }
        ensures err { OnErr result (self.new ≡ self.old) }

        ensures content { OnOk result (content_of self.new.files name.now ≡ Some bytes.now) }
        ensures others { OnOk result ((other : List ℕ) → other ≢ name.now →
            content_of self.new.files other ≡ content_of self.old.files other) }
    {
        let file = named_file(self.alloc, name, bytes)?;
        self.files.push(file)?;
        Ok(())
    }

    // Counts a call, and answers whether it is to fail.
    fn ask(&mut self, name: &str) -> Result<bool, NoMemory>
        ensures fails { IfOk result (λ failing. failing
            ≡ next_fails self.old.fails self.old.calls) }
        ensures ok { OnOk result (self.new ≡ files_after_asking name.now self.old) }
        ensures err { OnErr result (self.new ≡ files_after_call self.old) }
    {
        self.calls = self.calls.saturating_add(1);
        let name = Bytes::from_slice(self.alloc, name.as_bytes())?;
        self.asked.push(name)?;
        Ok(contains_number(&self.fails, self.calls))
    }

    // Counts a fault.
    fn fault(&mut self) -> ReadStop
        ensures failed { result ≡ Failed }
        ensures faults { self.new ≡ record self.old { faults = more_by 1 self.old.faults } }
        ensures rises { self.old.faults ≤ self.new.faults }
    {
        self.faults = self.faults.saturating_add(1);
        ReadStop::Failed
    }

    // Counts bytes that were taken.
    fn take(&mut self, count: u64)
        ensures taken { self.new ≡ record self.old { taken = more_by count self.old.taken } }
        ensures rises { self.old.taken ≤ self.new.taken }
    {
        self.taken = self.taken.saturating_add(count);
    }
}

impl Files for MemoryFiles {
    ghost state = { files_state };

    /// A copy of a file, where the call isn't one that is to fail. A name that isn't there is a fault.
    fn read(&mut self, alloc: Global, name: &str, limit: u64) -> Result<Bytes, ReadStop>
        ensures answer { result ≢ Err no_memory → result ≡ read_answer self.old name.now limit }
        ensures after { result ≢ Err no_memory →
            self.new ≡ files_after_read name.now limit self.old }
        ensures in_vain { result ≡ Err no_memory → (self.new ≡ files_after_call self.old)
            ⊎ (IsOk (read_answer self.old name.now limit)
            × (self.new ≡ files_after_read name.now limit self.old)) }

        ensures faults { self.old.faults ≤ self.new.faults }
        ensures taken { self.old.taken ≤ self.new.taken }
    {
        if self.ask(name)? {
            return Err(self.fault());
        }
        let Some(bytes) = found(&self.files, name.as_bytes()) else {
            return Err(self.fault());
        };
        let length = bytes.len() as u64;
        if length > limit {
            self.take(limit + 1);
            return Err(ReadStop::Long);
        }
        let copy = Bytes::from_slice(alloc, bytes.as_slice());
        self.take(length);
        Ok(copy?)
    }
}

// A copy of a name and of its bytes.
fn named_file(alloc: Global, name: &str, bytes: &[u8]) -> Result<NamedFile, NoMemory>
    ensures { IfOk result (λ file. file ≡ record { name = name.now; bytes = bytes.now }) }
{
    Ok(NamedFile {
        name: Bytes::from_slice(alloc, name.as_bytes())?,
        bytes: Bytes::from_slice(alloc, bytes)?,
    })
}

// The bytes of the last file of that name.
#[tactic(auto, unfolding(crate::specs::MemoryFiles::content_of))]
fn found<'a>(files: &'a [NamedFile], name: &[u8]) -> Option<&'a Bytes>
    ensures { option_copied result ≡ content_of files.now name.now }
{
    let mut last = None;
    for file in files {
        if file.name.as_slice() == name {
            last = Some(&file.bytes);
        }
    }
    last
}
