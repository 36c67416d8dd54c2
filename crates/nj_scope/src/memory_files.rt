//! Files in memory, in place of files on a disk.

ghost use Rattle.std.specs.Prelude.{◌≡◌, ℕ, ◌+◌, ◌-◌, ◌^◌, ◌≤◌, ◌↔◌, List, [], ◌∷◌, ◌++◌, Some, None, min, find, reverse, string_bytes, option_copied, if◌then◌else◌, bytes_eq, IfOk, OnOk, OnErr, IsErrOf};
ghost use Rattle.nj_scope.specs.Cited.{bytes_added, outcome_bytes};

use crate::source::{FileSource, SourceFault};
use std::alloc::{AllocError, Global};
use std::marker::Model;

#[derive(Drop)]
struct MemoryFile {
    name: String,
    bytes: Vec<u8>,
}

// One reading: the bytes that were returned, or `None` if no file was there.
#[derive(Drop)]
struct MemoryReading {
    path: String,
    bytes: Option<Vec<u8>>,
}

/// Files in memory. They keep a list of all readings, and one reading can be made to fail.
#[derive(Drop)]
pub struct MemoryFiles {
    alloc: Global,
    files: Vec<MemoryFile>,
    readings: Vec<MemoryReading>,
    failures: u64,
    due: u64,
}

impl Model for MemoryFiles {
    ghost use Rattle.std.specs.Prelude.{map};
    ghost use Rattle.nj_scope.specs.Memory.{Added, Memory};
    ghost use Rattle.nj_scope.specs.Inside.MemoryHeld.{file_held, reading_held};
    ghost use Rattle.nj_scope.specs.Readings.{Reading};

    ghost Value = { Memory };

    ghost view = { λ m. record {
      added = map {B = Added} file_held m.files.items;
      readings = map {B = Reading} reading_held m.readings.items;
      failures = m.failures;
      due = m.due;
    } };
}

impl MemoryFiles {
    /// No files yet. Allocates nothing.
    pub fn new(alloc: Global) -> MemoryFiles
        ensures { result ≡ record { added = []; readings = []; failures = 0; due = 0 } }
    {
        MemoryFiles {
            alloc,
            files: Vec::new(alloc),
            readings: Vec::new(alloc),
            failures: 0,
            due: 0,
        }
    }

    /// Adds a file. If a name is added again, the last bytes win.
    pub fn add(&mut self, name: &str, bytes: &[u8]) -> Result<(), AllocError>
        ensures added { OnOk result (self.new ≡ record self.old {
          added = self.old.added ++ record { name = name.now; bytes = bytes.now } ∷ [];
        }) }
        ensures last_counts { OnOk result ((path : List ℕ) → bytes_added self.new.added path
            ≡ (if bytes_eq path name.now
            then Some bytes.now else bytes_added self.old.added path)) }
        ensures refused { OnErr result (self.new ≡ self.old) }
    {
        let name = String::from_str(self.alloc, name)?;
        let bytes = Vec::from_slice(self.alloc, bytes)?;
        self.files.push(MemoryFile { name, bytes })?;
        Ok(())
    }

    /// Makes the `n`th reading from now on fail, and only that one; 0 for none.
    pub fn fail_at(&mut self, n: u64)
        ensures { self.new ≡ record self.old { due = n } }
    {
        self.due = n;
    }

    // The bytes that were added last under the name.
    fn bytes_of(&self, name: &str) -> Option<&[u8]>
        ensures { option_copied result ≡ bytes_added self.now.added name.now }
    {
        let file = last_file(&self.files, name)?;
        Some(file.bytes.as_slice())
    }
}

impl FileSource for MemoryFiles {
    ghost use Rattle.nj_scope.specs.Memory.{memory_state};

    ghost state = { λ m. memory_state m };

    fn read(&mut self, alloc: Global, path: &str) -> Result<Option<Vec<u8>>, SourceFault>
        // It fails with `Io` when that is due, and only then.
        ensures fails_when_due { IsErrOf result SourceFault.Io ↔ (self.old.due ≡ 1) }

        // It returns the bytes that were added last.
        ensures outcome { IfOk result (λ outcome.
            outcome_bytes outcome ≡ bytes_added self.old.added path.now) }

        // Counts an outcome. Each outcome brings the failing reading one nearer.
        ensures answered { IfOk result (λ outcome. self.new ≡ record self.old {
          readings = self.old.readings
              ++ record { path = path.now; bytes = outcome_bytes outcome } ∷ [];
          due = self.old.due - 1;
        }) }
        ensures failed { IsErrOf result SourceFault.Io → self.new ≡ record self.old {
          failures = min (self.old.failures + 1) (2 ^ 64 - 1);
          due = 0;
        } }
        ensures out_of_memory { IsErrOf result SourceFault.OutOfMemory
            → self.new ≡ record self.old { due = self.old.due - 1 } }
        ensures never_falls { self.old.failures ≤ self.new.failures }
    {
        let due = self.due;
        self.due = due.saturating_sub(1);
        if due == 1 {
            self.failures = self.failures.saturating_add(1);
            return Err(SourceFault::Io);
        }
        let held = self.bytes_of(path);
        let outcome = copy_of(alloc, held)?;
        let bytes = copy_of(self.alloc, held)?;
        let path = String::from_str(self.alloc, path)?;
        self.readings.push(MemoryReading { path, bytes })?;
        Ok(outcome)
    }
}

// The last file with the name.
fn last_file<'a>(files: &'a [MemoryFile], name: &str) -> Option<&'a MemoryFile>
    ensures { option_copied result
        ≡ find (λ e. bytes_eq name.now (string_bytes e.name)) (reverse files.now) }
{
    files.iter().rev().find(|file| name == file.name.as_str())
}

fn copy_of(alloc: Global, bytes: Option<&[u8]>) -> Result<Option<Vec<u8>>, AllocError>
    ensures { IfOk result (λ copy. outcome_bytes copy ≡ option_copied bytes.entry) }
{
    match bytes {
        Some(bytes) => Ok(Some(Vec::from_slice(alloc, bytes)?)),
        None => Ok(None),
    }
}
