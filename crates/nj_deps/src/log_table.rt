//! The table that the records of a deps log fill.

ghost use Rattle.std.specs.Prelude.{◌≡◌, ◌≢◌, ◌<◌, ◌≤◌, ◌+◌, ◌^◌, [], Some, None, true, false, length, slice_get, IfOk, MatchOption, bytes_eq, option_map, position};
ghost use Rattle.nj_deps.specs.Cited.{AllByRecursion, list_any, MayBeNamed, is_never_named, IsOfPaths, output_of, output_model, Adds, AddsAs, AddsPath, TakesRecord, TakesNone, IsTimed};

use crate::little_endian::{split_last_number, split_number};
use crate::logged_outputs::{LoggedOutput, OutputTable};
use crate::path_no::PathNo;
use crate::records::{DEPENDENCIES, path_in, split_record};
use nj_names::{HashKeys, Names};
use std::alloc::{AllocError, Global};
use std::marker::Model;

/// The paths and outputs of the records of a deps log, up to some record.
#[derive(Drop)]
pub(crate) struct LogTable {
    pub(crate) paths: Names,
    pub(crate) outputs: OutputTable,
}

impl Model for LogTable {
    ghost use Rattle.std.specs.Prelude.{◌≡◌, ◌≤◌, ◌^◌, length};
    ghost use Rattle.nj_deps.specs.Inside.RecordsRead.{TableModel};

    ghost Value = { TableModel };

    ghost view = { λ t. record { paths = t.paths; outputs = t.outputs.outputs } };

    ghost invariant = { λ t. (t.outputs.count ≤ length t.paths) × (length t.paths ≤ 2 ^ 32) };
}

impl LogTable {
    /// An empty table. Allocates nothing.
    pub(crate) fn new(alloc: Global, keys: HashKeys) -> LogTable
        ensures { result ≡ record { paths = []; outputs = [] } }
    {
        LogTable {
            paths: Names::new(alloc, keys),
            outputs: OutputTable::new(alloc),
        }
    }

    /// Adds the record at the front of the bytes, and returns the bytes after it; `None`, and no
    /// change, if no record that counts is there.
    pub(crate) fn read_record<'a>(
        &mut self,
        bytes: &'a [u8],
    ) -> Result<Option<&'a [u8]>, AllocError>
        ensures { IfOk result (λ rest. MatchOption rest (TakesNone bytes.now self.old self.new)
            (λ after. TakesRecord bytes.now after.now self.old self.new)) }
    {
        let (head, content, after) = match split_record(bytes) {
            Some(split) => split,
            None => return Ok(None),
        };
        let counts = self.read_content(head, content)?;
        if counts { Ok(Some(after)) } else { Ok(None) }
    }

    /// Adds the path or output of a record with the given content. Returns whether the record
    /// counts.
    fn read_content(&mut self, head: u32, content: &[u8]) -> Result<bool, AllocError>
        requires { length content.now ≤ 524287 }
        ensures { IfOk result (λ counts. AddsAs head content.now self.old self.new counts) }
    {
        if head < DEPENDENCIES {
            self.read_path(content)
        } else {
            self.read_dependencies(content)
        }
    }

    /// Adds the path of a record with the given content. Returns whether the record counts.
    fn read_path(&mut self, content: &[u8]) -> Result<bool, AllocError>
        requires { length content.now ≤ 524287 }
        ensures { IfOk result (λ counts. Adds 0 content.now self.old self.new counts) }
    {
        let (padded, complement) = match split_last_number(content) {
            Some(split) => split,
            None => return Ok(false),
        };
        let path = path_in(padded);
        if !may_be_named(path) {
            return Ok(false);
        }
        if !is_next(complement, self.paths.count()) {
            return Ok(false);
        }
        self.add_path(path)
    }

    /// Adds the path. Returns whether it is new.
    fn add_path(&mut self, path: &[u8]) -> Result<bool, AllocError>
        requires { length self.old.paths < 2 ^ 32 }
        ensures { IfOk result (λ is_new. AddsPath path.now self.old self.new is_new) }
    {
        let count = self.paths.count();
        self.paths.add(path)?;
        if self.paths.count() == count {
            return Ok(false);
        }
        self.outputs.add_path()?;
        Ok(true)
    }

    /// Adds the output of a record with the given content. Returns whether the record counts. After
    /// a path for which memory ran out it always fails.
    fn read_dependencies(&mut self, content: &[u8]) -> Result<bool, AllocError>
        requires { length content.now ≤ 524287 }
        ensures { IfOk result (λ counts. Adds (2 ^ 31) content.now self.old self.new counts) }
    {
        if content.len() % 4 != 0 {
            return Ok(false);
        }
        if self.outputs.path_count() != self.paths.count() {
            return Err(AllocError);
        }
        match split_dependencies(content) {
            Some((output, time, inputs)) => self.outputs.keep(output, time, inputs),
            None => Ok(false),
        }
    }

    /// Returns the number of the given path, or `None` if no record named it.
    pub(crate) fn number(&self, path: &[u8]) -> Option<PathNo>
        ensures { option_map (λ n. n.0) result ≡ position (bytes_eq path.now) self.now.paths }
    {
        let number = self.paths.number(path)?;
        Some(PathNo(number as u32))
    }

    /// Returns the index of the output whose path has the given number, or `None`.
    pub(crate) fn index_of(&self, number: PathNo) -> Option<usize>
        ensures { MatchOption result (output_of self.now.outputs number.0 ≡ None)
            (λ index. (index < length self.now.outputs)
            × (slice_get self.now.outputs index ≡ output_of self.now.outputs number.0)) }
    {
        if (number.0 as usize) < self.outputs.path_count() {
            self.outputs.index_of(number)
        } else {
            None
        }
    }

    /// The output at this index.
    pub(crate) fn output(&self, index: usize) -> LoggedOutput<'_>
        requires { index < length self.now.outputs }
        ensures output { slice_get self.now.outputs index ≡ Some (output_model result) }
        ensures known { AllByRecursion (IsOfPaths (length self.now.paths)) self.now.outputs }
    {
        self.outputs.output(index)
    }
}

// The output, its time, and the inputs, which are the rest.
fn split_dependencies(content: &[u8]) -> Option<(u32, u64, &[u8])>
    ensures { MatchOption result (length content.now < 12)
        (λ p. IsTimed content.now p.0 p.1 p.2.now) }
{
    let (output, rest) = split_number(content)?;
    let (low, rest) = split_number(rest)?;
    let (high, inputs) = split_number(rest)?;
    Some((output, (high as u64) * (1 << 32) + low as u64, inputs))
}

// Whether a manifest may name the given path.
fn may_be_named(path: &[u8]) -> bool
    ensures yes { result ≡ true → MayBeNamed path.now }
    ensures no { result ≡ false → ¬ MayBeNamed path.now }
{
    !path.is_empty() && !has_unnamed_byte(path)
}

// Whether a byte is a line feed or zero.
fn has_unnamed_byte(path: &[u8]) -> bool
    ensures { result ≡ list_any is_never_named path.now }
{
    path.iter().any(|byte| *byte == b'\n' || *byte == 0)
}

// Whether the path after the given number of paths has the given complement.
fn is_next(complement: u32, count: usize) -> bool
    ensures yes { result ≡ true → complement + count + 1 ≡ 2 ^ 32 }
    ensures no { result ≡ false → complement + count + 1 ≢ 2 ^ 32 }
{
    match u32::try_from(count) {
        Ok(number) => complement == !number,
        Err(_) => false,
    }
}
