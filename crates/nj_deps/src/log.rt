//! The deps log.

ghost use Rattle.std.specs.Prelude.{◌≡◌, ◌<◌, ◌++◌, Some, length, position, slice_get, bytes_eq, option_map, IfSome, IfOk, IfErr};
ghost use Rattle.nj_deps.specs.Cited.{IsDistinct, IsLogOf, IsLogFault, opening, output_of, output_model, IsOfPaths};

use crate::log_fault::DepsLogFault;
use crate::log_table::LogTable;
use crate::logged_outputs::LoggedOutput;
use crate::path_no::PathNo;
use crate::paths::Paths;
use crate::records::split_opening;
use nj_names::HashKeys;
use std::alloc::Global;
use std::marker::Model;

/// The only version that is read.
const VERSION: u32 = 4;

/// The contents of a deps log. Paths are numbered from 0 in the order in which the log names them.
#[derive(Drop)]
pub struct DepsLog {
    table: LogTable,
    size: usize,
    is_whole: bool,
}

impl Model for DepsLog {
    ghost use Rattle.nj_deps.specs.Logs.{LogModel};

    ghost Value = { LogModel };

    ghost view = { λ l. record {
      paths = l.table.paths;
      outputs = l.table.outputs;
      size = l.size;
      is_whole = l.is_whole;
    } };
}

impl DepsLog {
    /// Reads a deps log of version 4, as every Ninja since 1.9 writes it ("Deps" in the Ninja
    /// manual).
    ///
    /// Reading ends before the first record that is cut off, empty, too large or wrong, and the
    /// records before it count, as in Ninja. [`DepsLog::size`] is how far it went. Timestamps are
    /// ignored: the record of an output counts even if the output is newer.
    ///
    /// Names are hashed by fixed keys, which everyone knows. For an untrusted log use
    /// [`DepsLog::read_with_keys`].
    ///
    /// # Errors
    ///
    /// [`DepsLogFault::NoDepsLog`] if the bytes do not begin as a deps log,
    /// [`DepsLogFault::OtherVersion`] if they begin as a deps log of another version, and
    /// [`DepsLogFault::OutOfMemory`].
    pub fn read(alloc: Global, bytes: &[u8]) -> Result<DepsLog, DepsLogFault>
        ensures log { IfOk result (λ log. IsLogOf bytes.now log) }
        ensures fault { IfErr result (λ fault. IsLogFault bytes.now fault) }
    {
        DepsLog::read_with_keys(alloc, HashKeys::default(), bytes)
    }

    /// The same, with names that are hashed by the given keys: if the keys were drawn, nobody can
    /// choose many paths that collide.
    ///
    /// # Errors
    ///
    /// Those of [`DepsLog::read`].
    pub fn read_with_keys(
        alloc: Global,
        keys: HashKeys,
        bytes: &[u8],
    ) -> Result<DepsLog, DepsLogFault>
        ensures log { IfOk result (λ log. IsLogOf bytes.now log) }
        ensures fault { IfErr result (λ fault. IsLogFault bytes.now fault) }
    {
        let mut rest = records_in(bytes)?;
        let mut table = LogTable::new(alloc, keys);
        'records: while let Some(after) = table.read_record(rest)? {
            rest = after;
        }
        Ok(DepsLog {
            table,
            size: bytes.len() - rest.len(),
            is_whole: rest.is_empty(),
        })
    }

    /// The number of paths.
    pub fn path_count(&self) -> usize
        ensures count { result ≡ length self.now.paths }
        ensures each_path_once { IsDistinct bytes_eq self.now.paths }
    {
        self.table.paths.count()
    }

    /// All paths, in the order of their numbers.
    pub fn paths(&self) -> Paths<'_>
        ensures { result ≡ self.now.paths }
    {
        Paths::new(&self.table.paths)
    }

    /// The path with the given number, as in the log.
    pub fn path(&self, number: PathNo) -> &[u8]
        requires { number.0 < length self.now.paths }
        ensures { slice_get self.now.paths number.0 ≡ Some result.now }
    {
        self.table.paths.name(number.0 as usize)
    }

    /// Returns the number of the given path, spelled as in the log, or `None` if the log does not
    /// name it.
    pub fn number(&self, path: &[u8]) -> Option<PathNo>
        ensures { option_map (λ n. n.0) result ≡ position (bytes_eq path.now) self.now.paths }
    {
        self.table.number(path)
    }

    /// The number of outputs with dependencies.
    pub fn output_count(&self) -> usize
        ensures { result ≡ length self.now.outputs }
    {
        self.table.outputs.count()
    }

    /// The output at this index, in the order of the first records of outputs.
    #[tactic(auto, using(crate::proofs::OutputLemmas::paths_at))]
    pub fn output(&self, index: usize) -> LoggedOutput<'_>
        requires { index < length self.now.outputs }
        ensures output { slice_get self.now.outputs index ≡ Some (output_model result) }
        ensures known { IsOfPaths (length self.now.paths) (output_model result) }
    {
        self.table.output(index)
    }

    /// Returns the output whose path has the given number, or `None` if the path is not an output.
    #[tactic(auto, using(crate::proofs::OutputLemmas::paths_at))]
    pub fn output_of(&self, number: PathNo) -> Option<LoggedOutput<'_>>
        ensures output { option_map output_model result ≡ output_of self.now.outputs number.0 }
        ensures known { IfSome result (λ o. IsOfPaths (length self.now.paths) (output_model o)) }
    {
        match self.table.index_of(number) {
            Some(index) => Some(self.table.output(index)),
            None => None,
        }
    }

    /// How many bytes of the log were read: those before the first record that does not count.
    pub fn size(&self) -> usize
        ensures { result ≡ self.now.size }
    {
        self.size
    }

    /// Whether the whole log was read.
    pub fn is_whole(&self) -> bool
        ensures { result ≡ self.now.is_whole }
    {
        self.is_whole
    }
}

// The bytes after the opening of a deps log of version 4.
fn records_in(bytes: &[u8]) -> Result<&[u8], DepsLogFault>
    ensures records { IfOk result (λ records. bytes.now ≡ opening 4 ++ records.now) }
    ensures fault { IfErr result (λ fault. IsLogFault bytes.now fault) }
{
    match split_opening(bytes) {
        Some((VERSION, records)) => Ok(records),
        Some((version, _)) => Err(DepsLogFault::OtherVersion(version)),
        None => Err(DepsLogFault::NoDepsLog),
    }
}
