//! The build log.

ghost use Rattle.std.specs.Prelude.{◌≡◌, ◌<◌, ◌⊎◌, Ok, Err, Some, length, slice_get, IfOk, IfErr, bytes_eq};
ghost use Rattle.nj_build_log.specs.Cited.{build_log_of, entry_of, line_model, outputs_of, OutOfMemory, IsDistinct};

use crate::build_log_fault::BuildLogFault;
use crate::entry::{Entry, LoggedLine};
use crate::line_table::LineTable;
use crate::lines::split_line;
use crate::log_version::LogVersion;
use crate::opening::split_version;
use crate::outputs::Outputs;
use nj_names::HashKeys;
use std::alloc::Global;
use std::marker::Model;

/// The contents of a build log: the outputs that the commands of earlier builds made, and when.
#[derive(Drop)]
pub struct BuildLog {
    version: Option<LogVersion>,
    table: LineTable,
}

impl Model for BuildLog {
    ghost use Rattle.nj_build_log.specs.Logs.{BuildLogModel};

    ghost Value = { BuildLogModel };

    ghost view = { λ l. record { version = l.version; lines = l.table } };
}

impl BuildLog {
    /// Reads a build log of version 5, 6 or 7, as Ninja 1.11, 1.12 and 1.13 write it. An empty log
    /// has no lines.
    ///
    /// A line counts if it ends with a line feed and has at least four tabs; other lines are
    /// ignored, as in Ninja. Numbers are read as C reads them, so a field that is not a number is
    /// 0.
    ///
    /// Outputs are hashed with fixed keys. For an untrusted log use [`BuildLog::read_with_keys`].
    ///
    /// # Errors
    ///
    /// [`BuildLogFault::NoBuildLog`] if the first line is not the first line of a build log,
    /// [`BuildLogFault::OtherVersion`] if it has another version, and
    /// [`BuildLogFault::OutOfMemory`].
    pub fn read(alloc: Global, bytes: &[u8]) -> Result<BuildLog, BuildLogFault>
        ensures log { IfOk result (λ log. build_log_of bytes.now ≡ Ok log) }
        ensures fault { IfErr result (λ fault.
            (fault ≡ OutOfMemory) ⊎ (build_log_of bytes.now ≡ Err fault)) }
    {
        BuildLog::read_with_keys(alloc, HashKeys::default(), bytes)
    }

    /// Reads a build log like [`BuildLog::read`], but hashes outputs with the given keys: with
    /// random keys, nobody can choose many outputs that collide.
    ///
    /// # Errors
    ///
    /// The errors of [`BuildLog::read`].
    pub fn read_with_keys(
        alloc: Global,
        keys: HashKeys,
        bytes: &[u8],
    ) -> Result<BuildLog, BuildLogFault>
        ensures log { IfOk result (λ log. build_log_of bytes.now ≡ Ok log) }
        ensures fault { IfErr result (λ fault.
            (fault ≡ OutOfMemory) ⊎ (build_log_of bytes.now ≡ Err fault)) }
    {
        let (version, lines) = split_version(bytes)?;
        let mut table = LineTable::new(alloc, keys);
        let mut rest = lines;
        'lines: while let Some((line, after)) = split_line(rest) {
            table.add(line)?;
            rest = after;
        }
        Ok(BuildLog { version, table })
    }

    /// The version; `None` if the log is empty.
    pub fn version(&self) -> Option<LogVersion>
        ensures { result ≡ self.now.version }
    {
        self.version
    }

    /// Returns the entry of the last line of the given output, or `None` if it has no line. The
    /// path must be spelled as in the log.
    pub fn entry(&self, output: &[u8]) -> Option<Entry>
        ensures { result ≡ entry_of self.now.lines output.now }
    {
        self.table.entry(output)
    }

    /// The number of outputs.
    pub fn output_count(&self) -> usize
        ensures count { result ≡ length (outputs_of self.now.lines) }
        ensures each_output_once { IsDistinct bytes_eq (outputs_of self.now.lines) }
    {
        self.table.outputs().count()
    }

    /// The outputs, without duplicates, in the order of their first lines.
    pub fn outputs(&self) -> Outputs<'_>
        ensures { result ≡ outputs_of self.now.lines }
    {
        Outputs::new(self.table.outputs())
    }

    /// The number of lines that count.
    pub fn line_count(&self) -> usize
        ensures { result ≡ length self.now.lines }
    {
        self.table.count()
    }

    /// The line at the given index among the lines that count.
    pub fn line(&self, index: usize) -> LoggedLine<'_>
        requires { index < length self.now.lines }
        ensures { slice_get self.now.lines index ≡ Some (line_model result) }
    {
        self.table.line(index)
    }
}
