//! The lines of a build log, by the numbers of their outputs.

ghost use Rattle.std.specs.Prelude.{◌≡◌, ◌<◌, ◌++◌, ◌∷◌, [], Some, length, slice_get, option_to_list, IfOk, OnOk, OnErr};
ghost use Rattle.nj_build_log.specs.Cited.{with_name, line_of, line_model, entry_of, outputs_of, SetsEntry};

use crate::entry::{Entry, LoggedLine};
use crate::lines::read_line;
use nj_names::{HashKeys, Names};
use std::alloc::{AllocError, Global};
use std::marker::Model;

/// The lines of a build log that count, up to some line.
#[derive(Drop)]
pub(crate) struct LineTable {
    outputs: Names,
    lines: Vec<HeldLine>,
    // for each output, the entry of its last line
    entries: Vec<Entry>,
}

impl Model for LineTable {
    ghost use Rattle.std.specs.Prelude.{List};
    ghost use Rattle.nj_build_log.specs.Logs.{LineModel};
    ghost use Rattle.nj_build_log.specs.Inside.LinesHeld.{all_named, AreLinesHeld};

    ghost Value = { List LineModel };

    ghost view = { λ t. all_named t.outputs t.lines.items };

    ghost invariant = { λ t. AreLinesHeld t.outputs t.lines.items t.entries.items };
}

// A line, with the number of its output.
#[derive(Clone, Copy)]
struct HeldLine {
    output: usize,
    entry: Entry,
}

impl LineTable {
    /// No lines. It allocates nothing.
    pub(crate) fn new(alloc: Global, keys: HashKeys) -> LineTable
        ensures { result ≡ [] }
    {
        LineTable {
            outputs: Names::new(alloc, keys),
            lines: Vec::new(alloc),
            entries: Vec::new(alloc),
        }
    }

    /// Adds a line, if it counts.
    pub(crate) fn add(&mut self, line: &[u8]) -> Result<(), AllocError>
        ensures added { OnOk result (self.new ≡ self.old ++ option_to_list (line_of line.now)) }
        ensures refused { OnErr result (self.new ≡ self.old) }
    {
        match read_line(line) {
            Some(logged) => self.add_logged(logged),
            None => Ok(()),
        }
    }

    // Adds a line that counts.
    fn add_logged(&mut self, logged: LoggedLine<'_>) -> Result<(), AllocError>
        ensures added { OnOk result (self.new ≡ self.old ++ line_model logged.entry ∷ []) }
        ensures refused { OnErr result (self.new ≡ self.old) }
    {
        self.lines.reserve(1)?;
        let output = set_entry(
            &mut self.outputs,
            &mut self.entries,
            logged.output,
            logged.entry,
        )?;
        self.lines.push_reserved(HeldLine {
            output,
            entry: logged.entry,
        });
        Ok(())
    }

    /// The outputs, by their numbers.
    pub(crate) fn outputs(&self) -> &Names
        ensures { result.now ≡ outputs_of self.now }
    {
        &self.outputs
    }

    /// The number of lines.
    pub(crate) fn count(&self) -> usize
        ensures { result ≡ length self.now }
    {
        self.lines.as_slice().len()
    }

    /// The line at the given index.
    pub(crate) fn line(&self, index: usize) -> LoggedLine<'_>
        requires { index < length self.now }
        ensures { slice_get self.now index ≡ Some (line_model result) }
    {
        let line = self.lines[index];
        LoggedLine {
            output: self.outputs.name(line.output),
            entry: line.entry,
        }
    }

    /// Returns the entry of the last line of the given output, or `None` if it has no line.
    pub(crate) fn entry(&self, output: &[u8]) -> Option<Entry>
        ensures { result ≡ entry_of self.now output.now }
    {
        match self.outputs.number(output) {
            Some(number) => Some(self.entries[number]),
            None => None,
        }
    }
}

// Sets the entry of an output, which is named from now on, and returns its number.
fn set_entry(
    outputs: &mut Names,
    entries: &mut Vec<Entry>,
    output: &[u8],
    entry: Entry,
) -> Result<usize, AllocError>
    requires { length entries.old.items ≡ length outputs.old }
    ensures set { OnOk result (SetsEntry output.now entry outputs.old outputs.new
        entries.old.items entries.new.items) }
    ensures named { OnOk result (outputs.new ≡ with_name outputs.old output.now) }
    ensures number { IfOk result (λ number. slice_get outputs.new number ≡ Some output.now) }
    ensures refused_output { OnErr result (outputs.new ≡ outputs.old) }
    ensures refused_entry { OnErr result (entries.new.items ≡ entries.old.items) }
{
    if let Some(number) = outputs.number(output) {
        entries[number] = entry;
        return Ok(number);
    }
    entries.reserve(1)?;
    let number = outputs.add(output)?;
    entries.push_reserved(entry);
    Ok(number)
}
