//! Outputs and their dependencies.

ghost use Rattle.std.specs.Prelude.{◌≡◌, ◌<◌, ◌≤◌, ◌+◌, ◌%◌, ◌^◌, [], Some, None, length, slice_get, OnOk, OnErr, IfOk, MatchOption};
ghost use Rattle.nj_deps.specs.Cited.{AllByRecursion, output_of, output_model, IsOfPaths, Keeps, ArePlaces, with_held};

use crate::little_endian::push_numbers;
use crate::path_no::PathNo;
use nj_names::short_number;
use std::alloc::{AllocError, Global};
use std::marker::Model;

/// An output of a deps log and its dependencies.
#[derive(Clone, Copy, Debug)]
pub struct LoggedOutput<'a> {
    /// The number of its path.
    pub output: PathNo,
    /// The time of the output when it was built, in nanoseconds since 1970.
    pub time: u64,
    /// The numbers of the paths on which it depends, in the log's order.
    pub inputs: &'a [PathNo],
}

/// Outputs and their dependencies, by the numbers of paths.
#[derive(Drop)]
pub(crate) struct OutputTable {
    // the inputs of all outputs
    inputs: Vec<PathNo>,
    outputs: Vec<HeldOutput>,
    // for each path the place of its output, counted from 1; 0 if the path is not an output
    places: Vec<u32>,
}

impl Model for OutputTable {
    ghost use Rattle.std.specs.Prelude.{length};
    ghost use Rattle.nj_deps.specs.Logs.{numbers_of};
    ghost use Rattle.nj_deps.specs.Inside.OutputsHeld.{OutputsModel, AreOutputsHeld, all_logged};

    ghost Value = { OutputsModel };

    ghost view = { λ t. record {
      count = length t.places.items;
      outputs = all_logged (numbers_of t.inputs.items) t.outputs.items;
    } };

    ghost invariant = { λ t. AreOutputsHeld (numbers_of t.inputs.items) t.outputs.items
        t.places.items };
}

// An output. Its inputs are a part of all inputs.
#[derive(Clone, Copy)]
pub(crate) struct HeldOutput {
    output: u32,
    start: u32,
    end: u32,
    time: u64,
}

impl OutputTable {
    /// No outputs and no paths. Allocates nothing.
    pub(crate) fn new(alloc: Global) -> OutputTable
        ensures { result ≡ record { count = 0; outputs = [] } }
    {
        OutputTable {
            inputs: Vec::new(alloc),
            outputs: Vec::new(alloc),
            places: Vec::new(alloc),
        }
    }

    /// Counts one more path.
    pub(crate) fn add_path(&mut self) -> Result<(), AllocError>
        ensures added { OnOk result (self.new
            ≡ record { count = self.old.count + 1; outputs = self.old.outputs }) }
        ensures refused { OnErr result (self.new ≡ self.old) }
    {
        Ok(self.places.push(0)?)
    }

    /// Keeps the dependencies of the output, in place of its earlier ones. Returns whether all
    /// numbers are numbers of paths; if not, it keeps nothing.
    pub(crate) fn keep(&mut self, output: u32, time: u64, inputs: &[u8]) -> Result<bool, AllocError>
        requires words { length inputs.now % 4 ≡ 0 }
        requires count { self.old.count ≤ 2 ^ 32 }
        ensures kept { IfOk result (λ kept. Keeps output time inputs.now self.old self.new kept) }
        ensures count { self.new.count ≡ self.old.count }
    {
        let count = self.places.as_slice().len();
        let start = short_number(self.inputs.as_slice().len())?;
        if output as usize >= count {
            return Ok(false);
        }
        if !push_numbers(&mut self.inputs, inputs, count)? {
            return Ok(false);
        }
        let held = HeldOutput {
            output,
            start,
            end: short_number(self.inputs.as_slice().len())?,
            time,
        };
        set_output(&mut self.outputs, &mut self.places, held)?;
        Ok(true)
    }

    /// How many paths were counted.
    pub(crate) fn path_count(&self) -> usize
        ensures count { result ≡ self.now.count }
        ensures known { AllByRecursion (IsOfPaths self.now.count) self.now.outputs }
    {
        self.places.as_slice().len()
    }

    /// The number of outputs.
    pub(crate) fn count(&self) -> usize
        ensures { result ≡ length self.now.outputs }
    {
        self.outputs.as_slice().len()
    }

    /// The output at this index.
    pub(crate) fn output(&self, index: usize) -> LoggedOutput<'_>
        requires { index < length self.now.outputs }
        ensures output { slice_get self.now.outputs index ≡ Some (output_model result) }
        ensures known { AllByRecursion (IsOfPaths self.now.count) self.now.outputs }
    {
        let held = &self.outputs[index];
        LoggedOutput {
            output: PathNo(held.output),
            time: held.time,
            inputs: &self.inputs.as_slice()[held.start as usize..held.end as usize],
        }
    }

    /// Returns the index of the output whose path has the given number, or `None`.
    pub(crate) fn index_of(&self, number: PathNo) -> Option<usize>
        requires { number.0 < self.now.count }
        ensures { MatchOption result (output_of self.now.outputs number.0 ≡ None)
            (λ index. (index < length self.now.outputs)
            × (slice_get self.now.outputs index ≡ output_of self.now.outputs number.0)) }
    {
        match self.places[number.0 as usize] {
            0 => None,
            place => Some(place as usize - 1),
        }
    }
}

// Sets the output, in place of its earlier entry.
fn set_output(
    outputs: &mut Vec<HeldOutput>,
    places: &mut Vec<u32>,
    held: HeldOutput,
) -> Result<(), AllocError>
    requires number { held.output < length places.old.items }
    requires places { ArePlaces outputs.old.items places.old.items }
    ensures set { OnOk result (outputs.new.items ≡ with_held outputs.old.items held) }
    ensures refused { OnErr result (outputs.new.items ≡ outputs.old.items) }
    ensures places { ArePlaces outputs.new.items places.new.items }
    ensures count { length places.new.items ≡ length places.old.items }
{
    let number = held.output as usize;
    let place = places[number] as usize;
    if place > 0 {
        outputs[place - 1] = held;
        return Ok(());
    }
    let place = short_number(outputs.as_slice().len() + 1)?;
    outputs.push(held)?;
    places[number] = place;
    Ok(())
}
