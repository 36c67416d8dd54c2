//! Chains of inputs by which files need others.

ghost use Rattle.std.specs.Prelude.{◌≡◌, ◌<◌, length, map, min, nat_eq, not};
ghost use Rattle.nj_c.specs.Cited.{files_of, IfNumber, AtGraph, filled, numbered_step, GivesPath, StepsKeptUnlessDone, code_of};

use crate::asking::ask_graph;
use crate::items::step_kind_number;
use crate::session::Session;
use crate::status::Status;
use nj_edges::Step;
use nj_graph::{ChainKinds, EdgeGraph, FileNo};
use std::alloc::Global;

/// A step of a chain: from an edge to one of its inputs, which the edge of the next step makes.
#[derive(Clone, Copy)]
#[repr(C)]
pub struct PathStep {
    pub edge: usize,
    pub file: usize,
    /// The kind of the input, as `nx_input` returns it; 3 for a validation.
    pub kind: i32,
}

/// A shortest chain of inputs by which one file needs another: its first step starts at the edge
/// that makes `from`, its last step leads to `to`, and each step starts at the edge that makes the
/// file of the step before it. Of several shortest chains it is the first when inputs are tried in
/// their order. If `with_validations` is not 0, validations are treated as inputs too, after those
/// of their edge.
///
/// Stores as many steps as fit, and how many there are; `NX_NOTHING` without a chain, and from a
/// file to itself.
#[unsafe(no_mangle)]
pub extern "C" fn nx_path_between(
    alloc: Global,
    session: &mut Session,
    from: usize,
    to: usize,
    with_validations: u32,
    steps: &mut [PathStep],
    count: &mut usize,
) -> i32
    ensures kept { session.new.kept ≡ session.old.kept }
    ensures path { AtGraph session.old.kept result (λ g.
        IfNumber from (length (files_of g)) result (IfNumber to (length (files_of g)) result
        (GivesPath g.built.graph (not (nat_eq with_validations 0)) from to
        steps.old steps.new count.new result))) }
    ensures buffer { StepsKeptUnlessDone steps.old steps.new result }
{
    ask_graph!(session, alloc, graph => if from < graph.file_count() && to < graph.file_count() {
        let (from, to) = (FileNo(from), FileNo(to));
        give_path(alloc, graph, from, to, with_validations != 0, steps, count)
    } else {
        Status::BadNumber
    })
}

fn give_path(
    alloc: Global,
    graph: &EdgeGraph,
    from: FileNo,
    to: FileNo,
    with_validations: bool,
    steps: &mut [PathStep],
    count: &mut usize,
) -> Status
    requires from { from.0 < length graph.now.files }
    requires to { to.0 < length graph.now.files }
    ensures path { GivesPath graph.now with_validations from.0 to.0
        steps.old steps.new count.new (code_of result) }
    ensures buffer { StepsKeptUnlessDone steps.old steps.new (code_of result) }
{
    let kinds = ChainKinds {
        order_only: true,
        validations: with_validations,
    };
    match graph.path_between(alloc, from, to, kinds) {
        Ok(Some(found)) => {
            *count = found.as_slice().len();
            write_steps(&found, steps);
            Status::Done
        }
        Ok(None) => Status::Nothing,
        Err(_) => Status::OutOfMemory,
    }
}

// Writes as many steps as fit.
fn write_steps(found: &[Step], steps: &mut [PathStep])
    ensures { steps.new ≡ filled (map numbered_step found.now) steps.old }
{
    let fitting = found.len().min(steps.len());
    'steps: for at in 0..fitting {
        steps[at] = numbered_step(found[at]);
    }
}

fn numbered_step(step: Step) -> PathStep
    ensures { result ≡ numbered_step step }
{
    PathStep {
        edge: step.edge.0,
        file: step.file.0,
        kind: step_kind_number(step.kind),
    }
}
