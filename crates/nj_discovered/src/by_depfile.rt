//! What a depfile says about an edge.

ghost use Rattle.std.specs.Prelude.{◌≡◌, ◌<◌, Some, length, map, find, drop, not, option_copied, IfOk, OnOk};
ghost use Rattle.nj_discovered.specs.Cited.{clean_path_of, is_among, edge_at, outputs_of, by_targets, by_text, IsByText, IsLater, Text, Faulty, Finds, Appends};
ghost use Rattle.nj_discovered.specs.declared.verdict.DepfileError.TheVariants as error;

use crate::names::{add_clean, clean};
use crate::outputs::{is_first_output, is_output};
use crate::verdict::{DepfileError, Unknown, Verdict};
use nj_depfiles::{Depfile, DepfileFault};
use nj_edges::{EdgeGraph, EdgeNo};
use nj_faults::Name;
use nj_names::Names;
use nj_scope::{FileSource, HashKeys, SourceFault};
use std::alloc::{AllocError, Global};

// What the depfile at a path says about an edge: appends the numbers of its inputs, if they are
// known.
pub(crate) fn find_by_depfile<S: FileSource>(
    alloc: Global,
    names: &mut Names,
    numbers: &mut Vec<u32>,
    files: &mut S,
    graph: &EdgeGraph,
    edge: EdgeNo,
    depfile: &[u8],
) -> Result<Verdict, AllocError>
    requires { edge.0 < length graph.now.edges }
    ensures later { IsLater (S.state files.old) (S.state files.new) }
    ensures found { IfOk result (Finds (IsByText (S.state files.old) (S.state files.new)
        (edge_at graph.now.edges edge.0) depfile.now)
        names.old names.new numbers.old.items numbers.new.items) }
{
    let Ok(path) = str::from_utf8(depfile) else {
        return Ok(Verdict::Faulty(DepfileError::Unreadable));
    };
    match files.read(alloc, path) {
        Ok(Some(text)) => {
            find_by_text(alloc, names, numbers, files.hash_keys(), graph, edge, &text)
        }
        Ok(None) => Ok(Verdict::Unknown(Unknown::NoDepfile)),
        Err(SourceFault::Io) => Ok(Verdict::Faulty(DepfileError::Unreadable)),
        Err(SourceFault::OutOfMemory) => Err(AllocError),
    }
}

// The same, by the text of a depfile.
fn find_by_text(
    alloc: Global,
    names: &mut Names,
    numbers: &mut Vec<u32>,
    keys: HashKeys,
    graph: &EdgeGraph,
    edge: EdgeNo,
    text: &[u8],
) -> Result<Verdict, AllocError>
    requires { edge.0 < length graph.now.edges }
    ensures { IfOk result (Finds
        (λ found. found ≡ by_text (edge_at graph.now.edges edge.0) (Text (Some text.now)))
        names.old names.new numbers.old.items numbers.new.items) }
{
    if text.is_empty() {
        return Ok(Verdict::Unknown(Unknown::EmptyDepfile));
    }
    match Depfile::read_with_keys(alloc, keys, text) {
        Ok(named) => find_by_targets(alloc, names, numbers, graph, edge, &named),
        Err(DepfileFault::NoColon) => Ok(faulty(DepfileFault::NoColon)),
        Err(DepfileFault::InputHasInputs) => Ok(faulty(DepfileFault::InputHasInputs)),
        Err(DepfileFault::OutOfMemory) => Err(AllocError),
    }
}

// That a depfile has a fault.
fn faulty(fault: DepfileFault) -> Verdict
    ensures { result ≡ Faulty (error.Depfile fault) }
{
    Verdict::Faulty(DepfileError::Depfile(fault))
}

// The same, by what a depfile names.
fn find_by_targets(
    alloc: Global,
    names: &mut Names,
    numbers: &mut Vec<u32>,
    graph: &EdgeGraph,
    edge: EdgeNo,
    named: &Depfile,
) -> Result<Verdict, AllocError>
    requires { edge.0 < length graph.now.edges }
    ensures { IfOk result (Finds
        (λ found. found ≡ by_targets (edge_at graph.now.edges edge.0) named.now.targets named.now.inputs)
        names.old names.new numbers.old.items numbers.new.items) }
{
    if named.target_count() == 0 {
        return Ok(Verdict::Faulty(DepfileError::NoTarget));
    }
    let mut buffer = Vec::new(alloc);
    let first = clean(&mut buffer, named.target(0))?;
    if !is_first_output(graph, edge, first) {
        return Ok(Verdict::Unknown(Unknown::OtherTarget));
    }
    if let Some(target) = stranger(graph, edge, named) {
        let name = Name::new(alloc, target)?;
        return Ok(Verdict::Faulty(DepfileError::NoSuchOutput(name)));
    }
    add_inputs(names, numbers, &mut buffer, named)?;
    Ok(Verdict::Known)
}

// The first target after the first one that is not an output of the edge, if any.
fn stranger<'a>(graph: &EdgeGraph, edge: EdgeNo, named: &'a Depfile) -> Option<&'a [u8]>
    requires edge { edge.0 < length graph.now.edges }
    requires some { 0 < length named.now.targets }
    ensures { option_copied result
        ≡ find (λ target. not (is_among (outputs_of (edge_at graph.now.edges edge.0)) target))
        (drop 1 named.now.targets) }
{
    'targets: for number in 1..named.target_count() {
        let target = named.target(number);
        if !is_output(graph, edge, target) {
            return Some(target);
        }
    }
    None
}

// Appends the numbers of the inputs that a depfile names.
fn add_inputs(
    names: &mut Names,
    numbers: &mut Vec<u32>,
    buffer: &mut Vec<u8>,
    named: &Depfile,
) -> Result<(), AllocError>
    ensures { OnOk result (Appends (map clean_path_of named.now.inputs) names.old names.new
        numbers.old.items numbers.new.items) }
{
    'inputs: for number in 0..named.input_count() {
        add_clean(names, numbers, buffer, named.input(number))?;
    }
    Ok(())
}
