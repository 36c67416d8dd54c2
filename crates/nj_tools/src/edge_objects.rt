//! The edges of a graph as objects of JSON.

ghost use Rattle.std.specs.Prelude.{◌≡◌, IfOk, OnOk, option_map, slice_get};
ghost use Rattle.nj_tools.specs.Cited.{OfStatements, OfEdge, text_fault, fold, print, edge_in, edge_of, paths_of, WritesCompdb, discovery_word, edge_lines, edge_object, file_members, head_members, stated_count, unwritable_edge, value_member, value_members, IsSame, PutsText, and_member, held_text};

use crate::compdb::refuse;
use crate::object_text::ObjectText;
use crate::output::Output;
use crate::sinks::Sink;
use crate::text_lines::append_line;
use crate::tool_fault::ToolFault;
use nj_graph::{Edge, Graph, Unknown};
use std::alloc::{AllocError, Global};

/// Whether the inputs that builds discovered for an edge are known.
#[derive(Clone, Copy, Debug, PartialEq, Eq)]
pub enum DiscoveryState {
    /// They are known. An edge without `deps` and `depfile` has no such inputs.
    Known,
    /// They are not known, for the given reason.
    Unknown(Unknown),
    /// The depfile has a fault.
    Faulty,
}

/// The discoveries of builds for an edge, in a graph to which they were joined.
#[derive(Clone, Copy, Debug, PartialEq, Eq)]
pub struct EdgeDiscovery {
    /// How many implicit inputs the edge had before. The inputs after them were discovered.
    pub stated_inputs: usize,
    pub state: DiscoveryState,
}

/// Writes each edge as an object of JSON, a line each, by number. The keys are always the same, in
/// the same order: the number, the place of the build statement, the rule, whether it is phony, the
/// files by kind, whether the inputs that builds discovered are known, and the values of the
/// variables of rules, empty where an edge has none ("Rule variables" in the Ninja manual).
///
/// `discoveries` has the discoveries of builds for each edge, by number. It is empty if nothing was
/// joined to the graph.
///
/// # Errors
///
/// `TextNotUtf8` if a string of an edge is not UTF-8: the sink accepted the objects before it.
/// `Write` if the sink failed, and `OutOfMemory` if an allocation failed; the sink has then
/// accepted a prefix of the text.
pub fn write_edge_objects<S: Sink>(
    alloc: Global,
    graph: &Graph,
    discoveries: &[EdgeDiscovery],
    out: &mut S,
) -> Result<(), ToolFault>
    ensures { OfStatements graph.now (λ entries.
        WritesCompdb (S.state out.old) (S.state out.new) (edge_lines entries discoveries.now)
        (option_map (text_fault entries) (unwritable_edge entries discoveries.now)) result) }
{
    let mut text = Vec::new(alloc);
    let mut output = Output::new(out, &mut text);
    let unwritable = write_lines(alloc, graph, discoveries, &mut output)?;
    output.flush()?;
    refuse(alloc, unwritable)
}

// Writes the lines of edges. Returns the first edge that JSON cannot contain, before which it
// stops; `None` if JSON can contain all edges.
fn write_lines<'g, S: Sink>(
    alloc: Global,
    graph: &'g Graph,
    discoveries: &[EdgeDiscovery],
    out: &mut Output<'_, S>,
) -> Result<Option<Edge<'g>>, ToolFault>
    ensures same { IsSame out.old out.new }
    ensures text { OfStatements graph.entry.now (λ entries.
        PutsText S.state out.old out.new (edge_lines entries discoveries.now) result) }
    ensures unwritable { OfStatements graph.entry.now (λ entries. IfOk result (λ edge.
        option_map edge_of edge
        ≡ option_map (edge_in graph.entry.now) (unwritable_edge entries discoveries.now))) }
{
    'edges: for edge in graph.edges() {
        let discovery = discovery_of(discoveries, edge);
        let Some(object) = object_of(alloc, edge, discovery)? else {
            return Ok(Some(edge));
        };
        append_line(out.pending, &object, b"")?;
        out.write_block()?;
    }
    Ok(None)
}

// The discoveries of builds for an edge; `None` if nothing was joined.
fn discovery_of(discoveries: &[EdgeDiscovery], edge: Edge<'_>) -> Option<EdgeDiscovery>
    ensures { result ≡ slice_get discoveries.now (edge_of edge.entry).number }
{
    discoveries.get(edge.number().0).copied()
}

// The text of the object of an edge; `None` if one of its strings is not UTF-8.
fn object_of(
    alloc: Global,
    edge: Edge<'_>,
    discovery: Option<EdgeDiscovery>,
) -> Result<Option<Vec<u8>>, AllocError>
    ensures { OfEdge (edge_of edge.entry) (λ entries number.
        IfOk result (λ text. option_map (λ text. text.items) text
        ≡ option_map print (held_text (edge_object entries discovery number)))) }
{
    let mut object = ObjectText::new(alloc)?;
    add_head(&mut object, edge)?;
    add_files(&mut object, edge, discovery)?;
    add_values(alloc, &mut object, edge)?;
    object.into_text()
}

// Adds the number of an edge, the place of its build statement, and its rule.
fn add_head(object: &mut ObjectText, edge: Edge<'_>) -> Result<(), AllocError>
    ensures { OfEdge (edge_of edge.entry) (λ entries number.
        OnOk result (object.new ≡ fold and_member object.old (head_members entries number))) }
{
    object.add_number("edge", edge.number().0)?;
    object.add_place("place", edge.place())?;
    object.add_string("rule", edge.rule_name())?;
    object.add_bool("phony", edge.is_phony())
}

// Adds the files of an edge by kind, and whether the inputs that builds discovered are known.
fn add_files(
    object: &mut ObjectText,
    edge: Edge<'_>,
    discovery: Option<EdgeDiscovery>,
) -> Result<(), AllocError>
    ensures { OnOk result (object.new
        ≡ fold and_member object.old (file_members discovery (paths_of (edge_of edge.entry)))) }
{
    let implicit = edge.implicit_inputs();
    let (stated, discovered) = implicit.split_at(stated_count(discovery, implicit.len()));
    object.add_paths("outputs", edge.explicit_outputs())?;
    object.add_paths("implicit_outputs", edge.implicit_outputs())?;
    object.add_paths("inputs", edge.explicit_inputs())?;
    object.add_paths("implicit_inputs", stated)?;
    object.add_paths("discovered_inputs", discovered)?;
    object.add_paths("order_only_inputs", edge.order_only_inputs())?;
    object.add_paths("validations", edge.validations())?;
    object.add_string("discovered", discovery_word(discovery))
}

// How many of the given number of implicit inputs are stated.
fn stated_count(discovery: Option<EdgeDiscovery>, count: usize) -> usize
    ensures { result ≡ stated_count discovery count }
{
    match discovery {
        Some(discovery) => discovery.stated_inputs,
        None => count,
    }
}

// The word for whether the inputs that builds discovered are known.
fn discovery_word(discovery: Option<EdgeDiscovery>) -> &'static [u8]
    ensures { result.now ≡ discovery_word discovery }
{
    let Some(discovery) = discovery else {
        return b"not-requested";
    };
    match discovery.state {
        DiscoveryState::Known => b"known",
        DiscoveryState::Unknown(Unknown::NoRecord) => b"no-record",
        DiscoveryState::Unknown(Unknown::NewerOutput) => b"newer-output",
        DiscoveryState::Unknown(Unknown::NoTime) => b"no-time",
        DiscoveryState::Unknown(Unknown::NoDepfile) => b"no-depfile",
        DiscoveryState::Unknown(Unknown::EmptyDepfile) => b"empty-depfile",
        DiscoveryState::Unknown(Unknown::OtherTarget) => b"other-target",
        DiscoveryState::Faulty => b"depfile-fault",
    }
}

// Adds the values of the variables of rules for an edge.
fn add_values(alloc: Global, object: &mut ObjectText, edge: Edge<'_>) -> Result<(), AllocError>
    ensures { OfEdge (edge_of edge.entry) (λ entries number.
        OnOk result (object.new ≡ fold and_member object.old (value_members entries number))) }
{
    add_value(alloc, object, edge, "command")?;
    add_value(alloc, object, edge, "description")?;
    add_value(alloc, object, edge, "depfile")?;
    add_value(alloc, object, edge, "deps")?;
    add_value(alloc, object, edge, "rspfile")?;
    add_value(alloc, object, edge, "rspfile_content")?;
    add_value(alloc, object, edge, "pool")?;
    add_value(alloc, object, edge, "dyndep")?;
    add_value(alloc, object, edge, "generator")?;
    add_value(alloc, object, edge, "restat")
}

// Adds the value of a variable for an edge.
fn add_value(
    alloc: Global,
    object: &mut ObjectText,
    edge: Edge<'_>,
    name: &str,
) -> Result<(), AllocError>
    ensures { OfEdge (edge_of edge.entry) (λ entries number.
        OnOk result (object.new ≡ and_member object.old (value_member entries number name.now))) }
{
    let value = edge.variable(alloc, name.as_bytes())?;
    object.add_string(name, &value)
}
