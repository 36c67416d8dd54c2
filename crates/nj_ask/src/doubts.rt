//! What is not known of the inputs that builds discovered.

ghost use Rattle.std.specs.Prelude.{◌≡◌, ◌++◌, ◌<◌, All, IfOk, OnOk, length, map};
ghost use Rattle.nj_ask.specs.Cited.{OfStatements, OfEdge, paths_of, first_output, line, depfile_text, doubt_line, doubt_lines, fault_texts, no_time_line, text_if_faulty, edge_of, edges_of, doubtful_edges, edge_discoveries, faulty_edges, state_of, if_doubtful, if_faulty};

use crate::listing::push_line;
use nj_graph::{DepfileError, Discoveries, Edge, EdgeNo, Graph, Unknown, Verdict};
use nj_tools::{DiscoveryState, EdgeDiscovery};
use std::alloc::{AllocError, Global};

/// The fault of the depfile of an edge.
#[derive(Drop)]
pub struct EdgeFault {
    pub edge: EdgeNo,
    /// The path of the depfile, and its fault in the words of Ninja.
    pub text: Vec<u8>,
}

/// What is not known of the inputs that builds discovered.
#[derive(Drop)]
pub struct Doubts {
    /// The edges whose discovered inputs are not known, by number.
    pub edges: Vec<EdgeNo>,
    /// The faults of depfiles, by edge number.
    pub faults: Vec<EdgeFault>,
    /// A line for each depfile with a fault, and for each output whose time cannot be read.
    pub lines: Vec<u8>,
    /// By edge number, how many implicit inputs each edge has without the discovered ones, and
    /// whether the discovered ones are known.
    pub discoveries: Vec<EdgeDiscovery>,
}

/// What is not known of the discoveries.
pub fn doubts_of(alloc: Global, graph: &Graph, found: &Discoveries) -> Result<Doubts, AllocError>
    requires { length found.now.edges ≡ length (edges_of graph.now) }
    ensures edges { IfOk result (λ doubts. map (λ edge. edge.0) doubts.edges.items
        ≡ doubtful_edges found.now) }
    ensures known { IfOk result (λ doubts.
        All (λ edge. edge.0 < length (edges_of graph.now)) doubts.edges.items) }
    ensures faults { IfOk result (λ doubts. map (λ fault. fault.edge.0) doubts.faults.items
        ≡ faulty_edges found.now) }
    ensures texts { OfStatements graph.now (λ entries. IfOk result (λ doubts.
        map (λ fault. fault.text.items) doubts.faults.items ≡ fault_texts entries found.now)) }
    ensures lines { OfStatements graph.now (λ entries. IfOk result (λ doubts.
        doubts.lines.items ≡ doubt_lines entries found.now)) }
    ensures discoveries { IfOk result (λ doubts.
        doubts.discoveries.items ≡ edge_discoveries (edges_of graph.now) found.now) }
{
    let mut edges = Vec::new(alloc);
    let mut lines = Vec::new(alloc);
    'edges: for edge in graph.edges() {
        let verdict = found.verdict(edge.number().0);
        push_edge(alloc, &mut edges, edge, verdict, &mut lines)?;
    }
    let faults = faults_of(alloc, graph, found)?;
    let discoveries = discoveries_of(alloc, graph, found)?;
    Ok(Doubts {
        edges,
        faults,
        lines,
        discoveries,
    })
}

/// What builds discovered for each edge of a graph, before it is joined to the graph.
fn discoveries_of(
    alloc: Global,
    graph: &Graph,
    found: &Discoveries,
) -> Result<Vec<EdgeDiscovery>, AllocError>
    requires { length found.now.edges ≡ length (edges_of graph.now) }
    ensures { IfOk result (λ discoveries.
        discoveries.items ≡ edge_discoveries (edges_of graph.now) found.now) }
{
    let mut discoveries = Vec::with_capacity(alloc, graph.edge_count())?;
    'edges: for edge in graph.edges() {
        discoveries.push(EdgeDiscovery {
            stated_inputs: edge.implicit_inputs().len(),
            state: state_of(found.verdict(edge.number().0)),
        })?;
    }
    Ok(discoveries)
}

/// Whether the inputs that builds discovered are known.
fn state_of(verdict: &Verdict) -> DiscoveryState
    ensures { result ≡ state_of verdict.now }
{
    match verdict {
        Verdict::Known => DiscoveryState::Known,
        Verdict::Unknown(reason) => DiscoveryState::Unknown(*reason),
        Verdict::Faulty(_) => DiscoveryState::Faulty,
    }
}

/// Adds an edge unless its discovered inputs are known, and the line that says why not, if any.
fn push_edge(
    alloc: Global,
    edges: &mut Vec<EdgeNo>,
    edge: Edge<'_>,
    verdict: &Verdict,
    lines: &mut Vec<u8>,
) -> Result<(), AllocError>
    ensures edges { OnOk result (map (λ edge. edge.0) edges.new.items ≡ map (λ edge. edge.0)
        edges.old.items ++ if_doubtful verdict.now (edge_of edge.entry).number) }
    ensures line { OfEdge (edge_of edge.entry) (λ entries number. OnOk result
        (lines.new.items ≡ lines.old.items ++ doubt_line entries number verdict.now)) }
{
    match verdict {
        Verdict::Known => return Ok(()),
        Verdict::Unknown(Unknown::NoTime) => push_no_time(edge, lines)?,
        Verdict::Unknown(_) => {}
        Verdict::Faulty(fault) => push_fault(alloc, edge, fault, lines)?,
    }
    edges.push(edge.number())?;
    Ok(())
}

/// Appends the line that says that the time of the first output of an edge cannot be read.
fn push_no_time(edge: Edge<'_>, lines: &mut Vec<u8>) -> Result<(), AllocError>
    ensures { OnOk result (lines.new.items ≡ lines.old.items
        ++ no_time_line (first_output (paths_of (edge_of edge.entry)))) }
{
    if let Some(output) = edge.outputs().first() {
        lines.extend_from_slice(output.path())?;
        push_line(lines, b": its time cannot be read")?;
    }
    Ok(())
}

/// The faults of depfiles, by edge number.
fn faults_of(
    alloc: Global,
    graph: &Graph,
    found: &Discoveries,
) -> Result<Vec<EdgeFault>, AllocError>
    requires { length found.now.edges ≡ length (edges_of graph.now) }
    ensures edges { IfOk result (λ faults.
        map (λ fault. fault.edge.0) faults.items ≡ faulty_edges found.now) }
    ensures texts { OfStatements graph.now (λ entries. IfOk result (λ faults.
        map (λ fault. fault.text.items) faults.items ≡ fault_texts entries found.now)) }
{
    let mut faults = Vec::new(alloc);
    'edges: for edge in graph.edges() {
        let verdict = found.verdict(edge.number().0);
        push_faulty(alloc, &mut faults, edge, verdict)?;
    }
    Ok(faults)
}

/// Adds an edge if its depfile has a fault.
fn push_faulty(
    alloc: Global,
    faults: &mut Vec<EdgeFault>,
    edge: Edge<'_>,
    verdict: &Verdict,
) -> Result<(), AllocError>
    ensures edges { OnOk result (map (λ fault. fault.edge.0) faults.new.items
        ≡ map (λ fault. fault.edge.0) faults.old.items
        ++ if_faulty verdict.now (edge_of edge.entry).number) }
    ensures texts { OfEdge (edge_of edge.entry) (λ entries number. OnOk result
        (map (λ fault. fault.text.items) faults.new.items
        ≡ map (λ fault. fault.text.items) faults.old.items
        ++ text_if_faulty entries verdict.now number)) }
{
    match verdict {
        Verdict::Faulty(fault) => {
            let text = fault_text(alloc, edge, fault)?;
            faults.push(EdgeFault {
                edge: edge.number(),
                text,
            })?;
        }
        _ => {}
    }
    Ok(())
}

/// The path of the depfile of an edge, and its fault.
fn fault_text(alloc: Global, edge: Edge<'_>, fault: &DepfileError) -> Result<Vec<u8>, AllocError>
    ensures { OfEdge (edge_of edge.entry) (λ entries number.
        IfOk result (λ text. text.items ≡ depfile_text entries number fault.now)) }
{
    let mut text = edge.variable(alloc, b"depfile")?;
    text.extend_from_slice(b": ")?;
    fault.append_text(&mut text)?;
    Ok(text)
}

/// Appends the line with the fault of the depfile of an edge.
fn push_fault(
    alloc: Global,
    edge: Edge<'_>,
    fault: &DepfileError,
    lines: &mut Vec<u8>,
) -> Result<(), AllocError>
    ensures { OfEdge (edge_of edge.entry) (λ entries number. OnOk result
        (lines.new.items ≡ lines.old.items ++ line (depfile_text entries number fault.now))) }
{
    push_line(lines, &fault_text(alloc, edge, fault)?)
}
