//! A graph with the inputs that builds discovered.

ghost use Rattle.std.specs.Prelude.{List, IfOk};
ghost use Rattle.nj_graph.specs.ReadingList.{ReadStatement};
ghost use Rattle.nj_ask.specs.Cited.{LogModel, DeclaredTimes, AreDiscovered, IsGraphOf, SourceState, JoinsDiscovered, Follows, HasDoubtfulEdges, AreFindingsOf};

use crate::doubts::{Doubts, EdgeFault, doubts_of};
use crate::keeping::keep_if_ok;
use nj_deps::DepsLog;
use nj_graph::{
    Discoveries, EdgeNo, FileSource, FileTimes, Graph, GraphFault, HashKeys, UndeclaredInput,
};
use nj_tools::EdgeDiscovery;
use std::alloc::{AllocError, Global};

/// A graph with the inputs that builds discovered, if they are requested.
#[derive(Drop)]
pub struct DiscoveredGraph {
    pub graph: Graph,
    /// Whether the inputs that builds discovered were joined.
    pub has_discovered: bool,
    /// The edges whose discovered inputs are not known.
    pub unknown: Vec<EdgeNo>,
    /// The faults of depfiles, by edge number.
    pub faults: Vec<EdgeFault>,
    /// By edge number, how many implicit inputs each edge has without the discovered ones, and
    /// whether the discovered ones are known. Empty if they are not requested.
    pub discoveries: Vec<EdgeDiscovery>,
    /// By edge number, how many implicit inputs the manifest itself has for each edge: those that a
    /// dyndep file names and that builds discovered come after them.
    pub stated_inputs: Vec<usize>,
    /// Why the discovered inputs may differ from those of the last build, a line each.
    pub caveats: Vec<u8>,
    /// The inputs in the deps log that edges do not declare, if they are requested.
    pub undeclared: Vec<UndeclaredInput>,
    /// Hash keys that the authors of the files do not know.
    pub keys: HashKeys,
}

/// A graph with the inputs that builds discovered, and what is not known of them.
#[derive(Drop)]
pub struct Discovered {
    pub graph: Graph,
    pub doubts: Doubts,
}

/// What builds discovered, and what is not known of it.
#[derive(Drop)]
struct Findings {
    found: Discoveries,
    doubts: Doubts,
}

/// The graph with the inputs that builds discovered, by a deps log and by depfiles, and what is not
/// known of them.
///
/// # Errors
///
/// Those of [`Graph::join_discovered`].
#[inline(never)]
pub fn with_discovered<S: FileSource, T: FileTimes>(
    alloc: Global,
    graph: Graph,
    log: &DepsLog,
    files: &mut S,
    times: &T,
) -> Result<Discovered, GraphFault>
    ensures joins { (stated : List ReadStatement) → IsGraphOf graph stated
        → JoinsDiscovered (S.state files.old) (S.state files.new) (T.times times.now)
        log.now stated result }
    ensures edges { IfOk result HasDoubtfulEdges }
    ensures follows { IfOk result (λ known. Follows graph known.graph) }
{
    let findings = findings_of(alloc, &graph, log, files, times);
    let (graph, findings) = keep_if_ok(graph, findings)?;
    with_findings(alloc, graph, findings)
}

/// What builds discovered for the edges of a graph, and what is not known of it.
fn findings_of<S: FileSource, T: FileTimes>(
    alloc: Global,
    graph: &Graph,
    log: &DepsLog,
    files: &mut S,
    times: &T,
) -> Result<Findings, AllocError>
    ensures found { (stated : List ReadStatement) → IsGraphOf graph.now stated
        → IfOk result (λ findings. AreDiscovered (S.state files.old) (S.state files.new)
        (T.times times.now) log.now stated findings.found) }
    ensures of { IfOk result (AreFindingsOf graph.now) }
{
    let found = graph.discover(alloc, log, files, times)?;
    let doubts = doubts_of(alloc, graph, &found)?;
    Ok(Findings { found, doubts })
}

/// The graph with the inputs that were found.
fn with_findings(alloc: Global, graph: Graph, findings: Findings) -> Result<Discovered, GraphFault>
    requires { AreFindingsOf graph findings }
    ensures joins { (before after : SourceState) (times : DeclaredTimes) (log : LogModel)
        (stated : List ReadStatement) → IsGraphOf graph stated
        → AreDiscovered before after times log stated findings.found
        → JoinsDiscovered before after times log stated result }
    ensures edges { IfOk result HasDoubtfulEdges }
    ensures follows { IfOk result (λ known. Follows graph known.graph) }
{
    let Findings { found, doubts } = findings;
    let graph = graph.join_discovered(alloc, &found)?;
    Ok(Discovered { graph, doubts })
}
