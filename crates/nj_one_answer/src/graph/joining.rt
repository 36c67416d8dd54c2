//! Inputs that builds discovered, and their joining to a graph.

ghost use Rattle.std.specs.Prelude.{◌≡◌, length};
ghost use Rattle.nj_one_answer.specs.Cited.{edges_of, AgreeUpTo, AgreeIfOk, DeclareSame, IsGraphOutOfMemory, UnlessFails, OfStatements, SameDiscoveries, SameGraph, TellAll};

use nj_deps::DepsLog;
use nj_graph::{Discoveries, FileSource, FileTimes, Graph, GraphFault};
use std::alloc::{AllocError, Global};

/// For a graph of statements. Free: whether memory lacks; the numbers of files.
pub fn graph_join_deps(
    alloc: Global,
    one: Graph,
    other: Graph,
    log: &DepsLog,
) -> (Result<Graph, GraphFault>, Result<Graph, GraphFault>)
    requires { one ≡ other }
    ensures { OfStatements one (λ entries.
        AgreeUpTo SameGraph IsGraphOutOfMemory result.0 result.1) }
{
    (one.join_deps(alloc, log), other.join_deps(alloc, log))
}

/// For a graph of statements. Free: whether memory lacks; the numbers of files.
pub fn graph_join_discovered(
    alloc: Global,
    one: Graph,
    other: Graph,
    found: &Discoveries,
) -> (Result<Graph, GraphFault>, Result<Graph, GraphFault>)
    requires count { length found.now.edges ≡ length (edges_of one) }
    requires same { one ≡ other }
    ensures { OfStatements one (λ entries.
        AgreeUpTo SameGraph IsGraphOutOfMemory result.0 result.1) }
{
    (
        one.join_discovered(alloc, found),
        other.join_discovered(alloc, found),
    )
}

/// For a graph of statements, for sources that declare the same at all paths and do not fail, and
/// for times that are declared for all paths. Free: whether memory lacks; the numbers of the paths
/// that are discovered.
pub fn graph_discover<S: FileSource, T: FileTimes>(
    alloc: Global,
    graph: &Graph,
    log: &DepsLog,
    one: &mut S,
    other: &mut S,
    times: &T,
) -> (
    Result<Discoveries, AllocError>,
    Result<Discoveries, AllocError>,
)
    requires files { DeclareSame (S.state one.old) (S.state other.old) }
    requires times { TellAll (T.times times.now) }
    ensures { OfStatements graph.now (λ entries.
        UnlessFails (S.state one.old) (S.state one.new) (UnlessFails (S.state other.old) (S.state other.new)
        (AgreeIfOk SameDiscoveries result.0 result.1))) }
{
    (
        graph.discover(alloc, log, one, times),
        graph.discover(alloc, log, other, times),
    )
}
