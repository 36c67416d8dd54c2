//! The calls of `nj_tools`: texts that are written to sinks.

ghost use Rattle.std.specs.Prelude.{◌≡◌, ◌<◌, length, All, OnOk};
ghost use Rattle.nj_one_answer.specs.Cited.{files_of, AgreeBut, IsCut, OfStatements, SameSinks, SameWalk, UnlessCut};

use nj_graph::{FileNo, Graph};
use nj_tools::{EdgeDiscovery, InputsStyle, Mark, Needs, Sink, SinkFault, TargetsView, ToolFault};
use std::alloc::Global;

/// For a graph of statements. Free: whether memory lacks; where a sink fails; what a sink reports
/// if it reported nothing before; the walk after the call.
pub fn write_commands<S: Sink>(
    alloc: Global,
    graph: &Graph,
    needs: &mut Needs<'_>,
    same: &mut Needs<'_>,
    take: Option<u64>,
    one: &mut S,
    other: &mut S,
) -> (
    Result<Option<Mark>, ToolFault>,
    Result<Option<Mark>, ToolFault>,
)
    requires graph { needs.old.graph ≡ graph.now.built.graph }
    requires walk { SameWalk needs.old same.old }
    requires sink { S.state one.old ≡ S.state other.old }
    ensures agree { OfStatements graph.now (λ entries. AgreeBut IsCut result.0 result.1) }
    ensures sinks { OfStatements graph.now (λ entries. UnlessCut result.0 (UnlessCut result.1
        (SameSinks (S.state one.old) (S.state one.new) (S.state other.new)))) }
{
    (
        nj_tools::write_commands(alloc, graph, needs, take, one),
        nj_tools::write_commands(alloc, graph, same, take, other),
    )
}

/// For a graph of statements. Free: whether memory lacks; where a sink fails; what a sink reports
/// if it reported nothing before.
pub fn write_single_commands<S: Sink>(
    alloc: Global,
    graph: &Graph,
    targets: &[FileNo],
    one: &mut S,
    other: &mut S,
) -> (Result<(), ToolFault>, Result<(), ToolFault>)
    requires known { All (λ file. file.0 < length (files_of graph.now)) targets.now }
    requires sink { S.state one.old ≡ S.state other.old }
    ensures agree { OfStatements graph.now (λ entries. AgreeBut IsCut result.0 result.1) }
    ensures sinks { OfStatements graph.now (λ entries. UnlessCut result.0 (UnlessCut result.1
        (SameSinks (S.state one.old) (S.state one.new) (S.state other.new)))) }
{
    (
        nj_tools::write_single_commands(alloc, graph, targets, one),
        nj_tools::write_single_commands(alloc, graph, targets, other),
    )
}

/// For a graph of statements. Free: whether memory lacks; where a sink fails; what a sink reports
/// if it reported nothing before.
pub fn write_compdb<S: Sink>(
    alloc: Global,
    graph: &Graph,
    directory: &str,
    rules: &[String],
    expand: bool,
    one: &mut S,
    other: &mut S,
) -> (Result<(), ToolFault>, Result<(), ToolFault>)
    requires { S.state one.old ≡ S.state other.old }
    ensures agree { OfStatements graph.now (λ entries. AgreeBut IsCut result.0 result.1) }
    ensures sinks { OfStatements graph.now (λ entries. UnlessCut result.0 (UnlessCut result.1
        (SameSinks (S.state one.old) (S.state one.new) (S.state other.new)))) }
{
    (
        nj_tools::write_compdb(alloc, graph, directory, rules, expand, one),
        nj_tools::write_compdb(alloc, graph, directory, rules, expand, other),
    )
}

/// For a graph of statements. Free: whether memory lacks; where a sink fails; what a sink reports
/// if it reported nothing before.
pub fn write_edge_objects<S: Sink>(
    alloc: Global,
    graph: &Graph,
    discoveries: &[EdgeDiscovery],
    one: &mut S,
    other: &mut S,
) -> (Result<(), ToolFault>, Result<(), ToolFault>)
    requires { S.state one.old ≡ S.state other.old }
    ensures agree { OfStatements graph.now (λ entries. AgreeBut IsCut result.0 result.1) }
    ensures sinks { OfStatements graph.now (λ entries. UnlessCut result.0 (UnlessCut result.1
        (SameSinks (S.state one.old) (S.state one.new) (S.state other.new)))) }
{
    (
        nj_tools::write_edge_objects(alloc, graph, discoveries, one),
        nj_tools::write_edge_objects(alloc, graph, discoveries, other),
    )
}

/// Free: whether memory lacks; where a sink fails; what a sink reports if it reported nothing
/// before.
pub fn write_inputs<S: Sink>(
    alloc: Global,
    graph: &Graph,
    targets: &[FileNo],
    style: InputsStyle,
    one: &mut S,
    other: &mut S,
) -> (Result<(), ToolFault>, Result<(), ToolFault>)
    requires known { All (λ file. file.0 < length (files_of graph.now)) targets.now }
    requires sink { S.state one.old ≡ S.state other.old }
    ensures agree { AgreeBut IsCut result.0 result.1 }
    ensures sinks { UnlessCut result.0 (UnlessCut result.1
        (SameSinks (S.state one.old) (S.state one.new) (S.state other.new))) }
{
    (
        nj_tools::write_inputs(alloc, graph, targets, style, one),
        nj_tools::write_inputs(alloc, graph, targets, style, other),
    )
}

/// For a graph of statements. Free: whether memory lacks; where a sink fails; what a sink reports
/// if it reported nothing before.
pub fn write_query<S: Sink>(
    alloc: Global,
    graph: &Graph,
    files: &[FileNo],
    one: &mut S,
    other: &mut S,
) -> (Result<(), ToolFault>, Result<(), ToolFault>)
    requires known { All (λ file. file.0 < length (files_of graph.now)) files.now }
    requires sink { S.state one.old ≡ S.state other.old }
    ensures agree { OfStatements graph.now (λ entries. AgreeBut IsCut result.0 result.1) }
    ensures sinks { OfStatements graph.now (λ entries. UnlessCut result.0 (UnlessCut result.1
        (SameSinks (S.state one.old) (S.state one.new) (S.state other.new)))) }
{
    (
        nj_tools::write_query(alloc, graph, files, one),
        nj_tools::write_query(alloc, graph, files, other),
    )
}

/// For a graph of statements. Free: whether memory lacks; where a sink fails; what a sink reports
/// if it reported nothing before.
pub fn write_rules<S: Sink>(
    alloc: Global,
    graph: &Graph,
    descriptions: bool,
    one: &mut S,
    other: &mut S,
) -> (Result<(), ToolFault>, Result<(), ToolFault>)
    requires { S.state one.old ≡ S.state other.old }
    ensures agree { OfStatements graph.now (λ entries. AgreeBut IsCut result.0 result.1) }
    ensures sinks { OfStatements graph.now (λ entries. UnlessCut result.0 (UnlessCut result.1
        (SameSinks (S.state one.old) (S.state one.new) (S.state other.new)))) }
{
    (
        nj_tools::write_rules(alloc, graph, descriptions, one),
        nj_tools::write_rules(alloc, graph, descriptions, other),
    )
}

/// For a graph of statements. Free: whether memory lacks; where a sink fails; what a sink reports
/// if it reported nothing before.
pub fn write_targets<S: Sink>(
    alloc: Global,
    graph: &Graph,
    view: &TargetsView,
    one: &mut S,
    other: &mut S,
) -> (Result<(), ToolFault>, Result<(), ToolFault>)
    requires { S.state one.old ≡ S.state other.old }
    ensures agree { OfStatements graph.now (λ entries. AgreeBut IsCut result.0 result.1) }
    ensures sinks { OfStatements graph.now (λ entries. UnlessCut result.0 (UnlessCut result.1
        (SameSinks (S.state one.old) (S.state one.new) (S.state other.new)))) }
{
    (
        nj_tools::write_targets(alloc, graph, view, one),
        nj_tools::write_targets(alloc, graph, view, other),
    )
}

/// Free: where a sink fails; what a sink reports if it reported nothing before.
pub fn write_whole<S: Sink>(
    one: &mut S,
    other: &mut S,
    text: &[u8],
) -> (Result<(), SinkFault>, Result<(), SinkFault>)
    requires { S.state one.old ≡ S.state other.old }
    ensures { OnOk result.0 (OnOk result.1
        (SameSinks (S.state one.old) (S.state one.new) (S.state other.new))) }
{
    (
        nj_tools::write_whole(one, text),
        nj_tools::write_whole(other, text),
    )
}
