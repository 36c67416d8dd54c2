//! Edges with the command of an earlier edge.

ghost use Rattle.std.specs.Prelude.{◌≡◌, ◌++◌, ℕ, List, OnOk};
ghost use Rattle.nj_audit.specs.Cited.{OfEdge, OfStatements, ReadStatement, is_among, IsGraphOf, edge_of, commands_at, repeated_among, repeated_commands};

use crate::findings::Findings;
use crate::kinds::Kind;
use crate::names::Names;
use crate::outputs::first_output;
use nj_graph::{Edge, Graph};
use std::alloc::{AllocError, Global};

/// Appends the edges that have the command of an earlier edge. Phony edges have no command.
pub fn find_repeated_commands<'a>(
    alloc: Global,
    graph: &'a Graph,
    found: &mut Findings<'a>,
) -> Result<(), AllocError>
    ensures { OfStatements graph.entry.now (λ entries.
        OnOk result (found.new ≡ found.old ++ repeated_commands graph.entry.now entries)) }
{
    let mut commands = Names::new(alloc);
    'edges: for edge in graph.edges() {
        push_if_repeated(alloc, edge, &mut commands, found)?;
    }
    Ok(())
}

/// Appends an edge if the given commands include its command; otherwise adds the command to them.
fn push_if_repeated<'a>(
    alloc: Global,
    edge: Edge<'a>,
    commands: &mut Names,
    found: &mut Findings<'a>,
) -> Result<(), AllocError>
    ensures found { OfEdge (edge_of edge.entry) (λ entries number. OnOk result (found.new
        ≡ found.old ++ repeated_among (edge_of edge.entry) entries commands.old)) }
    ensures added { (entries : List ReadStatement) (command : List ℕ)
        → IsGraphOf (edge_of edge.entry).graph entries
        → OnOk result (is_among commands.new command ≡ is_among (commands.old
        ++ commands_at (edge_of edge.entry).graph entries (edge_of edge.entry).number) command) }
{
    if edge.is_phony() {
        return Ok(());
    }
    let command = edge.command(alloc)?;
    if !commands.add(&command)? {
        found.push_at(edge, Kind::RepeatedCommand, first_output(edge))?;
    }
    Ok(())
}
