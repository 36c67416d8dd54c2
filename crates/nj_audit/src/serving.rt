//! Which edges commands depend on.

ghost use Rattle.std.specs.Prelude.{◌≡◌, ◌↔◌, ℕ, Contains, IfOk, OnOk};
ghost use Rattle.nj_audit.specs.Cited.{AreFound, FindsMore, edge_of, edges_of, inputs_of, paths_of, HasCommand, MakesOneOf, ServesCommand};

use nj_graph::{Edge, Graph};
use nj_names::NumberSet;
use std::alloc::{AllocError, Global};

/// The edges found so far, without duplicates.
#[derive(Drop)]
struct Found<'g> {
    /// By number.
    set: NumberSet,
    /// In the same order.
    edges: Vec<Edge<'g>>,
}

/// Returns the edges that have a command, and the edges that they need through any chain of inputs.
pub fn serving_edges(alloc: Global, graph: &Graph) -> Result<NumberSet, AllocError>
    ensures { IfOk result (λ found. (edge : ℕ)
        → Contains found.numbers edge ↔ ServesCommand (edges_of graph.now) edge) }
{
    let mut found = Found {
        set: NumberSet::none_below(alloc, graph.edge_count())?,
        edges: Vec::new(alloc),
    };
    add_commands(&mut found, graph)?;
    let mut place = 0;
    'edges: while place < found.set.numbers().len() {
        let edge = found.edges[place];
        add_makers(&mut found, edge)?;
        place += 1;
    }
    Ok(found.set)
}

/// Adds the edges of a graph that have a command.
fn add_commands<'g>(found: &mut Found<'g>, graph: &'g Graph) -> Result<(), AllocError>
    requires { AreFound graph.now found.old }
    ensures are { OnOk result (AreFound graph.entry.now found.new) }
    ensures more { OnOk result (FindsMore (HasCommand (edges_of graph.entry.now))
        found.old.set found.new.set) }
{
    'edges: for edge in graph.edges() {
        if !edge.is_phony() {
            add(found, edge)?;
        }
    }
    Ok(())
}

/// Adds the edges that make the inputs of an edge.
fn add_makers<'g>(found: &mut Found<'g>, edge: Edge<'g>) -> Result<(), AllocError>
    requires { AreFound (edge_of edge).graph found.old }
    ensures are { OnOk result (AreFound (edge_of edge.entry).graph found.new) }
    ensures more { OnOk result (FindsMore (MakesOneOf (edges_of (edge_of edge.entry).graph)
        (inputs_of (paths_of (edge_of edge.entry)))) found.old.set found.new.set) }
{
    'inputs: for input in edge.inputs() {
        if let Some(maker) = input.maker() {
            add(found, maker)?;
        }
    }
    Ok(())
}

/// Adds an edge.
fn add<'g>(found: &mut Found<'g>, edge: Edge<'g>) -> Result<(), AllocError>
    requires { AreFound (edge_of edge).graph found.old }
    ensures are { OnOk result (AreFound (edge_of edge.entry).graph found.new) }
    ensures more { OnOk result (FindsMore (λ e. e ≡ (edge_of edge.entry).number)
        found.old.set found.new.set) }
{
    if found.set.insert(edge.number().0)? {
        found.edges.push(edge)?;
    }
    Ok(())
}
