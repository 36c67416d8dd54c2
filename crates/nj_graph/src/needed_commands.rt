//! The edges whose commands files need, in their order.

ghost use Rattle.std.specs.Prelude.{◌≡◌, IfOk};
ghost use Rattle.nj_graph.specs.Cited.{YieldsFirstBy, item_count, commands_needed, edge_of};

use crate::file_lists::FileList;
use crate::graph::Graph;
use crate::handles::Edge;
use nj_needs::Needs;
use std::alloc::{AllocError, Global};
use std::marker::Model;

/// The remaining edges with commands that files need, each after all that it needs itself, in the
/// order in which they are first completed from left to right: the value of
/// [`FileList::needed_commands`].
#[derive(Drop)]
pub struct NeededCommands<'g> {
    graph: &'g Graph,
    needs: Needs<'g>,
}

impl<'g> Model for NeededCommands<'g> {
    ghost use Rattle.std.specs.Prelude.{◌≡◌, List};
    ghost use Rattle.nj_graph.specs.Handles.{GraphEdge, edges_in};

    ghost Value = { List GraphEdge };

    ghost view = { λ n. edges_in n.graph.now n.needs.left };

    ghost invariant = { λ n. n.needs.graph ≡ n.graph.now.built.graph };
}

impl<'g> Iterator for NeededCommands<'g> {
    type Item = Edge<'g>;

    ghost next_gives = { YieldsFirstBy edge_of (λ left. left) };

    ghost remaining = { item_count (λ left. left) };

    fn next(&mut self) -> Option<Edge<'g>> {
        let graph = self.graph;
        match self.needs.next() {
            Some(number) => Some(Edge { graph, number }),
            None => None,
        }
    }
}

impl<'g> FileList<'g> {
    /// The edges with commands that the files need ([`Needs`]). This call reserves all the memory
    /// of the walk, and fails only if an allocation fails.
    pub fn needed_commands(&self, alloc: Global) -> Result<NeededCommands<'_>, AllocError>
        ensures { IfOk result (λ commands. commands ≡ commands_needed self.now) }
    {
        let needs = Needs::new(alloc, self.graph, &self.numbers)?;
        Ok(NeededCommands {
            graph: self.graph,
            needs,
        })
    }
}
