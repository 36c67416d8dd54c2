//! The files of an edge.

ghost use Rattle.std.specs.Prelude.{◌≡◌, ◌<◌, length};
ghost use Rattle.nj_graph.specs.Cited.{edge_of, edges_of, files_in, inputs_of, outputs_of, paths_of};

use crate::graph::Graph;
use crate::handle_lists::Files;
use crate::handles::Edge;
use nj_edges::EdgeNo;

impl<'g> Edge<'g> {
    /// The graph.
    pub fn graph(self) -> &'g Graph
        ensures { result.now ≡ (edge_of self.entry).graph }
    {
        self.graph
    }

    /// Its number, for calls that take numbers. Edges are numbered in reading order.
    pub fn number(self) -> EdgeNo
        ensures number { result.0 ≡ (edge_of self.entry).number }
        ensures known { result.0 < length (edges_of (edge_of self.entry).graph) }
    {
        self.number
    }

    /// Whether its rule is `phony`, and it therefore has no command ("The `phony` rule" in the
    /// Ninja manual).
    pub fn is_phony(self) -> bool
        ensures { result ≡ (paths_of (edge_of self.entry)).is_phony }
    {
        self.graph.is_phony(self.number)
    }

    /// Its outputs, explicit before implicit.
    pub fn outputs(self) -> Files<'g>
        ensures { result ≡ files_in (edge_of self.entry).graph
            (outputs_of (paths_of (edge_of self.entry))) }
    {
        Files::new(self.graph, self.graph.outputs(self.number))
    }

    /// Its explicit outputs.
    pub fn explicit_outputs(self) -> Files<'g>
        ensures { result ≡ files_in (edge_of self.entry).graph
            (paths_of (edge_of self.entry)).explicit_outputs }
    {
        Files::new(self.graph, self.graph.explicit_output_files(self.number))
    }

    /// Its implicit outputs.
    pub fn implicit_outputs(self) -> Files<'g>
        ensures { result ≡ files_in (edge_of self.entry).graph
            (paths_of (edge_of self.entry)).implicit_outputs }
    {
        Files::new(self.graph, self.graph.implicit_output_files(self.number))
    }

    /// Its inputs: explicit, then implicit, then order-only.
    pub fn inputs(self) -> Files<'g>
        ensures { result ≡ files_in (edge_of self.entry).graph
            (inputs_of (paths_of (edge_of self.entry))) }
    {
        Files::new(self.graph, self.graph.inputs(self.number))
    }

    /// Its explicit inputs.
    pub fn explicit_inputs(self) -> Files<'g>
        ensures { result ≡ files_in (edge_of self.entry).graph
            (paths_of (edge_of self.entry)).explicit_inputs }
    {
        Files::new(self.graph, self.graph.explicit_input_files(self.number))
    }

    /// Its implicit inputs.
    pub fn implicit_inputs(self) -> Files<'g>
        ensures { result ≡ files_in (edge_of self.entry).graph
            (paths_of (edge_of self.entry)).implicit_inputs }
    {
        Files::new(self.graph, self.graph.implicit_input_files(self.number))
    }

    /// Its order-only inputs.
    pub fn order_only_inputs(self) -> Files<'g>
        ensures { result ≡ files_in (edge_of self.entry).graph
            (paths_of (edge_of self.entry)).order_only_inputs }
    {
        Files::new(self.graph, self.graph.order_only_input_files(self.number))
    }

    /// Its validations ("Validations" in the Ninja manual).
    pub fn validations(self) -> Files<'g>
        ensures { result ≡ files_in (edge_of self.entry).graph
            (paths_of (edge_of self.entry)).validations }
    {
        Files::new(self.graph, self.graph.validations(self.number))
    }
}
