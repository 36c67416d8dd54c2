//! The files of an edge by their kinds.

ghost use Rattle.std.specs.Prelude.{◌<◌, length, All};
ghost use Rattle.nj_edges.specs.Cited.{edge_at, AreFiles};

use crate::edges::EdgeNo;
use crate::graph::EdgeGraph;
use crate::list_parts::{after, part};
use nj_names::FileNo;

impl EdgeGraph {
    /// The implicit outputs of an edge, which come after its explicit outputs.
    pub fn implicit_output_files(&self, edge: EdgeNo) -> &[FileNo]
        requires { edge.0 < length self.now.edges }
        ensures files { AreFiles self.now.files result.now
            (edge_at self.now.edges edge.0).implicit_outputs }
        ensures known { All (λ file. file.0 < length self.now.files) result.now }
    {
        let files = self.edge_files(edge);
        after(files.outputs, files.kinds.explicit_outputs)
    }

    /// The implicit inputs of an edge, which come after its explicit inputs.
    pub fn implicit_input_files(&self, edge: EdgeNo) -> &[FileNo]
        requires { edge.0 < length self.now.edges }
        ensures files { AreFiles self.now.files result.now
            (edge_at self.now.edges edge.0).implicit_inputs }
        ensures known { All (λ file. file.0 < length self.now.files) result.now }
    {
        let files = self.edge_files(edge);
        let kinds = files.kinds;
        part(files.inputs, kinds.explicit_inputs, kinds.implicit_inputs)
    }

    /// The order-only inputs of an edge, which come after all others.
    pub fn order_only_input_files(&self, edge: EdgeNo) -> &[FileNo]
        requires { edge.0 < length self.now.edges }
        ensures files { AreFiles self.now.files result.now
            (edge_at self.now.edges edge.0).order_only_inputs }
        ensures known { All (λ file. file.0 < length self.now.files) result.now }
    {
        let files = self.edge_files(edge);
        after(files.inputs, files.kinds.implicit_inputs)
    }
}
