//! The values of rules' variables when an edge uses them.

ghost use Rattle.std.specs.Prelude.{◌≡◌, ◌<◌, ◌++◌, length, codes, IfOk, OnOk, OnErr};
ghost use Rattle.nj_graph.specs.Cited.{OfEdge, OfStatements, edge_of, edges_of, is_dyndep_restat, late_text_of, command_with_rsp_of};

use crate::graph::Graph;
use crate::handles::Edge;
use crate::response_files::with_content;
use nj_edge_env::LateEdge;
use nj_edges::{EdgeGraph, EdgeNo};
use std::alloc::{AllocError, Global};

impl<'g> Edge<'g> {
    /// Appends the value of a variable for the edge, as its rule is used after all statements
    /// ("Rule variables" in the Ninja manual): the paths of the edge, else the value of its block,
    /// else the value of its rule, else the last value of its file. `restat` is `1` where a dyndep
    /// file that was joined binds it for the edge ("Dynamic Dependencies" in the manual). A loop
    /// over edges can reuse one buffer.
    ///
    /// # Errors
    ///
    /// If an allocation failed; `out` is then unchanged.
    pub fn append_variable(self, out: &mut Vec<u8>, name: &[u8]) -> Result<(), AllocError>
        ensures appended { OfEdge (edge_of self.entry) (λ entries number.
            OnOk result (out.new.items ≡ out.old.items ++ late_text_of entries number name.now)) }
        ensures refused { OnErr result (out.new.items ≡ out.old.items) }
    {
        if self.is_dyndep_restat(name) {
            return out.extend_from_slice(b"1");
        }
        let graph = self.graph;
        let edges: &EdgeGraph = graph;
        let late = LateEdge {
            files: edges.files(),
            inputs: edges.explicit_input_files(self.number),
            outputs: edges.explicit_output_files(self.number),
            blocks: graph.built.blocks(),
            edge: self.number.0,
            rule: self.rule(),
            declarations: &graph.declared.declarations,
            scope: graph.built.scope(self.number),
        };
        late.append_late_text(out, name)
    }

    // Whether the variable is `restat`, and a dyndep file binds it for the edge.
    fn is_dyndep_restat(self, name: &[u8]) -> bool
        ensures { OfEdge (edge_of self.entry) (λ entries number.
            result ≡ is_dyndep_restat entries number name.now) }
    {
        let graph = self.graph;
        name == b"restat".as_slice() && graph.built.has_dyndep_restat(self.number)
    }

    /// Its command, as it is passed to a shell. The command of a phony edge is its block's, else
    /// empty.
    pub fn command(self, alloc: Global) -> Result<Vec<u8>, AllocError>
        ensures { OfEdge (edge_of self.entry) (λ entries number.
            IfOk result (λ text. text.items ≡ late_text_of entries number (codes "command"))) }
    {
        self.variable(alloc, b"command")
    }

    /// Its command with the contents of its response file in place of the name ("Rule variables" in
    /// the Ninja manual): where the first occurrence of the value of `rspfile` has an `@` directly
    /// before it, both are replaced by the value of `rspfile_content`, with a space for each line
    /// feed. A command that does not name its response file in this way stays the same.
    ///
    /// # Errors
    ///
    /// If an allocation failed.
    pub fn command_with_rsp(self, alloc: Global) -> Result<Vec<u8>, AllocError>
        ensures { OfEdge (edge_of self.entry) (λ entries number.
            IfOk result (λ text. text.items ≡ command_with_rsp_of entries number)) }
    {
        let command = self.command(alloc)?;
        let file = self.variable(alloc, b"rspfile")?;
        let content = self.variable(alloc, b"rspfile_content")?;
        with_content(alloc, command, &file, &content)
    }

    /// The value of a variable for the edge, as `append_variable` appends it. Any name is valid; a
    /// name without a binding has the empty value. Paths (`$in`, `$in_newline`, `$out`) are quoted
    /// for a shell, except in `rspfile`, `depfile` and `dyndep`, which name files themselves.
    ///
    /// The pool of an edge and its dyndep file are fixed by the values at its build statement. For
    /// `pool` and `dyndep` this call returns the values after all statements, which may differ.
    ///
    /// # Errors
    ///
    /// If an allocation failed.
    pub fn variable(self, alloc: Global, name: &[u8]) -> Result<Vec<u8>, AllocError>
        ensures { OfEdge (edge_of self.entry) (λ entries number.
            IfOk result (λ text. text.items ≡ late_text_of entries number name.now)) }
    {
        let mut text = Vec::new(alloc);
        self.append_variable(&mut text, name)?;
        Ok(text)
    }
}

impl Graph {
    /// The command of the edge with the given number ([`Edge::command`]).
    pub fn command(&self, alloc: Global, edge: EdgeNo) -> Result<Vec<u8>, AllocError>
        requires { edge.0 < length (edges_of self.now) }
        ensures { OfStatements self.now (λ entries.
            IfOk result (λ text. text.items ≡ late_text_of entries edge.0 (codes "command"))) }
    {
        let edge = Edge {
            graph: self,
            number: edge,
        };
        edge.command(alloc)
    }

    /// The command of the edge with the given number, with the contents of its response file in
    /// place of the name ([`Edge::command_with_rsp`]).
    ///
    /// # Errors
    ///
    /// If an allocation failed.
    pub fn command_with_rsp(&self, alloc: Global, edge: EdgeNo) -> Result<Vec<u8>, AllocError>
        requires { edge.0 < length (edges_of self.now) }
        ensures { OfStatements self.now (λ entries.
            IfOk result (λ text. text.items ≡ command_with_rsp_of entries edge.0)) }
    {
        let edge = Edge {
            graph: self,
            number: edge,
        };
        edge.command_with_rsp(alloc)
    }
}
