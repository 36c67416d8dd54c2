//! What builds discovered for the edges of a graph.

ghost use Rattle.std.specs.Prelude.{◌≡◌, IfOk, length};
ghost use Rattle.nj_graph.specs.Cited.{OfStatements, IsLater, edges_of, AreDiscovered};

use crate::graph::Graph;
use crate::handles::Edge;
use nj_deps::DepsLog;
use nj_discovered::{Discoveries, FileTimes, Finder};
use nj_edges::{EdgeGraph, EdgeNo};
use nj_scope::FileSource;
use std::alloc::{AllocError, Global};

impl Graph {
    /// What builds discovered for each edge, as Ninja loads it before a build ("Deps" and "C/C++
    /// header dependencies" in the Ninja manual): by the log for an edge whose value of `deps` is
    /// not empty, else by its depfile, if it has one. Each of those depfiles is read, and where the
    /// log has a record for the first output of an edge, the time of that output is queried.
    ///
    /// Call it before [`Graph::join_discovered`], which adds the discovered inputs to the edges.
    ///
    /// # Errors
    ///
    /// If an allocation failed. A fault of a depfile is a verdict about its edge.
    pub fn discover<S: FileSource, T: FileTimes>(
        &self,
        alloc: Global,
        log: &DepsLog,
        files: &mut S,
        times: &T,
    ) -> Result<Discoveries, AllocError>
        ensures later { IsLater (S.state files.old) (S.state files.new) }
        ensures count { IfOk result (λ found.
            length found.edges ≡ length (edges_of self.now)) }
        ensures discovered { OfStatements self.now (λ entries.
            IfOk result (AreDiscovered (S.state files.old) (S.state files.new)
            (T.times times.now) log.now entries)) }
    {
        let graph: &EdgeGraph = self;
        let mut finder = Finder::new(alloc, files.hash_keys(), graph, log)?;
        let mut deps = Vec::new(alloc);
        let mut depfile = Vec::new(alloc);
        'edges: for number in 0..graph.edge_count() {
            let edge = Edge {
                graph: self,
                number: EdgeNo(number),
            };
            deps.clear();
            edge.append_variable(&mut deps, b"deps")?;
            depfile.clear();
            edge.append_variable(&mut depfile, b"depfile")?;
            finder = finder.with_edge(alloc, files, times, edge.number, &deps, &depfile)?;
        }
        Ok(finder.finish())
    }
}
