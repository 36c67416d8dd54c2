//! The search for what edges discover.

ghost use Rattle.std.specs.Prelude.{◌≡◌, ◌<◌, [], length, IfOk};
ghost use Rattle.nj_discovered.specs.Cited.{edge_at, IsLater, AddsEdge};

use crate::by_depfile::find_by_depfile;
use crate::by_log::{find_by_log, numbers_of_paths};
use crate::discoveries::{Discoveries, FoundEdge};
use crate::times::FileTimes;
use crate::verdict::Verdict;
use nj_deps::DepsLog;
use nj_edges::{EdgeGraph, EdgeNo};
use nj_names::{HashKeys, Names};
use nj_scope::FileSource;
use std::alloc::{AllocError, Global};
use std::marker::Model;

/// What was discovered for the first edges of a graph, and the means to find the same for the next
/// edges.
#[derive(Drop)]
pub struct Finder<'a> {
    graph: &'a EdgeGraph,
    log: &'a DepsLog,
    // of each path of the log, the number of its clean path
    log_numbers: Vec<u32>,
    names: Names,
    inputs: Vec<u32>,
    edges: Vec<FoundEdge>,
}

impl<'a> Model for Finder<'a> {
    ghost use Rattle.nj_discovered.specs.Discoveries.{FinderModel};
    ghost use Rattle.nj_discovered.specs.Inside.Finding.{IsFinderHeld, found_held};

    ghost Value = { FinderModel };

    ghost view = { λ f. record {
      edges = f.graph.now.edges;
      log = f.log.now;
      found = found_held f.names f.inputs.items f.edges.items;
    } };

    ghost invariant = { λ f. IsFinderHeld f.log.now.paths f.log_numbers.items
        f.names f.inputs.items f.edges.items };
}

impl<'a> Finder<'a> {
    /// The search before the first edge of a graph. Names are hashed by the given keys.
    pub fn new(
        alloc: Global,
        keys: HashKeys,
        graph: &'a EdgeGraph,
        log: &'a DepsLog,
    ) -> Result<Finder<'a>, AllocError>
        ensures edges { IfOk result (λ finder. finder.edges ≡ graph.entry.now.edges) }
        ensures log { IfOk result (λ finder. finder.log ≡ log.entry.now) }
        ensures found { IfOk result (λ finder. finder.found.edges ≡ []) }
    {
        let mut names = Names::new(alloc, keys);
        let log_numbers = numbers_of_paths(alloc, &mut names, log)?;
        Ok(Finder {
            graph,
            log,
            log_numbers,
            names,
            inputs: Vec::new(alloc),
            edges: Vec::new(alloc),
        })
    }

    /// Finds what the given edge discovers, by its values of `deps` and `depfile`. The edges come
    /// in the order of their numbers.
    ///
    /// # Errors
    ///
    /// If an allocation failed. A fault of a depfile is a verdict about the edge.
    pub fn with_edge<S: FileSource, T: FileTimes>(
        self,
        alloc: Global,
        files: &mut S,
        times: &T,
        edge: EdgeNo,
        deps: &[u8],
        depfile: &[u8],
    ) -> Result<Finder<'a>, AllocError>
        requires next { edge.0 ≡ length self.found.edges }
        requires edge { edge.0 < length self.edges }
        ensures later { IsLater (S.state files.old) (S.state files.new) }
        ensures edges { IfOk result (λ finder. finder.edges ≡ self.entry.edges) }
        ensures log { IfOk result (λ finder. finder.log ≡ self.entry.log) }
        ensures added { IfOk result (λ finder. AddsEdge (S.state files.old) (S.state files.new)
            (T.times times.now) self.entry.log (edge_at self.entry.edges edge.0)
            deps.now depfile.now self.entry.found finder.found) }
    {
        let Finder {
            graph,
            log,
            log_numbers,
            mut names,
            mut inputs,
            mut edges,
        } = self;
        let start = inputs.as_slice().len();
        let verdict = if !deps.is_empty() {
            find_by_log(&mut inputs, log, &log_numbers, times, graph, edge)?
        } else if depfile.is_empty() {
            Verdict::Known
        } else {
            find_by_depfile(alloc, &mut names, &mut inputs, files, graph, edge, depfile)?
        };
        let end = inputs.as_slice().len();
        edges.push(FoundEdge {
            verdict,
            start,
            end,
        })?;
        Ok(Finder {
            graph,
            log,
            log_numbers,
            names,
            inputs,
            edges,
        })
    }

    /// Returns what was found.
    pub fn finish(self) -> Discoveries
        ensures { result ≡ self.entry.found }
    {
        Discoveries {
            names: self.names,
            inputs: self.inputs,
            edges: self.edges,
        }
    }
}
