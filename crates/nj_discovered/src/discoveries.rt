//! What was discovered for the edges of a graph.

ghost use Rattle.std.specs.Prelude.{◌≡◌, ◌<◌, [], length, slice_get, Some, All};
ghost use Rattle.nj_discovered.specs.Cited.{found_at, AllByRecursion};

use crate::verdict::Verdict;
use nj_names::{HashKeys, Names};
use std::alloc::{AllocError, Global};
use std::marker::Model;

/// What was discovered for the edges of a graph, by their numbers.
#[derive(Drop)]
pub struct Discoveries {
    pub(crate) names: Names,
    // of all edges, by the numbers of names
    pub(crate) inputs: Vec<u32>,
    pub(crate) edges: Vec<FoundEdge>,
}

impl Model for Discoveries {
    ghost use Rattle.nj_discovered.specs.Discoveries.{DiscoveriesModel};
    ghost use Rattle.nj_discovered.specs.Inside.Finding.{AreHeld, found_held};

    ghost Value = { DiscoveriesModel };

    ghost view = { λ d. found_held d.names d.inputs.items d.edges.items };

    ghost invariant = { λ d. AreHeld d.names d.inputs.items d.edges.items };
}

// An edge, and where its inputs are.
#[derive(Drop)]
pub(crate) struct FoundEdge {
    pub(crate) verdict: Verdict,
    pub(crate) start: usize,
    pub(crate) end: usize,
}

impl Discoveries {
    /// How many edges there are.
    pub fn edge_count(&self) -> usize
        ensures { result ≡ length self.now.edges }
    {
        self.edges.as_slice().len()
    }

    /// Whether the discovered inputs of the edge with the given number are known.
    pub fn verdict(&self, edge: usize) -> &Verdict
        requires { edge < length self.now.edges }
        ensures { result.now ≡ (found_at self.now edge).verdict }
    {
        &self.edges[edge].verdict
    }

    /// The discovered inputs of the edge with the given number, by the numbers of their paths;
    /// empty if they are not known.
    pub fn inputs(&self, edge: usize) -> &[u32]
        requires { edge < length self.now.edges }
        ensures inputs { result.now ≡ (found_at self.now edge).inputs }
        ensures known { AllByRecursion (λ number. number < length self.now.names) result.now }
    {
        let found = &self.edges[edge];
        &self.inputs.as_slice()[found.start..found.end]
    }

    /// How many clean paths there are. Some may not have been discovered for any edge.
    pub fn path_count(&self) -> usize
        ensures { result ≡ length self.now.names }
    {
        self.names.count()
    }

    /// The clean path with this number.
    pub fn path(&self, number: usize) -> &[u8]
        requires { number < length self.now.names }
        ensures { slice_get self.now.names number ≡ Some result.now }
    {
        self.names.name(number)
    }
}
