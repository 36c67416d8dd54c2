//! The inputs of edges, and which edges make them.
ghost use Rattle.std.specs.Prelude.{◌≡◌, ℕ, ◌+◌, ◌<◌, ◌^◌, List, Option, IfSome, slice_get};

/// The inputs of the edges of a build graph, and the edges that make them. Edges are numbered from
/// 0. All kinds of inputs count alike; validations are not inputs.
pub trait EdgeInputs {
    ghost use Rattle.nj_cycles.specs.Cycles.{AreEdges};

    // For each edge the makers of its inputs, in their order; a source has no maker.
    ghost makers: { Self → ℕ → List (Option ℕ) };

    // How many edges there are.
    ghost count: { Self → ℕ };

    /// The number of edges. No other edge has inputs or makes any.
    fn edge_count(&self) -> usize
        ensures count { result ≡ count self.now }
        ensures known { AreEdges (makers self.now) (count self.now) };

    /// The maker of the input at an index of an edge's inputs: `None` past the last input, and
    /// `Some(None)` at a source.
    fn maker_at(&self, edge: usize, index: usize) -> Option<Option<usize>>
        requires { edge < count self.now }
        ensures maker { result ≡ slice_get (makers self.now edge) index }
        ensures fits { IfSome result (λ _. index + 1 < 2 ^ 64) };
}
