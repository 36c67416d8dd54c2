//! The pools that were declared, with their places and depths.

ghost use Rattle.std.specs.Prelude.{◌≡◌, length, slice_get, option_copied, option_map};
ghost use Rattle.nj_graph.specs.Cited.{OfStatements, pools, place_text, pool_details};

use crate::graph::Graph;
use nj_faults::PlaceRef;

impl Graph {
    /// The number of declared pools ("Pools" in the Ninja manual). They do not include `console`,
    /// which always exists and has the depth 1.
    pub fn pool_count(&self) -> usize
        ensures held { result ≡ length self.now.declarations.pools }
        ensures stated { OfStatements self.now (λ entries. result ≡ length (pools entries)) }
    {
        self.declared.declarations.pool_count()
    }

    /// The name of the pool at the given index, in order of declaration; `None` past the last pool.
    pub fn pool_name(&self, index: usize) -> Option<&[u8]>
        ensures held { option_copied result ≡ slice_get self.now.declarations.pools index }
        ensures stated { OfStatements self.now (λ entries.
            option_copied result ≡ slice_get (pools entries) index) }
    {
        self.declared.declarations.pool_name(index)
    }

    /// The place of the `pool` statement that declares the pool at the given index, as for
    /// `pool_name`: its file, by the name under which it was opened, and its first byte there.
    /// `None` past the last pool.
    pub fn pool_place(&self, index: usize) -> Option<PlaceRef<'_>>
        ensures held { option_map place_text result
            ≡ option_map (λ p. p.place) (slice_get self.now.origins.pools index) }
        ensures stated { OfStatements self.now (λ entries. option_map place_text result
            ≡ option_map (λ p. p.place) (slice_get (pool_details entries) index)) }
    {
        self.declared.origins.pool_place(index)
    }

    /// The depth of the pool at the given index, as for `pool_name`: how many commands of its edges
    /// may run at once, by the last `depth` line of its block ("Pools" in the Ninja manual). It is
    /// at most 2147483647, since a greater depth is a fault when it is read; 0 means no limit.
    /// `None` past the last pool.
    pub fn pool_depth(&self, index: usize) -> Option<u64>
        ensures held { result ≡ option_map (λ p. p.depth) (slice_get self.now.origins.pools index) }
        ensures stated { OfStatements self.now (λ entries.
            result ≡ option_map (λ p. p.depth) (slice_get (pool_details entries) index)) }
    {
        self.declared.origins.pool_depth(index)
    }
}
