//! Keys of hashes.

ghost use Rattle.std.specs.Prelude.{◌≡◌};
ghost use Rattle.nj_names.specs.Cited.{hash_bytes};

use crate::name_hasher::NameHasher;
use std::hash::BuildHasher;
use std::marker::Model;

/// The keys by which the names of a run are hashed. Names are untrusted input, and whoever knows
/// how names are hashed can choose names that all collide, so that each look-up goes through all of
/// them.
///
/// So a number is drawn for each run, and which names collide depends on all of its 64 bits
/// ([`NameHasher`]). An attacker does not know it, and learns nothing about it from a run, whose
/// output depends on no hash.
#[derive(Clone, Copy)]
pub struct HashKeys {
    start: NameHasher,
}

impl Model for HashKeys {
    ghost use Rattle.nj_names.specs.NameHash.{HasherState};

    ghost Value = { HasherState };

    ghost view = { λ keys. keys.start };

    ghost inverse = { λ start. record { start = start } };
}

impl HashKeys {
    /// Keys of a number that was drawn for this run.
    pub fn new(drawn: u64) -> HashKeys {
        HashKeys {
            start: NameHasher::new(drawn),
        }
    }

    /// The hash of the given bytes, for a table that keeps hashes in place of keys. It takes in
    /// sixteen bytes with one multiplication, twice as many as [`NameHasher`].
    ///
    /// A step has two numbers of eight bytes each. One is added to the state, the other to the
    /// factor, and the halves of the product of both sums, joined by xor, are the next state.
    /// Whoever chooses names knows neither the state nor the factor, so only by a guess can a
    /// number make the product 0, which would drop the other number. As in [`NameHasher`], there
    /// are pairs of names that collide for one drawn number in 300 million; no way is known to make
    /// a flood of them. The number of bytes is taken in last, in a step of its own: so `a` and
    /// `\0a`, which are the same number, differ, and bytes that make up for a difference in length
    /// can only be guessed.
    ///
    /// This too is only rationale: the contract states the computation.
    pub fn hash_bytes(&self, bytes: &[u8]) -> u64
        ensures { result ≡ hash_bytes self.now bytes.now }
    {
        self.start.hash_bytes(bytes)
    }
}

impl Default for HashKeys {
    /// Keys that everyone knows, for trusted files, as in tests.
    fn default() -> HashKeys {
        HashKeys::new(0)
    }
}

impl BuildHasher for HashKeys {
    type Hasher = NameHasher;

    ghost build_hasher = { λ keys. keys };

    #[inline(always)]
    fn build_hasher(&self) -> NameHasher {
        self.start
    }
}
