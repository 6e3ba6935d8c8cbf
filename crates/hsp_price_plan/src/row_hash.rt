// The hash by which the groups of rows are found.

ghost use Rattle.std.specs.Prelude.{◌≡◌};

use hsp_instance::Arc;
use std::hash::{BuildHasher, DefaultHasher, FoldHasher, Hasher};

/// A number of the servers of a row's arcs, in their order.
pub(crate) fn servers_number(arcs: &[Arc]) -> u64 {
    let mut number = 0u64;
    for arc in arcs {
        number = number
            .wrapping_mul(0x9e37_79b9_7f4a_7c15)
            .wrapping_add(u64::from(arc.server).wrapping_add(1));
    }
    number
}

/// A hash with a key that all rows decide. Whoever chooses rows whose hashes are the same changes the key.
#[derive(Clone, Copy, Drop)]
pub struct RowHash {
    key: u64,
}

impl RowHash {
    /// The hash by a key.
    pub(crate) fn by(key: u64) -> RowHash
        ensures { result.key ≡ key }
    {
        RowHash { key }
    }
}

impl BuildHasher for RowHash {
    ghost use Rattle.std.specs.Prelude.{fold};
    ghost use Rattle.std.specs.Hash as fed;
    ghost use Rattle.std.specs.Hash.FoldHasher as folding;

    type Hasher = FoldHasher;

    ghost build_hasher = { λ s. fold folding.write folding.initial (fed.u64 s.key) };

    fn build_hasher(&self) -> FoldHasher {
        let mut hasher = FoldHasher::default();
        hasher.write_u64(self.key);
        hasher
    }
}
