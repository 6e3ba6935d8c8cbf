// Keys of a region and numbers.

ghost use Rattle.std.specs.Prelude.{◌≡◌, IfOk};

use indexmap::Equivalent;
use std::alloc::{AllocError, Global};
use std::hash::Hash;

/// A region and numbers, as what the rows of a class share: their region, and the servers to which they go.
#[derive(PartialEq, Eq, Hash, Drop)]
pub struct KindKey {
    region: Vec<u8>,
    places: Vec<u32>,
}

impl KindKey {
    ghost use Rattle.hsp_price_check.specs.KindKeys.{key_in};

    /// The key of these octets and places.
    ///
    /// # Errors
    ///
    /// An `AllocError` where memory runs out.
    pub fn new(alloc: Global, region: &[u8], places: &[u32]) -> Result<KindKey, AllocError>
        ensures { IfOk result
            (λ key. key_in key ≡ record { region = region.now; places = places.now }) }
    {
        Ok(KindKey {
            region: Vec::from_slice(alloc, region)?,
            places: Vec::from_slice(alloc, places)?,
        })
    }
}

/// The same, lent.
#[derive(Clone, Copy, PartialEq, Eq, Hash)]
pub struct LentKind<'a> {
    pub region: &'a [u8],
    pub places: &'a [u32],
}

impl Equivalent<KindKey> for LentKind<'_> {
    ghost use Rattle.std.specs.Prelude.{◌≡◌, ◌&&◌};
    ghost use Rattle.std.specs.Str.{bytes_eq};

    ghost equivalent = { λ q k.
        bytes_eq q.region.now k.region.items && bytes_eq q.places.now k.places.items };

    ghost use Rattle.hsp_tables.specs.LentKeys.{compared_alike};
    ghost use Rattle.hsp_price_check.specs.LentKinds.{hashed_alike};

    ghost respects_hash = { λ q k h.
        hashed_alike q.region.now k.region.items q.places.now k.places.items h };

    ghost respects_eq = { λ q x y h. compared_alike q.region.now x.region.items q.places.now
        x.places.items y.region.items y.places.items h };

    fn equivalent(&self, key: &KindKey) -> bool {
        self.region == key.region.as_slice() && self.places == key.places.as_slice()
    }
}
