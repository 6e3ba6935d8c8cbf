// Keys by which rows are found, and the regions that were seen.

ghost use Rattle.std.specs.Prelude.{◌≡◌, ◌++◌, [], length, OnOk, IfOk};
ghost use Rattle.std.specs.Cmp.Rules.{comparing, hashing};
ghost use Rattle.std.specs.Hash as fed;
ghost use Rattle.std.specs.List.{list_any};
ghost use Rattle.std.specs.Str.{bytes_eq};
ghost use Rattle.std.proofs.Common.{rules};
ghost use Rattle.indexmap.specs.IndexSet.{insert_key};
ghost use Rattle.hsp_tables.specs.KeyedRows.{names_in};

use indexmap::{Equivalent, IndexSet};
use std::alloc::{AllocError, Global};
use std::hash::{Hash, Hasher};
use std::marker::Model;

// The two names by which a row is found. Their octets lie one after the other, so that a lookup reads one place.
#[derive(Drop)]
pub(crate) struct PairKey {
    octets: Vec<u8>,
    cut: usize,
}

impl Model for PairKey {
    ghost use Rattle.std.specs.Prelude.{◌≤◌, length};
    ghost use Rattle.hsp_tables.specs.Keyed.{PairName, names_cut};

    ghost Value = { PairName };

    ghost view = { λ k. names_cut k.cut k.octets.items };

    ghost invariant = { λ k. k.cut ≤ length k.octets.items };
}

impl PairKey {
    pub(crate) fn new(alloc: Global, first: &[u8], second: &[u8]) -> Result<PairKey, AllocError>
        ensures { IfOk result (λ key. key ≡ record { first = first.now; second = second.now }) }
    {
        let cut = first.len();
        let mut octets = Vec::with_capacity(alloc, cut.saturating_add(second.len()))?;
        octets.extend_from_slice(first)?;
        octets.extend_from_slice(second)?;
        Ok(PairKey { octets, cut })
    }

    pub(crate) fn first(&self) -> &[u8]
        ensures { result.now ≡ self.now.first }
    {
        &self.octets[..self.cut]
    }

    pub(crate) fn second(&self) -> &[u8]
        ensures { result.now ≡ self.now.second }
    {
        &self.octets[self.cut..]
    }
}

impl PartialEq for PairKey {
    ghost use Rattle.std.specs.Prelude.{◌&&◌};

    ghost eq = { λ a b. bytes_eq a.first b.first && bytes_eq a.second b.second };

    ghost laws = { Prim.search (comparing, rules) };

    fn eq(&self, other: &PairKey) -> bool {
        self.first() == other.first() && self.second() == other.second()
    }
}

impl Eq for PairKey {
    ghost laws = { Prim.search (comparing, rules) };
}

impl Hash for PairKey {
    ghost hash_input = { λ k. fed.slice fed.u8 k.first ++ fed.slice fed.u8 k.second };

    ghost respects_eq = { Prim.search (hashing, rules) };

    fn hash<H: Hasher>(&self, state: &mut H) {
        self.first().hash(state);
        self.second().hash(state);
    }
}

// The same, lent.
#[derive(Clone, Copy, PartialEq, Eq, Hash)]
pub(crate) struct LentPair<'a> {
    pub(crate) first: &'a [u8],
    pub(crate) second: &'a [u8],
}

impl Equivalent<PairKey> for LentPair<'_> {
    ghost use Rattle.std.specs.Prelude.{◌≡◌, ◌&&◌};
    ghost use Rattle.std.specs.Str.{bytes_eq};

    ghost equivalent = { λ q k. bytes_eq q.first.now k.first && bytes_eq q.second.now k.second };

    ghost use Rattle.hsp_tables.specs.LentKeys.{hashed_alike, compared_alike};

    ghost respects_hash = { λ q k h. hashed_alike q.first.now k.first q.second.now k.second h };

    ghost respects_eq = { λ q x y h.
        compared_alike q.first.now x.first q.second.now x.second y.first y.second h };

    fn equivalent(&self, key: &PairKey) -> bool {
        self.first == key.first() && self.second == key.second()
    }
}

// The site and the identifier by which a server is found.
#[derive(PartialEq, Eq, Hash, Drop)]
pub(crate) struct ServerKey {
    pub(crate) site: Vec<u8>,
    pub(crate) server_id: u32,
}

// The same, lent.
#[derive(Clone, Copy, PartialEq, Eq, Hash)]
pub(crate) struct LentServer<'a> {
    pub(crate) site: &'a [u8],
    pub(crate) server_id: u32,
}

impl Equivalent<ServerKey> for LentServer<'_> {
    ghost use Rattle.std.specs.Prelude.{◌≡◌, ◌&&◌, ◌==◌};
    ghost use Rattle.std.specs.Str.{bytes_eq};

    ghost equivalent = { λ q k. bytes_eq q.site.now k.site.items && (k.server_id == q.server_id) };

    ghost use Rattle.hsp_tables.specs.LentKeys.{server_hashed_alike, server_compared_alike};

    ghost respects_hash = { λ q k h.
        server_hashed_alike q.site.now k.site.items q.server_id k.server_id h };

    ghost respects_eq = { λ q x y h. server_compared_alike q.site.now x.site.items q.server_id
        x.server_id y.site.items y.server_id h };

    fn equivalent(&self, key: &ServerKey) -> bool {
        self.site == key.site.as_slice() && key.server_id == self.server_id
    }
}

/// The regions that were seen, in first-seen order.
#[derive(Drop)]
pub struct Regions {
    names: IndexSet<Vec<u8>>,
}

impl Model for Regions {
    ghost use Rattle.std.specs.Prelude.{List, ℕ};
    ghost use Rattle.hsp_tables.specs.KeyedRows.{names_in};

    ghost Value = { List (List ℕ) };

    ghost view = { λ t. names_in t.names.keys };
}

// Adds a name to those that were seen.
fn insert_name(alloc: Global, names: &mut IndexSet<Vec<u8>>, name: &[u8]) -> Result<(), AllocError>
    ensures { OnOk result (
        names_in names.new.keys ≡ insert_key bytes_eq (names_in names.old.keys) name.now) }
{
    if !names.contains(name) {
        names.insert(Vec::from_slice(alloc, name)?)?;
    }
    Ok(())
}

impl Regions {
    /// No regions.
    pub fn new(alloc: Global) -> Regions
        ensures { result ≡ [] }
    {
        Regions {
            names: IndexSet::new(alloc),
        }
    }

    /// How many regions were seen.
    pub fn len(&self) -> usize
        ensures { result ≡ length self.now }
    {
        self.names.len()
    }

    /// Whether a region was seen.
    pub fn has(&self, region: &[u8]) -> bool
        ensures { result ≡ list_any (bytes_eq region.now) self.now }
    {
        self.names.contains(region)
    }

    /// Adds a region to those that were seen.
    ///
    /// # Errors
    ///
    /// An `AllocError` where memory runs out.
    pub fn see(&mut self, alloc: Global, region: &[u8]) -> Result<(), AllocError>
        ensures { OnOk result (self.new ≡ insert_key bytes_eq self.old region.now) }
    {
        insert_name(alloc, &mut self.names, region)
    }
}
