// The map: the octets of all names in one run, an entry for each pair, of each bucket the last entry, and in order the
// pairs whose bucket is full.

ghost use Rattle.std.specs.Prelude.{◌≡◌, ◌≢◌, ◌≤◌, ◌<◌, ◌↔◌, ◌+◌, ◌-◌, ◌^◌, ◌++◌, ◌∷◌, [], ℕ};
ghost use Rattle.std.specs.Prelude.{IfErr, IfNone, IfOk, IfSome, OnErr, OnOk, Some, true, length, slice_get};
ghost use Rattle.hsp_pair_map.specs.Hashing.{hash_of, mark_of};
ghost use Rattle.hsp_pair_map.specs.Held.{IsSpan, entry_at, pair_in};
ghost use Rattle.hsp_pair_map.specs.Ordered.{number_in};
ghost use Rattle.hsp_pair_map.specs.Pairs.{Pair};

use crate::hashing::{bucket_of, hash_of, mark_of};
use crate::ordered::{OrderedPairs, find_ordered, insert_ordered};
use std::alloc::{AllocError, Global};
use std::marker::Model;

/// The greatest number of entries of a bucket. Whoever knows the hash can make any number of names for one bucket.
pub(crate) const LONGEST_CHAIN: u16 = 8;

// A pair that was added: where its octets lie, the mark of its hash, how many entries were added to its bucket before,
// and the number behind the last of them, or 0. An entry whose bucket was full has 0 for both.
#[derive(Clone, Copy, Drop)]
pub(crate) struct Entry {
    mark: u16,
    depth: u16,
    before: u32,
    start: u32,
    cut: u32,
    end: u32,
}

/// A map from pairs of names to their numbers. The first pair that is added has the number 0.
///
/// A bucket has at most eight pairs. Further ones stand in the order of their octets. So no choice of names makes a
/// search long.
#[derive(Drop)]
pub struct PairMap {
    octets: Vec<u8>,
    entries: Vec<Entry>,
    lasts: Vec<u32>,
    rest: OrderedPairs,
}

impl Model for PairMap {
    ghost use Rattle.std.specs.Prelude.{List, map};
    ghost use Rattle.hsp_pair_map.specs.Held.{AreHeld, pair_in};
    ghost use Rattle.hsp_pair_map.specs.Pairs.{Pair};

    ghost Value = { List Pair };

    ghost view = { λ m. map (pair_in m.octets.items) m.entries.items };

    ghost invariant = { λ m. AreHeld m.octets.items m.entries.items m.lasts.items
        m.rest.entries };
}

// Whether the pair of an entry is these two names, whose hash has this mark.
#[inline(always)]
fn is_pair(octets: &[u8], entry: Entry, mark: u16, first: &[u8], second: &[u8]) -> bool
    requires span { IsSpan octets.now entry }
    requires held { entry.mark ≡ mark_of (hash_of (pair_in octets.now entry)) }
    requires mark { mark ≡ mark_of (hash_of (record { first = first.now; second = second.now })) }
    ensures { (result ≡ true)
        ↔ (pair_in octets.now entry ≡ record { first = first.now; second = second.now }) }
{
    entry.mark == mark
        && &octets[entry.start as usize..entry.cut as usize] == first
        && &octets[entry.cut as usize..entry.end as usize] == second
}

// How many entries the chain has whose last entry stands before this number.
fn chain_length(entries: &[Entry], last: u32) -> u16
    requires last { last ≤ length entries.now }
    requires short { 0 < last → (entry_at entries.now (last - 1)).depth < LONGEST_CHAIN }
    ensures none { last ≡ 0 → result ≡ 0 }
    ensures some { 0 < last → result ≡ (entry_at entries.now (last - 1)).depth + 1 }
{
    if last == 0 {
        return 0;
    }
    entries[last as usize - 1].depth + 1
}

// Adds an entry that is in no chain, and the number by which its pair is found in order.
fn push_apart(
    entries: &mut Vec<Entry>,
    rest: &mut OrderedPairs,
    entry: Entry,
    first: &[u8],
    second: &[u8],
) -> Result<(), AllocError>
    requires { length entries.old.items + 1 < 2 ^ 32 }
    ensures added { OnOk result (entries.new.items ≡ entries.old.items ++ entry ∷ []) }
    ensures own { OnOk result (number_in rest.new.entries
        (record { first = first.now; second = second.now }) ≡ Some (length entries.old.items)) }
    ensures others { OnOk result ((p : Pair)
        → p ≢ record { first = first.now; second = second.now }
        → number_in rest.new.entries p ≡ number_in rest.old.entries p) }
    ensures same { OnErr result (entries.new.items ≡ entries.old.items) }
    ensures kept { OnErr result
        ((p : Pair) → number_in rest.new.entries p ≡ number_in rest.old.entries p) }
{
    let alloc = *entries.allocator();
    entries.reserve(1)?;
    insert_ordered(alloc, rest, first, second, entries.len() as u32)?;
    entries.push(entry)?;
    Ok(())
}

impl PairMap {
    /// A map of no pairs. It is fast for a quarter as many pairs as it has buckets, of which there is at least one.
    ///
    /// # Errors
    ///
    /// An `AllocError` where memory runs out.
    pub fn new(alloc: Global, buckets: u32) -> Result<PairMap, AllocError>
        requires { 0 < buckets }
        ensures { IfOk result (λ map. map ≡ []) }
    {
        let lasts = vec![in alloc; 0; buckets as usize]?;
        Ok(PairMap {
            octets: Vec::new(alloc),
            entries: Vec::new(alloc),
            lasts,
            rest: OrderedPairs::new(alloc),
        })
    }

    /// How many pairs there are.
    pub fn len(&self) -> u32
        ensures { result ≡ length self.now }
    {
        self.entries.len() as u32
    }

    /// The number of a pair, or None where it was not added. A pair that was added twice has two numbers, and either of
    /// them may be found.
    pub fn find(&self, first: &[u8], second: &[u8]) -> Option<u32>
        ensures found { IfSome result (λ number.
            slice_get self.now number ≡ Some (record { first = first.now; second = second.now })) }
        ensures none { IfNone result ((number : ℕ) →
            slice_get self.now number ≢ Some (record { first = first.now; second = second.now })) }
    {
        let hash = hash_of(first, second);
        let mark = mark_of(hash);
        let bucket = bucket_of(self.lasts.len(), hash);
        let mut number = self.lasts[bucket];
        'chain: while number > 0 {
            let entry = self.entries[number as usize - 1];
            if is_pair(&self.octets, entry, mark, first, second) {
                return Some(number - 1);
            }
            number = entry.before;
        }
        find_ordered(&self.rest, first, second)
    }

    /// Adds a pair, whose number is that of the pairs before it.
    ///
    /// # Errors
    ///
    /// An `AllocError` where memory runs out, or where all names together would have 2^32 octets. Then nothing is
    /// added.
    pub fn push(&mut self, first: &[u8], second: &[u8]) -> Result<(), AllocError>
        requires { length self.old + 1 < 2 ^ 32 }
        ensures added { OnOk result (self.new
            ≡ self.old ++ record { first = first.now; second = second.now } ∷ []) }
        ensures kept { IfErr result (λ _. self.new ≡ self.old) }
    {
        let start = self.octets.len();
        self.octets.extend_from_slice(first)?;
        let cut = self.octets.len();
        self.octets.extend_from_slice(second)?;
        let Ok(end) = u32::try_from(self.octets.len()) else {
            return Err(AllocError);
        };
        let hash = hash_of(first, second);
        let bucket = bucket_of(self.lasts.len(), hash);
        let last = self.lasts[bucket];
        let length = chain_length(&self.entries, last);
        let mut entry = Entry {
            mark: mark_of(hash),
            depth: 0,
            before: 0,
            start: start as u32,
            cut: cut as u32,
            end,
        };
        if length >= LONGEST_CHAIN {
            return push_apart(&mut self.entries, &mut self.rest, entry, first, second);
        }
        entry.depth = length;
        entry.before = last;
        self.entries.push(entry)?;
        self.lasts[bucket] = self.entries.len() as u32;
        Ok(())
    }
}
