// Pairs of names with their numbers, by the order of their octets.

ghost use Rattle.std.specs.Prelude.{◌≡◌, ◌≢◌, OnErr, OnOk, Some};
ghost use Rattle.hsp_pair_map.specs.Pairs.{Pair};
ghost use Rattle.hsp_pair_map.specs.Ordered.{number_in};

use std::alloc::{AllocError, Global};
use std::collections::BTreeMap;

/// The number of each pair, by its first name and then by its second.
pub(crate) type OrderedPairs = BTreeMap<Vec<u8>, BTreeMap<Vec<u8>, u32>>;

/// The number of a pair, or None where it has none.
pub(crate) fn find_ordered(pairs: &OrderedPairs, first: &[u8], second: &[u8]) -> Option<u32>
    ensures { result
        ≡ number_in pairs.now.entries (record { first = first.now; second = second.now }) }
{
    match pairs.get(first) {
        Some(seconds) => seconds.get(second).copied(),
        None => None,
    }
}

/// Gives a pair a number.
pub(crate) fn insert_ordered(
    alloc: Global,
    pairs: &mut OrderedPairs,
    first: &[u8],
    second: &[u8],
    number: u32,
) -> Result<(), AllocError>
    ensures own { OnOk result (number_in pairs.new.entries
        (record { first = first.now; second = second.now }) ≡ Some number) }
    ensures others { OnOk result ((p : Pair)
        → p ≢ record { first = first.now; second = second.now }
        → number_in pairs.new.entries p ≡ number_in pairs.old.entries p) }
    ensures kept { OnErr result
        ((p : Pair) → number_in pairs.new.entries p ≡ number_in pairs.old.entries p) }
{
    let name = Vec::from_slice(alloc, second)?;
    if let Some(seconds) = pairs.get_mut(first) {
        seconds.insert(name, number)?;
        return Ok(());
    }
    let mut seconds = BTreeMap::new(alloc);
    seconds.insert(name, number)?;
    pairs.insert(Vec::from_slice(alloc, first)?, seconds)?;
    Ok(())
}
