// Maps by a region and numbers, each key with its first number.

ghost use Rattle.std.specs.Prelude.{OnOk};
ghost use Rattle.hsp_price_check.specs.FirstRows.{HasAdded};

use crate::keys::{KindKey, LentKind};
use indexmap::IndexMap;
use std::alloc::{AllocError, Global};

/// Keys, each with the number that it was added with first.
pub type FirstNumbers = IndexMap<KindKey, u32>;

/// Adds a number by a key, where none was added by the key before.
///
/// # Errors
///
/// An `AllocError` where memory runs out.
pub fn add_first(
    alloc: Global,
    firsts: &mut FirstNumbers,
    key: LentKind<'_>,
    number: u32,
) -> Result<(), AllocError>
    ensures { OnOk result (HasAdded firsts.old.entries firsts.new.entries
        key.entry.region.now key.entry.places.now number) }
{
    if firsts.contains_key(key) {
        return Ok(());
    }
    firsts.insert(KindKey::new(alloc, key.region, key.places)?, number)?;
    Ok(())
}
