// The regions that the rows of a log name.

ghost use Rattle.std.specs.Prelude.{◌≡◌, IfOk, OnOk};
ghost use Rattle.hsp_stream.specs.Regions.{has_room, with_region};

use hsp_tables::Regions;
use hsp_text::limits::MOST_LOG_REGIONS;
use std::alloc::{AllocError, Global};

/// Adds the region of a row, and returns whether the row may name it.
pub(crate) fn see_region(
    alloc: Global,
    regions: &mut Regions,
    region: &[u8],
) -> Result<bool, AllocError>
    ensures room { IfOk result (λ room. room ≡ has_room regions.old region.now) }
    ensures seen { OnOk result (regions.new ≡ with_region regions.old region.now) }
{
    if !regions.has(region) && regions.len() >= MOST_LOG_REGIONS {
        return Ok(false);
    }
    regions.see(alloc, region)?;
    Ok(true)
}
