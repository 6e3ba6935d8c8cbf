// Samples of rows.

use crate::lists::mixed;
use crate::rows::KeptRows;
use crate::sample::Sample;
use std::alloc::{AllocError, Global};

/// What all rows ask for together, or the greatest number where it is above it.
pub(crate) fn asked_in(rows: &KeptRows) -> u64 {
    let mut sum = 0u64;
    for row in 0..rows.len() {
        sum = sum.saturating_add(rows.count(row));
    }
    sum
}

// The weight of a row in a sample, or 0 where it is not drawn. A row that asks for a unit or more has its own count.
// Others are drawn in proportion to their counts, and stand for a unit each.
fn weight_of(row: usize, count: u64, unit: u64) -> u64 {
    if count >= unit {
        return count;
    }
    if mixed((row as u64).wrapping_mul(77).wrapping_add(unit)) % unit < count {
        unit
    } else {
        0
    }
}

/// About `want` of the rows, with their arcs, none of which is kept. All rows together ask for `total` queries.
pub(crate) fn sample_of(
    alloc: Global,
    rows: &KeptRows,
    total: u64,
    want: u64,
) -> Result<Sample, AllocError> {
    let unit = total.checked_div(want).unwrap_or(0);
    let mut sample = Sample::new(alloc, rows.key())?;
    let mut arcs = Vec::new(alloc);
    for row in 0..rows.len() {
        let weight = weight_of(row, rows.count(row), unit);
        if weight > 0 {
            rows.fill_arcs(row, &mut arcs)?;
            sample.push(rows.region_of(row) as u16, &arcs, weight)?;
        }
    }
    Ok(sample)
}
