// The groups of rows in memory.

ghost use Rattle.std.specs.Prelude.{◌≡◌, ◌≤◌, ◌<◌, ◌^◌, IfOk, List, length};
ghost use Rattle.hsp_instance.specs.Instance.{Row};
ghost use Rattle.hsp_prices.specs.Rows.{Service};
ghost use Rattle.hsp_prices.specs.Shown.{IsService};
ghost use Rattle.hsp_prices.specs.Groups.{AreGroupsOf};
ghost use Rattle.hsp_prices.specs.Solved.{AreRows};
ghost use Rattle.hsp_price_plan.specs.Grouping.{asked_in, demand_of};

use crate::group::RowGroup;
use crate::rows::KeptRows;
use crate::table::GroupTable;
use std::alloc::{AllocError, Global};

/// The groups of rows of a service, by the arcs that they keep. The rows together ask for less than 2^64 queries.
///
/// # Errors
///
/// An `AllocError` where memory runs out.
pub fn groups_of(alloc: Global, rows: &KeptRows) -> Result<Vec<RowGroup>, AllocError>
    requires { asked_in rows.now.rows < 2 ^ 64 }
    ensures grouped { IfOk result (λ groups. (at : Service) (of : List Row)
        → IsService at → AreRows at of rows.now.rows → AreGroupsOf rows.now.rows groups.items) }
    ensures demand { IfOk result (λ groups. demand_of groups.items ≡ asked_in rows.now.rows) }
    ensures few { IfOk result (λ groups. length groups.items ≤ length rows.now.rows) }
{
    let mut table = GroupTable::new(alloc, rows.key());
    let mut kept = Vec::new(alloc);
    for row in 0..rows.len() {
        rows.fill_kept(row, &mut kept)?;
        let region = rows.region_name(rows.region_of(row));
        table.add(alloc, region, &kept, rows.count(row))?;
    }
    Ok(table.into_groups())
}
