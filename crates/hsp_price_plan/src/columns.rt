// What groups ask for, and their arcs, in columns.

ghost use Rattle.std.specs.Prelude.{◌<◌, ◌^◌, IfOk, length};
ghost use Rattle.hsp_price_plan.specs.Columns.{AreColumns};

use crate::group::RowGroup;
use hsp_flow::ArcColumns;
use std::alloc::{AllocError, Global};

/// The demand of each group, and the arcs of the groups, which are their sources.
#[derive(Drop)]
pub(crate) struct GroupColumns {
    pub(crate) demands: Vec<u64>,
    pub(crate) arcs: ArcColumns,
}

/// The columns of groups.
pub(crate) fn columns_of(alloc: Global, groups: &[RowGroup]) -> Result<GroupColumns, AllocError>
    requires { length groups.now < 2 ^ 32 }
    ensures { IfOk result (AreColumns groups.now) }
{
    let mut demands = Vec::with_capacity(alloc, groups.len())?;
    let mut arcs = ArcColumns::with_room(alloc, groups.len())?;
    for number in 0..groups.len() {
        let group = &groups[number];
        arcs.push_arcs(number as u32, &group.arcs)?;
        demands.push(group.demand)?;
    }
    Ok(GroupColumns { demands, arcs })
}
