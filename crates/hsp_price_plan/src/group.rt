// A group of rows.

ghost use Rattle.std.specs.Prelude.{◌≡◌, ◌+◌, ◌<◌, ◌^◌, IfOk};
ghost use Rattle.hsp_price_plan.specs.Grouping.{with_count};

use hsp_instance::Arc;
use std::alloc::{AllocError, Global};
use std::marker::Model;

/// The region and the kept arcs that rows share, and how many queries they ask for together.
#[derive(Drop)]
pub struct RowGroup {
    pub region: Vec<u8>,
    pub arcs: Vec<Arc>,
    pub demand: u64,
}

impl Model for RowGroup {
    ghost use Rattle.hsp_prices.specs.Groups.{Group};

    ghost Value = { Group };

    ghost view = { λ g. record { region = g.region.items; arcs = g.arcs.items; demand = g.demand } };
}

impl RowGroup {
    /// The group of one row.
    pub(crate) fn new(
        alloc: Global,
        region: &[u8],
        arcs: &[Arc],
        demand: u64,
    ) -> Result<RowGroup, AllocError>
        ensures { IfOk result (λ group.
            group ≡ record { region = region.now; arcs = arcs.now; demand = demand }) }
    {
        Ok(RowGroup {
            region: Vec::from_slice(alloc, region)?,
            arcs: Vec::from_slice(alloc, arcs)?,
            demand,
        })
    }

    /// Adds the count of one more row.
    pub(crate) fn add(&mut self, count: u64)
        requires { self.old.demand + count < 2 ^ 64 }
        ensures { self.new ≡ with_count count self.old }
    {
        self.demand += count;
    }
}
