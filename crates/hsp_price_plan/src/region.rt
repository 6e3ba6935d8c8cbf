// A region, as its rows share it.

ghost use Rattle.std.specs.Prelude.{◌≡◌, IfOk};
ghost use Rattle.hsp_price_plan.specs.Regions.{region_with, shape_of};

use hsp_instance::Arc;
use std::alloc::{AllocError, Global};
use std::marker::Model;

/// What an arc has beside its server: its site, and what a query pays over it.
#[derive(Clone, Copy, Drop)]
pub(crate) struct SiteCost {
    pub(crate) site: u32,
    pub(crate) cost: u64,
}

/// The name of a region, and the sites and costs of its rows' arcs.
#[derive(Drop)]
pub(crate) struct Region {
    name: Vec<u8>,
    shape: Vec<SiteCost>,
}

impl Model for Region {
    ghost use Rattle.hsp_price_plan.specs.Regions.{RegionArcs};

    ghost Value = { RegionArcs };

    ghost view = { λ r. record { name = r.name.items; shape = r.shape.items } };
}

// The sites and costs of arcs.
fn shape_of(alloc: Global, arcs: &[Arc]) -> Result<Vec<SiteCost>, AllocError>
    ensures { IfOk result (λ shape. shape.items ≡ shape_of arcs.now) }
{
    let mut shape = Vec::with_capacity(alloc, arcs.len())?;
    for arc in arcs {
        shape.push(SiteCost {
            site: arc.site,
            cost: arc.cost,
        })?;
    }
    Ok(shape)
}

impl Region {
    /// The region of a row with a name and arcs.
    pub(crate) fn new(alloc: Global, name: &[u8], arcs: &[Arc]) -> Result<Region, AllocError>
        ensures { IfOk result (λ region. region ≡ region_with name.now arcs.now) }
    {
        Ok(Region {
            name: Vec::from_slice(alloc, name)?,
            shape: shape_of(alloc, arcs)?,
        })
    }

    /// Its name.
    pub(crate) fn name(&self) -> &[u8]
        ensures { result.now ≡ self.now.name }
    {
        self.name.as_slice()
    }

    /// The sites and costs of its rows' arcs, in their order.
    pub(crate) fn shape(&self) -> &[SiteCost]
        ensures { result.now ≡ self.now.shape }
    {
        self.shape.as_slice()
    }
}
