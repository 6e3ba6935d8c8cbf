// The arcs of rows of any number.

ghost use Rattle.std.specs.Prelude.{◌≡◌, ◌⊎◌, ◌<◌, [], IfOk, OnErr, OnOk, Some, length, slice_get};
ghost use Rattle.std.specs.List.{list_any};
ghost use Rattle.std.specs.Str.{bytes_eq};
ghost use Rattle.hsp_names.specs.Lent.{octets_of};
ghost use Rattle.hsp_instance.specs.RowArcs.{AreArcsOf, with_region};

use crate::arc::Arc;
use crate::arc_building::fill_arcs;
use crate::region_costs::{RegionCosts, costs_there, name_there, place_of};
use crate::sites::Sites;
use hsp_names::HandleRef;
use hsp_tables::Costs;
use std::alloc::{AllocError, Global};
use std::marker::Model;

/// The arcs of rows of any number, one row after another. What queries from a region cost at each site is looked up
/// once.
#[derive(Drop)]
pub struct RowArcs<'a> {
    sites: &'a Sites,
    costs: &'a Costs,
    known: RegionCosts,
    arcs: Vec<Arc>,
}

impl<'a> Model for RowArcs<'a> {
    ghost use Rattle.std.specs.List.{AllByRecursion};
    ghost use Rattle.hsp_instance.specs.RegionCosts.{HasCosts};
    ghost use Rattle.hsp_instance.specs.RowArcs.{ArcsInTurn, names_of};

    ghost Value = { ArcsInTurn };

    ghost view = { λ a. record {
      costs = a.costs.now;
      sites = a.sites.now;
      regions = names_of a.known.entries;
      arcs = a.arcs.items;
    } };

    ghost invariant = { λ a. AllByRecursion (HasCosts a.costs.now a.sites.now) a.known.entries };
}

impl<'a> RowArcs<'a> {
    /// No row came yet.
    pub fn new(alloc: Global, sites: &'a Sites, costs: &'a Costs) -> RowArcs<'a>
        ensures costs { result.costs ≡ costs.now }
        ensures sites { result.sites ≡ sites.now }
        ensures regions { result.regions ≡ [] }
        ensures arcs { result.arcs ≡ [] }
    {
        RowArcs {
            sites,
            costs,
            known: RegionCosts::new(alloc),
            arcs: Vec::new(alloc),
        }
    }

    /// How many regions the rows had.
    pub fn regions(&self) -> usize
        ensures { result ≡ length self.now.regions }
    {
        self.known.len()
    }

    /// The name of the region with this number, which is below [`RowArcs::regions`]. Regions are numbered in the order
    /// in which they are first seen.
    pub fn region(&self, number: usize) -> &[u8]
        requires { number < length self.now.regions }
        ensures { slice_get self.now.regions number ≡ Some result.now }
    {
        name_there(&self.known, number)
    }

    /// Whether a row had the region.
    pub fn knows(&self, region: &[u8]) -> bool
        ensures { result ≡ list_any (bytes_eq region.now) self.now.regions }
    {
        self.known.contains_key(region)
    }

    /// Finds the arcs of a row of this region and handle, and returns the number of the region.
    ///
    /// # Errors
    ///
    /// An `AllocError` where memory runs out. The region may be one that a row had then, and nothing is said of the
    /// arcs.
    pub fn find(
        &mut self,
        alloc: Global,
        region: &[u8],
        handle: HandleRef<'_>,
    ) -> Result<usize, AllocError>
        ensures costs { self.new.costs ≡ self.old.costs }
        ensures sites { self.new.sites ≡ self.old.sites }
        ensures regions { OnOk result
            (self.new.regions ≡ with_region self.old.regions region.now) }
        // Where memory runs out it may be one of them as well.
        ensures kept { OnErr result ((self.new.regions ≡ self.old.regions)
            ⊎ (self.new.regions ≡ with_region self.old.regions region.now)) }
        ensures number { IfOk result
            (λ number. slice_get self.new.regions number ≡ Some region.now) }
        ensures arcs { OnOk result (AreArcsOf self.old.costs self.old.sites region.now
            (octets_of handle.entry) self.new.arcs) }
    {
        let sites: &Sites = self.sites;
        let list = sites.sites.as_slice();
        let place = place_of(alloc, &mut self.known, self.costs, list, region)?;
        let costs = costs_there(&self.known, place);
        fill_arcs(&mut self.arcs, handle, list, costs)?;
        Ok(place)
    }

    /// The arcs that were found last, in ascending order of their sites.
    pub fn arcs(&self) -> &[Arc]
        ensures { result.now ≡ self.now.arcs }
    {
        self.arcs.as_slice()
    }
}
