// What queries from a region cost at each site.

ghost use Rattle.std.specs.Prelude.{◌≡◌, ◌<◌, Some, length, map, option_map, slice_get, OnErr, OnOk, IfOk};
ghost use Rattle.std.specs.List.{AllByRecursion};
ghost use Rattle.hsp_instance.specs.RegionCosts.{HasCosts, costs_at, costs_of_entry};
ghost use Rattle.hsp_instance.specs.RowArcs.{names_of, with_region};

use crate::sites::Site;
use hsp_tables::Costs;
use indexmap::IndexMap;
use std::alloc::{AllocError, Global};

// For each region that was sought: what a query from there costs at each site.
pub(crate) type RegionCosts = IndexMap<Vec<u8>, Vec<Option<u64>>>;

// What a query from a region costs at each site.
#[tactic(auto, using(crate::proofs::Lists::take_whole))]
fn costs_at(
    alloc: Global,
    costs: &Costs,
    region: &[u8],
    sites: &[Site],
) -> Result<Vec<Option<u64>>, AllocError>
    ensures { IfOk result (λ v. v.items ≡ costs_at costs.now region.now sites.now) }
{
    let mut found = Vec::with_capacity(alloc, sites.len())?;
    for site in sites {
        found.push(costs.find(region, site.name.as_slice()))?;
    }
    Ok(found)
}

// The place of the region's costs among those that are known. They are added if they are not there yet.
pub(crate) fn place_of(
    alloc: Global,
    known: &mut RegionCosts,
    costs: &Costs,
    sites: &[Site],
    region: &[u8],
) -> Result<usize, AllocError>
    requires { AllByRecursion (HasCosts costs.now sites.now) known.old.entries }
    ensures known { AllByRecursion (HasCosts costs.now sites.now) known.new.entries }
    ensures names { OnOk result (names_of known.new.entries
        ≡ with_region (names_of known.old.entries) region.now) }
    ensures kept { OnErr result (known.new.entries ≡ known.old.entries) }
    ensures within { IfOk result (λ place. place < length known.new.entries) }
    ensures name { IfOk result
        (λ place. slice_get (names_of known.new.entries) place ≡ Some region.now) }
    ensures place { IfOk result (λ place. option_map costs_of_entry
        (slice_get known.new.entries place) ≡ Some (costs_at costs.now region.now sites.now)) }
{
    if let Some(place) = known.get_index_of(region) {
        return Ok(place);
    }
    let name = Vec::from_slice(alloc, region)?;
    let found = costs_at(alloc, costs, region, sites)?;
    let (place, _) = known.insert_full(name, found)?;
    Ok(place)
}

// What a query from the region at a place costs at each site.
pub(crate) fn costs_there(known: &RegionCosts, place: usize) -> &[Option<u64>]
    requires { place < length known.now.entries }
    ensures { option_map costs_of_entry (slice_get known.now.entries place) ≡ Some result.now }
{
    let (_, costs) = known.get_index(place).unwrap();
    costs.as_slice()
}

// The name of the region at a place.
pub(crate) fn name_there(known: &RegionCosts, place: usize) -> &[u8]
    requires { place < length known.now.entries }
    ensures { slice_get (names_of known.now.entries) place ≡ Some result.now }
{
    let (name, _) = known.get_index(place).unwrap();
    name.as_slice()
}
