// The arcs of the rows of demand.

ghost use Rattle.std.specs.Prelude.{◌≡◌, ◌≤◌, ◌<◌, ◌+◌, ◌++◌, length, map, OnOk, IfOk};
ghost use Rattle.std.specs.List.{AllByRecursion};
ghost use Rattle.hsp_names.specs.Lent.{octets_of};
ghost use Rattle.hsp_tables.specs.Demand.{AreDemand};
ghost use Rattle.hsp_tables.specs.Rows.{demand_shown};
ghost use Rattle.hsp_text.specs.declared.limits.TheConstants.{MOST_SERVERS};
ghost use Rattle.hsp_instance.specs.Building.{arc_to};
ghost use Rattle.hsp_instance.specs.Instance.{AreSites};
ghost use Rattle.hsp_instance.specs.RegionCosts.{HasCosts, arcs_by, arcs_of};

use crate::arc::Arc;
use crate::instance::ArcList;
use crate::region_costs::{RegionCosts, costs_there, place_of};
use crate::sites::Site;
use hsp_hash::Digests;
use hsp_names::HandleRef;
use hsp_tables::{Costs, Demand, DemandRow};
use std::alloc::{AllocError, Global};

// The number of a site, and that of its first server among the servers of all sites.
#[derive(Clone, Copy)]
struct Numbers {
    site: u32,
    first: u32,
}

// Adds the arc to a site of these numbers, where a query has a cost there.
fn push_arc(
    arcs: &mut Vec<Arc>,
    digests: &mut Digests<'_>,
    numbers: Numbers,
    site: &Site,
    cost: Option<u64>,
) -> Result<(), AllocError>
    requires first { numbers.first ≤ MOST_SERVERS }
    requires some { 0 < length site.now.servers }
    requires few { length site.now.servers ≤ MOST_SERVERS }
    ensures arcs { OnOk result (arcs.new.items ≡ arcs.old.items
        ++ arc_to digests.old numbers.site numbers.first site.now cost) }
    ensures same { digests.new ≡ digests.old }
{
    let Some(cost) = cost else {
        return Ok(());
    };
    let place = digests.place(site.option, site.servers.len() as u32);
    arcs.push(Arc {
        site: numbers.site,
        server: numbers.first + place,
        cost,
    })?;
    Ok(())
}

/// Writes the arcs for a handle, by what a query costs at each site, over what the list had.
pub(crate) fn fill_arcs(
    arcs: &mut Vec<Arc>,
    handle: HandleRef<'_>,
    sites: &[Site],
    costs: &[Option<u64>],
) -> Result<(), AllocError>
    requires sites { AreSites sites.now }
    requires costs { length costs.now ≡ length sites.now }
    ensures { OnOk result
        (arcs.new.items ≡ arcs_by (octets_of handle.entry) 0 0 sites.now costs.now) }
{
    arcs.clear();
    let mut digests = Digests::new(handle);
    let mut first: u32 = 0;
    for (number, site) in sites.iter().enumerate() {
        let numbers = Numbers {
            site: number as u32,
            first,
        };
        push_arc(arcs, &mut digests, numbers, site, costs[number])?;
        first += site.servers.len() as u32;
    }
    Ok(())
}

// The arcs for a handle, by what a query costs at each site.
fn arcs_by(
    alloc: Global,
    handle: HandleRef<'_>,
    sites: &[Site],
    costs: &[Option<u64>],
) -> Result<ArcList, AllocError>
    requires sites { AreSites sites.now }
    requires costs { length costs.now ≡ length sites.now }
    ensures { IfOk result
        (λ arcs. arcs ≡ arcs_by (octets_of handle.entry) 0 0 sites.now costs.now) }
{
    let mut arcs = Vec::with_capacity(alloc, sites.len())?;
    fill_arcs(&mut arcs, handle, sites, costs)?;
    Ok(ArcList { arcs })
}

// The arcs of a row. The costs of its region are added to those that are known, where they are not there yet.
fn arcs_of_row(
    alloc: Global,
    known: &mut RegionCosts,
    costs: &Costs,
    sites: &[Site],
    row: DemandRow<'_>,
) -> Result<ArcList, AllocError>
    requires sites { AreSites sites.now }
    requires known { AllByRecursion (HasCosts costs.now sites.now) known.old.entries }
    ensures known { OnOk result (AllByRecursion (HasCosts costs.now sites.now) known.new.entries) }
    ensures arcs { IfOk result
        (λ arcs. arcs ≡ arcs_of costs.now sites.now (demand_shown row.entry)) }
{
    let place = place_of(alloc, known, costs, sites, row.region)?;
    let arcs = arcs_by(alloc, row.handle, sites, costs_there(known, place))?;
    Ok(arcs)
}

// The arcs of each row.
#[tactic(auto, using(crate::proofs::Lists::take_whole))]
pub(crate) fn arcs_of(
    alloc: Global,
    demand: &Demand,
    sites: &[Site],
    costs: &Costs,
) -> Result<Vec<ArcList>, AllocError>
    requires { AreSites sites.now }
    ensures arcs { IfOk result (λ v. v.items ≡ map (arcs_of costs.now sites.now) demand.now) }
    // The demand is within its limits.
    ensures within { AreDemand demand.now }
{
    let mut known: RegionCosts = RegionCosts::new(alloc);
    let mut lists = Vec::with_capacity(alloc, demand.len() as usize)?;
    for number in 0..demand.len() {
        let arcs = arcs_of_row(alloc, &mut known, costs, sites, demand.row(number))?;
        lists.push(arcs)?;
    }
    Ok(lists)
}
