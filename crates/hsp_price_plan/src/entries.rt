// The arcs of one row, each of which has an entry: its server, and 1,024 more where the arc is kept.

ghost use Rattle.std.specs.Prelude.{◌≡◌, ◌≤◌, ◌<◌, ◌+◌, ◌%◌, ◌^◌, ◌&&◌, OnErr, OnOk, filter, length, map, nat_le, not};
ghost use Rattle.std.specs.Prelude.{vec_capacity, vec_len};
ghost use Rattle.std.specs.List.{AllByRecursion, list_all};
ghost use Rattle.hsp_transport.specs.Lists.{flag_at};
ghost use Rattle.hsp_instance.specs.RowArcs.{IsWithin};
ghost use Rattle.hsp_price_check.specs.Extras.{pay_by};
ghost use Rattle.hsp_price_check.specs.LeastPay.{AreLow};
ghost use Rattle.hsp_price_plan.specs.Entries.{AreServers, IsKeptEntry, IsPushed, arcs_by, bare_arcs};
ghost use Rattle.hsp_price_plan.specs.Entries.{entry_arc, loose_arc};
ghost use Rattle.hsp_price_plan.specs.Regions.{shape_of};

use crate::region::SiteCost;
use hsp_instance::Arc;
use std::alloc::AllocError;

/// What an entry has beside its server where the arc is kept. Servers are below it, as there are no more of them.
pub(crate) const KEPT: u16 = 1024;

// The arc of an entry.
fn arc_of(at: SiteCost, entry: u16) -> Arc
    ensures { result ≡ entry_arc at entry }
{
    Arc {
        site: at.site,
        server: u32::from(entry % KEPT),
        cost: at.cost,
    }
}

/// What a query pays over the arc of an entry.
#[inline(always)]
pub(crate) fn pay_over(at: SiteCost, entry: u16, extras: &[u64]) -> u64
    requires within { IsWithin (length extras.now) (entry_arc at entry) }
    requires low { AreLow extras.now }
    ensures { result ≡ pay_by extras.now (entry_arc at entry) }
{
    at.cost + extras[usize::from(entry % KEPT)]
}

/// Whether the arc of an entry is kept and leads out of a set of servers.
#[inline(always)]
pub(crate) fn leads_out(entry: u16, set: &[bool]) -> bool
    requires { entry % KEPT < length set.now }
    ensures { result ≡ (nat_le KEPT entry && not (flag_at set.now (entry % KEPT))) }
{
    entry >= KEPT && !set[usize::from(entry % KEPT)]
}

/// Keeps the arc of an entry where it passes, and returns 1 where it wasn't kept before.
#[inline(always)]
pub(crate) fn keep_entry(entry: &mut u16, passes: bool) -> u64
    ensures { IsKeptEntry passes entry.old entry.new result }
{
    if passes && *entry < KEPT {
        *entry += KEPT;
        1
    } else {
        0
    }
}

/// Writes the kept arcs over what the list had.
pub(crate) fn fill_kept(
    kept: &mut Vec<Arc>,
    entries: &[u16],
    shape: &[SiteCost],
) -> Result<(), AllocError>
    requires { length shape.now ≤ length entries.now }
    ensures { OnOk result (kept.new.items
        ≡ map (λ a. a.arc) (filter (λ a. a.is_kept) (arcs_by shape.now entries.now))) }
{
    kept.clear();
    for i in 0..shape.len() {
        if entries[i] >= KEPT {
            kept.push(arc_of(shape[i], entries[i]))?;
        }
    }
    Ok(())
}

/// Writes all arcs over what the list had.
pub(crate) fn fill_arcs(
    arcs: &mut Vec<Arc>,
    entries: &[u16],
    shape: &[SiteCost],
) -> Result<(), AllocError>
    requires { length shape.now ≤ length entries.now }
    ensures { OnOk result (arcs.new.items ≡ bare_arcs shape.now entries.now) }
{
    arcs.clear();
    for i in 0..shape.len() {
        arcs.push(arc_of(shape[i], entries[i]))?;
    }
    Ok(())
}

// Writes an entry for each arc, none of which is kept.
fn write_entries(entries: &mut [u16], arcs: &[Arc])
    requires many { length arcs.now ≤ length entries.old }
    requires servers { AreServers arcs.now }
    ensures { arcs_by (shape_of arcs.now) entries.new ≡ map loose_arc arcs.now }
{
    for i in 0..arcs.len() {
        entries[i] = arcs[i].server as u16;
    }
}

/// Adds the entries of a row, one for each site.
pub(crate) fn push_entries(
    places: &mut Vec<u16>,
    sites: usize,
    arcs: &[Arc],
) -> Result<(), AllocError>
    requires many { length arcs.now ≤ sites }
    requires servers { AreServers arcs.now }
    requires fits { vec_len places.old + sites < 2 ^ 64 }
    ensures added { OnOk result (IsPushed places.old.items sites arcs.now places.new.items) }
    ensures kept { OnErr result (places.new.items ≡ places.old.items) }
    ensures full { OnErr result (vec_capacity places.old < vec_len places.old + sites) }
{
    let start = places.len();
    places.resize(start + sites, 0)?;
    write_entries(&mut places[start..], arcs);
    Ok(())
}
