// The network of two groups. From r1 the first one has arcs to the server 0 at 1 and to the server 2 at 10. From r2 the
// second one has arcs to the server 0 at 10 and to the server 1 at 1, and asks for 6. The server 0 takes 5, and the
// servers 1 and 2 take 10 each.

ghost use Rattle.std.specs.Prelude.{◌<◌, ◌^◌, All, IfOk, IfSome, IsTrue, length};
ghost use Rattle.std.specs.List.{AllByRecursion};
ghost use Rattle.hsp_instance.specs.RowArcs.{IsWithin};
ghost use Rattle.hsp_network.specs.Answer.{IsMet};
ghost use Rattle.hsp_price_plan.specs.Pressing.{HasTextPrices};
ghost use Rattle.hsp_price_plan.specs.Solving.{HasArcsWithin, HasFewArcs, demand_in, group_network};

use crate::judging::says;
use crate::same::is_same;
use crate::service::{Held, NARROW, hold};
use hsp_instance::Arc;
use hsp_network::{Outcome, PricedFlow};
use hsp_price_check::{ServiceNumbers, service_numbers};
use hsp_price_plan::{
    GroupTable, RowGroup, plan_certificate, servers_reached, short_certificate, solve_groups,
};
use hsp_price_text::{PriceCertificate, PricedPlan, ShortServers};
use hsp_text::limits::MOST_SITES;
use std::alloc::{AllocError, Global};
use std::process::Abort;

// What servers take, and groups.
#[derive(Drop)]
struct Groups {
    numbers: ServiceNumbers,
    groups: Vec<RowGroup>,
}

fn arc(site: u32, server: u32, cost: u64) -> Arc {
    Arc { site, server, cost }
}

// Whether arcs lead to some of so many servers, at low costs.
fn lead_within(arcs: &[Arc], servers: usize) -> bool
    ensures { IsTrue result → All (IsWithin servers) arcs.now }
{
    for arc in arcs {
        if arc.server as usize >= servers || arc.cost > 1_000_000 {
            return false;
        }
    }
    true
}

// Whether those of groups do.
fn all_lead_within(groups: &[RowGroup], servers: usize) -> bool
    ensures { IsTrue result → All (λ group. All (IsWithin servers) group.arcs) groups.now }
{
    for group in groups {
        if !lead_within(&group.arcs, servers) {
            return false;
        }
    }
    true
}

// Whether no group has more arcs than there may be sites.
fn are_small(groups: &[RowGroup]) -> bool
    ensures { IsTrue result → All HasFewArcs groups.now }
{
    for group in groups {
        if group.arcs.len() > MOST_SITES {
            return false;
        }
    }
    true
}

// The groups, the first of which asks for so much.
fn groups_by(alloc: Global, first: u32) -> Result<Vec<RowGroup>, AllocError>
    ensures { IfOk result (λ groups. demand_in groups.items < 2 ^ 63) }
{
    let mut table = GroupTable::new(alloc, 7);
    table.add(
        alloc,
        b"r1",
        &[arc(0, 0, 1), arc(1, 2, 10)],
        u64::from(first),
    )?;
    table.add(alloc, b"r2", &[arc(0, 0, 10), arc(1, 1, 1)], 6)?;
    Ok(table.into_groups())
}

fn network_once(alloc: Global, held: &Held, first: u32) -> Result<Groups, AllocError>
    ensures arcs { IfOk result (λ it.
        AllByRecursion (HasArcsWithin (length it.numbers.server_hosts.items)) it.groups.items) }
    ensures few { IfOk result (λ it. AllByRecursion HasFewArcs it.groups.items) }
    ensures demand { IfOk result (λ it. demand_in it.groups.items < 2 ^ 63) }
{
    let numbers = service_numbers(alloc, &held.instance)?;
    let groups = groups_by(alloc, first)?;
    if !all_lead_within(&groups, numbers.server_hosts.len()) {
        return Err(AllocError);
    }
    if !are_small(&groups) {
        return Err(AllocError);
    }
    Ok(Groups { numbers, groups })
}

// The same, once more where memory ran out.
fn network(rt: &impl Abort, alloc: Global, first: u32) -> Groups
    ensures arcs { AllByRecursion (HasArcsWithin (length result.numbers.server_hosts.items))
        result.groups.items }
    ensures few { AllByRecursion HasFewArcs result.groups.items }
    ensures demand { demand_in result.groups.items < 2 ^ 63 }
{
    let held = hold(rt, alloc, b"", NARROW);
    match network_once(alloc, &held, first) {
        Ok(network) => network,
        Err(AllocError) => network_once(alloc, &held, first).expect(rt, "there is memory"),
    }
}

// The flow that meets the groups, if one does.
fn flow_once(alloc: Global, it: &Groups) -> Result<Option<PricedFlow>, AllocError>
    requires arcs { AllByRecursion (HasArcsWithin (length it.now.numbers.server_hosts.items))
        it.now.groups.items }
    requires few { AllByRecursion HasFewArcs it.now.groups.items }
    requires demand { demand_in it.now.groups.items < 2 ^ 63 }
    ensures met { IfOk result (λ found.
        IfSome found (IsMet (group_network it.now.numbers it.now.groups.items))) }
    ensures low { IfOk result (λ found. IfSome found HasTextPrices) }
{
    match solve_groups(alloc, &it.numbers, &it.groups)? {
        Some(Outcome::Met(flow)) => Ok(Some(flow)),
        Some(Outcome::Short(_)) => Ok(None),
        None => Ok(None),
    }
}

// The plan of the flow.
fn plan_once(alloc: Global, it: &Groups) -> Result<Option<PricedPlan>, AllocError>
    requires arcs { AllByRecursion (HasArcsWithin (length it.now.numbers.server_hosts.items))
        it.now.groups.items }
    requires few { AllByRecursion HasFewArcs it.now.groups.items }
    requires demand { demand_in it.now.groups.items < 2 ^ 63 }
{
    match flow_once(alloc, it)? {
        Some(flow) => plan_certificate(alloc, &it.numbers, &it.groups, flow),
        None => Ok(None),
    }
}

// 5 queries at 1, 2 at 10, and 6 from r2 at 1: 31.
#[test]
fn a_flow_gives_a_plan(rt: HostRuntime) {
    let alloc = rt.alloc();
    let it = network(&rt, alloc, 7);
    let found = match plan_once(alloc, &it) {
        Ok(found) => found,
        Err(AllocError) => plan_once(alloc, &it).expect(&rt, "there is memory"),
    };
    let plan = found.expect(&rt, "the plan is within the limits");
    let certificate = PriceCertificate::Plan(plan);
    let wanted =
        b"HSPLAN PRICES 1\nPLAN\ncost 31\nserver 0 9\nserver 1 0\nserver 2 0\nclass r1 0 5 2 2\nEND\n";
    says(&rt, alloc, &certificate, wanted);
}

// The servers that a set of groups reaches.
fn reached_once(alloc: Global, it: &Groups, set: [bool; 2]) -> Result<Vec<bool>, AllocError>
    requires arcs { AllByRecursion (HasArcsWithin (length it.now.numbers.server_hosts.items))
        it.now.groups.items }
{
    if it.groups.len() != 2 {
        return Err(AllocError);
    }
    servers_reached(alloc, &it.numbers, &it.groups, &set)
}

// A set of groups reaches these servers.
fn reaches(rt: &impl Abort, alloc: Global, it: &Groups, set: [bool; 2], wanted: [bool; 3])
    requires arcs { AllByRecursion (HasArcsWithin (length it.now.numbers.server_hosts.items))
        it.now.groups.items }
{
    let reached = match reached_once(alloc, it, set) {
        Ok(reached) => reached,
        Err(AllocError) => reached_once(alloc, it, set).expect(rt, "there is memory"),
    };
    is_same(rt, reached.as_slice(), &wanted);
}

#[test]
fn groups_reach_the_servers_of_their_arcs(rt: HostRuntime) {
    let alloc = rt.alloc();
    let it = network(&rt, alloc, 16);
    reaches(&rt, alloc, &it, [false, false], [false, false, false]);
    reaches(&rt, alloc, &it, [true, false], [true, false, true]);
    reaches(&rt, alloc, &it, [false, true], [true, true, false]);
    reaches(&rt, alloc, &it, [true, true], [true, true, true]);
}

// What a set of servers shows.
fn shown_once(
    alloc: Global,
    it: &Groups,
    reached: [bool; 3],
) -> Result<Option<ShortServers>, AllocError>
    requires arcs { AllByRecursion (HasArcsWithin (length it.now.numbers.server_hosts.items))
        it.now.groups.items }
    requires demand { demand_in it.now.groups.items < 2 ^ 63 }
{
    if it.numbers.server_hosts.len() != 3 {
        return Err(AllocError);
    }
    short_certificate(alloc, &it.numbers, &it.groups, &reached)
}

// A set of servers shows this.
fn shows(rt: &impl Abort, alloc: Global, it: &Groups, reached: [bool; 3], wanted: &[u8])
    requires arcs { AllByRecursion (HasArcsWithin (length it.now.numbers.server_hosts.items))
        it.now.groups.items }
    requires demand { demand_in it.now.groups.items < 2 ^ 63 }
{
    let found = match shown_once(alloc, it, reached) {
        Ok(found) => found,
        Err(AllocError) => shown_once(alloc, it, reached).expect(rt, "there is memory"),
    };
    let short = found.expect(rt, "the set is within the limits");
    says(rt, alloc, &PriceCertificate::Shortage(short), wanted);
}

// The servers 0 and 2 catch what r1 asks for. The servers 1 and 2 catch nothing.
#[test]
fn servers_catch_what_can_go_nowhere_else(rt: HostRuntime) {
    let alloc = rt.alloc();
    let it = network(&rt, alloc, 16);
    let wanted = b"HSPLAN PRICES 1\nSHORT\nserver 0\nserver 2\ndemand 16\ncapacity 15\nEND\n";
    shows(&rt, alloc, &it, [true, false, true], wanted);
    let none = b"HSPLAN PRICES 1\nSHORT\nserver 1\nserver 2\ndemand 0\ncapacity 20\nEND\n";
    shows(&rt, alloc, &it, [false, true, true], none);
}
