// The classes of groups, and what goes to each of their servers.

ghost use Rattle.std.specs.Prelude.{◌≡◌, ◌<◌, ◌+◌, ◌^◌, ℕ, List, [], ◌∷◌, ◌++◌, All, IfOk, OnOk};
ghost use Rattle.std.specs.Prelude.{true, length, map, sum};
ghost use Rattle.std.specs.BTreeMap.{IsOrdered};
ghost use Rattle.std.specs.List.{AllByRecursion};
ghost use Rattle.hsp_instance.specs.declared.arc.Arc.{Arc};
ghost use Rattle.hsp_cert.specs.Certificate.{ascends};
ghost use Rattle.hsp_price_text.specs.Claim.{is_before};
ghost use Rattle.hsp_prices.specs.Least.{least_arcs, servers_of};
ghost use Rattle.hsp_prices.specs.Groups.{Group};
ghost use Rattle.hsp_prices.specs.Solved.{AreClassesBy, flow_to};
ghost use Rattle.hsp_price_check.specs.Extras.{pay_by};
ghost use Rattle.hsp_price_check.specs.LeastPay.{AreLow};
ghost use Rattle.hsp_price_plan.specs.Solving.{HasArcsWithin, arcs_in};
ghost use Rattle.hsp_price_plan.specs.ClassSums.{AddsFlow, AreSums, HasRoom, HasRoomFor, added};
ghost use Rattle.hsp_price_plan.specs.ClassSums.{class_of, key_cmp, sent_of};

use crate::group::RowGroup;
use hsp_instance::Arc;
use hsp_price_check::{fill_least, fill_servers};
use hsp_price_text::Class;
use std::alloc::{AllocError, Global};
use std::collections::BTreeMap;

/// What the groups of a class share: their region and the servers that they pay least at. Keys are in the order of a
/// certificate's classes.
#[derive(PartialEq, Eq, PartialOrd, Ord, Drop)]
struct ClassKey {
    region: Vec<u8>,
    servers: Vec<u32>,
}

// What flows from a group to a server, where the flow on each of its arcs is given.
fn flow_to(server: u32, group: &RowGroup, flows: &[u64]) -> u64
    requires { sum flows.now < 2 ^ 64 }
    ensures { result ≡ flow_to server (group.now, flows.now) }
{
    let mut sum = 0;
    for (arc, flow) in group.arcs.iter().zip(flows) {
        if arc.server == server {
            sum += *flow;
        }
    }
    sum
}

// Adds what flows from a group to each of the servers.
fn add_flows(amounts: &mut [u64], servers: &[u32], group: &RowGroup, flows: &[u64])
    requires flows { sum flows.now < 2 ^ 64 }
    requires many { length amounts.old ≡ length servers.now }
    requires room { All (λ amount. amount + sum flows.now < 2 ^ 64) amounts.old }
    ensures { amounts.new
        ≡ added amounts.old (map (λ j. flow_to j (group.now, flows.now)) servers.now) }
{
    for place in 0..servers.len() {
        amounts[place] += flow_to(servers[place], group, flows);
    }
}

// The key of a group by its least arcs.
fn key_of(alloc: Global, group: &RowGroup, least: &[Arc]) -> Result<ClassKey, AllocError>
    ensures region { IfOk result (λ key. key.region.items ≡ group.now.region) }
    ensures servers { IfOk result (λ key. key.servers.items ≡ servers_of least.now) }
{
    let mut servers = Vec::with_capacity(alloc, least.len())?;
    fill_servers(&mut servers, least)?;
    Ok(ClassKey {
        region: group.region.to_vec(alloc)?,
        servers,
    })
}

// Adds what flows from a group to the amounts of its class.
fn add_group(
    alloc: Global,
    sums: &mut BTreeMap<ClassKey, Vec<u64>>,
    key: ClassKey,
    group: &RowGroup,
    flows: &[u64],
) -> Result<(), AllocError>
    requires flows { sum flows.now < 2 ^ 64 }
    requires room { HasRoom sums.old.entries key (sum flows.now) }
    ensures { OnOk result (AddsFlow sums.old.entries key (group.now, flows.now) sums.new.entries) }
{
    if let Some(amounts) = sums.get_mut(&key) {
        add_flows(amounts, &key.servers, group, flows);
        return Ok(());
    }
    let mut amounts = vec![in alloc; 0u64; key.servers.len()]?;
    add_flows(&mut amounts, &key.servers, group, flows);
    sums.insert(key, amounts)?;
    Ok(())
}

// Adds what flows from a group with two or more least arcs to the amounts of its class.
fn add_least(
    alloc: Global,
    sums: &mut BTreeMap<ClassKey, Vec<u64>>,
    group: &RowGroup,
    least: &[Arc],
    flows: &[u64],
) -> Result<(), AllocError>
    requires { HasRoomFor sums.old.entries least.now (group.now, flows.now) }
    ensures { OnOk result ((pay : Arc → ℕ) (sent : List (Group × List ℕ))
        → least.now ≡ least_arcs pay group.now.arcs → AreSums pay sent sums.old.entries
        → AreSums pay (sent ++ (group.now, flows.now) ∷ []) sums.new.entries) }
{
    if least.len() < 2 {
        return Ok(());
    }
    let key = key_of(alloc, group, least)?;
    add_group(alloc, sums, key, group, flows)
}

// The classes of these sums.
fn classes_in(alloc: Global, sums: BTreeMap<ClassKey, Vec<u64>>) -> Result<Vec<Class>, AllocError>
    ensures classes { IfOk result (λ classes. classes.items ≡ map class_of sums.entries) }
    // The map's keys ascend.
    ensures ordered { IfOk result (λ _. IsOrdered key_cmp sums) }
{
    let mut classes = Vec::with_capacity(alloc, sums.len())?;
    for (key, amounts) in sums {
        classes.push(Class {
            region: key.region,
            servers: key.servers,
            amounts,
        })?;
    }
    Ok(classes)
}

// What goes to the servers of each class of groups, by what a query to each server pays beside an arc's cost.
fn sums_of(
    alloc: Global,
    groups: &[RowGroup],
    extras: &[u64],
    flows: &[u64],
) -> Result<BTreeMap<ClassKey, Vec<u64>>, AllocError>
    requires arcs { AllByRecursion (HasArcsWithin (length extras.now)) groups.now }
    requires low { AreLow extras.now }
    requires many { length flows.now ≡ arcs_in groups.now }
    requires room { sum flows.now < 2 ^ 64 }
    ensures { IfOk result
        (λ sums. AreSums (pay_by extras.now) (sent_of groups.now flows.now) sums.entries) }
{
    let mut sums = BTreeMap::new(alloc);
    let mut least = Vec::new(alloc);
    let mut begin = 0;
    for group in groups {
        let end = begin + group.arcs.len();
        fill_least(&mut least, &group.arcs, extras)?;
        add_least(alloc, &mut sums, group, &least, &flows[begin..end])?;
        begin = end;
    }
    Ok(sums)
}

/// The classes of groups, where a flow goes over their arcs, group by group. Each server has a number in `extras`: what
/// a query pays there beside the cost of its arc. The classes stand by region and then by servers.
///
/// # Errors
///
/// An `AllocError` where memory runs out.
pub(crate) fn classes_of(
    alloc: Global,
    groups: &[RowGroup],
    extras: &[u64],
    flows: &[u64],
) -> Result<Vec<Class>, AllocError>
    requires arcs { AllByRecursion (HasArcsWithin (length extras.now)) groups.now }
    requires low { AreLow extras.now }
    requires many { length flows.now ≡ arcs_in groups.now }
    requires room { sum flows.now < 2 ^ 64 }
    ensures classes { IfOk result
        (λ classes. AreClassesBy (pay_by extras.now) groups.now flows.now classes.items) }
    ensures order { IfOk result (λ classes. ascends is_before classes.items ≡ true) }
{
    let sums = sums_of(alloc, groups, extras, flows)?;
    classes_in(alloc, sums)
}
