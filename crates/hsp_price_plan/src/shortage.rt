// The certificate of the servers that short groups reach.

ghost use Rattle.std.specs.Prelude.{◌≡◌, ◌≤◌, ◌<◌, ◌^◌, ◌||◌, ◌==◌, ℕ, true};
ghost use Rattle.std.specs.Prelude.{IfNone, IfOk, IfSome, length, vec_len};
ghost use Rattle.std.specs.List.{AllByRecursion, list_any};
ghost use Rattle.hsp_text.specs.declared.limits.TheConstants.{MOST_SERVERS};
ghost use Rattle.hsp_transport.specs.Lists.{flag_at};
ghost use Rattle.hsp_instance.specs.RowArcs.{IsWithin};
ghost use Rattle.hsp_price_text.specs.Claim.{is_short};
ghost use Rattle.hsp_price_plan.specs.Shortage.{AreReachedBy, IsShortageFor, IsShortagePast, caught_demand};
ghost use Rattle.hsp_price_plan.specs.Solving.{HasArcsWithin, demand_in};

use crate::group::RowGroup;
use hsp_flow::flagged;
use hsp_instance::Arc;
use hsp_price_check::{ServiceNumbers, arcs_stay_within, capacity_of_set};
use hsp_price_text::ShortServers;
use std::alloc::{AllocError, Global};

// Flags the servers that arcs lead to.
fn flag_servers(reached: &mut [bool], arcs: &[Arc])
    requires { AllByRecursion (IsWithin (length reached.old)) arcs.now }
    ensures { (j : ℕ) → flag_at reached.new j
        ≡ (flag_at reached.old j || list_any (λ arc. arc.server == j) arcs.now) }
{
    for arc in arcs {
        reached[arc.server as usize] = true;
    }
}

/// A flag for each server, set where an arc of a flagged group leads there. There is a flag in `set` for each group.
///
/// # Errors
///
/// An `AllocError` where memory runs out.
pub fn servers_reached(
    alloc: Global,
    numbers: &ServiceNumbers,
    groups: &[RowGroup],
    set: &[bool],
) -> Result<Vec<bool>, AllocError>
    requires arcs { AllByRecursion (HasArcsWithin (length numbers.now.server_hosts.items))
        groups.now }
    requires set { length set.now ≡ length groups.now }
    ensures many { IfOk result (λ reached.
        vec_len reached ≡ length numbers.now.server_hosts.items) }
    ensures reached { IfOk result (λ reached. AreReachedBy groups.now set.now reached.items) }
{
    let mut reached = vec![in alloc; false; numbers.server_hosts.len()]?;
    for number in 0..groups.len() {
        if set[number] {
            let group = &groups[number];
            flag_servers(&mut reached, &group.arcs);
        }
    }
    Ok(reached)
}

// What the groups ask for that can go to flagged servers only.
fn caught_demand(groups: &[RowGroup], reached: &[bool]) -> u64
    requires arcs { AllByRecursion (HasArcsWithin (length reached.now)) groups.now }
    requires demands { demand_in groups.now < 2 ^ 64 }
    ensures { result ≡ caught_demand reached.now groups.now }
{
    let mut sum = 0;
    for group in groups {
        if arcs_stay_within(reached, &group.arcs) {
            sum += group.demand;
        }
    }
    sum
}

/// The certificate of the flagged servers: what groups ask for that can go nowhere else, in queries, and how many
/// queries the servers take, those of a host no more than its limit. There is a flag for each server. It is None only
/// where one of these two sums is above 10^16.
///
/// # Errors
///
/// An `AllocError` where memory runs out.
pub fn short_certificate(
    alloc: Global,
    numbers: &ServiceNumbers,
    groups: &[RowGroup],
    reached: &[bool],
) -> Result<Option<ShortServers>, AllocError>
    requires arcs { AllByRecursion (HasArcsWithin (length numbers.now.server_hosts.items))
        groups.now }
    requires demands { demand_in groups.now < 2 ^ 64 }
    requires reached { length reached.now ≡ length numbers.now.server_hosts.items }
    requires few { length reached.now ≤ MOST_SERVERS }
    ensures short { IfOk result (λ found.
        IfSome found (IsShortageFor numbers.now groups.now reached.now)) }
    ensures within { IfOk result (λ found. IfSome found (λ short. is_short short ≡ true)) }
    ensures none { IfOk result (λ found.
        IfNone found (IsShortagePast numbers.now groups.now reached.now)) }
{
    let Ok(capacity) = u64::try_from(capacity_of_set(alloc, numbers, reached)?) else {
        return Ok(None);
    };
    let servers = flagged(alloc, reached)?;
    let demand = caught_demand(groups, reached);
    Ok(ShortServers::new(servers, demand, capacity))
}
