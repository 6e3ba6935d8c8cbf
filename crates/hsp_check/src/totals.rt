// The sums of a plan that is valid for an instance.

ghost use Rattle.std.specs.Prelude.{IfOk};
ghost use Rattle.hsp_cert.specs.Certificate.{IsBest};
ghost use Rattle.hsp_cert.specs.Certificate.Claim.{best};
ghost use Rattle.hsp_check.specs.Instance.{network_of};
ghost use Rattle.hsp_check.specs.ArcFlows.{AreFlowsOf};
ghost use Rattle.hsp_check.specs.PlanSums.{AreSums};
ghost use Rattle.hsp_check.specs.Reach.{network_in};
ghost use Rattle.hsp_check.specs.Uses.{table};
ghost use Rattle.hsp_check.specs.Valid.{IsValid, IsValidPlan};

use crate::arc_flows::flows_by_uses;
use crate::building::{IndexedNetwork, build_network};
use crate::lists::FlowLists;
use crate::loads::{Loads, loads_of};
use crate::sums::{total_of, worth_of};
use hsp_cert::BestRef;
use hsp_instance::Instance;
use std::alloc::{AllocError, Global};

/// The sums of a plan and of its prices.
#[derive(Drop)]
pub struct PlanSums {
    pub loads: Loads,
    /// What the plan costs.
    pub cost: u128,
    /// What the rows pay: each row's count at its price, added up.
    pub demand_worth: u128,
    /// What servers and hosts take: each capacity and each limit at its price, added up.
    pub capacity_worth: u128,
}

// The sums of a plan on the lists, and of its prices.
fn sums_of(alloc: Global, lists: FlowLists<'_>, plan: &BestRef<'_>) -> Result<PlanSums, AllocError>
    requires arc_flows { AreFlowsOf (table plan.now.uses) lists.arc_flows.now }
    requires valid { IsValidPlan (network_in lists) plan.now }
    ensures { IfOk result (AreSums (network_in lists.entry) plan.now) }
{
    let loads = loads_of(alloc, lists)?;
    let servers = worth_of(lists.capacities, plan.server_prices());
    let hosts = worth_of(lists.limits, plan.host_prices());
    Ok(PlanSums {
        loads,
        cost: total_of(lists.arc_flows),
        demand_worth: worth_of(lists.demands, plan.row_prices()),
        capacity_worth: servers + hosts,
    })
}

/// The sums of a plan to which [`check`](crate::check) says Yes. None of the sums wraps.
///
/// # Errors
///
/// An `AllocError` where memory runs out.
pub fn plan_sums(
    alloc: Global,
    instance: &Instance,
    plan: &BestRef<'_>,
) -> Result<PlanSums, AllocError>
    requires ranges { IsBest plan.now }
    requires valid { IsValid (network_of instance.now) (best plan.now) }
    ensures { IfOk result (AreSums (network_of instance.now) plan.now) }
{
    let IndexedNetwork { numbers, arcs } = build_network(alloc, instance)?;
    let arc_flows = flows_by_uses(arcs, plan.uses()).unwrap();
    sums_of(alloc, numbers.with(&arc_flows), plan)
}
