// The check of a plan.

ghost use Rattle.std.specs.Prelude.{◌<◌, ◌^◌, ◌↔◌, length, IfOk, IsTrue};
ghost use Rattle.hsp_cert.specs.Certificate.{IsBest};
ghost use Rattle.hsp_cert.specs.Certificate.Claim.{best};
ghost use Rattle.hsp_check.specs.declared.verdict.Reason.TheVariants.{Shape, NoSuchUse};
ghost use Rattle.hsp_check.specs.Network.{AreCheap, IsNetwork};
ghost use Rattle.hsp_check.specs.Uses.{table};
ghost use Rattle.hsp_check.specs.Index.{AreBare, AreByRow};
ghost use Rattle.hsp_check.specs.Judged.{IsShaped};
ghost use Rattle.hsp_check.specs.ArcFlows.{AreFlowsOf};
ghost use Rattle.hsp_check.specs.Reach.{network_in, network_with};
ghost use Rattle.hsp_check.specs.Verdict.{IsVerdict, PlanMeets};

use crate::arc_flows::flows_by_uses;
use crate::indexing::IndexedArcs;
use crate::judging::NetworkPlan;
use crate::lists::FlowLists;
use crate::loads::loads_of;
use crate::numbers::NetworkNumbers;
use crate::prices::PriceLists;
use crate::verdict::{Reason, Verdict};
use hsp_cert::BestRef;
use std::alloc::{AllocError, Global};

// Whether there are as many prices as rows, as servers and as hosts.
fn is_shaped(numbers: &NetworkNumbers, plan: &BestRef<'_>) -> bool
    ensures { IsTrue result ↔ IsShaped numbers.now plan.now }
{
    plan.row_prices().len() == numbers.demands.len()
        && plan.server_prices().len() == numbers.capacities.len()
        && plan.host_prices().len() == numbers.limits.len()
}

// The verdict on a plan whose uses are the flows of the arcs.
fn judge<'a>(alloc: Global, lists: FlowLists<'a>, plan: &BestRef<'a>) -> Result<Verdict, AllocError>
    requires ranges { IsBest plan.now }
    requires shape { PlanMeets (network_in lists) plan.now Shape }
    requires uses { PlanMeets (network_in lists) plan.now NoSuchUse }
    requires arc_flows { AreFlowsOf (table plan.now.uses) lists.arc_flows.now }
    ensures { IfOk result (λ verdict. IsVerdict (network_in lists.entry) (best plan.now) verdict) }
{
    let loads = loads_of(alloc, lists)?;
    let prices = PriceLists {
        rows: plan.row_prices(),
        servers: plan.server_prices(),
        hosts: plan.host_prices(),
        server_hosts: lists.server_hosts,
    };
    let arc_flows = NetworkPlan {
        lists,
        prices,
        cost: plan.cost(),
        uses: plan.uses(),
        loads: &loads,
    };
    Ok(arc_flows.verdict())
}

/// The verdict on the certificate of a plan.
pub(crate) fn check_plan(
    alloc: Global,
    numbers: &NetworkNumbers,
    arcs: IndexedArcs,
    plan: &BestRef<'_>,
) -> Result<Verdict, AllocError>
    requires network { IsNetwork (network_with numbers.now arcs.arc_flows.items) }
    requires index { AreByRow arcs }
    requires bare { AreBare arcs.arc_flows.items }
    requires cheap { AreCheap (network_with numbers.now arcs.arc_flows.items) }
    requires few { length arcs.arc_flows.items < 2 ^ 32 }
    requires ranges { IsBest plan.now }
    ensures { IfOk result
        (IsVerdict (network_with numbers.now arcs.arc_flows.items) (best plan.now)) }
{
    if !is_shaped(numbers, plan) {
        return Ok(Verdict::No(Reason::Shape));
    }
    let Some(arc_flows) = flows_by_uses(arcs, plan.uses()) else {
        return Ok(Verdict::No(Reason::NoSuchUse));
    };
    judge(alloc, numbers.with(&arc_flows), plan)
}
