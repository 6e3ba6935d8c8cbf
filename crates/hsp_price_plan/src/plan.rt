// The certificate of a plan, by a flow over groups with its prices.

ghost use Rattle.std.specs.Prelude.{◌≡◌, ◌<◌, ◌-◌, ◌^◌, true, IfNone, IfOk, IfSome, length};
ghost use Rattle.std.specs.List.{AllByRecursion};
ghost use Rattle.hsp_network.specs.Answer.{IsMet};
ghost use Rattle.hsp_price_text.specs.Claim.{is_best};
ghost use Rattle.hsp_price_plan.specs.PlanOfGroups.{IsPlanFor, IsPlanPast};
ghost use Rattle.hsp_price_plan.specs.Pressing.{HasTextPrices};
ghost use Rattle.hsp_price_plan.specs.Solving.{HasArcsWithin, demand_in, group_network};

use crate::classes::classes_of;
use crate::cost::flow_cost;
use crate::group::RowGroup;
use hsp_network::PricedFlow;
use hsp_price_check::{ServiceNumbers, prices_with_hosts};
use hsp_price_text::PricedPlan;
use std::alloc::{AllocError, Global};

/// The plan of a flow over the arcs of groups, group by group: the flow's prices, the classes of the groups and the
/// cost of the flow. It is None only where it is past the limits of a certificate's text.
///
/// # Errors
///
/// An `AllocError` where memory runs out.
pub fn plan_certificate(
    alloc: Global,
    numbers: &ServiceNumbers,
    groups: &[RowGroup],
    flow: PricedFlow,
) -> Result<Option<PricedPlan>, AllocError>
    requires arcs { AllByRecursion (HasArcsWithin (length numbers.now.server_hosts.items))
        groups.now }
    requires demands { demand_in groups.now < 2 ^ 64 - 1 }
    requires met { IsMet (group_network numbers.now groups.now) flow }
    requires low { HasTextPrices flow }
    ensures plan { IfOk result (λ found. IfSome found (IsPlanFor numbers.now groups.now flow)) }
    ensures within { IfOk result (λ found. IfSome found (λ plan. is_best plan ≡ true)) }
    ensures none { IfOk result (λ found. IfNone found (IsPlanPast numbers.now groups.now flow)) }
{
    let cost = flow_cost(groups, &flow.flows);
    let extras = prices_with_hosts(
        alloc,
        &numbers.server_hosts,
        &flow.server_prices,
        &flow.host_prices,
    )?;
    let classes = classes_of(alloc, groups, &extras, &flow.flows)?;
    let Ok(cost) = u64::try_from(cost) else {
        return Ok(None);
    };
    Ok(PricedPlan::new(cost, flow.server_prices, flow.host_prices, classes))
}
