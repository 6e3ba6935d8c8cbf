// What a flow over groups costs.

ghost use Rattle.std.specs.Prelude.{◌≡◌, length};
ghost use Rattle.hsp_prices.specs.Solved.{cost_of};
ghost use Rattle.hsp_price_check.specs.Passed.{capped};
ghost use Rattle.hsp_price_plan.specs.PlanOfGroups.{arcs_cost};
ghost use Rattle.hsp_price_plan.specs.Solving.{arcs_in};

use crate::group::RowGroup;
use hsp_instance::Arc;

// What flows over arcs cost. Sums above 2^128 - 1 are kept as that.
fn arcs_cost(arcs: &[Arc], flows: &[u64]) -> u128
    ensures { result ≡ capped (arcs_cost arcs.now flows.now) }
{
    let mut sum: u128 = 0;
    for (arc, flow) in arcs.iter().zip(flows) {
        sum = sum.saturating_add(u128::from(arc.cost) * u128::from(*flow));
    }
    sum
}

/// What a flow over the arcs of groups, group by group, costs. Sums above 2^128 - 1 are kept as that.
pub(crate) fn flow_cost(groups: &[RowGroup], flows: &[u64]) -> u128
    requires { length flows.now ≡ arcs_in groups.now }
    ensures { result ≡ capped (cost_of groups.now flows.now) }
{
    let mut sum: u128 = 0;
    let mut begin = 0;
    for group in groups {
        let end = begin + group.arcs.len();
        sum = sum.saturating_add(arcs_cost(&group.arcs, &flows[begin..end]));
        begin = end;
    }
    sum
}
