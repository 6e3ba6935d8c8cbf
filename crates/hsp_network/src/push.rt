// A push of flow over one residual arc.

ghost use Rattle.std.specs.Prelude.{◌≡◌, ◌<◌, ◌≤◌, length};
ghost use Rattle.hsp_network.specs.Residual.{IsBalanced, Pushes, width};

use crate::arcs::{Arcs, Flow};

/// Pushes `amount` over a residual arc.
pub fn push(arcs: &Arcs, flow: &mut Flow, arc: usize, along: bool, amount: u64)
    requires arc_there { arc < length arcs.now.tails.now }
    requires flows_many { length flow.old.flows.now ≡ length arcs.now.tails.now }
    requires residual_many { length flow.old.residual_capacity.now ≡ length arcs.now.tails.now }
    requires balanced { IsBalanced arcs.now flow.old arc }
    requires fits { amount ≤ width flow.old arc along }
    ensures { Pushes arcs.now flow.old flow.new arc along amount }
{
    let capacity = arcs.capacities[arc];
    let left = if along {
        flow.residual_capacity[arc] - amount
    } else {
        capacity - (flow.flows[arc] - amount)
    };
    flow.residual_capacity[arc] = left;
    flow.flows[arc] = capacity - left;
}
