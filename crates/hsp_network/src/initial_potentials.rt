// The prices before any flow: no arc has a negative reduced cost under them, so the first searches find near servers
// at once.

ghost use Rattle.std.specs.Prelude.{◌≡◌, ◌<◌, IfOk, length};
ghost use Rattle.hsp_network.specs.InitialPotentials.{AreInitialPotentials, LeastCost};
ghost use Rattle.hsp_network.specs.Residual.{nodes};

use crate::arcs::Arcs;
use crate::residual::chains;
use std::alloc::{AllocError, Global};

/// The least cost of an arc that leaves the node, or 0 where no arc does.
fn least_cost(arcs: &Arcs, node: usize) -> u64
    requires { node < nodes arcs.now }
    ensures { LeastCost arcs.now.tails.now arcs.now.costs.now node result }
{
    let leaving = chains(arcs, true);
    let mut last = leaving.lasts[node];
    if last == 0 {
        return 0;
    }
    let mut least = arcs.costs[last - 1];
    while last > 0 {
        let arc = last - 1;
        least = least.min(arcs.costs[arc]);
        last = leaving.before[arc];
    }
    least
}

/// The price of each node before any flow: the least cost of an arc that leaves it.
pub(crate) fn initial_potentials(alloc: Global, arcs: &Arcs) -> Result<Vec<u64>, AllocError>
    ensures { IfOk result (λ price. AreInitialPotentials
        (nodes arcs.now) arcs.now.tails.now arcs.now.costs.now price.items) }
{
    let mut price = Vec::new(alloc);
    for node in 0..arcs.supplies.len() {
        price.push(least_cost(arcs, node))?;
    }
    Ok(price)
}
