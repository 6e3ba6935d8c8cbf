// Residual arcs: an arc with a direction. Along the arc, its capacity is what is left of the capacity of the arc.
// Against it, its capacity is what flows on the arc.

ghost use Rattle.std.specs.Prelude.{◌≡◌, ◌+◌, ◌<◌, length};
ghost use Rattle.hsp_network.specs.Index.{AreChains};
ghost use Rattle.hsp_network.specs.Residual.{ends, from, gives, nodes, prices, takes, to, width};
ghost use Rattle.hsp_network.specs.Search.{Ready};

use crate::arcs::{Arcs, Chains, Flow};

/// The chains of the arcs over which the residual arcs of a direction leave each node.
pub fn chains<'a>(arcs: &Arcs<'a>, along: bool) -> Chains<'a>
    ensures { AreChains (nodes arcs.now) (ends arcs.now along) result.lasts.now
        result.before.now }
{
    if along {
        Chains {
            lasts: arcs.last_leaving,
            before: arcs.before_leaving,
        }
    } else {
        Chains {
            lasts: arcs.last_entering,
            before: arcs.before_entering,
        }
    }
}

/// The node that a residual arc enters.
pub fn arc_head(arcs: &Arcs, arc: usize, along: bool) -> u32
    requires { arc < length arcs.now.tails.now }
    ensures { result ≡ to arcs.now arc along }
{
    if along {
        arcs.heads[arc]
    } else {
        arcs.tails[arc]
    }
}

/// The node that a residual arc leaves.
pub fn arc_tail(arcs: &Arcs, arc: usize, along: bool) -> u32
    requires { arc < length arcs.now.tails.now }
    ensures { result ≡ from arcs.now arc along }
{
    if along {
        arcs.tails[arc]
    } else {
        arcs.heads[arc]
    }
}

/// The capacity of a residual arc.
pub fn capacity(flow: &Flow, arc: usize, along: bool) -> u64
    requires flows_in { arc < length flow.now.flows.now }
    requires residual_in { arc < length flow.now.residual_capacity.now }
    ensures { result ≡ width flow.now arc along }
{
    if along {
        flow.residual_capacity[arc]
    } else {
        flow.flows[arc]
    }
}

/// The reduced cost of a residual arc that has capacity.
pub fn reduced_cost(arcs: &Arcs, flow: &Flow, arc: usize, along: bool) -> u64
    requires ready { Ready arcs.now flow.now }
    requires arc_there { arc < length arcs.now.tails.now }
    requires wide { 0 < width flow.now arc along }
    ensures { result + gives arcs.now (prices flow.now) arc along
        ≡ takes arcs.now (prices flow.now) arc along }
{
    let tail = flow.price[arcs.tails[arc] as usize];
    let head = arcs.costs[arc] + flow.price[arcs.heads[arc] as usize];
    if along { head - tail } else { tail - head }
}
