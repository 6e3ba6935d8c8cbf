// The ways on from a node that is settled: residual arcs along the arcs that leave it, and against those that enter
// it.

ghost use Rattle.std.specs.Prelude.{◌≡◌, ℕ, ◌+◌, ◌<◌, ◌≤◌, length, OnOk};
ghost use Rattle.hsp_network.specs.Residual.{from, nodes, width};
ghost use Rattle.hsp_network.specs.Search.{Covers, Earlier, Expanding, IsWay, Looked, Ready, Widens};

use crate::arcs::{Arcs, Flow, Offer, SearchTree, Ways};
use crate::frontier::Frontier;
use crate::relax::relax;
use crate::residual::{arc_head, capacity, chains, reduced_cost};
use std::alloc::AllocError;

/// The way over a residual arc that leaves the node and is not full.
fn offer_over(arcs: &Arcs, flow: &Flow, tree: &SearchTree, ways: Ways, arc: usize) -> Offer
    requires ready { Ready arcs.now flow.now }
    requires covers { Covers arcs.now tree.now }
    requires arc_there { arc < length arcs.now.tails.now }
    requires leaves { from arcs.now arc ways.along ≡ ways.at.node }
    requires wide { 0 < width flow.now arc ways.along }
    requires far { ways.at.distance + arcs.now.longest_arc < u64.MAX }
    ensures { IsWay arcs.now flow.now tree.now ways.at arc ways.along result }
{
    let at = ways.at;
    let greatest_cost = capacity(flow, arc, ways.along);
    Offer {
        arc,
        from: at.node,
        to: arc_head(arcs, arc, ways.along),
        distance: at.distance + reduced_cost(arcs, flow, arc, ways.along),
        amount: tree.amount[at.node as usize].min(greatest_cost),
    }
}

/// Offers the ways on in one direction.
pub fn offer_ways<F: Frontier>(
    frontier: &mut F,
    arcs: &Arcs,
    flow: &Flow,
    tree: &mut SearchTree,
    ways: Ways,
) -> Result<(), AllocError>
    requires ready { Ready arcs.now flow.now }
    requires expanding { Expanding arcs.now flow.now tree.old (F.held frontier.old) ways.at
        (Earlier ways.along) }
    requires far { ways.at.distance + arcs.now.longest_arc < u64.MAX }
    requires turns { ways.at.turn + 1 < u64.MAX }
    requires count { nodes arcs.now ≤ F.node_count frontier.old }
    ensures ok { OnOk result (Expanding arcs.now flow.now tree.new (F.held frontier.new) ways.at
        (Looked ways.along)) }
    ensures priced { OnOk result (Widens arcs.now flow.now tree.old tree.new ways) }
    ensures count { F.node_count frontier.new ≡ F.node_count frontier.old }
{
    let chains = chains(arcs, ways.along);
    let mut last = chains.lasts[ways.at.node as usize];
    while last > 0 {
        let arc = last - 1;
        if capacity(flow, arc, ways.along) > 0 {
            let offer = offer_over(arcs, flow, tree, ways, arc);
            relax(frontier, tree, offer)?;
        }
        last = chains.before[arc];
    }
    Ok(())
}
