// The search for shortest paths by reduced costs, up to the sink (Dijkstra; Network Flows, section 4.5).

ghost use Rattle.std.specs.Prelude.{◌≡◌, ◌≢◌, ℕ, ◌+◌, ◌*◌, ◌<◌, ◌≤◌, ◌^◌, Bool, true, false, length, slice_index, OnOk};
ghost use Rattle.std.specs.Prelude.{IfOk, IsTrue};
ghost use Rattle.hsp_network.specs.Residual.{nodes};
ghost use Rattle.hsp_network.specs.Search.{Begun, Blank, Closed, Covers, Expanding, Found, Ready, Spread};

use crate::arcs::{Arcs, Flow, Progress, SearchTree, Visit, Ways};
use crate::expand::offer_ways;
use crate::frontier::Frontier;
use std::alloc::AllocError;

/// Starts a search at the node `root`, for up to `amount`.
pub fn begin<F: Frontier>(
    frontier: &mut F,
    arcs: &Arcs,
    tree: &mut SearchTree,
    root: u32,
    amount: u64,
) -> Result<(), AllocError>
    requires root_in { root < nodes arcs.now }
    requires blank { Blank arcs.now tree.old }
    requires count { nodes arcs.now ≤ F.node_count frontier.old }
    ensures covers { OnOk result (Covers arcs.now tree.new) }
    ensures ok { OnOk result (Begun tree.new (F.held frontier.new) root amount) }
    ensures count { F.node_count frontier.new ≡ F.node_count frontier.old }
{
    frontier.clear();
    frontier.put(root, 0)?;
    let node = root as usize;
    tree.distance[node] = 0;
    tree.amount[node] = amount;
    tree.depth[node] = 0;
    Ok(())
}

/// Offers all ways on from a node that is settled.
pub fn expand<F: Frontier>(
    frontier: &mut F,
    arcs: &Arcs,
    flow: &Flow,
    tree: &mut SearchTree,
    at: Visit,
) -> Result<(), AllocError>
    requires ready { Ready arcs.now flow.now }
    requires expanding { Expanding arcs.now flow.now tree.old (F.held frontier.old) at (λ _ _. ⊥) }
    requires far { at.distance + arcs.now.longest_arc < u64.MAX }
    requires turns { at.turn + 1 < u64.MAX }
    requires count { nodes arcs.now ≤ F.node_count frontier.old }
    ensures ok { OnOk result (Expanding arcs.now flow.now tree.new (F.held frontier.new) at
        (λ _ _. Unit {0})) }
    ensures spread { OnOk result (Spread arcs.now flow.now tree.old at.root at.turn
        → Spread arcs.now flow.now tree.new at.root (at.turn + 1)) }
    ensures count { F.node_count frontier.new ≡ F.node_count frontier.old }
{
    let along = Ways { at, along: true };
    offer_ways(frontier, arcs, flow, tree, along)?;
    let back = Ways { at, along: false };
    offer_ways(frontier, arcs, flow, tree, back)?;
    Ok(())
}

/// Whether the sink can be reached from the node `root`. If it can, the tree has a shortest path to it.
pub fn search<F: Frontier>(
    frontier: &mut F,
    arcs: &Arcs,
    flow: &Flow,
    progress: &mut Progress,
    root: u32,
) -> Result<bool, AllocError>
    requires ready { Ready arcs.now flow.now }
    requires blank { Blank arcs.now progress.old.tree }
    requires root_in { root < nodes arcs.now }
    requires away { root ≢ 0 }
    requires excess { 0 < slice_index flow.now.excess.now root }
    requires count { nodes arcs.now ≤ F.node_count frontier.old }
    ensures covers { OnOk result (Covers arcs.now progress.new.tree) }
    ensures found { IfOk result (λ yes. IsTrue yes
        → Found arcs.now flow.now progress.new.tree root) }
    ensures spread { IfOk result (λ yes. IsTrue yes
        → Spread arcs.now flow.now progress.new.tree root (nodes arcs.now)) }
    ensures none { IfOk result (λ yes. yes ≡ false
        → Closed arcs.now flow.now progress.new.tree root) }
    ensures count { F.node_count frontier.new ≡ F.node_count frontier.old }
{
    let amount = flow.excess[root as usize];
    begin(frontier, arcs, &mut progress.tree, root, amount)?;
    progress.effort.searches = progress.effort.searches.saturating_add(1);
    for turn in 0..arcs.supplies.len() {
        let Some((node, distance)) = frontier.take_least() else {
            return Ok(false);
        };
        if node == 0 {
            return Ok(true);
        }
        progress.effort.settled = progress.effort.settled.saturating_add(1);
        let at = Visit {
            root,
            node,
            distance,
            turn,
        };
        expand(frontier, arcs, flow, &mut progress.tree, at)?;
    }
    Ok(false)
}
