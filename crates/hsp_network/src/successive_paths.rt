// Successive shortest paths from one source, until nothing is left to send (Network Flows, section 9.7).

ghost use Rattle.std.specs.Prelude.{◌≡◌, ◌≢◌, ℕ, ◌+◌, ◌*◌, ◌<◌, ◌≤◌, ◌^◌, length, slice_index, OnOk, IfOk, IfNone};
ghost use Rattle.std.specs.Prelude.{IfSome, IsTrue, false};
ghost use Rattle.hsp_network.specs.Residual.{nodes};
ghost use Rattle.hsp_network.specs.Search.{AreAllMet, Blank, HasStuckSource, LeavesOthers, Ready, Stuck};

use crate::arcs::{Arcs, Flow, Progress};
use crate::augment::augment;
use crate::frontier::Frontier;
use crate::search::search;
use crate::update_potentials::update_potentials;
use std::alloc::AllocError;

/// Meets some more of the source `root`, and returns whether that was possible.
pub fn meet_some<F: Frontier>(
    frontier: &mut F,
    arcs: &Arcs,
    flow: &mut Flow,
    progress: &mut Progress,
    root: u32,
) -> Result<bool, AllocError>
    requires ready { Ready arcs.now flow.old }
    requires blank { Blank arcs.now progress.old.tree }
    requires root_in { root < nodes arcs.now }
    requires away { root ≢ 0 }
    requires excess { 0 < slice_index flow.old.excess.now root }
    requires count { nodes arcs.now ≤ F.node_count frontier.old }
    ensures ready { OnOk result (Ready arcs.now flow.new) }
    ensures blank { IfOk result (λ yes. IsTrue yes → Blank arcs.now progress.new.tree) }
    ensures less { IfOk result (λ yes. IsTrue yes → slice_index flow.new.excess.now root
        < slice_index flow.old.excess.now root) }
    ensures others { OnOk result (LeavesOthers flow.old flow.new root) }
    ensures stuck { IfOk result (λ yes. yes ≡ false
        → Stuck arcs.now flow.new progress.new.tree root) }
    ensures count { F.node_count frontier.new ≡ F.node_count frontier.old }
{
    if !search(frontier, arcs, flow, progress, root)? {
        return Ok(false);
    }
    let reach = progress.tree.distance[0];
    let amount = progress.tree.amount[0];
    augment(arcs, flow, &progress.tree, root, amount);
    update_potentials(flow.price, progress.tree.distance, reach);
    progress.effort.augmentations = progress.effort.augmentations.saturating_add(1);
    Ok(true)
}

/// Meets the source `root` whole, and returns whether that was possible.
pub fn meet_source<F: Frontier>(
    frontier: &mut F,
    arcs: &Arcs,
    flow: &mut Flow,
    progress: &mut Progress,
    root: u32,
) -> Result<bool, AllocError>
    requires ready { Ready arcs.now flow.old }
    requires blank { Blank arcs.now progress.old.tree }
    requires root_in { root < nodes arcs.now }
    requires away { root ≢ 0 }
    requires count { nodes arcs.now ≤ F.node_count frontier.old }
    ensures ready { OnOk result (Ready arcs.now flow.new) }
    ensures blank { IfOk result (λ yes. IsTrue yes → Blank arcs.now progress.new.tree) }
    ensures met { IfOk result (λ yes. IsTrue yes → slice_index flow.new.excess.now root ≡ 0) }
    ensures others { OnOk result (LeavesOthers flow.old flow.new root) }
    ensures stuck { IfOk result (λ yes. yes ≡ false
        → Stuck arcs.now flow.new progress.new.tree root) }
    ensures count { F.node_count frontier.new ≡ F.node_count frontier.old }
{
    while flow.excess[root as usize] > 0 {
        if !meet_some(frontier, arcs, flow, progress, root)? {
            return Ok(false);
        }
    }
    Ok(true)
}

/// Meets every source whole, or stops at one that can't be met. Returns whether all are met.
pub fn meet_all<F: Frontier>(
    frontier: &mut F,
    arcs: &Arcs,
    flow: &mut Flow,
    progress: &mut Progress,
) -> Result<bool, AllocError>
    requires ready { Ready arcs.now flow.old }
    requires blank { Blank arcs.now progress.old.tree }
    requires first_in { arcs.now.first ≤ nodes arcs.now }
    requires away { 0 < arcs.now.first }
    requires count { nodes arcs.now ≤ F.node_count frontier.old }
    ensures ready { OnOk result (Ready arcs.now flow.new) }
    ensures met { IfOk result (λ met. IsTrue met → AreAllMet arcs.now flow.new) }
    ensures stuck { IfOk result (λ met. met ≡ false
        → HasStuckSource arcs.now flow.new progress.new.tree) }
{
    for root in arcs.first..arcs.supplies.len() as u32 {
        if !meet_source(frontier, arcs, flow, progress, root)? {
            return Ok(false);
        }
    }
    Ok(true)
}
