// The arcs of an instance, row by row.

ghost use Rattle.std.specs.Prelude.{◌≡◌, ◌≤◌, ◌++◌, ◌*◌, IfOk, OnOk, length, map};
ghost use Rattle.hsp_instance.specs.Instance.{IsInstance};
ghost use Rattle.hsp_check.specs.Index.{IsIndexed, bare_arc};
ghost use Rattle.hsp_check.specs.Instance.{arcs_from};

use crate::arc::NetworkArc;
use crate::sums::ArcFlow;
use hsp_instance::{Arc, Instance, Runs};
use std::alloc::{AllocError, Global};

/// The arcs of a network, none of them used, and the run of each row among them.
#[derive(Drop)]
pub(crate) struct IndexedArcs {
    pub(crate) arc_flows: Vec<ArcFlow>,
    pub(crate) runs: Runs,
}

// Appends the arcs of a row.
fn push_arcs(arc_flows: &mut Vec<ArcFlow>, row: u32, arcs: &[Arc]) -> Result<(), AllocError>
    ensures { OnOk result
        (arc_flows.new.items ≡ arc_flows.old.items ++ map (bare_arc row) arcs.now) }
{
    for arc in arcs {
        let arc = NetworkArc {
            row,
            site: arc.site,
            server: arc.server,
            cost: arc.cost,
        };
        arc_flows.push(ArcFlow { arc, flow: 0 })?;
    }
    Ok(())
}

/// The arcs of all rows in turn.
pub(crate) fn arcs_of(alloc: Global, instance: &Instance) -> Result<IndexedArcs, AllocError>
    ensures arcs { IfOk result (λ arcs.
        IsIndexed instance.now.arcs arcs.arc_flows.items arcs.runs) }
    // The instance is within its limits.
    ensures within { IfOk result (λ _. IsInstance instance.now) }
{
    let mut arc_flows = Vec::with_capacity(alloc, instance.arc_count())?;
    let mut runs = Runs::new(alloc)?;
    for row in 0..instance.rows() {
        push_arcs(&mut arc_flows, row, instance.arcs(row))?;
        runs.end_at(arc_flows.len())?;
    }
    Ok(IndexedArcs { arc_flows, runs })
}
