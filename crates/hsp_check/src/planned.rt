// The arcs of an instance with what a plan gives them.

ghost use Rattle.std.specs.Prelude.{IfOk};
ghost use Rattle.hsp_cert.specs.Certificate.{IsBest};
ghost use Rattle.hsp_cert.specs.Certificate.Claim.{best};
ghost use Rattle.hsp_check.specs.Instance.{network_of};
ghost use Rattle.hsp_check.specs.Planned.{ArePlanned};
ghost use Rattle.hsp_check.specs.Uses.{table};
ghost use Rattle.hsp_check.specs.Valid.{IsValid};

use crate::arc_flows::flows_by_uses;
use crate::building::build_network;
use crate::sums::ArcFlow;
use hsp_cert::BestRef;
use hsp_instance::Instance;
use std::alloc::{AllocError, Global};

/// The arcs of an instance, row by row, each with what the plan gives it. The plan is one to which
/// [`check`](crate::check) says Yes.
///
/// # Errors
///
/// An `AllocError` where memory runs out.
pub fn planned_arcs(
    alloc: Global,
    instance: &Instance,
    plan: &BestRef<'_>,
) -> Result<Vec<ArcFlow>, AllocError>
    requires ranges { IsBest plan.now }
    requires valid { IsValid (network_of instance.now) (best plan.now) }
    ensures { IfOk result (λ arc_flows.
        ArePlanned instance.now (table plan.now.uses) arc_flows.items) }
{
    let network = build_network(alloc, instance)?;
    Ok(flows_by_uses(network.arcs, plan.uses()).unwrap())
}
