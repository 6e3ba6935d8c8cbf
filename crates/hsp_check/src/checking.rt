// The check of a certificate.

ghost use Rattle.std.specs.Prelude.{◌≡◌, ◌↔◌, IfOk};
ghost use Rattle.hsp_check.specs.declared.verdict.Verdict.TheVariants.{Yes};
ghost use Rattle.hsp_check.specs.Instance.{network_of};
ghost use Rattle.hsp_check.specs.Shown.{AtYes, HasBestPlan, HasEqualSums, HasNoPlan, HasShortSet};
ghost use Rattle.hsp_check.specs.Valid.{IsValid};
ghost use Rattle.hsp_check.specs.Verdict.{IsVerdict};

use crate::building::{IndexedNetwork, build_network};
use crate::plan_check::check_plan;
use crate::set_check::check_set;
use crate::verdict::Verdict;
use hsp_cert::Certificate;
use hsp_instance::Instance;
use std::alloc::{AllocError, Global};

/// Judges whether the certificate is valid for the instance: Yes, or No with the first reason why it isn't.
///
/// Yes to a plan means that it is best. Yes to a short set means that there is no feasible plan.
///
/// ```
/// // The instance is that of the example of `hsp_instance::build`.
/// let text = b"HSPLAN 1\nPLAN\ncost 17\nuse 0 0 5\nuse 1 0 4\nuse 2 0 1\nuse 2 1 2\nrow 0 2\nrow 1 1\nrow 2 3\n\
///     server 0 0\nserver 1 1\nserver 2 0\nserver 3 0\nserver 4 0\nEND\n";
/// let certificate = read_cert(alloc, text)?;
/// assert!(rt; check(alloc, &instance, &certificate)? == Verdict::Yes);
/// ```
///
/// # Errors
///
/// An `AllocError` where memory runs out.
pub fn check(
    alloc: Global,
    instance: &Instance,
    certificate: &Certificate,
) -> Result<Verdict, AllocError>
    ensures verdict { IfOk result (IsVerdict (network_of instance.now) certificate.now) }
    ensures valid { IfOk result (λ verdict.
        (verdict ≡ Yes) ↔ IsValid (network_of instance.now) certificate.now) }

    // The plan of the uses is best: no feasible plan costs less.
    ensures best { IfOk result (AtYes (HasBestPlan (network_of instance.now) certificate.now)) }

    // What the rows pay is the cost and what servers and hosts take.
    ensures prices { IfOk result (AtYes (HasEqualSums (network_of instance.now) certificate.now)) }

    // The rows ask for more than all that they can reach, and no plan is feasible.
    ensures short { IfOk result (AtYes (HasShortSet (network_of instance.now) certificate.now)) }
    ensures none { IfOk result (AtYes (HasNoPlan (network_of instance.now) certificate.now)) }
{
    let IndexedNetwork { numbers, arcs } = build_network(alloc, instance)?;
    match certificate.as_best() {
        Some(plan) => check_plan(alloc, &numbers, arcs, &plan),
        None => {
            let set = certificate.as_short().unwrap();
            check_set(alloc, numbers.with(&arcs.arc_flows), &set)
        }
    }
}
