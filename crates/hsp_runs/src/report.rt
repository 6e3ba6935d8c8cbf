// Reports of certificates.

ghost use Rattle.hsp_check.specs.Instance.{network_of};
ghost use Rattle.hsp_check.specs.Valid.{IsValid};
ghost use Rattle.hsp_runs.specs.Report.{IsReport, IsReported};
ghost use Rattle.hsp_text.specs.Answers.{Stands};

use crate::accepted::{Accepted, accepted_in};
use hsp_inputs::{Fault, Inputs};
use hsp_report::{ReportKind, load_report, region_report, shortage_report};
use std::alloc::Global;

// The report of a valid certificate.
fn reported(alloc: Global, accepted: &Accepted, kind: ReportKind) -> Result<Vec<u8>, Fault>
    requires { IsValid (network_of accepted.now.instance) accepted.now.certificate }
    ensures { Stands Fault.OutOfMemory (λ text. text.items) (IsReport kind accepted.now) result }
{
    let (instance, certificate) = (&accepted.instance, &accepted.certificate);
    match kind {
        ReportKind::Load => {
            let _plan = accepted.plan()?;
            Ok(load_report(alloc, instance, certificate)?)
        }
        ReportKind::Region => {
            let _plan = accepted.plan()?;
            Ok(region_report(alloc, instance, certificate)?)
        }
        ReportKind::Shortage => {
            let _set = accepted.shortage()?;
            Ok(shortage_report(alloc, instance, certificate)?)
        }
    }
}

/// The report of the certificate that the octets of `certificate` spell.
///
/// # Errors
///
/// In this order: those of the inputs (`Settings`, `Values`, `Demand`, `Costs`, `Capacity`, `Build`), `Cert`, `Refused`
/// with the first reason, and `WrongKind` for `Load` or `Region` of a shortage and for `Shortage` of a plan;
/// `OutOfMemory` where memory runs out.
pub fn report_run(
    alloc: Global,
    inputs: &Inputs,
    certificate: &[u8],
    kind: ReportKind,
) -> Result<Vec<u8>, Fault>
    ensures { Stands Fault.OutOfMemory (λ text. text.items)
        (IsReported inputs.now certificate.now kind) result }
{
    let accepted = accepted_in(alloc, inputs, certificate)?;
    reported(alloc, &accepted, kind)
}
