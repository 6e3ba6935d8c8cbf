// The verdict on a certificate.

ghost use Rattle.std.specs.Prelude.{◌≡◌, IfOk};
ghost use Rattle.hsp_check.specs.Instance.{network_of};
ghost use Rattle.hsp_check.specs.declared.verdict.Verdict.TheVariants.{Yes};
ghost use Rattle.hsp_runs.specs.Check.{IsCertificate, IsChecked, IsVerdict, IsVerdictOn};
ghost use Rattle.hsp_runs.specs.Always.{ReadsAlways};
ghost use Rattle.hsp_runs.specs.Shown.{SaysYesAlways, ShowsOf, Holds, Shows};
ghost use Rattle.hsp_inputs.specs.Memory.{IsOrNoMemory, OrNoMemory};

use hsp_cert::{Certificate, read_cert};
use hsp_check::{Verdict, check};
use hsp_inputs::{Fault, Inputs, instance_in, named};
use hsp_instance::Instance;
use std::alloc::Global;

/// The certificate that octets spell.
pub(crate) fn certificate_in(alloc: Global, octets: &[u8]) -> Result<Certificate, Fault>
    ensures certificate { OrNoMemory (IsCertificate octets.now) result }
    // Where they spell one it is this one, or memory runs out.
    ensures always { ReadsAlways octets.now result }
{
    named(read_cert(alloc, octets), Fault::Cert)
}

/// The verdict on a certificate.
pub(crate) fn judged(
    alloc: Global,
    instance: &Instance,
    certificate: &Certificate,
) -> Result<Verdict, Fault>
    ensures verdict { OrNoMemory (IsVerdict instance.now certificate.now) result }
    ensures holds { IfOk result (λ verdict. verdict ≡ Yes
        → Holds (network_of instance.now) certificate.now) }
    ensures always { Holds (network_of instance.now) certificate.now
        → IsOrNoMemory Yes result }
{
    Ok(check(alloc, instance, certificate)?)
}

// The verdict on the certificate that octets spell.
fn judged_text(alloc: Global, instance: &Instance, octets: &[u8]) -> Result<Verdict, Fault>
    ensures verdict { OrNoMemory (IsVerdictOn octets.now instance.now) result }
    ensures shows { IfOk result (λ verdict. verdict ≡ Yes → Shows octets.now instance.now) }
    ensures always { Shows octets.now instance.now → IsOrNoMemory Yes result }
{
    let certificate = certificate_in(alloc, octets)?;
    judged(alloc, instance, &certificate)
}

/// Whether the text is that of a certificate which is valid for the instance of the inputs, and otherwise the first
/// reason why it isn't. Where the inputs define an instance, and the text is that of a certificate that holds for it,
/// the verdict is Yes, unless memory runs out.
///
/// # Errors
///
/// In this order: `Settings`, `Values`, `Demand`, `Costs`, `Capacity`, `Build`, `Cert`; `OutOfMemory` where memory runs
/// out.
pub fn check_run(alloc: Global, inputs: &Inputs, cert: &[u8]) -> Result<Verdict, Fault>
    ensures verdict { OrNoMemory (IsChecked inputs.now cert.now) result }
    // Yes means that the certificate's plan is best, or that there is no feasible plan.
    ensures shows { IfOk result (λ verdict. verdict ≡ Yes → ShowsOf inputs.now cert.now) }
    // And every such certificate gets a Yes, unless memory runs out.
    ensures exactly { SaysYesAlways inputs.now cert.now result }
{
    let instance = instance_in(alloc, inputs)?;
    judged_text(alloc, &instance, cert)
}
