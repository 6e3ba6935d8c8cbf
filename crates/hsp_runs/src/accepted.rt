// Certificates that are accepted for the instance of inputs.

ghost use Rattle.std.specs.Prelude.{IfOk};
ghost use Rattle.hsp_text.specs.Answers.{Gives};
ghost use Rattle.hsp_check.specs.Instance.{network_of};
ghost use Rattle.hsp_check.specs.Valid.{IsValid};
ghost use Rattle.hsp_runs.specs.Accepted.{IsAccepted, IsAcceptedOf, plan_in, shortage_in};
ghost use Rattle.hsp_runs.specs.Always.{AcceptsAlways, AcceptsClaim};
ghost use Rattle.hsp_inputs.specs.Headline.{Defines};
ghost use Rattle.hsp_runs.specs.Shown.{Holds};
ghost use Rattle.hsp_inputs.specs.Memory.{OrNoMemory};

use crate::checking::{certificate_in, judged};
use hsp_cert::{BestRef, Certificate, ShortRef};
use hsp_check::Verdict;
use hsp_inputs::{Fault, Inputs, instance_in};
use hsp_instance::Instance;
use std::alloc::Global;

/// An instance, and a certificate that is valid for it.
#[derive(Drop)]
pub struct Accepted {
    pub instance: Instance,
    pub certificate: Certificate,
}

impl Accepted {
    /// The plan of the certificate with its prices.
    ///
    /// # Errors
    ///
    /// `WrongKind` where the certificate shows a shortage.
    pub fn plan(&self) -> Result<BestRef<'_>, Fault>
        ensures { Gives (λ plan. plan) result (plan_in self.now.certificate) }
    {
        match self.certificate.as_best() {
            Some(plan) => Ok(plan),
            None => Err(Fault::WrongKind),
        }
    }

    /// The short set of the certificate.
    ///
    /// # Errors
    ///
    /// `WrongKind` where the certificate shows a plan.
    pub fn shortage(&self) -> Result<ShortRef<'_>, Fault>
        ensures { Gives (λ set. set) result (shortage_in self.now.certificate) }
    {
        match self.certificate.as_short() {
            Some(set) => Ok(set),
            None => Err(Fault::WrongKind),
        }
    }
}

// The instance with the certificate, where that is valid for it.
fn accepting(alloc: Global, instance: Instance, certificate: Certificate) -> Result<Accepted, Fault>
    ensures accepted { OrNoMemory (IsAccepted instance certificate) result }
    ensures valid { IfOk result (λ accepted.
        IsValid (network_of accepted.instance) accepted.certificate) }
    ensures holds { IfOk result (λ accepted.
        Holds (network_of accepted.instance) accepted.certificate) }
    ensures always { Holds (network_of instance) certificate → AcceptsClaim certificate result }
{
    match judged(alloc, &instance, &certificate)? {
        Verdict::Yes => Ok(Accepted {
            instance,
            certificate,
        }),
        Verdict::No(reason) => Err(Fault::Refused(reason)),
    }
}

/// The instance of the inputs, and the certificate that the octets spell, which is valid for it.
///
/// # Errors
///
/// In this order: `Settings`, `Values`, `Demand`, `Costs`, `Capacity`, `Build`, `Cert`, `Refused` with the first
/// reason; `OutOfMemory` where memory runs out.
pub fn accepted_in(alloc: Global, inputs: &Inputs, octets: &[u8]) -> Result<Accepted, Fault>
    ensures accepted { OrNoMemory (IsAcceptedOf inputs.now octets.now) result }
    ensures valid { IfOk result (λ accepted.
        IsValid (network_of accepted.instance) accepted.certificate) }
    // The plan is best, or there is no feasible plan.
    ensures holds { IfOk result (λ accepted.
        Holds (network_of accepted.instance) accepted.certificate) }
    // The inputs define the instance.
    ensures defines { IfOk result (λ accepted. Defines inputs.now accepted.instance) }
    // Where they define one, and the octets spell a certificate that holds for it, it is accepted, or memory runs out.
    ensures always { AcceptsAlways inputs.now octets.now result }
{
    let instance = instance_in(alloc, inputs)?;
    let certificate = certificate_in(alloc, octets)?;
    accepting(alloc, instance, certificate)
}
