// Plans, as the program prints them.

ghost use Rattle.std.specs.Prelude.{◌≡◌, IfOk};
ghost use Rattle.hsp_cert.specs.Certificate.{IsCertificate};
ghost use Rattle.hsp_runs.specs.Shown.{PlansAlways, ShowsOf, Shows};
ghost use Rattle.hsp_runs.specs.Plan.{IsPlanText, IsPlanned, printed};
ghost use Rattle.hsp_inputs.specs.Memory.{OrNoMemory};

use hsp_cert::{Certificate, write_cert};
use hsp_flow::solve;
use hsp_inputs::{Fault, Inputs, instance_in};
use hsp_instance::Instance;
use std::alloc::{AllocError, Global};
use std::marker::Model;

/// The text of the certificate of a plan, or of a shortage where there is no plan.
#[derive(Drop)]
pub struct PlanText {
    bytes: Vec<u8>,
    is_short: bool,
}

impl Model for PlanText {
    ghost use Rattle.hsp_runs.specs.Plan.{Printed};

    ghost Value = { Printed };

    ghost view = { λ text. record { octets = text.bytes.items; is_short = text.is_short } };
}

impl PlanText {
    /// The octets of the text.
    pub fn bytes(&self) -> &[u8]
        ensures { result.now ≡ self.now.octets }
    {
        self.bytes.as_slice()
    }

    /// The octets of the text, given up.
    pub fn into_bytes(self) -> Vec<u8>
        ensures { result.items ≡ self.octets }
    {
        self.bytes
    }

    /// Whether the text shows a shortage.
    pub fn is_short(&self) -> bool
        ensures { result ≡ self.now.is_short }
    {
        self.is_short
    }
}

// The text of a certificate.
fn text_of(alloc: Global, certificate: &Certificate) -> Result<PlanText, AllocError>
    ensures text { IfOk result (λ text. text ≡ printed certificate.now) }
    ensures ranges { IfOk result (λ _. IsCertificate certificate.now) }
{
    let is_short = match certificate.as_best() {
        Some(_) => false,
        None => certificate.as_short().is_some(),
    };
    let bytes = write_cert(alloc, certificate)?;
    Ok(PlanText { bytes, is_short })
}

// The text of a valid certificate for the instance.
fn planned(alloc: Global, instance: &Instance) -> Result<PlanText, Fault>
    ensures text { OrNoMemory (IsPlanText instance.now) result }
    ensures shows { IfOk result (λ text. Shows text.octets instance.now) }
{
    let certificate = solve(alloc, instance)?;
    Ok(text_of(alloc, &certificate)?)
}

/// The text of a plan for the instance of the inputs at the least cost, with prices that show it; or that of a
/// shortage, a set of rows that asks for more than all that it can reach can take. Where the inputs define an instance
/// there is such a text, unless memory runs out.
///
/// # Errors
///
/// In this order: `Settings`, `Values`, `Demand`, `Costs`, `Capacity`, `Build`; `OutOfMemory` where memory runs out.
pub fn plan_run(alloc: Global, inputs: &Inputs) -> Result<PlanText, Fault>
    ensures text { OrNoMemory (IsPlanned inputs.now) result }
    // The plan is best, or there is no feasible plan.
    ensures shows { IfOk result (λ text. ShowsOf inputs.now text.octets) }
    // Whatever instance the inputs define, there is a text, unless memory runs out.
    ensures always { PlansAlways inputs.now result }
{
    let instance = instance_in(alloc, inputs)?;
    planned(alloc, &instance)
}
