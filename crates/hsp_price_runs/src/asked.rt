// What is asked of a check that has passed over the rows of a log.

ghost use Rattle.std.specs.Prelude.{◌≡◌, ◌⊎◌, IfErr, IfOk, List, Result, Ok, Err};
ghost use Rattle.hsp_instance.specs.Instance.{Instance as Built, Row};
ghost use Rattle.hsp_prices.specs.Rows.{Service};
ghost use Rattle.hsp_price_text.specs.declared.certificate.PriceCertificate.{PriceCertificate};
ghost use Rattle.hsp_inputs.specs.declared.stream_fault.StreamFault.{StreamFault};
ghost use Rattle.hsp_inputs.specs.declared.stream_fault.StreamFault.TheVariants.{OutOfMemory};
ghost use Rattle.hsp_tables.specs.Costs.{CostEntry};
ghost use Rattle.hsp_price_check.specs.Checking.{IsPassed};
ghost use Rattle.hsp_price_check.specs.Classes.{service_of};
ghost use Rattle.hsp_price_runs.specs.Asking.{HasPassed};
ghost use Rattle.hsp_price_runs.specs.PriceRun.{IsVerdictBy};

use hsp_inputs::StreamFault;
use hsp_instance::Instance;
use hsp_price_check::PriceCheck;
use hsp_price_text::PriceCertificate;
use hsp_prices::PriceVerdict;
use std::alloc::Global;

/// What is asked of a check that has passed over the rows of a log.
pub(crate) trait Asked {
    /// What is answered.
    type Answer: Drop;

    /// By an instance, its service, a certificate and rows this is the answer, or the fault.
    ghost Is: { Self → Built → Service → PriceCertificate → List Row
        → Result Self.Answer StreamFault → Type 0 };

    /// The answer of a check of the certificate, by the rows that it has passed over.
    fn answer(
        &self,
        alloc: Global,
        instance: &Instance,
        certificate: &PriceCertificate,
        check: &PriceCheck<'_>,
    ) -> Result<Self::Answer, StreamFault>
        requires { HasPassed instance.now certificate.now check.now }
        ensures answer { IfOk result (λ answer. (costs : List CostEntry) (rows : List Row)
            → IsPassed (service_of costs instance.now) certificate.now rows check.now
            → Is self.now instance.now (service_of costs instance.now) certificate.now rows
            (Ok answer)) }
        ensures fault { IfErr result (λ fault. (fault ≡ OutOfMemory)
            ⊎ ((costs : List CostEntry) (rows : List Row)
            → IsPassed (service_of costs instance.now) certificate.now rows check.now
            → Is self.now instance.now (service_of costs instance.now) certificate.now rows
            (Err fault))) };
}

/// The verdict is asked for.
pub(crate) struct AskedVerdict;

impl Asked for AskedVerdict {
    type Answer = PriceVerdict;

    ghost Is = { λ asked it. IsVerdictBy };

    fn answer(
        &self,
        alloc: Global,
        _instance: &Instance,
        _certificate: &PriceCertificate,
        check: &PriceCheck<'_>,
    ) -> Result<PriceVerdict, StreamFault> {
        Ok(check.verdict(alloc)?)
    }
}
