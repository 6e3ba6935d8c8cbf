// Reports of certificates by prices.

ghost use Rattle.std.specs.Prelude.{◌⊎◌, Err, IfErr, IfOk, Ok};
ghost use Rattle.hsp_log.specs.LogRows.{OfLog};
ghost use Rattle.hsp_inputs.specs.Stopping.{MayStopReading};
ghost use Rattle.hsp_price_runs.specs.PriceReport.{IsPriceReport, IsReportBy};

use crate::asked::Asked;
use crate::run::ask_inputs;
use hsp_inputs::{Fault, Inputs, StreamFault};
use hsp_instance::Instance;
use hsp_price_check::PriceCheck;
use hsp_price_report::PriceReportKind;
use hsp_price_text::PriceCertificate;
use hsp_prices::{PriceReason, PriceVerdict};
use hsp_talk::Source;
use std::alloc::Global;

/// A report, or the reason why the certificate isn't valid.
#[derive(Debug, PartialEq, Eq, Drop)]
pub enum PriceReport {
    /// The text of the report.
    Shown(Vec<u8>),
    /// The first reason that stands against the certificate.
    Refused(PriceReason),
}

impl Asked for PriceReportKind {
    type Answer = PriceReport;

    ghost Is = { λ kind. IsReportBy kind };

    fn answer(
        &self,
        alloc: Global,
        instance: &Instance,
        certificate: &PriceCertificate,
        check: &PriceCheck<'_>,
    ) -> Result<PriceReport, StreamFault> {
        if let PriceVerdict::No(reason) = check.verdict(alloc)? {
            return Ok(PriceReport::Refused(reason));
        }
        match certificate {
            PriceCertificate::Plan(plan) => {
                // The plan is within its limits.
                let _cost = plan.cost();
                Ok(PriceReport::Shown(self.text(alloc, instance, plan, check)?))
            }
            PriceCertificate::Shortage(_) => Err(StreamFault::Input(Fault::WrongKind)),
        }
    }
}

/// The report of the plan by prices that the octets of `prices` spell, by the rows of a log. Where
/// [`price_check_run`](crate::price_check_run) says No, it is the reason.
///
/// The inputs and the log are those of `price_check_run`.
///
/// # Errors
///
/// Those of [`price_check_run`](crate::price_check_run). `Input(WrongKind)` comes after all of these, for the
/// certificate of a short set that is valid.
pub fn price_report_run<R: Source + Drop>(
    alloc: Global,
    inputs: &Inputs,
    prices: &[u8],
    kind: PriceReportKind,
    log: R,
) -> Result<PriceReport, StreamFault>
    ensures report { IfOk result (λ report. OfLog (R.remaining log) (λ records.
        IsPriceReport kind inputs.now prices.now records (Ok report))) }
    ensures fault { IfErr result (λ fault. MayStopReading (R.may_read_fail log) fault
        ⊎ OfLog (R.remaining log) (λ records.
        IsPriceReport kind inputs.now prices.now records (Err fault))) }
{
    ask_inputs(alloc, &kind, inputs, prices, log)
}
