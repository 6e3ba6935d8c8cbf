// Questions to a check of a certificate by prices, and the verdict.

ghost use Rattle.std.specs.Prelude.{◌≡◌, ◌⊎◌, Err, IfErr, IfOk, Ok};
ghost use Rattle.hsp_prices.specs.declared.verdict.PriceVerdict.TheVariants.{Yes};
ghost use Rattle.hsp_price_check.specs.Classes.{service_of};
ghost use Rattle.hsp_log.specs.LogRows.{OfLog};
ghost use Rattle.hsp_inputs.specs.Stopping.{MayStopReading};
ghost use Rattle.hsp_price_runs.specs.PriceRun.{AnswersInputs, AnswersRead, AnswersRecords, AnswersText};
ghost use Rattle.hsp_price_runs.specs.PriceRun.{IsPriceVerdict};
ghost use Rattle.hsp_price_runs.specs.PriceAlways.{SaysYesAlways};
ghost use Rattle.hsp_price_runs.specs.PricesShown.{ShowsLog};

use crate::asked::{Asked, AskedVerdict};
use crate::log_pass::pass_log;
use hsp_inputs::headline_laws::instances_are_defined;
use hsp_inputs::{Fault, Inputs, StreamFault, certificate_in, costs_in, instance_in};
use hsp_instance::Instance;
use hsp_price_check::PriceCheck;
use hsp_price_text::PriceCertificate;
use hsp_price_text::laws::one_answer;
use hsp_prices::{PriceVerdict, plan_is_shown, shortage_is_shown};
use hsp_tables::Costs;
use hsp_talk::Source;
use std::alloc::Global;

// An instance and the costs of its service.
#[derive(Clone, Copy)]
struct ServiceRef<'a> {
    instance: &'a Instance,
    costs: &'a Costs,
}

// The answer of a check of a certificate, by the rows of a log.
fn ask_log<A: Asked, R: Source + Drop>(
    alloc: Global,
    asked: &A,
    service: ServiceRef<'_>,
    certificate: &PriceCertificate,
    log: R,
) -> Result<A::Answer, StreamFault>
    ensures answer { IfOk result (λ answer. OfLog (R.remaining log) (AnswersRecords
        (A.Is asked.now service.entry.instance.now
        (service_of service.entry.costs.now service.entry.instance.now) certificate.now)
        (Ok answer))) }
    ensures fault { IfErr result (λ fault. MayStopReading (R.may_read_fail log) fault
        ⊎ OfLog (R.remaining log) (AnswersRecords
        (A.Is asked.now service.entry.instance.now
        (service_of service.entry.costs.now service.entry.instance.now) certificate.now)
        (Err fault))) }
{
    let mut check = PriceCheck::new(alloc, service.instance, service.costs, certificate)?;
    pass_log(alloc, &mut check, log)?;
    asked.answer(alloc, service.instance, certificate, &check)
}

// The answer of a check of the certificate that octets spell.
fn ask_text<A: Asked, R: Source + Drop>(
    alloc: Global,
    asked: &A,
    service: ServiceRef<'_>,
    prices: &[u8],
    log: R,
) -> Result<A::Answer, StreamFault>
    ensures answer { IfOk result (λ answer. OfLog (R.remaining log) (AnswersText
        (A.Is asked.now service.entry.instance.now
        (service_of service.entry.costs.now service.entry.instance.now)) prices.now (Ok answer))) }
    ensures fault { IfErr result (λ fault. MayStopReading (R.may_read_fail log) fault
        ⊎ OfLog (R.remaining log) (AnswersText
        (A.Is asked.now service.entry.instance.now
        (service_of service.entry.costs.now service.entry.instance.now)) prices.now (Err fault))) }
{
    let certificate = certificate_in(alloc, prices)?;
    ask_log(alloc, asked, service, &certificate, log)
}

/// The answer of a check of the certificate that the octets of `prices` spell, by the rows of a log.
pub(crate) fn ask_inputs<A: Asked, R: Source + Drop>(
    alloc: Global,
    asked: &A,
    inputs: &Inputs,
    prices: &[u8],
    log: R,
) -> Result<A::Answer, StreamFault>
    ensures answer { IfOk result (λ answer. OfLog (R.remaining log)
        (AnswersRead (A.Is asked.now) inputs.now prices.now (Ok answer))) }
    ensures fault { IfErr result (λ fault. MayStopReading (R.may_read_fail log) fault
        ⊎ OfLog (R.remaining log)
        (AnswersInputs (A.Is asked.now) inputs.now prices.now (Err fault))) }
{
    let instance = instance_in(alloc, inputs)?;
    // The instance is within its limits.
    let _rows = instance.rows();
    match costs_in(alloc, &inputs.costs, inputs.limits()) {
        Ok(costs) => {
            let service = ServiceRef {
                instance: &instance,
                costs: &costs,
            };
            ask_text(alloc, asked, service, prices, log)
        }
        // The costs were read before, so that only memory can run out.
        Err(_) => Err(StreamFault::OutOfMemory),
    }
}

/// The verdict on the certificate by prices that the octets of `prices` spell, by the rows of a log. The inputs are
/// those of a service: they have no table of demand.
///
/// The log's header is `region,handle` or `region,handle,count`. A row without a count asks for one query. The log may
/// have any number of rows, in any order, and a pair of region and handle any number of them. None of them is held.
///
/// The result is the one that these definitions give, unless a read fails, which is reported only of a reader that may
/// fail, or memory runs out. Of a log whose octets no one can know, as of a file, it is the one of some records.
///
/// # Errors
///
/// In this order: `Input` with `Settings`, `Values`, `Demand`, `Costs`, `Capacity`, `Build` or `Cert`; of the log
/// `ReadFailed`, `Header`, and row by row `Fields`, `BadName`, `BadHandle`, `BadNumber`, `TooManyRegions`. A run stops
/// anywhere if memory runs out, as it does at a log of 2^64 - 1 rows or more.
pub fn price_check_run<R: Source + Drop>(
    alloc: Global,
    inputs: &Inputs,
    prices: &[u8],
    log: R,
) -> Result<PriceVerdict, StreamFault>
    ensures verdict { IfOk result (λ verdict. OfLog (R.remaining log) (λ records.
        IsPriceVerdict inputs.now prices.now records (Ok verdict))) }
    ensures fault { IfErr result (λ fault. MayStopReading (R.may_read_fail log) fault
        ⊎ OfLog (R.remaining log)
        (λ records. IsPriceVerdict inputs.now prices.now records (Err fault))) }
    // Yes means that the certificate shows a best plan of the rows, or that there is none.
    ensures shows { IfOk result (λ verdict. verdict ≡ Yes → OfLog (R.remaining log)
        (ShowsLog inputs.now prices.now)) }
    // And every certificate that is valid for the rows of a log gets a Yes, unless memory runs out or a read fails.
    ensures exactly { SaysYesAlways (R.may_read_fail log) inputs.now prices.now
        (R.remaining log) result }
{
    plan_is_shown();
    shortage_is_shown();
    instances_are_defined();
    one_answer();
    ask_inputs(alloc, &AskedVerdict, inputs, prices, log)
}
