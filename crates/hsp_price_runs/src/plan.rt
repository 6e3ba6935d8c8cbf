// A plan of the rows of a log.

ghost use Rattle.std.specs.Prelude.{◌≡◌, ◌⊎◌, Err, IfErr, IfOk, Ok};
ghost use Rattle.hsp_price_plan.specs.Grouping.{asked_in};
ghost use Rattle.hsp_price_check.specs.Classes.{service_of};
ghost use Rattle.hsp_price_check.specs.Passed.{capped};
ghost use Rattle.hsp_price_runs.specs.PriceRun.{AnswersRecords};
ghost use Rattle.hsp_log.specs.LogRows.{OfLog};
ghost use Rattle.hsp_inputs.specs.Stopping.{MayStopReading};
ghost use Rattle.hsp_price_runs.specs.PlanAlways.{PlansAlways};
ghost use Rattle.hsp_price_runs.specs.PlanRun.{IsPlanBy, IsPlannedLog, IsShownPlan};
ghost use Rattle.hsp_price_runs.specs.Taken.{AreTakenOfSome, IsTakenFault, IsValidForAll, fault_of_plan};

use crate::holder::RowHolder;
use crate::log_pass::pass_log;
use crate::prices_text::{PricesText, text_of};
use hsp_inputs::headline_laws::instances_are_defined;
use hsp_inputs::{Inputs, StreamFault, costs_in, instance_in};
use hsp_instance::Instance;
use hsp_price_check::{ServiceNumbers, service_numbers};
use hsp_price_plan::{KeptRows, PlanFault, Progress, keep_guessed, plan_rows};
use hsp_price_text::PriceCertificate;
use hsp_prices::{plan_is_shown, shortage_is_shown};
use hsp_tables::Costs;
use hsp_talk::Source;
use std::alloc::Global;

// Rows that are planned together ask for fewer queries than these.
const TOO_MANY: u128 = 9_223_372_036_854_775_808;

// The fault of rows without a certificate.
fn fault_of_plan(fault: PlanFault) -> StreamFault
    ensures { result ≡ fault_of_plan fault }
{
    match fault {
        PlanFault::TooLarge => StreamFault::TooLarge,
        PlanFault::OutOfMemory => StreamFault::OutOfMemory,
    }
}

// The certificate of rows that were taken, which ask for so many queries together.
fn plan_taken<P: Progress>(
    alloc: Global,
    numbers: &ServiceNumbers,
    rows: &mut KeptRows,
    asked: u128,
    progress: &mut P,
) -> Result<PriceCertificate, StreamFault>
    requires some { AreTakenOfSome numbers.now rows.old.rows }
    requires asked { asked ≡ capped (asked_in rows.old.rows) }
    ensures valid { IfOk result (IsValidForAll numbers.now rows.old.rows) }
    ensures fault { IfErr result (IsTakenFault numbers.now rows.old.rows) }
{
    if asked >= TOO_MANY {
        return Err(StreamFault::TooLarge);
    }
    keep_guessed(alloc, numbers, rows, progress)?;
    match plan_rows(alloc, numbers, rows, progress) {
        Ok(certificate) => Ok(certificate),
        Err(fault) => Err(fault_of_plan(fault)),
    }
}

// The text of a plan of a log's rows, by an instance and its costs.
fn plan_log<'a, R: Source + Drop, P: Progress + Drop>(
    alloc: Global,
    instance: &'a Instance,
    costs: &'a Costs,
    log: R,
    progress: P,
) -> Result<PricesText, StreamFault>
    ensures text { IfOk result (λ text. OfLog (R.remaining log) (AnswersRecords
        (IsPlanBy (service_of costs.now instance.now)) (Ok text))) }
    ensures fault { IfErr result (λ fault. MayStopReading (R.may_read_fail log) fault
        ⊎ OfLog (R.remaining log)
        (AnswersRecords (IsPlanBy (service_of costs.now instance.now)) (Err fault))) }
{
    let numbers = service_numbers(alloc, instance)?;
    let mut holder = RowHolder::new(alloc, instance, costs, progress);
    pass_log(alloc, &mut holder, log)?;
    let RowHolder {
        arcs: _,
        mut rows,
        asked,
        mut progress,
    } = holder;
    let certificate = plan_taken(alloc, &numbers, &mut rows, asked, &mut progress)?;
    text_of(alloc, &certificate)
}

/// The text of a certificate by prices for the rows of a log: of a cheapest plan with prices that show it, or of a set
/// of servers that is short. The inputs are those of a service: they have no table of demand.
///
/// The log's header is `region,handle` or `region,handle,count`. A row without a count asks for one query. The log may
/// have any number of rows, in any order, and a pair of region and handle any number of them. All are held in memory.
/// `progress` is shown how far the plan is.
///
/// The result is the one that these definitions give, unless a read fails, which is reported only of a reader that may
/// fail, or memory runs out. Of a log whose octets no one can know, as of a file, it is the one of some records.
///
/// # Errors
///
/// In this order: `Input` with `Settings`, `Values`, `Demand`, `Costs`, `Capacity` or `Build`; of the log `ReadFailed`,
/// `Header`, and row by row `Fields`, `BadName`, `BadHandle`, `BadNumber`, `TooManyRegions`. Last comes `TooLarge`: the
/// rows ask for 2^63 queries or more, each plan of them costs more than 10^16, a plan has more than 1,048,576 classes,
/// a short set of servers has a sum above 10^16, the text would have more than 67,108,864 octets, or there are more
/// than 67,108,864 rows. Of these, only rows of more than 67,108,864 groups are too many. A run stops anywhere if
/// memory runs out, as it does at the row after 2^32 of them.
pub fn price_plan_run<R: Source + Drop, P: Progress + Drop>(
    alloc: Global,
    inputs: &Inputs,
    log: R,
    progress: P,
) -> Result<PricesText, StreamFault>
    // The check says yes to the text, which shows a best plan of the rows, or that there is none.
    ensures shows { IfOk result (λ text. OfLog (R.remaining log) (IsShownPlan inputs.now text)) }
    ensures fault { IfErr result (λ fault. MayStopReading (R.may_read_fail log) fault
        ⊎ OfLog (R.remaining log) (IsPlannedLog inputs.now (Err fault))) }
    // Whatever rows a log has, they are planned, unless they are too large, memory runs out or a read fails.
    ensures always { PlansAlways (R.may_read_fail log) inputs.now (R.remaining log) result }
{
    plan_is_shown();
    shortage_is_shown();
    instances_are_defined();
    let instance = instance_in(alloc, inputs)?;
    // The instance is within its limits.
    let _rows = instance.rows();
    match costs_in(alloc, &inputs.costs, inputs.limits()) {
        Ok(costs) => plan_log(alloc, &instance, &costs, log, progress),
        // The costs were read before, so that only memory can run out.
        Err(_) => Err(StreamFault::OutOfMemory),
    }
}
