// Logs of events, answered by fronts that share the plans of certificates.

ghost use Rattle.std.specs.Prelude.{◌≡◌, ◌≤◌, IfErr, IfOk};
ghost use Rattle.hsp_text.specs.Answers.{Gives};
ghost use Rattle.hsp_text.specs.declared.limits.TheConstants.{MOST_FRONTS};
ghost use Rattle.hsp_check.specs.Instance.{network_of};
ghost use Rattle.hsp_check.specs.Valid.{IsValid};
ghost use Rattle.hsp_runs.specs.Dispatch.{AnswersBy, IsBeforeLog, IsDispatchedAt, fronts_at, over, so_many};
ghost use Rattle.hsp_runs.specs.Logs.{DispatchesAtAlways, ShowsFrontsOf};

use crate::accepted::{Accepted, accepted_in};
use hsp_dispatch::{FrontSums, Fronts, run_fronts};
use hsp_inputs::{Fault, Inputs, read_count};
use hsp_text::limits::MOST_FRONTS;
use std::alloc::Global;
use std::io::{Read, Write};

// The number of fronts that a word spells.
fn read_fronts(word: &[u8]) -> Result<u32, Fault>
    ensures given { Gives (λ fronts. fronts) result (fronts_at word.now) }
    ensures some { IfOk result (λ fronts. 1 ≤ fronts) }
    ensures most { IfOk result (λ fronts. fronts ≤ MOST_FRONTS) }
{
    read_count(word, MOST_FRONTS, Fault::BadFronts)
}

// The log, answered by `fronts` fronts that share the plan of a certificate.
fn dispatched_at<R: Read + Drop, W: Write>(
    alloc: Global,
    accepted: &Accepted,
    fronts: u32,
    reader: R,
    writer: &mut W,
) -> Result<FrontSums, Fault>
    requires valid { IsValid (network_of accepted.now.instance) accepted.now.certificate }
    requires some { 1 ≤ fronts }
    requires most { fronts ≤ MOST_FRONTS }
    ensures answers { AnswersBy (so_many fronts) accepted.now
        (over (R.remaining reader) (W.contents writer.old) (W.contents writer.new)) result }
    ensures untouched { IfErr result (λ e. IsBeforeLog e → writer.new ≡ writer.old) }
{
    let _plan = accepted.plan()?;
    let mut all = Fronts::new(alloc, &accepted.instance, &accepted.certificate, fronts)?;
    run_fronts(alloc, reader, writer, &mut all).map_err(Fault::from)
}

/// Answers the events of the log that `reader` gives as [`dispatch_run`] does entries. Each event is answered by the
/// front that it names, which has only its share of the plan.
///
/// The word `fronts` spells how many fronts there are, from 1 to 64. Where it does, the inputs define an instance, and
/// the certificate is a plan that holds for it, there is no other fault than `Log`, unless memory runs out.
///
/// # Errors
///
/// `BadFronts`, then those of [`dispatch_run`](crate::dispatch_run).
pub fn fronts_run<R: Read + Drop, W: Write>(
    alloc: Global,
    inputs: &Inputs,
    certificate: &[u8],
    fronts: &[u8],
    reader: R,
    writer: &mut W,
) -> Result<FrontSums, Fault>
    ensures answers { IsDispatchedAt fronts.now inputs.now certificate.now
        (over (R.remaining reader) (W.contents writer.old) (W.contents writer.new)) result }
    // Each front answers by its share of a best plan, and all together keep within the plan.
    ensures shows { ShowsFrontsOf fronts.now inputs.now certificate.now
        (over (R.remaining reader) (W.contents writer.old) (W.contents writer.new)) result }
    // Where the fault comes before the log, the writer is as it was, also one whose octets no one can know.
    ensures untouched { IfErr result (λ e. IsBeforeLog e → writer.new ≡ writer.old) }
    // By every plan that holds the log is answered, up to a fault of its own at most, unless memory runs out.
    ensures always { DispatchesAtAlways fronts.now inputs.now certificate.now result }
{
    let fronts = read_fronts(fronts)?;
    let accepted = accepted_in(alloc, inputs, certificate)?;
    dispatched_at(alloc, &accepted, fronts, reader, writer)
}
