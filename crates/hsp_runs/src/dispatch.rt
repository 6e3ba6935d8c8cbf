// Logs, answered by the plans of certificates.

ghost use Rattle.std.specs.Prelude.{◌≡◌, IfErr};
ghost use Rattle.hsp_check.specs.Instance.{network_of};
ghost use Rattle.hsp_check.specs.Valid.{IsValid};
ghost use Rattle.hsp_runs.specs.Dispatch.{AnswersBy, IsBeforeLog, IsDispatched, a_dispatcher, over};
ghost use Rattle.hsp_runs.specs.Logs.{DispatchesAlways, ShowsLogOf};

use crate::accepted::{Accepted, accepted_in};
use hsp_dispatch::{Dispatcher, LogSums, run_log};
use hsp_inputs::{Fault, Inputs};
use std::alloc::Global;
use std::io::{Read, Write};

// The log, answered by the plan of a certificate.
fn dispatched<R: Read + Drop, W: Write>(
    alloc: Global,
    accepted: &Accepted,
    reader: R,
    writer: &mut W,
) -> Result<LogSums, Fault>
    requires { IsValid (network_of accepted.now.instance) accepted.now.certificate }
    ensures answers { AnswersBy a_dispatcher accepted.now
        (over (R.remaining reader) (W.contents writer.old) (W.contents writer.new)) result }
    ensures untouched { IfErr result (λ e. IsBeforeLog e → writer.new ≡ writer.old) }
{
    let _plan = accepted.plan()?;
    let mut dispatcher = Dispatcher::new(alloc, &accepted.instance, &accepted.certificate)?;
    run_log(alloc, reader, writer, &mut dispatcher).map_err(Fault::from)
}

/// Answers the entries of the log that `reader` gives, by the plan that the octets of `certificate` spell, with a line
/// for each on `writer`.
///
/// # Errors
///
/// In this order: those of the inputs (`Settings`, `Values`, `Demand`, `Costs`, `Capacity`, `Build`), `Cert`,
/// `Refused`, and `WrongKind` for a shortage, all with nothing written; then `Log`, when the entries before it were
/// answered. A run stops anywhere if memory runs out. Where the inputs define an instance, and the certificate is a
/// plan that holds for it, there is no other fault than `Log`, unless memory runs out.
pub fn dispatch_run<R: Read + Drop, W: Write>(
    alloc: Global,
    inputs: &Inputs,
    certificate: &[u8],
    reader: R,
    writer: &mut W,
) -> Result<LogSums, Fault>
    ensures answers { IsDispatched inputs.now certificate.now
        (over (R.remaining reader) (W.contents writer.old) (W.contents writer.new)) result }
    // The answers, also those before a fault, are those of a best plan, none beyond it, each by the hash of its handle.
    ensures shows { ShowsLogOf inputs.now certificate.now
        (over (R.remaining reader) (W.contents writer.old) (W.contents writer.new)) result }
    // Where the fault comes before the log, the writer is as it was, also one whose octets no one can know.
    ensures untouched { IfErr result (λ e. IsBeforeLog e → writer.new ≡ writer.old) }
    // By every plan that holds the log is answered, up to a fault of its own at most, unless memory runs out.
    ensures always { DispatchesAlways inputs.now certificate.now result }
{
    let accepted = accepted_in(alloc, inputs, certificate)?;
    dispatched(alloc, &accepted, reader, writer)
}
