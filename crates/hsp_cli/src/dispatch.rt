// Logs that are answered on an output.

ghost use Rattle.std.specs.Prelude.{◌≡◌, ◌⊎◌, IfErr, IfOk, IsFalse, IsTrue};
ghost use Rattle.hsp_cli.specs.Commands.{AreOpened, DispatchFails};
ghost use Rattle.hsp_cli.specs.Dispatching.{AnswersEntries, AnswersEvents, Completes, Dispatches, HandsOn};
ghost use Rattle.hsp_cli.specs.Dispatching.{LeavesNoLines, MayFollowLines, opened_log};
ghost use Rattle.hsp_cli.specs.Failing.{IsUnread};
ghost use Rattle.hsp_cli.specs.Printing.{IsFailedWrite, IsHandedOn};
ghost use Rattle.hsp_runs.specs.Dispatch.{IsBeforeLog};

use crate::answer::{Completed, Ended};
use crate::failure::{Failure, Unread};
use crate::files::{FileSource, OpenFile, read_path};
use crate::inputs::read_inputs;
use crate::output::Output;
use hsp_cli_orders::{InputFiles, Word};
use hsp_dispatch::LogSums;
use hsp_inputs::{Fault, Inputs};
use hsp_log::LogFault;
use hsp_runs::{dispatch_run, fronts_run};
use std::alloc::Global;

// What a log is answered by, and the log, of which nothing was read yet.
#[derive(Drop)]
pub(crate) struct OpenLog<F: OpenFile> {
    inputs: Inputs,
    certificate: Vec<u8>,
    log: F,
}

// Reads the files of the inputs and then that of the certificate, and opens that of the log.
pub(crate) fn open_log<S: FileSource>(
    alloc: Global,
    files: &S,
    named: &InputFiles<'_>,
    plan: &Word<'_>,
    log: &Word<'_>,
) -> Result<OpenLog<S::File>, Unread>
    ensures opened { IfOk result (λ it. AreOpened (S.disk files.now) named.now plan.now log.now
        (opened_log it.inputs it.certificate.items (S.File.remaining it.log))) }
    ensures reads { IfOk result
        (λ it. S.File.may_read_fail it.log → (S.disk files.now).fails log.now) }
    ensures unread { IfErr result (IsUnread
        (DispatchFails (S.disk files.now) named.now plan.now log.now)) }
{
    let inputs = read_inputs(alloc, files, named)?;
    let certificate = read_path(alloc, files, plan)?;
    let log = files.open(log)?;
    Ok(OpenLog {
        inputs,
        certificate,
        log,
    })
}

// Whether output may still be buffered when this fault ends the run. Before a fault of the inputs or of the certificate
// nothing is written, and what a failed write left is not tried again.
fn may_follow_lines(fault: &Fault) -> bool
    ensures lines { IsTrue result → MayFollowLines fault.now }
    ensures no_lines { IsFalse result → LeavesNoLines fault.now }
{
    match fault {
        Fault::Log(inner) => *inner != LogFault::WriteFailed,
        Fault::OutOfMemory => true,
        _ => false,
    }
}

// Hands on the lines that may stand before the fault, and returns the fault or, where that fails, a failed write.
fn handed_on<O: Output>(out: &mut O, fault: Fault) -> Fault
    ensures hands_on { HandsOn O.may_fail fault (O.contents out.old) (O.contents out.new) result }
    ensures handed { IsBeforeLog fault ⊎ (O.handed out.new ≡ O.contents out.new)
        ⊎ IsFailedWrite (Failure.Refused result) }
    ensures untouched { IsBeforeLog fault → out.new ≡ out.old }
{
    if !may_follow_lines(&fault) {
        return fault;
    }
    match out.hand_on() {
        Ok(()) => fault,
        Err(_) => Fault::Log(LogFault::WriteFailed),
    }
}

// Hands on the last lines, and ends with the sums and status 0 or, where that fails, with a failed write.
fn complete<O: Output>(out: &mut O, sums: Option<LogSums>) -> Ended
    ensures completes { Completes O.may_fail sums (O.contents out.old) (O.contents out.new) result }
    ensures handed { IsHandedOn out.old out.new (O.contents out.new) (O.handed out.new) result }
{
    match out.hand_on() {
        Ok(()) => Ok(Completed { status: 0, sums }),
        Err(_) => Err(Failure::Refused(Fault::Log(LogFault::WriteFailed))),
    }
}

/// Answers the log on `out`: its entries, whose sums it returns, or its events, by as many fronts as the word says. The
/// lines were handed on, also those before a fault of the log, and those before memory ran out.
pub fn dispatch<F: OpenFile, O: Output>(
    alloc: Global,
    opened: OpenLog<F>,
    fronts: &Option<Word<'_>>,
    out: &mut O,
) -> Ended
    ensures dispatches { Dispatches O.may_fail fronts.now
        (opened_log opened.inputs opened.certificate.items (F.remaining opened.log))
        (O.contents out.old) (O.contents out.new) result }
    ensures handed { IsHandedOn out.old out.new (O.contents out.new) (O.handed out.new) result }
{
    match fronts {
        Some(fronts) => dispatch_events(alloc, opened, fronts, out),
        None => dispatch_entries(alloc, opened, out),
    }
}

// Answers the log's entries, and returns their sums.
fn dispatch_entries<F: OpenFile, O: Output>(alloc: Global, opened: OpenLog<F>, out: &mut O) -> Ended
    ensures answers { AnswersEntries O.may_fail
        (opened_log opened.inputs opened.certificate.items (F.remaining opened.log))
        (O.contents out.old) (O.contents out.new) result }
    ensures handed { IsHandedOn out.old out.new (O.contents out.new) (O.handed out.new) result }
{
    let OpenLog {
        inputs,
        certificate,
        log,
    } = opened;
    match dispatch_run(alloc, &inputs, &certificate, log, out) {
        Ok(sums) => complete(out, Some(sums)),
        Err(fault) => Err(Failure::Refused(handed_on(out, fault))),
    }
}

// Answers the log's events, by as many fronts as the word says.
fn dispatch_events<F: OpenFile, O: Output>(
    alloc: Global,
    opened: OpenLog<F>,
    fronts: &Word<'_>,
    out: &mut O,
) -> Ended
    ensures answers { AnswersEvents O.may_fail fronts.now
        (opened_log opened.inputs opened.certificate.items (F.remaining opened.log))
        (O.contents out.old) (O.contents out.new) result }
    ensures handed { IsHandedOn out.old out.new (O.contents out.new) (O.handed out.new) result }
{
    let OpenLog {
        inputs,
        certificate,
        log,
    } = opened;
    match fronts_run(alloc, &inputs, &certificate, fronts.as_bytes(), log, out) {
        Ok(_sums) => complete(out, None),
        Err(fault) => Err(Failure::Refused(handed_on(out, fault))),
    }
}
