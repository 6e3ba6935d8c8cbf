// Faulty rows on an output.

ghost use Rattle.std.specs.Prelude.{◌≡◌, ◌≢◌, ◌⊎◌, Err};
ghost use Rattle.std.specs.Io.KnownBytes.{Keeps};
ghost use Rattle.hsp_cli.specs.declared.failure.Failure.TheVariants.{Write};
ghost use Rattle.hsp_stream_cli.specs.Commands.{ListsFaults};
ghost use Rattle.hsp_stream_cli.specs.Faults.{EndsList, asked_for, ended_with, list_status, stopped_by};
ghost use Rattle.hsp_stream_cli.specs.Printing.{IsHandedOn};

use crate::program::Ended;
use hsp_cli::{Completed, Failure, FileSource, Output, read_path};
use hsp_cli_orders::{FaultsOf, Word};
use hsp_inputs::StreamFault;
use hsp_log::RowFault;
use hsp_stream::{Asked, FaultsStop, faults_run};
use hsp_tables::TableKind;
use hsp_talk::Source;
use std::alloc::Global;

// The failure by which a list stops.
fn stopped_by(stop: FaultsStop) -> Failure<StreamFault>
    ensures { result ≡ stopped_by stop }
{
    match stop {
        FaultsStop::ReadFailed => Failure::Refused(StreamFault::Log(RowFault::ReadFailed)),
        FaultsStop::WriteFailed => Failure::Write,
        FaultsStop::OutOfMemory => Failure::Memory,
    }
}

// Hands on what was listed, and ends with a failure or, where that fails, with a failed write.
fn hand_on_failed<O: Output>(out: &mut O, failure: Failure<StreamFault>) -> Ended
    ensures kept { Keeps (O.contents out.old) (O.contents out.new) }
    ensures ended { (result ≡ Err failure) ⊎ (O.may_fail × (result ≡ Err Write)) }
    ensures handed { (O.handed out.new ≡ O.contents out.new) ⊎ (result ≡ Err Write) }
{
    match out.hand_on() {
        Ok(()) => Err(failure),
        Err(_) => Err(Failure::Write),
    }
}

// The status after a list that was written whole: whether there are faulty rows.
fn list_status(some: bool) -> u8
    ensures { result ≡ list_status some }
{
    if some { 1 } else { 0 }
}

// Hands on a list that was written whole.
fn hand_on_list<O: Output>(out: &mut O, some: bool) -> Ended
    ensures kept { Keeps (O.contents out.old) (O.contents out.new) }
    ensures ended { (result ≡ ended_with some) ⊎ (O.may_fail × (result ≡ Err Write)) }
    ensures handed { (O.handed out.new ≡ O.contents out.new) ⊎ (result ≡ Err Write) }
{
    match out.hand_on() {
        Ok(()) => Ok(Completed {
            status: list_status(some),
            sums: None,
        }),
        Err(_) => Err(Failure::Write),
    }
}

// Lists the faulty rows of a text.
fn list<R: Source + Drop, O: Output>(alloc: Global, asked: Asked, text: R, out: &mut O) -> Ended
    ensures ends { EndsList (R.may_read_fail text) O.may_fail asked (R.remaining text)
        (O.contents out.old) (O.contents out.new) result }
    ensures handed { IsHandedOn (O.contents out.old) (O.handed out.old) (O.contents out.new)
        (O.handed out.new) result }
{
    match faults_run(alloc, asked, text, out) {
        Ok(some) => hand_on_list(out, some),
        Err(stop) => hand_on_failed(out, stopped_by(stop)),
    }
}

// What is looked at, by the order.
fn asked_for(of: FaultsOf) -> Asked
    ensures { result ≡ asked_for of }
{
    match of {
        FaultsOf::Demand => Asked::Table(TableKind::Demand),
        FaultsOf::Costs => Asked::Table(TableKind::Costs),
        FaultsOf::Capacity => Asked::Table(TableKind::Capacity),
        FaultsOf::Log => Asked::Log,
    }
}

// Lists the faulty rows of a log, which is read as it comes.
fn list_log<S: FileSource, O: Output>(
    alloc: Global,
    files: &S,
    file: &Word<'_>,
    out: &mut O,
) -> Ended
    ensures lists { ListsFaults (S.disk files.now) O.may_fail FaultsOf.Log file.now
        (O.contents out.old) (O.contents out.new) result }
    ensures handed { IsHandedOn (O.contents out.old) (O.handed out.old) (O.contents out.new)
        (O.handed out.new) result }
{
    let log = files.open(file)?;
    list(alloc, Asked::Log, log, out)
}

// Lists the faulty rows of a table, which is read whole first.
fn list_table<S: FileSource, O: Output>(
    alloc: Global,
    files: &S,
    of: FaultsOf,
    file: &Word<'_>,
    out: &mut O,
) -> Ended
    requires { of ≢ FaultsOf.Log }
    ensures lists { ListsFaults (S.disk files.now) O.may_fail of file.now
        (O.contents out.old) (O.contents out.new) result }
    ensures handed { IsHandedOn (O.contents out.old) (O.handed out.old) (O.contents out.new)
        (O.handed out.new) result }
{
    let text = read_path(alloc, files, file)?;
    list(alloc, asked_for(of), text.as_slice(), out)
}

/// Lists the faulty rows of a file: those of a log as it comes, and those of a table once it was read whole.
pub(crate) fn list_faults<S: FileSource, O: Output>(
    alloc: Global,
    files: &S,
    of: FaultsOf,
    file: &Word<'_>,
    out: &mut O,
) -> Ended
    ensures lists { ListsFaults (S.disk files.now) O.may_fail of file.now
        (O.contents out.old) (O.contents out.new) result }
    ensures handed { IsHandedOn (O.contents out.old) (O.handed out.old) (O.contents out.new)
        (O.handed out.new) result }
{
    match of {
        FaultsOf::Log => list_log(alloc, files, file, out),
        table => list_table(alloc, files, table, file, out),
    }
}
