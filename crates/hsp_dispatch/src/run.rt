// The run over a log: each of its rows is answered by a line.

ghost use Rattle.std.specs.Prelude.{◌≡◌, IfErr, IfOk, option_map};
ghost use Rattle.hsp_csv.specs.Records.{IsReading, records_of};
ghost use Rattle.hsp_dispatch.specs.Desks.{by_dispatcher, by_fronts};
ghost use Rattle.hsp_dispatch.specs.Dispatch.{all_of};
ghost use Rattle.hsp_log.specs.Lines.{lines_of};
ghost use Rattle.hsp_dispatch.specs.Runs.{EndsWhole, Stops, desk_of, streams};
ghost use Rattle.hsp_dispatch.specs.Steps.{BeginsWithNone, log_left};

use crate::answer::{FrontSums, LogSums};
use crate::answering::line_in;
use crate::desk::{Desk, Place};
use crate::dispatcher::Dispatcher;
use crate::fronts::Fronts;
use crate::reading::take_form;
use csv::{ByteRecord, Reader};
use hsp_csv::{read_records, take_record};
use hsp_log::{LogFault, ServerLines};
use hsp_text::limits::MOST_LOG_ROWS;
use hsp_text::put_all;
use std::alloc::Global;
use std::io::{Read, Write};

// What a run has ready before its first row is read: the line of each server, and where memory comes from.
#[derive(Drop)]
struct Ready {
    alloc: Global,
    lines: ServerLines,
}

// Answers each row behind the header.
fn run_rows<D: Desk, R: Read, W: Write>(
    reader: &mut Reader<R>,
    record: &mut ByteRecord,
    ready: &Ready,
    writer: &mut W,
    desk: &mut D,
) -> Result<FrontSums, LogFault>
    requires reading { IsReading reader.old }
    requires lines { ready.now.lines ≡ lines_of (D.instance desk.old) }
    requires begins { BeginsWithNone (D.Answers desk.old desk.old) }
    ensures instance { D.instance desk.new ≡ D.instance desk.old }
    ensures whole { IfOk result (EndsWhole
        (desk_of D.header (D.Answers desk.old desk.new) D.Refuses)
        (streams (log_left R.remaining reader.old)
        (W.contents writer.old) (W.contents writer.new))) }
    ensures stops { IfErr result (Stops (desk_of D.header (D.Answers desk.old desk.new) D.Refuses)
        (streams (log_left R.remaining reader.old)
        (W.contents writer.old) (W.contents writer.new))) }
{
    let form = take_form::<D, R>(reader, record)?;
    let mut sums = FrontSums::none();
    let mut row = 0;
    'rows: loop {
        if !take_record(reader, record)? {
            break;
        }
        if row == MOST_LOG_ROWS {
            return Err(LogFault::LogTooLong);
        }
        let given = desk.answer(ready.alloc, record, Place { form, row })?;
        put_all(writer, line_in(&ready.lines, given))?;
        sums.count(given);
        row += 1;
    }
    match writer.flush() {
        Ok(()) => Ok(sums),
        Err(_) => Err(LogFault::WriteFailed),
    }
}

// Makes the lines, and answers the log.
fn run<D: Desk, R: Read + Drop, W: Write>(
    alloc: Global,
    reader: R,
    writer: &mut W,
    desk: &mut D,
) -> Result<FrontSums, LogFault>
    ensures instance { D.instance desk.new ≡ D.instance desk.old }
    ensures whole { IfOk result (EndsWhole
        (desk_of D.header (D.Answers desk.old desk.new) D.Refuses)
        (streams (option_map records_of (R.remaining reader))
        (W.contents writer.old) (W.contents writer.new))) }
    ensures stops { IfErr result (Stops (desk_of D.header (D.Answers desk.old desk.new) D.Refuses)
        (streams (option_map records_of (R.remaining reader))
        (W.contents writer.old) (W.contents writer.new))) }
{
    let ready = Ready {
        alloc,
        lines: ServerLines::for_instance(alloc, desk.served())?,
    };
    let mut records = read_records(alloc, reader);
    let mut record = ByteRecord::new(alloc);
    run_rows(&mut records, &mut record, &ready, writer, desk)
}

/// Answers each row of the log that the reader gives, in a line to the writer, and counts the answers.
///
/// The first record is a header: `region,handle`, or `region,body` where the second field of a row is the body of a
/// resolution request in hexadecimal digits. There are at most 10,000,000 rows.
///
/// # Errors
///
/// For each record in this order: `ReadFailed`, `Header`, `LogTooLong`, `Fields`, `BadBody`, `BadHandle`. Then the row
/// is answered, and `WriteFailed` comes where its line or, after the last row, the flush can't be written.
/// `OutOfMemory` comes where memory runs out. Every row before a fault was answered and its line written. The row of a
/// failed write was taken from the plan.
pub fn run_log<R: Read + Drop, W: Write>(
    alloc: Global,
    reader: R,
    writer: &mut W,
    dispatcher: &mut Dispatcher<'_>,
) -> Result<LogSums, LogFault>
    ensures instance { dispatcher.new.instance ≡ dispatcher.old.instance }
    ensures whole { IfOk result (λ sums. EndsWhole
        (by_dispatcher dispatcher.old dispatcher.new)
        (streams (option_map records_of (R.remaining reader))
        (W.contents writer.old) (W.contents writer.new))
        (all_of sums)) }
    ensures stops { IfErr result (Stops (by_dispatcher dispatcher.old dispatcher.new)
        (streams (option_map records_of (R.remaining reader))
        (W.contents writer.old) (W.contents writer.new))) }
{
    let sums = run(alloc, reader, writer, dispatcher)?;
    Ok(sums.without_fronts())
}

/// Answers each row of the log that the reader gives by the front that the row names, in a line to the writer, and
/// counts the answers.
///
/// The header is `front,region,handle`. The rest is as for [`run_log`]. A front that is not there is answered
/// `nofront`.
///
/// # Errors
///
/// Those of [`run_log`], with `BadFront` directly after `Fields`.
pub fn run_fronts<R: Read + Drop, W: Write>(
    alloc: Global,
    reader: R,
    writer: &mut W,
    fronts: &mut Fronts<'_>,
) -> Result<FrontSums, LogFault>
    ensures instance { fronts.new.instance ≡ fronts.old.instance }
    ensures whole { IfOk result (EndsWhole (by_fronts fronts.old fronts.new)
        (streams (option_map records_of (R.remaining reader))
        (W.contents writer.old) (W.contents writer.new))) }
    ensures stops { IfErr result (Stops (by_fronts fronts.old fronts.new)
        (streams (option_map records_of (R.remaining reader))
        (W.contents writer.old) (W.contents writer.new))) }
{
    run(alloc, reader, writer, fronts)
}
