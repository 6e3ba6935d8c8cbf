// The pass of what takes rows over the rows of a log.

ghost use Rattle.std.specs.Prelude.{◌≡◌, ◌⊎◌, Err, IfErr, IfOk, List, OnOk, []};
ghost use Rattle.csv.specs.Records.{fields_of};
ghost use Rattle.hsp_csv.specs.Records.{IsReading, TakesRecord as HasTakenRecord};
ghost use Rattle.hsp_text.specs.Answers.{Gives};
ghost use Rattle.hsp_instance.specs.Instance.{Row};
ghost use Rattle.hsp_log.specs.LogRows.{OfLeft, OfLog};
ghost use Rattle.hsp_inputs.specs.Stopping.{MayStopReading};
ghost use Rattle.hsp_log.specs.Watching.{watched_left};
ghost use Rattle.hsp_log.specs.RowsShown.{row_shown};
ghost use Rattle.hsp_inputs.specs.declared.stream_fault.StreamFault.TheVariants.{OutOfMemory};
ghost use Rattle.hsp_price_runs.specs.LogRows.{form_of, log_rows, rows_with, with_record, with_row};
ghost use Rattle.hsp_price_runs.specs.Passing.{IsOverSome, Takes, TakesRecord, TakesRows, fault_of_pass};

use crate::taking::RowTaker;
use csv::{ByteRecord, Reader};
use hsp_csv::{RecordsFault, is_header, take_record};
use hsp_inputs::StreamFault;
use hsp_log::{CountForm, LogRow, RowFault, Watch, Watched, read_row, row_fields, watch_records};
use hsp_price_check::PassFault;
use hsp_talk::Source;
use std::alloc::Global;
use std::marker::Brand;

// The form of a log, by its first record, or that this isn't the header of a log.
fn form_of(record: &ByteRecord) -> Result<CountForm, StreamFault>
    ensures { Gives (λ form. form) result (form_of (fields_of «record».now)) }
{
    if is_header(record, &[b"region", b"handle"]) {
        return Ok(CountForm::Ones);
    }
    if is_header(record, &[b"region", b"handle", b"count"]) {
        return Ok(CountForm::Counts);
    }
    Err(StreamFault::Log(RowFault::Header))
}

// Takes the next record of a source that is watched into `record`, and returns whether there was one.
fn take_watched<S: Source, K: Watch>(
    reader: &mut Reader<Watched<S, K>>,
    record: &mut ByteRecord,
) -> Result<bool, StreamFault>
    requires { IsReading reader.old }
    ensures takes { IfOk result (λ found. HasTakenRecord (watched_left S.remaining) reader.old
        reader.new found (fields_of «record».new)) }
    ensures reading { OnOk result (IsReading reader.new) }
    ensures fault { IfErr result (MayStopReading K.may_fail) }
{
    match take_record(reader, record) {
        Ok(found) => Ok(found),
        Err(RecordsFault::ReadFailed) if reader.get_ref().has_failed() => {
            Err(StreamFault::Log(RowFault::ReadFailed))
        }
        Err(_) => Err(StreamFault::OutOfMemory),
    }
}

// The fault of a row that can't be taken.
fn fault_of_pass(row: u64, fault: PassFault) -> StreamFault
    ensures { result ≡ fault_of_pass row fault }
{
    match fault {
        PassFault::TooManyRegions => StreamFault::Log(RowFault::TooManyRegions { row }),
        PassFault::OutOfMemory => StreamFault::OutOfMemory,
    }
}

// Takes a row, or reports that its region is one too many.
fn pass_row<T: RowTaker>(
    alloc: Global,
    taker: &mut T,
    row: u64,
    read: LogRow<'_>,
) -> Result<(), StreamFault>
    requires { IsOverSome T.HasTaken taker.old }
    ensures passed { OnOk result (Takes T.HasTaken (row_shown read.entry) taker.old taker.new) }
    ensures fault { IfErr result (λ fault. (fault ≡ OutOfMemory)
        ⊎ ((first : T) (rows : List Row) → T.HasTaken first rows taker.old
        → with_row row rows (row_shown read.entry) ≡ Err fault)) }
{
    match taker.take_row(alloc, read) {
        Ok(()) => Ok(()),
        Err(fault) => Err(fault_of_pass(row, fault)),
    }
}

// Takes the row that a record spells, or reports its first fault.
fn pass_record<T: RowTaker>(
    alloc: Global,
    taker: &mut T,
    row: u64,
    record: &ByteRecord,
    form: CountForm,
) -> Result<(), StreamFault>
    requires { IsOverSome T.HasTaken taker.old }
    ensures passed { OnOk result
        (TakesRecord T.HasTaken form row (fields_of «record».now) taker.old taker.new) }
    ensures fault { IfErr result (λ fault. (fault ≡ OutOfMemory)
        ⊎ ((first : T) (rows : List Row) → T.HasTaken first rows taker.old
        → with_record form row rows (fields_of «record».now) ≡ Err fault)) }
{
    let Some(parts) = row_fields(record, form) else {
        return Err(StreamFault::Log(RowFault::Fields { row }));
    };
    match read_row(row, parts) {
        Ok(read) => pass_row(alloc, taker, row, read),
        Err(fault) => Err(StreamFault::Log(fault)),
    }
}

// Takes each row behind the header.
fn pass_rows<T: RowTaker, R: Source, K: Watch>(
    alloc: Global,
    taker: &mut T,
    reader: &mut Reader<Watched<R, K>>,
    record: &mut ByteRecord,
    form: CountForm,
) -> Result<(), StreamFault>
    requires reading { IsReading reader.old }
    requires fresh { T.HasTaken taker.old [] taker.old }
    ensures passed { OnOk result (OfLeft (watched_left R.remaining) reader.old (λ records.
        TakesRows T.HasTaken (rows_with form 0 [] records) taker.old taker.new)) }
    ensures fault { IfErr result (λ fault. MayStopReading K.may_fail fault
        ⊎ OfLeft (watched_left R.remaining) reader.old
        (λ records. rows_with form 0 [] records ≡ Err fault)) }
{
    let mut row: u64 = 0;
    'rows: loop {
        if !take_watched(reader, record)? {
            return Ok(());
        }
        if row == u64::MAX {
            return Err(StreamFault::OutOfMemory);
        }
        pass_record(alloc, taker, row, record, form)?;
        row += 1;
    }
}

// Takes each row of a log that is watched.
fn pass_watched<T: RowTaker, R: Source + Drop, K: Watch>(
    alloc: Global,
    taker: &mut T,
    log: R,
) -> Result<(), StreamFault>
    requires fresh { T.HasTaken taker.old [] taker.old }
    requires watched { R.may_read_fail log → K.may_fail }
    ensures passed { OnOk result (OfLog (R.remaining log)
        (λ records. TakesRows T.HasTaken (log_rows records) taker.old taker.new)) }
    ensures fault { IfErr result (λ fault. MayStopReading K.may_fail fault
        ⊎ OfLog (R.remaining log) (λ records. log_rows records ≡ Err fault)) }
{
    let mut reader: Reader<Watched<R, K>> = watch_records(alloc, log);
    let mut record = ByteRecord::new(alloc);
    if !take_watched(&mut reader, &mut record)? {
        return Err(StreamFault::Log(RowFault::Header));
    }
    let form = form_of(&record)?;
    pass_rows(alloc, taker, &mut reader, &mut record, form)
}

/// Takes each row of the log that the reader gives.
///
/// A log of 2^64 - 1 rows or more ends as `OutOfMemory`.
///
/// # Errors
///
/// In this order: `ReadFailed`, `Header`; then row by row `ReadFailed`, `Fields`, `BadName`, `BadHandle`, `BadNumber`,
/// `TooManyRegions`. `ReadFailed` comes only of a reader whose reads may fail.
pub fn pass_log<T: RowTaker, R: Source + Drop>(
    alloc: Global,
    taker: &mut T,
    log: R,
) -> Result<(), StreamFault>
    requires { T.HasTaken taker.old [] taker.old }
    ensures passed { OnOk result (OfLog (R.remaining log)
        (λ records. TakesRows T.HasTaken (log_rows records) taker.old taker.new)) }
    ensures fault { IfErr result (λ fault. MayStopReading (R.may_read_fail log) fault
        ⊎ OfLog (R.remaining log) (λ records. log_rows records ≡ Err fault)) }
{
    pass_watched::<T, R, Brand>(alloc, taker, log)
}
