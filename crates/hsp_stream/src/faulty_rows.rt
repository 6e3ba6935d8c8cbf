// The run `faults`.

ghost use Rattle.std.specs.Prelude.{◌≡◌, ⊤, IfErr, IfOk, OnErr, OnOk, option_map, true};
ghost use Rattle.std.specs.Io.KnownBytes.{Appends};
ghost use Rattle.hsp_csv.specs.Places.{placed_of};
ghost use Rattle.hsp_csv.specs.Walks.{placed_left};
ghost use Rattle.hsp_stream.specs.Checkers.{IsReady};
ghost use Rattle.hsp_stream.specs.Faulty.{found_header};
ghost use Rattle.hsp_stream.specs.FaultLines.{line_of};
ghost use Rattle.hsp_stream.specs.Runs.{BelowIsBegun, BelowIsListed, IsBegun, IsListBegun, IsListed, LinesAreBegun};
ghost use Rattle.hsp_stream.specs.Runs.{LinesAreListed, MayStop, RowsAreBegun, RowsAreListed, stop_of};
ghost use Rattle.hsp_stream.specs.declared.faulty_rows.FaultsStop.TheVariants.{OutOfMemory};

use crate::checker::{Asked, Checker, Headed, headed_by, header_fault};
use crate::lines::{HEADER_LINE, push_found};
use hsp_csv::{
    Checked, Found, Place, PlacedReader, PlacedRecord, RecordsFault, read_placed, take_placed,
};
use hsp_inputs::StreamFault;
use hsp_log::{Watch, Watched};
use hsp_talk::{Sink, Source};
use std::alloc::{AllocError, Global};
use std::io::Read;
use std::marker::Brand;

/// Why a list of faulty rows ends before the last one.
#[derive(Clone, Copy, Debug, PartialEq, Eq)]
pub enum FaultsStop {
    /// A read failed.
    ReadFailed,
    /// A write failed.
    WriteFailed,
    /// Memory ran out.
    OutOfMemory,
}

impl From<AllocError> for FaultsStop {
    ghost from_gives = { λ _ stop. stop ≡ OutOfMemory };

    fn from(_error: AllocError) -> FaultsStop {
        FaultsStop::OutOfMemory
    }
}

impl From<RecordsFault> for FaultsStop {
    ghost from_gives = { λ fault stop. stop ≡ stop_of fault };

    fn from(fault: RecordsFault) -> FaultsStop {
        match fault {
            RecordsFault::ReadFailed => FaultsStop::ReadFailed,
            RecordsFault::OutOfMemory => FaultsStop::OutOfMemory,
        }
    }
}

// Writes a text.
fn put<W: Sink>(writer: &mut W, text: &[u8]) -> Result<(), FaultsStop>
    ensures put { OnOk result (Appends (W.contents writer.old) (W.contents writer.new) text.now) }
    ensures begun { OnErr result
        (IsBegun (W.contents writer.old) (W.contents writer.new) text.now) }
    ensures may_stop { IfErr result (MayStop ⊤ W.may_fail) }
{
    match writer.write_text(text) {
        Ok(()) => Ok(()),
        Err(_) => Err(FaultsStop::WriteFailed),
    }
}

// Writes the line of a faulty row.
fn put_found<W: Sink>(
    line: &mut Vec<u8>,
    found: &Found<StreamFault>,
    writer: &mut W,
) -> Result<(), FaultsStop>
    ensures put { OnOk result
        (Appends (W.contents writer.old) (W.contents writer.new) (line_of found.now)) }
    ensures begun { OnErr result
        (IsBegun (W.contents writer.old) (W.contents writer.new) (line_of found.now)) }
    ensures may_stop { IfErr result (MayStop ⊤ W.may_fail) }
{
    line.clear();
    push_found(line, found)?;
    put(writer, line)
}

// Writes the line of each faulty row that a reader has left, and returns whether there is one.
fn list_rows<R: Read + Drop, W: Sink>(
    alloc: Global,
    checker: &mut Checker,
    reader: &mut PlacedReader<R>,
    placed: &mut PlacedRecord,
    writer: &mut W,
) -> Result<bool, FaultsStop>
    requires { IsReady checker.old }
    ensures listed { IfOk result (RowsAreListed checker.old (placed_left R.remaining reader.old)
        (W.contents writer.old) (W.contents writer.new)) }
    ensures begun { OnErr result (RowsAreBegun checker.old (placed_left R.remaining reader.old)
        (W.contents writer.old) (W.contents writer.new)) }
    ensures may_stop { IfErr result (MayStop ⊤ W.may_fail) }
{
    let mut line = Vec::new(alloc);
    let mut some = false;
    'rows: for _row in 0..u64::MAX {
        if !take_placed(reader, placed)? {
            return Ok(some);
        }
        match checker.check(alloc, placed)? {
            Checked::Good => {}
            Checked::Faulty(found) => {
                put_found(&mut line, &found, writer)?;
                some = true;
            }
            Checked::Last(found) => {
                put_found(&mut line, &found, writer)?;
                return Ok(true);
            }
        }
    }
    Err(FaultsStop::OutOfMemory)
}

// The same of the rows below a header.
fn list_below<R: Read + Drop, W: Sink>(
    alloc: Global,
    headed: Headed,
    reader: &mut PlacedReader<R>,
    placed: &mut PlacedRecord,
    writer: &mut W,
) -> Result<bool, FaultsStop>
    ensures listed { IfOk result (BelowIsListed headed (placed_left R.remaining reader.old)
        (W.contents writer.old) (W.contents writer.new)) }
    ensures begun { OnErr result (BelowIsBegun headed (placed_left R.remaining reader.old)
        (W.contents writer.old) (W.contents writer.new)) }
    ensures may_stop { IfErr result (MayStop ⊤ W.may_fail) }
{
    let mut checker = Checker::below(alloc, headed);
    list_rows(alloc, &mut checker, reader, placed, writer)
}

// Writes the line of a text that lacks its header.
fn list_header<W: Sink>(alloc: Global, asked: Asked, writer: &mut W) -> Result<bool, FaultsStop>
    ensures some { IfOk result (λ some. some ≡ true) }
    ensures put { OnOk result
        (Appends (W.contents writer.old) (W.contents writer.new) (line_of (found_header asked))) }
    ensures begun { OnErr result (IsBegun (W.contents writer.old) (W.contents writer.new)
        (line_of (found_header asked))) }
    ensures may_stop { IfErr result (MayStop ⊤ W.may_fail) }
{
    let found = Found {
        row: None,
        field: None,
        place: Place::start(),
        fault: header_fault(asked),
    };
    let mut line = Vec::new(alloc);
    put_found(&mut line, &found, writer)?;
    Ok(true)
}

// Writes the line of each faulty row of a text, and returns whether there is one.
fn list_text<R: Read + Drop, W: Sink>(
    alloc: Global,
    asked: Asked,
    reader: &mut PlacedReader<R>,
    writer: &mut W,
) -> Result<bool, FaultsStop>
    ensures listed { IfOk result (LinesAreListed asked (placed_left R.remaining reader.old)
        (W.contents writer.old) (W.contents writer.new)) }
    ensures begun { OnErr result (LinesAreBegun asked (placed_left R.remaining reader.old)
        (W.contents writer.old) (W.contents writer.new)) }
    ensures may_stop { IfErr result (MayStop ⊤ W.may_fail) }
{
    let mut placed = PlacedRecord::new(alloc);
    if !take_placed(reader, &mut placed)? {
        return list_header(alloc, asked, writer);
    }
    match headed_by(asked, placed.fields()) {
        Some(headed) => list_below(alloc, headed, reader, &mut placed, writer),
        None => list_header(alloc, asked, writer),
    }
}

// Writes the whole list of a text that is read.
fn list_read<R: Read + Drop, W: Sink>(
    alloc: Global,
    asked: Asked,
    text: R,
    writer: &mut W,
) -> Result<bool, FaultsStop>
    ensures listed { IfOk result (IsListed asked (option_map placed_of (R.remaining text))
        (W.contents writer.old) (W.contents writer.new)) }
    ensures begun { OnErr result (IsListBegun asked (option_map placed_of (R.remaining text))
        (W.contents writer.old) (W.contents writer.new)) }
    ensures may_stop { IfErr result (MayStop ⊤ W.may_fail) }
{
    let mut reader = read_placed(alloc, text)?;
    put(writer, HEADER_LINE)?;
    list_text(alloc, asked, &mut reader, writer)
}

// Writes the whole list of a text that is watched as it is read.
fn list_watched<R: Source + Drop, W: Sink, K: Watch>(
    alloc: Global,
    asked: Asked,
    text: R,
    writer: &mut W,
) -> Result<bool, FaultsStop>
    requires { R.may_read_fail text → K.may_fail }
    ensures listed { IfOk result (IsListed asked (option_map placed_of (R.remaining text))
        (W.contents writer.old) (W.contents writer.new)) }
    ensures begun { OnErr result (IsListBegun asked (option_map placed_of (R.remaining text))
        (W.contents writer.old) (W.contents writer.new)) }
    ensures may_stop { IfErr result (MayStop K.may_fail W.may_fail) }
{
    let mut watched: Watched<R, K> = Watched::new(text);
    match list_read(alloc, asked, &mut watched, writer) {
        Ok(some) => Ok(some),
        Err(FaultsStop::ReadFailed) if watched.has_failed() => Err(FaultsStop::ReadFailed),
        Err(FaultsStop::WriteFailed) => Err(FaultsStop::WriteFailed),
        Err(_) => Err(FaultsStop::OutOfMemory),
    }
}

/// Writes a line for each faulty row of a table or a log that the reader gives, below a first line, and returns whether
/// there is a faulty row.
///
/// The first line is `row,line,field,octet,fault`. A line has the number of the row, from 0 below the header, where the
/// fault is of one row; the number of the line in which it begins, from 1; the number of the field at fault, from 0,
/// where the fault is of one field; how many octets stand before that field or, where there is none, before the row;
/// and the fault in words, as `demand: BadHandle row 36 NoSlash`.
///
/// A faulty row is left out: the rows behind it are read as if it weren't there, but for their numbers. A row that is
/// one too many is the last one that is looked at. A text without its header has that one fault.
///
/// The text is read in one pass. Of a log nothing is kept, and of a table the keys of its rows without fault.
///
/// # Errors
///
/// `ReadFailed` where a read failed, `WriteFailed` where a write failed, each only where one may; `OutOfMemory` where
/// memory ran out, or the text has 2^64 - 1 octets or more. A beginning of the list was written.
pub fn faults_run<R: Source + Drop, W: Sink>(
    alloc: Global,
    asked: Asked,
    text: R,
    writer: &mut W,
) -> Result<bool, FaultsStop>
    ensures listed { IfOk result (IsListed asked (option_map placed_of (R.remaining text))
        (W.contents writer.old) (W.contents writer.new)) }
    ensures begun { OnErr result (IsListBegun asked (option_map placed_of (R.remaining text))
        (W.contents writer.old) (W.contents writer.new)) }
    // A failure is reported only of what may fail.
    ensures may_stop { IfErr result (MayStop (R.may_read_fail text) W.may_fail) }
{
    list_watched::<R, W, Brand>(alloc, asked, text, writer)
}
