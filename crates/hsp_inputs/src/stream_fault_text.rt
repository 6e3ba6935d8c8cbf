// Faults as the program prints them, and the statuses that it ends with.

ghost use Rattle.std.specs.Prelude.{◌≡◌, ◌++◌, IfOk, OnOk, codes, decimal};
ghost use Rattle.hsp_log.specs.declared.fault.RowFault.TheVariants as row_fault;
ghost use Rattle.hsp_inputs.specs.StreamFaultText.{fault_text, fault_words, numbered, row_words, row_status, status_in};

use crate::fault_text::{fault_status, push_fault as push_input_fault};
use crate::fault_words::handle_words;
use crate::price_reason::price_reason_word;
use crate::stream_fault::StreamFault;
use hsp_log::RowFault;
use hsp_names::HandleFault;
use hsp_text::push_whole;
use std::alloc::{AllocError, Global};

// Appends a word, a name and the digits of a number, each after a space.
fn push_numbered(out: &mut Vec<u8>, word: &[u8], name: &[u8], number: u64) -> Result<(), AllocError>
    ensures { OnOk result (out.new.items ≡ out.old.items ++ numbered word.now name.now number) }
{
    out.extend_from_slice(word)?;
    out.extend_from_slice(b" ")?;
    out.extend_from_slice(name)?;
    out.extend_from_slice(b" ")?;
    push_whole(out, number)
}

// Appends a space and a word.
fn push_word(out: &mut Vec<u8>, word: &[u8]) -> Result<(), AllocError>
    ensures { OnOk result (out.new.items ≡ out.old.items ++ (codes " " ++ word.now)) }
{
    out.extend_from_slice(b" ")?;
    out.extend_from_slice(word)
}

fn push_bad_handle(out: &mut Vec<u8>, row: u64, fault: &HandleFault) -> Result<(), AllocError>
    ensures { OnOk result
        (out.new.items ≡ out.old.items ++ row_words (row_fault.BadHandle row fault.now)) }
{
    push_numbered(out, b"BadHandle", b"row", row)?;
    push_word(out, handle_words(fault))
}

// Appends the fault of a run over a log, with its row.
fn push_row_fault(out: &mut Vec<u8>, fault: &RowFault) -> Result<(), AllocError>
    ensures { OnOk result (out.new.items ≡ out.old.items ++ row_words fault.now) }
{
    match fault {
        RowFault::ReadFailed => out.extend_from_slice(b"ReadFailed"),
        RowFault::WriteFailed => out.extend_from_slice(b"WriteFailed"),
        RowFault::Header => out.extend_from_slice(b"Header"),
        RowFault::Fields { row } => push_numbered(out, b"Fields", b"row", *row),
        RowFault::BadName { row } => push_numbered(out, b"BadName", b"row", *row),
        RowFault::BadHandle { row, fault } => push_bad_handle(out, *row, fault),
        RowFault::BadNumber { row } => push_numbered(out, b"BadNumber", b"row", *row),
        RowFault::TooManyRegions { row } => push_numbered(out, b"TooManyRegions", b"row", *row),
    }
}

/// Appends a fault in words: the part with the fault and `: ` where there is such a part, the fault with its fields.
///
/// # Errors
///
/// An `AllocError` where memory runs out.
pub fn push_fault_words(out: &mut Vec<u8>, fault: &StreamFault) -> Result<(), AllocError>
    ensures { OnOk result (out.new.items ≡ out.old.items ++ fault_words fault.now) }
{
    match fault {
        StreamFault::BadFront => out.extend_from_slice(b"BadFront"),
        StreamFault::Input(inner) => push_input_fault(out, inner),
        StreamFault::Refused(reason) => {
            out.extend_from_slice(b"check: ")?;
            out.extend_from_slice(price_reason_word(*reason))
        }
        StreamFault::TooLarge => out.extend_from_slice(b"plan: TooLarge"),
        StreamFault::Log(inner) => {
            out.extend_from_slice(b"log: ")?;
            push_row_fault(out, inner)
        }
        StreamFault::OutOfMemory => out.extend_from_slice(b"OutOfMemory"),
    }
}

/// The line that reports a fault: `hsplan-stream: `, the part with the fault and `: ` where there is such a part, the
/// fault with its fields, LF.
///
/// # Errors
///
/// An `AllocError` where memory runs out.
pub fn stream_fault_line(alloc: Global, fault: &StreamFault) -> Result<Vec<u8>, AllocError>
    ensures { IfOk result (λ line. line.items ≡ fault_text fault.now) }
{
    let mut line = Vec::new(alloc);
    line.extend_from_slice(b"hsplan-stream: ")?;
    push_fault_words(&mut line, fault)?;
    line.extend_from_slice(b"\n")?;
    Ok(line)
}

// The status at a fault of a run over a log.
fn row_status(fault: &RowFault) -> u8
    ensures { result ≡ row_status fault.now }
{
    match fault {
        RowFault::ReadFailed | RowFault::WriteFailed => 5,
        RowFault::Header
        | RowFault::Fields { .. }
        | RowFault::BadName { .. }
        | RowFault::BadHandle { .. }
        | RowFault::BadNumber { .. }
        | RowFault::TooManyRegions { .. } => 1,
    }
}

/// The status that the program ends with at a fault: 5 for a log that can't be read to its end and for answers that
/// can't be written, 4 where memory runs out, that of `hsplan` for a refused file, 3 for prices that don't fit, and
/// otherwise 1.
pub fn stream_status(fault: &StreamFault) -> u8
    ensures { result ≡ status_in fault.now }
{
    match fault {
        StreamFault::BadFront | StreamFault::TooLarge => 1,
        StreamFault::Input(inner) => fault_status(inner),
        StreamFault::Refused(_) => 3,
        StreamFault::Log(inner) => row_status(inner),
        StreamFault::OutOfMemory => 4,
    }
}
