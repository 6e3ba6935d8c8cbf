// Faulty rows as lines.

ghost use Rattle.std.specs.Prelude.{◌≡◌, ◌++◌, OnOk};
ghost use Rattle.hsp_stream.specs.FaultLines.{line_of, number_text};

use hsp_csv::Found;
use hsp_inputs::{StreamFault, push_fault_words};
use hsp_text::push_whole;
use std::alloc::AllocError;

/// The first line.
pub(crate) const HEADER_LINE: &[u8] = b"row,line,field,octet,fault\n";

// Appends the digits of a number, where there is one, and a comma.
fn push_number(line: &mut Vec<u8>, number: Option<u64>) -> Result<(), AllocError>
    ensures { OnOk result (line.new.items ≡ line.old.items ++ number_text number) }
{
    if let Some(number) = number {
        push_whole(line, number)?;
    }
    line.push(b',')?;
    Ok(())
}

// The number of a field in 64 bits.
fn wide(field: Option<u32>) -> Option<u64>
    ensures { result ≡ field }
{
    match field {
        Some(field) => Some(u64::from(field)),
        None => None,
    }
}

/// Appends the line of a faulty row.
pub(crate) fn push_found(line: &mut Vec<u8>, found: &Found<StreamFault>) -> Result<(), AllocError>
    ensures { OnOk result (line.new.items ≡ line.old.items ++ line_of found.now) }
{
    push_number(line, found.row)?;
    push_number(line, Some(found.place.line))?;
    push_number(line, wide(found.field))?;
    push_number(line, Some(found.place.octet))?;
    push_fault_words(line, &found.fault)?;
    line.push(b'\n')?;
    Ok(())
}
