// The rows of a log of handles.

ghost use Rattle.std.specs.Prelude.{◌≡◌, option_map};
ghost use Rattle.hsp_names.specs.Lent.{octets_of};
ghost use Rattle.hsp_csv.specs.Row.{row_shown};
ghost use Rattle.hsp_stream.specs.Places.{GivesOrRefuses, form_of, handle_field, handle_in_row, header_in};

use hsp_csv::{RowFields, RowReader, without_mark};
use hsp_log::{HandleForm, RowFault};
use hsp_names::{HandleFault, HandleRef};
use hsp_talk::{LONGEST_ROW, Refusal};
use std::alloc::Global;

// The form of the rows of a log, by the fields of its header.
fn form_of(fields: RowFields<'_>) -> Option<HandleForm>
    ensures { result ≡ form_of (row_shown fields.entry) }
{
    match fields {
        RowFields::One(only) => {
            if only == b"handle".as_slice() {
                return Some(HandleForm::Handle);
            }
            None
        }
        RowFields::Two(first, second) => {
            if first == b"region".as_slice() && second == b"handle".as_slice() {
                return Some(HandleForm::RegionAndHandle);
            }
            None
        }
        _ => None,
    }
}

/// The form of the rows of a log by its first row, or None where the row is blank.
pub(crate) fn read_header(
    alloc: Global,
    reader: &mut RowReader,
    line: &[u8],
) -> Result<Option<HandleForm>, Refusal<RowFault>>
    ensures { GivesOrRefuses (λ form. form) result (header_in line.now) }
{
    let fields = match reader.read(alloc, without_mark(line)) {
        Ok(RowFields::Blank) => return Ok(None),
        Ok(fields) => fields,
        Err(_) => return Err(Refusal::OutOfMemory),
    };
    match form_of(fields) {
        Some(form) => Ok(Some(form)),
        None => Err(Refusal::Fault(RowFault::Header)),
    }
}

// What a row of a form gives as its handle.
fn handle_field<'a>(form: HandleForm, fields: RowFields<'a>) -> Option<&'a [u8]>
    ensures { option_map (λ o. o.now) result ≡ handle_field form (row_shown fields.entry) }
{
    match (form, fields) {
        (HandleForm::Handle, RowFields::One(only)) => Some(only),
        (HandleForm::RegionAndHandle, RowFields::Two(_, second)) => Some(second),
        _ => None,
    }
}

/// The handle of the row of a number, or None where the row is blank.
pub(crate) fn read_handle<'a>(
    alloc: Global,
    reader: &'a mut RowReader,
    number: u64,
    form: HandleForm,
    line: &'a [u8],
) -> Result<Option<HandleRef<'a>>, Refusal<RowFault>>
    ensures { GivesOrRefuses (option_map octets_of) result (handle_in_row number form line.now) }
{
    if line.len() > LONGEST_ROW {
        return Err(Refusal::Fault(RowFault::BadHandle {
            row: number,
            fault: HandleFault::TooLong,
        }));
    }
    let fields = match reader.read(alloc, line) {
        Ok(RowFields::Blank) => return Ok(None),
        Ok(fields) => fields,
        Err(_) => return Err(Refusal::OutOfMemory),
    };
    let Some(octets) = handle_field(form, fields) else {
        return Err(Refusal::Fault(RowFault::Fields { row: number }));
    };
    match HandleRef::parse(octets) {
        Ok(handle) => Ok(Some(handle)),
        Err(fault) => Err(Refusal::Fault(RowFault::BadHandle { row: number, fault })),
    }
}
