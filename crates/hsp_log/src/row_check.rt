// The rows of a log, read without an answer.

ghost use Rattle.std.specs.Prelude.{◌≡◌, ◌≢◌, ◌⊎◌, IfErr, Ok, OnErr, OnOk};
ghost use Rattle.csv.specs.Records.{fields_of};
ghost use Rattle.hsp_names.specs.Handle.{handle_in};
ghost use Rattle.hsp_log.specs.RowChecks.{IsRowRefused, IsSpelled, field_at_fault};
ghost use Rattle.hsp_log.specs.declared.fault.LogFault.TheVariants.{BadHandle, OutOfMemory};
ghost use Rattle.hsp_log.specs.declared.form.LogForm.TheVariants.{Entries, Events};

use crate::body::{octets_in, request_in};
use crate::fault::LogFault;
use crate::form::{Form, LogForm};
use csv::ByteRecord;
use hsp_csv::{three_fields, two_fields};
use hsp_names::HandleRef;
use hsp_text::read_whole;
use std::alloc::Global;

// Reads a handle.
fn check_handle(octets: &[u8], row: u32) -> Result<(), LogFault>
    ensures good { OnOk result (handle_in octets.now ≡ Ok octets.now) }
    ensures fault { IfErr result (λ e. e ≡ BadHandle row) }
    ensures bad { OnErr result (handle_in octets.now ≢ Ok octets.now) }
{
    match HandleRef::parse(octets) {
        Ok(_) => Ok(()),
        Err(_) => Err(LogFault::BadHandle { row }),
    }
}

// Reads the row of an entry.
fn check_entry(alloc: Global, form: Form, row: u32, record: &ByteRecord) -> Result<(), LogFault>
    ensures good { OnOk result (IsSpelled (Entries form) (fields_of «record».now)) }
    ensures fault { IfErr result
        (λ e. (e ≡ OutOfMemory) ⊎ IsRowRefused (Entries form) row (fields_of «record».now) e) }
{
    let Some((_region, field)) = two_fields(record) else {
        return Err(LogFault::Fields { row });
    };
    match form {
        Form::Handles => {
            check_handle(field, row)?;
            Ok(())
        }
        Form::Bodies => {
            let Some(octets) = octets_in(alloc, field)? else {
                return Err(LogFault::BadBody { row });
            };
            let Some(request) = request_in(&octets) else {
                return Err(LogFault::BadBody { row });
            };
            check_handle(request.handle(), row)?;
            Ok(())
        }
    }
}

// Reads the row of an event.
fn check_event(row: u32, record: &ByteRecord) -> Result<(), LogFault>
    ensures good { OnOk result (IsSpelled Events (fields_of «record».now)) }
    ensures fault { IfErr result (IsRowRefused Events row (fields_of «record».now)) }
{
    let Some((front, _region, handle)) = three_fields(record) else {
        return Err(LogFault::Fields { row });
    };
    match read_whole(front, 4_294_967_295) {
        Ok(_) => {
            check_handle(handle, row)?;
            Ok(())
        }
        Err(_) => Err(LogFault::BadFront { row }),
    }
}

/// Reads the row with this number as a run over the log reads it, and returns its fault where it has one.
///
/// # Errors
///
/// In this order: `Fields`, `BadFront`, `BadBody`, `BadHandle`; and `OutOfMemory`.
pub fn check_row(
    alloc: Global,
    form: LogForm,
    row: u32,
    record: &ByteRecord,
) -> Result<(), LogFault>
    ensures good { OnOk result (IsSpelled form (fields_of «record».now)) }
    ensures fault { IfErr result
        (λ e. (e ≡ OutOfMemory) ⊎ IsRowRefused form row (fields_of «record».now) e) }
{
    match form {
        LogForm::Entries(form) => check_entry(alloc, form, row, record),
        LogForm::Events => check_event(row, record),
    }
}

/// The number of the field at fault, where the fault is of one field.
pub fn field_at_fault(form: LogForm, fault: LogFault) -> Option<u32>
    ensures { result ≡ field_at_fault form fault }
{
    match (form, fault) {
        (LogForm::Events, LogFault::BadFront { .. }) => Some(0),
        (LogForm::Events, LogFault::BadHandle { .. }) => Some(2),
        (LogForm::Entries(_), LogFault::BadBody { .. } | LogFault::BadHandle { .. }) => Some(1),
        _ => None,
    }
}
