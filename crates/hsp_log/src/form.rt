// The forms of logs, which their headers state.

ghost use Rattle.std.specs.Prelude.{◌≡◌, ◌≢◌, IfNone, IfSome};
ghost use Rattle.csv.specs.Records.{fields_of};
ghost use Rattle.hsp_log.specs.Log.{front_header, header_of};
ghost use Rattle.hsp_log.specs.RowChecks.{log_header};
ghost use Rattle.hsp_log.specs.RowFaults.{is_count_header, is_handle_header};
ghost use Rattle.hsp_log.specs.declared.form.Form.{Form};
ghost use Rattle.hsp_log.specs.declared.form.LogForm.{LogForm};

use csv::ByteRecord;
use hsp_csv::is_header;

/// What the second field of a log's rows holds.
#[derive(Clone, Copy, PartialEq, Eq)]
pub enum Form {
    /// A handle.
    Handles,
    /// The body of a resolution request in hexadecimal digits.
    Bodies,
}

/// What the rows of a log spell.
#[derive(Clone, Copy, PartialEq, Eq)]
pub enum LogForm {
    /// Entries, by the header `region,handle` or `region,body`.
    Entries(Form),
    /// Events, by the header `front,region,handle`.
    Events,
}

/// What the header of a log names.
#[derive(Clone, Copy)]
pub enum CountForm {
    /// A region and a handle. Each row counts 1.
    Ones,
    /// A region, a handle and a count.
    Counts,
}

/// What the rows of a log of handles have.
#[derive(Clone, Copy)]
pub enum HandleForm {
    /// A handle.
    Handle,
    /// A region and a handle.
    RegionAndHandle,
}

/// The form of a log, by its first record, or None where that is not a header.
pub fn entry_form(record: &ByteRecord) -> Option<Form>
    ensures header { IfSome result (λ form. fields_of «record».now ≡ header_of form) }
    ensures none { IfNone result ((form : Form) → fields_of «record».now ≢ header_of form) }
{
    if is_header(record, &[b"region", b"handle"]) {
        return Some(Form::Handles);
    }
    if is_header(record, &[b"region", b"body"]) {
        return Some(Form::Bodies);
    }
    None
}

/// The form of a log of events, or None where the record is not its header.
pub fn event_form(record: &ByteRecord) -> Option<Form>
    ensures header { IfSome result (λ form. fields_of «record».now ≡ front_header) }
    ensures none { IfNone result (fields_of «record».now ≢ front_header) }
{
    if is_header(record, &[b"front", b"region", b"handle"]) {
        return Some(Form::Handles);
    }
    None
}

/// What the rows of a log spell, by its first record, or None where that is not a header.
pub fn log_form(record: &ByteRecord) -> Option<LogForm>
    ensures header { IfSome result (λ form. fields_of «record».now ≡ log_header form) }
    ensures none { IfNone result ((form : LogForm) → fields_of «record».now ≢ log_header form) }
{
    if let Some(form) = entry_form(record) {
        return Some(LogForm::Entries(form));
    }
    match event_form(record) {
        Some(_) => Some(LogForm::Events),
        None => None,
    }
}

/// Whether a record is the header `region,handle,count`.
pub fn is_count_header(record: &ByteRecord) -> bool
    ensures { result ≡ is_count_header (fields_of «record».now) }
{
    is_header(record, &[b"region", b"handle", b"count"])
}

/// Whether a record is the header `handle`.
pub fn is_handle_header(record: &ByteRecord) -> bool
    ensures { result ≡ is_handle_header (fields_of «record».now) }
{
    is_header(record, &[b"handle"])
}
