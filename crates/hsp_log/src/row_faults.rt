// The rows of logs with counts, and of the logs of `places`, read by themselves.

ghost use Rattle.std.specs.Prelude.{◌≡◌, ◌≢◌, ◌∷◌, [], IfNone, IfSome, length};
ghost use Rattle.csv.specs.Records.{fields_of};
ghost use Rattle.hsp_log.specs.RowFaults.{count_fault, handle_fault};

use crate::fault::RowFault;
use crate::form::CountForm;
use crate::log_rows::{read_row, row_fields};
use csv::ByteRecord;
use hsp_names::HandleRef;

/// The fault by which `check` refuses the row of a region, a handle and a count by itself, if there is one.
pub fn count_fault(row: u64, record: &ByteRecord) -> Option<RowFault>
    ensures { result ≡ count_fault row (fields_of «record».now) }
{
    let Some(parts) = row_fields(record, CountForm::Counts) else {
        return Some(RowFault::Fields { row });
    };
    match read_row(row, parts) {
        Ok(_) => None,
        Err(fault) => Some(fault),
    }
}

// The field of a record, where there is one.
#[tactic(auto, using(crate::proofs::OneField::one_field_is, crate::proofs::OneField::no_first_field))]
fn one_field(record: &ByteRecord) -> Option<&[u8]>
    ensures found { IfSome result (λ t. fields_of «record».now ≡ t.now ∷ []) }
    ensures none { IfNone result (length (fields_of «record».now) ≢ 1) }
{
    let first = record.get(0)?;
    if record.len() != 1 {
        return None;
    }
    Some(first)
}

/// The fault by which `places` refuses the row of a handle, if there is one.
#[tactic(auto, using(crate::proofs::OneField::other_fields))]
pub fn handle_fault(row: u64, record: &ByteRecord) -> Option<RowFault>
    ensures { result ≡ handle_fault row (fields_of «record».now) }
{
    let Some(handle) = one_field(record) else {
        return Some(RowFault::Fields { row });
    };
    match HandleRef::parse(handle) {
        Ok(_) => None,
        Err(fault) => Some(RowFault::BadHandle { row, fault }),
    }
}
