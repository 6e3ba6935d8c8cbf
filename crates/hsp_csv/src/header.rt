// The header of a text, which is its first record.

ghost use Rattle.std.specs.Prelude.{◌≡◌, IfOk, OnErr, OnOk, true};
ghost use Rattle.csv.specs.Reading.{has_failed};
ghost use Rattle.csv.specs.Records.{fields_of};
ghost use Rattle.hsp_csv.specs.Header.{TakesHeader, is_field, names_in, same_fields};
ghost use Rattle.hsp_csv.specs.Records.{IsReading};

use crate::fault::RecordsFault;
use crate::records::take_record;
use csv::{ByteRecord, Reader};
use std::io::Read;

// Whether the field at a place is the name.
fn is_field(record: &ByteRecord, place: usize, name: &[u8]) -> bool
    ensures { result ≡ is_field (fields_of «record».now) place name.now }
{
    match record.get(place) {
        Some(field) => field == name,
        None => false,
    }
}

/// Whether the fields of a record are the names of a header.
pub fn is_header(record: &ByteRecord, header: &[&[u8]]) -> bool
    ensures { result ≡ same_fields (fields_of «record».now) (names_in header.now) }
{
    if record.len() != header.len() {
        return false;
    }
    for (place, name) in header.iter().enumerate() {
        if !is_field(record, place, name) {
            return false;
        }
    }
    true
}

/// Takes the first record of a text into `record`, and returns whether it is the header with these names. A text
/// without a record has no header.
///
/// # Errors
///
/// `ReadFailed` where a read fails, `OutOfMemory` where memory runs out. Then the reader has stopped.
pub fn take_header<R: Read>(
    reader: &mut Reader<R>,
    record: &mut ByteRecord,
    header: &[&[u8]],
) -> Result<bool, RecordsFault>
    requires { IsReading reader.old }
    ensures header { IfOk result
        (λ headed. TakesHeader R.remaining (names_in header.now) reader.old reader.new headed) }
    ensures reading { OnOk result (IsReading reader.new) }
    ensures stops { OnErr result (has_failed reader.new ≡ true) }
{
    if !take_record(reader, record)? {
        return Ok(false);
    }
    Ok(is_header(record, header))
}
