// How many records a text has.

ghost use Rattle.std.specs.Prelude.{◌≡◌, IfOk};
ghost use Rattle.csv.specs.Records.{fields_of};
ghost use Rattle.hsp_csv.specs.Records.{records_of};
ghost use Rattle.hsp_csv.specs.Row.{IsCounted};

use crate::fault::RecordsFault;
use crate::records::{read_records, take_record};
use csv::ByteRecord;
use std::alloc::Global;

// How many records there are.
#[derive(Clone, Copy)]
pub(crate) enum RecordCount {
    None,
    One,
    More,
}

// How many records a text has. Its first record, if it has one, is read into `first`.
pub(crate) fn count_records(
    alloc: Global,
    text: &[u8],
    first: &mut ByteRecord,
) -> Result<RecordCount, RecordsFault>
    ensures { IfOk result (λ count. IsCounted (records_of text.now) count (fields_of first.new)) }
{
    let mut reader = read_records(alloc, text);
    if !take_record(&mut reader, first)? {
        return Ok(RecordCount::None);
    }
    let mut second = ByteRecord::new(alloc);
    if take_record(&mut reader, &mut second)? {
        return Ok(RecordCount::More);
    }
    Ok(RecordCount::One)
}
