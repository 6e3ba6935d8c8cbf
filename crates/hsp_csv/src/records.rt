// The records of a text, one after the other.

ghost use Rattle.std.specs.Prelude.{◌≡◌, true, false, None, IfNone, IfOk, IfSome, OnOk, OnErr};
ghost use Rattle.csv.specs.Reading.{has_failed, source_of};
ghost use Rattle.csv.specs.Records.{fields_of};
ghost use Rattle.hsp_csv.specs.Records.{IsKnown, IsReading, TakesRecord, records_left, records_of};

use crate::fault::RecordsFault;
use csv::{ByteRecord, ErrorKind, Reader, ReaderBuilder};
use std::alloc::Global;
use std::io::Read;

/// A reader that stands before the first record of a text.
///
/// Where the octets of the text are known, the records that it has left are those of the text.
pub fn read_records<R: Read>(alloc: Global, text: R) -> Reader<R>
    ensures reading { IsReading result }
    ensures working { has_failed result ≡ false }
    ensures known { IfSome (R.remaining text) (λ octets. IsKnown R.remaining result) }
    ensures records { IfSome (R.remaining text) (λ octets.
        records_left R.remaining result ≡ records_of octets) }
    ensures unknown { IfNone (R.remaining text) (source_of R.remaining result ≡ None) }
{
    ReaderBuilder::new()
        .has_headers(false)
        .flexible(true)
        .from_reader(alloc, text)
}

/// Takes the next record of a text into `record`, and returns whether there was one.
///
/// # Errors
///
/// `ReadFailed` where a read fails, `OutOfMemory` where memory runs out. Then the reader has stopped: each later call
/// returns that there is no further record.
#[tactic(auto, using(crate::proofs::Reading::takes_record, crate::proofs::Reading::still_reading))]
pub fn take_record<R: Read>(
    reader: &mut Reader<R>,
    record: &mut ByteRecord,
) -> Result<bool, RecordsFault>
    requires { IsReading reader.old }
    ensures takes { IfOk result
        (λ found. TakesRecord R.remaining reader.old reader.new found (fields_of «record».new)) }
    ensures reading { OnOk result (IsReading reader.new) }
    ensures working { OnOk result (has_failed reader.new ≡ has_failed reader.old) }

    // A fault stops the reader, and a reader that has stopped gives nothing.
    ensures stops { OnErr result (has_failed reader.new ≡ true) }
    ensures stopped { has_failed reader.old ≡ true → result ≡ Ok false }
{
    match reader.read_byte_record(record) {
        Ok(found) => Ok(found),
        Err(error) => match error.into_kind() {
            ErrorKind::Io(_) => Err(RecordsFault::ReadFailed),
            ErrorKind::OutOfMemory => Err(RecordsFault::OutOfMemory),
            // The lengths of the records may differ, and octets are read, not text.
            _ => unreachable!(),
        },
    }
}
