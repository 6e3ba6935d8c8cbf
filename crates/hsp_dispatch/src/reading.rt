// The header of a log.

ghost use Rattle.std.specs.Prelude.{IfErr, IfOk, OnOk};
ghost use Rattle.hsp_csv.specs.Records.{IsReading};
ghost use Rattle.hsp_dispatch.specs.Steps.{FailsHeader, TakesHeader};

use crate::desk::Desk;
use csv::{ByteRecord, Reader};
use hsp_csv::take_record;
use hsp_log::{Form, LogFault};
use std::io::Read;

/// Takes the header, and returns the form of the log.
pub(crate) fn take_form<D: Desk, R: Read>(
    reader: &mut Reader<R>,
    record: &mut ByteRecord,
) -> Result<Form, LogFault>
    requires { IsReading reader.old }
    ensures form { IfOk result
        (λ form. TakesHeader R.remaining reader.old reader.new (D.header form)) }
    ensures reading { OnOk result (IsReading reader.new) }
    ensures fault { IfErr result (FailsHeader R.remaining reader.old D.header) }
{
    if !take_record(reader, record)? {
        return Err(LogFault::Header);
    }
    match D::form_of(record) {
        Some(form) => Ok(form),
        None => Err(LogFault::Header),
    }
}
