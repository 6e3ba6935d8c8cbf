// Faults as the program prints them, and the statuses that it ends with.

ghost use Rattle.std.specs.Prelude.{◌≡◌, ◌++◌, IfOk, OnOk, codes};
ghost use Rattle.hsp_inputs.specs.FaultText.{fault_text, fault_words, log_status, record_words, status_in, table_words};

use crate::fault::Fault;
use crate::fault_words::{
    handle_words, push_build_fault, push_cert_fault, push_log_fault, push_record_fault,
    push_table_fault, reason_word,
};
use hsp_log::LogFault;
use hsp_record::RecordFault;
use hsp_tables::TableFault;
use std::alloc::{AllocError, Global};

// Appends the part with the fault, `: ` and the fault of a table.
fn push_table(out: &mut Vec<u8>, part: &[u8], fault: &TableFault) -> Result<(), AllocError>
    ensures { OnOk result (out.new.items ≡ out.old.items ++ (part.now ++ table_words fault.now)) }
{
    out.extend_from_slice(part)?;
    push_table_fault(out, fault)
}

// The same with the fault of a record.
fn push_record(out: &mut Vec<u8>, part: &[u8], fault: &RecordFault) -> Result<(), AllocError>
    ensures { OnOk result (out.new.items ≡ out.old.items ++ (part.now ++ record_words fault.now)) }
{
    out.extend_from_slice(part)?;
    push_record_fault(out, fault)
}

/// Appends a fault in words: the part with the fault and `: ` where there is such a part, the fault with its fields.
///
/// # Errors
///
/// An `AllocError` where memory runs out.
pub fn push_fault(out: &mut Vec<u8>, fault: &Fault) -> Result<(), AllocError>
    ensures { OnOk result (out.new.items ≡ out.old.items ++ fault_words fault.now) }
{
    match fault {
        Fault::BadOption => out.extend_from_slice(b"BadOption"),
        Fault::BadServers => out.extend_from_slice(b"BadServers"),
        Fault::BadIndex => out.extend_from_slice(b"BadIndex"),
        Fault::Handle(inner) => {
            out.extend_from_slice(b"handle: ")?;
            out.extend_from_slice(handle_words(inner))
        }
        Fault::Site(inner) => push_record(out, b"site: ", inner),
        Fault::Settings(inner) => push_table(out, b"settings: ", inner),
        Fault::Values(inner) => push_record(out, b"values: ", inner),
        Fault::NoValue => out.extend_from_slice(b"NoValue"),
        Fault::NotSiteValue => out.extend_from_slice(b"NotSiteValue"),
        Fault::Demand(inner) => push_table(out, b"demand: ", inner),
        Fault::Costs(inner) => push_table(out, b"costs: ", inner),
        Fault::Capacity(inner) => push_table(out, b"capacity: ", inner),
        Fault::Build(inner) => {
            out.extend_from_slice(b"build: ")?;
            push_build_fault(out, inner)
        }
        Fault::Cert(inner) => {
            out.extend_from_slice(b"certificate: ")?;
            push_cert_fault(out, inner)
        }
        Fault::Refused(reason) => {
            out.extend_from_slice(b"check: ")?;
            out.extend_from_slice(reason_word(*reason))
        }
        Fault::WrongKind => out.extend_from_slice(b"WrongKind"),
        Fault::OutOfMemory => out.extend_from_slice(b"OutOfMemory"),
        Fault::Log(inner) => {
            out.extend_from_slice(b"log: ")?;
            push_log_fault(out, inner)
        }
        Fault::BadFronts => out.extend_from_slice(b"BadFronts"),
    }
}

/// The line that reports a fault: `hsplan: `, the part with the fault and `: ` where there is such a part, the fault
/// with its fields, LF.
///
/// # Errors
///
/// An `AllocError` where memory runs out.
pub fn fault_line(alloc: Global, fault: &Fault) -> Result<Vec<u8>, AllocError>
    ensures { IfOk result (λ line. line.items ≡ fault_text fault.now) }
{
    let mut line = Vec::new(alloc);
    line.extend_from_slice(b"hsplan: ")?;
    push_fault(&mut line, fault)?;
    line.extend_from_slice(b"\n")?;
    Ok(line)
}

// The status at a fault of a run over a log.
fn log_status(fault: LogFault) -> u8
    ensures { result ≡ log_status fault }
{
    match fault {
        LogFault::ReadFailed | LogFault::WriteFailed => 5,
        LogFault::OutOfMemory => 4,
        LogFault::Header
        | LogFault::Fields { .. }
        | LogFault::BadHandle { .. }
        | LogFault::LogTooLong
        | LogFault::BadBody { .. }
        | LogFault::BadFront { .. } => 1,
    }
}

/// The status that the program ends with at a fault: 5 for a log that can't be read to its end and for answers that
/// can't be written, 4 where memory runs out, 3 for a certificate that is refused or of the wrong kind, and otherwise
/// 1.
pub fn fault_status(fault: &Fault) -> u8
    ensures { result ≡ status_in fault.now }
{
    match fault {
        Fault::BadOption
        | Fault::BadServers
        | Fault::BadIndex
        | Fault::Handle(_)
        | Fault::Site(_)
        | Fault::Settings(_)
        | Fault::Values(_)
        | Fault::NoValue
        | Fault::NotSiteValue
        | Fault::Demand(_)
        | Fault::Costs(_)
        | Fault::Capacity(_)
        | Fault::Build(_)
        | Fault::Cert(_)
        | Fault::BadFronts => 1,
        Fault::Refused(_) | Fault::WrongKind => 3,
        Fault::OutOfMemory => 4,
        Fault::Log(inner) => log_status(*inner),
    }
}
