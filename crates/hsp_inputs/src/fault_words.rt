// The words of the faults that lower calls return.

ghost use Rattle.std.specs.Prelude.{◌≡◌, ◌++◌, ◌∷◌, OnOk, decimal};
ghost use Rattle.hsp_tables.specs.declared.fault.TableFault.TheVariants as table_fault;
ghost use Rattle.hsp_instance.specs.declared.fault.BuildFault.TheVariants as build_fault;
ghost use Rattle.hsp_inputs.specs.FaultText.{build_words, cert_words, handle_words, host_words, log_words, reason_word};
ghost use Rattle.hsp_inputs.specs.FaultText.{record_words, row_words, site_words, table_name, table_words};

use hsp_cert::CertFault;
use hsp_check::Reason;
use hsp_instance::{BuildFault, Table};
use hsp_log::LogFault;
use hsp_names::HandleFault;
use hsp_record::RecordFault;
use hsp_tables::TableFault;
use hsp_text::push_whole;
use std::alloc::AllocError;

/// Appends a text and the digits of a number.
///
/// # Errors
///
/// An `AllocError` where memory runs out.
pub fn push_with(out: &mut Vec<u8>, text: &[u8], number: u64) -> Result<(), AllocError>
    ensures { OnOk result (out.new.items ≡ out.old.items ++ (text.now ++ decimal number)) }
{
    out.extend_from_slice(text)?;
    push_whole(out, number)
}

/// The words of a handle's fault.
pub fn handle_words(fault: &HandleFault) -> &'static [u8]
    ensures { result.now ≡ handle_words fault.now }
{
    match fault {
        HandleFault::TooLong => b"TooLong",
        HandleFault::NotUtf8 => b"NotUtf8",
        HandleFault::NoSlash => b"NoSlash",
        HandleFault::EmptySegment => b"EmptySegment",
    }
}

/// Appends a record's fault with its fields.
pub(crate) fn push_record_fault(out: &mut Vec<u8>, fault: &RecordFault) -> Result<(), AllocError>
    ensures { OnOk result (out.new.items ≡ out.old.items ++ record_words fault.now) }
{
    match fault {
        RecordFault::Truncated { at } => push_with(out, b"Truncated at ", *at as u64),
        RecordFault::Trailing { at } => push_with(out, b"Trailing at ", *at as u64),
        RecordFault::TooManyServers => out.extend_from_slice(b"TooManyServers"),
        RecordFault::IndexTwice { index } => push_with(
            out,
            b"IndexTwice index ",
            u64::from(*index),
        ),
        RecordFault::OutOfMemory => out.extend_from_slice(b"OutOfMemory"),
    }
}

fn push_row(out: &mut Vec<u8>, word: &[u8], row: u32) -> Result<(), AllocError>
    ensures { OnOk result (out.new.items ≡ out.old.items ++ row_words word.now row) }
{
    out.extend_from_slice(word)?;
    push_with(out, b" row ", u64::from(row))
}

fn push_site(out: &mut Vec<u8>, word: &[u8], site: u32) -> Result<(), AllocError>
    ensures { OnOk result (out.new.items ≡ out.old.items ++ site_words word.now site) }
{
    out.extend_from_slice(word)?;
    push_with(out, b" site ", u64::from(site))
}

fn push_host(out: &mut Vec<u8>, word: &[u8], host: u32) -> Result<(), AllocError>
    ensures { OnOk result (out.new.items ≡ out.old.items ++ host_words word.now host) }
{
    out.extend_from_slice(word)?;
    push_with(out, b" host ", u64::from(host))
}

fn push_bad_handle(out: &mut Vec<u8>, row: u32, fault: &HandleFault) -> Result<(), AllocError>
    ensures { OnOk result (out.new.items ≡ out.old.items
        ++ table_words (table_fault.BadHandle row fault.now)) }
{
    push_row(out, b"BadHandle", row)?;
    out.extend_from_slice(b" ")?;
    out.extend_from_slice(handle_words(fault))
}

/// Appends a fault of the settings or of a table with its fields.
pub(crate) fn push_table_fault(out: &mut Vec<u8>, fault: &TableFault) -> Result<(), AllocError>
    ensures { OnOk result (out.new.items ≡ out.old.items ++ table_words fault.now) }
{
    match fault {
        TableFault::NotToml => out.extend_from_slice(b"NotToml"),
        TableFault::UnknownKey => out.extend_from_slice(b"UnknownKey"),
        TableFault::BadSite { site } => push_site(out, b"BadSite", *site),
        TableFault::SiteTwice { site } => push_site(out, b"SiteTwice", *site),
        TableFault::Header => out.extend_from_slice(b"Header"),
        TableFault::Fields { row } => push_row(out, b"Fields", *row),
        TableFault::BadName { row } => push_row(out, b"BadName", *row),
        TableFault::BadHandle { row, fault } => push_bad_handle(out, *row, fault),
        TableFault::BadNumber { row } => push_row(out, b"BadNumber", *row),
        TableFault::RowTwice { row } => push_row(out, b"RowTwice", *row),
        TableFault::TooManyRows => out.extend_from_slice(b"TooManyRows"),
        TableFault::TooManySites => out.extend_from_slice(b"TooManySites"),
        TableFault::TooManyRegions => out.extend_from_slice(b"TooManyRegions"),
        TableFault::OutOfMemory => out.extend_from_slice(b"OutOfMemory"),
        TableFault::BadHost { host } => push_host(out, b"BadHost", *host),
        TableFault::HostTwice { host } => push_host(out, b"HostTwice", *host),
        TableFault::TooManyHosts => out.extend_from_slice(b"TooManyHosts"),
    }
}

// The name of a table in the text of a fault.
fn table_name(table: Table) -> &'static [u8]
    ensures { result.now ≡ table_name table }
{
    match table {
        Table::Costs => b"costs",
        Table::Capacity => b"capacity",
    }
}

fn push_bad_record(out: &mut Vec<u8>, site: u32, fault: &RecordFault) -> Result<(), AllocError>
    ensures { OnOk result (out.new.items ≡ out.old.items
        ++ build_words (build_fault.BadRecord site fault.now)) }
{
    push_site(out, b"BadRecord", site)?;
    out.extend_from_slice(b" ")?;
    push_record_fault(out, fault)
}

fn push_unknown_site(out: &mut Vec<u8>, table: Table, row: u32) -> Result<(), AllocError>
    ensures { OnOk result (out.new.items ≡ out.old.items
        ++ build_words (build_fault.UnknownSite table row)) }
{
    out.extend_from_slice(b"UnknownSite table ")?;
    push_row(out, table_name(table), row)
}

fn push_no_capacity(out: &mut Vec<u8>, site: u32, server_id: u32) -> Result<(), AllocError>
    ensures { OnOk result (out.new.items ≡ out.old.items
        ++ build_words (build_fault.NoCapacity site server_id)) }
{
    push_site(out, b"NoCapacity", site)?;
    push_with(out, b" server_id ", u64::from(server_id))
}

/// Appends a fault of the instance with its fields.
pub(crate) fn push_build_fault(out: &mut Vec<u8>, fault: &BuildFault) -> Result<(), AllocError>
    ensures { OnOk result (out.new.items ≡ out.old.items ++ build_words fault.now) }
{
    match fault {
        BuildFault::NoValue { site } => push_site(out, b"NoValue", *site),
        BuildFault::NotSiteValue { site } => push_site(out, b"NotSiteValue", *site),
        BuildFault::BadRecord { site, fault } => push_bad_record(out, *site, fault),
        BuildFault::BadHashOption { site } => push_site(out, b"BadHashOption", *site),
        BuildFault::NoServer { site } => push_site(out, b"NoServer", *site),
        BuildFault::ServerIdTwice { site } => push_site(out, b"ServerIdTwice", *site),
        BuildFault::TooManyServers => out.extend_from_slice(b"TooManyServers"),
        BuildFault::UnknownSite { table, row } => push_unknown_site(out, *table, *row),
        BuildFault::UnknownServer { row } => push_row(out, b"UnknownServer", *row),
        BuildFault::NoCapacity { site, server_id } => push_no_capacity(out, *site, *server_id),
        BuildFault::OutOfMemory => out.extend_from_slice(b"OutOfMemory"),
    }
}

/// Appends a certificate's fault with its line.
pub(crate) fn push_cert_fault(out: &mut Vec<u8>, fault: &CertFault) -> Result<(), AllocError>
    ensures { OnOk result (out.new.items ≡ out.old.items ++ cert_words fault.now) }
{
    match fault {
        CertFault::BadLine { line } => push_with(out, b"BadLine line ", *line),
        CertFault::Ended => out.extend_from_slice(b"Ended"),
        CertFault::AfterEnd { line } => push_with(out, b"AfterEnd line ", *line),
        CertFault::OutOfMemory => out.extend_from_slice(b"OutOfMemory"),
    }
}

/// Appends a fault of a run over a log, with its row.
pub(crate) fn push_log_fault(out: &mut Vec<u8>, fault: &LogFault) -> Result<(), AllocError>
    ensures { OnOk result (out.new.items ≡ out.old.items ++ log_words fault.now) }
{
    match fault {
        LogFault::ReadFailed => out.extend_from_slice(b"ReadFailed"),
        LogFault::WriteFailed => out.extend_from_slice(b"WriteFailed"),
        LogFault::Header => out.extend_from_slice(b"Header"),
        LogFault::Fields { row } => push_row(out, b"Fields", *row),
        LogFault::BadHandle { row } => push_row(out, b"BadHandle", *row),
        LogFault::LogTooLong => out.extend_from_slice(b"LogTooLong"),
        LogFault::OutOfMemory => out.extend_from_slice(b"OutOfMemory"),
        LogFault::BadBody { row } => push_row(out, b"BadBody", *row),
        LogFault::BadFront { row } => push_row(out, b"BadFront", *row),
    }
}

/// The name of a reason.
pub fn reason_word(reason: Reason) -> &'static [u8]
    ensures { result.now ≡ reason_word reason }
{
    match reason {
        Reason::Shape => b"Shape",
        Reason::NoSuchUse => b"NoSuchUse",
        Reason::RowSum => b"RowSum",
        Reason::Load => b"Load",
        Reason::Cost => b"Cost",
        Reason::ArcPrice => b"ArcPrice",
        Reason::UsedArcPrice => b"UsedArcPrice",
        Reason::IdlePrice => b"IdlePrice",
        Reason::DemandSum => b"DemandSum",
        Reason::CapacitySum => b"CapacitySum",
        Reason::NotShort => b"NotShort",
    }
}
