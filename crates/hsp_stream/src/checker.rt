// What looks at the rows of a table or a log.

ghost use Rattle.std.specs.Prelude.{◌≡◌, ◌∷◌, IfErr, IfNone, IfOk, IfSome, List, OnOk};
ghost use Rattle.csv.specs.Records.{fields_of};
ghost use Rattle.hsp_csv.specs.Places.{Placed};
ghost use Rattle.hsp_csv.specs.Walks.{shown};
ghost use Rattle.hsp_csv.specs.declared.found.Checked.TheVariants.{Faulty, Last};
ghost use Rattle.hsp_csv.specs.declared.found.Found.{Found as FoundFault};
ghost use Rattle.hsp_log.specs.RowChecks.{field_at_fault};
ghost use Rattle.hsp_inputs.specs.declared.fault.Fault.TheVariants.{Log};
ghost use Rattle.hsp_inputs.specs.declared.stream_fault.StreamFault.{StreamFault};
ghost use Rattle.hsp_inputs.specs.declared.stream_fault.StreamFault.TheVariants.{Input};
ghost use Rattle.hsp_stream.specs.Checkers.{IsReady, Lists, LooksAt, checked_named};
ghost use Rattle.hsp_stream.specs.Faulty.{IsDispatched, IsHeadedBy, IsUnheaded, ListsBelow, counted, counted_field};
ghost use Rattle.hsp_stream.specs.Faulty.{fault_behind, fault_of_table, found_at, found_beyond, handle_field, handled};
ghost use Rattle.hsp_stream.specs.Faulty.{header_fault, named, region_in, regions_behind};
ghost use Rattle.hsp_log.specs.RowFaults.{count_fault};

use crate::regions::see_region;
use csv::ByteRecord;
use hsp_csv::{Checked, Found, PlacedRecord};
use hsp_inputs::{Fault, StreamFault};
use hsp_log::{
    LogFault, LogForm, RowFault, check_row, count_fault, field_at_fault, handle_fault,
    is_count_header, is_handle_header, log_form,
};
use hsp_tables::{Regions, TableCheck, TableFault, TableKind, is_table_header};
use hsp_text::limits::MOST_LOG_ROWS;
use std::alloc::{AllocError, Global};

/// What is looked at.
#[derive(Clone, Copy)]
pub enum Asked {
    /// One of the three tables.
    Table(TableKind),
    /// A log, whose form its header states.
    Log,
}

/// The fault of one of the tables.
pub(crate) fn fault_of_table(kind: TableKind, fault: TableFault) -> StreamFault
    ensures { result ≡ fault_of_table kind fault }
{
    match kind {
        TableKind::Demand => StreamFault::Input(Fault::Demand(fault)),
        TableKind::Costs => StreamFault::Input(Fault::Costs(fault)),
        TableKind::Capacity => StreamFault::Input(Fault::Capacity(fault)),
    }
}

/// The fault of a first record that is no header.
pub(crate) fn header_fault(asked: Asked) -> StreamFault
    ensures { result ≡ header_fault asked }
{
    match asked {
        Asked::Table(kind) => fault_of_table(kind, TableFault::Header),
        Asked::Log => StreamFault::Input(Fault::Log(LogFault::Header)),
    }
}

/// What a header states: a table, or a form of a log.
#[derive(Clone, Copy)]
pub(crate) enum Headed {
    Table(TableKind),
    Dispatched(LogForm),
    Counted,
    Handles,
}

// The form of a log with this header.
fn log_headed_by(first: &ByteRecord) -> Option<Headed>
    ensures headed { IfSome result (IsHeadedBy Asked.Log (fields_of first.now)) }
    ensures unheaded { IfNone result (IsUnheaded Asked.Log (fields_of first.now)) }
{
    if let Some(form) = log_form(first) {
        return Some(Headed::Dispatched(form));
    }
    if is_count_header(first) {
        return Some(Headed::Counted);
    }
    if is_handle_header(first) {
        return Some(Headed::Handles);
    }
    None
}

/// What a first record states, or None where it is no header of what is asked for.
pub(crate) fn headed_by(asked: Asked, first: &ByteRecord) -> Option<Headed>
    ensures headed { IfSome result (IsHeadedBy asked (fields_of first.now)) }
    ensures unheaded { IfNone result (IsUnheaded asked (fields_of first.now)) }
{
    match asked {
        Asked::Table(kind) => {
            if is_table_header(kind, first) {
                Some(Headed::Table(kind))
            } else {
                None
            }
        }
        Asked::Log => log_headed_by(first),
    }
}

// A table with its rows without fault, or a form of a log with the number of its next row and, where it counts, the
// regions that its rows without fault name.
#[derive(Drop)]
pub(crate) enum Checker {
    Table(TableKind, TableCheck),
    Dispatched(LogForm, u32),
    Counted(u64, Regions),
    Handles(u64),
}

// The same fault of a row of a table, by the table's name.
fn found_in_table(kind: TableKind, found: Found<TableFault>) -> Found<StreamFault>
    ensures { result ≡ named kind found }
{
    Found {
        row: found.row,
        field: found.field,
        place: found.place,
        fault: fault_of_table(kind, found.fault),
    }
}

fn checked_in_table(kind: TableKind, checked: Checked<TableFault>) -> Checked<StreamFault>
    ensures { result ≡ checked_named kind checked }
{
    match checked {
        Checked::Good => Checked::Good,
        Checked::Faulty(found) => Checked::Faulty(found_in_table(kind, found)),
        Checked::Last(found) => Checked::Last(found_in_table(kind, found)),
    }
}

// A fault of the row with a number.
fn faulty(
    placed: &PlacedRecord,
    row: u64,
    field: Option<u32>,
    fault: StreamFault,
) -> Checked<StreamFault>
    ensures { result ≡ Faulty (found_at (shown placed.now) row field fault) }
{
    Checked::Faulty(Found {
        row: Some(row),
        field,
        place: placed.place_at(field),
        fault,
    })
}

// A row that is one too many.
fn too_long(placed: &PlacedRecord) -> Checked<StreamFault>
    ensures { result ≡ Last (found_beyond (shown placed.now)) }
{
    Checked::Last(Found {
        row: None,
        field: None,
        place: placed.place_at(None),
        fault: StreamFault::Input(Fault::Log(LogFault::LogTooLong)),
    })
}

// A row of a log that a run of `hsplan` refuses.
fn refused(form: LogForm, row: u32, placed: &PlacedRecord, fault: LogFault) -> Checked<StreamFault>
    ensures { result ≡ Faulty (found_at (shown placed.now) row (field_at_fault form fault)
        (Input (Log fault))) }
{
    let field = field_at_fault(form, fault);
    let fault = StreamFault::Input(Fault::Log(fault));
    faulty(placed, u64::from(row), field, fault)
}

// Looks at a row of a log that a run of `hsplan` reads.
fn check_dispatched(
    alloc: Global,
    form: LogForm,
    row: u32,
    placed: &PlacedRecord,
) -> Result<Checked<StreamFault>, AllocError>
    ensures { IfOk result (IsDispatched form row (shown placed.now)) }
{
    if row >= MOST_LOG_ROWS {
        return Ok(too_long(placed));
    }
    match check_row(alloc, form, row, placed.fields()) {
        Ok(()) => Ok(Checked::Good),
        Err(fault) => match fault {
            LogFault::OutOfMemory => Err(AllocError),
            other => Ok(refused(form, row, placed, other)),
        },
    }
}

// The number of the field at fault of a row with a region, a handle and a count.
fn counted_field(fault: &RowFault) -> Option<u32>
    ensures { result ≡ counted_field fault.now }
{
    match fault {
        RowFault::BadName { .. } => Some(0),
        RowFault::TooManyRegions { .. } => Some(0),
        RowFault::BadHandle { .. } => Some(1),
        RowFault::BadNumber { .. } => Some(2),
        _ => None,
    }
}

// The number of the field at fault of a row with a handle.
fn handle_field(fault: &RowFault) -> Option<u32>
    ensures { result ≡ handle_field fault.now }
{
    match fault {
        RowFault::BadHandle { .. } => Some(0),
        _ => None,
    }
}

// The region that a row names.
#[tactic(auto, using(crate::proofs::Looking::first_field, crate::proofs::Looking::no_field))]
fn region_in(fields: &ByteRecord) -> &[u8]
    ensures { result.now ≡ region_in (fields_of fields.now) }
{
    match fields.get(0) {
        Some(region) => region,
        None => b"",
    }
}

// The fault of a row of a region, a handle and a count, behind rows that name these regions.
fn fault_behind(
    alloc: Global,
    row: u64,
    regions: &mut Regions,
    fields: &ByteRecord,
) -> Result<Option<RowFault>, AllocError>
    ensures fault { IfOk result (λ fault. fault ≡ fault_behind regions.old row
        (fields_of fields.now) (count_fault row (fields_of fields.now))) }
    ensures regions { OnOk result (regions.new ≡ regions_behind regions.old
        (fields_of fields.now) (count_fault row (fields_of fields.now))) }
{
    if let Some(fault) = count_fault(row, fields) {
        return Ok(Some(fault));
    }
    if see_region(alloc, regions, region_in(fields))? {
        return Ok(None);
    }
    Ok(Some(RowFault::TooManyRegions { row }))
}

// Looks at a row of a region, a handle and a count.
fn check_counted(
    alloc: Global,
    row: u64,
    regions: &mut Regions,
    placed: &PlacedRecord,
) -> Result<Checked<StreamFault>, AllocError>
    ensures checked { IfOk result
        (λ checked. checked ≡ counted regions.old row (shown placed.now)) }
    ensures regions { OnOk result (regions.new ≡ regions_behind regions.old
        (shown placed.now).fields (count_fault row (shown placed.now).fields)) }
{
    match fault_behind(alloc, row, regions, placed.fields())? {
        None => Ok(Checked::Good),
        Some(fault) => {
            let field = counted_field(&fault);
            Ok(faulty(placed, row, field, StreamFault::Log(fault)))
        }
    }
}

// Looks at a row of a handle.
fn check_handle(row: u64, placed: &PlacedRecord) -> Checked<StreamFault>
    ensures { result ≡ handled row (shown placed.now) }
{
    match handle_fault(row, placed.fields()) {
        None => Checked::Good,
        Some(fault) => {
            let field = handle_field(&fault);
            faulty(placed, row, field, StreamFault::Log(fault))
        }
    }
}

impl Checker {
    /// What looks at the rows below a header.
    pub(crate) fn below(alloc: Global, headed: Headed) -> Checker
        ensures ready { IsReady result }
        ensures lists { (body : List Placed) (all : List (FoundFault StreamFault)) →
            Lists result body all → ListsBelow headed body all }
    {
        match headed {
            Headed::Table(kind) => Checker::Table(kind, TableCheck::new(alloc, kind)),
            Headed::Dispatched(form) => Checker::Dispatched(form, 0),
            Headed::Counted => Checker::Counted(0, Regions::new(alloc)),
            Headed::Handles => Checker::Handles(0),
        }
    }

    /// Looks at the next row.
    #[tactic(auto, using(crate::proofs::Looking::table_looks, crate::proofs::Looking::dispatched_looks, crate::proofs::Looking::counted_looks, crate::proofs::Looking::handled_looks))]
    pub(crate) fn check(
        &mut self,
        alloc: Global,
        placed: &PlacedRecord,
    ) -> Result<Checked<StreamFault>, AllocError>
        requires { IsReady self.old }
        ensures ready { OnOk result (IsReady self.new) }
        ensures looks { IfOk result (LooksAt self.old (shown placed.now) self.new) }
    {
        match self {
            Checker::Table(kind, rows) => {
                let checked = rows.check(alloc, placed)?;
                Ok(checked_in_table(*kind, checked))
            }
            Checker::Dispatched(form, row) => {
                let number = *row;
                *row = number.saturating_add(1);
                let checked = check_dispatched(alloc, *form, number, placed)?;
                Ok(checked)
            }
            Checker::Counted(row, regions) => {
                let number = *row;
                *row = number.saturating_add(1);
                let checked = check_counted(alloc, number, regions, placed)?;
                Ok(checked)
            }
            Checker::Handles(row) => {
                let number = *row;
                *row = number.saturating_add(1);
                Ok(check_handle(number, placed))
            }
        }
    }
}
