// The rows of a log.

ghost use Rattle.std.specs.Prelude.{◌≡◌, IfOk, option_map, true};
ghost use Rattle.csv.specs.Records.{fields_of};
ghost use Rattle.hsp_text.specs.Answers.{Gives};
ghost use Rattle.hsp_text.specs.Name.{is_name};
ghost use Rattle.hsp_log.specs.LogRows.{count_in, parts_in, row_of};
ghost use Rattle.hsp_log.specs.RowsShown.{parts_shown, row_shown};
ghost use Rattle.hsp_log.specs.declared.form.CountForm.TheVariants.{Counts, Ones};

use crate::fault::RowFault;
use crate::form::CountForm;
use csv::ByteRecord;
use hsp_csv::{three_fields, two_fields};
use hsp_names::HandleRef;
use hsp_text::{is_name, read_whole};

/// The greatest count of a row of a log.
pub const GREATEST_ROW_COUNT: u64 = 1_000_000_000_000;

/// The fields of a row.
#[derive(Clone, Copy)]
pub struct Parts<'a> {
    region: &'a [u8],
    handle: &'a [u8],
    count: Option<&'a [u8]>,
}

/// A row.
#[derive(Clone, Copy)]
pub struct LogRow<'a> {
    pub region: &'a [u8],
    pub handle: HandleRef<'a>,
    pub count: u64,
}

// The fields of a row that has a region and a handle.
#[tactic(auto, using(crate::proofs::LogRows::ones))]
fn two_in(record: &ByteRecord) -> Option<Parts<'_>>
    ensures { option_map parts_shown result ≡ parts_in Ones (fields_of «record».now) }
{
    let (region, handle) = two_fields(record)?;
    Some(Parts {
        region,
        handle,
        count: None,
    })
}

// The fields of a row that has a region, a handle and a count.
#[tactic(auto, using(crate::proofs::LogRows::counts))]
fn three_in(record: &ByteRecord) -> Option<Parts<'_>>
    ensures { option_map parts_shown result ≡ parts_in Counts (fields_of «record».now) }
{
    let (region, handle, count) = three_fields(record)?;
    Some(Parts {
        region,
        handle,
        count: Some(count),
    })
}

/// The fields of a row, where there are as many as the header names.
pub fn row_fields(record: &ByteRecord, form: CountForm) -> Option<Parts<'_>>
    ensures { option_map parts_shown result ≡ parts_in form (fields_of «record».now) }
{
    match form {
        CountForm::Ones => two_in(record),
        CountForm::Counts => three_in(record),
    }
}

// The count of a row.
fn count_in(row: u64, count: Option<&[u8]>) -> Result<u64, RowFault>
    ensures { Gives (λ count. count) result (count_in row (option_map (λ o. o.now) count.entry)) }
{
    let Some(count) = count else {
        return Ok(1);
    };
    match read_whole(count, GREATEST_ROW_COUNT) {
        Ok(count) => Ok(count),
        Err(_) => Err(RowFault::BadNumber { row }),
    }
}

/// The row that fields spell, which has the number `row`.
///
/// # Errors
///
/// In this order: `BadName`, `BadHandle`, `BadNumber`, each with the number of the row.
pub fn read_row(row: u64, parts: Parts<'_>) -> Result<LogRow<'_>, RowFault>
    ensures row { Gives row_shown result (row_of row (parts_shown parts.entry)) }
    ensures named { IfOk result (λ row. is_name row.region.now ≡ true) }
{
    if !is_name(parts.region) {
        return Err(RowFault::BadName { row });
    }
    let handle = match HandleRef::parse(parts.handle) {
        Ok(handle) => handle,
        Err(fault) => return Err(RowFault::BadHandle { row, fault }),
    };
    let count = count_in(row, parts.count)?;
    Ok(LogRow {
        region: parts.region,
        handle,
        count,
    })
}
