// What the fields of a record spell.

ghost use Rattle.std.specs.Prelude.{◌≤◌, IfOk};
ghost use Rattle.hsp_names.specs.Lent.{octets_of};
ghost use Rattle.hsp_text.specs.Answers.{Gives};
ghost use Rattle.hsp_tables.specs.Fields.{handle_in, name_in, number_in};

use crate::fault::TableFault;
use hsp_names::HandleRef;
use hsp_text::{is_name, read_whole};

// A field that is the name of a region or a site.
pub(crate) fn name_in(row: u32, octets: &[u8]) -> Result<&[u8], TableFault>
    ensures { Gives (λ o. o.now) result (name_in row octets.now) }
{
    if !is_name(octets) {
        return Err(TableFault::BadName { row });
    }
    Ok(octets)
}

// A field that is a handle.
pub(crate) fn handle_in(row: u32, octets: &[u8]) -> Result<HandleRef<'_>, TableFault>
    ensures { Gives octets_of result (handle_in row octets.now) }
{
    match HandleRef::parse(octets) {
        Ok(handle) => Ok(handle),
        Err(fault) => Err(TableFault::BadHandle { row, fault }),
    }
}

// A field that is a whole number of at most `most`.
pub(crate) fn number_in(row: u32, octets: &[u8], most: u64) -> Result<u64, TableFault>
    ensures number { Gives (λ n. n) result (number_in row most octets.now) }
    ensures within { IfOk result (λ n. n ≤ most) }
{
    match read_whole(octets, most) {
        Ok(number) => Ok(number),
        Err(_) => Err(TableFault::BadNumber { row }),
    }
}
