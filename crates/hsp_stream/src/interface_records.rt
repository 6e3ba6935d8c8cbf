// The rows of sites, by the records that their octets spell.

ghost use Rattle.std.specs.Prelude.{IfOk, option_map};
ghost use Rattle.hsp_tables.specs.SettingsRows.{source_shown};
ghost use Rattle.hsp_stream.specs.Interfaces.{HasRecord, HaveRecords, IsRecordOf, IsTable};

use crate::interface_rows::push_record;
use hsp_instance::site_octets;
use hsp_record::{RecordFault, SiteRecord, ValueList, decode_site};
use hsp_tables::{Settings, Source};
use std::alloc::{AllocError, Global};

// The first line of the table.
const HEADER: &[u8] = b"site,place,server_id,address,type,protocol,port\n";

// The record of a site whose octets spell one.
fn record_of(
    alloc: Global,
    values: Option<&ValueList<'_>>,
    number: u32,
    source: Source<'_>,
) -> Result<SiteRecord, AllocError>
    requires { HasRecord (option_map (λ v. v.now) values) number (source_shown source) }
    ensures { IfOk result
        (IsRecordOf (option_map (λ v. v.now) values.entry) number (source_shown source.entry)) }
{
    let Ok(octets) = site_octets(values, number, source) else {
        unreachable!();
    };
    match decode_site(alloc, octets) {
        Ok(site) => Ok(site),
        Err(fault) => {
            let is_out_of_memory = fault == RecordFault::OutOfMemory;
            prove!(is_out_of_memory);
            Err(AllocError)
        }
    }
}

/// The table of sites whose octets spell records.
pub(crate) fn table_of(
    alloc: Global,
    settings: &Settings,
    values: Option<&ValueList<'_>>,
) -> Result<Vec<u8>, AllocError>
    requires { HaveRecords (option_map (λ v. v.now) values) 0 settings.now.sites }
    ensures { IfOk result (λ text. IsTable (option_map (λ v. v.now) values.entry)
        settings.now.sites text.items) }
{
    let mut text = Vec::from_slice(alloc, HEADER)?;
    for number in 0..settings.len() {
        let (name, source) = (settings.name(number), settings.source(number));
        let site = record_of(alloc, values, number, source)?;
        push_record(alloc, &mut text, name, &site)?;
    }
    Ok(text)
}
