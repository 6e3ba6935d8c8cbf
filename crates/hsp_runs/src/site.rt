// The fields of a site record, as the program prints them.

ghost use Rattle.std.specs.Prelude.{◌≡◌, ◌++◌, ◌∷◌, [], ◌<◌, length, OnOk, IfOk, option_map, codes};
ghost use Rattle.hsp_record.specs.Site.{IsSite};
ghost use Rattle.hsp_text.specs.Writing.{numbered};
ghost use Rattle.hsp_runs.specs.SiteText.{IsRecordRun, IsSiteRun, IsValueRun, counts_text, numbers_text, server_line};
ghost use Rattle.hsp_runs.specs.SiteText.{server_lines, site_text};

use hsp_inputs::{Fault, named, push_address};
use hsp_record::{ServerRecord, SiteRecord, decode_site, decode_values};
use hsp_text::{push_line, push_whole, read_whole};
use std::alloc::{AllocError, Global};

// The greatest index of a value.
const MOST_INDEX: u64 = 4_294_967_295;

// The lines of the numbers at the front of a record.
fn push_numbers(out: &mut Vec<u8>, site: &SiteRecord) -> Result<(), AllocError>
    ensures { OnOk result (out.new.items ≡ out.old.items ++ numbers_text site.now) }
{
    let (major, minor) = site.protocol();
    push_line(out, b"version", &[u64::from(site.version())])?;
    push_line(out, b"protocol", &[u64::from(major), u64::from(minor)])?;
    push_line(out, b"serial", &[u64::from(site.serial())])?;
    push_line(out, b"mask", &[u64::from(site.mask())])?;
    push_line(out, b"option", &[u64::from(site.option_octet())])
}

// A line of a word and a count.
fn push_counted(out: &mut Vec<u8>, word: &[u8], count: usize) -> Result<(), AllocError>
    ensures { OnOk result (out.new.items ≡ out.old.items ++ numbered word.now (count ∷ [])) }
{
    push_line(out, word, &[count as u64])
}

fn push_filter(out: &mut Vec<u8>, filter: &[u8]) -> Result<(), AllocError>
    ensures { OnOk result (out.new.items ≡ out.old.items
        ++ numbered (codes "filter") (length filter.now ∷ [])) }
{
    push_counted(out, b"filter", filter.len())
}

// The line of the filter, and how many attributes and servers there are.
fn push_counts(out: &mut Vec<u8>, site: &SiteRecord) -> Result<(), AllocError>
    ensures { OnOk result (out.new.items ≡ out.old.items ++ counts_text site.now) }
{
    push_filter(out, site.filter())?;
    push_counted(out, b"attributes", site.attribute_count())?;
    push_counted(out, b"servers", site.server_count())
}

fn push_server(out: &mut Vec<u8>, place: u32, server: &ServerRecord) -> Result<(), AllocError>
    ensures { OnOk result (out.new.items ≡ out.old.items ++ server_line place server.now) }
{
    out.extend_from_slice(b"server ")?;
    push_whole(out, u64::from(place))?;
    out.extend_from_slice(b" ")?;
    push_whole(out, u64::from(server.id()))?;
    out.extend_from_slice(b" ")?;
    push_address(out, server.address())?;
    push_line(
        out,
        b"",
        &[server.key().len() as u64, server.interface_count() as u64],
    )
}

fn push_servers(out: &mut Vec<u8>, site: &SiteRecord) -> Result<(), AllocError>
    ensures { OnOk result (out.new.items ≡ out.old.items ++ server_lines 0 site.now.servers) }
{
    let count = site.server_count();
    for place in 0..count {
        push_server(out, place as u32, site.server(place))?;
    }
    Ok(())
}

// The text of a record.
fn site_text(alloc: Global, site: &SiteRecord) -> Result<Vec<u8>, AllocError>
    ensures { IfOk result (λ text. text.items ≡ site_text site.now) }
{
    let mut text = Vec::new(alloc);
    push_numbers(&mut text, site)?;
    push_counts(&mut text, site)?;
    push_servers(&mut text, site)?;
    Ok(text)
}

// The text of the record that the octets spell.
fn record_run(alloc: Global, octets: &[u8]) -> Result<Vec<u8>, Fault>
    ensures { IsRecordRun octets.now result }
{
    let site = named(decode_site(alloc, octets), Fault::Site)?;
    Ok(site_text(alloc, &site)?)
}

// The text of the record that is the data of the value with this index.
fn value_run(alloc: Global, octets: &[u8], index: u32) -> Result<Vec<u8>, Fault>
    ensures { IsValueRun octets.now index result }
{
    let values = named(decode_values(alloc, octets), Fault::Values)?;
    let Some(value) = values.find(index) else {
        return Err(Fault::NoValue);
    };
    if value.type_octets() != b"HS_SITE".as_slice() {
        return Err(Fault::NotSiteValue);
    }
    record_run(alloc, value.octets())
}

/// The fields of a site record, one on each line. The record is the octets themselves or, with an index, the value with
/// this index in the value list that they spell.
///
/// # Errors
///
/// In this order: `BadIndex`, `Values`, `NoValue`, `NotSiteValue`, `Site`; `OutOfMemory` where memory runs out.
pub fn site_run(alloc: Global, octets: &[u8], index: Option<&[u8]>) -> Result<Vec<u8>, Fault>
    ensures { IsSiteRun octets.now (option_map (λ digits. digits.now) index.entry) result }
{
    let Some(digits) = index else {
        return record_run(alloc, octets);
    };
    match read_whole(digits, MOST_INDEX) {
        Ok(index) => value_run(alloc, octets, index as u32),
        Err(_) => Err(Fault::BadIndex),
    }
}
