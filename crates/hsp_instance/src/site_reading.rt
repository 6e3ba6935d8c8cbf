// The sites of settings, by the records that the settings or a value list hold.

ghost use Rattle.std.specs.Prelude.{◌≡◌, ◌≤◌, ◌<◌, ◌+◌, ◌⊎◌, Ok, Err, Some, length, map, option_map, slice_get, take};
ghost use Rattle.std.specs.Prelude.{OnOk, IfOk, IfErr};
ghost use Rattle.hsp_tables.specs.SettingsRows.{source_shown};
ghost use Rattle.hsp_instance.specs.declared.fault.BuildFault.TheVariants.{OutOfMemory};
ghost use Rattle.hsp_text.specs.Answers.{Gives, GivesUnless, Stands};
ghost use Rattle.hsp_instance.specs.Building.{AreSitesOf, IsSiteIn, IsSiteOf, checked_site, has_id, has_id_twice};
ghost use Rattle.hsp_instance.specs.Building.{server_of_record, site_octets, site_of_reading, site_value};

use crate::fault::BuildFault;
use crate::sites::{Site, SiteServer, Sites};
use hsp_hash::HashOption;
use hsp_record::{RecordFault, SiteRecord, Value, ValueList, decode_site};
use hsp_tables::{Settings, Source};
use hsp_text::limits::MOST_SERVERS;
use std::alloc::{AllocError, Global};

// The type of a value that is a site record.
const SITE_TYPE: &[u8] = b"HS_SITE";

// The octets of a value that is a site record.
fn site_value<'a>(number: u32, value: Option<Value<'a>>) -> Result<&'a [u8], BuildFault>
    ensures { Gives (λ o. o.now) result (site_value number value.entry) }
{
    let Some(value) = value else {
        return Err(BuildFault::NoValue { site: number });
    };
    if value.type_octets() != SITE_TYPE {
        return Err(BuildFault::NotSiteValue { site: number });
    }
    Ok(value.octets())
}

/// The octets of the record of a site: those of its source, or the data of the value with the source's index.
///
/// # Errors
///
/// In this order, each with the site's number: `NoValue` (also where no value list was given), `NotSiteValue`.
pub fn site_octets<'a>(
    values: Option<&ValueList<'a>>,
    number: u32,
    source: Source<'a>,
) -> Result<&'a [u8], BuildFault>
    ensures { Gives (λ o. o.now) result
        (site_octets (option_map (λ v. v.now) values.entry) number (source_shown source.entry)) }
{
    match (source, values) {
        (Source::Octets(octets), _) => Ok(octets),
        (Source::Index(_), None) => Err(BuildFault::NoValue { site: number }),
        (Source::Index(index), Some(values)) => site_value(number, values.find(index)),
    }
}

// The servers of a record, by their identifiers and addresses.
#[tactic(auto, using(crate::proofs::Lists::map_take_next, crate::proofs::Lists::take_whole))]
fn servers_of_record(alloc: Global, decoded: &SiteRecord) -> Result<Vec<SiteServer>, AllocError>
    ensures servers { IfOk result (λ v. v.items ≡ map server_of_record decoded.now.servers) }
    ensures limit { IfOk result (λ v. length v.items ≤ MOST_SERVERS) }
{
    let mut servers = Vec::new(alloc);
    for place in 0..decoded.server_count() {
        let server = decoded.server(place);
        servers.push(SiteServer {
            id: server.id(),
            address: server.address(),
        })?;
    }
    Ok(servers)
}

// Whether one of the servers has the identifier.
pub(crate) fn has_id(id: u32, servers: &[SiteServer]) -> bool
    ensures { result ≡ has_id id servers.now }
{
    for server in servers {
        if server.id == id {
            return true;
        }
    }
    false
}

// Whether two of the servers have one identifier.
fn has_id_twice(servers: &[SiteServer]) -> bool
    ensures { result ≡ has_id_twice servers.now }
{
    let mut rest = servers;
    'rest: while let Some((first, others)) = rest.split_first() {
        if has_id(first.id, others) {
            return true;
        }
        rest = others;
    }
    false
}

// The site, if it is as it should be. The sites before it have `before` servers together.
fn checked_site(number: u32, before: u32, site: Site) -> Result<Site, BuildFault>
    requires start { before ≤ MOST_SERVERS }
    requires few { length site.servers ≤ MOST_SERVERS }
    ensures { Gives (λ s. s) result (checked_site number before site) }
{
    let count = site.servers.len() as u32;
    if count == 0 {
        return Err(BuildFault::NoServer { site: number });
    }
    if has_id_twice(site.servers.as_slice()) {
        return Err(BuildFault::ServerIdTwice { site: number });
    }
    if before + count > MOST_SERVERS as u32 {
        return Err(BuildFault::TooManyServers);
    }
    Ok(site)
}

// The site of a record.
fn site_of_record(
    alloc: Global,
    number: u32,
    before: u32,
    name: &[u8],
    decoded: &SiteRecord,
) -> Result<Site, BuildFault>
    requires { before ≤ MOST_SERVERS }
    ensures { GivesUnless OutOfMemory (λ x. x) result
        (site_of_reading number before name.now (Ok decoded.now)) }
{
    let Some(option) = HashOption::of_octet(decoded.option_octet()) else {
        return Err(BuildFault::BadHashOption { site: number });
    };
    let servers = servers_of_record(alloc, decoded)?;
    let name = Vec::from_slice(alloc, name)?;
    let site = Site {
        name,
        option,
        servers,
    };
    checked_site(number, before, site)
}

// The site that octets are.
fn site_in(
    alloc: Global,
    number: u32,
    before: u32,
    name: &[u8],
    octets: &[u8],
) -> Result<Site, BuildFault>
    requires { before ≤ MOST_SERVERS }
    ensures { Stands OutOfMemory (λ x. x) (IsSiteIn number before name.now octets.now) result }
{
    match decode_site(alloc, octets) {
        Ok(decoded) => site_of_record(alloc, number, before, name, &decoded),
        Err(RecordFault::OutOfMemory) => Err(BuildFault::OutOfMemory),
        Err(fault) => Err(BuildFault::BadRecord {
            site: number,
            fault,
        }),
    }
}

/// The sites of the settings, by their records.
///
/// # Errors
///
/// Site by site, the first in this order: `NoValue` (also where no value list was given), `NotSiteValue`, `BadRecord`,
/// `BadHashOption`, `NoServer`, `ServerIdTwice`, `TooManyServers` (its servers and those of the sites before it are
/// more than 1,024). `OutOfMemory` where memory runs out.
pub fn build_sites(
    alloc: Global,
    settings: &Settings,
    values: Option<&ValueList<'_>>,
) -> Result<Sites, BuildFault>
    ensures { Stands OutOfMemory (λ x. x)
        (AreSitesOf settings.now (option_map (λ v. v.now) values.entry)) result }
{
    let mut sites: Vec<Site> = Vec::new(alloc);
    let mut before: u32 = 0;
    'sites: for number in 0..settings.len() {
        let name = settings.name(number);
        let source = settings.source(number);
        let octets = site_octets(values, number, source)?;
        let site = site_in(alloc, number, before, name, octets)?;
        before += site.servers.len() as u32;
        sites.push(site)?;
    }
    Ok(Sites { sites })
}
