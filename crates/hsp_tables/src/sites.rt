// The sites of the settings.

ghost use Rattle.std.specs.Prelude.{◌≡◌, ◌<◌, ◌⊎◌, [], Ok, Err, length, map, option_map, IfErr, OnOk};
ghost use Rattle.std.specs.List.{list_any};
ghost use Rattle.toml.specs.View.{items_view, table_view, view};
ghost use Rattle.hsp_tables.specs.declared.fault.TableFault.TheVariants.{OutOfMemory};
ghost use Rattle.hsp_text.specs.Answers.{Gives, GivesUnless};
ghost use Rattle.hsp_tables.specs.InTurn.{rows_after, with_row};
ghost use Rattle.hsp_tables.specs.Settings.{elements_in, index_source, record_source, same_name, site_after, site_in};
ghost use Rattle.hsp_tables.specs.Settings.{site_name, site_source};
ghost use Rattle.hsp_tables.specs.SettingsRows.{site_entry, source_entry};

use crate::fault::TableFault;
use crate::members::{has_site_keys, integer_of, member, text_of};
use hex::FromHexError;
use hsp_text::is_name;
use hsp_text::limits::MOST_SITES;
use std::alloc::Global;
use toml::{Table, Value};

/// What a site is read from.
#[derive(Clone, Copy)]
pub enum Source<'a> {
    /// The octets of a site record.
    Octets(&'a [u8]),
    /// The index of a value in the value list.
    Index(u32),
}

// What a site is read from, as the settings hold it.
#[derive(Drop)]
pub(crate) enum OwnedSource {
    Octets(Vec<u8>),
    Index(u32),
}

// A site of the settings.
#[derive(Drop)]
pub(crate) struct SettingsSite {
    pub(crate) name: Vec<u8>,
    pub(crate) source: OwnedSource,
}

// The name of a site.
fn site_name(number: u32, value: Option<&Value>) -> Result<&[u8], TableFault>
    ensures { Gives (λ o. o.now) result
        (site_name number (option_map (λ v. view v.now) value.entry)) }
{
    let fault = TableFault::BadSite { site: number };
    let name = text_of(fault, value)?.as_bytes();
    if !is_name(name) {
        return Err(fault);
    }
    Ok(name)
}

// The octets of a record.
fn record_source(alloc: Global, number: u32, value: &Value) -> Result<OwnedSource, TableFault>
    ensures { GivesUnless OutOfMemory source_entry result (record_source number (view value.now)) }
{
    let fault = TableFault::BadSite { site: number };
    let text = text_of(fault, Some(value))?;
    match hex::decode(alloc, text) {
        Ok(octets) => Ok(OwnedSource::Octets(octets)),
        Err(FromHexError::OutOfMemory) => Err(TableFault::OutOfMemory),
        Err(_) => Err(fault),
    }
}

// The index of a value.
fn index_source(number: u32, value: &Value) -> Result<OwnedSource, TableFault>
    ensures { Gives source_entry result (index_source number (view value.now)) }
{
    let fault = TableFault::BadSite { site: number };
    let index = integer_of(fault, Some(value))?;
    match u32::try_from(index) {
        Ok(index) => Ok(OwnedSource::Index(index)),
        Err(_) => Err(fault),
    }
}

// What a site is read from, of which there is exactly one.
fn site_source(
    alloc: Global,
    number: u32,
    octets: Option<&Value>,
    index: Option<&Value>,
) -> Result<OwnedSource, TableFault>
    ensures { GivesUnless OutOfMemory source_entry result (
        site_source number (option_map (λ v. view v.now) octets.entry)
        (option_map (λ v. view v.now) index.entry)) }
{
    match (octets, index) {
        (Some(octets), None) => record_source(alloc, number, octets),
        (None, Some(index)) => index_source(number, index),
        _ => Err(TableFault::BadSite { site: number }),
    }
}

// The site that a table spells.
fn site_in(alloc: Global, number: u32, table: &Table) -> Result<SettingsSite, TableFault>
    ensures { GivesUnless OutOfMemory site_entry result (site_in number (table_view table.now)) }
{
    if !has_site_keys(table) {
        return Err(TableFault::UnknownKey);
    }
    let name = site_name(number, member(table, "name"))?;
    let octets = member(table, "record");
    let source = site_source(alloc, number, octets, member(table, "index"))?;
    Ok(SettingsSite {
        name: Vec::from_slice(alloc, name)?,
        source,
    })
}

// Whether an earlier site has the name of a site.
fn has_name(sites: &[SettingsSite], new: &SettingsSite) -> bool
    ensures { result ≡ list_any (same_name (site_entry new.now)) (map site_entry sites.now) }
{
    for site in sites {
        if new.name.as_slice() == site.name.as_slice() {
            return true;
        }
    }
    false
}

// Adds the site of a further element.
fn add_site(alloc: Global, sites: &mut Vec<SettingsSite>, value: &Value) -> Result<(), TableFault>
    ensures ok { OnOk result (
        with_row site_after (map site_entry sites.old.items) (view value.now)
        ≡ Ok (map site_entry sites.new.items)) }
    ensures err { IfErr result (λ e. (e ≡ OutOfMemory)
        ⊎ (with_row site_after (map site_entry sites.old.items) (view value.now) ≡ Err e)) }
{
    if sites.len() >= MOST_SITES {
        return Err(TableFault::TooManySites);
    }
    let number = sites.len() as u32;
    let Some(table) = value.as_table() else {
        return Err(TableFault::BadSite { site: number });
    };
    let site = site_in(alloc, number, table)?;
    if has_name(sites.as_slice(), &site) {
        return Err(TableFault::SiteTwice { site: number });
    }
    sites.push(site)?;
    Ok(())
}

// The sites of the elements of an array.
pub(crate) fn sites_in(alloc: Global, values: &[Value]) -> Result<Vec<SettingsSite>, TableFault>
    ensures { GivesUnless OutOfMemory (λ v. map site_entry v.items) result (
        rows_after site_after [] (elements_in (items_view values.now))) }
{
    let mut sites = Vec::new(alloc);
    for value in values {
        add_site(alloc, &mut sites, value)?;
    }
    Ok(sites)
}
