// The settings: the sites and the hosts that a TOML document lists.

ghost use Rattle.std.specs.Prelude.{◌≡◌, ◌<◌, Some, codes, length, map, option_map, slice_get};
ghost use Rattle.toml.specs.Data.{get_member};
ghost use Rattle.toml.specs.View.{table_view, view};
ghost use Rattle.hsp_tables.specs.declared.fault.TableFault.TheVariants.{BadHost, BadSite, OutOfMemory};
ghost use Rattle.hsp_text.specs.Answers.{GivesUnless};
ghost use Rattle.hsp_tables.specs.Settings.{AreSettings, host_after, listed, settings_of, site_after};
ghost use Rattle.hsp_tables.specs.SettingsRows.{host_entry, site_entry, source_shown};

use crate::fault::TableFault;
use crate::hosts::{Host, hosts_in};
use crate::members::{document_in, has_root_keys, member};
use crate::sites::{OwnedSource, SettingsSite, Source, sites_in};
use std::alloc::Global;
use std::marker::Model;
use toml::{Table, Value};

/// The settings: sites of distinct names, and hosts of distinct addresses, each in the order of the document.
///
/// There are at most 32 sites and 1,024 hosts.
#[derive(Drop)]
pub struct Settings {
    sites: Vec<SettingsSite>,
    hosts: Vec<Host>,
}

impl Model for Settings {
    ghost use Rattle.std.specs.Prelude.{map};
    ghost use Rattle.hsp_tables.specs.Settings.{AreSettings, SettingsEntries};
    ghost use Rattle.hsp_tables.specs.SettingsRows.{host_entry, site_entry};

    ghost Value = { SettingsEntries };

    ghost view = { λ t. record {
      sites = map site_entry t.sites.items;
      hosts = map host_entry t.hosts.items;
    } };

    ghost invariant = { λ t. AreSettings (record {
      sites = map site_entry t.sites.items;
      hosts = map host_entry t.hosts.items;
    }) };
}

impl Settings {
    /// How many sites there are.
    pub fn len(&self) -> u32
        ensures count { result ≡ length self.now.sites }
        // The settings are within their limits, each site and host is as it should be, no two sites have the same name,
        // and no two hosts have the same address.
        ensures settings { AreSettings self.now }
    {
        self.sites.len() as u32
    }

    /// The name of the site with this number, which is below [`Settings::len`].
    pub fn name(&self, number: u32) -> &[u8]
        requires { number < length self.now.sites }
        ensures { option_map (λ s. s.name) (slice_get self.now.sites number) ≡ Some result.now }
    {
        self.sites[number as usize].name.as_slice()
    }

    /// What the site with this number is read from. The number is below [`Settings::len`].
    pub fn source(&self, number: u32) -> Source<'_>
        requires { number < length self.now.sites }
        ensures { option_map (λ s. s.source) (slice_get self.now.sites number)
            ≡ Some (source_shown result) }
    {
        match &self.sites[number as usize].source {
            OwnedSource::Octets(octets) => Source::Octets(octets.as_slice()),
            OwnedSource::Index(index) => Source::Index(*index),
        }
    }

    /// How many hosts there are.
    pub fn host_count(&self) -> u32
        ensures count { result ≡ length self.now.hosts }
        // The settings are within their limits, as [`Settings::len`] states.
        ensures settings { AreSettings self.now }
    {
        self.hosts.len() as u32
    }

    /// The address and the limit of the host with this number, which is below [`Settings::host_count`].
    pub fn host(&self, number: u32) -> ([u8; 16], u64)
        requires { number < length self.now.hosts }
        ensures { slice_get self.now.hosts number
            ≡ Some (record { address = result.0; limit = result.1 }) }
    {
        let host = &self.hosts[number as usize];
        (host.address, host.limit)
    }
}

// The sites of the array `site`, if there is one.
fn listed_sites(alloc: Global, table: &Table) -> Result<Vec<SettingsSite>, TableFault>
    ensures { GivesUnless OutOfMemory (λ v. map site_entry v.items) result (
        listed (BadSite 0) site_after (get_member (codes "site") (table_view table.now))) }
{
    let Some(value) = member(table, "site") else {
        return Ok(Vec::new(alloc));
    };
    match value.as_array() {
        Some(values) => sites_in(alloc, values.as_slice()),
        None => Err(TableFault::BadSite { site: 0 }),
    }
}

// The hosts of the array `host`, if there is one.
fn listed_hosts(alloc: Global, table: &Table) -> Result<Vec<Host>, TableFault>
    ensures { GivesUnless OutOfMemory (λ v. map host_entry v.items) result (
        listed (BadHost 0) host_after (get_member (codes "host") (table_view table.now))) }
{
    let Some(value) = member(table, "host") else {
        return Ok(Vec::new(alloc));
    };
    match value.as_array() {
        Some(values) => hosts_in(alloc, values.as_slice()),
        None => Err(TableFault::BadHost { host: 0 }),
    }
}

/// The settings that a TOML document lists.
///
/// Each element of `site` has a `name` and exactly one of `record`, in hexadecimal digits, and `index`, from 0 to
/// 4,294,967,295. Each element of `host` has an `address` of 32 hexadecimal digits and a `limit` from 0 to
/// 1,000,000,000,000.
///
/// ```
/// let settings = read_settings(alloc, b"[[site]]\nname = \"E\"\nindex = 1\n")?;
/// assert!(rt; settings.len() == 1 && settings.name(0) == b"E".as_slice());
/// assert!(rt; matches!(settings.source(0), Source::Index(1)));
/// ```
///
/// # Errors
///
/// The first in this order: `NotToml`; `UnknownKey` of the document; `BadSite` of site 0 where `site` is not an array;
/// then site by site `TooManySites` (this element is one too many), `BadSite` where it is not a table, `UnknownKey`,
/// `BadSite`, `SiteTwice`; then the same for the hosts. `OutOfMemory` where memory runs out.
pub fn read_settings(alloc: Global, octets: &[u8]) -> Result<Settings, TableFault>
    ensures { GivesUnless OutOfMemory (λ x. x) result (settings_of octets.now) }
{
    let table = document_in(alloc, octets)?;
    if !has_root_keys(&table) {
        return Err(TableFault::UnknownKey);
    }
    let sites = listed_sites(alloc, &table)?;
    let hosts = listed_hosts(alloc, &table)?;
    Ok(Settings { sites, hosts })
}
