// The hosts of the settings.

ghost use Rattle.std.specs.Prelude.{◌≡◌, ◌<◌, ◌⊎◌, [], Ok, Err, length, map, option_map, IfErr, OnOk};
ghost use Rattle.std.specs.List.{list_any};
ghost use Rattle.toml.specs.View.{items_view, table_view, view};
ghost use Rattle.hsp_tables.specs.declared.fault.TableFault.TheVariants.{OutOfMemory};
ghost use Rattle.hsp_text.specs.Answers.{Gives, GivesUnless};
ghost use Rattle.hsp_tables.specs.InTurn.{rows_after, with_row};
ghost use Rattle.hsp_tables.specs.Settings.{elements_in, host_address, host_after, host_in, host_limit, same_address};
ghost use Rattle.hsp_tables.specs.SettingsRows.{host_entry};

use crate::fault::TableFault;
use crate::members::{has_host_keys, integer_of, member, text_of};
use hex::FromHex;
use hsp_text::limits::{GREATEST_LIMIT, MOST_HOSTS};
use std::alloc::Global;
use toml::{Table, Value};

// A host of the settings.
#[derive(Clone, Copy)]
pub(crate) struct Host {
    pub(crate) address: [u8; 16],
    pub(crate) limit: u64,
}

// The address of a host.
fn host_address(number: u32, value: Option<&Value>) -> Result<[u8; 16], TableFault>
    ensures { Gives (λ a. a) result
        (host_address number (option_map (λ v. view v.now) value.entry)) }
{
    let fault = TableFault::BadHost { host: number };
    let text = text_of(fault, value)?;
    match <[u8; 16] as FromHex>::from_hex(text) {
        Ok(address) => Ok(address),
        Err(_) => Err(fault),
    }
}

// The limit of a host.
fn host_limit(number: u32, value: Option<&Value>) -> Result<u64, TableFault>
    ensures { Gives (λ n. n) result (host_limit number (option_map (λ v. view v.now) value.entry)) }
{
    let fault = TableFault::BadHost { host: number };
    match u64::try_from(integer_of(fault, value)?) {
        Ok(limit) => {
            if limit > GREATEST_LIMIT {
                return Err(fault);
            }
            Ok(limit)
        }
        Err(_) => Err(fault),
    }
}

// The host that a table spells.
fn host_in(number: u32, table: &Table) -> Result<Host, TableFault>
    ensures { Gives host_entry result (host_in number (table_view table.now)) }
{
    if !has_host_keys(table) {
        return Err(TableFault::UnknownKey);
    }
    Ok(Host {
        address: host_address(number, member(table, "address"))?,
        limit: host_limit(number, member(table, "limit"))?,
    })
}

// Whether an earlier host has the address of a host.
fn has_address(hosts: &[Host], new: &Host) -> bool
    ensures { result ≡ list_any (same_address (host_entry new.now)) (map host_entry hosts.now) }
{
    for host in hosts {
        if new.address.as_slice() == host.address.as_slice() {
            return true;
        }
    }
    false
}

// Adds the host of a further element.
fn add_host(hosts: &mut Vec<Host>, value: &Value) -> Result<(), TableFault>
    ensures ok { OnOk result (
        with_row host_after (map host_entry hosts.old.items) (view value.now)
        ≡ Ok (map host_entry hosts.new.items)) }
    ensures err { IfErr result (λ e. (e ≡ OutOfMemory)
        ⊎ (with_row host_after (map host_entry hosts.old.items) (view value.now) ≡ Err e)) }
{
    if hosts.len() >= MOST_HOSTS {
        return Err(TableFault::TooManyHosts);
    }
    let number = hosts.len() as u32;
    let Some(table) = value.as_table() else {
        return Err(TableFault::BadHost { host: number });
    };
    let host = host_in(number, table)?;
    if has_address(hosts.as_slice(), &host) {
        return Err(TableFault::HostTwice { host: number });
    }
    hosts.push(host)?;
    Ok(())
}

// The hosts of the elements of an array.
pub(crate) fn hosts_in(alloc: Global, values: &[Value]) -> Result<Vec<Host>, TableFault>
    ensures { GivesUnless OutOfMemory (λ v. map host_entry v.items) result (
        rows_after host_after [] (elements_in (items_view values.now))) }
{
    let mut hosts = Vec::new(alloc);
    for value in values {
        add_host(&mut hosts, value)?;
    }
    Ok(hosts)
}
