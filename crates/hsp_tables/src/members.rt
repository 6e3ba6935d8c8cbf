// The members of a TOML table, and the values at its keys.

ghost use Rattle.std.specs.Prelude.{◌≡◌, codes, map, option_map, string_bytes};
ghost use Rattle.std.specs.List.{list_all};
ghost use Rattle.toml.specs.Data.{get_member};
ghost use Rattle.toml.specs.View.{table_view, view};
ghost use Rattle.hsp_tables.specs.declared.fault.TableFault.TheVariants.{OutOfMemory};
ghost use Rattle.hsp_text.specs.Answers.{Gives, GivesUnless};
ghost use Rattle.hsp_tables.specs.Settings.{document_in, integer_of, is_host_key, is_root_key, is_site_key, keys_in};
ghost use Rattle.hsp_tables.specs.Settings.{text_of};

use crate::fault::TableFault;
use std::alloc::Global;
use toml::{Table, Value};

// The document that octets are.
#[tactic(auto, using(crate::proofs::Documents::document_is, crate::proofs::Documents::document_is_none))]
pub(crate) fn document_in(alloc: Global, octets: &[u8]) -> Result<Table, TableFault>
    ensures { GivesUnless OutOfMemory (λ t. table_view t) result (document_in octets.now) }
{
    match toml::table_from_slice(alloc, octets) {
        Ok(table) => Ok(table),
        Err(error) => {
            if error.is_memory() {
                Err(TableFault::OutOfMemory)
            } else {
                Err(TableFault::NotToml)
            }
        }
    }
}

// The value at a key.
pub(crate) fn member<'a>(table: &'a Table, key: &str) -> Option<&'a Value>
    ensures { option_map (λ v. view v.now) result ≡ get_member key.now (table_view table.now) }
{
    table.get(key)
}

// Whether the settings may have this member.
fn is_root_key(key: &str) -> bool
    ensures { result ≡ is_root_key key.now }
{
    key == "site" || key == "host"
}

// Whether a site may have this member.
fn is_site_key(key: &str) -> bool
    ensures { result ≡ is_site_key key.now }
{
    key == "name" || key == "record" || key == "index"
}

// Whether a host may have this member.
fn is_host_key(key: &str) -> bool
    ensures { result ≡ is_host_key key.now }
{
    key == "address" || key == "limit"
}

// Whether a document has no key beside those of settings.
#[tactic(auto, using(crate::proofs::Documents::keys_of_table))]
pub(crate) fn has_root_keys(table: &Table) -> bool
    ensures { result ≡ list_all is_root_key (keys_in (table_view table.now)) }
{
    for key in table.keys() {
        if !is_root_key(key.as_str()) {
            return false;
        }
    }
    true
}

// Whether a table has no key beside those of a site.
#[tactic(auto, using(crate::proofs::Documents::keys_of_table))]
pub(crate) fn has_site_keys(table: &Table) -> bool
    ensures { result ≡ list_all is_site_key (keys_in (table_view table.now)) }
{
    for key in table.keys() {
        if !is_site_key(key.as_str()) {
            return false;
        }
    }
    true
}

// Whether a table has no key beside those of a host.
#[tactic(auto, using(crate::proofs::Documents::keys_of_table))]
pub(crate) fn has_host_keys(table: &Table) -> bool
    ensures { result ≡ list_all is_host_key (keys_in (table_view table.now)) }
{
    for key in table.keys() {
        if !is_host_key(key.as_str()) {
            return false;
        }
    }
    true
}

// The text of a value, or the fault where it has none.
pub(crate) fn text_of(fault: TableFault, value: Option<&Value>) -> Result<&str, TableFault>
    ensures { Gives (λ s. s.now) result (text_of fault (option_map (λ v. view v.now) value.entry)) }
{
    let Some(value) = value else {
        return Err(fault);
    };
    match value.as_str() {
        Some(text) => Ok(text),
        None => Err(fault),
    }
}

// The integer of a value, or the fault where it has none.
pub(crate) fn integer_of(fault: TableFault, value: Option<&Value>) -> Result<i64, TableFault>
    ensures { Gives (λ n. n) result (integer_of fault (option_map (λ v. view v.now) value.entry)) }
{
    let Some(value) = value else {
        return Err(fault);
    };
    match value.as_integer() {
        Some(number) => Ok(number),
        None => Err(fault),
    }
}
