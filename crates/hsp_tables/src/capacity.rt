// The table of capacities: how many queries the server of an identifier can take at a site.

ghost use Rattle.std.specs.Prelude.{◌≡◌, ◌<◌, ◌==◌, ◌&&◌, Some, length, option_map, refl, slice_get};
ghost use Rattle.std.specs.List.{find};
ghost use Rattle.std.specs.Str.{bytes_eq};
ghost use Rattle.hsp_csv.specs.Records.{records_of};
ghost use Rattle.hsp_tables.specs.declared.fault.TableFault.TheVariants.{OutOfMemory};
ghost use Rattle.hsp_text.specs.Answers.{GivesUnless};
ghost use Rattle.hsp_tables.specs.Table.{table_of};
ghost use Rattle.hsp_tables.specs.Capacities.{AreCapacities, CapacityEntry, capacity_table};
ghost use Rattle.hsp_tables.specs.Rows.{capacity_shown};

use crate::fault::TableFault;
use crate::fields::{name_in, number_in};
use crate::keyed::{LentServer, ServerKey};
use crate::table::{Kind, Three, read_table};
use crate::text_hash::KeyedRows;
use hsp_text::limits::{GREATEST_CAPACITY, MOST_CAPACITY_ROWS, MOST_REGIONS};
use std::alloc::Global;
use std::marker::Model;

/// The capacities. Each row has a site, the identifier of a server and its capacity; each pair of site and identifier
/// stands once.
///
/// There are at most 1,024 rows.
#[derive(Drop)]
pub struct Capacities {
    rows: KeyedRows<ServerKey>,
}

impl Model for Capacities {
    ghost use Rattle.std.specs.Prelude.{List, map};
    ghost use Rattle.hsp_tables.specs.Capacities.{AreCapacities, CapacityEntry};
    ghost use Rattle.hsp_tables.specs.KeyedRows.{server_entry};

    ghost Value = { List CapacityEntry };

    ghost view = { λ t. map server_entry t.rows.entries };

    ghost invariant = { λ t. AreCapacities (map server_entry t.rows.entries) };
}

/// A row of the capacities.
#[derive(Clone, Copy)]
pub struct CapacityRow<'a> {
    /// The name of the site.
    pub site: &'a [u8],
    /// The identifier of the server.
    pub server_id: u32,
    /// How many queries the server can take, at most 1,000,000,000.
    pub capacity: u64,
}

impl Capacities {
    /// How many rows there are.
    pub fn len(&self) -> u32
        ensures count { result ≡ length self.now }
        // The table is within its limits, each row is as it should be, and no two rows have one key.
        ensures rows { AreCapacities self.now }
    {
        self.rows.len() as u32
    }

    /// The row with this number, which is below [`Capacities::len`].
    pub fn row(&self, number: u32) -> CapacityRow<'_>
        requires { number < length self.now }
        ensures { slice_get self.now number ≡ Some (capacity_shown result) }
    {
        let (key, capacity) = self.rows.get_index(number as usize).unwrap();
        CapacityRow {
            site: key.site.as_slice(),
            server_id: key.server_id,
            capacity: *capacity,
        }
    }

    /// The capacity of the server with this identifier at a site, or None where no row states it.
    pub fn find(&self, site: &[u8], server_id: u32) -> Option<u64>
        ensures { result ≡ option_map (λ (row : CapacityEntry). row.capacity)
            (find (λ (row : CapacityEntry).
            bytes_eq row.site site.now && (row.server_id == server_id)) self.now) }
    {
        let capacity = self.rows.get(LentServer { site, server_id })?;
        Some(*capacity)
    }
}

impl Kind for Capacities {
    ghost use Rattle.hsp_tables.specs.Capacities.{CapacityEntry, capacity_of, capacity_table};
    ghost use Rattle.hsp_tables.specs.Fields.{not_three};
    ghost use Rattle.hsp_tables.specs.KeyedRows.{server_entry};

    type Key = ServerKey;

    ghost Entry = { CapacityEntry };

    ghost entry = { server_entry };

    ghost table = { capacity_table };

    /// The limit of the rows.
    fn most_rows() -> u32 {
        MOST_CAPACITY_ROWS as u32
    }

    /// The limit of the regions.
    fn most_regions() -> u32 {
        MOST_REGIONS as u32
    }

    /// The key and the number of the row that a site, an identifier and a capacity spell.
    fn row_of(alloc: Global, row: u32, fields: Three<'_>) -> Result<(ServerKey, u64), TableFault> {
        let (site, server_id, capacity) = fields;
        let site = name_in(row, site)?;
        let server_id = number_in(row, server_id, u32::MAX as u64)? as u32;
        let capacity = number_in(row, capacity, GREATEST_CAPACITY)?;
        let site = Vec::from_slice(alloc, site)?;
        Ok((ServerKey { site, server_id }, capacity))
    }

    fn is_good(field: u32, octets: &[u8]) -> bool {
        match field {
            0 => name_in(0, octets).is_ok(),
            1 => number_in(0, octets, u32::MAX as u64).is_ok(),
            _ => number_in(0, octets, GREATEST_CAPACITY).is_ok(),
        }
    }

    fn region_of(_key: &ServerKey) -> Option<&[u8]> {
        None
    }

    ghost of_three = { not_three capacity_of };

    ghost same = { λ _ _. refl };
}

/// The capacities that a text of comma-separated values spells.
///
/// The header is `site,server_id,capacity`.
///
/// ```
/// let capacities = read_capacity(alloc, b"site,server_id,capacity\nE,7,10\nE,3,6\n")?;
/// assert!(rt; capacities.find(b"E", 3) == Some(6));
/// assert!(rt; capacities.find(b"E", 1) == None);
/// ```
///
/// # Errors
///
/// The first in this order: `Header`; then record by record `TooManyRows` (this record is one too many), `Fields`,
/// `BadName`, `BadNumber`, `RowTwice`. `OutOfMemory` where memory runs out.
pub fn read_capacity(alloc: Global, text: &[u8]) -> Result<Capacities, TableFault>
    ensures { GivesUnless OutOfMemory (λ x. x) result (
        table_of capacity_table (records_of text.now)) }
{
    let rows = read_table::<Capacities>(alloc, text, &[b"site", b"server_id", b"capacity"])?;
    Ok(Capacities { rows })
}
