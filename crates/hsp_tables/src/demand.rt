// The table of demand: how many queries for a handle come from a region.

ghost use Rattle.std.specs.Prelude.{◌≡◌, ◌≤◌, ◌<◌, [], IfOk, Ok, Some, length, map, position, refl, slice_get};
ghost use Rattle.hsp_csv.specs.Records.{records_of};
ghost use Rattle.hsp_names.specs.Handle.{handle_in};
ghost use Rattle.hsp_tables.specs.declared.fault.TableFault.TheVariants.{OutOfMemory};
ghost use Rattle.hsp_text.specs.Answers.{GivesUnless};
ghost use Rattle.hsp_tables.specs.Table.{table_of};
ghost use Rattle.hsp_tables.specs.Demand.{AreDemand, demand_table, is_demand};
ghost use Rattle.hsp_tables.specs.Keyed.{demand_entry, pair_of};
ghost use Rattle.hsp_tables.specs.Rows.{demand_shown};

use crate::fault::TableFault;
use crate::fields::{handle_in, name_in, number_in};
use crate::keyed::PairKey;
use crate::table::{Kind, Three, read_table};
use crate::text_hash::{KeyedRows, TextHash};
use hsp_names::HandleRef;
use hsp_pair_map::PairMap;
use hsp_text::limits::{GREATEST_COUNT, MOST_DEMAND_ROWS, MOST_REGIONS};
use std::alloc::{AllocError, Global};
use std::marker::Model;
use std::rc::Rc;

/// The demand. Each row has a region, a handle and a count; each pair of region and handle stands once.
///
/// There are at most 8,192 rows and 64 regions. A clone shares them, and copies none.
#[derive(Drop)]
pub struct Demand {
    rows: Rc<KeyedRows<PairKey>>,
    numbers: Rc<PairMap>,
}

impl Model for Demand {
    ghost use Rattle.std.specs.Prelude.{◌≡◌, List, map};
    ghost use Rattle.hsp_tables.specs.Demand.{AreDemand, DemandEntry};
    ghost use Rattle.hsp_tables.specs.Keyed.{demand_entry, pair_of};

    ghost Value = { List DemandEntry };

    ghost view = { λ t. map demand_entry t.rows.value.entries };

    ghost invariant = { λ t. AreDemand (map demand_entry t.rows.value.entries)
        × (t.numbers.value ≡ map pair_of t.rows.value.entries) };
}

impl Clone for Demand {
    ghost is_clone = { λ demand copy. copy ≡ demand };

    fn clone(&self) -> Result<Demand, AllocError> {
        let rows = self.rows.clone()?;
        let numbers = self.numbers.clone()?;
        Ok(Demand { rows, numbers })
    }
}

/// A row of the demand.
#[derive(Clone, Copy)]
pub struct DemandRow<'a> {
    /// The name of the region.
    pub region: &'a [u8],
    /// The handle that the queries ask for.
    pub handle: HandleRef<'a>,
    /// How many queries there are, at most 1,000,000.
    pub count: u64,
}

impl Demand {
    /// No rows.
    ///
    /// # Errors
    ///
    /// An `AllocError` where memory runs out.
    pub fn none(alloc: Global) -> Result<Demand, AllocError>
        ensures { IfOk result (λ demand. demand ≡ []) }
    {
        demand_of(alloc, KeyedRows::with_hasher(alloc, TextHash::of(b"")))
    }

    /// How many rows there are.
    pub fn len(&self) -> u32
        ensures count { result ≡ length self.now }
        // The table is within its limits, each row is as it should be, and no two rows have one key.
        ensures rows { AreDemand self.now }
    {
        self.rows.len() as u32
    }

    /// The region, the octets of the handle and the count of the row with this number, which is below [`Demand::len`].
    pub fn octets(&self, number: u32) -> (&[u8], &[u8], u64)
        requires { number < length self.now }
        ensures row { slice_get self.now number
            ≡ Some (record { region = result.0.now; handle = result.1.now; count = result.2 }) }
        ensures handle { handle_in result.1.now ≡ Ok result.1.now }
    {
        let (key, count) = self.rows.get_index(number as usize).unwrap();
        (key.first(), key.second(), *count)
    }

    /// The row with this number, which is below [`Demand::len`].
    pub fn row(&self, number: u32) -> DemandRow<'_>
        requires { number < length self.now }
        ensures { slice_get self.now number ≡ Some (demand_shown result) }
    {
        let (region, handle, count) = self.octets(number);
        DemandRow {
            region,
            handle: HandleRef::accepted(handle),
            count,
        }
    }

    /// The number of the row of a region and a handle, or None where there is no such row.
    pub fn find(&self, region: &[u8], handle: &[u8]) -> Option<u32>
        ensures { result ≡ position (is_demand region.now handle.now) self.now }
    {
        self.numbers.find(region, handle)
    }
}

impl Kind for Demand {
    ghost use Rattle.hsp_tables.specs.Demand.{DemandEntry, demand_of, demand_table};
    ghost use Rattle.hsp_tables.specs.Fields.{not_three};
    ghost use Rattle.hsp_tables.specs.Keyed.{demand_entry};

    type Key = PairKey;

    ghost Entry = { DemandEntry };

    ghost entry = { demand_entry };

    ghost table = { demand_table };

    /// The limit of the rows.
    fn most_rows() -> u32 {
        MOST_DEMAND_ROWS as u32
    }

    /// The limit of the regions.
    fn most_regions() -> u32 {
        MOST_REGIONS as u32
    }

    /// The key and the number of the row that a region, a handle and a count spell.
    fn row_of(alloc: Global, row: u32, fields: Three<'_>) -> Result<(PairKey, u64), TableFault> {
        let (region, handle, count) = fields;
        let region = name_in(row, region)?;
        let handle = handle_in(row, handle)?;
        let count = number_in(row, count, GREATEST_COUNT)?;
        Ok((PairKey::new(alloc, region, handle.bytes())?, count))
    }

    fn is_good(field: u32, octets: &[u8]) -> bool {
        match field {
            0 => name_in(0, octets).is_ok(),
            1 => handle_in(0, octets).is_ok(),
            _ => number_in(0, octets, GREATEST_COUNT).is_ok(),
        }
    }

    fn region_of(key: &PairKey) -> Option<&[u8]> {
        Some(key.first())
    }

    ghost of_three = { not_three demand_of };

    ghost same = { λ _ _. refl };
}

// The numbers of rows by their names. There are four buckets for each row.
fn numbers_of(alloc: Global, rows: &KeyedRows<PairKey>) -> Result<PairMap, AllocError>
    requires { length rows.now.entries ≤ MOST_DEMAND_ROWS }
    ensures { IfOk result (λ numbers. numbers ≡ map pair_of rows.now.entries) }
{
    let mut numbers = PairMap::new(alloc, 4 * rows.len() as u32 + 1)?;
    for number in 0..rows.len() {
        let (key, _) = rows.get_index(number).unwrap();
        numbers.push(key.first(), key.second())?;
    }
    Ok(numbers)
}

// The demand of these rows.
fn demand_of(alloc: Global, rows: KeyedRows<PairKey>) -> Result<Demand, AllocError>
    requires { AreDemand (map demand_entry rows.entries) }
    ensures { IfOk result (λ demand. demand ≡ map demand_entry rows.entries) }
{
    let numbers = Rc::new(alloc, numbers_of(alloc, &rows)?)?;
    let rows = Rc::new(alloc, rows)?;
    Ok(Demand { rows, numbers })
}

/// The demand that a text of comma-separated values spells.
///
/// The header is `region,handle,count`.
///
/// ```
/// let demand = read_demand(alloc, b"region,handle,count\nr1,10/1,5\nr1,10/2,4\n")?;
/// let row = demand.row(1);
/// assert!(rt; row.region == b"r1".as_slice() && row.handle.bytes() == b"10/2".as_slice());
/// assert!(rt; row.count == 4);
/// ```
///
/// # Errors
///
/// The first in this order: `Header`; then record by record `TooManyRows` (this record is one too many), `Fields`,
/// `BadName`, `BadHandle`, `BadNumber`, `RowTwice`, `TooManyRegions`. `OutOfMemory` where memory runs out.
pub fn read_demand(alloc: Global, text: &[u8]) -> Result<Demand, TableFault>
    ensures { GivesUnless OutOfMemory (λ x. x) result (
        table_of demand_table (records_of text.now)) }
{
    let rows = read_table::<Demand>(alloc, text, &[b"region", b"handle", b"count"])?;
    Ok(demand_of(alloc, rows)?)
}
