// The table of costs: what a query from a region costs at a site.

ghost use Rattle.std.specs.Prelude.{◌≡◌, ◌<◌, ◌&&◌, Some, length, map, option_map, refl, slice_get};
ghost use Rattle.std.specs.List.{find};
ghost use Rattle.std.specs.Str.{bytes_eq};
ghost use Rattle.hsp_csv.specs.Records.{records_of};
ghost use Rattle.hsp_tables.specs.declared.fault.TableFault.TheVariants.{OutOfMemory};
ghost use Rattle.hsp_text.specs.Answers.{GivesUnless};
ghost use Rattle.hsp_tables.specs.Table.{table_of};
ghost use Rattle.hsp_tables.specs.Costs.{AreCosts, CostEntry, cost_of, cost_table, is_cost_field};
ghost use Rattle.hsp_tables.specs.Keyed.{cost_entry};
ghost use Rattle.hsp_tables.specs.Rows.{cost_shown};

use crate::fault::TableFault;
use crate::fields::{name_in, number_in};
use crate::keyed::{LentPair, PairKey};
use crate::limits::Limits;
use crate::table::{Kind, Three, read_table};
use crate::text_hash::KeyedRows;
use hsp_text::limits::{
    GREATEST_COST, MOST_COST_ROWS, MOST_LOG_COST_ROWS, MOST_LOG_REGIONS, MOST_REGIONS,
};
use std::alloc::Global;
use std::marker::Model;

/// The costs. Each row has a region, a site and a cost; each pair of region and site stands once.
///
/// There are at most 131,072 rows and 4,096 regions.
#[derive(Drop)]
pub struct Costs {
    rows: KeyedRows<PairKey>,
}

impl Model for Costs {
    ghost use Rattle.std.specs.Prelude.{List, map};
    ghost use Rattle.hsp_tables.specs.Costs.{AreCosts, CostEntry};
    ghost use Rattle.hsp_tables.specs.Keyed.{cost_entry};

    ghost Value = { List CostEntry };

    ghost view = { λ t. map cost_entry t.rows.entries };

    ghost invariant = { λ t. AreCosts (map cost_entry t.rows.entries) };
}

/// A row of the costs.
#[derive(Clone, Copy)]
pub struct CostRow<'a> {
    /// The name of the region.
    pub region: &'a [u8],
    /// The name of the site.
    pub site: &'a [u8],
    /// What a query costs, at most 1,000,000.
    pub cost: u64,
}

impl Costs {
    /// How many rows there are.
    pub fn len(&self) -> u32
        ensures count { result ≡ length self.now }
        // The table is within its limits, each row is as it should be, and no two rows have one key.
        ensures rows { AreCosts self.now }
    {
        self.rows.len() as u32
    }

    /// The row with this number, which is below [`Costs::len`].
    pub fn row(&self, number: u32) -> CostRow<'_>
        requires { number < length self.now }
        ensures { slice_get self.now number ≡ Some (cost_shown result) }
    {
        let (key, cost) = self.rows.get_index(number as usize).unwrap();
        CostRow {
            region: key.first(),
            site: key.second(),
            cost: *cost,
        }
    }

    /// What a query from a region costs at a site, or None where no row states it.
    pub fn find(&self, region: &[u8], site: &[u8]) -> Option<u64>
        ensures { result ≡ option_map (λ (row : CostEntry). row.cost)
            (find (λ (row : CostEntry).
            bytes_eq row.region region.now && bytes_eq row.site site.now) self.now) }
    {
        let (first, second) = (region, site);
        let cost = self.rows.get(LentPair { first, second })?;
        Some(*cost)
    }
}

// The key and the number of the row that a region, a site and a cost spell.
fn row_of(alloc: Global, row: u32, fields: Three<'_>) -> Result<(PairKey, u64), TableFault>
    ensures { GivesUnless OutOfMemory cost_entry result (
        cost_of row fields.entry.0.now fields.entry.1.now fields.entry.2.now) }
{
    let (region, site, cost) = fields;
    let region = name_in(row, region)?;
    let site = name_in(row, site)?;
    let cost = number_in(row, cost, GREATEST_COST)?;
    Ok((PairKey::new(alloc, region, site)?, cost))
}

// Whether the field of a number may have these octets.
fn is_good(field: u32, octets: &[u8]) -> bool
    ensures { result ≡ is_cost_field field octets.now }
{
    match field {
        2 => number_in(0, octets, GREATEST_COST).is_ok(),
        _ => name_in(0, octets).is_ok(),
    }
}

// Costs beside a table of demand.
struct TableCosts;

impl Kind for TableCosts {
    ghost use Rattle.hsp_tables.specs.Costs.{CostEntry, cost_of, cost_table};
    ghost use Rattle.hsp_tables.specs.declared.limits.Limits.TheVariants.{Tables};
    ghost use Rattle.hsp_tables.specs.Fields.{not_three};
    ghost use Rattle.hsp_tables.specs.Keyed.{cost_entry};

    type Key = PairKey;

    ghost Entry = { CostEntry };

    ghost entry = { cost_entry };

    ghost table = { cost_table Tables };

    /// The limit of the rows.
    fn most_rows() -> u32 {
        MOST_COST_ROWS as u32
    }

    /// The limit of the regions.
    fn most_regions() -> u32 {
        MOST_REGIONS as u32
    }

    /// The key and the number of the row that a region, a site and a cost spell.
    fn row_of(alloc: Global, row: u32, fields: Three<'_>) -> Result<(PairKey, u64), TableFault> {
        row_of(alloc, row, fields)
    }

    fn is_good(field: u32, octets: &[u8]) -> bool {
        is_good(field, octets)
    }

    fn region_of(key: &PairKey) -> Option<&[u8]> {
        Some(key.first())
    }

    ghost of_three = { not_three cost_of };

    ghost same = { λ _ _. refl };
}

// Costs beside a log.
pub(crate) struct LogCosts;

impl Kind for LogCosts {
    ghost use Rattle.hsp_tables.specs.Costs.{CostEntry, cost_of, cost_table};
    ghost use Rattle.hsp_tables.specs.declared.limits.Limits.TheVariants.{Logs};
    ghost use Rattle.hsp_tables.specs.Fields.{not_three};
    ghost use Rattle.hsp_tables.specs.Keyed.{cost_entry};

    type Key = PairKey;

    ghost Entry = { CostEntry };

    ghost entry = { cost_entry };

    ghost table = { cost_table Logs };

    /// The limit of the rows.
    fn most_rows() -> u32 {
        MOST_LOG_COST_ROWS as u32
    }

    /// The limit of the regions.
    fn most_regions() -> u32 {
        MOST_LOG_REGIONS as u32
    }

    /// The key and the number of the row that a region, a site and a cost spell.
    fn row_of(alloc: Global, row: u32, fields: Three<'_>) -> Result<(PairKey, u64), TableFault> {
        row_of(alloc, row, fields)
    }

    fn is_good(field: u32, octets: &[u8]) -> bool {
        is_good(field, octets)
    }

    fn region_of(key: &PairKey) -> Option<&[u8]> {
        Some(key.first())
    }

    ghost of_three = { not_three cost_of };

    ghost same = { λ _ _. refl };
}

// The rows that a text spells within these limits, or its first fault.
fn rows_within(alloc: Global, text: &[u8], limits: Limits) -> Result<KeyedRows<PairKey>, TableFault>
    ensures { GivesUnless OutOfMemory (λ rows. map cost_entry rows.entries) result (
        table_of (cost_table limits) (records_of text.now)) }
{
    match limits {
        Limits::Tables => read_table::<TableCosts>(alloc, text, &[b"region", b"site", b"cost"]),
        Limits::Logs => read_table::<LogCosts>(alloc, text, &[b"region", b"site", b"cost"]),
    }
}

/// The costs that a text of comma-separated values spells, within these limits.
///
/// The header is `region,site,cost`.
///
/// ```
/// let costs = read_costs(alloc, b"region,site,cost\nr1,E,1\nr1,W,4\n", Limits::Tables)?;
/// assert!(rt; costs.find(b"r1", b"W") == Some(4));
/// assert!(rt; costs.find(b"E", b"r1") == None);
/// ```
///
/// # Errors
///
/// The first in this order: `Header`; then record by record `TooManyRows` (this record is one too many), `Fields`,
/// `BadName`, `BadNumber`, `RowTwice`, `TooManyRegions`. `OutOfMemory` where memory runs out.
pub fn read_costs(alloc: Global, text: &[u8], limits: Limits) -> Result<Costs, TableFault>
    ensures { GivesUnless OutOfMemory (λ x. x) result (
        table_of (cost_table limits) (records_of text.now)) }
{
    let rows = rows_within(alloc, text, limits)?;
    Ok(Costs { rows })
}
