// Rows of demand in memory.

ghost use Rattle.std.specs.Prelude.{◌≡◌, ◌≤◌, ◌<◌, ◌+◌, ◌*◌, ◌^◌, OnErr, OnOk, drop, length, take};
ghost use Rattle.hsp_text.specs.declared.limits.TheConstants.{MOST_LOG_REGIONS, MOST_SITES};
ghost use Rattle.hsp_transport.specs.Lists.{flag_at};
ghost use Rattle.hsp_price_check.specs.Extras.{pay_by};
ghost use Rattle.hsp_price_check.specs.LeastPay.{AreLow};
ghost use Rattle.hsp_prices.specs.KeptRows.{arcs_in, kept_in, loose_of, with_least, with_leaving};
ghost use Rattle.hsp_price_plan.specs.Entries.{arcs_by};
ghost use Rattle.hsp_price_plan.specs.Keeping.{IsLow, kept_by, servers_in, with_near};
ghost use Rattle.hsp_price_plan.specs.Held.{AreWithin, CanPush, no_rows, region_named, row_at, with_each, with_row};
ghost use Rattle.hsp_price_plan.specs.Regions.{with_region};

use crate::entries::{fill_arcs, fill_kept, push_entries};
use crate::keeping::{Keep, keep_more};
use crate::region::{Region, SiteCost};
use crate::row_hash::servers_number;
use hsp_instance::Arc;
use std::alloc::{AllocError, Global};
use std::hash::{DefaultHasher, Hasher};
use std::marker::Model;

/// Rows of demand, each with its region, its count and an arc at each of some sites. Of the arcs some are kept.
///
/// There are at most 2^32 rows of at most 4,096 regions. All rows of a region have arcs at the same sites with the same
/// costs, and to servers below 1,024. An arc takes two octets, and so does the place of a site without one.
#[derive(Drop)]
pub struct KeptRows {
    sites: usize,
    regions: Vec<Region>,
    row_regions: Vec<u16>,
    counts: Vec<u64>,
    places: Vec<u16>,
    seen: DefaultHasher,
}

impl Model for KeptRows {
    ghost use Rattle.hsp_price_plan.specs.Held.{AreInPlace, HeldRows, rows_by};

    ghost Value = { HeldRows };

    ghost view = { λ t. record {
      sites = t.sites;
      regions = t.regions.items;
      rows = rows_by t.sites t.regions.items t.row_regions.items t.counts.items t.places.items;
    } };

    ghost invariant = { λ t.
        AreInPlace t.sites t.regions.items t.row_regions.items t.counts.items t.places.items };
}

// The entries of a row, and the sites and costs of its arcs.
#[derive(Clone, Copy)]
struct HeldRow<'a> {
    entries: &'a [u16],
    shape: &'a [SiteCost],
}

// Adds the region of a row, where the number is that of none.
fn add_region(
    regions: &mut Vec<Region>,
    alloc: Global,
    number: usize,
    name: &[u8],
    arcs: &[Arc],
) -> Result<(), AllocError>
    ensures added { OnOk result (regions.new.items
        ≡ with_region regions.old.items number name.now arcs.now) }
    ensures kept { OnErr result (regions.new.items ≡ regions.old.items) }
{
    if number == regions.len() {
        let region = Region::new(alloc, name, arcs)?;
        regions.push(region)?;
    }
    Ok(())
}

// The entries of a row.
fn entries_of(places: &[u16], row: usize, sites: usize) -> &[u16]
    requires { row * sites + sites ≤ length places.now }
    ensures { result.now ≡ take sites (drop (row * sites) places.now) }
{
    let start = row * sites;
    &places[start..start + sites]
}

impl KeptRows {
    /// No rows, of arcs at no more than so many sites.
    pub fn new(alloc: Global, sites: usize) -> KeptRows
        requires { sites ≤ MOST_SITES }
        ensures { result ≡ no_rows sites }
    {
        KeptRows {
            sites,
            regions: Vec::new(alloc),
            row_regions: Vec::new(alloc),
            counts: Vec::new(alloc),
            places: Vec::new(alloc),
            seen: DefaultHasher::new(),
        }
    }

    /// Adds a row, none of whose arcs is kept. `region` is the number of its region in first-seen order: at most the
    /// number of regions so far. The first row of a region gives its name, and the sites and costs of its arcs.
    ///
    /// # Errors
    ///
    /// An `AllocError` where memory runs out. Then nothing is added.
    pub fn push(
        &mut self,
        alloc: Global,
        region: usize,
        name: &[u8],
        arcs: &[Arc],
        count: u64,
    ) -> Result<(), AllocError>
        requires { CanPush self.old region name.now arcs.now }
        ensures added { OnOk result (self.new ≡ with_row self.old region name.now arcs.now count) }
        ensures kept { OnErr result (self.new ≡ self.old) }
    {
        self.seen.write_u64(servers_number(arcs));
        self.row_regions.reserve(1)?;
        self.counts.reserve(1)?;
        self.places.reserve(self.sites)?;
        add_region(&mut self.regions, alloc, region, name, arcs)?;
        push_entries(&mut self.places, self.sites, arcs)?;
        self.row_regions.push(region as u16)?;
        self.counts.push(count)?;
        Ok(())
    }

    /// How many rows there are.
    pub fn len(&self) -> usize
        ensures count { result ≡ length self.now.rows }
        ensures few { result ≤ 2 ^ 32 }
    {
        self.row_regions.len()
    }

    /// A number that the servers of all rows decide, in the order of the rows.
    pub(crate) fn key(&self) -> u64 {
        self.seen.finish()
    }

    /// The number of a row's region.
    pub fn region_of(&self, row: usize) -> usize
        requires { row < length self.now.rows }
        ensures below { result < length self.now.regions }
        ensures few { length self.now.regions ≤ MOST_LOG_REGIONS }
        ensures named { (row_at self.now row).region ≡ region_named self.now result }
    {
        usize::from(self.row_regions[row])
    }

    /// The name of a region.
    pub fn region_name(&self, region: usize) -> &[u8]
        requires { region < length self.now.regions }
        ensures { result.now ≡ region_named self.now region }
    {
        self.regions[region].name()
    }

    /// How many queries a row asks for.
    pub fn count(&self, row: usize) -> u64
        requires { row < length self.now.rows }
        ensures { result ≡ (row_at self.now row).count }
    {
        self.counts[row]
    }

    // A row as it is held.
    fn held(&self, row: usize) -> HeldRow<'_>
        requires { row < length self.now.rows }
        ensures short { length result.shape.now ≤ length result.entries.now }
        ensures arcs { arcs_by result.shape.now result.entries.now ≡ (row_at self.now row).arcs }
    {
        let region = &self.regions[usize::from(self.row_regions[row])];
        let entries = entries_of(&self.places, row, self.sites);
        HeldRow {
            entries,
            shape: region.shape(),
        }
    }

    /// Writes the kept arcs of a row over what the list had.
    ///
    /// # Errors
    ///
    /// An `AllocError` where memory runs out. Nothing is said of the list then.
    pub fn fill_kept(&self, row: usize, kept: &mut Vec<Arc>) -> Result<(), AllocError>
        requires { row < length self.now.rows }
        ensures { OnOk result (kept.new.items ≡ kept_in (row_at self.now row)) }
    {
        let held = self.held(row);
        fill_kept(kept, held.entries, held.shape)
    }

    /// Writes all arcs of a row over what the list had.
    ///
    /// # Errors
    ///
    /// An `AllocError` where memory runs out. Nothing is said of the list then.
    pub fn fill_arcs(&self, row: usize, arcs: &mut Vec<Arc>) -> Result<(), AllocError>
        requires { row < length self.now.rows }
        ensures { OnOk result (arcs.new.items ≡ arcs_in (row_at self.now row)) }
    {
        let held = self.held(row);
        fill_arcs(arcs, held.entries, held.shape)
    }

    // Keeps more arcs of each row, and returns how many weren't kept before.
    fn keep(&mut self, which: Keep<'_>) -> u64
        requires within { AreWithin (servers_in which) self.old.rows }
        requires low { IsLow which }
        ensures kept { self.new ≡ with_each (kept_by which.entry) self.old }
        ensures count { result + loose_of self.new.rows ≡ loose_of self.old.rows }
        ensures settled { result ≡ 0 → self.new ≡ self.old }
    {
        let mut kept = 0;
        for row in 0..self.row_regions.len() {
            let region = &self.regions[usize::from(self.row_regions[row])];
            let start = row * self.sites;
            let entries = &mut self.places[start..start + self.sites];
            kept += keep_more(entries, region.shape(), which);
        }
        kept
    }

    /// Keeps of each row the arcs over which a query pays least, and returns how many weren't kept before. Each server
    /// has a number in `extras`: what a query pays there beside the cost of its arc.
    pub fn keep_least(&mut self, extras: &[u64]) -> u64
        requires within { AreWithin (length extras.now) self.old.rows }
        requires low { AreLow extras.now }
        ensures kept { self.new ≡ with_each (with_least (pay_by extras.now)) self.old }
        ensures count { result + loose_of self.new.rows ≡ loose_of self.old.rows }
        ensures settled { result ≡ 0 → self.new ≡ self.old }
    {
        self.keep(Keep::Least(extras))
    }

    /// Keeps of each row the arcs that lead out of a set of servers, where no arc of it that is kept does, and returns
    /// how many weren't kept before. The set has a flag for each server.
    pub fn keep_leaving(&mut self, set: &[bool]) -> u64
        requires { AreWithin (length set.now) self.old.rows }
        ensures kept { self.new ≡ with_each (with_leaving (flag_at set.now)) self.old }
        ensures count { result + loose_of self.new.rows ≡ loose_of self.old.rows }
        ensures settled { result ≡ 0 → self.new ≡ self.old }
    {
        self.keep(Keep::Leaving(set))
    }

    /// Keeps of each row the arcs over which a query pays at most `window` more than the least. Extras are as in
    /// `keep_least`.
    pub fn keep_near(&mut self, extras: &[u64], window: u64)
        requires within { AreWithin (length extras.now) self.old.rows }
        requires low { AreLow extras.now }
        ensures { self.new ≡ with_each (with_near (pay_by extras.now) window) self.old }
    {
        self.keep(Keep::Near(extras, window));
    }
}
