// The rows of a log in memory, as they are taken.

ghost use Rattle.std.specs.Prelude.{◌≡◌, ◌⊎◌, ◌<◌, ◌≤◌, IsTrue, length, true, false};
ghost use Rattle.std.specs.List.{list_any};
ghost use Rattle.std.specs.Str.{bytes_eq};
ghost use Rattle.hsp_text.specs.declared.limits.TheConstants.{MOST_LOG_REGIONS};
ghost use Rattle.hsp_price_check.specs.Classes.{service_of};
ghost use Rattle.hsp_price_runs.specs.Holding.{HasHeld, IsFresh};

use crate::taking::RowTaker;
use hsp_instance::{Instance, RowArcs};
use hsp_log::LogRow;
use hsp_price_check::PassFault;
use hsp_price_plan::{KeptRows, Progress};
use hsp_tables::Costs;
use hsp_text::limits::MOST_LOG_REGIONS;
use std::alloc::Global;

// How many rows are held at most.
const MOST_ROWS: usize = 4_294_967_296;

// After how many rows more it is shown how many were read.
const SHOWN: usize = 65_536;

/// The rows of a log, each with the arcs that its region and handle have, and how many queries they ask for together.
/// A sum above 2^128 - 1 is kept as that.
#[derive(Drop)]
pub(crate) struct RowHolder<'a, P> {
    pub(crate) arcs: RowArcs<'a>,
    pub(crate) rows: KeptRows,
    pub(crate) asked: u128,
    pub(crate) progress: P,
}

impl<'a, P: Progress> RowHolder<'a, P> {
    /// No rows of a service.
    pub(crate) fn new(
        alloc: Global,
        instance: &'a Instance,
        costs: &'a Costs,
        progress: P,
    ) -> RowHolder<'a, P>
        ensures { IsFresh (service_of costs.now instance.now) result }
    {
        // The table of costs and the instance are within their limits.
        let _costs = costs.len();
        let _servers = instance.servers();
        let sites = instance.sites();
        RowHolder {
            arcs: RowArcs::new(alloc, sites, costs),
            rows: KeptRows::new(alloc, sites.len() as usize),
            asked: 0,
            progress,
        }
    }

    // Whether no row had the region, and there are as many regions as there may be.
    fn has_no_room(&self, region: &[u8]) -> bool
        ensures none { IsTrue result → (MOST_LOG_REGIONS ≤ length self.now.arcs.regions)
            × (list_any (bytes_eq region.now) self.now.arcs.regions ≡ false) }
        ensures room { result ≡ false
            → (list_any (bytes_eq region.now) self.now.arcs.regions ≡ true)
            ⊎ (length self.now.arcs.regions < MOST_LOG_REGIONS) }
    {
        self.arcs.regions() >= MOST_LOG_REGIONS && !self.arcs.knows(region)
    }

    // Shows how many rows were read, now and then.
    fn show(&mut self)
        ensures arcs { self.new.arcs ≡ self.old.arcs }
        ensures rows { self.new.rows ≡ self.old.rows }
        ensures asked { self.new.asked ≡ self.old.asked }
    {
        let rows = self.rows.len();
        if rows % SHOWN == 0 {
            self.progress.rows_read(rows as u64);
        }
    }
}

impl<'a, P: Progress> RowTaker for RowHolder<'a, P> {
    ghost HasTaken = { HasHeld };

    fn take_row(&mut self, alloc: Global, read: LogRow<'_>) -> Result<(), PassFault> {
        if self.has_no_room(read.region) {
            return Err(PassFault::TooManyRegions);
        }
        if self.rows.len() >= MOST_ROWS {
            return Err(PassFault::OutOfMemory);
        }
        let number = self.arcs.find(alloc, read.region, read.handle)?;
        self.rows
            .push(alloc, number, read.region, self.arcs.arcs(), read.count)?;
        self.asked = self.asked.saturating_add(u128::from(read.count));
        self.show();
        Ok(())
    }
}
