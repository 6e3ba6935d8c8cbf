// Rows that stand for all, each with a weight. Of their arcs some are kept.

use crate::lists::{ABSENT, between, get_or, number_of, set};
use hsp_instance::Arc;
use hsp_network::greatest;
use hsp_text::limits::{MOST_LOG_REGIONS, MOST_SITES};
use std::alloc::{AllocError, Global};

// How many rows are looked at for a window.
const WINDOW_ROWS: usize = 4_096;

// How many arcs rows keep by a window, beside one least arc each.
const WINDOW_ARCS: usize = 10_000;

// Fewer rows keep four more arcs each.
const LEAST_ROWS: usize = WINDOW_ARCS / 4;

/// Rows, each with its region, its weight, its servers and a mask of the arcs that are kept. All rows of a region have
/// the same costs.
#[derive(Drop)]
pub(crate) struct Sample {
    costs: Vec<u64>,
    regions: Vec<u16>,
    weights: Vec<u64>,
    starts: Vec<u32>,
    servers: Vec<u16>,
    kept: Vec<u32>,
    key: u64,
}

// A server as a row of a sample holds it.
fn short_number(server: u32) -> u16 {
    if server < 65_535 {
        server as u16
    } else {
        ABSENT
    }
}

impl Sample {
    /// No rows, of a sample of rows with this key.
    pub(crate) fn new(alloc: Global, key: u64) -> Result<Sample, AllocError> {
        Ok(Sample {
            costs: vec![in alloc; 0; MOST_LOG_REGIONS * MOST_SITES]?,
            regions: Vec::new(alloc),
            weights: Vec::new(alloc),
            starts: vec![in alloc; 0; 1]?,
            servers: Vec::new(alloc),
            kept: Vec::new(alloc),
            key,
        })
    }

    /// A number that all rows decide of which it is a sample.
    pub(crate) fn key(&self) -> u64 {
        self.key
    }

    /// Adds a row, none of whose arcs is kept.
    pub(crate) fn push(
        &mut self,
        region: u16,
        arcs: &[Arc],
        weight: u64,
    ) -> Result<(), AllocError> {
        let first_cost = usize::from(region).saturating_mul(MOST_SITES);
        for place in 0..arcs.len() {
            let arc = get_or(
                arcs,
                place,
                Arc {
                    site: 0,
                    server: 0,
                    cost: 0,
                },
            );
            self.servers.push(short_number(arc.server))?;
            set(&mut self.costs, first_cost.saturating_add(place), arc.cost);
        }
        self.regions.push(region)?;
        self.weights.push(weight)?;
        self.kept.push(0)?;
        self.starts.push(number_of(self.servers.len()))?;
        Ok(())
    }

    /// How many rows there are.
    pub(crate) fn len(&self) -> usize {
        self.regions.len()
    }

    /// The region of a row.
    pub(crate) fn region(&self, row: usize) -> usize {
        usize::from(get_or(&self.regions, row, 0))
    }

    /// The weight of a row.
    pub(crate) fn weight(&self, row: usize) -> u64 {
        get_or(&self.weights, row, 0)
    }

    /// The weights of all rows.
    pub(crate) fn weights(&self) -> &[u64] {
        &self.weights
    }

    /// The greatest cost of an arc.
    pub(crate) fn greatest_cost(&self) -> u64 {
        greatest(&self.costs)
    }

    // The servers of a row.
    #[inline(always)]
    fn servers_of(&self, row: usize) -> &[u16] {
        let start = get_or(&self.starts, row, 0) as usize;
        let end = get_or(&self.starts, row.saturating_add(1), 0) as usize;
        between(&self.servers, start, end)
    }

    // The costs of a row's arcs.
    #[inline(always)]
    fn costs_of(&self, row: usize) -> &[u64] {
        let start = self.region(row).saturating_mul(MOST_SITES);
        between(&self.costs, start, start.saturating_add(MOST_SITES))
    }

    /// Writes the kept arcs of a row over what the list had.
    pub(crate) fn fill_kept(&self, row: usize, kept: &mut Vec<Arc>) -> Result<(), AllocError> {
        kept.clear();
        let (servers, costs) = (self.servers_of(row), self.costs_of(row));
        let mut mask = get_or(&self.kept, row, 0);
        for place in 0..servers.len() {
            if mask % 2 == 1 {
                kept.push(Arc {
                    site: 0,
                    server: u32::from(get_or(servers, place, ABSENT)),
                    cost: get_or(costs, place, 0),
                })?;
            }
            mask /= 2;
        }
        Ok(())
    }

    // What a query of a row pays over the arc to a server, by what it pays there beside the arc's cost.
    #[inline(always)]
    fn pay(server: u16, cost: u64, extras: &[u64]) -> u64 {
        cost.saturating_add(get_or(extras, usize::from(server), 0))
    }

    // The least that a query of a row pays.
    fn least_pay(&self, row: usize, extras: &[u64]) -> u64 {
        let (servers, costs) = (self.servers_of(row), self.costs_of(row));
        let mut least = u64::MAX;
        for place in 0..servers.len() {
            let server = get_or(servers, place, ABSENT);
            least = least.min(Sample::pay(server, get_or(costs, place, 0), extras));
        }
        least
    }

    // The mask of the arcs over which a query of a row pays at most so much.
    fn mask_up_to(&self, row: usize, extras: &[u64], most: u64) -> u32 {
        let (servers, costs) = (self.servers_of(row), self.costs_of(row));
        let (mut mask, mut bit) = (0u32, 1u32);
        for place in 0..servers.len() {
            let server = get_or(servers, place, ABSENT);
            if Sample::pay(server, get_or(costs, place, 0), extras) <= most {
                mask |= bit;
            }
            bit = bit.wrapping_mul(2);
        }
        mask
    }

    /// Keeps of each row the arcs over which a query pays at most `window` more than the least.
    pub(crate) fn keep_near(&mut self, extras: &[u64], window: u64) {
        for row in 0..self.len() {
            let most = self.least_pay(row, extras).saturating_add(window);
            let near = get_or(&self.kept, row, 0) | self.mask_up_to(row, extras, most);
            set(&mut self.kept, row, near);
        }
    }

    /// Keeps the least arcs of the rows that keep none of these, and returns how many arcs that are.
    pub(crate) fn keep_least(&mut self, extras: &[u64]) -> u64 {
        let mut left = 0u64;
        for row in 0..self.len() {
            let kept = get_or(&self.kept, row, 0);
            let best = self.mask_up_to(row, extras, self.least_pay(row, extras));
            if kept & best == 0 {
                set(&mut self.kept, row, kept | best);
                left = left.saturating_add(u64::from(best.count_ones()));
            }
        }
        left
    }

    // Adds by how much more than the least a query of a row pays over each arc.
    fn push_gaps(&self, row: usize, extras: &[u64], gaps: &mut Vec<u64>) -> Result<(), AllocError> {
        let least = self.least_pay(row, extras);
        let (servers, costs) = (self.servers_of(row), self.costs_of(row));
        for place in 0..servers.len() {
            let server = get_or(servers, place, ABSENT);
            let pay = Sample::pay(server, get_or(costs, place, 0), extras);
            gaps.push(pay.saturating_sub(least))?;
        }
        Ok(())
    }

    /// A window by which `rows` rows like these together keep about 10,000 arcs beside a least arc each, and at most
    /// about four each.
    pub(crate) fn window_for(
        &self,
        alloc: Global,
        extras: &[u64],
        rows: usize,
    ) -> Result<u64, AllocError> {
        let step = self.len().div_ceil(WINDOW_ROWS);
        let mut gaps = Vec::new(alloc);
        for number in 0..WINDOW_ROWS {
            self.push_gaps(number.saturating_mul(step), extras, &mut gaps)?;
        }
        gaps.sort_unstable();
        let seen = self.len() / step.max(1);
        let more = seen.saturating_mul(WINDOW_ARCS) / rows.max(LEAST_ROWS);
        let place = seen.saturating_add(more).min(gaps.len().saturating_sub(1));
        Ok(get_or(&gaps, place, 0))
    }
}
