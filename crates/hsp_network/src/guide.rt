// What guides the first tree: first prices, by rounds over all arcs, and candidates, which are chosen by these prices.
// Sources take no other arcs in the last rounds.

use crate::candidates::candidates;
use crate::first_prices::FirstPrices;
use crate::graph::Graph;
use crate::star::ForwardStar;
use crate::tree::INFINITE_COST;
use std::alloc::{AllocError, Global};

/// How many rounds are made over all arcs, and then over candidates.
const ROUNDS: u32 = 7;

const LAST_ROUNDS: u32 = 6;

/// A candidate may cost more than the cheapest arc by this many rises of the next round.
const WINDOW: u64 = 4;

/// First prices, and the arcs that matter by them.
#[derive(Drop)]
pub struct Guide {
    pub prices: FirstPrices,
    pub candidates: ForwardStar,
}

// By how much a candidate may cost more than the cheapest arc of its source, where prices rise by so much next. Where
// arcs are few all are candidates: what finds no room by some would have to find it by arcs that are priced last.
fn window_of(graph: &Graph, rise: u64) -> u64 {
    if graph.is_sparse() {
        INFINITE_COST
    } else {
        rise.wrapping_mul(WINDOW)
    }
}

impl Guide {
    /// First prices from a few rounds over all arcs, then over the cheapest of each source.
    pub(crate) fn new(alloc: Global, graph: &Graph) -> Result<Guide, AllocError> {
        let mut prices = FirstPrices::zero(alloc, graph)?;
        let first_rise = prices.first_rise(graph);
        let rise = prices.rounds(graph, &graph.star, ROUNDS, first_rise);
        let candidates = candidates(alloc, graph, &prices, window_of(graph, rise))?;
        prices.rounds(graph, &candidates, LAST_ROUNDS, rise);
        Ok(Guide { prices, candidates })
    }
}
