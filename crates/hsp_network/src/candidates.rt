// Candidate arcs (Network Flows, 11.5): the arcs of each source that cost little more than its cheapest one at prices
// that are near to the best.
//
// Few other arcs are in a best tree. So the last steps to the first prices, the first tree and most of the pricing look
// only at candidates, and all arcs are priced again at the end.

use crate::first_prices::FirstPrices;
use crate::graph::Graph;
use crate::lists::number_of;
use crate::star::ForwardStar;
use std::alloc::{AllocError, Global};

/// The arcs that cost, with prices, at most `window` more than the cheapest one of their source.
pub fn candidates(
    alloc: Global,
    graph: &Graph,
    prices: &FirstPrices,
    window: u64,
) -> Result<ForwardStar, AllocError> {
    let mut chosen = ForwardStar {
        arcs: Vec::new(alloc),
        firsts: vec![in alloc; 0; 1]?,
        numbers: Vec::new(alloc),
    };
    for source in 0..graph.source_count {
        let limit = prices
            .least_cost(graph.star.arcs_of(source))
            .wrapping_add(window);
        chosen.push_up_to(graph, prices, source, limit)?;
        chosen.firsts.push(number_of(chosen.arcs.len()))?;
    }
    Ok(chosen)
}

impl ForwardStar {
    // Adds the arcs of a source that cost no more than the limit.
    fn push_up_to(
        &mut self,
        graph: &Graph,
        prices: &FirstPrices,
        source: usize,
        limit: u64,
    ) -> Result<(), AllocError> {
        let mut place = graph.star.first_place(source);
        for arc in graph.star.arcs_of(source) {
            if prices.cost_with_price(*arc) <= limit {
                self.arcs.push(*arc)?;
                self.numbers.push(number_of(place))?;
            }
            place = place.wrapping_add(1);
        }
        Ok(())
    }
}
