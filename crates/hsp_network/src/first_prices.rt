// First prices, by subgradient steps on the Lagrangian dual (Network Flows, 16.3).
//
// The capacities are relaxed: each server and host has a price, and a source takes the server that is cheapest by
// cost and price. A price rises with what is taken from its node, in proportion to the capacity, and all prices fall
// by what a full node's price would rise. No source lifts a price by more than that: a small node's would not come down
// again. Sources take their turns one by one, and see the prices as they are then. The steps get smaller from round to
// round. Costs are multiplied by a power of two, so that small costs leave room for steps between them.

use crate::graph::{Graph, ROOT};
use crate::lists::{get_or, increase, set};
use crate::star::{ForwardStar, StarArc};
use crate::tree::INFINITE_COST;
use std::alloc::{AllocError, Global};

/// How often all prices fall in a round.
const FALLS: usize = 32;

/// By how many times the greatest cost prices rise in the first round where many sources have few arcs, and so less
/// choice.
const SPARSE_RISE: u64 = 4;

/// Prices in the making, for each node that is not a source.
#[derive(Drop)]
pub struct FirstPrices {
    /// The price of a host, or of a server with its host's.
    totals: Vec<u64>,
    /// The price of a server without its host's.
    prices: Vec<u64>,
    /// What a unit adds to the price, in 1/65536.
    unit_rises: Vec<u64>,
    /// What was taken of a host since prices last fell.
    loads: Vec<u64>,
    scale: u64,
}

// How far prices move in a round: by what a full node's price rises, or falls at a time.
#[derive(Clone, Copy, Drop)]
struct Step {
    rise: u64,
    fall: u64,
}

impl Step {
    // The step of a round: what a full load adds to a price, and what each round takes off.
    fn new(rise: u64) -> Step {
        Step {
            rise,
            fall: rise / FALLS as u64,
        }
    }
}

// A power of two by which costs come near 2^30.
fn scale_for(greatest_cost: u64) -> u64 {
    let mut scale = 1u64;
    for _ in 0..24 {
        if greatest_cost.saturating_mul(scale) < 1_073_741_824 {
            scale = scale.saturating_mul(2);
        }
    }
    scale
}

impl FirstPrices {
    /// No prices yet.
    pub(crate) fn zero(alloc: Global, graph: &Graph) -> Result<FirstPrices, AllocError> {
        let nodes = graph.transit_count();
        Ok(FirstPrices {
            totals: vec![in alloc; 0; nodes]?,
            prices: vec![in alloc; 0; nodes]?,
            unit_rises: vec![in alloc; 0; nodes]?,
            loads: vec![in alloc; 0; nodes]?,
            scale: scale_for(graph.greatest_cost),
        })
    }

    /// By what a full node's price rises in the first round.
    pub(crate) fn first_rise(&self, graph: &Graph) -> u64 {
        if graph.is_sparse() {
            let cost = graph.limited_cost.wrapping_mul(self.scale);
            cost.wrapping_mul(SPARSE_RISE)
        } else {
            graph.greatest_cost.wrapping_mul(self.scale) / 2
        }
    }

    /// Makes `count` rounds over the arcs, the first with this rise, and returns the rise of the next one.
    pub(crate) fn rounds(
        &mut self,
        graph: &Graph,
        star: &ForwardStar,
        count: u32,
        first_rise: u64,
    ) -> u64 {
        let mut rise = first_rise;
        for _ in 0..count {
            let step = Step::new(rise);
            self.set_unit_rises(graph, step);
            self.round(graph, star, step);
            rise = (rise / 8).wrapping_mul(5);
        }
        rise
    }

    /// What a unit on the arc costs with the prices where it leads, scaled.
    #[inline(always)]
    pub(crate) fn cost_with_price(&self, arc: StarArc) -> u64 {
        let cost = u64::from(arc.cost).wrapping_mul(self.scale);
        get_or(&self.totals, arc.head as usize, 0).wrapping_add(cost)
    }

    /// What a unit costs by the cheapest of the arcs.
    #[inline(always)]
    pub(crate) fn least_cost(&self, arcs: &[StarArc]) -> u64 {
        let mut least = INFINITE_COST;
        for arc in arcs {
            least = least.min(self.cost_with_price(*arc));
        }
        least
    }

    // What each unit adds to the price of its server or host, by their capacities, times 65,536.
    fn set_unit_rises(&mut self, graph: &Graph, step: Step) {
        let rise = step.rise.wrapping_mul(65_536);
        for node in graph.transshipment_nodes() {
            let unit_rise = rise / graph.outlet_capacity(node).max(1);
            set(&mut self.unit_rises, node, unit_rise);
        }
    }

    // Lets each source take its cheapest server once.
    fn round(&mut self, graph: &Graph, star: &ForwardStar, step: Step) {
        let block = (graph.source_count / FALLS).saturating_add(1);
        let mut wait = 0usize;
        for source in 0..graph.source_count {
            let server = self.cheapest_server(star.arcs_of(source));
            self.take(graph, server, get_or(&graph.demands, source, 0), step);
            wait = wait.wrapping_add(1);
            if wait == block {
                wait = 0;
                self.move_hosts(graph, step);
                self.lower_servers(graph, step);
            }
        }
    }

    // The server of the arc with the least cost and price together.
    #[inline(always)]
    fn cheapest_server(&self, arcs: &[StarArc]) -> usize {
        let mut least = INFINITE_COST;
        let mut server = 0u32;
        for arc in arcs {
            let cost = self.cost_with_price(*arc);
            server = if cost < least { arc.head } else { server };
            least = least.min(cost);
        }
        server as usize
    }

    // Loads a server and its host with a demand, and raises the price of the server.
    #[inline(always)]
    fn take(&mut self, graph: &Graph, server: usize, demand: u64, step: Step) {
        let rise = self.rise_for(server, demand, step);
        increase(&mut self.prices, server, rise);
        increase(&mut self.totals, server, rise);
        increase(&mut self.loads, graph.outlet_head(server), demand);
    }

    // What units add to a price, at most the rise of the step.
    #[inline(always)]
    fn rise_for(&self, node: usize, units: u64, step: Step) -> u64 {
        let unit_rise = get_or(&self.unit_rises, node, 0);
        (unit_rise.wrapping_mul(units) / 65_536).min(step.rise)
    }

    // Raises the hosts' prices by what was taken of them, and lowers them.
    fn move_hosts(&mut self, graph: &Graph, step: Step) {
        for host in graph.hosts() {
            let rise = self.rise_for(host, get_or(&self.loads, host, 0), step);
            let price = get_or(&self.totals, host, 0)
                .wrapping_add(rise)
                .saturating_sub(step.fall);
            set(&mut self.totals, host, price);
            set(&mut self.loads, host, 0);
        }
        set(&mut self.totals, ROOT, 0);
    }

    // Lowers the prices of all servers, and adds those of their hosts anew.
    fn lower_servers(&mut self, graph: &Graph, step: Step) {
        for server in graph.servers() {
            let price = get_or(&self.prices, server, 0).saturating_sub(step.fall);
            let of_host = get_or(&self.totals, graph.outlet_head(server), 0);
            set(&mut self.prices, server, price);
            set(&mut self.totals, server, price.wrapping_add(of_host));
        }
    }
}
