// What an optimal tree shows of its network: flows and prices or, where artificial flow is left, a shortage.

use crate::graph::Graph;
use crate::lists::{ABSENT, between, get_or, set};
use crate::network::{Outcome, PricedFlow};
use crate::shortage::short_set;
use crate::tree::Tree;
use std::alloc::{AllocError, Global};

impl Tree {
    /// The outcome that the tree shows.
    pub(crate) fn outcome(&self, alloc: Global, graph: &Graph) -> Result<Outcome, AllocError> {
        let flows = self.arc_flows(alloc, graph)?;
        let unmet = self.unmet_sources(alloc, graph)?;
        if unmet.contains(&true) {
            return Ok(Outcome::Short(short_set(alloc, graph, &flows, unmet)?));
        }
        let prices = self.outlet_prices(alloc, graph)?;
        let servers = graph.servers();
        let hosts = graph.hosts();
        Ok(Outcome::Met(PricedFlow {
            flows,
            source_prices: source_prices(alloc, graph, &prices)?,
            server_prices: between(&prices, servers.start, servers.end).to_vec(alloc)?,
            host_prices: between(&prices, hosts.start, hosts.end).to_vec(alloc)?,
        }))
    }

    // What flows on the sources' arcs.
    fn arc_flows(&self, alloc: Global, graph: &Graph) -> Result<Vec<u64>, AllocError> {
        let mut flows = vec![in alloc; 0; graph.star.arcs.len()]?;
        for link in &self.nodes {
            set(&mut flows, link.arc as usize, link.flow);
        }
        Ok(flows)
    }

    // The sources with flow on their artificial arcs.
    fn unmet_sources(&self, alloc: Global, graph: &Graph) -> Result<Vec<bool>, AllocError> {
        let mut unmet = vec![in alloc; false; graph.source_count]?;
        for source in 0..graph.source_count {
            let link = self.node(graph.source_node(source));
            set(&mut unmet, source, link.arc == ABSENT && link.flow > 0);
        }
        Ok(unmet)
    }

    // The prices of hosts and servers: what their outlets' bounds add to a unit's cost. Where all costs are 0 so are
    // the prices, since potentials then differ only by artificial costs.
    fn outlet_prices(&self, alloc: Global, graph: &Graph) -> Result<Vec<u64>, AllocError> {
        let mut prices = vec![in alloc; 0; graph.transit_count()]?;
        if graph.greatest_cost == 0 {
            return Ok(prices);
        }
        for node in graph.transshipment_nodes() {
            let above = self.potential(graph.outlet_head(node));
            let price = self.potential(node).saturating_sub(above);
            set(&mut prices, node, price);
        }
        Ok(prices)
    }
}

// What a unit costs a source by its cheapest arc, 0 where it has none.
fn source_prices(alloc: Global, graph: &Graph, prices: &[u64]) -> Result<Vec<u64>, AllocError> {
    let totals = total_prices(alloc, graph, prices)?;
    let mut source_prices = Vec::new(alloc);
    for source in 0..graph.source_count {
        source_prices.push(least_cost(graph, &totals, source).unwrap_or(0))?;
    }
    Ok(source_prices)
}

// The prices of servers and their hosts together.
fn total_prices(alloc: Global, graph: &Graph, prices: &[u64]) -> Result<Vec<u64>, AllocError> {
    let mut totals = prices.to_vec(alloc)?;
    for server in graph.servers() {
        let host = get_or(prices, graph.outlet_head(server), 0);
        let total = get_or(prices, server, 0).wrapping_add(host);
        set(&mut totals, server, total);
    }
    Ok(totals)
}

// The least cost and price together of the arcs of a source.
fn least_cost(graph: &Graph, totals: &[u64], source: usize) -> Option<u64> {
    graph
        .star
        .arcs_of(source)
        .iter()
        .map(|arc| get_or(totals, arc.head as usize, 0).wrapping_add(u64::from(arc.cost)))
        .min()
}
