// Shortages: sources that demand more than the servers that they may use can take (Network Flows, 6.5).
//
// Where a maximum flow leaves sources unmet, the residual network shows which sources are short: those that it reaches
// from the unmet ones. The servers and hosts that it reaches are full, and only of these sources' flow. Otherwise an
// augmenting path would be left.

use crate::graph::{Graph, ROOT};
use crate::lists::{get_or, increase, mark, set};
use crate::network::Network;
use std::alloc::{AllocError, Global};

/// What all servers can take together, or the greatest number where the sum is above it.
pub fn total_capacity(alloc: Global, network: &Network<'_>) -> Result<u64, AllocError> {
    let mut total = 0u64;
    for (host, capacity) in capacities_by_host(alloc, network)?.iter().enumerate() {
        let limit = get_or(network.limits, host, u64::MAX);
        total = total.saturating_add(limit.min(*capacity));
    }
    Ok(total)
}

// The capacities of the servers on each host together, and behind them of those on none.
fn capacities_by_host(alloc: Global, network: &Network<'_>) -> Result<Vec<u64>, AllocError> {
    let host_count = network.limits.len();
    let mut sums = vec![in alloc; 0; host_count.saturating_add(1)]?;
    for server in 0..network.capacities.len() {
        let place = match get_or(network.hosts, server, None) {
            Some(host) => host as usize,
            None => host_count,
        };
        let capacity = get_or(network.capacities, server, 0);
        let sum = get_or(&sums, place, 0u64).saturating_add(capacity);
        set(&mut sums, place, sum);
    }
    Ok(sums)
}

/// What the residual network reaches.
#[derive(Drop)]
struct Reached {
    sources: Vec<bool>,
    /// Hosts and servers.
    nodes: Vec<bool>,
}

/// The sources that the residual network of a flow reaches from unmet ones.
pub fn short_set(
    alloc: Global,
    graph: &Graph,
    flows: &[u64],
    unmet: Vec<bool>,
) -> Result<Vec<bool>, AllocError> {
    let loads = server_loads(alloc, graph, flows)?;
    let mut reached = Reached {
        sources: unmet,
        nodes: vec![in alloc; false; graph.transit_count()]?,
    };
    for _ in 0..graph.node_count() {
        let by_sources = reached.spread_sources(graph, flows);
        let by_servers = reached.spread_up(graph, &loads);
        let by_hosts = reached.spread_down(graph, &loads);
        if !by_sources && !by_servers && !by_hosts {
            break;
        }
    }
    Ok(reached.sources)
}

// What flows into each server.
fn server_loads(alloc: Global, graph: &Graph, flows: &[u64]) -> Result<Vec<u64>, AllocError> {
    let mut loads = vec![in alloc; 0; graph.transit_count()]?;
    for (arc, flow) in graph.star.arcs.iter().zip(flows) {
        increase(&mut loads, arc.head as usize, *flow);
    }
    Ok(loads)
}

// Each of these returns whether it reached anything new.
impl Reached {
    // Marks the sources within reach and their servers. Whether any is new.
    fn spread_sources(&mut self, graph: &Graph, flows: &[u64]) -> bool {
        let mut any = false;
        for source in 0..graph.source_count {
            if self.is_within_reach(graph, flows, source) {
                let spread = self.reach_servers(graph, source);
                any = any || spread;
            }
        }
        any
    }

    // Whether a source is reached, or a server from which it can take flow back.
    fn is_within_reach(&self, graph: &Graph, flows: &[u64], source: usize) -> bool {
        let mut within = get_or(&self.sources, source, false);
        let mut number = graph.star.first_place(source);
        for arc in graph.star.arcs_of(source) {
            let has_flow = get_or(flows, number, 0) > 0;
            within = within || (has_flow && get_or(&self.nodes, arc.head as usize, false));
            number = number.wrapping_add(1);
        }
        within
    }

    // Marks a source and the servers of its arcs. Whether any is new.
    fn reach_servers(&mut self, graph: &Graph, source: usize) -> bool {
        let mut any = mark(&mut self.sources, source);
        for arc in graph.star.arcs_of(source) {
            let is_new = mark(&mut self.nodes, arc.head as usize);
            any = any || is_new;
        }
        any
    }

    // From servers that have room to their hosts.
    fn spread_up(&mut self, graph: &Graph, loads: &[u64]) -> bool {
        let mut any = false;
        for server in graph.servers() {
            let host = graph.outlet_head(server);
            let has_room = get_or(loads, server, 0) < graph.outlet_capacity(server);
            if host != ROOT && has_room && get_or(&self.nodes, server, false) {
                let is_new = mark(&mut self.nodes, host);
                any = any || is_new;
            }
        }
        any
    }

    // From hosts to their servers that have a load.
    fn spread_down(&mut self, graph: &Graph, loads: &[u64]) -> bool {
        let mut any = false;
        for server in graph.servers() {
            let host = graph.outlet_head(server);
            let has_load = get_or(loads, server, 0) > 0;
            if host != ROOT && has_load && get_or(&self.nodes, host, false) {
                let is_new = mark(&mut self.nodes, server);
                any = any || is_new;
            }
        }
        any
    }
}
