// The graph of a network, which stays as it is while the flow changes.
//
// The nodes are numbered: first the root, to which all flow goes, then the hosts, the servers and the sources. Hosts
// and servers are the transshipment nodes. Each of them has one arc that leads on, its outlet: a server's goes to its
// host, or to the root where it is on none, and has the server's capacity; a host's goes to the root and has the
// host's limit. A source has its arcs to servers, without bounds, and an artificial arc to the root, which costs more
// than any path. So each arc leads from a node to one with a smaller number, and the greater end of an arc is its
// tail.

use crate::lists::{ABSENT, get_or, increase, number_of};
use crate::network::Network;
use crate::star::{ForwardStar, StarArc};
use std::alloc::{AllocError, Global};
use std::ops::Range;

/// The node to which all flow goes.
pub const ROOT: usize = 0;

/// Arcs are few where sources have no more of them each, on average.
const FEW_ARCS: usize = 8;

/// Sources are many where there are more. Fewer are soon solved, whatever the first tree.
const MANY_SOURCES: usize = 8_192;

/// The graph.
#[derive(Drop)]
pub struct Graph {
    pub source_count: usize,
    pub host_count: usize,
    /// How many hosts and servers there are, and so the number of the last one.
    pub transshipment_count: usize,
    pub greatest_cost: u64,
    /// The greatest cost of an arc to a server that can't take all demands, where there is one. Others never fill, and
    /// so have no price.
    pub limited_cost: u64,
    pub artificial_cost: u64,
    pub demands: Vec<u64>,
    /// All arcs of the sources.
    pub star: ForwardStar,
    outlet_heads: Vec<u32>,
    pub outlet_capacities: Vec<u64>,
}

impl Graph {
    /// The number of nodes, the root among them.
    #[inline(always)]
    pub(crate) fn node_count(&self) -> usize {
        self.transit_count().saturating_add(self.source_count)
    }

    /// How many nodes are not sources.
    #[inline(always)]
    pub(crate) fn transit_count(&self) -> usize {
        self.transshipment_count.saturating_add(1)
    }

    /// The nodes of hosts, which follow the root.
    #[inline(always)]
    pub(crate) fn hosts(&self) -> Range<usize> {
        1..self.host_count.saturating_add(1)
    }

    /// The nodes of servers, which follow those of hosts.
    #[inline(always)]
    pub(crate) fn servers(&self) -> Range<usize> {
        self.host_count.saturating_add(1)..self.transit_count()
    }

    /// The nodes of hosts and servers.
    #[inline(always)]
    pub(crate) fn transshipment_nodes(&self) -> Range<usize> {
        1..self.transit_count()
    }

    /// Whether the node is that of a source; these come last.
    #[inline(always)]
    pub(crate) fn is_source(&self, node: usize) -> bool {
        node > self.transshipment_count
    }

    /// Whether sources are many, and arcs few.
    pub(crate) fn is_sparse(&self) -> bool {
        self.source_count > MANY_SOURCES && self.star.arcs.len() / FEW_ARCS <= self.source_count
    }

    /// The node of a source.
    #[inline(always)]
    pub(crate) fn source_node(&self, source: usize) -> usize {
        self.transshipment_count
            .wrapping_add(1)
            .wrapping_add(source)
    }

    /// What a unit on an arc costs. On an outlet it costs nothing.
    #[inline(always)]
    pub(crate) fn cost_of(&self, arc: u32) -> u64 {
        if arc == ABSENT {
            self.artificial_cost
        } else {
            u64::from(self.star.arc_at(arc as usize).cost)
        }
    }

    /// The number of a transshipment node's outlet. Outlets stand behind the arcs of the sources.
    #[inline(always)]
    pub(crate) fn outlet_of(&self, node: usize) -> u32 {
        number_of(self.star.arcs.len().wrapping_add(node))
    }

    /// Whether the arc leads from a server or a host towards the root.
    #[inline(always)]
    pub(crate) fn is_outlet(&self, arc: u32) -> bool {
        arc != ABSENT && arc as usize >= self.star.arcs.len()
    }

    /// The node whose outlet the arc of this number is.
    #[inline(always)]
    pub(crate) fn outlet_tail(&self, outlet: u32) -> usize {
        (outlet as usize).wrapping_sub(self.star.arcs.len())
    }

    /// Where the outlet of a node leads: to its host, or to the root, the node 0.
    #[inline(always)]
    pub(crate) fn outlet_head(&self, node: usize) -> usize {
        get_or(&self.outlet_heads, node, 0) as usize
    }

    /// The capacity of the outlet of a node.
    #[inline(always)]
    pub(crate) fn outlet_capacity(&self, node: usize) -> u64 {
        get_or(&self.outlet_capacities, node, 0)
    }

    /// The graph of a network whose costs are below 2^31. A residual path visits each server once, so its cost is at
    /// most the greatest cost for each server, and an artificial arc costs one more than that.
    pub(crate) fn new(
        alloc: Global,
        network: &Network<'_>,
        greatest_cost: u64,
        total_demand: u64,
    ) -> Result<Graph, AllocError> {
        let host_count = network.limits.len();
        let server_count = network.capacities.len();
        Ok(Graph {
            source_count: network.demands.len(),
            host_count,
            transshipment_count: host_count.saturating_add(server_count),
            greatest_cost,
            limited_cost: limited_cost(network, total_demand).unwrap_or(greatest_cost),
            artificial_cost: greatest_cost
                .saturating_mul(server_count as u64)
                .saturating_add(1),
            demands: network.demands.to_vec(alloc)?,
            star: star_of(alloc, network)?,
            outlet_heads: outlet_heads(alloc, network)?,
            outlet_capacities: outlet_capacities(alloc, network, total_demand)?,
        })
    }
}

// The greatest cost of an arc to a server that can't take all demands.
fn limited_cost(network: &Network<'_>, total_demand: u64) -> Option<u64> {
    let mut most = None;
    for arc in 0..network.servers.len() {
        let server = get_or(network.servers, arc, 0) as usize;
        let cost = get_or(network.costs, arc, 0);
        if get_or(network.capacities, server, 0) < total_demand && most < Some(cost) {
            most = Some(cost);
        }
    }
    most
}

// All arcs of the network, in forward star order.
fn star_of(alloc: Global, network: &Network<'_>) -> Result<ForwardStar, AllocError> {
    Ok(ForwardStar {
        arcs: source_arcs(alloc, network)?,
        firsts: first_arcs(alloc, network)?,
        numbers: Vec::new(alloc),
    })
}

// The arcs, each with its cost and the node of its server.
fn source_arcs(alloc: Global, network: &Network<'_>) -> Result<Vec<StarArc>, AllocError> {
    let mut arcs = Vec::with_capacity(alloc, network.servers.len())?;
    let first_server = number_of(network.limits.len()).wrapping_add(1);
    for arc in 0..network.servers.len() {
        let cost = get_or(network.costs, arc, 0);
        let head = get_or(network.servers, arc, 0).wrapping_add(first_server);
        let cost = if cost < 2_147_483_648 {
            cost as u32
        } else {
            ABSENT
        };
        arcs.push(StarArc { cost, head })?;
    }
    Ok(arcs)
}

// How many arcs each source has, one place behind its number.
fn arc_counts(alloc: Global, network: &Network<'_>) -> Result<Vec<u64>, AllocError> {
    let mut counts = vec![in alloc; 0; network.demands.len().saturating_add(1)]?;
    for source in network.sources {
        increase(&mut counts, (*source as usize).wrapping_add(1), 1);
    }
    Ok(counts)
}

// The place of the first arc of each source, and how many arcs there are.
fn first_arcs(alloc: Global, network: &Network<'_>) -> Result<Vec<u32>, AllocError> {
    let mut first_arcs = Vec::new(alloc);
    let mut sum = 0u64;
    for count in &arc_counts(alloc, network)? {
        sum = sum.wrapping_add(*count);
        first_arcs.push(number_of(sum as usize))?;
    }
    Ok(first_arcs)
}

// Where the outlet of each node leads.
fn outlet_heads(alloc: Global, network: &Network<'_>) -> Result<Vec<u32>, AllocError> {
    let mut heads = vec![in alloc; 0; network.limits.len().saturating_add(1)]?;
    for host in network.hosts {
        match *host {
            Some(host) => heads.push(host.wrapping_add(1))?,
            None => heads.push(0)?,
        }
    }
    Ok(heads)
}

// Capacities that no flow can use up are lowered to one more than all demands, so that sums stay small.
fn outlet_capacities(
    alloc: Global,
    network: &Network<'_>,
    total_demand: u64,
) -> Result<Vec<u64>, AllocError> {
    let ample = total_demand.saturating_add(1);
    let mut capacities = vec![in alloc; 0; 1]?;
    for capacity in network.limits.iter().chain(network.capacities) {
        capacities.push((*capacity).min(ample))?;
    }
    Ok(capacities)
}
