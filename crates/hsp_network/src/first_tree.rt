// The first tree: sources are assigned greedily, in the order of their regret, to their cheapest servers with room.
//
// It is a spanning tree by how it grows. At first each server and host hangs from its outlet. A source hangs from the
// server that takes the last of its demand. Where a source fills a server, the server hangs from the source and its
// outlet is at its upper bound, or where the server fills its host, the host hangs from the server and the host's
// outlet is. Each is filled once. What finds no room stays on the source's artificial arc.

use crate::first_prices::FirstPrices;
use crate::graph::{Graph, ROOT};
use crate::guide::Guide;
use crate::lists::{ABSENT, get_or, number_of, set};
use crate::star::ForwardStar;
use crate::tree::{Node, OutletState, Tree};
use std::alloc::{AllocError, Global};

/// What is left of the capacities of servers and the limits of hosts.
#[derive(Drop)]
struct Room {
    left: Vec<u64>,
}

impl Room {
    // The capacity that is left at a node.
    #[inline(always)]
    fn at(&self, node: usize) -> u64 {
        get_or(&self.left, node, 0)
    }

    // Whether a server and its host both have capacity left.
    #[inline(always)]
    fn is_open(&self, graph: &Graph, server: usize) -> bool {
        let host = graph.outlet_head(server);
        self.at(server) > 0 && (host == ROOT || self.at(host) > 0)
    }

    // Takes up to an amount at a server, and returns how much it took.
    fn take(&mut self, graph: &Graph, server: usize, amount: u64) -> u64 {
        let host = graph.outlet_head(server);
        let mut taken = amount.min(self.at(server));
        if host != ROOT {
            taken = taken.min(self.at(host));
            let left = self.at(host).wrapping_sub(taken);
            set(&mut self.left, host, left);
        }
        let left = self.at(server).wrapping_sub(taken);
        set(&mut self.left, server, left);
        taken
    }
}

// The place of the cheapest arc of a source to a server with room.
fn cheapest_open_place(
    graph: &Graph,
    star: &ForwardStar,
    prices: &FirstPrices,
    room: &Room,
    source: usize,
) -> Option<usize> {
    let mut least = u64::MAX;
    let mut cheapest = None;
    let mut place = star.first_place(source);
    for arc in star.arcs_of(source) {
        let cost = prices.cost_with_price(*arc);
        if cost < least && room.is_open(graph, arc.head as usize) {
            least = cost;
            cheapest = Some(place);
        }
        place = place.wrapping_add(1);
    }
    cheapest
}

// The number of the cheapest arc of a source to a server with room, a candidate if there is one.
fn cheapest_open_arc(graph: &Graph, guide: &Guide, room: &Room, source: usize) -> Option<u32> {
    let candidates = &guide.candidates;
    match cheapest_open_place(graph, candidates, &guide.prices, room, source) {
        Some(place) => Some(candidates.number_at(place)),
        None => cheapest_open_place(graph, &graph.star, &guide.prices, room, source).map(number_of),
    }
}

impl Tree {
    /// The tree of a greedy assignment of the sources in their order.
    pub(crate) fn greedy(
        alloc: Global,
        graph: &Graph,
        guide: &Guide,
        order: &[u32],
    ) -> Result<Tree, AllocError> {
        let mut tree = Tree::new(alloc, graph)?;
        let mut room = Room {
            left: graph.outlet_capacities.to_vec(alloc)?,
        };
        tree.attach_outlets(graph);
        for source in order {
            tree.assign(graph, guide, &mut room, *source as usize);
        }
        tree.set_outlet_flows(graph, &room);
        tree.set_order(alloc, graph)?;
        Ok(tree)
    }

    // Hangs each server below its host or the root, and each host below the root, without a flow.
    fn attach_outlets(&mut self, graph: &Graph) {
        for node in graph.transshipment_nodes() {
            let link = Node::leaf(graph, graph.outlet_head(node), graph.outlet_of(node), 0);
            set(&mut self.nodes, node, link);
        }
    }

    // Lets flow on the outlets that are still in the tree what their nodes took.
    fn set_outlet_flows(&mut self, graph: &Graph, room: &Room) {
        for node in graph.transshipment_nodes() {
            let link = self.node(node);
            if link.arc == graph.outlet_of(node) {
                let flow = graph.outlet_capacity(node).wrapping_sub(room.at(node));
                let link = Node::leaf(graph, link.parent as usize, link.arc, flow);
                set(&mut self.nodes, node, link);
            }
        }
    }

    // Sends a source's demand to its cheapest servers with room.
    fn assign(&mut self, graph: &Graph, guide: &Guide, room: &mut Room, source: usize) {
        let node = graph.source_node(source);
        let mut unmet = get_or(&graph.demands, source, 0);
        for _ in 0..graph.star.arcs_of(source).len().saturating_add(1) {
            let Some(arc) = cheapest_open_arc(graph, guide, room, source) else {
                set(
                    &mut self.nodes,
                    node,
                    Node::leaf(graph, ROOT, ABSENT, unmet),
                );
                return;
            };
            let server = graph.star.arc_at(arc as usize).head as usize;
            let flow = room.take(graph, server, unmet);
            unmet = unmet.wrapping_sub(flow);
            if unmet == 0 {
                let leaf = Node::leaf(graph, server, arc, flow);
                set(&mut self.nodes, node, leaf);
                return;
            }
            let link = Node::leaf(graph, node, arc, flow);
            set(&mut self.nodes, server, link);
            self.fill(graph, room, server);
        }
    }

    // Puts a full outlet at its upper bound: that of the server's host, which then hangs from the server, or otherwise
    // the server's own.
    fn fill(&mut self, graph: &Graph, room: &Room, server: usize) {
        let host = graph.outlet_head(server);
        if host != ROOT && room.at(host) == 0 {
            let flow = graph.outlet_capacity(server).wrapping_sub(room.at(server));
            let link = Node::leaf(graph, server, graph.outlet_of(server), flow);
            set(&mut self.nodes, host, link);
            set(&mut self.outlets, host, OutletState::AtUpper);
        } else {
            set(&mut self.outlets, server, OutletState::AtUpper);
        }
    }
}
