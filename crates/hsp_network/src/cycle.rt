// The cycle that an entering arc closes with the tree (Network Flows, 11.5 and 11.6).
//
// Flow is sent over the entering arc from its tail to its head, from there up to the apex, where the two ways to the
// root meet, and from the apex down to the tail. The least residual capacity on the cycle is the bottleneck. Of the
// arcs that block, the last along the cycle from the apex leaves: so a strongly feasible tree stays one, and
// degenerate pivots come to an end.

use crate::graph::Graph;
use crate::tree::{Node, Tree};

/// An arc that enters, in the direction in which flow is sent over it.
#[derive(Clone, Copy, Drop)]
pub struct Entering {
    pub arc: u32,
    pub tail: usize,
    pub head: usize,
    /// How much more can be sent over it.
    pub residual: u64,
    /// By how much a unit's way over it is cheaper than the tail's potential.
    pub violation: u64,
}

/// Where on the cycle the leaving arc is.
#[derive(Clone, Copy, PartialEq, Eq, Drop)]
pub enum LeavingSide {
    /// It is the entering arc itself, which goes from one bound to the other.
    Entering,
    /// Between the apex and the entering arc's tail.
    Tail,
    /// Between the entering arc's head and the apex.
    Head,
}

#[derive(Clone, Copy, Drop)]
pub struct Cycle {
    pub apex: usize,
    pub bottleneck: u64,
    pub side: LeavingSide,
    /// The child at the leaving arc, where that is not the entering one.
    pub leaving: usize,
}

/// Whether the arc between a node and its parent leads to the parent.
#[inline(always)]
pub fn leads_up(node: usize, parent: u32) -> bool {
    (parent as usize) < node
}

// How much more can be sent: from the node to its parent if `upward`, and otherwise from the parent to the node.
#[inline(always)]
fn residual(graph: &Graph, node: usize, link: &Node, upward: bool) -> u64 {
    if upward != leads_up(node, link.parent) {
        link.flow
    } else if graph.is_outlet(link.arc) {
        graph
            .outlet_capacity(graph.outlet_tail(link.arc))
            .wrapping_sub(link.flow)
    } else {
        u64::MAX
    }
}

// The way from an end of the entering arc towards the apex, as far as it has been followed.
#[derive(Clone, Copy, Drop)]
struct Climb {
    node: usize,
    weight: u32,
    bottleneck: u64,
    // the child at the arc that blocks first on this way, if the entering arc doesn't
    blocking: Option<usize>,
}

impl Climb {
    // A climb that begins at a node.
    #[inline(always)]
    fn from(tree: &Tree, node: usize, bottleneck: u64) -> Climb {
        Climb {
            node,
            weight: tree.node(node).weight,
            bottleneck,
            blocking: None,
        }
    }

    // The way with one more arc. Among arcs that block alike the one nearest to the entering arc's tail stays, or on
    // the head's way the one nearest to the apex.
    #[inline(always)]
    fn up(self, tree: &Tree, graph: &Graph, upward: bool) -> Climb {
        let link = tree.node(self.node);
        let residual = residual(graph, self.node, &link, upward);
        let blocks = residual < self.bottleneck || (upward && residual == self.bottleneck);
        let parent = link.parent as usize;
        Climb {
            node: parent,
            weight: tree.node(parent).weight,
            bottleneck: if blocks { residual } else { self.bottleneck },
            blocking: if blocks {
                Some(self.node)
            } else {
                self.blocking
            },
        }
    }
}

impl Tree {
    /// The cycle of an entering arc. The lighter of two nodes is not above the other, so climbing from it leads to
    /// the apex.
    pub(crate) fn cycle_of(&self, graph: &Graph, entering: &Entering) -> Cycle {
        let mut tail = Climb::from(self, entering.tail, entering.residual);
        let mut head = Climb::from(self, entering.head, u64::MAX);
        for _ in 0..self.nodes.len().saturating_mul(2) {
            if tail.node == head.node {
                break;
            }
            if tail.weight < head.weight {
                tail = tail.up(self, graph, false);
            } else {
                head = head.up(self, graph, true);
            }
        }
        closed(tail, head)
    }

    /// Sends an amount from a node up to the apex if `upward`, and otherwise from the apex down to the node.
    pub(crate) fn augment(&mut self, from: usize, apex: usize, amount: u64, upward: bool) {
        let mut node = from;
        for _ in 0..self.nodes.len() {
            if node == apex || node >= self.nodes.len() {
                break;
            }
            let link = self.nodes[node];
            let flow = if upward == leads_up(node, link.parent) {
                link.flow.wrapping_add(amount)
            } else {
                link.flow.wrapping_sub(amount)
            };
            self.nodes[node].flow = flow;
            node = link.parent as usize;
        }
    }
}

// The cycle of two ways that have met. The head's way comes last on it, so of arcs that block alike its own leaves.
fn closed(tail: Climb, head: Climb) -> Cycle {
    let apex = tail.node;
    if let Some(leaving) = head.blocking {
        if head.bottleneck <= tail.bottleneck {
            return Cycle {
                apex,
                bottleneck: head.bottleneck,
                side: LeavingSide::Head,
                leaving,
            };
        }
    }
    let (side, leaving) = match tail.blocking {
        Some(leaving) => (LeavingSide::Tail, leaving),
        None => (LeavingSide::Entering, tail.node),
    };
    Cycle {
        apex,
        bottleneck: tail.bottleneck,
        side,
        leaving,
    }
}
