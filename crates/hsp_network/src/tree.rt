// A spanning tree of the graph, with the flow and the potentials that belong to it (Network Flows, 11.2 and 11.3).
//
// An arc beside the tree carries nothing, but if it is an outlet it may be at its upper bound. A node's potential is
// what a unit costs on its way from there to the root by the tree's arcs, so that these have reduced cost 0. The
// potential of a source follows from its parent's and is not kept. Most sources are leaves, and so the preorder too has
// only the other nodes. A subtree is a contiguous part of it, and so are all that hang below a source. A pivot moves
// such parts, and adds one number to the potentials in one.

use crate::graph::{Graph, ROOT};
use crate::lists::{ABSENT, get_or, number_of};
use std::alloc::{AllocError, Global};

/// Whether a transshipment node's outlet is in the tree, and otherwise at which bound it is.
#[derive(Clone, Copy, Drop)]
pub enum OutletState {
    Basic,
    AtLower,
    AtUpper,
}

/// A node of the tree.
#[derive(Clone, Copy, Drop)]
pub struct Node {
    pub parent: u32,
    /// The arc between the node and its parent, or `ABSENT` for an artificial one.
    pub arc: u32,
    /// Twice the number of nodes in its subtree that are not sources, and one more for a source itself: so weights grow
    /// on each way to the root.
    pub weight: u32,
    /// Of a source with children: the first node of its subtree in the preorder.
    pub lead: u32,
    /// What flows on the arc.
    pub flow: u64,
    /// What a unit on the arc costs.
    pub cost: u64,
}

impl Node {
    /// A node without children.
    #[inline(always)]
    pub(crate) fn leaf(graph: &Graph, parent: usize, arc: u32, flow: u64) -> Node {
        Node {
            parent: number_of(parent),
            arc,
            weight: 1,
            lead: 0,
            flow,
            cost: graph.cost_of(arc),
        }
    }
}

/// What the network simplex took.
#[derive(Clone, Copy, Default, Drop)]
pub struct SimplexEffort {
    /// How often an arc entered.
    pub pivots: u64,
    /// How often all sources' arcs were priced.
    pub sweeps: u64,
}

impl SimplexEffort {
    /// Adds another effort.
    pub(crate) fn add(&mut self, other: &SimplexEffort) {
        self.pivots = self.pivots.saturating_add(other.pivots);
        self.sweeps = self.sweeps.saturating_add(other.sweeps);
    }
}

/// A part of the preorder, from a place up to another.
#[derive(Clone, Copy, Drop)]
pub struct Part {
    pub start: usize,
    pub end: usize,
}

#[derive(Drop)]
pub struct Tree {
    pub nodes: Vec<Node>,
    pub outlets: Vec<OutletState>,
    pub potentials: Vec<u64>,
    pub preorder: Vec<u32>,
    /// The place of each node in the preorder.
    pub places: Vec<u32>,
    /// Where a subtree is gathered while it moves.
    pub gathered: Vec<u32>,
    pub effort: SimplexEffort,
}

/// The root's potential, which keeps those of other nodes above 0.
pub const ROOT_POTENTIAL: u64 = 1_152_921_504_606_846_976;

/// A cost that nothing can have.
pub const INFINITE_COST: u64 = 4_611_686_018_427_387_904;

impl Tree {
    /// A tree in which each node is a child of the root.
    pub(crate) fn new(alloc: Global, graph: &Graph) -> Result<Tree, AllocError> {
        let transit = graph.transit_count();
        let unattached = Node::leaf(graph, ROOT, ABSENT, 0);
        Ok(Tree {
            nodes: vec![in alloc; unattached; graph.node_count()]?,
            outlets: vec![in alloc; OutletState::Basic; transit]?,
            potentials: vec![in alloc; ROOT_POTENTIAL; transit]?,
            preorder: vec![in alloc; 0; transit]?,
            places: vec![in alloc; 0; transit]?,
            gathered: vec![in alloc; 0; transit]?,
            effort: SimplexEffort {
                pivots: 0,
                sweeps: 0,
            },
        })
    }

    /// What the tree holds of a node.
    #[inline(always)]
    pub(crate) fn node(&self, node: usize) -> Node {
        let missing = Node {
            parent: 0,
            arc: ABSENT,
            weight: ABSENT,
            lead: 0,
            flow: 0,
            cost: 0,
        };
        get_or(&self.nodes, node, missing)
    }

    /// The state of the outlet of a node.
    #[inline(always)]
    pub(crate) fn outlet(&self, node: usize) -> OutletState {
        get_or(&self.outlets, node, OutletState::Basic)
    }

    /// The potential of a node.
    #[inline(always)]
    pub(crate) fn potential(&self, node: usize) -> u64 {
        get_or(&self.potentials, node, ROOT_POTENTIAL)
    }

    /// The potential of a source, by its arc in the tree.
    #[inline(always)]
    pub(crate) fn source_potential(&self, node: usize) -> u64 {
        let source = self.node(node);
        self.potential(source.parent as usize)
            .wrapping_add(source.cost)
    }

    /// The part of the preorder that has the subtree of a node.
    #[inline(always)]
    pub(crate) fn part_of(&self, graph: &Graph, node: usize) -> Part {
        let this = self.node(node);
        if this.weight == 1 {
            return Part { start: 0, end: 0 };
        }
        let first = if graph.is_source(node) {
            this.lead as usize
        } else {
            node
        };
        let start = get_or(&self.places, first, 0) as usize;
        Part {
            start,
            end: start.wrapping_add((this.weight / 2) as usize),
        }
    }
}
