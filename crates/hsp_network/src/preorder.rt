// The preorder of a tree of which only the parents are known, and what depends on it: places, potentials, weights,
// leads.

use crate::graph::{Graph, ROOT};
use crate::lists::{ABSENT, get_or, number_of, set};
use crate::tree::{ROOT_POTENTIAL, Tree};
use std::alloc::{AllocError, Global};

/// The children of each node, as lists: the first child of a node, and the next sibling of a child.
#[derive(Drop)]
struct ChildLists {
    first: Vec<u32>,
    next: Vec<u32>,
}

impl ChildLists {
    // Those of a tree, without sources that are leaves.
    fn new(alloc: Global, graph: &Graph, tree: &Tree) -> Result<ChildLists, AllocError> {
        let mut children = ChildLists {
            first: vec![in alloc; ABSENT; graph.node_count()]?,
            next: vec![in alloc; ABSENT; graph.node_count()]?,
        };
        for node in graph.transshipment_nodes() {
            let parent = tree.node(node).parent as usize;
            if graph.is_source(parent) && get_or(&children.first, parent, 0) == ABSENT {
                let grandparent = tree.node(parent).parent as usize;
                children.add(parent, grandparent);
            }
            children.add(node, parent);
        }
        Ok(children)
    }

    // Adds a child in front of the other children of its parent.
    fn add(&mut self, child: usize, parent: usize) {
        let sibling = get_or(&self.first, parent, ABSENT);
        set(&mut self.next, child, sibling);
        set(&mut self.first, parent, number_of(child));
    }

    // Appends the children of a node to a stack.
    fn push_children(&self, stack: &mut Vec<u32>, node: usize) -> Result<(), AllocError> {
        let mut child = get_or(&self.first, node, ABSENT);
        for _ in 0..self.next.len() {
            if child == ABSENT {
                break;
            }
            stack.push(child)?;
            child = get_or(&self.next, child as usize, ABSENT);
        }
        Ok(())
    }
}

impl Tree {
    /// Puts the nodes into preorder, by their parents and arcs.
    pub(crate) fn set_order(&mut self, alloc: Global, graph: &Graph) -> Result<(), AllocError> {
        let children = ChildLists::new(alloc, graph, self)?;
        let mut visited = Vec::new(alloc);
        let mut stack = vec![in alloc; number_of(ROOT); 1]?;
        let mut place = 0usize;
        for _ in 0..self.nodes.len() {
            let Some(node) = stack.pop() else {
                break;
            };
            visited.push(node)?;
            if !graph.is_source(node as usize) {
                self.set_place(node, place);
                self.set_potential(graph, node as usize);
                place = place.wrapping_add(1);
            }
            children.push_children(&mut stack, node as usize)?;
        }
        self.reset_weights(graph);
        self.add_up(graph, &visited);
        Ok(())
    }

    // Sets a node's potential by its parent's.
    fn set_potential(&mut self, graph: &Graph, node: usize) {
        let link = self.node(node);
        let parent = link.parent as usize;
        let potential = if node == ROOT {
            ROOT_POTENTIAL
        } else if graph.is_source(parent) {
            self.source_potential(parent).wrapping_sub(link.cost)
        } else {
            self.potential(parent)
        };
        set(&mut self.potentials, node, potential);
    }

    // Each node counts for itself.
    fn reset_weights(&mut self, graph: &Graph) {
        for node in 0..self.nodes.len() {
            self.nodes[node].weight = if graph.is_source(node) { 1 } else { 2 };
        }
    }

    // Adds weights to those of the parents and sets leads, from the last node that was visited to the first.
    fn add_up(&mut self, graph: &Graph, visited: &[u32]) {
        let mut lead = 0u32;
        for number in visited.iter().rev() {
            let node = *number as usize;
            let mut link = self.node(node);
            if graph.is_source(node) {
                link.lead = lead;
                set(&mut self.nodes, node, link);
            } else {
                lead = *number;
            }
            if node != ROOT {
                let weight = (link.weight / 2).wrapping_mul(2);
                self.add_to_weight(link.parent as usize, weight);
            }
        }
    }

    // Adds to the number of nodes in the subtree of a node.
    fn add_to_weight(&mut self, node: usize, weight: u32) {
        if node < self.nodes.len() {
            self.nodes[node].weight = self.nodes[node].weight.wrapping_add(weight);
        }
    }
}
