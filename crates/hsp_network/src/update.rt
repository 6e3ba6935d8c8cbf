// The update of the tree: a subtree is cut off, gets a new root and is attached to another node (Network Flows,
// 11.3).
//
// The nodes from the new root up to the old one are the stem, and the arcs between them are reversed. In the preorder
// the subtree is a part; it is gathered anew along the stem from a few contiguous pieces, what stands between its old
// and its new place moves over, and it is set down there.

use crate::graph::Graph;
use crate::lists::{between, get_or, increase, number_of, set};
use crate::tree::{Node, Part, Tree};

/// The exchange of a leaving arc for an entering one.
#[derive(Clone, Copy, Drop)]
pub struct Exchange {
    /// The root of the subtree that the leaving arc cuts off.
    pub top: usize,
    /// The end of the entering arc within the subtree, its root from now on.
    pub inner: usize,
    /// The other end of the entering arc, the new parent.
    pub outer: usize,
    pub apex: usize,
    /// The entering arc, and what flows on it.
    pub arc: u32,
    pub flow: u64,
    /// What is added to the potentials of the subtree, modulo 2^64.
    pub change: u64,
}

/// Where a subtree is set down in the preorder, and whether it is the first below its new parent.
#[derive(Clone, Copy, Drop)]
struct Landing {
    place: usize,
    leads: bool,
}

impl Tree {
    /// Cuts the subtree off that hangs by the leaving arc, and attaches it by the entering one.
    pub(crate) fn move_subtree(&mut self, graph: &Graph, exchange: &Exchange) {
        let cut = self.part_of(graph, exchange.top);
        let landing = self.landing_of(graph, exchange, cut);
        self.pass_lead(graph, exchange.top, cut);
        self.move_weight(exchange);
        self.reverse_stem(graph, exchange);
        if landing.leads && graph.is_source(exchange.outer) {
            self.set_lead(exchange.outer, number_of(exchange.inner));
        }
        self.change_potentials(cut, exchange.change);
        self.set_down(cut, landing.place);
    }

    // Where to set the subtree down: at the nearer end of its new parent's part, or beside a leaf among its siblings.
    fn landing_of(&self, graph: &Graph, exchange: &Exchange, cut: Part) -> Landing {
        let outer = self.node(exchange.outer);
        let top = self.node(exchange.top);
        let is_leaf = outer.weight == 1;
        let above = if is_leaf {
            outer.parent as usize
        } else {
            exchange.outer
        };
        let part = self.part_of(graph, above);
        let low = if graph.is_source(above) {
            part.start
        } else {
            part.start.wrapping_add(1)
        };
        let is_low = distance(low, cut) < distance(part.end, cut);
        let only_top = top.parent as usize == exchange.outer && outer.weight / 2 == top.weight / 2;
        Landing {
            place: if is_low { low } else { part.end },
            leads: is_low || is_leaf || only_top,
        }
    }

    // Where the subtree that is cut off was the first below a source, the next one is.
    fn pass_lead(&mut self, graph: &Graph, top: usize, cut: Part) {
        let parent = self.node(top).parent as usize;
        if graph.is_source(parent) && self.part_of(graph, parent).start == cut.start {
            let next = get_or(&self.preorder, cut.end, 0);
            self.set_lead(parent, next);
        }
    }

    // Sets which node of a source stands first below it.
    fn set_lead(&mut self, source: usize, lead: u32) {
        if source < self.nodes.len() {
            self.nodes[source].lead = lead;
        }
    }

    // Takes the subtree's weight from the nodes above its old place, and adds it above the new one.
    fn move_weight(&mut self, exchange: &Exchange) {
        let top = self.node(exchange.top);
        let weight = (top.weight / 2).wrapping_mul(2);
        let parent = top.parent as usize;
        self.add_weight(parent, exchange.apex, 0u32.wrapping_sub(weight));
        self.add_weight(exchange.outer, exchange.apex, weight);
    }

    // Adds to the weights from a node up to below the apex, modulo 2^32.
    fn add_weight(&mut self, from: usize, apex: usize, weight: u32) {
        let mut node = from;
        for _ in 0..self.nodes.len() {
            if node == apex || node >= self.nodes.len() {
                break;
            }
            let link = self.nodes[node];
            self.nodes[node].weight = link.weight.wrapping_add(weight);
            node = link.parent as usize;
        }
    }

    // Reverses the arcs of the stem, from the new root to the old one, and gathers the subtree in its new preorder.
    fn reverse_stem(&mut self, graph: &Graph, exchange: &Exchange) {
        let size = self.node(exchange.top).weight / 2;
        let mut done = Part { start: 0, end: 0 };
        let mut count = 0usize;
        let mut node = exchange.inner;
        let mut parent = exchange.outer;
        let mut arc = exchange.arc;
        let mut flow = exchange.flow;
        let mut cost = graph.cost_of(exchange.arc);
        for _ in 0..self.nodes.len() {
            let old = self.node(node);
            let part = self.part_of(graph, node);
            let first = count;
            count = self.gather(count, part, done);
            done = part;
            let weight = size.wrapping_sub(number_of(first)).wrapping_mul(2);
            let is_source = graph.is_source(node);
            let reversed = Node {
                parent: number_of(parent),
                arc,
                weight: weight.wrapping_add(u32::from(is_source)),
                // a source that had no other child is led by its old parent, which is its child now
                lead: if count > first {
                    get_or(&self.gathered, first, 0)
                } else {
                    old.parent
                },
                flow,
                cost,
            };
            set(&mut self.nodes, node, reversed);
            if node == exchange.top {
                break;
            }
            parent = node;
            arc = old.arc;
            flow = old.flow;
            cost = old.cost;
            node = old.parent as usize;
        }
    }

    // Appends a part of the preorder without what of it has been gathered, and returns how many nodes are gathered
    // then.
    fn gather(&mut self, count: usize, part: Part, done: Part) -> usize {
        if done.start == done.end {
            self.copy(count, part)
        } else {
            let before = Part {
                start: part.start,
                end: done.start,
            };
            let behind = Part {
                start: done.end,
                end: part.end,
            };
            let count = self.copy(count, before);
            self.copy(count, behind)
        }
    }

    // Copies a part of the preorder to the gathered nodes, and returns how many these then are.
    fn copy(&mut self, count: usize, part: Part) -> usize {
        let mut count = count;
        for node in between(&self.preorder, part.start, part.end) {
            set(&mut self.gathered, count, *node);
            count = count.wrapping_add(1);
        }
        count
    }

    // Adds to the potentials of the part that is cut out.
    fn change_potentials(&mut self, cut: Part, change: u64) {
        for node in between(&self.preorder, cut.start, cut.end) {
            increase(&mut self.potentials, *node as usize, change);
        }
    }

    // Sets the gathered nodes down before what stands at a place, and what was between moves over.
    fn set_down(&mut self, cut: Part, place: usize) {
        let size = cut.end.wrapping_sub(cut.start);
        let (start, end) = (cut.start.min(place), cut.end.max(place));
        if place <= cut.start {
            self.shift(place, cut.start, place.wrapping_add(size));
            self.paste(place, size);
        } else {
            self.shift(cut.end, place, cut.start);
            self.paste(place.wrapping_sub(size), size);
        }
        self.renumber(start, end);
    }

    // Moves a piece of the preorder to begin at another place.
    fn shift(&mut self, start: usize, end: usize, place: usize) {
        let count = self.preorder.len();
        if start <= end
            && end <= count
            && place <= count.saturating_sub(end.saturating_sub(start))
        {
            self.preorder.copy_within(start..end, place);
        }
    }

    // Copies `count` gathered nodes into the preorder.
    fn paste(&mut self, place: usize, count: usize) {
        let mut to = place;
        for node in between(&self.gathered, 0, count) {
            set(&mut self.preorder, to, *node);
            to = to.wrapping_add(1);
        }
    }

    // Notes the places of what stands in a piece of the preorder.
    fn renumber(&mut self, start: usize, end: usize) {
        let mut place = number_of(start);
        for node in between(&self.preorder, start, end) {
            set(&mut self.places, *node as usize, place);
            place = place.wrapping_add(1);
        }
    }

    /// Puts a node at a place of the preorder.
    #[inline(always)]
    pub(crate) fn set_place(&mut self, node: u32, place: usize) {
        set(&mut self.preorder, place, node);
        set(&mut self.places, node as usize, number_of(place));
    }
}

// How many nodes stand between a place and the part that is cut out.
fn distance(place: usize, cut: Part) -> usize {
    if place <= cut.start {
        cut.start - place
    } else {
        place.wrapping_sub(cut.end)
    }
}
