// A pivot: flow is sent along the cycle of the entering arc, and this arc takes the leaving one's place in the tree
// (Network Flows, 11.5).

use crate::cycle::{Cycle, Entering, LeavingSide, leads_up};
use crate::graph::Graph;
use crate::lists::set;
use crate::tree::{Node, OutletState, Tree};
use crate::update::Exchange;

impl Tree {
    /// Lets an arc enter.
    pub(crate) fn pivot(&mut self, graph: &Graph, entering: &Entering) {
        self.effort.pivots = self.effort.pivots.wrapping_add(1);
        let cycle = self.cycle_of(graph, entering);
        if cycle.bottleneck > 0 {
            self.augment(entering.tail, cycle.apex, cycle.bottleneck, false);
            self.augment(entering.head, cycle.apex, cycle.bottleneck, true);
        }
        let flow = self.enter(graph, entering, &cycle);
        if cycle.side != LeavingSide::Entering {
            self.leave(graph, &cycle);
            self.exchange(graph, entering, &cycle, flow);
        }
    }

    // Notes the state of an outlet that enters, and returns what flows on the entering arc.
    fn enter(&mut self, graph: &Graph, entering: &Entering, cycle: &Cycle) -> u64 {
        if !graph.is_outlet(entering.arc) {
            return cycle.bottleneck;
        }
        let node = graph.outlet_tail(entering.arc);
        let was_full = self.outlet(node) == OutletState::AtUpper;
        let state = if cycle.side != LeavingSide::Entering {
            OutletState::Basic
        } else if was_full {
            OutletState::AtLower
        } else {
            OutletState::AtUpper
        };
        set(&mut self.outlets, node, state);
        if was_full {
            graph.outlet_capacity(node).wrapping_sub(cycle.bottleneck)
        } else {
            cycle.bottleneck
        }
    }

    // Notes at which bound an outlet is that leaves: full where flow was sent along it.
    fn leave(&mut self, graph: &Graph, cycle: &Cycle) {
        let link = self.node(cycle.leaving);
        if graph.is_outlet(link.arc) {
            let upward = cycle.side == LeavingSide::Head;
            let state = if upward == leads_up(cycle.leaving, link.parent) {
                OutletState::AtUpper
            } else {
                OutletState::AtLower
            };
            set(&mut self.outlets, graph.outlet_tail(link.arc), state);
        }
    }

    // Puts the entering arc with its flow in the place of the leaving one. The subtree that the leaving arc cuts off
    // has the tail of the entering arc, and then its potentials fall by the violation, or has its head, and they
    // rise.
    fn exchange(&mut self, graph: &Graph, entering: &Entering, cycle: &Cycle, flow: u64) {
        let cuts_tail = cycle.side == LeavingSide::Tail;
        let (inner, outer) = if cuts_tail {
            (entering.tail, entering.head)
        } else {
            (entering.head, entering.tail)
        };
        if cycle.leaving == inner && self.node(inner).weight == 1 {
            let leaf = Node::leaf(graph, outer, entering.arc, flow);
            set(&mut self.nodes, inner, leaf);
            return;
        }
        let change = if cuts_tail {
            0u64.wrapping_sub(entering.violation)
        } else {
            entering.violation
        };
        let exchange = Exchange {
            top: cycle.leaving,
            inner,
            outer,
            apex: cycle.apex,
            arc: entering.arc,
            flow,
            change,
        };
        self.move_subtree(graph, &exchange);
    }
}
