// Pricing: which arc enters next (Network Flows, 11.5).
//
// The sources are swept over in turn. For each source, the arc by which a unit costs least enters, if it violates the
// optimality conditions by more than a threshold. Outlets are priced in between. The threshold begins high, so that the
// worst violations go first, and falls to 0. These sweeps look only at candidates. When a sweep over all arcs then
// finds nothing at 0, the tree is optimal.

use crate::cycle::Entering;
use crate::graph::Graph;
use crate::lists::get_or;
use crate::star::{ForwardStar, StarArc};
use crate::tree::{INFINITE_COST, OutletState, Tree};
use std::ops::Range;

/// The most sweeps that are made at each threshold above 0, and the most at 0.
const SWEEPS: u32 = 5;

const LAST_SWEEPS: u32 = 1_000;

/// About how many pivots are made for each node before the solver gives up.
const PIVOTS_EACH: u64 = 20;

// When outlets are priced in a sweep: `batch` of them after each `stride` sources.
#[derive(Clone, Copy, Drop)]
struct Schedule {
    stride: usize,
    batch: usize,
}

impl Schedule {
    // How many sources are priced between two batches of outlets, and how large a batch is.
    fn of(graph: &Graph) -> Schedule {
        let sources = graph.source_count;
        let outlets = graph.transshipment_count;
        Schedule {
            stride: (sources / outlets.max(1)).max(1),
            batch: (outlets / sources.max(1)).saturating_add(1),
        }
    }
}

impl Tree {
    /// Improves the tree until it is optimal, and returns whether it became so.
    pub(crate) fn optimize(&mut self, graph: &Graph, candidates: &ForwardStar) -> bool {
        let mut threshold = graph.greatest_cost / 4;
        for _ in 0..64 {
            if threshold == 0 {
                break;
            }
            self.sweep_at(graph, candidates, threshold);
            threshold /= 2;
        }
        self.finish(graph, candidates) && self.finish(graph, &graph.star)
    }

    // Sweeps at a threshold until few arcs enter.
    fn sweep_at(&mut self, graph: &Graph, star: &ForwardStar, threshold: u64) {
        let few = graph.source_count as u64 / 32;
        for _ in 0..SWEEPS {
            if self.sweep(graph, star, threshold) <= few {
                break;
            }
        }
    }

    // Sweeps over the arcs until none enters, and returns whether it came to that.
    fn finish(&mut self, graph: &Graph, star: &ForwardStar) -> bool {
        let pivot_limit = (graph.node_count() as u64)
            .saturating_add(1_000)
            .saturating_mul(PIVOTS_EACH);
        for _ in 0..LAST_SWEEPS {
            if self.sweep(graph, star, 0) == 0 {
                return true;
            }
            if self.effort.pivots > pivot_limit {
                return false;
            }
        }
        false
    }

    // Prices these arcs of all sources, and the outlets, and returns how many arcs entered.
    fn sweep(&mut self, graph: &Graph, star: &ForwardStar, threshold: u64) -> u64 {
        let schedule = Schedule::of(graph);
        let before = self.effort.pivots;
        let mut outlet = 1usize;
        let mut wait = 0usize;
        for source in 0..graph.source_count {
            self.price_source(graph, star, source, threshold);
            wait = wait.wrapping_add(1);
            if wait == schedule.stride {
                wait = 0;
                let next = outlet.saturating_add(schedule.batch);
                self.price_outlets(graph, outlet..next, threshold);
                outlet = next;
            }
        }
        self.effort.sweeps = self.effort.sweeps.wrapping_add(1);
        self.effort.pivots.wrapping_sub(before)
    }

    // Lets the best arc of a source enter, where it violates optimality by more than the threshold.
    #[inline(always)]
    fn price_source(&mut self, graph: &Graph, star: &ForwardStar, source: usize, threshold: u64) {
        let tail = graph.source_node(source);
        let least = self.least_potential(star.arcs_of(source));
        let violation = self.source_potential(tail).saturating_sub(least);
        if violation > threshold {
            let place = self.place_of(star, source, least);
            let entering = Entering {
                arc: star.number_at(place),
                tail,
                head: star.arc_at(place).head as usize,
                residual: u64::MAX,
                violation,
            };
            self.pivot(graph, &entering);
        }
    }

    // What a unit costs by an arc.
    #[inline(always)]
    fn potential_by(&self, arc: StarArc) -> u64 {
        get_or(&self.potentials, arc.head as usize, INFINITE_COST).wrapping_add(u64::from(arc.cost))
    }

    // What a unit costs by the cheapest of the arcs.
    #[inline(always)]
    fn least_potential(&self, arcs: &[StarArc]) -> u64 {
        let mut least = INFINITE_COST;
        for arc in arcs {
            least = least.min(self.potential_by(*arc));
        }
        least
    }

    // The place of the first arc of a source by which a unit costs that much.
    fn place_of(&self, star: &ForwardStar, source: usize, potential: u64) -> usize {
        let mut place = star.first_place(source);
        for arc in star.arcs_of(source) {
            if self.potential_by(*arc) == potential {
                break;
            }
            place = place.wrapping_add(1);
        }
        place
    }

    // Lets each outlet of the nodes enter that violates optimality by more than the threshold.
    fn price_outlets(&mut self, graph: &Graph, nodes: Range<usize>, threshold: u64) {
        for node in nodes {
            if node <= graph.transshipment_count {
                let violation = self.outlet_violation(graph, node);
                if violation > threshold {
                    self.enter_outlet(graph, node, violation);
                }
            }
        }
    }

    // By how much an outlet at a bound would gain from flow towards the other.
    fn outlet_violation(&self, graph: &Graph, node: usize) -> u64 {
        let below = self.potential(node);
        let above = self.potential(graph.outlet_head(node));
        match self.outlet(node) {
            OutletState::Basic => 0,
            OutletState::AtLower => below.saturating_sub(above),
            OutletState::AtUpper => above.saturating_sub(below),
        }
    }

    // Lets an outlet enter: backwards where its flow is at its capacity.
    fn enter_outlet(&mut self, graph: &Graph, node: usize, violation: u64) {
        let above = graph.outlet_head(node);
        let is_full = self.outlet(node) == OutletState::AtUpper;
        let (tail, head) = if is_full {
            (above, node)
        } else {
            (node, above)
        };
        let entering = Entering {
            arc: graph.outlet_of(node),
            tail,
            head,
            residual: graph.outlet_capacity(node),
            violation,
        };
        self.pivot(graph, &entering);
    }
}
