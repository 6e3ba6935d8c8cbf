// The network simplex from a network to an outcome.

use crate::accept::greatest;
use crate::graph::Graph;
use crate::guide::Guide;
use crate::lists::saturating_sum;
use crate::network::{Network, Outcome};
use crate::regret::by_regret;
use crate::shortage::total_capacity;
use crate::tree::{SimplexEffort, Tree};
use std::alloc::{AllocError, Global};

/// An outcome that may be the network's, or `None` where the network is too large for the solver's numbers or the
/// solver gave up after many pivots. The proposal is the same for the same network.
///
/// Too large is a network with a cost of 2^31 or more, demands of 2^60 or more together, 16 million servers or hosts,
/// or a thousand million sources or arcs.
///
/// No clause says more of it, since nothing rests on it. A proposal counts only where the test `crate::accepts`
/// says so, and the test knows nothing of how it came about. A mistake here would cost only time.
///
/// # Errors
///
/// An `AllocError` where memory runs out.
pub fn propose(alloc: Global, network: &Network<'_>) -> Result<Option<Outcome>, AllocError> {
    let mut effort = SimplexEffort {
        pivots: 0,
        sweeps: 0,
    };
    propose_counted(alloc, network, &mut effort)
}

/// Does as `propose`, and adds the work that it took to `effort`.
///
/// # Errors
///
/// An `AllocError` where memory runs out.
pub fn propose_counted(
    alloc: Global,
    network: &Network<'_>,
    effort: &mut SimplexEffort,
) -> Result<Option<Outcome>, AllocError> {
    let greatest_cost = greatest(network.costs);
    let total_demand = saturating_sum(network.demands);
    if !has_room(network, greatest_cost, total_demand) {
        return Ok(None);
    }
    if total_capacity(alloc, network)? < total_demand {
        let all = vec![in alloc; true; network.demands.len()]?;
        return Ok(Some(Outcome::Short(all)));
    }
    let graph = Graph::new(alloc, network, greatest_cost, total_demand)?;
    outcome_of(alloc, &graph, effort)
}

// The first tree, made of the arcs by their sources' regrets.
fn first_tree(alloc: Global, graph: &Graph, guide: &Guide) -> Result<Tree, AllocError> {
    let order = by_regret(alloc, graph, guide)?;
    Tree::greedy(alloc, graph, guide, &order)
}

// The outcome that the pivots from the first tree come to, if they end.
fn guided_outcome(
    alloc: Global,
    graph: &Graph,
    guide: &Guide,
    effort: &mut SimplexEffort,
) -> Result<Option<Outcome>, AllocError> {
    let mut tree = first_tree(alloc, graph, guide)?;
    let is_optimal = tree.optimize(graph, &guide.candidates);
    effort.add(&tree.effort);
    if !is_optimal {
        return Ok(None);
    }
    Ok(Some(tree.outcome(alloc, graph)?))
}

// The same, by the first prices of the graph.
fn outcome_of(
    alloc: Global,
    graph: &Graph,
    effort: &mut SimplexEffort,
) -> Result<Option<Outcome>, AllocError> {
    let guide = Guide::new(alloc, graph)?;
    guided_outcome(alloc, graph, &guide, effort)
}

// Whether the network's numbers have room in the solver's.
fn has_room(network: &Network<'_>, greatest_cost: u64, total_demand: u64) -> bool {
    network.sources.len() < 1_000_000_000
        && network.demands.len() < 1_000_000_000
        && network.capacities.len() < 16_000_000
        && network.limits.len() < 16_000_000
        && greatest_cost < 2_147_483_648
        && total_demand < 1_152_921_504_606_846_976
}
