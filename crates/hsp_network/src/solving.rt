// The solver: from no flow, source after source, to its outcome.

ghost use Rattle.std.specs.Prelude.{◌≡◌, ℕ, ◌+◌, ◌<◌, IfOk, length, slice_index};
ghost use Rattle.hsp_network.specs.Answer.{Answers};
ghost use Rattle.hsp_network.specs.Layout.{IsSmall};
ghost use Rattle.hsp_network.specs.Nodes.{MayHaveUpTo, nodes_of};
ghost use Rattle.hsp_network.specs.Problem.{problem_of};
ghost use Rattle.hsp_network.specs.ProblemArcs.{AreArcsOf, IsArcsOf};
ghost use Rattle.hsp_network.specs.Residual.{nodes};
ghost use Rattle.hsp_network.specs.Search.{Blank, Ready};

use crate::accept::greatest;
use crate::answer::{priced_flow, short_set};
use crate::arcs::{ArcLists, Arcs, Flow, Progress, SearchEffort, SearchTree};
use crate::frontier::Frontier;
use crate::index::chain_arcs;
use crate::initial_potentials::initial_potentials;
use crate::network::{Network, Outcome};
use crate::successive_paths::meet_all;
use crate::tables::{arc_capacities, arc_costs, arc_heads, arc_tails, node_supplies};
use std::alloc::{AllocError, Global};

/// Runs the solver from a flow with its prices, by searches whose tree is blank at first.
fn search_from<F: Frontier>(
    alloc: Global,
    network: &Network,
    arcs: &Arcs,
    flow: &mut Flow,
    progress: &mut Progress,
) -> Result<Outcome, AllocError>
    requires arcs_of { IsArcsOf network.now arcs.now }
    requires small { IsSmall (problem_of network.now) }
    requires ready { Ready arcs.now flow.old }
    requires blank { Blank arcs.now progress.old.tree }
    requires nodes { MayHaveUpTo F.may_have (nodes arcs.now) }
    ensures { IfOk result (Answers (problem_of network.now)) }
{
    let nodes = arcs.supplies.len();
    let mut frontier = F::with_nodes(alloc, nodes as u32)?;
    if meet_all(&mut frontier, arcs, flow, progress)? {
        return Ok(Outcome::Met(priced_flow(alloc, network, arcs, flow)?));
    }
    let set = short_set(alloc, network, arcs, flow, &progress.tree)?;
    Ok(Outcome::Short(set))
}

/// Runs the solver from a flow with its prices.
fn solve_from<F: Frontier>(
    alloc: Global,
    network: &Network,
    arcs: &Arcs,
    flow: &mut Flow,
    effort: &mut SearchEffort,
) -> Result<Outcome, AllocError>
    requires arcs_of { IsArcsOf network.now arcs.now }
    requires small { IsSmall (problem_of network.now) }
    requires ready { Ready arcs.now flow.old }
    requires nodes { MayHaveUpTo F.may_have (nodes arcs.now) }
    ensures { IfOk result (Answers (problem_of network.now)) }
{
    let nodes = arcs.supplies.len();
    let mut distance = vec![in alloc; u64::MAX; nodes]?;
    let mut predecessor = vec![in alloc; 0; nodes]?;
    let mut amount = vec![in alloc; 0; nodes]?;
    let mut depth = vec![in alloc; 0; nodes]?;
    let tree = SearchTree {
        distance: &mut distance,
        predecessor: &mut predecessor,
        amount: &mut amount,
        depth: &mut depth,
    };
    let mut progress = Progress {
        tree,
        effort: *effort,
    };
    let outcome = search_from::<F>(alloc, network, arcs, flow, &mut progress);
    *effort = progress.effort;
    outcome
}

/// Runs the solver over a network's arcs, from no flow.
fn solve_from_none<F: Frontier>(
    alloc: Global,
    network: &Network,
    arcs: &Arcs,
    effort: &mut SearchEffort,
) -> Result<Outcome, AllocError>
    requires arcs_of { IsArcsOf network.now arcs.now }
    requires small { IsSmall (problem_of network.now) }
    requires nodes { MayHaveUpTo F.may_have (nodes arcs.now) }
    ensures { IfOk result (Answers (problem_of network.now)) }
{
    let mut flows = vec![in alloc; 0; arcs.tails.len()]?;
    let mut residual_capacity = arcs.capacities.to_vec(alloc)?;
    let mut price = initial_potentials(alloc, arcs)?;
    let mut excess = arcs.supplies.to_vec(alloc)?;
    let mut flow = Flow {
        flows: &mut flows,
        residual_capacity: &mut residual_capacity,
        price: &mut price,
        excess: &mut excess,
    };
    solve_from::<F>(alloc, network, arcs, &mut flow, effort)
}

/// Runs the solver over the lists of a network's arcs.
fn solve_arcs<F: Frontier>(
    alloc: Global,
    network: &Network,
    lists: ArcLists,
    effort: &mut SearchEffort,
) -> Result<Outcome, AllocError>
    requires small { IsSmall (problem_of network.now) }
    requires arcs_of { AreArcsOf network.now lists }
    requires nodes { MayHaveUpTo F.may_have (nodes_of (problem_of network.now)) }
    ensures { IfOk result (Answers (problem_of network.now)) }
{
    let nodes = lists.supplies.len();
    let by_tail = chain_arcs(alloc, lists.tails, nodes)?;
    let by_head = chain_arcs(alloc, lists.heads, nodes)?;
    let greatest_cost = greatest(network.costs);
    let price_bound = nodes as u64 * greatest_cost;
    let arcs = Arcs {
        first: (1 + network.limits.len() + network.capacities.len()) as u32,
        tails: lists.tails,
        heads: lists.heads,
        costs: lists.costs,
        capacities: lists.capacities,
        supplies: lists.supplies,
        last_leaving: &by_tail.lasts,
        before_leaving: &by_tail.before,
        last_entering: &by_head.lasts,
        before_entering: &by_head.before,
        greatest_cost,
        price_bound,
        longest_arc: price_bound + greatest_cost,
    };
    solve_from_none::<F>(alloc, network, &arcs, effort)
}

/// A flow that meets every source at the least cost, with prices that show it, or a set of sources that demand more
/// than the servers that they may use can take (Network Flows, section 9.7). The work that it took is added to
/// `effort`.
///
/// # Errors
///
/// An `AllocError` where memory runs out.
pub fn minimum_cost_flow<F: Frontier>(
    alloc: Global,
    network: &Network,
    effort: &mut SearchEffort,
) -> Result<Outcome, AllocError>
    requires small { IsSmall (problem_of network.now) }
    requires nodes { MayHaveUpTo F.may_have (nodes_of (problem_of network.now)) }
    ensures { IfOk result (Answers (problem_of network.now)) }
{
    let tails = arc_tails(alloc, network)?;
    let heads = arc_heads(alloc, network)?;
    let costs = arc_costs(alloc, network)?;
    let capacities = arc_capacities(alloc, network)?;
    let supplies = node_supplies(alloc, network)?;
    let lists = ArcLists {
        tails: &tails,
        heads: &heads,
        costs: &costs,
        capacities: &capacities,
        supplies: &supplies,
    };
    solve_arcs::<F>(alloc, network, lists, effort)
}
