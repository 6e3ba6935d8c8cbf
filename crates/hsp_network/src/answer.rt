// The outcome of the solver: an optimum with its prices, or a short set.

ghost use Rattle.std.specs.Prelude.{◌≡◌, ℕ, ◌+◌, ◌-◌, ◌<◌, ◌≤◌, IfOk, length, slice_index};
ghost use Rattle.hsp_network.specs.Answer.{IsMet, IsShortSet};
ghost use Rattle.hsp_network.specs.Layout.{IsSmall};
ghost use Rattle.hsp_network.specs.Problem.{problem_of};
ghost use Rattle.hsp_network.specs.ProblemArcs.{IsArcsOf};
ghost use Rattle.hsp_network.specs.Residual.{nodes, prices};
ghost use Rattle.hsp_network.specs.Search.{AreAllMet, HasStuckSource, Ready};

use crate::arcs::{Arcs, Flow, SearchTree};
use crate::network::{Network, PricedFlow};
use std::alloc::{AllocError, Global};

/// For each arc from `start` up to `end`: by how much the price at its tail is above that at its head.
pub fn price_drops(
    alloc: Global,
    arcs: &Arcs,
    price: &[u64],
    start: usize,
    end: usize,
) -> Result<Vec<u64>, AllocError>
    requires rising { start ≤ end }
    requires end_in { end ≤ length arcs.now.tails.now }
    requires many { length price.now ≡ nodes arcs.now }
    ensures many { IfOk result (λ prices. length prices.items ≡ end - start) }
    ensures each { IfOk result (λ prices.
        (j : ℕ) → j < end - start → slice_index prices.items j
        ≡ slice_index price.now (slice_index arcs.now.tails.now (start + j)) - slice_index
        price.now (slice_index arcs.now.heads.now (start + j))) }
{
    let mut prices = Vec::new(alloc);
    for arc in start..end {
        let tail = price[arcs.tails[arc] as usize];
        let head = price[arcs.heads[arc] as usize];
        prices.push(tail.saturating_sub(head))?;
    }
    Ok(prices)
}

/// The numbers from the place `start` up to `end`.
pub fn copy_range(
    alloc: Global,
    numbers: &[u64],
    start: usize,
    end: usize,
) -> Result<Vec<u64>, AllocError>
    requires rising { start ≤ end }
    requires end_in { end ≤ length numbers.now }
    ensures many { IfOk result (λ copy. length copy.items ≡ end - start) }
    ensures each { IfOk result (λ copy. (k : ℕ) → k < end - start → slice_index copy.items k
        ≡ slice_index numbers.now (start + k)) }
{
    numbers[start..end].to_vec(alloc)
}

/// The flow that meets every source, with its prices.
pub fn priced_flow(
    alloc: Global,
    network: &Network,
    arcs: &Arcs,
    flow: &Flow,
) -> Result<PricedFlow, AllocError>
    requires arcs_of { IsArcsOf network.now arcs.now }
    requires small { IsSmall (problem_of network.now) }
    requires ready { Ready arcs.now flow.now }
    requires met { AreAllMet arcs.now flow.now }
    ensures { IfOk result (λ plan. IsMet (problem_of network.now) plan) }
{
    let hosts = network.limits.len();
    let base = hosts + network.capacities.len();
    Ok(PricedFlow {
        flows: copy_range(alloc, flow.flows, base, flow.flows.len())?,
        source_prices: copy_range(alloc, flow.price, base + 1, flow.price.len())?,
        server_prices: price_drops(alloc, arcs, flow.price, hosts, base)?,
        host_prices: copy_range(alloc, flow.price, 1, hosts + 1)?,
    })
}

/// A flag for each source: whether the search, which didn't come to the sink, reached it.
pub fn short_set(
    alloc: Global,
    network: &Network,
    arcs: &Arcs,
    flow: &Flow,
    tree: &SearchTree,
) -> Result<Vec<bool>, AllocError>
    requires arcs_of { IsArcsOf network.now arcs.now }
    requires small { IsSmall (problem_of network.now) }
    requires ready { Ready arcs.now flow.now }
    requires stuck { HasStuckSource arcs.now flow.now tree.now }
    ensures { IfOk result (λ set. IsShortSet (problem_of network.now) set.items) }
{
    let mut reached = Vec::new(alloc);
    for node in arcs.first as usize..tree.distance.len() {
        reached.push(tree.distance[node] < u64::MAX)?;
    }
    Ok(reached)
}
