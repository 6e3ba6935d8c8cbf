// The test that an outcome is an answer to a network.

ghost use Rattle.std.specs.Prelude.{◌≡◌, ℕ, ◌+◌, ◌*◌, ◌<◌, ◌≤◌, ◌⊎◌, IfOk, IsTrue, length, slice_index};
ghost use Rattle.hsp_network.specs.Accepted.{AreKept, ArePlanPaid};
ghost use Rattle.hsp_network.specs.Answer.{Answers, HasBoundedPrices, HasLengths, IsBalanced, IsMet, IsShortAnswer};
ghost use Rattle.hsp_network.specs.Problem.{problem_of};

use crate::accept_prices::{PricedArcs, are_loaded, paid_at};
use crate::accept_set::is_short;
use crate::network::{Network, Outcome, PricedFlow};
use crate::sums::host_sums;
use std::alloc::{AllocError, Global};

/// The greatest of the costs, or 0 where there are none.
pub fn greatest(costs: &[u64]) -> u64
    ensures bound { (k : ℕ) → k < length costs.now → slice_index costs.now k ≤ result }
    ensures attained { (result ≡ 0) ⊎ ((k : ℕ) × (k < length costs.now)
        × (slice_index costs.now k ≡ result)) }
{
    let mut most = 0;
    for cost in costs {
        if *cost > most {
            most = *cost;
        }
    }
    most
}

// Whether there is a flow for each arc and a price for each source, server and host.
fn has_lengths(network: &Network<'_>, plan: &PricedFlow) -> bool
    ensures { IsTrue result → HasLengths (problem_of network.now) plan.now }
{
    plan.flows.len() == network.sources.len()
        && plan.source_prices.len() == network.demands.len()
        && plan.server_prices.len() == network.capacities.len()
        && plan.host_prices.len() == network.limits.len()
}

// Whether no price is above the limit.
fn are_low(prices: &[u64], limit: u64) -> bool
    ensures { IsTrue result → (v : ℕ) → v < length prices.now → slice_index prices.now v ≤ limit }
{
    prices.iter().all(|price| *price <= limit)
}

// Whether no price is above N + 1 times the greatest cost, where N counts the sources, servers and hosts.
fn has_bounded_prices(network: &Network<'_>, plan: &PricedFlow) -> bool
    ensures { IsTrue result → HasBoundedPrices (problem_of network.now) plan.now }
{
    let nodes = network.demands.len() + network.capacities.len() + network.limits.len() + 1;
    match (nodes as u64).checked_mul(greatest(network.costs)) {
        Some(limit) => {
            are_low(&plan.source_prices, limit)
                && are_low(&plan.server_prices, limit)
                && are_low(&plan.host_prices, limit)
        }
        None => false,
    }
}

// Whether the sums are within their bounds (the sources' exactly at theirs), and only full servers and hosts have
// prices.
fn are_kept(
    network: &Network<'_>,
    plan: &PricedFlow,
    sent: &[u64],
    loads: &[u64],
    hosted: &[u64],
) -> bool
    requires lengths { HasLengths (problem_of network.now) plan.now }
    requires loads { length loads.now ≡ length network.now.capacities.now }
    requires hosted { length hosted.now ≡ length network.now.limits.now }
    ensures { IsTrue result
        → AreKept (problem_of network.now) plan.now sent.now loads.now hosted.now }
{
    sent == network.demands
        && are_loaded(network.capacities, loads, &plan.server_prices)
        && are_loaded(network.limits, hosted, &plan.host_prices)
}

// Whether the plan meets every source within all bounds, and has complementary slackness with its prices.
fn is_balanced(
    alloc: Global,
    network: &Network<'_>,
    plan: &PricedFlow,
    paid: &[u64],
) -> Result<bool, AllocError>
    requires lengths { HasLengths (problem_of network.now) plan.now }
    requires many { length paid.now ≡ length network.now.capacities.now }
    requires paid { ArePlanPaid (problem_of network.now) plan.now paid.now }
    ensures { IfOk result (λ yes. IsTrue yes → IsBalanced (problem_of network.now) plan.now) }
{
    let arcs = PricedArcs {
        sources: network.sources,
        servers: network.servers,
        costs: network.costs,
        flows: &plan.flows,
        source_prices: &plan.source_prices,
        paid,
    };
    let Some(sums) = arcs.sums(alloc)? else {
        return Ok(false);
    };
    let Some(hosted) = host_sums(alloc, network.hosts, &sums.loads, network.limits.len())? else {
        return Ok(false);
    };
    Ok(are_kept(network, plan, &sums.sent, &sums.loads, &hosted))
}

// Whether the plan meets every source, and its prices show it to be a cheapest one.
fn is_met(alloc: Global, network: &Network<'_>, plan: &PricedFlow) -> Result<bool, AllocError>
    ensures { IfOk result (λ yes. IsTrue yes → IsMet (problem_of network.now) plan.now) }
{
    if !has_lengths(network, plan) || !has_bounded_prices(network, plan) {
        return Ok(false);
    }
    let (servers, hosts) = (&plan.server_prices, &plan.host_prices);
    let Some(paid) = paid_at(alloc, network.hosts, servers, hosts)? else {
        return Ok(false);
    };
    is_balanced(alloc, network, plan, &paid)
}

/// Whether the outcome is seen to answer the network. It is one of two:
/// - A flow that meets every source within all bounds and has complementary slackness with its prices. No price is
///   above N + 1 times the greatest cost, where N counts the sources, servers and hosts.
/// - Sources that demand more than the servers that they may use can take.
///
/// The test takes time in proportion to the network's lists. It refuses prices or flows whose sums are above 64 bits.
///
/// # Errors
///
/// An `AllocError` where memory runs out.
pub fn accepts(alloc: Global, network: &Network<'_>, outcome: &Outcome) -> Result<bool, AllocError>
    ensures right { IfOk result (λ yes. IsTrue yes → Answers (problem_of network.now) outcome.now) }
    // No short set is refused.
    ensures short { IfOk result
        (λ yes. IsShortAnswer (problem_of network.now) outcome.now → IsTrue yes) }
{
    match outcome {
        Outcome::Met(plan) => is_met(alloc, network, plan),
        Outcome::Short(set) => is_short(alloc, network, set),
    }
}
