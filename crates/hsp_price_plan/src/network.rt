// The network of groups, and what becomes of it.

ghost use Rattle.std.specs.Prelude.{◌≡◌, ◌≤◌, ◌<◌, ◌↔◌, ◌^◌, ◌-◌, All, IfOk, IfSome, IsNone, length};
ghost use Rattle.std.specs.List.{AllByRecursion};
ghost use Rattle.hsp_network.specs.Answer.{Answers, IsMet};
ghost use Rattle.hsp_network.specs.Network.{IsNetwork};
ghost use Rattle.hsp_network.specs.Problem.{problem_of};
ghost use Rattle.hsp_price_plan.specs.Columns.{AreColumns};
ghost use Rattle.hsp_price_plan.specs.Pressing.{CanPress, HasTextPrices, IsTextOutcome};
ghost use Rattle.hsp_price_plan.specs.Solving.{HasArcsWithin, HasFewArcs, IsOutcomeOf, demand_in, group_network};

use crate::columns::{GroupColumns, columns_of};
use crate::group::RowGroup;
use crate::press::press_prices;
use hsp_cert::ranges::are_prices;
use hsp_network::{Effort, Network, Outcome, PricedFlow};
use hsp_price_check::ServiceNumbers;
use hsp_text::limits::{MOST_HOSTS, MOST_SERVERS};
use std::alloc::{AllocError, Global};

/// The most groups whose network is solved.
pub const MOST_GROUPS: usize = 67_108_864;

// The network whose sources are the groups.
fn group_network<'a>(
    numbers: &'a ServiceNumbers,
    groups: &[RowGroup],
    columns: &'a GroupColumns,
) -> Network<'a>
    requires arcs { AllByRecursion (HasArcsWithin (length numbers.now.server_hosts.items))
        groups.now }
    requires columns { AreColumns groups.now columns.now }
    ensures { problem_of result ≡ group_network numbers.now groups.now }
{
    Network {
        demands: &columns.demands,
        capacities: &numbers.capacities,
        limits: &numbers.limits,
        hosts: &numbers.server_hosts,
        sources: &columns.arcs.sources,
        servers: &columns.arcs.servers,
        costs: &columns.arcs.costs,
    }
}

// A flow with prices that a text can say, where it has others.
fn flow_in_text(
    alloc: Global,
    network: &Network<'_>,
    flow: PricedFlow,
) -> Result<PricedFlow, AllocError>
    requires met { IsMet (problem_of network.now) flow }
    requires size { CanPress (problem_of network.now) }
    ensures met { IfOk result (IsMet (problem_of network.now)) }
    ensures low { IfOk result HasTextPrices }
{
    if are_prices(&flow.server_prices, MOST_SERVERS) && are_prices(&flow.host_prices, MOST_HOSTS) {
        return Ok(flow);
    }
    press_prices(alloc, network, flow)
}

// An outcome with prices that a text can say, where it has others.
fn outcome_in_text(
    alloc: Global,
    network: &Network<'_>,
    outcome: Outcome,
) -> Result<Outcome, AllocError>
    requires answers { Answers (problem_of network.now) outcome }
    requires size { CanPress (problem_of network.now) }
    ensures answers { IfOk result (Answers (problem_of network.now)) }
    ensures low { IfOk result IsTextOutcome }
{
    match outcome {
        Outcome::Met(flow) => Ok(Outcome::Met(flow_in_text(alloc, network, flow)?)),
        Outcome::Short(set) => Ok(Outcome::Short(set)),
    }
}

/// What becomes of the network of groups, whose sources they are: a cheapest flow with prices that show it, or a short
/// set of groups. No price of a server or a host is above 10^12. It is None only where there are more than 67,108,864
/// groups.
///
/// # Errors
///
/// An `AllocError` where memory runs out.
pub fn solve_groups(
    alloc: Global,
    numbers: &ServiceNumbers,
    groups: &[RowGroup],
) -> Result<Option<Outcome>, AllocError>
    requires arcs { AllByRecursion (HasArcsWithin (length numbers.now.server_hosts.items))
        groups.now }
    requires few_arcs { AllByRecursion HasFewArcs groups.now }
    requires demands { demand_in groups.now < 2 ^ 64 - 1 }
    ensures outcome { IfOk result (λ found.
        IfSome found (Answers (group_network numbers.now groups.now))) }
    ensures service { IfOk result (λ found.
        IfSome found (IsOutcomeOf numbers.now groups.now)) }
    ensures low { IfOk result (λ found. IfSome found IsTextOutcome) }
    ensures none { IfOk result (λ found. IsNone found ↔ MOST_GROUPS < length groups.now) }
{
    if groups.len() > MOST_GROUPS {
        return Ok(None);
    }
    let columns = columns_of(alloc, groups)?;
    let network = group_network(numbers, groups, &columns);
    let outcome = hsp_network::solve(alloc, &network, &mut Effort::default())?;
    Ok(Some(outcome_in_text(alloc, &network, outcome)?))
}
