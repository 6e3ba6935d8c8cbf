// What the test accepts and what it refuses, on networks that are small enough to be solved by hand.

use crate::same::is_same;
use hsp_network::*;
use std::alloc::{AllocError, Global};
use std::process::Abort;

/// A plan's lists: what flows on each arc, and the prices of sources, servers and hosts.
#[derive(Clone, Copy)]
struct Plan<'a> {
    flows: &'a [u64],
    sources: &'a [u64],
    servers: &'a [u64],
    hosts: &'a [u64],
}

fn plan_of(alloc: Global, plan: Plan<'_>) -> Result<Outcome, AllocError> {
    Ok(Outcome::Met(PricedFlow {
        flows: plan.flows.to_vec(alloc)?,
        source_prices: plan.sources.to_vec(alloc)?,
        server_prices: plan.servers.to_vec(alloc)?,
        host_prices: plan.hosts.to_vec(alloc)?,
    }))
}

fn judged_plan(alloc: Global, network: &Network<'_>, plan: Plan<'_>) -> Result<bool, AllocError> {
    let outcome = plan_of(alloc, plan)?;
    accepts(alloc, network, &outcome)
}

fn judged_set(alloc: Global, network: &Network<'_>, set: &[bool]) -> Result<bool, AllocError> {
    let outcome = Outcome::Short(set.to_vec(alloc)?);
    accepts(alloc, network, &outcome)
}

/// The plan is judged so. A call for which memory ran out is made once more: where one growth is refused, the second
/// answer is that of ample memory.
fn judges_plan(rt: &impl Abort, alloc: Global, network: &Network<'_>, plan: Plan<'_>, right: bool) {
    let answer = match judged_plan(alloc, network, plan) {
        Err(_) => judged_plan(alloc, network, plan),
        answer => answer,
    };
    is_same(rt, answer.ok(), Some(right));
}

/// The set is judged so.
fn judges_set(rt: &impl Abort, alloc: Global, network: &Network<'_>, set: &[bool], right: bool) {
    let answer = match judged_set(alloc, network, set) {
        Err(_) => judged_set(alloc, network, set),
        answer => answer,
    };
    is_same(rt, answer.ok(), Some(right));
}

/// The first server and the host are full; the host's other server and the one on no host have room.
const SHARED_HOST: NetworkLists<'static> = NetworkLists {
    demands: &[4, 3],
    capacities: &[3, 9, 9],
    limits: &[5],
    hosts: &[Some(0), Some(0), None],
    sources: &[0, 0, 0, 1, 1],
    servers: &[0, 1, 2, 1, 2],
    costs: &[1, 2, 6, 1, 3],
};

/// Its cheapest plan.
const CHEAPEST: Plan<'static> = Plan {
    flows: &[3, 1, 0, 1, 2],
    sources: &[4, 3],
    servers: &[1, 0, 0],
    hosts: &[2],
};

/// The network of these lists.
fn network_of<'a>(rt: &impl Abort, lists: NetworkLists<'a>) -> Option<Network<'a>> {
    let network = Network::checked(lists);
    assert!(rt; network.is_some());
    network
}

#[test]
fn cheapest_plan_is_accepted(rt: HostRuntime) {
    if let Some(network) = network_of(&rt, SHARED_HOST) {
        judges_plan(&rt, rt.alloc(), &network, CHEAPEST, true);
    }
}

/// A source that fills its only server, so that prices may rise together: the greatest that are stated are 3.
const FULL_SERVER: NetworkLists<'static> = NetworkLists {
    demands: &[2],
    capacities: &[2],
    limits: &[],
    hosts: &[None],
    sources: &[0],
    servers: &[0],
    costs: &[1],
};

#[test]
fn prices_above_the_bound_are_refused(rt: HostRuntime) {
    if let Some(network) = network_of(&rt, FULL_SERVER) {
        const AT_THE_BOUND: Plan<'static> = Plan {
            flows: &[2],
            sources: &[3],
            servers: &[2],
            hosts: &[],
        };
        const ABOVE: Plan<'static> = Plan {
            sources: &[4],
            servers: &[3],
            ..AT_THE_BOUND
        };
        judges_plan(&rt, rt.alloc(), &network, AT_THE_BOUND, true);
        judges_plan(&rt, rt.alloc(), &network, ABOVE, false);
    }
}

#[test]
fn short_sets_are_distinguished_from_others(rt: HostRuntime) {
    const LISTS: NetworkLists<'static> = NetworkLists {
        demands: &[4, 3, 2],
        capacities: &[6, 2],
        limits: &[],
        hosts: &[None, None],
        sources: &[0, 1, 2],
        servers: &[0, 0, 1],
        costs: &[1, 1, 1],
    };
    if let Some(network) = network_of(&rt, LISTS) {
        judges_set(&rt, rt.alloc(), &network, &[true, true, false], true);
        judges_set(&rt, rt.alloc(), &network, &[true, true, true], true);
        judges_set(&rt, rt.alloc(), &network, &[true, false, false], false);
        judges_set(&rt, rt.alloc(), &network, &[false, true, true], false);
        judges_set(&rt, rt.alloc(), &network, &[false, false, true], false);
        judges_set(&rt, rt.alloc(), &network, &[false, false, false], false);
    }
}
