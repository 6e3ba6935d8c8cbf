// Proposals for networks that can be worked by hand. Running out of memory is no answer: each call is made once more
// then, and has to succeed.

use crate::same::is_same;
use hsp_network::{
    Network, NetworkLists, Outcome, PricedFlow, SimplexEffort, propose, propose_counted,
};
use std::alloc::{AllocError, Global};
use std::process::Abort;

fn proposal(alloc: Global, network: &Network<'_>) -> Result<Option<Outcome>, AllocError> {
    let first = propose(alloc, network);
    if first.is_err() {
        return propose(alloc, network);
    }
    first
}

/// The flows and prices that are wanted.
#[derive(Drop)]
struct Wanted<'a> {
    flows: &'a [u64],
    sources: &'a [u64],
    servers: &'a [u64],
    hosts: &'a [u64],
}

/// The plan that is proposed for these lists, if any is.
fn plan_of(alloc: Global, lists: NetworkLists<'_>) -> Option<PricedFlow> {
    let network = Network::checked(lists)?;
    match proposal(alloc, &network) {
        Ok(Some(Outcome::Met(plan))) => Some(plan),
        _ => None,
    }
}

/// Every source is met by these flows, at these prices.
fn meets(rt: &impl Abort, alloc: Global, lists: NetworkLists<'_>, wanted: &Wanted<'_>) {
    let plan = plan_of(alloc, lists);
    assert!(rt; plan.is_some());
    if let Some(plan) = plan {
        is_same(rt, plan.flows.as_slice(), wanted.flows);
        is_same(rt, plan.source_prices.as_slice(), wanted.sources);
        is_same(rt, plan.server_prices.as_slice(), wanted.servers);
        is_same(rt, plan.host_prices.as_slice(), wanted.hosts);
    }
}

/// The set that is proposed for these lists as short, if any is.
fn set_of(alloc: Global, lists: NetworkLists<'_>) -> Option<Vec<bool>> {
    let network = Network::checked(lists)?;
    match proposal(alloc, &network) {
        Ok(Some(Outcome::Short(set))) => Some(set),
        _ => None,
    }
}

/// These sources are short.
fn lacks(rt: &impl Abort, alloc: Global, lists: NetworkLists<'_>, short: &[bool]) {
    let set = set_of(alloc, lists);
    assert!(rt; set.is_some());
    if let Some(set) = set {
        is_same(rt, set.as_slice(), short);
    }
}

/// Nothing is proposed for these lists, which are a network.
fn declines(rt: &impl Abort, alloc: Global, lists: NetworkLists<'_>) {
    let network = Network::checked(lists);
    assert!(rt; network.is_some());
    if let Some(network) = network {
        let proposal = proposal(alloc, &network);
        assert!(rt; matches!(&proposal, Ok(None)));
    }
}

/// One source and one server.
fn single<'a>(
    demand: &'a [u64; 1],
    capacity: &'a [u64; 1],
    cost: &'a [u64; 1],
) -> NetworkLists<'a> {
    NetworkLists {
        demands: demand,
        capacities: capacity,
        limits: &[],
        hosts: &[None],
        sources: &[0],
        servers: &[0],
        costs: cost,
    }
}

#[test]
fn one_source_takes_its_server(rt: HostRuntime) {
    let wanted = Wanted {
        flows: &[5],
        sources: &[3],
        servers: &[0],
        hosts: &[],
    };
    meets(&rt, rt.alloc(), single(&[5], &[9], &[3]), &wanted);
}

#[test]
fn cheaper_server_that_is_full_has_the_difference_as_its_price(rt: HostRuntime) {
    let lists = NetworkLists {
        demands: &[10],
        capacities: &[4, 9],
        limits: &[],
        hosts: &[None, None],
        sources: &[0, 0],
        servers: &[0, 1],
        costs: &[2, 5],
    };
    let wanted = Wanted {
        flows: &[4, 6],
        sources: &[5],
        servers: &[3, 0],
        hosts: &[],
    };
    meets(&rt, rt.alloc(), lists, &wanted);
}

#[test]
fn shared_server_goes_to_the_source_that_would_lose_more(rt: HostRuntime) {
    let lists = NetworkLists {
        demands: &[6, 6],
        capacities: &[8, 8],
        limits: &[],
        hosts: &[None, None],
        sources: &[0, 0, 1, 1],
        servers: &[0, 1, 0, 1],
        costs: &[1, 4, 2, 3],
    };
    let wanted = Wanted {
        flows: &[6, 0, 2, 4],
        sources: &[2, 3],
        servers: &[1, 0],
        hosts: &[],
    };
    meets(&rt, rt.alloc(), lists, &wanted);
}

#[test]
fn host_that_binds_has_a_price(rt: HostRuntime) {
    let lists = NetworkLists {
        demands: &[10],
        capacities: &[9, 9, 9],
        limits: &[6],
        hosts: &[Some(0), Some(0), None],
        sources: &[0, 0, 0],
        servers: &[0, 1, 2],
        costs: &[1, 2, 7],
    };
    let wanted = Wanted {
        flows: &[6, 0, 4],
        sources: &[7],
        servers: &[0, 0, 0],
        hosts: &[6],
    };
    meets(&rt, rt.alloc(), lists, &wanted);
}

#[test]
fn servers_that_tie_share_a_source_without_prices(rt: HostRuntime) {
    let lists = NetworkLists {
        demands: &[4],
        capacities: &[9, 9],
        limits: &[],
        hosts: &[None, None],
        sources: &[0, 0],
        servers: &[0, 1],
        costs: &[3, 3],
    };
    let plan = plan_of(rt.alloc(), lists);
    assert!(rt; plan.is_some());
    if let Some(plan) = plan {
        let flows = plan.flows.as_slice();
        assert!(rt; flows == [4, 0].as_slice() || flows == [0, 4].as_slice());
        is_same(&rt, plan.source_prices.as_slice(), [3].as_slice());
        is_same(&rt, plan.server_prices.as_slice(), [0, 0].as_slice());
    }
}

#[test]
fn equal_arcs_carry_one_demand(rt: HostRuntime) {
    let lists = NetworkLists {
        demands: &[5],
        capacities: &[7],
        limits: &[],
        hosts: &[None],
        sources: &[0, 0, 0],
        servers: &[0, 0, 0],
        costs: &[4, 2, 2],
    };
    let plan = plan_of(rt.alloc(), lists);
    assert!(rt; plan.is_some());
    if let Some(plan) = plan {
        let flows = plan.flows.as_slice();
        assert!(rt; flows == [0, 5, 0].as_slice() || flows == [0, 0, 5].as_slice());
        is_same(&rt, plan.source_prices.as_slice(), [2].as_slice());
        is_same(&rt, plan.server_prices.as_slice(), [0].as_slice());
    }
}

#[test]
fn zero_demands_take_nothing_and_are_priced(rt: HostRuntime) {
    let lists = NetworkLists {
        demands: &[0, 0],
        capacities: &[5],
        limits: &[],
        hosts: &[None],
        sources: &[0, 1],
        servers: &[0, 0],
        costs: &[3, 4],
    };
    let wanted = Wanted {
        flows: &[0, 0],
        sources: &[3, 4],
        servers: &[0],
        hosts: &[],
    };
    meets(&rt, rt.alloc(), lists, &wanted);
}

#[test]
fn zero_capacity_takes_nothing_and_costs_enough(rt: HostRuntime) {
    let lists = NetworkLists {
        demands: &[3],
        capacities: &[0, 5],
        limits: &[],
        hosts: &[None, None],
        sources: &[0, 0],
        servers: &[0, 1],
        costs: &[1, 4],
    };
    let plan = plan_of(rt.alloc(), lists);
    assert!(rt; plan.is_some());
    if let Some(plan) = plan {
        is_same(&rt, plan.flows.as_slice(), [0, 3].as_slice());
        is_same(&rt, plan.source_prices.as_slice(), [4].as_slice());
        assert!(rt; plan.server_prices.len() == 2);
        for (server, price) in plan.server_prices.iter().enumerate() {
            assert!(rt;
                if server == 0 {
                    *price >= 3
                } else {
                    *price == 0
                }
            );
        }
    }
}

#[test]
fn empty_network_is_met(rt: HostRuntime) {
    let lists = NetworkLists {
        demands: &[],
        capacities: &[],
        limits: &[],
        hosts: &[],
        sources: &[],
        servers: &[],
        costs: &[],
    };
    let wanted = Wanted {
        flows: &[],
        sources: &[],
        servers: &[],
        hosts: &[],
    };
    meets(&rt, rt.alloc(), lists, &wanted);
}

#[test]
fn source_without_arcs_is_short(rt: HostRuntime) {
    let lists = NetworkLists {
        demands: &[1, 1],
        capacities: &[5],
        limits: &[],
        hosts: &[None],
        sources: &[0],
        servers: &[0],
        costs: &[3],
    };
    lacks(&rt, rt.alloc(), lists, &[false, true]);
}

#[test]
fn all_sources_together_are_short(rt: HostRuntime) {
    let lists = NetworkLists {
        demands: &[4, 3],
        capacities: &[9, 9],
        limits: &[6],
        hosts: &[Some(0), Some(0)],
        sources: &[0, 1],
        servers: &[0, 1],
        costs: &[2, 2],
    };
    lacks(&rt, rt.alloc(), lists, &[true, true]);
}

#[test]
fn shortage_spreads_over_a_shared_server(rt: HostRuntime) {
    let lists = NetworkLists {
        demands: &[4, 5, 1],
        capacities: &[3, 4, 9],
        limits: &[],
        hosts: &[None, None, None],
        sources: &[0, 1, 1, 2],
        servers: &[0, 0, 1, 2],
        costs: &[1, 1, 1, 1],
    };
    lacks(&rt, rt.alloc(), lists, &[true, true, false]);
}

#[test]
fn shortage_spreads_over_a_host(rt: HostRuntime) {
    let lists = NetworkLists {
        demands: &[3, 3, 1],
        capacities: &[4, 4, 9],
        limits: &[5],
        hosts: &[Some(0), Some(0), None],
        sources: &[0, 1, 2],
        servers: &[0, 1, 2],
        costs: &[1, 1, 1],
    };
    lacks(&rt, rt.alloc(), lists, &[true, true, false]);
}

#[test]
fn greatest_numbers_are_solved(rt: HostRuntime) {
    let wanted = Wanted {
        flows: &[1_152_921_504_606_846_975],
        sources: &[2_147_483_647],
        servers: &[0],
        hosts: &[],
    };
    let lists = single(&[1_152_921_504_606_846_975], &[u64::MAX], &[2_147_483_647]);
    meets(&rt, rt.alloc(), lists, &wanted);
}

#[test]
fn greater_numbers_are_declined(rt: HostRuntime) {
    let dear = single(&[5], &[9], &[2_147_483_648]);
    declines(&rt, rt.alloc(), dear);
    let heavy = single(&[1_152_921_504_606_846_976], &[u64::MAX], &[3]);
    declines(&rt, rt.alloc(), heavy);
}

#[test]
fn effort_is_added(rt: HostRuntime) {
    let network = Network::checked(single(&[5], &[9], &[3]));
    assert!(rt; network.is_some());
    if let Some(network) = network {
        let mut effort = SimplexEffort {
            pivots: 7,
            sweeps: 7,
        };
        let mut outcome = propose_counted(rt.alloc(), &network, &mut effort);
        if outcome.is_err() {
            outcome = propose_counted(rt.alloc(), &network, &mut effort);
        }
        assert!(rt; matches!(&outcome, Ok(Some(Outcome::Met(_)))));
        assert!(rt; effort.pivots >= 7 && effort.sweeps > 7);
    }
}
