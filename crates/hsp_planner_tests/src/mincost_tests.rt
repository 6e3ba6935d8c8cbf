ghost use Rattle.std.specs.Prelude.{ℕ};
ghost use Rattle.hsp_network.specs.Layout.{IsSmall};
ghost use Rattle.hsp_network.specs.Problem.{problem_of};

use crate::same::is_same;
use hsp_network::{
    Frontier, HeapFrontier, Network, Outcome, ScanFrontier, SearchEffort, minimum_cost_flow,
};
use std::alloc::{AllocError, Global};
use std::process::Abort;

/// Four nodes, one of them lowered: what comes out of them until they are empty.
fn taken_by_key<F: Frontier>(alloc: Global) -> Result<[Option<(u32, u64)>; 3], AllocError>
    requires { (nodes : ℕ) → F.may_have nodes }
{
    let mut frontier = F::with_nodes(alloc, 4)?;
    frontier.put(3, 5)?;
    frontier.put(1, 2)?;
    frontier.lower(3, 1)?;
    Ok([
        frontier.take_least(),
        frontier.take_least(),
        frontier.take_least(),
    ])
}

/// Where a growth is refused, the second call finds memory, here and below.
fn takes_by_key<F: Frontier>(rt: &impl Abort, alloc: Global)
    requires { (nodes : ℕ) → F.may_have nodes }
{
    let taken = match taken_by_key::<F>(alloc) {
        Err(AllocError) => taken_by_key::<F>(alloc),
        taken => taken,
    };
    is_same(rt, taken, Ok([Some((3, 1)), Some((1, 2)), None]));
}

/// A key that is lowered, and one behind it: what comes out until none is held.
fn taken_once_lowered<F: Frontier>(alloc: Global) -> Result<[Option<(u32, u64)>; 4], AllocError>
    requires { (nodes : ℕ) → F.may_have nodes }
{
    let mut frontier = F::with_nodes(alloc, 1)?;
    frontier.put(0, 5)?;
    frontier.lower(0, 3)?;
    let lowered = frontier.take_least();
    let gone = frontier.take_least();
    frontier.put(0, 5)?;
    Ok([lowered, gone, frontier.take_least(), frontier.take_least()])
}

/// Whether a frontier of one node is empty, before it is cleared and then.
fn empty_once_cleared<F: Frontier>(alloc: Global) -> Result<[bool; 2], AllocError>
    requires { (nodes : ℕ) → F.may_have nodes }
{
    let mut frontier = F::with_nodes(alloc, 1)?;
    frontier.put(0, 7)?;
    let before = frontier.is_empty();
    frontier.clear();
    Ok([before, frontier.is_empty()])
}

/// A key that was lowered doesn't come out again, nor does one that was cleared.
fn forgets_old_keys<F: Frontier>(rt: &impl Abort, alloc: Global)
    requires { (nodes : ℕ) → F.may_have nodes }
{
    let lowered = match taken_once_lowered::<F>(alloc) {
        Err(AllocError) => taken_once_lowered::<F>(alloc),
        taken => taken,
    };
    is_same(rt, lowered, Ok([Some((0, 3)), None, Some((0, 5)), None]));
    let empty = match empty_once_cleared::<F>(alloc) {
        Err(AllocError) => empty_once_cleared::<F>(alloc),
        empty => empty,
    };
    is_same(rt, empty, Ok([false, true]));
}

#[test]
fn frontiers_take_the_least_key(rt: HostRuntime) {
    takes_by_key::<ScanFrontier>(&rt, rt.alloc());
    takes_by_key::<HeapFrontier>(&rt, rt.alloc());
    forgets_old_keys::<ScanFrontier>(&rt, rt.alloc());
    forgets_old_keys::<HeapFrontier>(&rt, rt.alloc());
}

/// What becomes of a network.
fn outcome_of<F: Frontier>(alloc: Global, network: &Network) -> Result<Outcome, AllocError>
    requires small { IsSmall (problem_of network.now) }
    requires nodes { (nodes : ℕ) → F.may_have nodes }
{
    match minimum_cost_flow::<F>(alloc, network, &mut SearchEffort::default()) {
        Err(AllocError) => minimum_cost_flow::<F>(alloc, network, &mut SearchEffort::default()),
        outcome => outcome,
    }
}

/// Every source is met, and the flows are these.
fn meets<F: Frontier>(rt: &impl Abort, alloc: Global, network: &Network, flows: &[u64])
    requires small { IsSmall (problem_of network.now) }
    requires nodes { (nodes : ℕ) → F.may_have nodes }
{
    match outcome_of::<F>(alloc, network) {
        Ok(Outcome::Met(plan)) => is_same(rt, plan.flows.as_slice(), flows),
        Ok(Outcome::Short(_)) => panic!(rt; "a shortage came"),
        Err(AllocError) => panic!(rt; "memory ran out"),
    }
}

/// These sources are short.
fn lacks<F: Frontier>(rt: &impl Abort, alloc: Global, network: &Network, short: &[bool])
    requires small { IsSmall (problem_of network.now) }
    requires nodes { (nodes : ℕ) → F.may_have nodes }
{
    match outcome_of::<F>(alloc, network) {
        Ok(Outcome::Short(reached)) => is_same(rt, reached.as_slice(), short),
        Ok(Outcome::Met(_)) => panic!(rt; "a plan came"),
        Err(AllocError) => panic!(rt; "memory ran out"),
    }
}

/// Both frontiers meet every source by these flows.
fn both_meet(rt: &impl Abort, alloc: Global, network: &Network, flows: &[u64])
    requires { IsSmall (problem_of network.now) }
{
    meets::<ScanFrontier>(rt, alloc, network, flows);
    meets::<HeapFrontier>(rt, alloc, network, flows);
}

/// Both frontiers find these sources short.
fn both_lack(rt: &impl Abort, alloc: Global, network: &Network, short: &[bool])
    requires { IsSmall (problem_of network.now) }
{
    lacks::<ScanFrontier>(rt, alloc, network, short);
    lacks::<HeapFrontier>(rt, alloc, network, short);
}

#[test]
fn host_is_full_before_its_servers(rt: HostRuntime) {
    let network = Network {
        demands: &[4, 3],
        capacities: &[9, 9, 9],
        limits: &[5],
        hosts: &[Some(0), Some(0), None],
        sources: &[0, 0, 1, 1],
        servers: &[0, 2, 1, 2],
        costs: &[1, 6, 1, 2],
    };
    both_meet(&rt, rt.alloc(), &network, &[4, 0, 1, 2]);
}

#[test]
fn shared_server_is_short(rt: HostRuntime) {
    let network = Network {
        demands: &[4, 3, 2],
        capacities: &[6, 2],
        limits: &[],
        hosts: &[None, None],
        sources: &[0, 1, 2],
        servers: &[0, 0, 1],
        costs: &[1, 1, 1],
    };
    both_lack(&rt, rt.alloc(), &network, &[true, true, false]);
}

/// Each source is met by one path, and so by one search.
#[test]
fn effort_is_added(rt: HostRuntime) {
    let network = Network {
        demands: &[5, 5],
        capacities: &[5, 5],
        limits: &[],
        hosts: &[None, None],
        sources: &[0, 0, 1],
        servers: &[0, 1, 0],
        costs: &[1, 3, 1],
    };
    let begun = SearchEffort {
        searches: 7,
        settled: 7,
        augmentations: 7,
    };
    let mut effort = begun;
    let mut outcome = minimum_cost_flow::<HeapFrontier>(rt.alloc(), &network, &mut effort);
    if outcome.is_err() {
        effort = begun;
        outcome = minimum_cost_flow::<HeapFrontier>(rt.alloc(), &network, &mut effort);
    }
    assert!(rt; outcome.is_ok());
    is_same(&rt, (effort.searches, effort.augmentations), (9, 9));
    assert!(rt; effort.settled > 7);
}
