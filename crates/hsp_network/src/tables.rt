// The lists of the arcs: hosts, servers and the sink are nodes behind those of the sources.

ghost use Rattle.std.specs.Prelude.{◌≡◌, ℕ, ◌+◌, ◌-◌, ◌<◌, ◌≤◌, [], IfOk, None, OnOk, length, replicate, slice_index};
ghost use Rattle.std.specs.Prelude.{slice_index_or};
ghost use Rattle.hsp_network.specs.Layout.{Appends, CapacitiesOf, CostsOf, HeadsOf, IsSmall, SuppliesOf};
ghost use Rattle.hsp_network.specs.Layout.{TailsOf, host_node};
ghost use Rattle.hsp_network.specs.Problem.{problem_of};

use crate::network::Network;
use std::alloc::{AllocError, Global};

/// Appends each number, raised by `shift`.
pub fn push_shifted(target: &mut Vec<u32>, numbers: &[u32], shift: u32) -> Result<(), AllocError>
    requires fits { (k : ℕ) → k < length numbers.now → shift + slice_index numbers.now k
        < 4294967296 }
    ensures { OnOk result (Appends target.old.items target.new.items (length numbers.now)
        (λ k. shift + slice_index numbers.now k)) }
{
    for number in numbers {
        target.push(shift + *number)?;
    }
    Ok(())
}

/// Appends, for each server, the node of its host, or the sink where it stands on no host.
pub fn push_hosts(target: &mut Vec<u32>, hosts: &[Option<u32>]) -> Result<(), AllocError>
    requires fits { (j : ℕ) → host_node (slice_index_or hosts.now j None) < 4294967296 }
    ensures { OnOk result (Appends target.old.items target.new.items (length hosts.now)
        (λ j. host_node (slice_index_or hosts.now j None))) }
{
    for host in hosts {
        target.push(match *host {
            Some(host) => host + 1,
            None => 0,
        })?;
    }
    Ok(())
}

/// The numbers from 1 up to `end`.
pub fn numbers_from_one(alloc: Global, end: u32) -> Result<Vec<u32>, AllocError>
    requires { 0 < end }
    ensures { IfOk result (λ numbers. Appends [] numbers.items (end - 1) (λ k. 1 + k)) }
{
    let mut numbers = Vec::new(alloc);
    for number in 1..end {
        numbers.push(number)?;
    }
    Ok(numbers)
}

/// The tail of each arc.
pub fn arc_tails(alloc: Global, network: &Network) -> Result<Vec<u32>, AllocError>
    requires small { IsSmall (problem_of network.now) }
    ensures { IfOk result (λ tails. TailsOf (problem_of network.now) tails.items) }
{
    let first = (1 + network.limits.len() + network.capacities.len()) as u32;
    let mut tails = numbers_from_one(alloc, first)?;
    push_shifted(&mut tails, network.sources, first)?;
    Ok(tails)
}

/// The head of each arc.
pub fn arc_heads(alloc: Global, network: &Network) -> Result<Vec<u32>, AllocError>
    requires small { IsSmall (problem_of network.now) }
    ensures { IfOk result (λ heads. HeadsOf (problem_of network.now) heads.items) }
{
    let hosts = network.limits.len();
    let mut heads = vec![in alloc; 0; hosts]?;
    push_hosts(&mut heads, network.hosts)?;
    push_shifted(&mut heads, network.servers, (1 + hosts) as u32)?;
    Ok(heads)
}

/// The cost of each arc.
pub fn arc_costs(alloc: Global, network: &Network) -> Result<Vec<u64>, AllocError>
    requires small { IsSmall (problem_of network.now) }
    ensures { IfOk result (λ costs. CostsOf (problem_of network.now) costs.items) }
{
    let mut costs = vec![in alloc; 0; network.limits.len() + network.capacities.len()]?;
    costs.extend_from_slice(network.costs)?;
    Ok(costs)
}

/// The capacities of `many` arcs that nothing bounds.
pub fn unbounded(alloc: Global, many: usize) -> Result<Vec<u64>, AllocError>
    ensures { IfOk result (λ residual_capacity. residual_capacity.items ≡ replicate many u64.MAX) }
{
    vec![in alloc; u64::MAX; many]
}

/// The capacity of each arc. What arcs can take isn't bounded.
pub fn arc_capacities(alloc: Global, network: &Network) -> Result<Vec<u64>, AllocError>
    ensures { IfOk result (λ capacities. CapacitiesOf (problem_of network.now) capacities.items) }
{
    let mut capacities = network.limits.to_vec(alloc)?;
    capacities.extend_from_slice(network.capacities)?;
    let residual_capacity = unbounded(alloc, network.sources.len())?;
    capacities.extend_from_slice(&residual_capacity)?;
    Ok(capacities)
}

/// What each node sends out.
pub fn node_supplies(alloc: Global, network: &Network) -> Result<Vec<u64>, AllocError>
    requires small { IsSmall (problem_of network.now) }
    ensures { IfOk result (λ supplies. SuppliesOf (problem_of network.now) supplies.items) }
{
    let mut supplies = vec![in alloc; 0; 1 + network.limits.len() + network.capacities.len()]?;
    supplies.extend_from_slice(network.demands)?;
    Ok(supplies)
}
