// The numbers of a service, as lists.

ghost use Rattle.std.specs.Prelude.{◌≡◌, ◌<◌, ◌≤◌, ◌^◌, IfOk, length};
ghost use Rattle.hsp_check.specs.Instance.{capacities_in, limits_in, server_hosts_in};
ghost use Rattle.hsp_check.specs.Lists.{HostsAreBelow};

use hsp_instance::{Instance, capacities_of, limits_of, server_hosts_of};
use std::alloc::{AllocError, Global};

/// What each server and each host can take, and the host that each server stands on.
#[derive(Drop)]
pub struct ServiceNumbers {
    /// How many queries each server takes.
    pub capacities: Vec<u64>,
    /// How many queries the servers of each host take together.
    pub limits: Vec<u64>,
    /// The number of the host of each server, or None where it stands on no listed host.
    pub server_hosts: Vec<Option<u32>>,
    ghost servers_many: { length capacities.items ≡ length server_hosts.items },
    ghost few_servers: { length server_hosts.items < 2 ^ 16 },
    ghost few_hosts: { length limits.items < 2 ^ 16 },
    ghost hosts_in: { HostsAreBelow (length limits.items) server_hosts.items },
}

/// The numbers of an instance's servers and hosts.
///
/// # Errors
///
/// An `AllocError` where memory runs out.
pub fn service_numbers(alloc: Global, instance: &Instance) -> Result<ServiceNumbers, AllocError>
    ensures capacities { IfOk result (λ numbers.
        numbers.capacities.items ≡ capacities_in instance.now) }
    ensures limits { IfOk result (λ numbers. numbers.limits.items ≡ limits_in instance.now) }
    ensures server_hosts { IfOk result (λ numbers.
        numbers.server_hosts.items ≡ server_hosts_in instance.now) }
{
    // The instance is within its limits.
    let _servers = instance.servers();
    let capacities = capacities_of(alloc, instance)?;
    let limits = limits_of(alloc, instance)?;
    let server_hosts = server_hosts_of(alloc, instance)?;
    Ok(ServiceNumbers {
        capacities,
        limits,
        server_hosts,
    })
}
