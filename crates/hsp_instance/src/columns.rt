// What rows ask for, what servers and hosts can take, and where servers stand, as lists.

ghost use Rattle.std.specs.Prelude.{◌≡◌, ◌≤◌, IfOk, length, map};
ghost use Rattle.hsp_text.specs.declared.limits.TheConstants.{MOST_DEMAND_ROWS, MOST_HOSTS, MOST_SERVERS};

use crate::instance::Instance;
use std::alloc::{AllocError, Global};

/// The count of each row.
///
/// # Errors
///
/// An `AllocError` where memory runs out.
pub fn counts_of(alloc: Global, instance: &Instance) -> Result<Vec<u64>, AllocError>
    ensures counts { IfOk result (λ counts. counts.items ≡ map (λ r. r.count) instance.now.rows) }
    ensures few { IfOk result (λ counts. length counts.items ≤ MOST_DEMAND_ROWS) }
{
    let mut counts = Vec::new(alloc);
    for row in 0..instance.rows() {
        let (_, _, count) = instance.row(row);
        counts.push(count)?;
    }
    Ok(counts)
}

/// The capacity of each server.
///
/// # Errors
///
/// An `AllocError` where memory runs out.
pub fn capacities_of(alloc: Global, instance: &Instance) -> Result<Vec<u64>, AllocError>
    ensures capacities { IfOk result
        (λ capacities. capacities.items ≡ map (λ s. s.capacity) instance.now.servers) }
    ensures few { IfOk result (λ capacities. length capacities.items ≤ MOST_SERVERS) }
{
    let mut capacities = Vec::new(alloc);
    for server in 0..instance.servers() {
        let (_, _, _, capacity) = instance.server(server);
        capacities.push(capacity)?;
    }
    Ok(capacities)
}

/// The host of each server, or None where it stands on no listed host.
///
/// # Errors
///
/// An `AllocError` where memory runs out.
pub fn server_hosts_of(alloc: Global, instance: &Instance) -> Result<Vec<Option<u32>>, AllocError>
    ensures hosts { IfOk result (λ hosts. hosts.items ≡ map (λ s. s.host) instance.now.servers) }
    ensures few { IfOk result (λ hosts. length hosts.items ≤ MOST_SERVERS) }
{
    let mut hosts = Vec::new(alloc);
    for server in 0..instance.servers() {
        hosts.push(instance.host_of(server))?;
    }
    Ok(hosts)
}

/// The limit of each host.
///
/// # Errors
///
/// An `AllocError` where memory runs out.
pub fn limits_of(alloc: Global, instance: &Instance) -> Result<Vec<u64>, AllocError>
    ensures limits { IfOk result (λ limits. limits.items ≡ map (λ h. h.limit) instance.now.hosts) }
    ensures few { IfOk result (λ limits. length limits.items ≤ MOST_HOSTS) }
{
    let mut limits = Vec::new(alloc);
    for host in 0..instance.hosts() {
        let (_, limit) = instance.host(host);
        limits.push(limit)?;
    }
    Ok(limits)
}
