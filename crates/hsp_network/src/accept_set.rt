// The test of a short set: what it demands against what the servers that it may use can take.

ghost use Rattle.std.specs.Prelude.{◌≡◌, ℕ, ◌<◌, ◌≤◌, ◌*◌, ◌^◌, ◌↔◌, false, IfOk, IsTrue, length, vec_len};
ghost use Rattle.hsp_network.specs.Answer.{IsShortSet};
ghost use Rattle.hsp_network.specs.Lists.{HostsAreBelow};
ghost use Rattle.hsp_network.specs.Network.{numbered};
ghost use Rattle.hsp_transport.specs.Cut.{capacity_of};
ghost use Rattle.hsp_network.specs.Problem.{problem_of};
ghost use Rattle.hsp_network.specs.Reached.{AreReached, AreRooms, flag_at, flagged_sum, free_sum, hosted_sum};
ghost use Rattle.hsp_network.specs.Sums.{AreHosted, AreZero};

use crate::network::Network;
use std::alloc::{AllocError, Global};

/// The sum of the numbers whose flags are set.
pub fn sum_flagged(numbers: &[u64], flags: &[bool]) -> u128
    requires many { length flags.now ≡ length numbers.now }
    ensures { result ≡ flagged_sum numbers.now flags.now (length numbers.now) }
{
    let mut sum: u128 = 0;
    for place in 0..numbers.len() {
        if flags[place] {
            sum += u128::from(numbers[place]);
        }
    }
    sum
}

// Flags the servers that the set may use. None is flagged at first.
fn flag_reached(network: &Network<'_>, set: &[bool], reached: &mut [bool])
    requires set { length set.now ≡ length network.now.demands.now }
    requires reached { length reached.old ≡ length network.now.capacities.now }
    requires none { (j : ℕ) → j < length reached.old → flag_at reached.old j ≡ false }
    ensures { AreReached (problem_of network.now) set.now reached.new }
{
    for arc in 0..network.sources.len() {
        if set[network.sources[arc] as usize] {
            reached[network.servers[arc] as usize] = true;
        }
    }
}

// Sets the capacities of the reached servers. All are 0 at first.
fn set_rooms(rooms: &mut [u64], capacities: &[u64], reached: &[bool])
    requires rooms { length rooms.old ≡ length capacities.now }
    requires reached { length reached.now ≡ length capacities.now }
    requires zero { AreZero rooms.old }
    ensures { AreRooms capacities.now (flag_at reached.now) rooms.new }
{
    for server in 0..capacities.len() {
        if reached[server] {
            rooms[server] = capacities[server];
        }
    }
}

// The rooms of the servers on no host, added up.
fn free_room(hosts: &[Option<u32>], rooms: &[u64]) -> u128
    requires many { length rooms.now ≡ length hosts.now }
    ensures sum { result ≡ free_sum hosts.now rooms.now (length hosts.now) }
    ensures low { result ≤ length hosts.now * 2 ^ 64 }
{
    let mut sum: u128 = 0;
    for server in 0..hosts.len() {
        if hosts[server].is_none() {
            sum += u128::from(rooms[server]);
        }
    }
    sum
}

// Adds the rooms of servers to those of their hosts, which are 0.
fn add_rooms(sums: &mut [u128], hosts: &[Option<u32>], rooms: &[u64])
    requires many { length rooms.now ≡ length hosts.now }
    requires hosts { HostsAreBelow (length sums.old) hosts.now }
    requires zero { AreZero sums.old }
    ensures { AreHosted hosts.now rooms.now sums.new }
{
    for server in 0..hosts.len() {
        if let Some(host) = hosts[server] {
            sums[host as usize] += u128::from(rooms[server]);
        }
    }
}

// For each host the smaller of its limit and its room, added up.
fn hosted_room(limits: &[u64], rooms: &[u128]) -> u128
    requires many { length rooms.now ≡ length limits.now }
    ensures sum { result ≡ hosted_sum limits.now rooms.now (length limits.now) }
    ensures low { result ≤ length limits.now * 2 ^ 64 }
{
    let mut sum: u128 = 0;
    for host in 0..limits.len() {
        sum += u128::from(limits[host]).min(rooms[host]);
    }
    sum
}

// The servers that the set may use.
fn reached_by(alloc: Global, network: &Network<'_>, set: &[bool]) -> Result<Vec<bool>, AllocError>
    requires set { length set.now ≡ length network.now.demands.now }
    ensures len { IfOk result (λ reached. vec_len reached ≡ length network.now.capacities.now) }
    ensures reached { IfOk result
        (λ reached. AreReached (problem_of network.now) set.now reached.items) }
{
    let mut reached = vec![in alloc; false; network.capacities.len()]?;
    flag_reached(network, set, &mut reached);
    Ok(reached)
}

// The capacities of the reached servers, 0 for the others.
fn rooms_of(alloc: Global, capacities: &[u64], reached: &[bool]) -> Result<Vec<u64>, AllocError>
    requires many { length reached.now ≡ length capacities.now }
    ensures len { IfOk result (λ rooms. vec_len rooms ≡ length capacities.now) }
    ensures rooms { IfOk result (λ rooms.
        AreRooms capacities.now (flag_at reached.now) rooms.items) }
{
    let mut rooms = vec![in alloc; 0; capacities.len()]?;
    set_rooms(&mut rooms, capacities, reached);
    Ok(rooms)
}

// The rooms of servers, added up for each host below the count.
fn host_rooms(
    alloc: Global,
    hosts: &[Option<u32>],
    rooms: &[u64],
    count: usize,
) -> Result<Vec<u128>, AllocError>
    requires many { length rooms.now ≡ length hosts.now }
    requires hosts { HostsAreBelow count hosts.now }
    ensures len { IfOk result (λ sums. vec_len sums ≡ count) }
    ensures sums { IfOk result (λ sums. AreHosted hosts.now rooms.now sums.items) }
{
    let mut sums = vec![in alloc; 0u128; count]?;
    add_rooms(&mut sums, hosts, rooms);
    Ok(sums)
}

/// What the servers that the set may use can take: `set` has a flag for each source.
///
/// # Errors
///
/// An `AllocError` where memory runs out.
pub fn capacity_of_set(
    alloc: Global,
    network: &Network<'_>,
    set: &[bool],
) -> Result<u128, AllocError>
    requires set { length set.now ≡ length network.now.demands.now }
    ensures { IfOk result
        (λ capacity. capacity ≡ capacity_of (numbered (problem_of network.now)) (flag_at set.now)) }
{
    let reached = reached_by(alloc, network, set)?;
    let rooms = rooms_of(alloc, network.capacities, &reached)?;
    let hosted = host_rooms(alloc, network.hosts, &rooms, network.limits.len())?;
    Ok(free_room(network.hosts, &rooms) + hosted_room(network.limits, &hosted))
}

/// Whether the set demands more than the servers that it may use can take.
pub(crate) fn is_short(
    alloc: Global,
    network: &Network<'_>,
    set: &[bool],
) -> Result<bool, AllocError>
    ensures { IfOk result (λ yes. IsTrue yes ↔ IsShortSet (problem_of network.now) set.now) }
{
    if set.len() != network.demands.len() {
        return Ok(false);
    }
    let capacity = capacity_of_set(alloc, network, set)?;
    Ok(capacity < sum_flagged(network.demands, set))
}
