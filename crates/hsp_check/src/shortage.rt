// What a set of rows asks for, and what it can reach.

ghost use Rattle.std.specs.Prelude.{◌≡◌, ℕ, ◌<◌, ◌≤◌, ◌^◌, false, length, All, IfOk, vec_len};
ghost use Rattle.hsp_check.specs.Short.{capacity_of};
ghost use Rattle.hsp_check.specs.ArcFlows.{flag_at};
ghost use Rattle.hsp_check.specs.Lists.{AreFlagsOf, AreRooms, AreSmall, AreZero, flagged_sum, free_sum, hosted_sum};
ghost use Rattle.hsp_check.specs.Reach.{network_in};
ghost use Rattle.hsp_check.specs.Reached.{AreReached, AreRoomsOf, arcs_reach};

use crate::lists::FlowLists;
use crate::sums::{ArcFlow, add_hosts};
use std::alloc::{AllocError, Global};

/// The sum of the numbers whose flags are set.
pub(crate) fn sum_flagged(numbers: &[u64], flags: &[bool]) -> u128
    requires many { length flags.now ≡ length numbers.now }
    requires few { length numbers.now < 2 ^ 16 }
    ensures { result ≡ flagged_sum numbers.now flags.now (length numbers.now) }
{
    let mut sum: u128 = 0;
    for place in 0..numbers.len() {
        if flags[place] {
            sum += u128::from(numbers[place]);
        }
    }
    sum
}

// Flags the servers that arcs of the flagged rows lead to. No server is flagged at first.
fn flag_each(reached: &mut [bool], arc_flows: &[ArcFlow], rows: &[bool])
    requires rows { All (λ l. l.arc.row < length rows.now) arc_flows.now }
    requires servers { All (λ l. l.arc.server < length reached.old) arc_flows.now }
    requires none { AreFlagsOf (λ _. false) (length reached.old) reached.old }
    ensures { AreFlagsOf (arcs_reach arc_flows.now (flag_at rows.now)) (length reached.old)
        reached.new }
{
    for place in 0..arc_flows.len() {
        let arc = arc_flows[place].arc;
        if rows[arc.row as usize] {
            reached[arc.server as usize] = true;
        }
    }
}

/// Writes the capacities of the flagged servers over zeros. The others stay 0.
pub fn set_rooms(rooms: &mut [u128], capacities: &[u64], reached: &[bool])
    requires rooms { length rooms.old ≡ length capacities.now }
    requires reached { length reached.now ≡ length capacities.now }
    requires zero { AreZero rooms.old }
    ensures rooms { AreRooms capacities.now (flag_at reached.now) rooms.new }
    ensures small { AreSmall (2 ^ 64) (length capacities.now) rooms.new }
{
    for server in 0..capacities.len() {
        if reached[server] {
            rooms[server] = u128::from(capacities[server]);
        }
    }
}

/// The rooms of the servers on no host, added up.
pub fn free_room(server_hosts: &[Option<u32>], rooms: &[u128]) -> u128
    requires many { length rooms.now ≡ length server_hosts.now }
    requires few { length server_hosts.now < 2 ^ 16 }
    requires small { AreSmall (2 ^ 64) (length rooms.now) rooms.now }
    ensures sum { result ≡ free_sum server_hosts.now rooms.now (length server_hosts.now) }
    ensures low { result ≤ 2 ^ 80 }
{
    let mut sum: u128 = 0;
    for server in 0..server_hosts.len() {
        if server_hosts[server].is_none() {
            sum += rooms[server];
        }
    }
    sum
}

/// For each host the smaller of its limit and its room, added up.
pub fn hosted_room(limits: &[u64], rooms: &[u128]) -> u128
    requires many { length rooms.now ≡ length limits.now }
    requires few { length limits.now < 2 ^ 16 }
    ensures sum { result ≡ hosted_sum limits.now rooms.now (length limits.now) }
    ensures low { result ≤ 2 ^ 80 }
{
    let mut sum: u128 = 0;
    for host in 0..limits.len() {
        sum += u128::from(limits[host]).min(rooms[host]);
    }
    sum
}

/// The servers that the flagged rows may use.
pub(crate) fn reached_by(
    alloc: Global,
    lists: FlowLists,
    rows: &[bool],
) -> Result<Vec<bool>, AllocError>
    requires { length rows.now ≡ length lists.demands.now }
    ensures len { IfOk result (λ reached. vec_len reached ≡ length lists.entry.capacities.now) }
    ensures reached { IfOk result (λ reached.
        AreReached lists.entry (flag_at rows.now) reached.items) }
{
    let mut reached = vec![in alloc; false; lists.server_hosts.len()]?;
    flag_each(&mut reached, lists.arc_flows, rows);
    Ok(reached)
}

// The capacities of those servers, 0 for the others.
fn rooms_of(alloc: Global, lists: FlowLists, rows: &[bool]) -> Result<Vec<u128>, AllocError>
    requires { length rows.now ≡ length lists.demands.now }
    ensures len { IfOk result (λ rooms. vec_len rooms ≡ length lists.entry.capacities.now) }
    ensures rooms { IfOk result (λ rooms. AreRoomsOf lists.entry (flag_at rows.now) rooms.items) }
    ensures small { IfOk result (λ rooms.
        AreSmall (2 ^ 64) (length lists.entry.capacities.now) rooms.items) }
{
    let reached = reached_by(alloc, lists, rows)?;
    let mut rooms = vec![in alloc; 0u128; lists.capacities.len()]?;
    set_rooms(&mut rooms, lists.capacities, reached.as_slice());
    Ok(rooms)
}

/// What all that the flagged rows can reach can take.
pub(crate) fn capacity_of_rows(
    alloc: Global,
    lists: FlowLists,
    rows: &[bool],
) -> Result<u128, AllocError>
    requires { length rows.now ≡ length lists.demands.now }
    ensures { IfOk result (λ sum. sum ≡ capacity_of (network_in lists.entry) (flag_at rows.now)) }
{
    let rooms = rooms_of(alloc, lists, rows)?;
    let hosted = add_hosts(
        alloc,
        lists.server_hosts,
        rooms.as_slice(),
        lists.limits.len(),
    )?;
    Ok(
        free_room(lists.server_hosts, rooms.as_slice())
            + hosted_room(lists.limits, hosted.as_slice()),
    )
}
