// What a set of servers takes.

ghost use Rattle.std.specs.Prelude.{◌≡◌, ◌^◌, IfOk, length, List, vec_len, ℕ};
ghost use Rattle.hsp_check.specs.ArcFlows.{flag_at};
ghost use Rattle.hsp_check.specs.Lists.{AreFlagsOf, AreRooms, AreSmall};
ghost use Rattle.hsp_check.specs.Verdict.{is_one_of};
ghost use Rattle.hsp_price_check.specs.SetPass.{capacity_by};

use crate::numbers::ServiceNumbers;
use hsp_check::{add_hosts, free_room, hosted_room, set_rooms};
use std::alloc::{AllocError, Global};

// The capacities of the flagged servers, 0 for the others.
fn rooms_of(alloc: Global, capacities: &[u64], flags: &[bool]) -> Result<Vec<u128>, AllocError>
    requires { length flags.now ≡ length capacities.now }
    ensures len { IfOk result (λ rooms. vec_len rooms ≡ length capacities.now) }
    ensures rooms { IfOk result (λ rooms.
        AreRooms capacities.now (flag_at flags.now) rooms.items) }
    ensures small { IfOk result (λ rooms.
        AreSmall (2 ^ 64) (length capacities.now) rooms.items) }
{
    let mut rooms = vec![in alloc; 0u128; capacities.len()]?;
    set_rooms(&mut rooms, capacities, flags);
    Ok(rooms)
}

/// What the flagged servers take, those of a host no more than its limit.
///
/// # Errors
///
/// An `AllocError` where memory runs out.
pub fn capacity_of_set(
    alloc: Global,
    numbers: &ServiceNumbers,
    flags: &[bool],
) -> Result<u128, AllocError>
    requires { length flags.now ≡ length numbers.now.capacities.items }
    ensures { IfOk result (λ sum. (servers : List ℕ)
        → AreFlagsOf (is_one_of servers) (length numbers.now.capacities.items) flags.now
        → sum ≡ capacity_by numbers.now servers) }
{
    let rooms = rooms_of(alloc, &numbers.capacities, flags)?;
    let hosted = add_hosts(alloc, &numbers.server_hosts, &rooms, numbers.limits.len())?;
    Ok(free_room(&numbers.server_hosts, &rooms) + hosted_room(&numbers.limits, &hosted))
}
