// Rows of a service that keep more of their arcs, where the arguments fit: there is a number for each server.

ghost use Rattle.std.specs.Prelude.{IsTrue};
ghost use Rattle.hsp_price_check.specs.LeastPay.{AreLow};
ghost use Rattle.hsp_price_plan.specs.Planning.{AreOfSome};

use crate::filling::Filled;
use std::process::Abort;

// Whether each number is low enough for what a query pays beside an arc's cost.
fn are_low(extras: &[u64]) -> bool
    ensures { IsTrue result → AreLow extras.now }
{
    for extra in extras {
        if *extra > 2_000_000_000_000 {
            return false;
        }
    }
    true
}

/// Keeps the arcs over which a query pays least, and returns how many weren't kept before.
pub(crate) fn keep_least(rt: &impl Abort, filled: &mut Filled, extras: &[u64]) -> u64
    requires { AreOfSome filled.old.numbers filled.old.rows.rows }
    ensures { AreOfSome filled.new.numbers filled.new.rows.rows }
{
    assert!(rt; extras.len() == filled.numbers.server_hosts.len());
    assert!(rt; are_low(extras));
    filled.rows.keep_least(extras)
}

/// Keeps the arcs over which a query pays at most so much more than the least.
pub(crate) fn keep_near(rt: &impl Abort, filled: &mut Filled, extras: &[u64], window: u64)
    requires { AreOfSome filled.old.numbers filled.old.rows.rows }
    ensures { AreOfSome filled.new.numbers filled.new.rows.rows }
{
    assert!(rt; extras.len() == filled.numbers.server_hosts.len());
    assert!(rt; are_low(extras));
    filled.rows.keep_near(extras, window);
}

/// Keeps the arcs that lead out of a set of servers, where none that is kept does, and returns how many weren't kept
/// before.
pub(crate) fn keep_leaving(rt: &impl Abort, filled: &mut Filled, set: &[bool]) -> u64
    requires { AreOfSome filled.old.numbers filled.old.rows.rows }
    ensures { AreOfSome filled.new.numbers filled.new.rows.rows }
{
    assert!(rt; set.len() == filled.numbers.server_hosts.len());
    filled.rows.keep_leaving(set)
}
