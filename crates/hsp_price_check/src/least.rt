// The arcs over which a query pays least.

ghost use Rattle.std.specs.Prelude.{◌≡◌, ◌≤◌, ◌<◌, ◌⊎◌, [], true, OnOk, length, map, nat_le};
ghost use Rattle.std.specs.List.{AllByRecursion, list_any};
ghost use Rattle.hsp_instance.specs.RowArcs.{IsWithin};
ghost use Rattle.hsp_prices.specs.Least.{least_arcs, servers_of};
ghost use Rattle.hsp_price_check.specs.Extras.{pay_by};
ghost use Rattle.hsp_price_check.specs.LeastPay.{AreLow, IsLeastPay};

use hsp_instance::Arc;
use std::alloc::AllocError;

// What a query pays over an arc.
fn pay_over(arc: Arc, extras: &[u64]) -> u64
    requires within { IsWithin (length extras.now) arc }
    requires low { AreLow extras.now }
    ensures { result ≡ pay_by extras.now arc }
{
    arc.cost + extras[arc.server as usize]
}

// The least that a query pays over one of the arcs.
fn least_pay(arcs: &[Arc], extras: &[u64]) -> u64
    requires within { AllByRecursion (IsWithin (length extras.now)) arcs.now }
    requires low { AreLow extras.now }
    ensures { IsLeastPay extras.now arcs.now result }
{
    let mut least = u64::MAX;
    for arc in arcs {
        least = least.min(pay_over(*arc, extras));
    }
    least
}

/// Writes the arcs over which a query pays least over what the list had, in their order. Each server has a number in
/// `extras`: what a query pays there beside the cost of its arc.
///
/// # Errors
///
/// An `AllocError` where memory runs out. Nothing is said of the list then.
pub fn fill_least(least: &mut Vec<Arc>, arcs: &[Arc], extras: &[u64]) -> Result<(), AllocError>
    requires within { AllByRecursion (IsWithin (length extras.now)) arcs.now }
    requires low { AreLow extras.now }
    ensures { OnOk result (least.new.items ≡ least_arcs (pay_by extras.now) arcs.now) }
{
    least.clear();
    let pay = least_pay(arcs, extras);
    for arc in arcs {
        if pay_over(*arc, extras) == pay {
            least.push(*arc)?;
        }
    }
    Ok(())
}

/// Writes the servers of arcs over what the list had, in their order.
///
/// # Errors
///
/// An `AllocError` where memory runs out. Nothing is said of the list then.
pub fn fill_servers(servers: &mut Vec<u32>, arcs: &[Arc]) -> Result<(), AllocError>
    ensures { OnOk result (servers.new.items ≡ servers_of arcs.now) }
{
    servers.clear();
    for arc in arcs {
        servers.push(arc.server)?;
    }
    Ok(())
}
