// What a query to each server pays beside an arc's cost.

ghost use Rattle.std.specs.Prelude.{◌≡◌, ◌≤◌, ◌<◌, ℕ, IfOk, length, slice_index, vec_len};
ghost use Rattle.hsp_check.specs.Lists.{HostsAreBelow};
ghost use Rattle.hsp_check.specs.Prices.{ArePrices, at_host};
ghost use Rattle.hsp_price_check.specs.Extras.{AreExtras, extra_at};

use std::alloc::{AllocError, Global};

// The price of a server's host, where it stands on one.
fn host_price(host: Option<u32>, host_prices: &[u64]) -> u64
    requires below { (h : ℕ) → host ≡ Some h → h < length host_prices.now }
    requires low { ArePrices host_prices.now }
    ensures price { result ≡ at_host host (λ h. slice_index host_prices.now h) }
    ensures low { result ≤ 1000000000000 }
{
    match host {
        Some(host) => host_prices[host as usize],
        None => 0,
    }
}

/// For each server its price and its host's together, in units of cost, at most 2 * 10^12.
///
/// # Errors
///
/// An `AllocError` where memory runs out.
pub fn prices_with_hosts(
    alloc: Global,
    server_hosts: &[Option<u32>],
    server_prices: &[u64],
    host_prices: &[u64],
) -> Result<Vec<u64>, AllocError>
    requires many { length server_prices.now ≡ length server_hosts.now }
    requires below { HostsAreBelow (length host_prices.now) server_hosts.now }
    requires low { ArePrices server_prices.now }
    requires low_hosts { ArePrices host_prices.now }
    ensures { IfOk result (λ extras.
        AreExtras server_hosts.now server_prices.now host_prices.now extras.items) }
{
    let mut extras = Vec::with_capacity(alloc, server_prices.len())?;
    for server in 0..server_prices.len() {
        extras.push(server_prices[server] + host_price(server_hosts[server], host_prices))?;
    }
    Ok(extras)
}
