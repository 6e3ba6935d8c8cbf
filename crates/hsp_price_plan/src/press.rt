// Prices that are pressed together. Where prices lie farther apart than any two costs do, they may lie nearer: over
// whichever arc a query pays least, it still does.

ghost use Rattle.std.specs.Prelude.{◌≡◌, ◌≤◌, ◌<◌, ◌+◌, ◌-◌, ◌^◌, ℕ, All, IfOk, Some, length, slice_index};
ghost use Rattle.std.specs.List.{Contains};
ghost use Rattle.std.specs.List.Sorted.{IsNonDecreasing};
ghost use Rattle.hsp_text.specs.declared.limits.TheConstants.{GREATEST_COST};
ghost use Rattle.hsp_check.specs.ArcFlows.{host_in};
ghost use Rattle.hsp_check.specs.Lists.{HostsAreBelow};
ghost use Rattle.hsp_check.specs.Prices.{at_host};
ghost use Rattle.hsp_network.specs.Answer.{BoundsCosts, IsMet};
ghost use Rattle.hsp_network.specs.Problem.{problem_of};
ghost use Rattle.hsp_price_check.specs.Extras.{extra_at};
ghost use Rattle.hsp_price_plan.specs.Pressing.{AreAllPressed, AreLowered, CanPress, IsPressed, IsPressedFlow};
ghost use Rattle.hsp_price_plan.specs.Pressing.{pressed_from};

use hsp_network::{Network, PricedFlow};
use hsp_text::limits::GREATEST_COST;
use std::alloc::{AllocError, Global};

// Two costs lie less far apart.
const LONGEST_STEP: u64 = GREATEST_COST + 1;

// What numbers that ascend are pressed to.
fn pressed_numbers(alloc: Global, numbers: &[u64]) -> Result<Vec<u64>, AllocError>
    requires { length numbers.now ≤ 2 ^ 18 }
    ensures { IfOk result (λ pressed. pressed.items ≡ pressed_from 0 0 numbers.now) }
{
    let mut pressed = Vec::with_capacity(alloc, numbers.len())?;
    let mut last: u64 = 0;
    let mut low: u64 = 0;
    for number in numbers {
        low += number.saturating_sub(last).min(LONGEST_STEP);
        last = *number;
        pressed.push(low)?;
    }
    Ok(pressed)
}

// Numbers that ascend, and what each is pressed to.
#[derive(Drop)]
struct PressTable {
    numbers: Vec<u64>,
    pressed: Vec<u64>,
    ghost ascend: { IsNonDecreasing numbers.items },
    ghost are: { pressed.items ≡ pressed_from 0 0 numbers.items },
    ghost few: { length numbers.items ≤ 2 ^ 18 },
}

impl PressTable {
    // The table of the numbers of two lists.
    fn new(alloc: Global, first: &[u64], second: &[u64]) -> Result<PressTable, AllocError>
        requires { length first.now + length second.now ≤ 2 ^ 18 }
        ensures first { IfOk result (λ table. All (Contains table.numbers.items) first.now) }
        ensures second { IfOk result (λ table. All (Contains table.numbers.items) second.now) }
    {
        let mut numbers = Vec::with_capacity(alloc, first.len() + second.len())?;
        numbers.extend_from_slice(first)?;
        numbers.extend_from_slice(second)?;
        numbers.sort_unstable();
        let pressed = pressed_numbers(alloc, &numbers)?;
        Ok(PressTable { numbers, pressed })
    }

    // What a number of the table is pressed to.
    fn at(&self, number: u64) -> u64
        requires { Contains self.now.numbers.items number }
        ensures { IsPressed self.now.numbers.items number result }
    {
        match self.numbers.binary_search(&number) {
            Ok(place) => self.pressed[place],
            Err(_) => number,
        }
    }

    // What each of some numbers is pressed to.
    fn each(&self, alloc: Global, numbers: &[u64]) -> Result<Vec<u64>, AllocError>
        requires { All (Contains self.now.numbers.items) numbers.now }
        ensures { IfOk result (λ pressed.
            AreAllPressed self.now.numbers.items numbers.now pressed.items) }
    {
        let mut pressed = Vec::with_capacity(alloc, numbers.len())?;
        for place in 0..numbers.len() {
            pressed.push(self.at(numbers[place]))?;
        }
        Ok(pressed)
    }
}

// The price of a server's host, where it stands on one.
fn host_price(host: Option<u32>, host_prices: &[u64]) -> u64
    requires { (h : ℕ) → host ≡ Some h → h < length host_prices.now }
    ensures { result ≡ at_host host (λ h. slice_index host_prices.now h) }
{
    match host {
        Some(host) => host_prices[host as usize],
        None => 0,
    }
}

// For each server its price and its host's together.
fn sums_of_prices(
    alloc: Global,
    hosts: &[Option<u32>],
    server_prices: &[u64],
    host_prices: &[u64],
) -> Result<Vec<u64>, AllocError>
    requires many { length server_prices.now ≡ length hosts.now }
    requires below { HostsAreBelow (length host_prices.now) hosts.now }
    requires low { (j : ℕ) → j < length server_prices.now
        → slice_index server_prices.now j < 2 ^ 63 }
    requires low_hosts { (h : ℕ) → h < length host_prices.now
        → slice_index host_prices.now h < 2 ^ 63 }
    ensures many { IfOk result (λ sums. length sums.items ≡ length server_prices.now) }
    ensures each { IfOk result (λ sums. (j : ℕ) → j < length server_prices.now
        → slice_index sums.items j ≡ extra_at hosts.now server_prices.now host_prices.now j) }
{
    let mut sums = Vec::with_capacity(alloc, server_prices.len())?;
    for server in 0..server_prices.len() {
        sums.push(server_prices[server] + host_price(hosts[server], host_prices))?;
    }
    Ok(sums)
}

// What each server's own price is, where its sum with the host's is given.
fn own_prices(
    alloc: Global,
    hosts: &[Option<u32>],
    sums: &[u64],
    host_prices: &[u64],
) -> Result<Vec<u64>, AllocError>
    requires many { length sums.now ≡ length hosts.now }
    requires below { HostsAreBelow (length host_prices.now) hosts.now }
    ensures many { IfOk result (λ own. length own.items ≡ length sums.now) }
    ensures each { IfOk result (λ own. (j : ℕ) → j < length sums.now → slice_index own.items j
        ≡ slice_index sums.now j - at_host (host_in hosts.now j)
        (λ h. slice_index host_prices.now h)) }
{
    let mut own = Vec::with_capacity(alloc, sums.len())?;
    for server in 0..sums.len() {
        own.push(sums[server].saturating_sub(host_price(hosts[server], host_prices)))?;
    }
    Ok(own)
}

// Lowers the price of each source to the least that a query pays over one of its arcs.
fn lower_sources(prices: &mut [u64], network: &Network<'_>, sums: &[u64])
    requires many { length prices.old ≡ length network.now.demands.now }
    requires sums { length sums.now ≡ length network.now.capacities.now }
    requires cheap { BoundsCosts (problem_of network.now) GREATEST_COST }
    requires low { (j : ℕ) → j < length sums.now → slice_index sums.now j < 2 ^ 63 }
    ensures { AreLowered (problem_of network.now) (length network.now.sources.now) sums.now
        prices.old prices.new }
{
    for arc in 0..network.sources.len() {
        let source = network.sources[arc] as usize;
        let pay = network.costs[arc] + sums[network.servers[arc] as usize];
        prices[source] = prices[source].min(pay);
    }
}

/// The same flow with prices that show the same, each of them at most 10^12.
///
/// # Errors
///
/// An `AllocError` where memory runs out.
pub fn press_prices(
    alloc: Global,
    network: &Network<'_>,
    flow: PricedFlow,
) -> Result<PricedFlow, AllocError>
    requires met { IsMet (problem_of network.now) flow }
    requires size { CanPress (problem_of network.now) }
    ensures { IfOk result (IsPressedFlow (problem_of network.now) flow) }
{
    let sums = sums_of_prices(alloc, network.hosts, &flow.server_prices, &flow.host_prices)?;
    let table = PressTable::new(alloc, &flow.host_prices, &sums)?;
    let host_prices = table.each(alloc, &flow.host_prices)?;
    let pressed_sums = table.each(alloc, &sums)?;
    let server_prices = own_prices(alloc, network.hosts, &pressed_sums, &host_prices)?;
    let mut source_prices = flow.source_prices;
    lower_sources(&mut source_prices, network, &pressed_sums);
    Ok(PricedFlow {
        flows: flow.flows,
        source_prices,
        server_prices,
        host_prices,
    })
}
