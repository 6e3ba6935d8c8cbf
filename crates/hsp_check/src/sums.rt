// The sums of a plan over its arcs, its servers and its hosts.

ghost use Rattle.std.specs.Prelude.{◌≡◌, ℕ, ◌+◌, ◌*◌, ◌<◌, ◌≤◌, ◌==◌, ◌^◌, length, slice_index, slice_get, sum_by};
ghost use Rattle.std.specs.Prelude.{option_and_then, All, IfOk, Some, vec_len, if◌then◌else◌};
ghost use Rattle.hsp_text.specs.declared.limits.TheConstants.{GREATEST_COST};
ghost use Rattle.hsp_transport.specs.Sums.{sum_below, times};
ghost use Rattle.hsp_check.specs.ArcFlows.{end_of};
ghost use Rattle.hsp_check.specs.Lists.{AreEndSums, AreHosted, AreSmall, AreZero, HostsAreBelow};
ghost use Rattle.hsp_check.specs.Prices.{ArePrices};

use crate::arc::NetworkArc;
use std::alloc::{AllocError, Global};

/// An arc with what a plan gives it, in queries.
#[derive(Clone, Copy)]
pub struct ArcFlow {
    pub arc: NetworkArc,
    pub flow: u64,
}

/// The row of an arc, or its server.
#[derive(Clone, Copy)]
pub(crate) enum End {
    Row,
    Server,
}

// The row of an arc, or its server.
fn end_of(end: End, arc: NetworkArc) -> u32
    ensures { result ≡ end_of end arc }
{
    match end {
        End::Row => arc.row,
        End::Server => arc.server,
    }
}

// The flow of an arc, wide enough to be added.
fn flow_of(one: ArcFlow) -> u128
    ensures flow { result ≡ one.flow }
    ensures fits { result < 2 ^ 64 }
{
    u128::from(one.flow)
}

// What the flow of the arc costs.
fn cost_of(one: ArcFlow) -> u128
    requires { one.arc.cost ≤ GREATEST_COST }
    ensures cost { result ≡ one.arc.cost * one.flow }
    ensures fits { result ≤ 2 ^ 84 }
{
    u128::from(one.arc.cost) * u128::from(one.flow)
}

// Adds what goes through each row, or each server, to sums that are 0.
fn add_each(sums: &mut [u128], end: End, arc_flows: &[ArcFlow])
    requires few { length arc_flows.now < 2 ^ 32 }
    requires ends { All (λ l. end_of end l.arc < length sums.old) arc_flows.now }
    requires zero { AreZero sums.old }
    ensures sums { AreEndSums end arc_flows.now (length sums.old) sums.new }
    ensures small { AreSmall (2 ^ 100) (length sums.old) sums.new }
{
    for place in 0..arc_flows.len() {
        let one = arc_flows[place];
        let end = end_of(end, one.arc) as usize;
        sums[end] += flow_of(one);
    }
}

/// What goes through each row, or each server, below `count`.
pub(crate) fn add_up(
    alloc: Global,
    end: End,
    arc_flows: &[ArcFlow],
    count: usize,
) -> Result<Vec<u128>, AllocError>
    requires few { length arc_flows.now < 2 ^ 32 }
    requires ends { All (λ l. end_of end l.arc < count) arc_flows.now }
    ensures len { IfOk result (λ sums. vec_len sums ≡ count) }
    ensures sums { IfOk result (λ sums. AreEndSums end arc_flows.now count sums.items) }
    ensures small { IfOk result (λ sums. AreSmall (2 ^ 100) count sums.items) }
{
    let mut sums = vec![in alloc; 0u128; count]?;
    add_each(&mut sums, end, arc_flows);
    Ok(sums)
}

// Adds numbers of servers to the sums of their hosts, which are 0.
fn add_each_host(sums: &mut [u128], server_hosts: &[Option<u32>], numbers: &[u128])
    requires many { length numbers.now ≡ length server_hosts.now }
    requires few { length server_hosts.now < 2 ^ 16 }
    requires small { AreSmall (2 ^ 100) (length numbers.now) numbers.now }
    requires server_hosts { HostsAreBelow (length sums.old) server_hosts.now }
    requires zero { AreZero sums.old }
    ensures { AreHosted server_hosts.now numbers.now sums.new }
{
    for server in 0..server_hosts.len() {
        if let Some(host) = server_hosts[server] {
            sums[host as usize] += numbers[server];
        }
    }
}

/// Numbers of servers, added up for each host below `count`.
///
/// # Errors
///
/// An `AllocError` where memory runs out.
pub fn add_hosts(
    alloc: Global,
    server_hosts: &[Option<u32>],
    numbers: &[u128],
    count: usize,
) -> Result<Vec<u128>, AllocError>
    requires many { length numbers.now ≡ length server_hosts.now }
    requires few { length server_hosts.now < 2 ^ 16 }
    requires small { AreSmall (2 ^ 100) (length numbers.now) numbers.now }
    requires server_hosts { HostsAreBelow count server_hosts.now }
    ensures len { IfOk result (λ sums. vec_len sums ≡ count) }
    ensures sums { IfOk result (λ sums. AreHosted server_hosts.now numbers.now sums.items) }
{
    let mut sums = vec![in alloc; 0u128; count]?;
    add_each_host(&mut sums, server_hosts, numbers);
    Ok(sums)
}

/// What the plan costs.
pub(crate) fn total_of(arc_flows: &[ArcFlow]) -> u128
    requires few { length arc_flows.now < 2 ^ 32 }
    requires cheap { All (λ l. l.arc.cost ≤ GREATEST_COST) arc_flows.now }
    ensures { result ≡ sum_by (λ l. l.arc.cost * l.flow) arc_flows.now }
{
    let mut sum: u128 = 0;
    for place in 0..arc_flows.len() {
        sum += cost_of(arc_flows[place]);
    }
    sum
}

// The number at its price.
fn priced(number: u64, price: u64) -> u128
    requires { price ≤ 1000000000000 }
    ensures worth { result ≡ number * price }
    ensures fits { result ≤ 2 ^ 104 }
{
    u128::from(number) * u128::from(price)
}

/// Numbers at their prices, added up.
pub fn worth_of(numbers: &[u64], prices: &[u64]) -> u128
    requires many { length prices.now ≡ length numbers.now }
    requires few { length numbers.now < 2 ^ 16 }
    requires low { ArePrices prices.now }
    ensures worth { result ≡ times numbers.now prices.now }
    ensures fits { result ≤ 2 ^ 120 }
{
    let mut sum: u128 = 0;
    for place in 0..numbers.len() {
        sum += priced(numbers[place], prices[place]);
    }
    sum
}
