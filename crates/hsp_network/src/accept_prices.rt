// The prices of a plan, against the arcs.

ghost use Rattle.std.specs.Prelude.{◌≡◌, ℕ, ◌<◌, IfOk, IfSome, IsTrue, length, slice_index, vec_len};
ghost use Rattle.hsp_network.specs.Lists.{AreIdle, ArePaid, AreWithin, HostsAreBelow};
ghost use Rattle.hsp_network.specs.Sums.{AreCarried, AreZero};

use crate::sums::add;
use std::alloc::{AllocError, Global};

/// What each source sends, and what each server takes.
#[derive(Drop)]
pub(crate) struct ArcSums {
    pub(crate) sent: Vec<u64>,
    pub(crate) loads: Vec<u64>,
}

/// Arcs with what flows on each, the prices of their sources, and what a unit at each server costs beside the arc.
#[derive(Clone, Copy)]
pub(crate) struct PricedArcs<'a> {
    pub(crate) sources: &'a [u32],
    pub(crate) servers: &'a [u32],
    pub(crate) costs: &'a [u64],
    pub(crate) flows: &'a [u64],
    pub(crate) source_prices: &'a [u64],
    pub(crate) paid: &'a [u64],
    ghost servers_many: { length servers.now ≡ length sources.now },
    ghost costs_many: { length costs.now ≡ length sources.now },
    ghost flows_many: { length flows.now ≡ length sources.now },
    ghost sources_in: { (k : ℕ) → k < length sources.now
        → slice_index sources.now k < length source_prices.now },
    ghost servers_in: { (k : ℕ) → k < length sources.now
        → slice_index servers.now k < length paid.now },
}

impl<'a> PricedArcs<'a> {
    ghost use Rattle.hsp_network.specs.Priced.{AreArcSums, ArePriced, IsPriced};

    // Whether the arc's source pays no more than a unit on the arc costs, and exactly that where something flows.
    fn is_priced(self, arc: usize) -> bool
        requires { arc < length self.sources.now }
        ensures { IsTrue result → IsPriced self.entry arc }
    {
        let price = self.source_prices[self.sources[arc] as usize];
        match self.costs[arc].checked_add(self.paid[self.servers[arc] as usize]) {
            Some(whole) => price == whole || price < whole && self.flows[arc] == 0,
            None => false,
        }
    }

    // Whether each arc is rightly priced. If so, adds what flows on it to the sums of its source and of its server,
    // which are 0 at first. Refuses sums that wrap.
    fn add_up(self, sent: &mut [u64], loads: &mut [u64]) -> bool
        requires sources { length sent.old ≡ length self.source_prices.now }
        requires servers { length loads.old ≡ length self.paid.now }
        requires unsent { AreZero sent.old }
        requires unloaded { AreZero loads.old }
        ensures priced { IsTrue result → ArePriced self.entry }
        ensures sent { IsTrue result
            → AreCarried self.entry.sources.now self.entry.flows.now sent.new }
        ensures loads { IsTrue result
            → AreCarried self.entry.servers.now self.entry.flows.now loads.new }
    {
        for arc in 0..self.sources.len() {
            if !self.is_priced(arc) {
                return false;
            }
            let flow = self.flows[arc];
            if !add(sent, self.sources[arc] as usize, flow) {
                return false;
            }
            if !add(loads, self.servers[arc] as usize, flow) {
                return false;
            }
        }
        true
    }

    /// What flows on the arcs, added up by source and by server, or None where an arc is not rightly priced or a sum
    /// wraps.
    pub(crate) fn sums(self, alloc: Global) -> Result<Option<ArcSums>, AllocError>
        ensures priced { IfOk result (λ made. IfSome made (λ _. ArePriced self.entry)) }
        ensures sums { IfOk result (λ made. IfSome made (AreArcSums self.entry)) }
    {
        let mut sent = vec![in alloc; 0; self.source_prices.len()]?;
        let mut loads = vec![in alloc; 0; self.paid.len()]?;
        if self.add_up(&mut sent, &mut loads) {
            Ok(Some(ArcSums { sent, loads }))
        } else {
            Ok(None)
        }
    }
}

// Sets what a unit at each server costs beside the arc: its price and that of its host. Refuses sums that wrap.
fn fill_paid(
    paid: &mut [u64],
    hosts: &[Option<u32>],
    server_prices: &[u64],
    host_prices: &[u64],
) -> bool
    requires paid { length paid.old ≡ length hosts.now }
    requires servers { length server_prices.now ≡ length hosts.now }
    requires hosts { HostsAreBelow (length host_prices.now) hosts.now }
    ensures { IsTrue result → ArePaid hosts.now server_prices.now host_prices.now paid.new }
{
    for server in 0..hosts.len() {
        let host_price = match hosts[server] {
            Some(host) => host_prices[host as usize],
            None => 0,
        };
        match server_prices[server].checked_add(host_price) {
            Some(price) => paid[server] = price,
            None => return false,
        }
    }
    true
}

/// What a unit at each server costs beside the arc, its price and that of its host, or None where a sum wraps.
pub(crate) fn paid_at(
    alloc: Global,
    hosts: &[Option<u32>],
    server_prices: &[u64],
    host_prices: &[u64],
) -> Result<Option<Vec<u64>>, AllocError>
    requires servers { length server_prices.now ≡ length hosts.now }
    requires hosts { HostsAreBelow (length host_prices.now) hosts.now }
    ensures len { IfOk result (λ made. IfSome made (λ paid. vec_len paid ≡ length hosts.now)) }
    ensures paid { IfOk result (λ made.
        IfSome made (λ paid. ArePaid hosts.now server_prices.now host_prices.now paid.items)) }
{
    let mut paid = vec![in alloc; 0; hosts.len()]?;
    if fill_paid(&mut paid, hosts, server_prices, host_prices) {
        Ok(Some(paid))
    } else {
        Ok(None)
    }
}

/// Whether each load is within its bound, and the price is 0 where the load is below it.
pub(crate) fn are_loaded(bounds: &[u64], loads: &[u64], prices: &[u64]) -> bool
    requires loads { length loads.now ≡ length bounds.now }
    requires prices { length prices.now ≡ length bounds.now }
    ensures within { IsTrue result → AreWithin bounds.now loads.now }
    ensures idle { IsTrue result → AreIdle bounds.now loads.now prices.now }
{
    for place in 0..bounds.len() {
        if loads[place] > bounds[place] {
            return false;
        }
        if loads[place] < bounds[place] && prices[place] != 0 {
            return false;
        }
    }
    true
}
