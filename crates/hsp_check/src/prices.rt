// The prices of a certificate, against the arcs.

ghost use Rattle.std.specs.Prelude.{◌≡◌, ℕ, ◌+◌, ◌<◌, ◌≤◌, ◌↔◌, length, slice_index, All, IsTrue, Some};
ghost use Rattle.hsp_text.specs.declared.limits.TheConstants.{GREATEST_COST};
ghost use Rattle.hsp_check.specs.Lists.{HostsAreBelow};

use crate::arc::NetworkArc;
use crate::sums::ArcFlow;

/// The prices of the rows, of the servers and of the hosts, and the host that each server stands on.
#[derive(Clone, Copy)]
pub(crate) struct PriceLists<'a> {
    pub(crate) rows: &'a [u64],
    pub(crate) servers: &'a [u64],
    pub(crate) hosts: &'a [u64],
    pub(crate) server_hosts: &'a [Option<u32>],
    ghost servers_many: { length servers.now ≡ length server_hosts.now },
    ghost server_hosts_in: { HostsAreBelow (length hosts.now) server_hosts.now },
    ghost servers_low: { All (λ v. v ≤ 1000000000000) servers.now },
    ghost hosts_low: { All (λ v. v ≤ 1000000000000) hosts.now },
}

impl<'a> PriceLists<'a> {
    ghost use Rattle.hsp_check.specs.Listed.{AreLow, AreTight, listed_at};

    // What a query to the server pays besides an arc's cost.
    fn at(self, server: usize) -> u64
        requires { server < length self.server_hosts.now }
        ensures price { result ≡ listed_at self.entry server }
        ensures low { result ≤ 2000000000000 }
    {
        match self.server_hosts[server] {
            None => self.servers[server],
            Some(host) => self.servers[server] + self.hosts[host as usize],
        }
    }

    // What a query over the arc pays.
    fn paid(self, arc: NetworkArc) -> u64
        requires server { arc.server < length self.server_hosts.now }
        requires cheap { arc.cost ≤ GREATEST_COST }
        ensures { result ≡ arc.cost + listed_at self.entry arc.server }
    {
        arc.cost + self.at(arc.server as usize)
    }

    /// Whether no row's price is above what an arc of it pays.
    pub(crate) fn are_low(self, arc_flows: &[ArcFlow]) -> bool
        requires rows { All (λ l. l.arc.row < length self.rows.now) arc_flows.now }
        requires servers { All (λ l. l.arc.server < length self.server_hosts.now) arc_flows.now }
        requires cheap { All (λ l. l.arc.cost ≤ GREATEST_COST) arc_flows.now }
        ensures { IsTrue result ↔ AreLow self.entry arc_flows.now }
    {
        for place in 0..arc_flows.len() {
            let arc = arc_flows[place].arc;
            if self.rows[arc.row as usize] > self.paid(arc) {
                return false;
            }
        }
        true
    }

    /// Whether each row's price is what an arc pays that it uses.
    pub(crate) fn are_tight(self, arc_flows: &[ArcFlow]) -> bool
        requires rows { All (λ l. l.arc.row < length self.rows.now) arc_flows.now }
        requires servers { All (λ l. l.arc.server < length self.server_hosts.now) arc_flows.now }
        requires cheap { All (λ l. l.arc.cost ≤ GREATEST_COST) arc_flows.now }
        ensures { IsTrue result ↔ AreTight self.entry arc_flows.now }
    {
        for place in 0..arc_flows.len() {
            let one = arc_flows[place];
            if one.flow > 0 && self.rows[one.arc.row as usize] != self.paid(one.arc) {
                return false;
            }
        }
        true
    }
}
