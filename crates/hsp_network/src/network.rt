// Networks, and what becomes of them.

ghost use Rattle.std.specs.Prelude.{◌≡◌, ◌↔◌, IfSome, IfNone, IsTrue};
ghost use Rattle.hsp_network.specs.Lists.{AreBelow, AreOrdered, HostsAreBelow};
ghost use Rattle.hsp_network.specs.Network.{IsNetwork};

/// The lists of a network: `demands` has an entry for each source, `capacities` and `hosts` for each server, `limits`
/// for each host, and `sources`, `servers` and `costs` for each arc.
#[derive(Clone, Copy)]
pub struct NetworkLists<'a> {
    pub demands: &'a [u64],
    pub capacities: &'a [u64],
    pub limits: &'a [u64],
    pub hosts: &'a [Option<u32>],
    pub sources: &'a [u32],
    pub servers: &'a [u32],
    pub costs: &'a [u64],
}

/// A transportation network with hosts.
///
/// `demands` has an entry for each source, `capacities` and `hosts` for each server, and `limits` for each host. For
/// each arc, `sources` has the source that it leaves, `servers` the server that it enters, and `costs` what a unit on
/// it costs. The arcs stand in the order of their sources.
#[derive(Drop)]
pub struct Network<'a> {
    pub demands: &'a [u64],
    pub capacities: &'a [u64],
    pub limits: &'a [u64],
    pub hosts: &'a [Option<u32>],
    pub sources: &'a [u32],
    pub servers: &'a [u32],
    pub costs: &'a [u64],
    pub ghost ends: { IsNetwork (record {
      demands = demands.now;
      capacities = capacities.now;
      limits = limits.now;
      hosts = hosts.now;
      sources = sources.now;
      servers = servers.now;
      costs = costs.now;
    }) },
}

// Whether each end of an arc is below the bound.
fn are_below(ends: &[u32], bound: usize) -> bool
    ensures { IsTrue result ↔ AreBelow bound ends.now }
{
    for place in 0..ends.len() {
        if ends[place] as usize >= bound {
            return false;
        }
    }
    true
}

// Whether each host is below the bound.
fn hosts_are_below(hosts: &[Option<u32>], bound: usize) -> bool
    ensures { IsTrue result ↔ HostsAreBelow bound hosts.now }
{
    for server in 0..hosts.len() {
        if let Some(host) = hosts[server] {
            if host as usize >= bound {
                return false;
            }
        }
    }
    true
}

// Whether no end is below an earlier one.
fn are_ordered(ends: &[u32]) -> bool
    ensures { IsTrue result ↔ AreOrdered ends.now }
{
    for place in 1..ends.len() {
        if ends[place] < ends[place - 1] {
            return false;
        }
    }
    true
}

impl<'a> Network<'a> {
    ghost use Rattle.hsp_network.specs.Problem.{problem_in, problem_of};

    /// The network of these lists. It is None in each of these cases:
    /// - Lists that have an entry for the same things differ in length.
    /// - An end of an arc, or a server's host, isn't there.
    /// - The arcs don't stand in the order of their sources.
    pub fn checked(lists: NetworkLists<'a>) -> Option<Network<'a>>
        ensures made { IfSome result (λ network. problem_of network ≡ problem_in lists.entry) }
        ensures none { IfNone result (IsNetwork (problem_in lists.entry) → ⊥) }
    {
        let many = lists.sources.len();
        if lists.hosts.len() != lists.capacities.len() {
            return None;
        }
        if lists.servers.len() != many || lists.costs.len() != many {
            return None;
        }
        if !are_below(lists.sources, lists.demands.len()) || !are_ordered(lists.sources) {
            return None;
        }
        if !are_below(lists.servers, lists.capacities.len()) {
            return None;
        }
        if !hosts_are_below(lists.hosts, lists.limits.len()) {
            return None;
        }
        Some(Network {
            demands: lists.demands,
            capacities: lists.capacities,
            limits: lists.limits,
            hosts: lists.hosts,
            sources: lists.sources,
            servers: lists.servers,
            costs: lists.costs,
        })
    }
}

/// A flow that meets every source: what flows on each arc, and the prices of sources, servers and hosts that show it to
/// be a cheapest one.
#[derive(Drop)]
pub struct PricedFlow {
    pub flows: Vec<u64>,
    pub source_prices: Vec<u64>,
    pub server_prices: Vec<u64>,
    pub host_prices: Vec<u64>,
}

/// What becomes of a network.
#[derive(Drop)]
pub enum Outcome {
    /// Every source is met, at the least cost.
    Met(PricedFlow),
    /// Some sources demand more than the servers that they may use can take. A flag for each source says whether it is
    /// one of them.
    Short(Vec<bool>),
}
