// Proposals for networks that are drawn, and not worked by hand: two arcs may be equal, a demand, capacity, limit or
// cost may be 0, and a source may have no arcs. That an outcome which is accepted is right is proved; that what is
// proposed is accepted is not.

use crate::same::is_same;
use hsp_network::{Network, NetworkLists, Outcome, accepts, propose};
use std::alloc::{AllocError, Global};

/// Numbers that look random, the same for each seed (Knuth, The Art of Computer Programming, section 3.2.1).
#[derive(Drop)]
struct Generator {
    state: u64,
}

impl Generator {
    /// The next number, at most `most`.
    fn up_to(&mut self, most: u32) -> u32 {
        let product = self.state.wrapping_mul(6_364_136_223_846_793_005);
        self.state = product.wrapping_add(1_442_695_040_888_963_407);
        let number = (self.state >> 33) % (u64::from(most) + 1);
        u32::try_from(number).unwrap_or(most)
    }

    /// Adds that many numbers, each at most `most`.
    fn push_numbers(
        &mut self,
        numbers: &mut Vec<u64>,
        many: u32,
        most: u32,
    ) -> Result<(), AllocError> {
        for _ in 0..many {
            numbers.push(u64::from(self.up_to(most)))?;
        }
        Ok(())
    }

    /// Adds the host of each of that many servers: one of that many hosts, or none.
    fn push_hosts(
        &mut self,
        server_hosts: &mut Vec<Option<u32>>,
        servers: u32,
        hosts: u32,
    ) -> Result<(), AllocError> {
        for _ in 0..servers {
            server_hosts.push(self.up_to(hosts).checked_sub(1))?;
        }
        Ok(())
    }
}

/// The arcs of a network.
#[derive(Drop)]
struct Arcs {
    sources: Vec<u32>,
    servers: Vec<u32>,
    costs: Vec<u64>,
}

impl Arcs {
    fn push(&mut self, source: u32, server: u32, cost: u32) -> Result<(), AllocError> {
        self.sources.push(source)?;
        self.servers.push(server)?;
        self.costs.push(u64::from(cost))?;
        Ok(())
    }

    /// Adds up to five arcs of the source, each to one of the servers up to `last` and of a cost up to `most`.
    fn push_drawn(
        &mut self,
        generator: &mut Generator,
        source: u32,
        last: u32,
        most: u32,
    ) -> Result<(), AllocError> {
        for _ in 0..generator.up_to(5) {
            let server = generator.up_to(last);
            let cost = generator.up_to(most);
            self.push(source, server, cost)?;
        }
        Ok(())
    }
}

/// The lists of a network.
#[derive(Drop)]
struct Lists {
    demands: Vec<u64>,
    capacities: Vec<u64>,
    limits: Vec<u64>,
    hosts: Vec<Option<u32>>,
    arcs: Arcs,
}

impl Lists {
    fn new(alloc: Global) -> Lists {
        Lists {
            demands: Vec::new(alloc),
            capacities: Vec::new(alloc),
            limits: Vec::new(alloc),
            hosts: Vec::new(alloc),
            arcs: Arcs {
                sources: Vec::new(alloc),
                servers: Vec::new(alloc),
                costs: Vec::new(alloc),
            },
        }
    }

    fn shown(&self) -> NetworkLists<'_> {
        NetworkLists {
            demands: &self.demands,
            capacities: &self.capacities,
            limits: &self.limits,
            hosts: &self.hosts,
            sources: &self.arcs.sources,
            servers: &self.arcs.servers,
            costs: &self.arcs.costs,
        }
    }

    /// Adds a network that is drawn: up to 6 sources, 6 servers and 3 hosts.
    fn push_drawn(&mut self, generator: &mut Generator) -> Result<(), AllocError> {
        let (sources, last, hosts) = (generator.up_to(6), generator.up_to(5), generator.up_to(3));
        let (servers, most) = (last.saturating_add(1), generator.up_to(4));
        generator.push_numbers(&mut self.demands, sources, 9)?;
        generator.push_numbers(&mut self.capacities, servers, 12)?;
        generator.push_numbers(&mut self.limits, hosts, 20)?;
        generator.push_hosts(&mut self.hosts, servers, hosts)?;
        for source in 0..sources {
            self.arcs.push_drawn(generator, source, last, most)?;
        }
        Ok(())
    }
}

/// Whether a plan is proposed for the network and accepted; None where nothing is proposed, or it is refused.
fn is_met(alloc: Global, network: &Network<'_>) -> Result<Option<bool>, AllocError> {
    let Some(outcome) = propose(alloc, network)? else {
        return Ok(None);
    };
    let is_accepted = accepts(alloc, network, &outcome)?;
    Ok(is_accepted.then_some(matches!(&outcome, Outcome::Met(_))))
}

/// The same of the network of a seed.
fn is_drawn_met(alloc: Global, seed: u64) -> Result<Option<bool>, AllocError> {
    let mut lists = Lists::new(alloc);
    lists.push_drawn(&mut Generator { state: seed })?;
    match Network::checked(lists.shown()) {
        Some(network) => is_met(alloc, &network),
        None => Ok(None),
    }
}

/// For how many of that many networks a plan is accepted, for how many a shortage, and for how many neither.
fn counted(alloc: Global, many: u64) -> Result<[u32; 3], AllocError> {
    let mut counts = [0u32; 3];
    for seed in 0..many {
        let met = match is_drawn_met(alloc, seed) {
            Err(AllocError) => is_drawn_met(alloc, seed)?,
            Ok(met) => met,
        };
        let place = match met {
            Some(true) => 0,
            Some(false) => 1,
            None => 2,
        };
        counts[place] = counts[place].saturating_add(1);
    }
    Ok(counts)
}

#[test]
fn what_is_proposed_is_accepted(rt: HostRuntime) {
    let counts = counted(rt.alloc(), 400);
    assert!(rt; counts.is_ok_and(|[met, short, _]| met > 0 && short > 0));
    is_same(&rt, counts.map(|[_, _, neither]| neither), Ok(0));
}
