// The network of groups with a server without limit, at a penalty, and what its solution shows.

use crate::groups::Groups;
use crate::lists::{get_or, number_of, saturating_sum};
use crate::room::Room;
use crate::terms::Terms;
use hsp_network::{Network, NetworkLists, Outcome, PricedFlow, propose};
use hsp_price_check::ServiceNumbers;
use std::alloc::{AllocError, Global};

// The greatest sum of the prices of a server and its host.
const MOST_EXTRA: u64 = 2_000_000_000_000;

/// What a solution shows: what a query pays at each server beside an arc's cost, and whether queries are left over.
#[derive(Drop)]
pub(crate) struct Solved {
    pub(crate) extras: Vec<u64>,
    pub(crate) is_over: bool,
}

// The lists of a network.
#[derive(Drop)]
struct Columns {
    demands: Vec<u64>,
    sources: Vec<u32>,
    servers: Vec<u32>,
    costs: Vec<u64>,
    penalty: u64,
    beyond: u32,
}

impl Columns {
    // No sources. The server `beyond` takes what is left over, at the penalty.
    fn new(alloc: Global, beyond: usize, penalty: u64) -> Columns {
        Columns {
            demands: Vec::new(alloc),
            sources: Vec::new(alloc),
            servers: Vec::new(alloc),
            costs: Vec::new(alloc),
            penalty,
            beyond: number_of(beyond),
        }
    }

    // Adds an arc of the next source.
    fn push_arc(&mut self, server: u32, cost: u64) -> Result<(), AllocError> {
        self.sources.push(number_of(self.demands.len()))?;
        self.servers.push(server)?;
        self.costs.push(cost)?;
        Ok(())
    }

    // Adds the source of which arcs were added, with one more to the server that takes what is left over.
    fn push_source(&mut self, demand: u64) -> Result<(), AllocError> {
        self.push_arc(self.beyond, self.penalty)?;
        self.demands.push(demand)?;
        Ok(())
    }

    // Adds a group.
    fn push_group(&mut self, groups: &Groups, group: usize) -> Result<(), AllocError> {
        let (servers, costs) = (groups.servers_of(group), groups.costs_of(group));
        for place in 0..servers.len() {
            self.push_arc(get_or(servers, place, 0), get_or(costs, place, 0))?;
        }
        self.push_source(groups.demand(group))
    }

    // Adds all groups.
    fn push_groups(&mut self, groups: &Groups) -> Result<(), AllocError> {
        for group in 0..groups.len() {
            self.push_group(groups, group)?;
        }
        Ok(())
    }

    // Adds loads that servers have no room for.
    fn push_loads(&mut self, loads: &[u64]) -> Result<(), AllocError> {
        for server in 0..loads.len() {
            let load = get_or(loads, server, 0);
            if load > 0 {
                self.push_arc(number_of(server), 0)?;
                self.push_source(load)?;
            }
        }
        Ok(())
    }

    // Whether some flow goes to the server that takes what is left over.
    fn are_over(&self, flows: &[u64]) -> bool {
        for arc in 0..self.servers.len() {
            if get_or(&self.servers, arc, 0) == self.beyond && get_or(flows, arc, 0) > 0 {
                return true;
            }
        }
        false
    }
}

// For each server its price and its host's together.
fn extras_by(
    alloc: Global,
    numbers: &ServiceNumbers,
    flow: &PricedFlow,
) -> Result<Vec<u64>, AllocError> {
    let mut extras = Vec::with_capacity(alloc, numbers.server_hosts.len())?;
    for server in 0..numbers.server_hosts.len() {
        let host = match get_or(&numbers.server_hosts, server, None) {
            Some(host) => get_or(&flow.host_prices, host as usize, 0),
            None => 0,
        };
        let extra = get_or(&flow.server_prices, server, 0).saturating_add(host);
        extras.push(extra.min(MOST_EXTRA))?;
    }
    Ok(extras)
}

// What the columns' network comes to over servers and hosts with this room.
fn outcome_of(
    alloc: Global,
    numbers: &ServiceNumbers,
    columns: &Columns,
    room: &Room,
) -> Result<Option<Outcome>, AllocError> {
    let mut capacities = room.capacities.to_vec(alloc)?;
    capacities.push(saturating_sum(&columns.demands))?;
    let mut hosts = numbers.server_hosts.to_vec(alloc)?;
    hosts.push(None)?;
    let lists = NetworkLists {
        demands: &columns.demands,
        capacities: &capacities,
        limits: &room.limits,
        hosts: &hosts,
        sources: &columns.sources,
        servers: &columns.servers,
        costs: &columns.costs,
    };
    match Network::checked(lists) {
        Some(network) => propose(alloc, &network),
        None => Ok(None),
    }
}

/// What the solution of the groups' network shows, where one is proposed. Servers and hosts take the same part of their
/// capacities and limits as the groups ask for.
pub(crate) fn solve(
    alloc: Global,
    numbers: &ServiceNumbers,
    groups: &Groups,
    terms: Terms,
) -> Result<Option<Solved>, AllocError> {
    let mut columns = Columns::new(alloc, numbers.capacities.len(), terms.penalty);
    columns.push_groups(groups)?;
    let room = Room::new(alloc, numbers, groups.loads(), terms)?;
    columns.push_loads(&room.loads)?;
    match outcome_of(alloc, numbers, &columns, &room)? {
        Some(Outcome::Met(flow)) => Ok(Some(Solved {
            extras: extras_by(alloc, numbers, &flow)?,
            is_over: columns.are_over(&flow.flows),
        })),
        _ => Ok(None),
    }
}
