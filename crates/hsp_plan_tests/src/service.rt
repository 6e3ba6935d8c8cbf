// A service of two sites: A has the server 0, and B has the servers 1 and 2. Both hash the local name.
//
// Of two servers the local names 1 and 3 are at place 1, and 2 and 4 at place 0. So 10/1 and 10/3 may go to the servers
// 0 and 2, and 10/2 and 10/4 to 0 and 1.

use hsp_instance::{Instance, build};
use hsp_tables::{
    Capacities, Costs, Demand, Limits, Settings, read_capacity, read_costs, read_demand,
    read_settings,
};
use std::alloc::{AllocError, Global};
use std::process::Abort;

// A has the server 7, and B the servers 1 and 2.
const SETTINGS: &[u8] = b"[[site]]\nname = \"A\"\n\
    record = \"000102000001000100000000000000000000000100000007000000000000000000000000000000010000000000000000\"\n\
    [[site]]\nname = \"B\"\n\
    record = \"0001020000010001000000000000000000000002000000010000000000000000000000000000000200000000000000000000000\
    2000000000000000000000000000000020000000000000000\"\n";

/// A host on which the servers of B stand, which takes 5.
pub(crate) const HOST: &[u8] =
    b"[[host]]\naddress = \"00000000000000000000000000000002\"\nlimit = 5\n";

/// From r1 the site A costs 1 and B 10, from r2 the other way round. From r3 only B has a cost.
pub(crate) const COSTS: &[u8] = b"region,site,cost\nr1,A,1\nr1,B,10\nr2,A,10\nr2,B,1\nr3,B,1\n";

/// Each server takes 100.
pub(crate) const ROOMY: &[u8] = b"site,server_id,capacity\nA,7,100\nB,1,100\nB,2,100\n";

/// A takes 5, and the servers of B take 10 each.
pub(crate) const NARROW: &[u8] = b"site,server_id,capacity\nA,7,5\nB,1,10\nB,2,10\n";

/// A service: its servers and hosts, and what a query costs.
#[derive(Drop)]
pub(crate) struct Held {
    pub(crate) instance: Instance,
    pub(crate) costs: Costs,
}

// The octets of the settings with these hosts.
fn settings_once(alloc: Global, hosts: &[u8]) -> Result<Vec<u8>, AllocError> {
    let mut settings = Vec::from_slice(alloc, SETTINGS)?;
    settings.extend_from_slice(hosts)?;
    Ok(settings)
}

// The settings with these hosts. What ran out of memory is called once more, here and below.
fn settings_with(rt: &impl Abort, alloc: Global, hosts: &[u8]) -> Settings {
    let octets = match settings_once(alloc, hosts) {
        Ok(octets) => octets,
        Err(AllocError) => settings_once(alloc, hosts).expect(rt, "there is memory"),
    };
    match read_settings(alloc, &octets) {
        Ok(settings) => settings,
        Err(_) => read_settings(alloc, &octets).expect(rt, "these are settings"),
    }
}

fn no_demand(rt: &impl Abort, alloc: Global) -> Demand {
    let octets = b"region,handle,count\n";
    match read_demand(alloc, octets) {
        Ok(demand) => demand,
        Err(_) => read_demand(alloc, octets).expect(rt, "this is a table"),
    }
}

fn costs_there(rt: &impl Abort, alloc: Global) -> Costs {
    match read_costs(alloc, COSTS, Limits::Logs) {
        Ok(costs) => costs,
        Err(_) => read_costs(alloc, COSTS, Limits::Logs).expect(rt, "this is a table"),
    }
}

fn capacities_in(rt: &impl Abort, alloc: Global, octets: &[u8]) -> Capacities {
    match read_capacity(alloc, octets) {
        Ok(capacity) => capacity,
        Err(_) => read_capacity(alloc, octets).expect(rt, "this is a table"),
    }
}

/// The service with these hosts and capacities.
pub(crate) fn hold(rt: &impl Abort, alloc: Global, hosts: &[u8], capacity: &[u8]) -> Held {
    let settings = settings_with(rt, alloc, hosts);
    let demand = no_demand(rt, alloc);
    let costs = costs_there(rt, alloc);
    let capacity = capacities_in(rt, alloc, capacity);
    let instance = match build(alloc, &settings, None, &demand, &costs, &capacity) {
        Ok(instance) => instance,
        Err(_) => {
            build(alloc, &settings, None, &demand, &costs, &capacity).expect(rt, "they fit")
        }
    };
    Held { instance, costs }
}
