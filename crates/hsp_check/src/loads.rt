// What a plan brings to rows, servers and hosts.

ghost use Rattle.std.specs.Prelude.{IfOk};
ghost use Rattle.hsp_check.specs.Loads.{AreFlowLoads};

use crate::lists::FlowLists;
use crate::sums::{End, add_hosts, add_up};
use std::alloc::{AllocError, Global};

/// What each row gets, and what each server and each host takes, in queries.
#[derive(Drop)]
pub struct Loads {
    pub rows: Vec<u128>,
    pub servers: Vec<u128>,
    pub hosts: Vec<u128>,
}

/// The loads of the plan that gives the arcs these flows.
pub(crate) fn loads_of(alloc: Global, lists: FlowLists<'_>) -> Result<Loads, AllocError>
    ensures { IfOk result (AreFlowLoads lists.entry) }
{
    let rows = add_up(alloc, End::Row, lists.arc_flows, lists.demands.len())?;
    let servers = add_up(alloc, End::Server, lists.arc_flows, lists.capacities.len())?;
    let hosts = add_hosts(alloc, lists.server_hosts, &servers, lists.limits.len())?;
    Ok(Loads {
        rows,
        servers,
        hosts,
    })
}
