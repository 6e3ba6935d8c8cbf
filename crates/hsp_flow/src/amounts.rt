// What rows ask for, what servers and hosts take, and the lists of a network.

ghost use Rattle.std.specs.Prelude.{◌≡◌, IfOk};
ghost use Rattle.hsp_instance.specs.Instance.{IsInstance};
ghost use Rattle.hsp_flow.specs.Lists.{transport_in};
ghost use Rattle.hsp_flow.specs.Planning.{transport_of};

use crate::arcs::{ArcColumns, row_columns};
use hsp_instance::{Instance, capacities_of, counts_of, limits_of, server_hosts_of};
use std::alloc::{AllocError, Global};

/// The lists of a network: one number for each row, each server and each host, and three for each arc.
#[derive(Drop)]
pub(crate) struct TransportLists {
    pub(crate) demands: Vec<u64>,
    pub(crate) capacities: Vec<u64>,
    pub(crate) limits: Vec<u64>,
    pub(crate) hosts: Vec<Option<u32>>,
    pub(crate) arcs: ArcColumns,
}

/// The lists of an instance's network.
pub(crate) fn lists_of(alloc: Global, instance: &Instance) -> Result<TransportLists, AllocError>
    ensures lists { IfOk result (λ lists. transport_in lists ≡ transport_of instance.now) }
    // The instance is within its limits.
    ensures within { IfOk result (λ _. IsInstance instance.now) }
{
    Ok(TransportLists {
        demands: counts_of(alloc, instance)?,
        capacities: capacities_of(alloc, instance)?,
        limits: limits_of(alloc, instance)?,
        hosts: server_hosts_of(alloc, instance)?,
        arcs: row_columns(alloc, instance)?,
    })
}
