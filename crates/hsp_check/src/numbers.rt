// The numbers of an instance, as lists.

ghost use Rattle.std.specs.Prelude.{◌≡◌, ◌<◌, ◌≤◌, ◌^◌, All, IfOk, length};
ghost use Rattle.hsp_text.specs.declared.limits.TheConstants.{GREATEST_COST};
ghost use Rattle.hsp_check.specs.Instance.{capacities_in, demands_in, server_hosts_in, limits_in};

use crate::lists::FlowLists;
use crate::sums::ArcFlow;
use hsp_instance::{Instance, capacities_of, counts_of, limits_of, server_hosts_of};
use std::alloc::{AllocError, Global};

/// What each row asks for, what each server and each host can take, and the host that each server stands on.
#[derive(Drop)]
pub(crate) struct NetworkNumbers {
    pub(crate) demands: Vec<u64>,
    pub(crate) capacities: Vec<u64>,
    pub(crate) limits: Vec<u64>,
    pub(crate) server_hosts: Vec<Option<u32>>,
    ghost servers_many: { length capacities.items ≡ length server_hosts.items },
    ghost few_rows: { length demands.items < 2 ^ 16 },
    ghost few_servers: { length server_hosts.items < 2 ^ 16 },
    ghost few_hosts: { length limits.items < 2 ^ 16 },
}

/// The numbers of an instance.
pub(crate) fn numbers_of(alloc: Global, instance: &Instance) -> Result<NetworkNumbers, AllocError>
    ensures demands { IfOk result (λ numbers. numbers.demands.items ≡ demands_in instance.now) }
    ensures capacities { IfOk result (λ numbers.
        numbers.capacities.items ≡ capacities_in instance.now) }
    ensures limits { IfOk result (λ numbers. numbers.limits.items ≡ limits_in instance.now) }
    ensures server_hosts { IfOk result (λ numbers.
        numbers.server_hosts.items ≡ server_hosts_in instance.now) }
{
    let demands = counts_of(alloc, instance)?;
    let capacities = capacities_of(alloc, instance)?;
    let limits = limits_of(alloc, instance)?;
    let server_hosts = server_hosts_of(alloc, instance)?;
    Ok(NetworkNumbers {
        demands,
        capacities,
        limits,
        server_hosts,
    })
}

impl NetworkNumbers {
    ghost use Rattle.hsp_check.specs.Network.{IsNetwork};
    ghost use Rattle.hsp_check.specs.Reach.{network_in, network_with};

    /// The network of these numbers and arcs, as lists.
    pub(crate) fn with<'a>(&'a self, arc_flows: &'a [ArcFlow]) -> FlowLists<'a>
        requires network { IsNetwork (network_with self.now arc_flows.now) }
        requires cheap { All (λ l. l.arc.cost ≤ GREATEST_COST) arc_flows.now }
        requires few { length arc_flows.now < 2 ^ 32 }
        ensures network { network_in result ≡ network_with self.now arc_flows.now }
        ensures server_hosts { result.server_hosts.now ≡ self.now.server_hosts.items }
        ensures arc_flows { result.arc_flows.now ≡ arc_flows.now }
    {
        FlowLists {
            demands: &self.demands,
            capacities: &self.capacities,
            limits: &self.limits,
            server_hosts: &self.server_hosts,
            arc_flows,
        }
    }
}
