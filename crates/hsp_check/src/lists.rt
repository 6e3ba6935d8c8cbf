// A network as lists, with the flow of each arc.

ghost use Rattle.std.specs.Prelude.{◌≡◌, ℕ, ◌<◌, ◌≤◌, ◌^◌, length, All, Some};
ghost use Rattle.hsp_text.specs.declared.limits.TheConstants.{GREATEST_COST};
ghost use Rattle.hsp_check.specs.Lists.{HostsAreBelow};

use crate::sums::ArcFlow;

/// A network as lists with flows: what each row asks for, what each server and each host can take, the host that each
/// server stands on, and the arcs with their flows.
#[derive(Clone, Copy)]
pub(crate) struct FlowLists<'a> {
    pub(crate) demands: &'a [u64],
    pub(crate) capacities: &'a [u64],
    pub(crate) limits: &'a [u64],
    pub(crate) server_hosts: &'a [Option<u32>],
    pub(crate) arc_flows: &'a [ArcFlow],
    ghost servers_many: { length capacities.now ≡ length server_hosts.now },
    ghost few_rows: { length demands.now < 2 ^ 16 },
    ghost few_servers: { length server_hosts.now < 2 ^ 16 },
    ghost few_hosts: { length limits.now < 2 ^ 16 },
    ghost server_hosts_in: { HostsAreBelow (length limits.now) server_hosts.now },
    ghost rows_in: { All (λ l. l.arc.row < length demands.now) arc_flows.now },
    ghost servers_in: { All (λ l. l.arc.server < length server_hosts.now) arc_flows.now },
    ghost cheap: { All (λ l. l.arc.cost ≤ GREATEST_COST) arc_flows.now },
    ghost few_arcs: { length arc_flows.now < 2 ^ 32 },
}
