// The verdict on a plan on a network.

ghost use Rattle.std.specs.Prelude.{◌≡◌, ℕ, ◌<◌, ◌↔◌, length, All, IsTrue};
ghost use Rattle.hsp_cert.specs.Certificate.Claim.{best};
ghost use Rattle.hsp_check.specs.declared.verdict.Reason.TheVariants.{NoSuchUse, RowSum, Load, Cost, ArcPrice};
ghost use Rattle.hsp_check.specs.declared.verdict.Reason.TheVariants.{UsedArcPrice, IdlePrice};
ghost use Rattle.hsp_check.specs.Uses.{table};
ghost use Rattle.hsp_check.specs.Reach.{network_in};
ghost use Rattle.hsp_check.specs.ArcFlows.{AreFlowsOf};
ghost use Rattle.hsp_check.specs.Loads.{AreLoads};

use crate::conditions::{are_met, are_within, idle_are_free};
use crate::lists::FlowLists;
use crate::loads::Loads;
use crate::prices::PriceLists;
use crate::sums::total_of;
use crate::verdict::{Reason, Verdict};
use hsp_cert::UseLine;

/// A plan on a network: its cost, its uses and its prices, and its loads.
#[derive(Clone, Copy)]
pub(crate) struct NetworkPlan<'a, 's> {
    pub(crate) lists: FlowLists<'a>,
    pub(crate) prices: PriceLists<'a>,
    pub(crate) cost: u64,
    pub(crate) uses: &'a [UseLine],
    pub(crate) loads: &'s Loads,
    ghost server_hosts: { prices.server_hosts.now ≡ lists.server_hosts.now },
    ghost rows_many: { length prices.rows.now ≡ length lists.demands.now },
    ghost hosts_many: { length prices.hosts.now ≡ length lists.limits.now },
    ghost arc_flows: { AreFlowsOf (table uses.now) lists.arc_flows.now },
    ghost loads_are: { AreLoads (network_in lists) (table uses.now) loads.now },
}

impl<'a, 's> NetworkPlan<'a, 's> {
    ghost use Rattle.hsp_check.specs.NetworkPlans.{MeetsThere, claim_there};
    ghost use Rattle.hsp_check.specs.Verdict.{IsVerdict};

    // Whether each row gets what it asks for.
    fn meets_rows(self) -> bool
        ensures { IsTrue result ↔ MeetsThere self.entry RowSum }
    {
        are_met(self.lists.demands, &self.loads.rows)
    }

    // Whether no server and no host takes more than it can.
    fn meets_loads(self) -> bool
        ensures { IsTrue result ↔ MeetsThere self.entry Load }
    {
        are_within(self.lists.capacities, &self.loads.servers)
            && are_within(self.lists.limits, &self.loads.hosts)
    }

    // Whether the cost is the plan's.
    fn meets_cost(self) -> bool
        ensures { IsTrue result ↔ MeetsThere self.entry Cost }
    {
        u128::from(self.cost) == total_of(self.lists.arc_flows)
    }

    // Whether no row pays more than an arc's cost and prices.
    fn meets_arc_prices(self) -> bool
        ensures { IsTrue result ↔ MeetsThere self.entry ArcPrice }
    {
        self.prices.are_low(self.lists.arc_flows)
    }

    // Whether each row pays exactly that where it uses the arc.
    fn meets_used_prices(self) -> bool
        ensures { IsTrue result ↔ MeetsThere self.entry UsedArcPrice }
    {
        self.prices.are_tight(self.lists.arc_flows)
    }

    // Whether the servers and the hosts with room left are free.
    fn meets_idle_prices(self) -> bool
        ensures { IsTrue result ↔ MeetsThere self.entry IdlePrice }
    {
        let loads = self.loads;
        idle_are_free(self.lists.capacities, &loads.servers, self.prices.servers)
            && idle_are_free(self.lists.limits, &loads.hosts, self.prices.hosts)
    }

    /// The verdict on a plan whose uses go where they may.
    pub(crate) fn verdict(self) -> Verdict
        requires { MeetsThere self NoSuchUse }
        ensures { IsVerdict (network_in self.entry.lists) (best (claim_there self.entry)) result }
    {
        if !self.meets_rows() {
            return Verdict::No(Reason::RowSum);
        }
        if !self.meets_loads() {
            return Verdict::No(Reason::Load);
        }
        if !self.meets_cost() {
            return Verdict::No(Reason::Cost);
        }
        if !self.meets_arc_prices() {
            return Verdict::No(Reason::ArcPrice);
        }
        if !self.meets_used_prices() {
            return Verdict::No(Reason::UsedArcPrice);
        }
        if !self.meets_idle_prices() {
            return Verdict::No(Reason::IdlePrice);
        }
        Verdict::Yes
    }
}
