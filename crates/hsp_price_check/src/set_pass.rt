// A pass over rows that judges the certificate of a short set of servers.

ghost use Rattle.std.specs.Prelude.{◌≡◌, ◌++◌, ◌∷◌, [], List, length};
ghost use Rattle.std.specs.List.{AllByRecursion, list_all};
ghost use Rattle.hsp_instance.specs.Instance.{Row};
ghost use Rattle.hsp_instance.specs.RowArcs.{IsWithin};
ghost use Rattle.hsp_check.specs.ArcFlows.{flag_at};
ghost use Rattle.hsp_prices.specs.Rows.{Service};
ghost use Rattle.hsp_price_text.specs.Claim.{Short};
ghost use Rattle.hsp_price_text.specs.declared.certificate.PriceCertificate.TheVariants.{Shortage};
ghost use Rattle.hsp_prices.specs.Verdict.{IsVerdict};
ghost use Rattle.hsp_price_check.specs.PlanPass.{IsOfRow};
ghost use Rattle.hsp_price_check.specs.SetPass.{IsSetPass};

use hsp_instance::Arc;
use hsp_price_text::ShortServers;
use hsp_prices::{PriceReason, PriceVerdict};

/// A set of servers, what it takes, and what the rows ask for that can go nowhere else.
#[derive(Drop)]
pub(crate) struct SetPass<'a> {
    pub(crate) set: &'a ShortServers,
    pub(crate) flags: Vec<bool>,
    pub(crate) capacity: u128,
    pub(crate) demand: u128,
}

/// Whether each arc leads to a flagged server. There is a flag for each server.
pub fn arcs_stay_within(flags: &[bool], arcs: &[Arc]) -> bool
    requires { AllByRecursion (IsWithin (length flags.now)) arcs.now }
    ensures { result ≡ list_all (λ arc. flag_at flags.now arc.server) arcs.now }
{
    for arc in arcs {
        if !flags[arc.server as usize] {
            return false;
        }
    }
    true
}

impl SetPass<'_> {
    /// Passes over a row with these arcs, which asks for `count` queries.
    pub(crate) fn add(&mut self, arcs: &[Arc], count: u64)
        requires { AllByRecursion (IsWithin (length self.old.flags.items)) arcs.now }
        ensures { (at : Service) (set : Short) (rows : List Row) (row : Row)
            → IsSetPass at set rows self.old → IsOfRow at row row.region arcs.now count
            → IsSetPass at set (rows ++ row ∷ []) self.new }
    {
        if arcs_stay_within(&self.flags, arcs) {
            self.demand = self.demand.saturating_add(u128::from(count));
        }
    }

    /// The verdict by the rows that were passed over.
    pub(crate) fn verdict(&self) -> PriceVerdict
        ensures { (at : Service) (set : Short) (rows : List Row)
            → IsSetPass at set rows self.now → IsVerdict at rows (Shortage set) result }
    {
        if u128::from(self.set.demand()) != self.demand {
            return PriceVerdict::No(PriceReason::DemandSum);
        }
        if u128::from(self.set.capacity()) != self.capacity {
            return PriceVerdict::No(PriceReason::CapacitySum);
        }
        if self.set.demand() <= self.set.capacity() {
            return PriceVerdict::No(PriceReason::NotShort);
        }
        PriceVerdict::Yes
    }
}
