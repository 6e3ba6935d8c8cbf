// A pass over rows that judges the certificate of a plan.

ghost use Rattle.std.specs.Prelude.{◌≡◌, ◌++◌, ◌∷◌, [], IfOk, List, OnOk, length};
ghost use Rattle.std.specs.List.{AllByRecursion};
ghost use Rattle.hsp_instance.specs.Instance.{Row};
ghost use Rattle.hsp_instance.specs.RowArcs.{IsWithin};
ghost use Rattle.hsp_prices.specs.Rows.{Service};
ghost use Rattle.hsp_price_text.specs.Claim.{Best};
ghost use Rattle.hsp_prices.specs.Sums.{row_cost};
ghost use Rattle.hsp_price_check.specs.PlanPass.{IsOfRow, IsOfRows, IsPlaceBy, IsPlanPass};

use crate::finding::find_class;
use crate::kind_rows::FirstNumbers;
use crate::least::{fill_least, fill_servers};
use crate::numbers::ServiceNumbers;
use crate::sums::{PassSums, RowPlace};
use hsp_instance::Arc;
use hsp_price_text::PricedPlan;
use std::alloc::AllocError;

/// A plan, and what the rows bring that were passed over.
#[derive(Drop)]
pub(crate) struct PlanPass<'a> {
    pub(crate) plan: &'a PricedPlan,
    pub(crate) numbers: ServiceNumbers,
    pub(crate) extras: Vec<u64>,
    pub(crate) classes: FirstNumbers,
    pub(crate) least: Vec<Arc>,
    pub(crate) servers: Vec<u32>,
    pub(crate) sums: PassSums,
}

// Where a row goes whose least arcs these are.
fn place_of(
    least: &[Arc],
    servers: &mut Vec<u32>,
    classes: &FirstNumbers,
    region: &[u8],
) -> Result<RowPlace, AllocError>
    ensures { IfOk result (IsPlaceBy classes.now.entries region.now least.now) }
{
    match least {
        [] => Ok(RowPlace::Nowhere),
        [arc] => Ok(RowPlace::Over(*arc)),
        several => {
            fill_servers(servers, several)?;
            match find_class(classes, region, servers) {
                Some(class) => Ok(RowPlace::OfClass(class)),
                None => Ok(RowPlace::Unlisted),
            }
        }
    }
}

impl PlanPass<'_> {
    /// Passes over a row of this region with these arcs, which asks for `count` queries, and returns what it costs.
    pub(crate) fn add(
        &mut self,
        region: &[u8],
        arcs: &[Arc],
        count: u64,
    ) -> Result<u128, AllocError>
        requires pass { IsOfRows self.old }
        requires within { AllByRecursion (IsWithin (length self.old.extras.items)) arcs.now }
        ensures passed { OnOk result ((at : Service) (plan : Best) (rows : List Row) (row : Row)
            → IsPlanPass at plan rows self.old → IsOfRow at row region.now arcs.now count
            → IsPlanPass at plan (rows ++ row ∷ []) self.new) }
        ensures cost { IfOk result (λ cost. (at : Service) (plan : Best) (rows : List Row)
            (row : Row) → IsPlanPass at plan rows self.old
            → IsOfRow at row region.now arcs.now count → cost ≡ row_cost at plan row) }
        ensures plan { self.new.plan.now ≡ self.old.plan.now }
    {
        fill_least(&mut self.least, arcs, &self.extras)?;
        let place = place_of(&self.least, &mut self.servers, &self.classes, region)?;
        Ok(self.sums.add(place, count))
    }
}
