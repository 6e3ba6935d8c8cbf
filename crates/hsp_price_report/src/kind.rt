// What reports by prices show.

ghost use Rattle.std.specs.Prelude.{◌≡◌, IfOk, List};
ghost use Rattle.hsp_tables.specs.Costs.{CostEntry};
ghost use Rattle.hsp_instance.specs.Instance.{Row};
ghost use Rattle.hsp_price_check.specs.Classes.{service_of};
ghost use Rattle.hsp_price_report.specs.Kinds.{report_text};
ghost use Rattle.hsp_price_report.specs.ValidPass.{HasValidPass, IsValidPass};

use crate::loads::price_load_report;
use crate::regions::price_region_report;
use hsp_instance::Instance;
use hsp_price_check::PriceCheck;
use hsp_price_text::PricedPlan;
use std::alloc::{AllocError, Global};

/// What a report shows.
#[derive(Clone, Copy)]
pub enum PriceReportKind {
    /// `load`: what each server takes by a plan.
    Load,
    /// `region`: what each region asks for, and what that costs by a plan.
    Region,
}

impl PriceReportKind {
    /// The text of the report of a valid plan.
    ///
    /// # Errors
    ///
    /// An `AllocError` where memory runs out.
    pub fn text(
        self,
        alloc: Global,
        instance: &Instance,
        plan: &PricedPlan,
        check: &PriceCheck<'_>,
    ) -> Result<Vec<u8>, AllocError>
        requires { HasValidPass instance.now plan.now check.now }
        ensures { IfOk result (λ text. (costs : List CostEntry) (rows : List Row)
            → IsValidPass (service_of costs instance.now) plan.now rows check.now
            → text.items
            ≡ report_text self instance.now (service_of costs instance.now) plan.now rows) }
    {
        match self {
            PriceReportKind::Load => price_load_report(alloc, instance, plan, check),
            PriceReportKind::Region => price_region_report(alloc, plan, check),
        }
    }
}
