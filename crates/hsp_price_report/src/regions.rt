// The report of regions.

ghost use Rattle.std.specs.Prelude.{◌≡◌, ◌<◌, ◌++◌, IfOk, List, OnOk, length, sum_by};
ghost use Rattle.hsp_instance.specs.Instance.{Row, regions_of};
ghost use Rattle.hsp_prices.specs.Rows.{Service};
ghost use Rattle.hsp_price_text.specs.Claim.{Best};
ghost use Rattle.hsp_price_report.specs.RegionReport.{region_line_at, region_lines, region_report, total_line};
ghost use Rattle.hsp_price_report.specs.ValidPass.{IsOfSome, IsValidPass};

use hsp_price_check::PriceCheck;
use hsp_price_text::PricedPlan;
use hsp_report::{REGION_HEADER, aligned, push_columns};
use hsp_text::push_wide;
use std::alloc::{AllocError, Global};

// Appends the line of the region with this number.
fn push_region(out: &mut Vec<u8>, check: &PriceCheck<'_>, number: usize) -> Result<(), AllocError>
    requires { (at : Service) × (plan : Best) × (rows : List Row)
        × IsValidPass at plan rows check.now × (number < length (regions_of rows)) }
    ensures { OnOk result ((at : Service) (plan : Best) (rows : List Row)
        → IsValidPass at plan rows check.now
        → out.new.items ≡ out.old.items ++ region_line_at at plan rows number) }
{
    let (name, demand, cost) = check.region(number);
    push_columns(out, &[aligned(10, demand), aligned(16, cost)], name)
}

// Appends the lines of all regions.
fn push_regions(out: &mut Vec<u8>, check: &PriceCheck<'_>) -> Result<(), AllocError>
    requires { IsOfSome check.now }
    ensures { OnOk result ((at : Service) (plan : Best) (rows : List Row)
        → IsValidPass at plan rows check.now
        → out.new.items ≡ out.old.items ++ region_lines at plan rows) }
{
    for number in 0..check.regions() {
        push_region(out, check, number)?;
    }
    Ok(())
}

// What all rows ask for.
fn total_demand(check: &PriceCheck<'_>) -> u128
    requires { IsOfSome check.now }
    ensures { (at : Service) (plan : Best) (rows : List Row) → IsValidPass at plan rows check.now
        → result ≡ sum_by (λ row. row.count) rows }
{
    let mut sum: u128 = 0;
    for number in 0..check.regions() {
        let (_, demand, _) = check.region(number);
        sum = sum.saturating_add(demand);
    }
    sum
}

// Appends the line of what all rows ask for, and what the plan costs.
fn push_total(
    out: &mut Vec<u8>,
    plan: &PricedPlan,
    check: &PriceCheck<'_>,
) -> Result<(), AllocError>
    requires { (at : Service) × (rows : List Row) × IsValidPass at plan.now rows check.now }
    ensures { OnOk result ((at : Service) (rows : List Row)
        → IsValidPass at plan.now rows check.now
        → out.new.items ≡ out.old.items ++ total_line plan.now rows) }
{
    out.extend_from_slice(b"total ")?;
    push_wide(out, total_demand(check))?;
    out.push(b' ')?;
    push_wide(out, u128::from(plan.cost()))?;
    out.push(b'\n')?;
    Ok(())
}

/// What each region asks for, and what that costs by a plan. The check has passed over the rows, and its verdict on the
/// plan is Yes.
///
/// The report has the form of [`region_report`](hsp_report::region_report): a header, a line for each region in the
/// order in which the rows name them first, and `total D C`. D is what all rows ask for, and C what the plan costs.
///
/// # Errors
///
/// An `AllocError` where memory runs out.
pub fn price_region_report(
    alloc: Global,
    plan: &PricedPlan,
    check: &PriceCheck<'_>,
) -> Result<Vec<u8>, AllocError>
    requires { (at : Service) × (rows : List Row) × IsValidPass at plan.now rows check.now }
    ensures { IfOk result (λ text. (at : Service) (rows : List Row)
        → IsValidPass at plan.now rows check.now
        → text.items ≡ region_report at plan.now rows) }
{
    let mut text = Vec::new(alloc);
    text.extend_from_slice(REGION_HEADER)?;
    push_regions(&mut text, check)?;
    push_total(&mut text, plan, check)?;
    Ok(text)
}
