// The report of regions.

ghost use Rattle.std.specs.Prelude.{◌≡◌, ◌++◌, ◌<◌, ◌≤◌, ◌^◌, IfOk, OnOk, length, sum_by};
ghost use Rattle.hsp_text.specs.declared.limits.TheConstants.{GREATEST_COST};
ghost use Rattle.hsp_cert.specs.Certificate.{IsBest};
ghost use Rattle.hsp_check.specs.Instance.{network_of};
ghost use Rattle.hsp_check.specs.Plan.{Plan};
ghost use Rattle.hsp_check.specs.Planned.{ArePlanned};
ghost use Rattle.hsp_check.specs.Uses.{table};
ghost use Rattle.hsp_check.specs.Valid.{IsValidPlan};
ghost use Rattle.hsp_report.specs.Conditions.{IsPlanFor};
ghost use Rattle.hsp_report.specs.Lent.{cost_in, names_in};
ghost use Rattle.hsp_report.specs.Numbered.{row_at};
ghost use Rattle.hsp_report.specs.RegionReport.{IsRegionReport, is_of, region_cost, region_demand, region_lines};
ghost use Rattle.hsp_report.specs.RegionReport.{region_report, total_line};

use crate::columns::{aligned, push_columns};
use crate::naming::regions_of;
use hsp_cert::{BestRef, Certificate};
use hsp_check::{ArcFlow, planned_arcs};
use hsp_instance::Instance;
use hsp_text::push_wide;
use std::alloc::{AllocError, Global};

/// The header of a report of regions.
pub const REGION_HEADER: &[u8] = b"    demand             cost region\n";

// Whether the row is of the region.
fn is_of(instance: &Instance, row: u32, region: &[u8]) -> bool
    requires { row < length instance.now.rows }
    ensures { result ≡ is_of region.now (row_at instance.now row) }
{
    let (name, _, _) = instance.row(row);
    region == name
}

// What the row asks for.
fn count_of(instance: &Instance, row: u32) -> u128
    requires { row < length instance.now.rows }
    ensures count { result ≡ (row_at instance.now row).count }
    ensures fits { result < 2 ^ 64 }
{
    let (_, _, count) = instance.row(row);
    u128::from(count)
}

// What the rows of the region ask for.
fn region_demand(instance: &Instance, region: &[u8]) -> u128
    ensures { result ≡ region_demand instance.now region.now }
{
    let mut sum: u128 = 0;
    for row in 0..instance.rows() {
        if is_of(instance, row, region) {
            sum += count_of(instance, row);
        }
    }
    sum
}

// What all rows ask for.
fn total_demand(instance: &Instance) -> u128
    ensures { result ≡ sum_by (λ r. r.count) instance.now.rows }
{
    let mut sum: u128 = 0;
    for row in 0..instance.rows() {
        sum += count_of(instance, row);
    }
    sum
}

// What the queries over the arc cost, where its row is of the region.
fn cost_in(instance: &Instance, region: &[u8], one: ArcFlow) -> u128
    requires row { one.arc.row < length instance.now.rows }
    requires cheap { one.arc.cost ≤ GREATEST_COST }
    ensures cost { result ≡ cost_in instance.now region.now one }
    ensures fits { result ≤ 2 ^ 84 }
{
    // Most arcs have no use, and need no look at the row's region.
    if one.flow == 0 || !is_of(instance, one.arc.row, region) {
        return 0;
    }
    u128::from(one.arc.cost) * u128::from(one.flow)
}

// What the queries of the region's rows cost.
fn region_cost(instance: &Instance, arc_flows: &[ArcFlow], region: &[u8]) -> u128
    requires { (x : Plan) × ArePlanned instance.now x arc_flows.now }
    ensures { (x : Plan) → ArePlanned instance.now x arc_flows.now
        → result ≡ region_cost instance.now x region.now }
{
    let mut sum: u128 = 0;
    for place in 0..arc_flows.len() {
        sum += cost_in(instance, region, arc_flows[place]);
    }
    sum
}

// Appends the lines of regions.
fn push_regions(
    out: &mut Vec<u8>,
    instance: &Instance,
    arc_flows: &[ArcFlow],
    regions: &[&[u8]],
) -> Result<(), AllocError>
    requires { (x : Plan) × ArePlanned instance.now x arc_flows.now }
    ensures { OnOk result ((x : Plan) → ArePlanned instance.now x arc_flows.now
        → out.new.items ≡ out.old.items ++ region_lines instance.now x (names_in regions.now)) }
{
    for region in regions {
        let demand = region_demand(instance, region);
        let cost = region_cost(instance, arc_flows, region);
        push_columns(out, &[aligned(10, demand), aligned(16, cost)], region)?;
    }
    Ok(())
}

// Appends the line of what all rows ask for, and what the plan costs.
fn push_total(out: &mut Vec<u8>, instance: &Instance, plan: &BestRef<'_>) -> Result<(), AllocError>
    requires { IsValidPlan (network_of instance.now) plan.now }
    ensures { OnOk result (out.new.items
        ≡ out.old.items ++ total_line instance.now (table plan.now.uses)) }
{
    out.extend_from_slice(b"total ")?;
    push_wide(out, total_demand(instance))?;
    out.push(b' ')?;
    push_wide(out, u128::from(plan.cost()))?;
    out.push(b'\n')?;
    Ok(())
}

// The report of a plan.
fn regions_text(
    alloc: Global,
    instance: &Instance,
    plan: &BestRef<'_>,
) -> Result<Vec<u8>, AllocError>
    requires ranges { IsBest plan.now }
    requires valid { IsValidPlan (network_of instance.now) plan.now }
    ensures { IfOk result (λ text. text.items ≡ region_report instance.now plan.now) }
{
    let arc_flows = planned_arcs(alloc, instance, plan)?;
    let regions = regions_of(alloc, instance)?;
    let mut text = Vec::new(alloc);
    text.extend_from_slice(REGION_HEADER)?;
    push_regions(&mut text, instance, &arc_flows, &regions)?;
    push_total(&mut text, instance, plan)?;
    Ok(text)
}

/// What each region asks for, and what that costs by a plan. The plan is one to which [`check`](hsp_check::check) says
/// Yes.
///
/// The report has a header, a line for each region in the order in which the rows name them first, and `total D C`: D
/// is what all rows ask for, and C what the plan costs.
///
/// A region's line has its demand in 10 columns and its cost in 16, right-aligned, and its name. A number that is wider
/// than its columns stands whole.
///
/// ```
/// // Instance and certificate are those of the example of `hsp_check::check`.
/// let report = region_report(alloc, &instance, &certificate)?;
/// assert!(rt; report.ends_with(b"         9                9 r1\n         3                8 r2\ntotal 12 17\n"));
/// ```
///
/// # Errors
///
/// An `AllocError` where memory runs out.
pub fn region_report(
    alloc: Global,
    instance: &Instance,
    certificate: &Certificate,
) -> Result<Vec<u8>, AllocError>
    requires { IsPlanFor instance.now certificate.now }
    ensures { IfOk result (λ text. IsRegionReport instance.now certificate.now text.items) }
{
    let plan = certificate.as_best().unwrap();
    regions_text(alloc, instance, &plan)
}
