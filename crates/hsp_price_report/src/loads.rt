// The report of loads.

ghost use Rattle.std.specs.Prelude.{◌≡◌, ◌≤◌, ◌++◌, ◌^◌, IfOk, List, OnOk, length};
ghost use Rattle.hsp_tables.specs.Costs.{CostEntry};
ghost use Rattle.hsp_instance.specs.Instance.{Row};
ghost use Rattle.hsp_price_check.specs.Classes.{service_of};
ghost use Rattle.hsp_price_report.specs.LoadReport.{full_worth, lines_by, load_report};
ghost use Rattle.hsp_price_report.specs.ValidPass.{HasValidPass, IsValidPass};

use hsp_check::worth_of;
use hsp_instance::{Instance, capacities_of, limits_of};
use hsp_price_check::PriceCheck;
use hsp_price_text::PricedPlan;
use hsp_prices::plan_is_shown;
use hsp_report::{LOAD_HEADER, push_difference, push_server};
use std::alloc::{AllocError, Global};

// Appends the lines of all servers, with these loads and prices.
fn push_loads(
    out: &mut Vec<u8>,
    instance: &Instance,
    loads: &[u128],
    prices: &[u64],
) -> Result<(), AllocError>
    requires loads { length loads.now ≡ length instance.now.servers }
    requires prices { length prices.now ≡ length instance.now.servers }
    ensures { OnOk result
        (out.new.items ≡ out.old.items ++ lines_by instance.now loads.now prices.now) }
{
    for server in 0..instance.servers() {
        let place = server as usize;
        push_server(out, instance, server, loads[place], prices[place])?;
    }
    Ok(())
}

// What all servers and hosts take at their prices where they are full.
fn full_worth(alloc: Global, instance: &Instance, plan: &PricedPlan) -> Result<u128, AllocError>
    requires servers { length plan.now.server_prices ≡ length instance.now.servers }
    requires hosts { length plan.now.host_prices ≡ length instance.now.hosts }
    ensures worth { (costs : List CostEntry) → IfOk result
        (λ worth. worth ≡ full_worth (service_of costs instance.now) plan.now) }
    ensures fits { IfOk result (λ worth. worth ≤ 2 ^ 121) }
{
    // The plan and the instance are within their limits.
    let _cost = plan.cost();
    let _servers = instance.servers();
    let capacities = capacities_of(alloc, instance)?;
    let limits = limits_of(alloc, instance)?;
    Ok(worth_of(&capacities, plan.server_prices()) + worth_of(&limits, plan.host_prices()))
}

/// What each server takes by a plan, and the bound that shows that no plan costs less. The check has passed over the
/// rows, and its verdict on the plan is Yes.
///
/// The report has the form of [`load_report`](hsp_report::load_report): a header, a line for each server in ascending
/// number, and `bound A - B = C`. A is what the rows pay by the prices, B the capacities and the limits at the prices
/// of servers and hosts, and C what the plan costs.
///
/// # Errors
///
/// An `AllocError` where memory runs out.
pub fn price_load_report(
    alloc: Global,
    instance: &Instance,
    plan: &PricedPlan,
    check: &PriceCheck<'_>,
) -> Result<Vec<u8>, AllocError>
    requires { HasValidPass instance.now plan.now check.now }
    ensures { IfOk result (λ text. (costs : List CostEntry) (rows : List Row)
        → IsValidPass (service_of costs instance.now) plan.now rows check.now
        → text.items ≡ load_report instance.now (service_of costs instance.now) plan.now rows) }
{
    plan_is_shown();
    let loads = check.loads().unwrap();
    let worth = full_worth(alloc, instance, plan)?;
    let cost = u128::from(plan.cost());
    let mut text = Vec::new(alloc);
    text.extend_from_slice(LOAD_HEADER)?;
    push_loads(&mut text, instance, loads, plan.server_prices())?;
    push_difference(&mut text, b"bound", cost + worth, worth, cost)?;
    Ok(text)
}
