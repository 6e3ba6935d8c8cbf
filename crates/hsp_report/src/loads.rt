// The report of loads.

ghost use Rattle.std.specs.Prelude.{◌≡◌, ◌++◌, ◌<◌, IfOk, OnOk, length};
ghost use Rattle.hsp_cert.specs.Certificate.{IsBest};
ghost use Rattle.hsp_instance.specs.Instance.{IsInstance};
ghost use Rattle.hsp_check.specs.Instance.{network_of};
ghost use Rattle.hsp_check.specs.Loads.{AreLoads};
ghost use Rattle.hsp_check.specs.Uses.{table};
ghost use Rattle.hsp_check.specs.Valid.{IsValidPlan};
ghost use Rattle.hsp_report.specs.Conditions.{IsPlanFor};
ghost use Rattle.hsp_report.specs.LoadReport.{IsLoadReport, load_lines, load_report, server_line};

use crate::columns::{aligned, push_columns, push_difference};
use hsp_cert::{BestRef, Certificate};
use hsp_check::{Loads, plan_sums};
use hsp_instance::Instance;
use std::alloc::{AllocError, Global};

/// The header of a report of loads.
pub const LOAD_HEADER: &[u8] = b"place     server       load   capacity         price site\n";

/// Appends the line of the server with this number, which is one of the instance's, with a load and a price.
///
/// # Errors
///
/// An `AllocError` where memory runs out. Nothing is said of `out` then.
pub fn push_server(
    out: &mut Vec<u8>,
    instance: &Instance,
    server: u32,
    load: u128,
    price: u64,
) -> Result<(), AllocError>
    requires server { server < length instance.now.servers }
    requires within { IsInstance instance.now }
    ensures { OnOk result (out.new.items
        ≡ out.old.items ++ server_line instance.now server load price) }
{
    let (site, place, id, capacity) = instance.server(server);
    push_columns(
        out,
        &[
            aligned(5, u128::from(place)),
            aligned(10, u128::from(id)),
            aligned(10, load),
            aligned(10, u128::from(capacity)),
            aligned(13, u128::from(price)),
        ],
        instance.sites().name(site),
    )
}

// Appends the lines of all servers.
fn push_loads(
    out: &mut Vec<u8>,
    instance: &Instance,
    plan: &BestRef<'_>,
    loads: &Loads,
) -> Result<(), AllocError>
    requires loads { AreLoads (network_of instance.now) (table plan.now.uses) loads.now }
    requires prices { length plan.now.server_prices ≡ length instance.now.servers }
    ensures { OnOk result (out.new.items ≡ out.old.items ++ load_lines instance.now plan.now) }
{
    let prices = plan.server_prices();
    for server in 0..instance.servers() {
        let place = server as usize;
        push_server(out, instance, server, loads.servers[place], prices[place])?;
    }
    Ok(())
}

// The report of a plan.
fn loads_text(alloc: Global, instance: &Instance, plan: &BestRef<'_>) -> Result<Vec<u8>, AllocError>
    requires ranges { IsBest plan.now }
    requires valid { IsValidPlan (network_of instance.now) plan.now }
    ensures { IfOk result (λ text. text.items ≡ load_report instance.now plan.now) }
{
    let sums = plan_sums(alloc, instance, plan)?;
    let mut text = Vec::new(alloc);
    text.extend_from_slice(LOAD_HEADER)?;
    push_loads(&mut text, instance, plan, &sums.loads)?;
    push_difference(
        &mut text,
        b"bound",
        sums.demand_worth,
        sums.capacity_worth,
        sums.cost,
    )?;
    Ok(text)
}

/// What each server takes by a plan, and the bound that shows that no plan costs less. The plan is one to which
/// [`check`](hsp_check::check) says Yes.
///
/// The report has a header, a line for each server in ascending number, and `bound A - B = C`: A is the rows' counts at
/// their prices, B the capacities and the limits at the prices of servers and hosts, and C what the plan costs.
///
/// A server's line has its place in 5 columns, its identifier, its load and its capacity in 10 each and its price in
/// 13, right-aligned, and the name of its site. A number that is wider than its columns stands whole.
///
/// ```
/// // Instance and certificate are those of the example of `hsp_check::check`.
/// let report = load_report(alloc, &instance, &certificate)?;
/// assert!(rt; report.ends_with(b"    2          9          0         10             0 W\nbound 23 - 6 = 17\n"));
/// ```
///
/// # Errors
///
/// An `AllocError` where memory runs out.
pub fn load_report(
    alloc: Global,
    instance: &Instance,
    certificate: &Certificate,
) -> Result<Vec<u8>, AllocError>
    requires { IsPlanFor instance.now certificate.now }
    ensures { IfOk result (λ text. IsLoadReport instance.now certificate.now text.items) }
{
    let plan = certificate.as_best().unwrap();
    loads_text(alloc, instance, &plan)
}
