// Rounds over rows: their groups' network is solved, and what it shows is tested against all arcs.

ghost use Rattle.std.specs.Prelude.{◌≡◌, ◌<◌, ◌^◌, IfErr, IfOk, length};
ghost use Rattle.std.specs.List.{AllByRecursion};
ghost use Rattle.hsp_network.specs.Answer.{IsMet, IsShortSet};
ghost use Rattle.hsp_prices.specs.Groups.{AreGroupsOf};
ghost use Rattle.hsp_price_plan.specs.Pressing.{HasTextPrices};
ghost use Rattle.hsp_price_plan.specs.Solving.{HasArcsWithin, demand_in, group_network};
ghost use Rattle.hsp_price_plan.specs.Planning.{AreOfSome, IsFaultOf, IsRoundEnd, IsValidFor, Outlasts};

use crate::fault::PlanFault;
use crate::group::RowGroup;
use crate::network::solve_groups;
use crate::plan::plan_certificate;
use crate::progress::Progress;
use crate::row_groups::groups_of;
use crate::rows::KeptRows;
use crate::shortage::{servers_reached, short_certificate};
use hsp_network::{Outcome, PricedFlow};
use hsp_price_check::{ServiceNumbers, prices_with_hosts};
use hsp_price_text::PriceCertificate;
use std::alloc::Global;

// What a round comes to: a certificate, or so many arcs more that rows keep now.
#[derive(Drop)]
enum RoundEnd {
    Shown(PriceCertificate),
    Kept(u64),
}

// The certificate of a plan by a flow that meets the groups' network, where rows keep all arcs over which a query pays
// least by its prices. Otherwise they keep them now.
fn plan_round(
    alloc: Global,
    numbers: &ServiceNumbers,
    rows: &mut KeptRows,
    groups: &[RowGroup],
    flow: PricedFlow,
) -> Result<RoundEnd, PlanFault>
    requires rows { AreOfSome numbers.now rows.old.rows }
    requires groups { AreGroupsOf rows.old.rows groups.now }
    requires arcs { AllByRecursion (HasArcsWithin (length numbers.now.server_hosts.items))
        groups.now }
    requires demand { demand_in groups.now < 2 ^ 63 }
    requires met { IsMet (group_network numbers.now groups.now) flow }
    requires low { HasTextPrices flow }
    ensures end { IfOk result (IsRoundEnd numbers.now rows.old.rows rows.new.rows) }
    ensures lasts { Outlasts numbers.now rows.old.rows rows.new.rows }
    ensures fault { IfErr result (IsFaultOf numbers.now rows.old.rows) }
{
    let extras = prices_with_hosts(
        alloc,
        &numbers.server_hosts,
        &flow.server_prices,
        &flow.host_prices,
    )?;
    let kept = rows.keep_least(&extras);
    if kept > 0 {
        return Ok(RoundEnd::Kept(kept));
    }
    match plan_certificate(alloc, numbers, groups, flow)? {
        Some(plan) => Ok(RoundEnd::Shown(PriceCertificate::Plan(plan))),
        None => Err(PlanFault::TooLarge),
    }
}

// The certificate of the servers that a short set of groups reaches, where no row that only keeps arcs to these has
// another arc. Otherwise such rows keep all their arcs now.
fn short_round(
    alloc: Global,
    numbers: &ServiceNumbers,
    rows: &mut KeptRows,
    groups: &[RowGroup],
    set: &[bool],
) -> Result<RoundEnd, PlanFault>
    requires rows { AreOfSome numbers.now rows.old.rows }
    requires groups { AreGroupsOf rows.old.rows groups.now }
    requires arcs { AllByRecursion (HasArcsWithin (length numbers.now.server_hosts.items))
        groups.now }
    requires demand { demand_in groups.now < 2 ^ 63 }
    requires short { IsShortSet (group_network numbers.now groups.now) set.now }
    ensures end { IfOk result (IsRoundEnd numbers.now rows.old.rows rows.new.rows) }
    ensures lasts { Outlasts numbers.now rows.old.rows rows.new.rows }
    ensures fault { IfErr result (IsFaultOf numbers.now rows.old.rows) }
{
    let reached = servers_reached(alloc, numbers, groups, set)?;
    let leaving = rows.keep_leaving(&reached);
    if leaving > 0 {
        return Ok(RoundEnd::Kept(leaving));
    }
    match short_certificate(alloc, numbers, groups, &reached)? {
        Some(short) => Ok(RoundEnd::Shown(PriceCertificate::Shortage(short))),
        None => Err(PlanFault::TooLarge),
    }
}

// The certificate that the groups' network shows, or how many arcs more had to be kept.
fn round(
    alloc: Global,
    numbers: &ServiceNumbers,
    rows: &mut KeptRows,
) -> Result<RoundEnd, PlanFault>
    requires { AreOfSome numbers.now rows.old.rows }
    ensures end { IfOk result (IsRoundEnd numbers.now rows.old.rows rows.new.rows) }
    ensures lasts { Outlasts numbers.now rows.old.rows rows.new.rows }
    ensures fault { IfErr result (IsFaultOf numbers.now rows.old.rows) }
{
    let groups = groups_of(alloc, rows)?;
    match solve_groups(alloc, numbers, &groups)? {
        Some(Outcome::Met(flow)) => plan_round(alloc, numbers, rows, &groups, flow),
        Some(Outcome::Short(set)) => short_round(alloc, numbers, rows, &groups, &set),
        None => Err(PlanFault::TooLarge),
    }
}

/// A valid certificate by prices for rows that are held: of a plan, or of a short set of servers. Rows may keep more
/// arcs afterwards. Which arcs they keep at first decides how many rounds it takes, and which of several valid
/// certificates is returned. Each round that keeps more shows how many.
///
/// ```
/// // Three rows of a service whose servers have room for all: from r1 of 3 and 4, and from r2 of 5, at 1 a query.
/// let certificate = plan_rows(alloc, &numbers, &mut rows, &mut Silent)?;
/// let wanted = b"HSPLAN PRICES 1\nPLAN\ncost 12\nserver 0 0\nserver 1 0\nserver 2 0\nEND\n";
/// assert!(rt; write_prices(alloc, &certificate)?.as_slice() == wanted.as_slice());
/// ```
///
/// # Errors
///
/// `TooLarge` where each plan of the rows costs more than 10^16, a plan of them has more than 1,048,576 classes, a
/// short set of servers has a sum above 10^16, or there are more than 67,108,864 rows. Only rows of more than
/// 67,108,864 groups are too many. `OutOfMemory` where memory runs out.
pub fn plan_rows<P: Progress>(
    alloc: Global,
    numbers: &ServiceNumbers,
    rows: &mut KeptRows,
    progress: &mut P,
) -> Result<PriceCertificate, PlanFault>
    requires { AreOfSome numbers.now rows.old.rows }
    ensures valid { IfOk result (IsValidFor numbers.now rows.old.rows) }
    ensures lasts { Outlasts numbers.now rows.old.rows rows.new.rows }
    ensures fault { IfErr result (IsFaultOf numbers.now rows.old.rows) }
{
    'rounds: loop {
        match round(alloc, numbers, rows)? {
            RoundEnd::Shown(certificate) => return Ok(certificate),
            RoundEnd::Kept(arcs) => progress.left(arcs),
        }
    }
}
