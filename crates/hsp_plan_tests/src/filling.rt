// Rows of a service that are held, each with the arcs that its region and handle have.

ghost use Rattle.std.specs.Prelude.{◌≡◌, ◌≤◌, ◌<◌, ◌+◌, ◌==◌, All, IfOk, IsTrue, OnOk, length, if◌then◌else◌};
ghost use Rattle.hsp_text.specs.declared.limits.TheConstants.{MOST_LOG_REGIONS, MOST_SERVERS};
ghost use Rattle.hsp_prices.specs.Rows.{Service};
ghost use Rattle.hsp_price_check.specs.Classes.{service_of};
ghost use Rattle.hsp_price_plan.specs.Held.{region_named};
ghost use Rattle.hsp_price_plan.specs.Planning.{AreOfSome};
ghost use Rattle.hsp_plan_tests.specs.Filling.{IsFilled};

use crate::service::Held;
use hsp_instance::{Arc, Instance, RowArcs};
use hsp_names::HandleRef;
use hsp_price_check::{ServiceNumbers, service_numbers};
use hsp_price_plan::KeptRows;
use hsp_tables::Costs;
use hsp_text::limits::{MOST_LOG_REGIONS, MOST_SERVERS};
use hsp_text::push_whole;
use std::alloc::{AllocError, Global};
use std::process::Abort;

/// A row: its region, its handle and how many queries it asks for.
#[derive(Clone, Copy)]
pub(crate) struct Asked<'a> {
    pub(crate) region: &'a [u8],
    pub(crate) handle: &'a [u8],
    pub(crate) count: u64,
}

/// A row from a region.
pub(crate) fn row_of<'a>(region: &'a [u8], handle: &'a [u8], count: u64) -> Asked<'a> {
    Asked {
        region,
        handle,
        count,
    }
}

/// Rows as they are added.
#[derive(Drop)]
pub(crate) struct Filling<'a> {
    arcs: RowArcs<'a>,
    rows: KeptRows,
    regions: usize,
}

/// What a service's servers and hosts take, and rows of it.
#[derive(Drop)]
pub(crate) struct Filled {
    pub(crate) numbers: ServiceNumbers,
    pub(crate) rows: KeptRows,
}

// Whether each arc leads to a server that may be held.
fn are_servers(arcs: &[Arc]) -> bool
    ensures { IsTrue result → All (λ arc. arc.server < MOST_SERVERS) arcs.now }
{
    for arc in arcs {
        if arc.server as usize >= MOST_SERVERS {
            return false;
        }
    }
    true
}

// Whether a number is that of this region, or the next one.
fn is_number(rows: &KeptRows, regions: usize, number: usize, name: &[u8]) -> bool
    requires { regions ≡ length rows.now.regions }
    ensures low { IsTrue result → number < MOST_LOG_REGIONS }
    ensures next { IsTrue result → number ≤ length rows.now.regions }
    ensures named { IsTrue result → number < length rows.now.regions
        → region_named rows.now number ≡ name.now }
{
    if number >= MOST_LOG_REGIONS {
        return false;
    }
    if number < regions {
        return rows.region_name(number) == name;
    }
    number == regions
}

// How many regions there are with that of a number.
fn with_number(regions: usize, number: usize) -> usize
    requires { number < MOST_LOG_REGIONS }
    ensures { result ≡ (if number == regions then regions + 1 else regions) }
{
    if number == regions {
        regions + 1
    } else {
        regions
    }
}

// Adds a row. It is refused where memory runs out, or where it is no row of a test.
fn add(filling: &mut Filling<'_>, alloc: Global, row: Asked<'_>) -> Result<(), AllocError>
    requires { (at : Service) × IsFilled at filling.old.arcs filling.old.rows filling.old.regions }
    ensures { OnOk result ((at : Service)
        → IsFilled at filling.old.arcs filling.old.rows filling.old.regions
        → IsFilled at filling.new.arcs filling.new.rows filling.new.regions) }
{
    let Ok(handle) = HandleRef::parse(row.handle) else {
        return Err(AllocError);
    };
    let number = filling.arcs.find(alloc, row.region, handle)?;
    if !is_number(&filling.rows, filling.regions, number, row.region) {
        return Err(AllocError);
    }
    let arcs = filling.arcs.arcs();
    if arcs.len() > 2 || !are_servers(arcs) {
        return Err(AllocError);
    }
    if filling.rows.len() >= 10_000 || row.count > 1_000_000 {
        return Err(AllocError);
    }
    filling
        .rows
        .push(alloc, number, row.region, arcs, row.count)?;
    filling.regions = with_number(filling.regions, number);
    Ok(())
}

// No rows of a service.
fn start<'a>(alloc: Global, instance: &'a Instance, costs: &'a Costs) -> Filling<'a>
    ensures { IsFilled (service_of costs.now instance.now) result.arcs result.rows result.regions }
{
    Filling {
        arcs: RowArcs::new(alloc, instance.sites(), costs),
        rows: KeptRows::new(alloc, 2),
        regions: 0,
    }
}

// Rows of a service.
fn fill<'a>(
    alloc: Global,
    instance: &'a Instance,
    costs: &'a Costs,
    rows: &[Asked<'_>],
) -> Result<Filling<'a>, AllocError>
    ensures { IfOk result (λ filling.
        IsFilled (service_of costs.now instance.now) filling.arcs filling.rows filling.regions) }
{
    let mut filling = start(alloc, instance, costs);
    for row in rows {
        add(&mut filling, alloc, *row)?;
    }
    Ok(filling)
}

// The same with the service's numbers.
fn filled_once(alloc: Global, held: &Held, rows: &[Asked<'_>]) -> Result<Filled, AllocError>
    ensures { IfOk result (λ filled. AreOfSome filled.numbers filled.rows.rows) }
{
    // The table of costs and the instance are within their limits.
    let _costs = held.costs.len();
    let _sites = held.instance.sites();
    let numbers = service_numbers(alloc, &held.instance)?;
    let filling = fill(alloc, &held.instance, &held.costs, rows)?;
    Ok(Filled {
        numbers,
        rows: filling.rows,
    })
}

// Adds the row of a number: two numbers in turn have one handle, and the two regions. It asks for 1 to 7 queries.
fn add_numbered(
    filling: &mut Filling<'_>,
    alloc: Global,
    regions: [&[u8]; 2],
    number: u64,
) -> Result<(), AllocError>
    requires { (at : Service) × IsFilled at filling.old.arcs filling.old.rows filling.old.regions }
    ensures { OnOk result ((at : Service)
        → IsFilled at filling.old.arcs filling.old.rows filling.old.regions
        → IsFilled at filling.new.arcs filling.new.rows filling.new.regions) }
{
    let mut handle = Vec::from_slice(alloc, b"10/")?;
    push_whole(&mut handle, number / 2)?;
    let region = regions[(number % 2) as usize];
    add(filling, alloc, row_of(region, &handle, number / 2 % 7 + 1))
}

// A row of each region for each of the handles 10/1 to 10/4500.
fn fill_numbered<'a>(
    alloc: Global,
    instance: &'a Instance,
    costs: &'a Costs,
    regions: [&[u8]; 2],
) -> Result<Filling<'a>, AllocError>
    ensures { IfOk result (λ filling.
        IsFilled (service_of costs.now instance.now) filling.arcs filling.rows filling.regions) }
{
    let mut filling = start(alloc, instance, costs);
    for number in 2..9_002 {
        add_numbered(&mut filling, alloc, regions, number)?;
    }
    Ok(filling)
}

// The same with the service's numbers.
fn numbered_once(alloc: Global, held: &Held, regions: [&[u8]; 2]) -> Result<Filled, AllocError>
    ensures { IfOk result (λ filled. AreOfSome filled.numbers filled.rows.rows) }
{
    // The table of costs and the instance are within their limits.
    let _costs = held.costs.len();
    let _sites = held.instance.sites();
    let numbers = service_numbers(alloc, &held.instance)?;
    let filling = fill_numbered(alloc, &held.instance, &held.costs, regions)?;
    Ok(Filled {
        numbers,
        rows: filling.rows,
    })
}

/// Rows of a service, one from each region for each of the handles 10/1 to 10/4500, which asks for the remainder of its
/// number by 7 and one. None of their arcs is kept. They are held once more where memory ran out.
pub(crate) fn held_numbered(
    rt: &impl Abort,
    alloc: Global,
    held: &Held,
    regions: [&[u8]; 2],
) -> Filled
    ensures { AreOfSome result.numbers result.rows.rows }
{
    match numbered_once(alloc, held, regions) {
        Ok(filled) => filled,
        Err(AllocError) => numbered_once(alloc, held, regions).expect(rt, "there is memory"),
    }
}

/// Rows of a service, none of whose arcs is kept. They are held once more where memory ran out.
pub(crate) fn held_rows(rt: &impl Abort, alloc: Global, held: &Held, rows: &[Asked<'_>]) -> Filled
    ensures { AreOfSome result.numbers result.rows.rows }
{
    match filled_once(alloc, held, rows) {
        Ok(filled) => filled,
        Err(AllocError) => filled_once(alloc, held, rows).expect(rt, "there is memory"),
    }
}
