// What a front begins with.

ghost use Rattle.std.specs.Prelude.{◌≡◌, ◌≤◌, ◌<◌, ◌+◌, ◌-◌, [], ℕ, All, IfErr, IfOk, List, length, slice_index, ◌==◌};
ghost use Rattle.hsp_tables.specs.Costs.{CostEntry};
ghost use Rattle.hsp_check.specs.Lists.{AreWithin};
ghost use Rattle.hsp_prices.specs.Verdict.{PlanMeets};
ghost use Rattle.hsp_prices.specs.declared.verdict.PriceReason.TheVariants.{NoSuchServer as MissingServer};
ghost use Rattle.hsp_prices.specs.declared.verdict.PriceReason.TheVariants.{Shape as Shaped};
ghost use Rattle.hsp_log.specs.FrontShares.{share};
ghost use Rattle.hsp_price_check.specs.ClassNumbers.{HasClasses};
ghost use Rattle.hsp_price_check.specs.Classes.{service_of};
ghost use Rattle.hsp_price_check.specs.Extras.{AreExtras};
ghost use Rattle.hsp_price_check.specs.Passed.{capped};
ghost use Rattle.hsp_price_check.specs.PlanPass.{AreNumbersOf};
ghost use Rattle.hsp_price_dispatch.specs.Choosing.{first_cell};
ghost use Rattle.hsp_price_dispatch.specs.Holding.{left_where};
ghost use Rattle.hsp_price_dispatch.specs.Standing.{IsAccepted};
ghost use Rattle.hsp_price_dispatch.specs.Starting.{IsBegun, Stands};

use crate::cells::{Cell, cells_of_classes, first_cells};
use crate::choosing::Index;
use crate::fault::StartFault;
use crate::holding::Holding;
use crate::rooms::Rooms;
use hsp_check::{add_hosts, are_within};
use hsp_instance::Instance;
use hsp_log::{Front, share_of_front};
use hsp_price_check::{
    ServiceNumbers, class_loads, class_numbers, classes_have_servers, prices_with_hosts,
    service_numbers,
};
use hsp_price_text::PricedPlan;
use hsp_tables::Costs;
use std::alloc::{AllocError, Global};

/// The numbers of a service with a plan that fits it, and what the plan's classes bring to each server and each host.
#[derive(Drop)]
pub(crate) struct Accepted {
    pub(crate) numbers: ServiceNumbers,
    pub(crate) loads: Vec<u128>,
    pub(crate) host_loads: Vec<u128>,
}

// What the classes bring, where no server and no host gets too much.
fn within_limits(
    alloc: Global,
    instance: &Instance,
    plan: &PricedPlan,
    numbers: ServiceNumbers,
) -> Result<Accepted, StartFault>
    requires numbers { (costs : List CostEntry)
        → AreNumbersOf (service_of costs instance.now) numbers }
    requires shape { (costs : List CostEntry)
        → PlanMeets (service_of costs instance.now) [] plan.now Shaped }
    requires there { (costs : List CostEntry)
        → PlanMeets (service_of costs instance.now) [] plan.now MissingServer }
    ensures accepted { IfOk result (λ accepted. (costs : List CostEntry)
        → IsAccepted (service_of costs instance.now) plan.now accepted) }
    ensures fault { IfErr result (λ fault. (costs : List CostEntry)
        → Stands (service_of costs instance.now) plan.now fault) }
{
    // The plan and the instance are within their limits.
    let _cost = plan.cost();
    let _servers = instance.servers();
    let loads = class_loads(alloc, plan.classes(), numbers.capacities.len())?;
    if !are_within(&numbers.capacities, &loads) {
        return Err(StartFault::Load);
    }
    let host_loads = add_hosts(alloc, &numbers.server_hosts, &loads, numbers.limits.len())?;
    if !are_within(&numbers.limits, &host_loads) {
        return Err(StartFault::Load);
    }
    Ok(Accepted {
        numbers,
        loads,
        host_loads,
    })
}

/// What a front needs of a plan that fits the instance's service.
pub(crate) fn accept(
    alloc: Global,
    instance: &Instance,
    plan: &PricedPlan,
) -> Result<Accepted, StartFault>
    ensures accepted { IfOk result (λ accepted. (costs : List CostEntry)
        → IsAccepted (service_of costs instance.now) plan.now accepted) }
    ensures fault { IfErr result (λ fault. (costs : List CostEntry)
        → Stands (service_of costs instance.now) plan.now fault) }
{
    let numbers = service_numbers(alloc, instance)?;
    if plan.server_prices().len() != numbers.capacities.len()
        || plan.host_prices().len() != numbers.limits.len()
    {
        return Err(StartFault::Shape);
    }
    if !classes_have_servers(plan.classes(), numbers.capacities.len()) {
        return Err(StartFault::NoSuchServer);
    }
    within_limits(alloc, instance, plan, numbers)
}

// What is left in the cells of each server below `count`. Sums above 2^128 - 1 are kept as that.
fn held_at_servers(alloc: Global, cells: &[Cell], count: usize) -> Result<Vec<u128>, AllocError>
    requires { All (λ cell. cell.server < count) cells.now }
    ensures many { IfOk result (λ held. length held.items ≡ count) }
    ensures each { IfOk result (λ held. (j : ℕ) → j < count
        → slice_index held.items j ≡ capped (left_where (λ k. k == j) cells.now)) }
{
    let mut held = vec![in alloc; 0u128; count]?;
    for cell in cells {
        let place = cell.server as usize;
        held[place] = held[place].saturating_add(u128::from(cell.left));
    }
    Ok(held)
}

// The room at servers, or at hosts, which take so many queries and get so many by all classes, where a front holds so
// many for its share of these.
fn rooms_of(
    alloc: Global,
    bounds: &[u64],
    loads: &[u128],
    held: Vec<u128>,
    front: Front,
) -> Result<Rooms, AllocError>
    requires some { 0 < front.fronts }
    requires loads_many { length loads.now ≡ length bounds.now }
    requires held_many { length held.items ≡ length bounds.now }
    requires within { AreWithin bounds.now loads.now }
    requires low { (j : ℕ) → j < length bounds.now
        → slice_index held.items j ≤ slice_index loads.now j }
    ensures many { IfOk result (λ rooms. length rooms.left.items ≡ length bounds.now) }
    ensures left { IfOk result (λ rooms. (j : ℕ) → j < length bounds.now
        → slice_index rooms.left.items j
        ≡ share front.fronts front.number (slice_index bounds.now j - slice_index loads.now j)
        + slice_index held.items j) }
    ensures held { IfOk result (λ rooms. rooms.held.items ≡ held.items) }
{
    let mut left = Vec::with_capacity(alloc, bounds.len())?;
    for place in 0..bounds.len() {
        let free = bounds[place] - loads[place] as u64;
        left.push(share_of_front(free, front) + held[place] as u64)?;
    }
    Ok(Rooms { left, held })
}

/// An instance and costs, whose service a front serves.
#[derive(Clone, Copy)]
pub(crate) struct ServiceRef<'a> {
    pub(crate) instance: &'a Instance,
    pub(crate) costs: &'a Costs,
}

/// What a front holds at the beginning.
pub(crate) fn begin<'a>(
    alloc: Global,
    service: ServiceRef<'a>,
    plan: &'a PricedPlan,
    accepted: Accepted,
    front: Front,
) -> Result<Holding<'a>, AllocError>
    requires some { 0 < front.fronts }
    requires accepted { IsAccepted (service_of service.costs.now service.instance.now) plan.now
        accepted }
    ensures { IfOk result (IsBegun
        (service_of service.entry.costs.now service.entry.instance.now) plan.now front.fronts
        front.number) }
{
    let numbers = accepted.numbers;
    let cells = cells_of_classes(alloc, plan.classes(), front)?;
    let held = held_at_servers(alloc, &cells, numbers.capacities.len())?;
    let host_held = add_hosts(alloc, &numbers.server_hosts, &held, numbers.limits.len())?;
    let servers = rooms_of(alloc, &numbers.capacities, &accepted.loads, held, front)?;
    let hosts = rooms_of(
        alloc,
        &numbers.limits,
        &accepted.host_loads,
        host_held,
        front,
    )?;
    Ok(Holding {
        instance: service.instance,
        costs: service.costs,
        plan,
        server_hosts: numbers.server_hosts,
        cells,
        servers,
        hosts,
    })
}

/// The prices and the classes of a plan, as a front looks for them.
pub(crate) fn index_of(
    alloc: Global,
    plan: &PricedPlan,
    numbers: &ServiceNumbers,
) -> Result<Index, AllocError>
    requires prices { length plan.now.server_prices ≡ length numbers.now.capacities.items }
    requires host_prices { length plan.now.host_prices ≡ length numbers.now.limits.items }
    ensures extras { IfOk result (λ index. AreExtras numbers.now.server_hosts.items
        plan.now.server_prices plan.now.host_prices index.extras.items) }
    ensures classes { IfOk result (λ index. HasClasses plan.now.classes index.classes.entries) }
    ensures firsts_many { IfOk result (λ index.
        length index.firsts.items ≡ length plan.now.classes) }
    ensures firsts { IfOk result (λ index. (k : ℕ) → k < length plan.now.classes
        → slice_index index.firsts.items k ≡ first_cell plan.now.classes k) }
{
    // The plan is within its limits.
    let _cost = plan.cost();
    let classes = plan.classes();
    let extras = prices_with_hosts(
        alloc,
        &numbers.server_hosts,
        plan.server_prices(),
        plan.host_prices(),
    )?;
    Ok(Index {
        extras,
        classes: class_numbers(alloc, classes)?,
        firsts: first_cells(alloc, classes)?,
    })
}
