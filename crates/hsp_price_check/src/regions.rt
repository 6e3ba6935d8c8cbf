// What the rows and the classes of a region ask for and cost.

ghost use Rattle.std.specs.Prelude.{◌≡◌, ◌≤◌, ◌<◌, ◌+◌, All, OnOk, length};
ghost use Rattle.hsp_prices.specs.Verdict.{AreThere};
ghost use Rattle.hsp_price_check.specs.Classes.{service_of};
ghost use Rattle.hsp_price_check.specs.Passed.{capped};
ghost use Rattle.hsp_price_check.specs.Regions.{HasRoom, IsRegionAdded, classes_sum, cost_in};

use crate::class_costs::class_cost;
use hsp_instance::Instance;
use hsp_price_text::Class;
use hsp_tables::Costs;
use std::alloc::AllocError;

/// What the rows of a region ask for, and what those of them cost that have one least server. Sums above 2^128 - 1 are
/// kept as that.
#[derive(Clone, Copy)]
pub(crate) struct RegionSums {
    pub(crate) demand: u128,
    pub(crate) cost: u128,
}

// Puts the sums of a region that has no row yet behind the others, where the number is that of a new one.
fn make_room(regions: &mut Vec<RegionSums>, number: usize) -> Result<(), AllocError>
    requires { number ≤ length regions.old.items }
    ensures { OnOk result (HasRoom regions.old.items number regions.new.items) }
{
    if number < regions.len() {
        return Ok(());
    }
    regions.push(RegionSums { demand: 0, cost: 0 })?;
    Ok(())
}

// Adds what a row asks for and what it costs to the sums of the region with this number.
fn add_at(regions: &mut [RegionSums], number: usize, count: u64, cost: u128)
    requires { number < length regions.old }
    ensures { IsRegionAdded regions.old number count cost regions.new }
{
    let sums = regions[number];
    regions[number] = RegionSums {
        demand: sums.demand.saturating_add(u128::from(count)),
        cost: sums.cost.saturating_add(cost),
    };
}

/// Adds what a row asks for and what it costs to the sums of its region, whose number may be the next one.
pub(crate) fn add_row(
    regions: &mut Vec<RegionSums>,
    number: usize,
    count: u64,
    cost: u128,
) -> Result<(), AllocError>
    requires { number ≤ length regions.old.items }
    ensures { OnOk result (IsRegionAdded regions.old.items number count cost regions.new.items) }
{
    make_room(regions, number)?;
    add_at(regions, number, count, cost);
    Ok(())
}

// What a class costs, where it is of the region.
fn cost_in(instance: &Instance, costs: &Costs, class: &Class, region: &[u8]) -> u128
    requires { AreThere (service_of costs.now instance.now) class.now.servers }
    ensures { result
        ≡ capped (cost_in (service_of costs.now instance.now) region.now class.now) }
{
    if region != class.region.as_slice() {
        return 0;
    }
    class_cost(instance, costs, class)
}

/// A sum with what the classes of a region cost.
pub(crate) fn add_classes(
    instance: &Instance,
    costs: &Costs,
    classes: &[Class],
    region: &[u8],
    sum: u128,
) -> u128
    requires { All (λ class. AreThere (service_of costs.now instance.now) class.servers)
        classes.now }
    ensures { result ≡ capped
        (sum + classes_sum (service_of costs.now instance.now) classes.now region.now) }
{
    let mut all = sum;
    for class in classes {
        all = all.saturating_add(cost_in(instance, costs, class, region));
    }
    all
}
