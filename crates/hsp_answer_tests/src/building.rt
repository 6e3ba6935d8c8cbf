// Instances of texts. None stands for memory that ran out, and for bad texts.

use hsp_instance::{Instance, build};
use hsp_tables::{
    Capacities, Costs, Demand, Limits, read_capacity, read_costs, read_demand, read_settings,
};
use std::alloc::Global;

// What the texts of the tables spell.
#[derive(Drop)]
struct Rows {
    demand: Demand,
    costs: Costs,
    capacity: Capacities,
}

fn rows_of(alloc: Global, demand: &[u8], costs: &[u8], capacity: &[u8]) -> Option<Rows> {
    let demand = read_demand(alloc, demand).ok()?;
    let costs = read_costs(alloc, costs, Limits::Tables).ok()?;
    let capacity = read_capacity(alloc, capacity).ok()?;
    Some(Rows {
        demand,
        costs,
        capacity,
    })
}

fn built(alloc: Global, settings: &[u8], rows: &Rows) -> Option<Instance> {
    let settings = read_settings(alloc, settings).ok()?;
    let (demand, costs, capacity) = (&rows.demand, &rows.costs, &rows.capacity);
    build(alloc, &settings, None, demand, costs, capacity).ok()
}

/// The instance of the texts, whose records stand in the settings.
pub(crate) fn instance_by(
    alloc: Global,
    settings: &[u8],
    demand: &[u8],
    costs: &[u8],
    capacity: &[u8],
) -> Option<Instance> {
    let rows = rows_of(alloc, demand, costs, capacity)?;
    built(alloc, settings, &rows)
}
