// The instance that inputs define.

ghost use Rattle.std.specs.Prelude.{IfOk, option_map};
ghost use Rattle.hsp_inputs.specs.HeadlineLaws.{GivesTheDefinedAlways};
ghost use Rattle.hsp_inputs.specs.Headline.{Defines};
ghost use Rattle.hsp_inputs.specs.Instance.{BuildsInstance, IsInstanceOf, ReadsCapacitiesOn, ReadsCostsOn};
ghost use Rattle.hsp_inputs.specs.Instance.{ReadsValuesOn, ReadsDemandOn, ReadsCapacities, ReadsCosts, ReadsDemand};
ghost use Rattle.hsp_inputs.specs.Memory.{OrNoMemory};

use crate::fault::Fault;
use crate::headline_laws::instances_are_defined;
use crate::inputs::Inputs;
use crate::parts::named;
use crate::readings::{settings_in, values_in};
use hsp_instance::{Instance, build};
use hsp_record::ValueList;
use hsp_tables::{
    Capacities, Costs, Demand, Limits, Settings, read_capacity, read_costs, read_demand,
};
use std::alloc::Global;

// The demand that octets spell, or no rows where none are given.
fn demand_in(alloc: Global, octets: Option<&[u8]>) -> Result<Demand, Fault>
    ensures { OrNoMemory (ReadsDemand (option_map (λ o. o.now) octets.entry)) result }
{
    match octets {
        Some(octets) => named(read_demand(alloc, octets), Fault::Demand),
        None => Ok(Demand::none(alloc)?),
    }
}

/// The costs that octets spell within these limits.
///
/// # Errors
///
/// `Costs` with the first fault of the table, or `OutOfMemory`.
pub fn costs_in(alloc: Global, octets: &[u8], limits: Limits) -> Result<Costs, Fault>
    ensures { OrNoMemory (ReadsCosts limits octets.now) result }
{
    named(read_costs(alloc, octets, limits), Fault::Costs)
}

fn capacities_in(alloc: Global, octets: &[u8]) -> Result<Capacities, Fault>
    ensures { OrNoMemory (ReadsCapacities octets.now) result }
{
    named(read_capacity(alloc, octets), Fault::Capacity)
}

// Where the sites come from: the settings, and the value list that their sites' indices are of, where there is one.
#[derive(Clone, Copy)]
struct Sources<'s, 'v, 'l> {
    settings: &'s Settings,
    values: Option<&'v ValueList<'l>>,
}

// Builds the instance of what was read.
fn build_read(
    alloc: Global,
    sources: Sources<'_, '_, '_>,
    demand: &Demand,
    costs: &Costs,
    capacity: &Capacities,
) -> Result<Instance, Fault>
    ensures { OrNoMemory (BuildsInstance (record {
      settings = sources.entry.settings.now;
      values = option_map (λ v. v.now) sources.entry.values;
      demand = demand.now;
      costs = costs.now;
      capacities = capacity.now;
    })) result }
{
    let Sources { settings, values } = sources;
    let built = build(alloc, settings, values, demand, costs, capacity);
    named(built, Fault::Build)
}

// Reads the capacities, and builds the instance.
fn read_capacities_on(
    alloc: Global,
    inputs: &Inputs,
    sources: Sources<'_, '_, '_>,
    demand: &Demand,
    costs: &Costs,
) -> Result<Instance, Fault>
    ensures { OrNoMemory (ReadsCapacitiesOn inputs.now sources.entry.settings.now
        (option_map (λ v. v.now) sources.entry.values) demand.now costs.now) result }
{
    let capacity = capacities_in(alloc, &inputs.capacity)?;
    build_read(alloc, sources, demand, costs, &capacity)
}

// Reads the costs, the capacities after them, and builds the instance.
fn read_costs_on(
    alloc: Global,
    inputs: &Inputs,
    sources: Sources<'_, '_, '_>,
    demand: &Demand,
) -> Result<Instance, Fault>
    ensures { OrNoMemory (ReadsCostsOn inputs.now sources.entry.settings.now
        (option_map (λ v. v.now) sources.entry.values) demand.now) result }
{
    let costs = costs_in(alloc, &inputs.costs, inputs.limits())?;
    read_capacities_on(alloc, inputs, sources, demand, &costs)
}

// Reads the demand, the tables after it, and builds the instance.
fn read_demand_on(
    alloc: Global,
    inputs: &Inputs,
    settings: &Settings,
    values: Option<&ValueList<'_>>,
) -> Result<Instance, Fault>
    ensures { OrNoMemory (ReadsDemandOn inputs.now settings.now
        (option_map (λ v. v.now) values.entry)) result }
{
    let demand = demand_in(alloc, inputs.demand.as_deref())?;
    read_costs_on(alloc, inputs, Sources { settings, values }, &demand)
}

// Reads the values, the tables after them, and builds the instance.
fn read_values_on(alloc: Global, inputs: &Inputs, settings: &Settings) -> Result<Instance, Fault>
    ensures { OrNoMemory (ReadsValuesOn inputs.now settings.now) result }
{
    let values = values_in(alloc, inputs.values.as_deref())?;
    read_demand_on(alloc, inputs, settings, values.as_ref())
}

// Reads the inputs in their order, the settings first, and builds the instance.
fn read_in_turn(alloc: Global, inputs: &Inputs) -> Result<Instance, Fault>
    ensures { OrNoMemory (IsInstanceOf inputs.now) result }
{
    let settings = settings_in(alloc, &inputs.settings)?;
    read_values_on(alloc, inputs, &settings)
}

/// The instance that the inputs define.
///
/// # Errors
///
/// In this order: `Settings`, `Values`, `Demand`, `Costs`, `Capacity`, `Build`. Where the inputs define an instance the
/// only fault is that memory runs out.
pub fn instance_in(alloc: Global, inputs: &Inputs) -> Result<Instance, Fault>
    ensures instance { OrNoMemory (IsInstanceOf inputs.now) result }
    // The inputs define it, as the page of the headline states.
    ensures defines { IfOk result (λ instance. Defines inputs.now instance) }
    // Where they define an instance it is this one, or memory runs out.
    ensures always { GivesTheDefinedAlways inputs.now result }
{
    instances_are_defined();
    read_in_turn(alloc, inputs)
}
