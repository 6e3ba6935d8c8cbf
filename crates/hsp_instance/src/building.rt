// The instance of settings, values, demand, costs and capacities.

ghost use Rattle.std.specs.Prelude.{◌≡◌, List, Option, option_map};
ghost use Rattle.hsp_record.specs.Values.{HandleValue};
ghost use Rattle.hsp_instance.specs.declared.fault.BuildFault.TheVariants.{OutOfMemory};
ghost use Rattle.hsp_text.specs.Answers.{GivesUnless, Stands};
ghost use Rattle.hsp_instance.specs.Building.{IsBuilt, instance_with};

use crate::arc_building::arcs_of;
use crate::checks::{check_capacities, check_costs};
use crate::fault::BuildFault;
use crate::instance::Instance;
use crate::server_building::{hosts_of, servers_of};
use crate::site_reading::build_sites;
use crate::sites::Sites;
use hsp_record::ValueList;
use hsp_tables::{Capacities, Costs, Demand, Settings};
use std::alloc::Global;

// The three tables that an instance is built from.
#[derive(Clone, Copy)]
struct Tables<'a> {
    demand: &'a Demand,
    costs: &'a Costs,
    capacity: &'a Capacities,
}

// The instance whose sites these are.
fn instance_with(
    alloc: Global,
    sites: Sites,
    settings: &Settings,
    tables: Tables<'_>,
) -> Result<Instance, BuildFault>
    ensures { (values : Option (List HandleValue)) → GivesUnless OutOfMemory (λ x. x) result
        (instance_with (record {
          settings = settings.now;
          values = values;
          demand = tables.entry.demand.now;
          costs = tables.entry.costs.now;
          capacities = tables.entry.capacity.now;
        }) sites) }
{
    let list = sites.sites.as_slice();
    check_costs(list, tables.costs)?;
    check_capacities(list, tables.capacity)?;
    let hosts = hosts_of(alloc, settings)?;
    let servers = servers_of(alloc, list, tables.capacity, hosts.as_slice())?;
    let arcs = arcs_of(alloc, tables.demand, list, tables.costs)?;
    let demand = tables.demand.clone()?;
    Ok(Instance {
        demand,
        sites,
        servers,
        hosts,
        arcs,
    })
}

/// The instance of settings, the value list that they may refer to, demand, costs and capacities.
///
/// ```
/// // The texts are those of a worked service, in `hsp_test_support::service`.
/// let settings = read_settings(alloc, SETTINGS)?;
/// let demand = read_demand(alloc, DEMAND)?;
/// let costs = read_costs(alloc, COSTS, Limits::Tables)?;
/// let capacity = read_capacity(alloc, CAPACITY)?;
/// let instance = build(alloc, &settings, None, &demand, &costs, &capacity)?;
/// assert!(rt; instance.rows() == 3 && instance.servers() == 5);
/// ```
///
/// # Errors
///
/// The first in this order: the faults of the sites, as [`build_sites`] has them; then, row by row, `UnknownSite` of
/// the costs; then, row by row, `UnknownSite` and `UnknownServer` of the capacities; then, by site and place,
/// `NoCapacity`. `OutOfMemory` where memory runs out.
pub fn build(
    alloc: Global,
    settings: &Settings,
    values: Option<&ValueList<'_>>,
    demand: &Demand,
    costs: &Costs,
    capacity: &Capacities,
) -> Result<Instance, BuildFault>
    ensures { Stands OutOfMemory (λ x. x) (IsBuilt (record {
      settings = settings.now;
      values = option_map (λ v. v.now) values.entry;
      demand = demand.now;
      costs = costs.now;
      capacities = capacity.now;
    })) result }
{
    let sites = build_sites(alloc, settings, values)?;
    let tables = Tables {
        demand,
        costs,
        capacity,
    };
    instance_with(alloc, sites, settings, tables)
}
