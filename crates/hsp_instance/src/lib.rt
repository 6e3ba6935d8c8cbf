// An instance of the planning of loads: the rows of demand, the sites and their servers, the hosts, and the arcs by
// which the queries of a row may go to a site. Settings, values and tables define it.
#![tactic(auto)]

mod arc;
mod arc_building;
mod building;
mod checks;
mod columns;
mod fault;
mod instance;
pub mod laws;
mod region_costs;
mod row_arcs;
mod runs;
mod server_building;
mod site_reading;
mod sites;

pub use arc::Arc;
pub use building::build;
pub use columns::{capacities_of, counts_of, limits_of, server_hosts_of};
pub use fault::{BuildFault, Table};
pub use instance::Instance;
pub use row_arcs::RowArcs;
pub use runs::Runs;
pub use site_reading::{build_sites, site_octets};
pub use sites::Sites;
