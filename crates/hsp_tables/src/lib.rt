// The settings and the three tables of an instance, read from octets: the rows that they spell, or the first fault.
//
// The tables of demand, costs and capacities are comma-separated values, the settings are TOML.
#![tactic(auto)]

mod capacity;
mod costs;
mod demand;
mod fault;
mod faulty;
mod fields;
mod hosts;
mod keyed;
pub mod laws;
mod limits;
mod members;
mod settings;
mod sites;
mod table;
mod table_check;
mod text_hash;

pub use capacity::{Capacities, CapacityRow, read_capacity};
pub use costs::{CostRow, Costs, read_costs};
pub use demand::{Demand, DemandRow, read_demand};
pub use fault::TableFault;
pub use keyed::Regions;
pub use limits::Limits;
pub use settings::{Settings, read_settings};
pub use sites::Source;
pub use table_check::{TableCheck, TableKind, is_table_header};
