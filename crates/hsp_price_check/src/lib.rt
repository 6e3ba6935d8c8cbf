// The check of a certificate by prices in one pass over rows of demand of any number, which holds servers, regions and
// classes only. Also what passes over rows share: maps by a region and numbers, and rows that were seen.
#![tactic(auto)]

mod capacity;
mod checking;
mod class_costs;
mod extras;
mod fault;
mod finding;
mod keys;
mod kind_rows;
mod least;
mod numbers;
mod plan_pass;
mod plan_verdict;
mod regions;
mod seen;
mod set_pass;
mod sums;

pub use capacity::capacity_of_set;
pub use checking::{PriceCheck, classes_have_servers};
pub use class_costs::class_loads;
pub use extras::prices_with_hosts;
pub use fault::PassFault;
pub use finding::{class_numbers, find_class};
pub use keys::{KindKey, LentKind};
pub use kind_rows::{FirstNumbers, add_first};
pub use least::{fill_least, fill_servers};
pub use numbers::{ServiceNumbers, service_numbers};
pub use seen::SeenRows;
pub use set_pass::arcs_stay_within;
