// The checker: whether a certificate is valid for an instance, judged only by sums and comparisons.
#![tactic(auto)]

mod arc;
mod arc_flows;
mod building;
mod checking;
mod conditions;
mod indexing;
mod judging;
pub mod laws;
mod lists;
mod loads;
mod numbers;
mod plan_check;
mod planned;
mod prices;
mod reaching;
mod set_check;
mod shortage;
mod sums;
mod totals;
mod verdict;

pub use arc::NetworkArc;
pub use checking::check;
pub use conditions::{are_within, idle_are_free};
pub use loads::Loads;
pub use planned::planned_arcs;
pub use reaching::reached_servers;
pub use set_check::flags_of;
pub use shortage::{free_room, hosted_room, set_rooms};
pub use sums::{ArcFlow, add_hosts, worth_of};
pub use totals::{PlanSums, plan_sums};
pub use verdict::{Reason, Verdict};
