// The planner: for every instance a valid certificate, which is a cheapest plan with prices or a short set of rows. The
// rows are the sources of a transportation network. The outcome is one that was proposed and accepted, or otherwise
// that of the searches.
#![tactic(auto)]

mod amounts;
mod arcs;
mod certify;
mod planning;
mod shortfall;

pub use arcs::ArcColumns;
pub use hsp_network::{Effort, Frontier, HeapFrontier, ScanFrontier, SearchEffort};
pub use planning::{solve, solve_counted, solve_proposed, solve_with};
pub use shortfall::flagged;
