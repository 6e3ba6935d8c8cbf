// Transportation networks with hosts: the problem, what may become of it, and the test that accepts an outcome
// (Ahuja, Magnanti and Orlin, Network Flows, chapter 9). Two solvers find outcomes.
//
// One proposes an outcome by the network simplex method (chapters 11 and 16). Nothing is claimed of what it proposes:
// `accepts` tests it. The other goes by successive shortest paths with node potentials (section 9.7). It finds a flow
// that meets every source at the least cost, with prices that show it, or a set of sources that is short. The order in
// which nodes wait only has to obey the law of a priority queue.
#![tactic(auto)]

mod accept;
mod accept_prices;
mod accept_set;
mod answer;
mod arcs;
mod augment;
mod candidates;
mod cycle;
mod expand;
mod first_prices;
mod first_tree;
mod frontier;
mod graph;
mod guide;
mod heap;
mod index;
mod initial_potentials;
mod lists;
mod network;
mod outcome;
mod pivot;
mod preorder;
mod pricing;
mod proposal;
mod push;
mod read_off;
mod regret;
mod relax;
mod residual;
mod scan;
mod search;
mod shortage;
mod solving;
mod star;
mod successive_paths;
mod sums;
mod tables;
mod tree;
mod update;
mod update_potentials;

pub use accept::{accepts, greatest};
pub use accept_set::{capacity_of_set, sum_flagged};
pub use arcs::SearchEffort;
pub use frontier::Frontier;
pub use heap::HeapFrontier;
pub use network::{Network, NetworkLists, Outcome, PricedFlow};
pub use outcome::{Effort, solve};
pub use proposal::{propose, propose_counted};
pub use scan::ScanFrontier;
pub use solving::minimum_cost_flow;
pub use tree::SimplexEffort;
