// A certificate by prices for rows of demand of any number in memory, each with its servers.
//
// It goes by rounds. Of the arcs of each row some are kept, and rows that keep the same arcs are joined into groups.
// The groups are the sources of a network, which is solved. What becomes of it holds for all arcs, or more arcs are
// kept. Then its flow gives the certificate by prices and classes, or short groups give the servers that they reach.
//
// The first round begins with a guess of which arcs a plan needs. Nothing rests on it: rounds over all arcs keep those
// that it missed. A few thousand rows that stand for all, with all their arcs, give first prices. Samples grow fourfold
// from level to level. At each level of every row only the arcs are kept over which a query pays nearly least by the
// prices so far. Their network is solved, and arcs that are now better than those that are kept are kept too. The last
// level has all rows. At each level there is a server without limit, at a penalty, so that the network has a plan.
#![tactic(auto)]

mod classes;
mod columns;
mod cost;
mod entries;
mod fault;
mod group;
mod groups;
mod guess;
mod guess_network;
mod keeping;
pub mod laws;
mod levels;
mod lists;
mod network;
mod plan;
mod press;
mod progress;
mod region;
mod room;
mod rounds;
mod row_groups;
mod row_hash;
mod rows;
mod sample;
mod sampling;
mod shortage;
mod table;
mod terms;

pub use fault::PlanFault;
pub use group::RowGroup;
pub use guess::keep_guessed;
pub use network::{MOST_GROUPS, solve_groups};
pub use plan::plan_certificate;
pub use press::press_prices;
pub use progress::{Progress, Silent};
pub use rounds::plan_rows;
pub use row_groups::groups_of;
pub use rows::KeptRows;
pub use shortage::{servers_reached, short_certificate};
pub use table::GroupTable;
