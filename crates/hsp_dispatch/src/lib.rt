// The dispatcher: the queries of a log, answered by a plan. Each row's queries go to the sites in turn, as many to each
// site as the plan says. At a site they go to the server that is responsible for their handle.
#![tactic(auto)]

mod answer;
mod answering;
mod counts;
mod desk;
mod dispatcher;
mod entries;
mod events;
mod front_share;
mod fronts;
pub mod laws;
mod plan_cells;
mod reading;
mod row_cells;
mod run;
mod share;
mod sharing;

pub use answer::{Answer, FrontAnswer, FrontSums, LogSums};
pub use dispatcher::Dispatcher;
pub use fronts::Fronts;
pub use run::{run_fronts, run_log};
