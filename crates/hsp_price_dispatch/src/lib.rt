// The dispatcher that answers a query for any handle by a certificate by prices: it goes where the region pays least,
// as long as the plan's amounts and the room of servers and hosts last. It holds servers, hosts and classes, and no
// rows.
#![tactic(auto)]

mod answer;
mod cells;
mod choosing;
mod dispatcher;
mod fault;
mod holding;
pub mod laws;
mod regions;
mod rooms;
mod seen_least;
mod starting;

pub use answer::PriceAnswer;
pub use dispatcher::PriceDispatcher;
pub use fault::StartFault;
