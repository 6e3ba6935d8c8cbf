// The text of a certificate by prices, which shows a plan of rows of any number or that there is none.
#![tactic(auto)]

mod certificate;
mod class;
mod draft;
pub mod laws;
mod lexing;
mod ranges;
mod reading;
mod stage;
mod writing;

pub use certificate::{PriceCertificate, PricedPlan, ShortServers};
pub use class::Class;
pub use reading::read_prices;
pub use writing::write_prices;
