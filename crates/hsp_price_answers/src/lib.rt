// The run that answers the rows of a log by a certificate by prices, for any handle and for as long as the log goes on.
#![tactic(auto)]

mod answerer;
mod asking;
mod dispatcher;
mod front_words;
mod fronts;
pub mod laws;
mod query_dispatcher;
mod row_refusal;
mod run;
mod speaking;
mod sums;

pub use front_words::FrontChoice;
pub use run::price_answer_run;
pub use sums::{PriceSums, price_sums_line};
