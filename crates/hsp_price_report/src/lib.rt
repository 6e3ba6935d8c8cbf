// What a valid certificate by prices says of rows of demand of any number, as texts to read.
#![tactic(auto)]

mod kind;
pub mod laws;
mod loads;
mod regions;

pub use kind::PriceReportKind;
pub use loads::price_load_report;
pub use regions::price_region_report;
