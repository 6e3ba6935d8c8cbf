// What a valid certificate says of an instance, as texts to read.
#![tactic(auto)]

mod columns;
mod kind;
pub mod laws;
mod loads;
mod naming;
mod regions;
mod shortages;

pub use columns::{Column, aligned, push_columns, push_difference};
pub use kind::ReportKind;
pub use loads::{LOAD_HEADER, load_report, push_server};
pub use regions::{REGION_HEADER, region_report};
pub use shortages::shortage_report;
