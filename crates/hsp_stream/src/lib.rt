// Places of handles, and a list of every faulty row of a table or a log: the number of its row, its line, the field at
// fault and where that begins, and the fault in the words of the runs that refuse it. Also the service interfaces of a
// service's servers, as a table.
#![tactic(auto)]

mod checker;
mod faulty_rows;
mod handle_rows;
mod interface_records;
mod interface_rows;
mod interfaces;
mod lines;
mod place_lines;
mod places;
pub mod places_laws;
mod places_responder;
mod regions;

pub use checker::Asked;
pub use faulty_rows::{FaultsStop, faults_run};
pub use interfaces::interfaces_run;
pub use places::places_run;
