// Logs: their headers, their rows and the queries in them, read from any source; why a run over one stops; what is a
// front's share of a number, and the line of a query that is assigned.
#![tactic(auto)]

mod body;
mod fault;
mod form;
mod front_share;
mod lines;
mod log_rows;
mod row_check;
mod row_faults;
mod watched;

pub use body::{octets_in, request_in};
pub use fault::{LogFault, RowFault};
pub use form::{
    CountForm, Form, HandleForm, LogForm, entry_form, event_form, is_count_header,
    is_handle_header, log_form,
};
pub use front_share::{Front, share_of_front};
pub use lines::ServerLines;
pub use log_rows::{LogRow, Parts, read_row, row_fields};
pub use row_check::{check_row, field_at_fault};
pub use row_faults::{count_fault, handle_fault};
pub use watched::{Watch, Watched, watch_records};
