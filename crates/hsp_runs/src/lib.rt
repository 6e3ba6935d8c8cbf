// The runs behind the program: from the octets of its words and files to the octets that it prints, of verdicts and
// sums too, and to its status.
//
// Here is also what the octets of a certificate show of the instance that the page of the headline defines.
#![tactic(auto)]

mod accepted;
mod checking;
mod dispatch;
mod fronts;
pub mod laws;
mod locate;
mod plan;
mod report;
mod site;
mod site_lines;
mod sums_text;
mod verdict_text;

pub use accepted::{Accepted, accepted_in};
pub use checking::check_run;
pub use dispatch::dispatch_run;
pub use fronts::fronts_run;
pub use hsp_text::{first_line, read_file};
pub use locate::{Locate, locate_run};
pub use plan::{PlanText, plan_run};
pub use report::report_run;
pub use site::site_run;
pub use sums_text::sums_line;
pub use verdict_text::{verdict_line, verdict_status};
