// The runs over the rows of a log by prices: the verdict on a certificate of a log of any length, its reports, and a
// plan of the rows, from the octets of the files to the text of its certificate.
#![tactic(auto)]

mod asked;
mod holder;
pub mod laws;
mod log_pass;
mod plan;
mod prices_text;
mod report;
mod run;
mod taking;
mod verdict_text;

pub use log_pass::pass_log;
pub use plan::price_plan_run;
pub use prices_text::PricesText;
pub use report::{PriceReport, price_report_run};
pub use run::price_check_run;
pub use taking::RowTaker;
pub use verdict_text::{price_verdict_line, price_verdict_status};
