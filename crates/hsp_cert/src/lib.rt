// Certificates, which show a plan or show that there is none, and their text.
#![tactic(auto)]

mod certificate;
mod draft;
mod fault;
mod item;
pub mod laws;
pub mod lexing;
pub mod ranges;
mod reading;
mod stage;
mod use_line;
mod writing;

pub use certificate::{BestRef, Certificate, ShortRef};
pub use fault::CertFault;
pub use reading::read_cert;
pub use use_line::UseLine;
pub use writing::write_cert;
