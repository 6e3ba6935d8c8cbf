// What runs read from their inputs, and the faults that they report, in words and with the program's statuses.
//
// Here is also the page of the headline: in plain terms, the instance that the octets of five inputs define. Its laws
// say that the page is what inputs are read as: it defines the instance that they give, and nothing else.
#![tactic(auto)]

mod address;
mod counts;
mod fault;
mod fault_text;
mod fault_words;
pub mod headline_laws;
mod inputs;
mod instance;
mod parts;
mod price_reason;
mod readings;
mod stream_fault;
mod stream_fault_text;

pub use address::push_address;
pub use counts::read_count;
pub use fault::Fault;
pub use fault_text::{fault_line, fault_status, push_fault};
pub use fault_words::{handle_words, push_with, reason_word};
pub use inputs::Inputs;
pub use instance::{costs_in, instance_in};
pub use parts::{PartFault, named};
pub use price_reason::price_reason_word;
pub use readings::{certificate_in, settings_in, sites_from_settings, sites_in, values_in};
pub use stream_fault::StreamFault;
pub use stream_fault_text::{push_fault_words, stream_fault_line, stream_status};
