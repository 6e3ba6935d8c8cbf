// The edge of the program for logs of any length: its words, the files behind their paths, tables and answers on
// standard output, and how it ends.
#![tactic(auto)]

mod answering;
mod checking;
mod commands;
mod faults;
mod files;
mod listing;
mod placing;
mod planning;
mod printing;
mod program;
mod reporting;
mod talking;
mod texts;

pub use commands::run_command;
pub use program::{Ended, HsplanStream};
