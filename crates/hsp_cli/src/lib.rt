// The edge of the program: its words, the files behind their paths, answers and the lines of logs on standard output,
// and how it ends. Words, files, outputs and how a program ends serve both programs.
#![tactic(auto)]

mod answer;
mod commands;
mod dispatch;
mod ending;
mod failure;
mod files;
mod inputs;
mod output;
mod program;
mod words;

pub use answer::{Answer, Completed, Ended};
pub use commands::run_command;
pub use ending::{last_line, status_at_end};
pub use failure::{Failure, Unread};
pub use files::{FileSource, OpenFile, read_path};
pub use inputs::read_named;
pub use output::Output;
pub use program::{Hsplan, Program};
pub use words::take_words;
