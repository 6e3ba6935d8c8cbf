// A talk by lines: rows are received one a line, and every answer is sent before the next read, which may wait for
// whoever asks.
#![tactic(auto)]

pub mod laws;
mod limits;
mod peer;
mod responder;
mod sink;
mod source;
mod stop;
mod talking;

pub use limits::LONGEST_ROW;
pub use peer::{Joined, Peer};
pub use responder::Responder;
pub use sink::Sink;
pub use source::Source;
pub use stop::{Failed, Refusal, Stop};
pub use talking::talk;
