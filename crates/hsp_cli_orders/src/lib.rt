// The command lines of the programs: their commands with their options, built for clap, their words, and the orders
// that these give.
#![tactic(auto)]

mod commands;
mod fault;
mod order;
mod reading;
mod stream_order;
mod stream_reading;
mod tables;
mod words;

pub use commands::{hsplan_command, stream_command};
pub use fault::CommandFault;
pub use order::{InputFiles, Order, Word};
pub use reading::read_command;
pub use stream_order::{
    FaultsOf, FrontWords, PlaceFiles, PriceFiles, ServiceFiles, SiteFiles, StreamOrder,
};
pub use stream_reading::read_stream_command;
pub use words::split_words;
