// What every other part reads and writes: whole files, lines, names and whole numbers in decimal digits. The limits are
// here too.
#![tactic(auto)]

mod input;
pub mod laws;
pub mod limits;
mod lines;
mod name;
mod output;
mod whole;
mod wide;
mod writing;

pub use input::{first_line, read_file};
pub use lines::next_line;
pub use name::is_name;
pub use output::{WriteFailed, put_all};
pub use whole::{WholeFault, push_digits, push_whole, read_whole};
pub use wide::push_wide;
pub use writing::{push_aligned, push_line, push_number};
