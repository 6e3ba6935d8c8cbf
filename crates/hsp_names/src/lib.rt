// Handles: the names that the Handle System resolves (RFC 3651, section 2).
#![tactic(auto)]

mod fault;
mod handle;
pub mod laws;
mod segments;

pub use fault::HandleFault;
pub use handle::HandleRef;
pub use segments::Segments;
