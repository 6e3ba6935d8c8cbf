// The server that is responsible for a handle within a site: hash options, digests and places (RFC 3652, section
// 3.1.3).
#![tactic(auto)]

mod digest;
mod digests;
mod option;
mod place;

pub use digest::digest_of;
pub use digests::Digests;
pub use option::HashOption;
pub use place::{number_of_digest, server_number};
