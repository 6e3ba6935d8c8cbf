// The octets of HS_SITE data, of value lists and of the bodies of resolution requests. Exactly the spellings are read;
// for all other octets the one fault that they have is returned.
#![tactic(auto)]

mod decoding;
mod fault;
pub mod laws;
mod reading;
mod request;
mod site;
mod site_decoding;
mod site_encoding;
mod values;
mod values_decoding;
mod values_encoding;
mod writing;

pub use decoding::{decode_request, decode_site, decode_values};
pub use fault::RecordFault;
pub use request::Request;
pub use site::{ServerRecord, SiteRecord};
pub use site_encoding::encode_site;
pub use values::{Value, ValueList};
pub use values_encoding::encode_values;
