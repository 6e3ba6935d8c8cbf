// A site whose record is a value, and octets that are owned.

use std::alloc::{AllocError, Global};

/// Settings of a site X whose record is the value of the index 1.
pub(crate) const BY_INDEX: &[u8] = b"[[site]]\nname = \"X\"\nindex = 1\n";

/// That value: a site of one server, 7.
pub(crate) const VALUES: &[u8] = b"\0\0\0\x01\0\0\0\x01\0\0\0\x07HS_SITE\0\0\0\x30\
\0\x01\x02\0\0\x01\0\x01\0\0\0\0\0\0\0\0\0\0\0\x01\0\0\0\x07\
\0\0\0\0\0\0\0\0\0\0\0\0\0\0\0\x01\0\0\0\0\0\0\0\0\
\0\0\0\0\0\0\0\0\0\0\0\0\0\0\0\0\0\0";

/// The octets, owned.
pub(crate) fn owned(alloc: Global, octets: &[u8]) -> Result<Vec<u8>, AllocError> {
    Vec::from_slice(alloc, octets)
}
