// The place of the responsible server in the order of a site's server records.

ghost use Rattle.std.specs.Prelude.{◌≡◌, ◌<◌};
ghost use Rattle.hsp_names.specs.Lent.{octets_of};
ghost use Rattle.hsp_hash.specs.Place.{place_of_digest, server_place};

use crate::digest::digest_of;
use crate::option::HashOption;
use byteorder::{BigEndian, ByteOrder};
use hsp_names::HandleRef;

/// Reads the last 4 octets of a digest as a signed integer, with the most significant octet first, and returns its
/// absolute value modulo the number of servers.
pub fn number_of_digest(digest: &[u8; 16], servers: u32) -> u32
    requires { 0 < servers }
    ensures place { result ≡ place_of_digest digest.now servers }
    ensures within { result < servers }
{
    let number = BigEndian::read_i32(&digest[12..]);
    number.unsigned_abs() % servers
}

/// The place of the server that is responsible for the handle, counted from 0, among the server records of a site with
/// this hash option (RFC 3652, section 3.1.3).
///
/// ```
/// let handle = HandleRef::parse(b"10/a")?;
/// assert!(rt; server_number(HashOption::ByLocal, handle, 3) == 2);
/// assert!(rt; server_number(HashOption::ByLocal, handle, 7) == 1);
/// ```
pub fn server_number(option: HashOption, handle: HandleRef<'_>, servers: u32) -> u32
    requires { 0 < servers }
    ensures place { result ≡ server_place option (octets_of handle.entry) servers }
    ensures within { result < servers }
{
    let digest = digest_of(option, handle);
    number_of_digest(&digest, servers)
}
