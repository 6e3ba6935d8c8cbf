// The digest of the hashed part of a handle.

ghost use Rattle.std.specs.Prelude.{◌≡◌, ◌≤◌, length, map, take};
ghost use Rattle.std.specs.Char.{to_ascii_uppercase};
ghost use Rattle.md5.specs.Md5.{md5};
ghost use Rattle.hsp_names.specs.Lent.{octets_of};
ghost use Rattle.hsp_hash.specs.Place.{hashed_part, digest};

use crate::option::HashOption;
use hsp_names::HandleRef;
use md5::{Digest, Md5};

// How many octets are put in upper case at a time: a block of MD5.
const BLOCK: usize = 64;

// The part of the handle that the option names.
fn hashed_part<'a>(option: HashOption, handle: HandleRef<'a>) -> &'a [u8]
    ensures { result.now ≡ hashed_part option (octets_of handle.entry) }
{
    match option {
        HashOption::ByNa => handle.naming_authority(),
        HashOption::ByLocal => handle.local_name(),
        HashOption::ByHandle => handle.bytes(),
    }
}

// Writes the octets in upper case over the first octets of the block.
fn set_upper(block: &mut [u8; BLOCK], octets: &[u8])
    requires { length octets.now ≤ 64 }
    ensures { take (length octets.now) block.new ≡ map to_ascii_uppercase octets.now }
{
    for (place, octet) in octets.iter().enumerate() {
        block[place] = octet.to_ascii_uppercase();
    }
}

// The MD5 of the octets in upper case.
fn upper_digest(octets: &[u8]) -> [u8; 16]
    ensures { result ≡ md5 (map to_ascii_uppercase octets.now) }
{
    let mut rest = octets;
    let mut block = [0u8; BLOCK];
    let mut hasher = Md5::new();
    'parts: while !rest.is_empty() {
        let count = rest.len().min(BLOCK);
        let (part, more) = rest.split_at(count);
        set_upper(&mut block, part);
        hasher.update(&block[..count]);
        rest = more;
    }
    hasher.finalize()
}

/// The MD5 (RFC 1321) of the part of the handle that the option names, with its ASCII letters in upper case.
///
/// ```
/// let digest = digest_of(HashOption::ByLocal, HandleRef::parse(b"10/1")?);
/// assert!(rt; digest == 0xc4ca4238a0b923820dcc509a6f75849bu128.to_be_bytes());
/// ```
pub fn digest_of(option: HashOption, handle: HandleRef<'_>) -> [u8; 16]
    ensures { result ≡ digest option (octets_of handle.entry) }
{
    upper_digest(hashed_part(option, handle))
}
