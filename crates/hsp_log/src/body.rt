// The bodies of resolution requests in the rows of a log.

ghost use Rattle.std.specs.Prelude.{◌≡◌, ◌≢◌, IfOk, MatchOption, Ok, ℕ, List};
ghost use Rattle.hex.specs.Hex.{decode_of};
ghost use Rattle.hsp_record.specs.Fields.{Means};
ghost use Rattle.hsp_record.specs.Request.{RequestBody, request_format};

use hex::{FromHexError, decode};
use hsp_record::{Request, decode_request};
use std::alloc::{AllocError, Global};

/// The octets that hexadecimal digits spell, in either case, or None where they spell none.
///
/// # Errors
///
/// An `AllocError` where memory runs out.
pub fn octets_in(alloc: Global, digits: &[u8]) -> Result<Option<Vec<u8>>, AllocError>
    ensures { IfOk result (λ octets. MatchOption octets
        ((other : List ℕ) → decode_of digits.now ≢ Ok other)
        (λ own. decode_of digits.now ≡ Ok own.items)) }
{
    match decode(alloc, digits) {
        Ok(octets) => Ok(Some(octets)),
        Err(FromHexError::OutOfMemory) => Err(AllocError),
        Err(_) => Ok(None),
    }
}

/// The request whose body the octets are, or None where they are no such body.
pub fn request_in(octets: &[u8]) -> Option<Request<'_>>
    ensures { MatchOption result
        ((body : RequestBody) → Means request_format octets.now (Ok body) → ⊥)
        (λ request. (body : RequestBody)
        × Means request_format octets.now (Ok body) × (request ≡ body.handle)) }
{
    match decode_request(octets) {
        Ok(request) => Some(request),
        Err(_) => None,
    }
}
