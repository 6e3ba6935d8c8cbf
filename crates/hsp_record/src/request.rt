// The bodies of resolution requests. Only the handle of a body is used.

ghost use Rattle.std.specs.Prelude.{◌≡◌};
ghost use Rattle.std.specs.Int.{w32};
ghost use Rattle.hsp_record.specs.Reading.{Finds, times_at, list_at, number_at, run_at, request_at};

use crate::fault::Stop;
use crate::reading::{read_run, read_u32};
use std::marker::Model;

/// A resolution request (RFC 3652, section 3.2.1), seen as the octets of its handle.
#[derive(Drop)]
pub struct Request<'a> {
    pub(crate) handle: &'a [u8],
}

impl<'a> Model for Request<'a> {
    ghost use Rattle.std.specs.Prelude.{ℕ, List};

    ghost Value = { List ℕ };

    ghost view = { λ r. r.handle.now };
}

impl<'a> Request<'a> {
    /// The octets of the requested handle, a slice of the body.
    pub fn handle(&self) -> &'a [u8]
        ensures { result.now ≡ self.now }
    {
        self.handle
    }
}

// What follows that many indices.
fn skip_indices(count: u32, bytes: &[u8]) -> Result<&[u8], Stop>
    ensures { Finds (λ rest read. read.1 ≡ rest.now) result
        (times_at (number_at w32) count bytes.now) }
{
    let mut rest = bytes;
    for _ in 0..count {
        let (_, after) = read_u32(rest)?;
        rest = after;
    }
    Ok(rest)
}

// What follows that many types.
fn skip_types(count: u32, bytes: &[u8]) -> Result<&[u8], Stop>
    ensures { Finds (λ rest read. read.1 ≡ rest.now) result (times_at run_at count bytes.now) }
{
    let mut rest = bytes;
    for _ in 0..count {
        let (_, after) = read_run(rest)?;
        rest = after;
    }
    Ok(rest)
}

#[tactic(auto, unfolding(crate::specs::Reading::request_at, crate::specs::Reading::list_at))]
pub(crate) fn read_request(bytes: &[u8]) -> Result<(Request<'_>, &[u8]), Stop>
    ensures { Finds (λ x read. (x.0 ≡ read.0.handle) × (read.1 ≡ x.1.now)) result
        (request_at bytes.now) }
{
    let (handle, rest) = read_run(bytes)?;
    let (index_count, rest) = read_u32(rest)?;
    let rest = skip_indices(index_count, rest)?;
    let (type_count, rest) = read_u32(rest)?;
    let rest = skip_types(type_count, rest)?;
    Ok((Request { handle }, rest))
}
