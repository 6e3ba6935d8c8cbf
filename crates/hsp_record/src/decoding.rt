// What all of the octets spell: a value, or the one fault that they have.

ghost use Rattle.std.specs.Prelude.{◌≡◌, ◌<◌, ◌≤◌, ◌-◌, List, [], length, Result, OnOk, IfErr};
ghost use Rattle.hsp_record.specs.Fields.{Means, Agrees};
ghost use Rattle.hsp_record.specs.Site.{Site, site_format};
ghost use Rattle.hsp_record.specs.Values.{HandleValue, values_format};
ghost use Rattle.hsp_record.specs.Request.{RequestBody, request_format, handle_of};
ghost use Rattle.hsp_text.specs.Answers.{GivesUnless};
ghost use Rattle.hsp_record.specs.Reading.{LeavesWithin, fault_of, answer_of, site_at, value_list_at, request_at};
ghost use Rattle.hsp_record.specs.declared.fault.RecordFault.{RecordFault};
ghost use Rattle.hsp_record.specs.declared.fault.RecordFault.TheVariants.{Trailing, OutOfMemory};

use crate::fault::{ReadError, RecordFault, Stop};
use crate::request::{Request, read_request};
use crate::site::SiteRecord;
use crate::site_decoding::read_site;
use crate::values::ValueList;
use crate::values_decoding::read_value_list;
use std::alloc::Global;

// The fault of an input of `len` octets, where reading failed with `e`.
fn fault_at(len: usize, e: ReadError) -> RecordFault
    requires { LeavesWithin len e }
    ensures { result ≡ fault_of len e }
{
    match e {
        ReadError::Memory => RecordFault::OutOfMemory,
        ReadError::Stopped(Stop::Short(left)) => RecordFault::Truncated { at: len - left },
        ReadError::Stopped(Stop::TooMany) => RecordFault::TooManyServers,
        ReadError::Stopped(Stop::Twice(index)) => RecordFault::IndexTwice { index },
    }
}

// Checks that none of the `len` octets is left.
fn check_end(len: usize, rest: &[u8]) -> Result<(), RecordFault>
    requires { length rest.now ≤ len }
    ensures ok { OnOk result (rest.now ≡ []) }
    ensures err { IfErr result
        (λ fault. (0 < length rest.now) × (fault ≡ Trailing (len - length rest.now))) }
{
    if rest.is_empty() {
        Ok(())
    } else {
        Err(RecordFault::Trailing {
            at: len - rest.len(),
        })
    }
}

// Reads a site, behind which nothing may follow.
fn site_answer(alloc: Global, octets: &[u8]) -> Result<SiteRecord, RecordFault>
    ensures { GivesUnless RecordFault.OutOfMemory (λ x. x) result
        (answer_of octets.now (site_at octets.now)) }
{
    match read_site(alloc, octets) {
        Ok((site, rest)) => {
            check_end(octets.len(), rest)?;
            Ok(site)
        }
        Err(e) => Err(fault_at(octets.len(), e)),
    }
}

/// Reads HS_SITE data (RFC 3651, section 3.2.2): the record that all of the octets spell.
///
/// ```
/// // A site that hashes local names, with one server: 7, at the address 0.0.0.1.
/// let octets = b"\0\x01\x02\0\0\x01\0\x01\0\0\0\0\0\0\0\0\0\0\0\x01\
///     \0\0\0\x07\0\0\0\0\0\0\0\0\0\0\0\0\0\0\0\x01\0\0\0\0\0\0\0\0";
/// let site = decode_site(alloc, octets)?;
/// assert!(rt; site.server_count() == 1 && site.server(0).id() == 7);
/// assert!(rt; decode_site(alloc, &octets[..47]).err() == Some(RecordFault::Truncated { at: 44 }));
/// ```
///
/// # Errors
///
/// Octets that spell no record have one fault: `Truncated` where they end inside a field, `TooManyServers` above 1,024
/// servers, before any server is read, or `Trailing` where more octets follow. `OutOfMemory` where memory runs out.
pub fn decode_site(alloc: Global, octets: &[u8]) -> Result<SiteRecord, RecordFault>
    // What is returned is true of the octets,
    ensures means { Means site_format octets.now result }
    // and whatever is true of them is returned, unless memory runs out.
    ensures only { (other : Result Site RecordFault) → Means site_format octets.now other
        → Agrees result other }
{
    site_answer(alloc, octets)
}

// Reads a list of values, behind which nothing may follow.
fn values_answer(alloc: Global, octets: &[u8]) -> Result<ValueList<'_>, RecordFault>
    ensures { GivesUnless RecordFault.OutOfMemory (λ x. x) result
        (answer_of octets.now (value_list_at octets.now)) }
{
    match read_value_list(alloc, octets) {
        Ok((values, rest)) => {
            check_end(octets.len(), rest)?;
            Ok(values)
        }
        Err(e) => Err(fault_at(octets.len(), e)),
    }
}

/// Reads a list of handle values (RFC 3651, section 3.1): the values that all of the octets spell. Their types and data
/// are lent from the octets.
///
/// ```
/// // One value of index 1 without data, with a reference to index 2 of 10/3.
/// let octets = b"\0\0\0\x01\0\0\0\x01\0\0\0\x07HS_SITE\0\0\0\0\x0e\x01\0\0\x0e\x10\0\0\0\0\x65\x53\xf1\0\
///     \0\0\0\x01\0\0\0\x0410/3\0\0\0\x02";
/// let list = decode_values(alloc, octets)?;
/// assert!(rt; list.find(1).is_some_and(|value| value.type_octets() == b"HS_SITE".as_slice()));
/// assert!(rt; list.find(2).is_none());
/// ```
///
/// # Errors
///
/// Octets that spell no list have one fault: `Truncated` where they end inside a field, `IndexTwice` at an index that
/// an earlier value has, before the rest of its value is read, or `Trailing` where more octets follow. `OutOfMemory`
/// where memory runs out.
pub fn decode_values(alloc: Global, octets: &[u8]) -> Result<ValueList<'_>, RecordFault>
    // What is returned is true of the octets,
    ensures means { Means values_format octets.now result }
    // and whatever is true of them is returned, unless memory runs out.
    ensures only { (other : Result (List HandleValue) RecordFault)
        → Means values_format octets.now other → Agrees result other }
{
    values_answer(alloc, octets)
}

// Reads a request, behind which nothing may follow.
fn request_answer(octets: &[u8]) -> Result<Request<'_>, RecordFault>
    ensures { result ≡ handle_of (answer_of octets.now (request_at octets.now)) }
{
    match read_request(octets) {
        Ok((request, rest)) => {
            check_end(octets.len(), rest)?;
            Ok(request)
        }
        Err(stop) => Err(fault_at(octets.len(), ReadError::Stopped(stop))),
    }
}

/// Reads the body of a resolution request (RFC 3652, section 3.2.1): the handle of the body that all of the octets
/// spell. It takes no memory.
///
/// ```
/// let body = b"\0\0\0\x0410/3\0\0\0\x01\0\0\0\x01\0\0\0\x01\0\0\0\x07HS_SITE";
/// assert!(rt; decode_request(body)?.handle() == b"10/3".as_slice());
/// assert!(rt; decode_request(&body[..30]).err() == Some(RecordFault::Truncated { at: 24 }));
/// ```
///
/// # Errors
///
/// Octets that spell no body have one fault: `Truncated` where they end inside a field, or `Trailing` where more octets
/// follow.
pub fn decode_request(octets: &[u8]) -> Result<Request<'_>, RecordFault>
    // What is returned is true of the octets,
    ensures means { (answer : Result RequestBody RecordFault)
        × Means request_format octets.now answer × (result ≡ handle_of answer) }
    // and whatever is true of them is returned.
    ensures only { (other : Result RequestBody RecordFault)
        → Means request_format octets.now other → Agrees result (handle_of other) }
    ensures memory { result ≡ Err OutOfMemory → ⊥ }
{
    request_answer(octets)
}
