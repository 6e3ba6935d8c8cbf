// Reading value lists. Types, data and references stay where they are.

ghost use Rattle.std.specs.Prelude.{◌≡◌, [], List, length};
ghost use Rattle.hsp_text.specs.Answers.{Gives};
ghost use Rattle.hsp_record.specs.Reading.{Finds, Reads, times_at, list_at, reference_at, body_at, values_at};
ghost use Rattle.hsp_record.specs.Reading.{value_list_at};

use crate::fault::{ReadError, Stop};
use crate::reading::{read_octet, read_run, read_u32, read_u64};
use crate::values::{References, Value, ValueList};
use std::alloc::Global;
use std::collections::BTreeSet;

// A reference to a value of another handle: that handle, and the value's index.
#[tactic(auto, unfolding(crate::specs::Reading::reference_at))]
fn read_reference(bytes: &[u8]) -> Result<((&[u8], u32), &[u8]), Stop>
    ensures { Gives (λ x. (record { handle = x.0.0.now; index = x.0.1 }, x.1.now)) result
        (reference_at bytes.now) }
{
    let (handle, rest) = read_run(bytes)?;
    let (index, rest) = read_u32(rest)?;
    Ok(((handle, index), rest))
}

// What follows that many references.
fn skip_references(count: u32, bytes: &[u8]) -> Result<&[u8], Stop>
    ensures { Finds (λ rest read. read.1 ≡ rest.now) result
        (times_at reference_at count bytes.now) }
{
    let mut rest = bytes;
    for _ in 0..count {
        let (_, after) = read_reference(rest)?;
        rest = after;
    }
    Ok(rest)
}

#[tactic(auto, unfolding(crate::specs::Reading::list_at))]
fn read_references(bytes: &[u8]) -> Result<(References<'_>, &[u8]), Stop>
    ensures { Gives (λ x. (x.0, x.1.now)) result (list_at reference_at bytes.now) }
{
    let (count, list) = read_u32(bytes)?;
    let after = skip_references(count, list)?;
    let (octets, rest) = list.split_at(list.len() - after.len());
    Ok((References { count, octets }, rest))
}

// The fields behind an index.
#[tactic(auto, unfolding(crate::specs::Reading::body_at))]
fn read_body(index: u32, bytes: &[u8]) -> Result<(Value<'_>, &[u8]), Stop>
    ensures { Gives (λ x. (x.0, x.1.now)) result (body_at index bytes.now) }
{
    let (type_octets, rest) = read_run(bytes)?;
    let (octets, rest) = read_run(rest)?;
    let (permission, rest) = read_octet(rest)?;
    let (ttl_kind, rest) = read_octet(rest)?;
    let (ttl, rest) = read_u32(rest)?;
    let (timestamp, rest) = read_u64(rest)?;
    let (references, rest) = read_references(rest)?;
    Ok((
        Value {
            index,
            type_octets,
            octets,
            permission,
            ttl_kind,
            ttl,
            timestamp,
            references,
        },
        rest,
    ))
}

fn read_values(
    alloc: Global,
    count: u32,
    bytes: &[u8],
) -> Result<(Vec<Value<'_>>, &[u8]), ReadError>
    ensures { Reads (λ x. (x.0.items, x.1.now)) result (values_at [] count bytes.now) }
{
    let mut values = Vec::new(alloc);
    let mut met = BTreeSet::new(alloc);
    let mut rest = bytes;
    for _ in 0..count {
        let (index, body) = read_u32(rest)?;
        if met.contains(&index) {
            return Err(ReadError::Stopped(Stop::Twice(index)));
        }
        let (value, after) = read_body(index, body)?;
        met.insert(index)?;
        values.push(value)?;
        rest = after;
    }
    Ok((values, rest))
}

#[tactic(auto, unfolding(crate::specs::Reading::value_list_at))]
pub(crate) fn read_value_list(
    alloc: Global,
    bytes: &[u8],
) -> Result<(ValueList<'_>, &[u8]), ReadError>
    ensures { Reads (λ x. (x.0, x.1.now)) result (value_list_at bytes.now) }
{
    let (count, rest) = read_u32(bytes)?;
    let (values, rest) = read_values(alloc, count, rest)?;
    Ok((ValueList { values }, rest))
}
