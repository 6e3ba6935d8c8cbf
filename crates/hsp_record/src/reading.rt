// Readers of fields. Each takes its field from the front of the octets and lends the rest. Where a field is not wholly
// there, the reader returns how many octets are left from where the first such field begins. No reader takes memory.

ghost use Rattle.std.specs.Prelude.{◌≡◌, List, length};
ghost use Rattle.std.specs.Int.{w8, w16, w32, w64};
ghost use Rattle.hsp_text.specs.Answers.{Gives};
ghost use Rattle.hsp_record.specs.Reading.{number_at, octets_at, run_at, pair_at, interface_at};

use crate::fault::Stop;

/// One octet.
pub(crate) fn read_octet(bytes: &[u8]) -> Result<(u8, &[u8]), Stop>
    ensures { Gives (λ x. (x.0, x.1.now)) result (number_at w8 bytes.now) }
{
    match bytes.split_first() {
        Some((octet, rest)) => Ok((*octet, rest)),
        None => Err(Stop::Short(0)),
    }
}

/// An integer of 2 octets.
pub(crate) fn read_u16(bytes: &[u8]) -> Result<(u16, &[u8]), Stop>
    ensures { Gives (λ x. (x.0, x.1.now)) result (number_at w16 bytes.now) }
{
    match bytes.split_first_chunk() {
        Some((front, rest)) => Ok((u16::from_be_bytes(*front), rest)),
        None => Err(Stop::Short(bytes.len())),
    }
}

/// An integer of 4 octets.
pub(crate) fn read_u32(bytes: &[u8]) -> Result<(u32, &[u8]), Stop>
    ensures { Gives (λ x. (x.0, x.1.now)) result (number_at w32 bytes.now) }
{
    match bytes.split_first_chunk() {
        Some((front, rest)) => Ok((u32::from_be_bytes(*front), rest)),
        None => Err(Stop::Short(bytes.len())),
    }
}

/// An integer of 8 octets.
pub(crate) fn read_u64(bytes: &[u8]) -> Result<(u64, &[u8]), Stop>
    ensures { Gives (λ x. (x.0, x.1.now)) result (number_at w64 bytes.now) }
{
    match bytes.split_first_chunk() {
        Some((front, rest)) => Ok((u64::from_be_bytes(*front), rest)),
        None => Err(Stop::Short(bytes.len())),
    }
}

/// The two octets of a protocol version.
#[tactic(auto, unfolding(crate::specs::Reading::pair_at))]
pub(crate) fn read_pair(bytes: &[u8]) -> Result<((u8, u8), &[u8]), Stop>
    ensures { Gives (λ x. ((x.0.0, x.0.1), x.1.now)) result (pair_at bytes.now) }
{
    match bytes.split_first_chunk::<2>() {
        Some((front, rest)) => Ok(((front[0], front[1]), rest)),
        None => Err(Stop::Short(bytes.len())),
    }
}

/// The 16 octets of an address.
pub(crate) fn read_address(bytes: &[u8]) -> Result<([u8; 16], &[u8]), Stop>
    ensures { Gives (λ x. (x.0, x.1.now)) result (octets_at 16 bytes.now) }
{
    match bytes.split_first_chunk() {
        Some((front, rest)) => Ok((*front, rest)),
        None => Err(Stop::Short(bytes.len())),
    }
}

/// A length and that many octets.
#[tactic(auto, unfolding(crate::specs::Reading::run_at))]
pub(crate) fn read_run(bytes: &[u8]) -> Result<(&[u8], &[u8]), Stop>
    ensures { Gives (λ x. (x.0.now, x.1.now)) result (run_at bytes.now) }
{
    let (len, rest) = read_u32(bytes)?;
    let len = len as usize;
    if rest.len() < len {
        return Err(Stop::Short(rest.len()));
    }
    Ok(rest.split_at(len))
}
