// Counts that are lowered one by one.

ghost use Rattle.std.specs.Prelude.{◌≡◌, ◌<◌, ◌-◌, IfOk, IfSome, Some, length, set, slice_get};
ghost use Rattle.hsp_dispatch.specs.Standings.{numbers_in};

use std::alloc::{AllocError, Global};
use std::marker::Model;

// Counts of one, two or four octets each.
#[derive(Drop)]
pub(crate) enum Widths {
    One(Vec<u8>),
    Two(Vec<u16>),
    Four(Vec<u32>),
}

/// A list of counts. Each takes one octet where all of them are below 256, and two where all are below 65,536.
#[derive(Drop)]
pub(crate) struct Counts {
    widths: Widths,
}

impl Model for Counts {
    ghost use Rattle.std.specs.Prelude.{ℕ, List};
    ghost use Rattle.hsp_dispatch.specs.Standings.{numbers_in};

    ghost Value = { List ℕ };

    ghost view = { λ counts. numbers_in counts.widths };
}

// The counts in one octet each, or None where one of them needs more.
fn in_one(alloc: Global, counts: &[u32]) -> Result<Option<Vec<u8>>, AllocError>
    ensures { IfOk result (λ ones. IfSome ones (λ own. own.items ≡ counts.now)) }
{
    let mut ones = Vec::with_capacity(alloc, counts.len())?;
    for count in counts {
        if *count > 255 {
            return Ok(None);
        }
        ones.push(*count as u8)?;
    }
    Ok(Some(ones))
}

// The counts in two octets each, or None where one of them needs more.
fn in_two(alloc: Global, counts: &[u32]) -> Result<Option<Vec<u16>>, AllocError>
    ensures { IfOk result (λ twos. IfSome twos (λ own. own.items ≡ counts.now)) }
{
    let mut twos = Vec::with_capacity(alloc, counts.len())?;
    for count in counts {
        if *count > 65_535 {
            return Ok(None);
        }
        twos.push(*count as u16)?;
    }
    Ok(Some(twos))
}

// The counts, in as few octets each as all of them fit in.
fn narrowed(alloc: Global, counts: Vec<u32>) -> Result<Widths, AllocError>
    ensures { IfOk result (λ widths. numbers_in widths ≡ counts.items) }
{
    if let Some(ones) = in_one(alloc, &counts)? {
        return Ok(Widths::One(ones));
    }
    if let Some(twos) = in_two(alloc, &counts)? {
        return Ok(Widths::Two(twos));
    }
    Ok(Widths::Four(counts))
}

impl Counts {
    /// The counts of a list.
    pub(crate) fn of(alloc: Global, counts: Vec<u32>) -> Result<Counts, AllocError>
        ensures { IfOk result (λ own. own ≡ counts.items) }
    {
        let widths = narrowed(alloc, counts)?;
        Ok(Counts { widths })
    }

    /// The count at a place.
    pub(crate) fn get(&self, place: usize) -> u32
        requires { place < length self.now }
        ensures { slice_get self.now place ≡ Some result }
    {
        match &self.widths {
            Widths::One(counts) => u32::from(counts[place]),
            Widths::Two(counts) => u32::from(counts[place]),
            Widths::Four(counts) => counts[place],
        }
    }

    /// Takes one from the count at a place, if it isn't 0, and returns the count before.
    pub(crate) fn take(&mut self, place: usize) -> u32
        requires { place < length self.old }
        ensures count { slice_get self.old place ≡ Some result }
        ensures rest { self.new ≡ set self.old place (result - 1) }
    {
        match &mut self.widths {
            Widths::One(counts) => {
                let count = counts[place];
                counts[place] = count.saturating_sub(1);
                u32::from(count)
            }
            Widths::Two(counts) => {
                let count = counts[place];
                counts[place] = count.saturating_sub(1);
                u32::from(count)
            }
            Widths::Four(counts) => {
                let count = counts[place];
                counts[place] = count.saturating_sub(1);
                count
            }
        }
    }
}
