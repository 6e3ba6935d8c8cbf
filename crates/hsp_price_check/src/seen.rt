// Rows that were seen, each with a number.

ghost use Rattle.std.specs.Prelude.{◌≡◌, ◌<◌, ◌≤◌, ◌++◌, ◌∷◌, [], IfOk, None, OnErr, OnOk, false, length, option_map};
ghost use Rattle.std.specs.List.{AllByRecursion, find};
ghost use Rattle.hsp_price_check.specs.Seen.{IsShort, is_left_out, number_of, of_row, put_in};

use hsp_pair_map::PairMap;
use std::alloc::{AllocError, Global};
use std::marker::Model;

/// The greatest number of rows that are kept.
const MOST_SEEN: usize = 65_536;

/// The greatest length of a region and a handle together that are kept, in octets.
const LONGEST_SEEN: usize = 256;

// How many buckets rows are found by: two for each of the greatest number of rows.
const BUCKETS: u32 = 131_072;

// The names of rows, and the number of each row. No row stands twice.
#[derive(Drop)]
struct SeenTable {
    pairs: PairMap,
    numbers: Vec<u32>,
}

impl Model for SeenTable {
    ghost use Rattle.std.specs.Prelude.{◌≡◌, List, length};
    ghost use Rattle.hsp_price_check.specs.Seen.{Seen};
    ghost use Rattle.hsp_price_check.specs.SeenPairs.{AreApart, seen_in};

    ghost Value = { List Seen };

    ghost view = { λ t. seen_in t.pairs t.numbers.items };

    ghost invariant = { λ t. (length t.pairs ≡ length t.numbers.items) × AreApart t.pairs };
}

impl SeenTable {
    fn new(alloc: Global) -> Result<SeenTable, AllocError>
        ensures { IfOk result (λ table. table ≡ []) }
    {
        Ok(SeenTable {
            pairs: PairMap::new(alloc, BUCKETS)?,
            numbers: Vec::new(alloc),
        })
    }

    // The number of a row, if it was added.
    fn find(&self, region: &[u8], handle: &[u8]) -> Option<u32>
        ensures { result ≡ option_map number_of (find (of_row region.now handle.now) self.now) }
    {
        let place = self.pairs.find(region, handle)?;
        Some(self.numbers[place as usize])
    }

    // Adds a row that was not added before.
    fn push(&mut self, region: &[u8], handle: &[u8], number: u32) -> Result<(), AllocError>
        requires few { length self.old < MOST_SEEN }
        requires new { find (of_row region.now handle.now) self.old ≡ None }
        ensures added { OnOk result (self.new
            ≡ self.old
            ++ record { region = region.now; handle = handle.now; number = number } ∷ []) }
        ensures kept { OnErr result (self.new ≡ self.old) }
    {
        self.numbers.reserve(1)?;
        self.pairs.push(region, handle)?;
        self.numbers.push(number)?;
        Ok(())
    }
}

/// Rows that were seen, by region and handle, each with a number.
///
/// There are at most 65,536 rows, whose names have at most 256 octets each, and 16,777,216 together. Once it is full it
/// stays as it is.
#[derive(Drop)]
pub struct SeenRows {
    table: Option<SeenTable>,
}

impl Model for SeenRows {
    ghost use Rattle.std.specs.Prelude.{◌≤◌, List, length};
    ghost use Rattle.std.specs.List.{AllByRecursion};
    ghost use Rattle.hsp_price_check.specs.Seen.{IsShort, Seen};
    ghost use Rattle.hsp_price_check.specs.SeenPairs.{rows_in};
    ghost use Rattle.hsp_price_check.specs.declared.seen.TheConstants.{MOST_SEEN};

    ghost Value = { List Seen };

    ghost view = { λ s. rows_in s.table };

    ghost invariant = { λ s. (length (rows_in s.table) ≤ MOST_SEEN)
        × AllByRecursion IsShort (rows_in s.table) };
}

impl SeenRows {
    /// No rows.
    pub fn new() -> SeenRows
        ensures { result ≡ [] }
    {
        SeenRows { table: None }
    }

    /// How many rows there are.
    pub fn len(&self) -> usize
        ensures count { result ≡ length self.now }
        ensures few { length self.now ≤ MOST_SEEN }
        ensures short { AllByRecursion IsShort self.now }
    {
        match &self.table {
            Some(table) => table.numbers.len(),
            None => 0,
        }
    }

    /// The number that was put in for a region and a handle, or None where there is none.
    pub fn find(&self, region: &[u8], handle: &[u8]) -> Option<u32>
        ensures { result ≡ option_map number_of (find (of_row region.now handle.now) self.now) }
    {
        match &self.table {
            Some(table) => table.find(region, handle),
            None => None,
        }
    }

    // Whether a row is left out.
    fn leaves_out(&self, region: &[u8], handle: &[u8]) -> bool
        ensures { result ≡ is_left_out self.now region.now handle.now }
    {
        self.len() >= MOST_SEEN
            || region.len().saturating_add(handle.len()) > LONGEST_SEEN
            || self.find(region, handle).is_some()
    }

    // Adds a row that is not left out.
    fn push(
        &mut self,
        alloc: Global,
        region: &[u8],
        handle: &[u8],
        number: u32,
    ) -> Result<(), AllocError>
        requires { is_left_out self.old region.now handle.now ≡ false }
        ensures added { OnOk result (self.new
            ≡ self.old
            ++ record { region = region.now; handle = handle.now; number = number } ∷ []) }
        ensures kept { OnErr result (self.new ≡ self.old) }
    {
        match &mut self.table {
            Some(table) => table.push(region, handle, number),
            None => {
                let mut table = SeenTable::new(alloc)?;
                table.push(region, handle, number)?;
                self.table = Some(table);
                Ok(())
            }
        }
    }

    /// Puts in a number for a region and a handle. It is left out where there are rows enough, where the row is too
    /// long, and where the row has a number.
    ///
    /// # Errors
    ///
    /// An `AllocError` where memory runs out. Then nothing changes.
    pub fn remember(
        &mut self,
        alloc: Global,
        region: &[u8],
        handle: &[u8],
        number: u32,
    ) -> Result<(), AllocError>
        ensures put { OnOk result (self.new ≡ put_in self.old
            (record { region = region.now; handle = handle.now; number = number })) }
        ensures err { OnErr result (self.new ≡ self.old) }
    {
        if self.leaves_out(region, handle) {
            return Ok(());
        }
        self.push(alloc, region, handle, number)
    }
}
