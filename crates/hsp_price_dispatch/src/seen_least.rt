// The least arcs of rows that were seen, so that no handle is hashed again.

ghost use Rattle.std.specs.Prelude.{◌≡◌, ◌++◌, ◌∷◌, [], IfNone, IfOk, IfSome, None, OnErr, OnOk, Some, true};
ghost use Rattle.hsp_price_check.specs.Seen.{is_left_out};
ghost use Rattle.hsp_price_dispatch.specs.SeenLeast.{least_seen, lent_least, with_least};

use hsp_instance::Arc;
use hsp_price_check::SeenRows;
use std::alloc::{AllocError, Global};
use std::marker::Model;

// The limits of `SeenRows`: the greatest number of rows, and the greatest length of a region and a handle together.
const MOST_SEEN: usize = 65_536;

const LONGEST_SEEN: usize = 256;

/// The least arcs of a row, and the number of their class, if they have one. The arcs are lent.
#[derive(Clone, Copy)]
pub(crate) struct LentLeast<'a> {
    pub(crate) arcs: &'a [Arc],
    pub(crate) class: Option<u32>,
}

// The same, in a list of its own.
#[derive(Drop)]
struct OwnLeast {
    arcs: Vec<Arc>,
    class: Option<u32>,
}

impl Model for OwnLeast {
    ghost use Rattle.hsp_price_dispatch.specs.Choosing.{Least};

    ghost Value = { Least };

    ghost view = { λ l. record { arcs = l.arcs.items; class = l.class } };
}

impl OwnLeast {
    fn new(alloc: Global, least: LentLeast<'_>) -> Result<OwnLeast, AllocError>
        ensures { IfOk result (λ own. own ≡ lent_least least.entry) }
    {
        Ok(OwnLeast {
            arcs: Vec::from_slice(alloc, least.arcs)?,
            class: least.class,
        })
    }

    fn lend(&self) -> LentLeast<'_>
        ensures { lent_least result ≡ self.now }
    {
        LentLeast {
            arcs: &self.arcs,
            class: self.class,
        }
    }
}

/// The least arcs of rows that were seen, by region and handle.
///
/// There are at most 65,536 rows, whose names have at most 256 octets each. Once it is full it stays as it is.
#[derive(Drop)]
pub(crate) struct SeenLeast {
    rows: SeenRows,
    lists: Vec<OwnLeast>,
}

impl Model for SeenLeast {
    ghost use Rattle.std.specs.Prelude.{◌≡◌, length};
    ghost use Rattle.hsp_price_dispatch.specs.SeenLeast.{SeenLists};

    ghost Value = { SeenLists };

    ghost view = { λ s. record { rows = s.rows; lists = s.lists.items } };

    ghost invariant = { λ s. length s.rows ≡ length s.lists.items };
}

impl SeenLeast {
    /// No row was seen.
    pub(crate) fn new(alloc: Global) -> SeenLeast
        ensures { result ≡ record { rows = []; lists = [] } }
    {
        SeenLeast {
            rows: SeenRows::new(),
            lists: Vec::new(alloc),
        }
    }

    /// What was put in for a region and a handle, or None where nothing was.
    pub(crate) fn find(&self, region: &[u8], handle: &[u8]) -> Option<LentLeast<'_>>
        ensures found { IfSome result
            (λ least. least_seen self.now region.now handle.now ≡ Some (lent_least least)) }
        ensures none { IfNone result (least_seen self.now region.now handle.now ≡ None) }
    {
        let number = self.rows.find(region, handle)?;
        let own = self.lists.get(number as usize)?;
        Some(own.lend())
    }

    // Whether there are rows enough, or the names are too long to be kept.
    fn is_past(&self, region: &[u8], handle: &[u8]) -> bool
        ensures { result ≡ true → is_left_out self.now.rows region.now handle.now ≡ true }
    {
        self.rows.len() >= MOST_SEEN || region.len().saturating_add(handle.len()) > LONGEST_SEEN
    }

    /// Puts in the least arcs of a region and a handle. They are left out where there are rows enough, where the names
    /// are too long, and where the row has such arcs. Where memory runs out nothing changes.
    pub(crate) fn remember(
        &mut self,
        alloc: Global,
        region: &[u8],
        handle: &[u8],
        least: LentLeast<'_>,
    ) -> Result<(), AllocError>
        ensures put { OnOk result
            (self.new
            ≡ with_least self.old region.now handle.now (lent_least least.entry)) }
        ensures kept { OnErr result (self.new ≡ self.old) }
    {
        if self.is_past(region, handle) {
            return Ok(());
        }
        let number = self.rows.len();
        let own = OwnLeast::new(alloc, least)?;
        self.lists.reserve(1)?;
        self.rows.remember(alloc, region, handle, number as u32)?;
        if self.rows.len() > number {
            self.lists.push(own)?;
        }
        Ok(())
    }
}
