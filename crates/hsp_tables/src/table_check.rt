// The rows of one of the three tables, looked at one after the other.

ghost use Rattle.std.specs.Prelude.{◌≡◌, IfOk, List, OnOk};
ghost use Rattle.csv.specs.Records.{fields_of};
ghost use Rattle.hsp_csv.specs.Header.{same_fields};
ghost use Rattle.hsp_csv.specs.Places.{Placed};
ghost use Rattle.hsp_csv.specs.Walks.{shown};
ghost use Rattle.hsp_tables.specs.TableChecks.{AreKept, IsChecked, faulty_from, faulty_at_start, header_of};

use crate::capacity::Capacities;
use crate::costs::LogCosts;
use crate::demand::Demand;
use crate::fault::TableFault;
use crate::faulty::Kept;
use csv::ByteRecord;
use hsp_csv::{Checked, PlacedRecord, is_header};
use std::alloc::{AllocError, Global};

/// One of the three tables. Costs are those beside a log.
#[derive(Clone, Copy)]
pub enum TableKind {
    Demand,
    Costs,
    Capacity,
}

/// Whether a record is the header of a table.
pub fn is_table_header(kind: TableKind, record: &ByteRecord) -> bool
    ensures { result ≡ same_fields (fields_of «record».now) (header_of kind) }
{
    match kind {
        TableKind::Demand => is_header(record, &[b"region", b"handle", b"count"]),
        TableKind::Costs => is_header(record, &[b"region", b"site", b"cost"]),
        TableKind::Capacity => is_header(record, &[b"site", b"server_id", b"capacity"]),
    }
}

// The rows without fault of one of the tables.
#[derive(Drop)]
enum Held {
    Demand(Kept<Demand>),
    Costs(Kept<LogCosts>),
    Capacity(Kept<Capacities>),
}

/// The rows without fault of a table whose records are looked at.
#[derive(Drop)]
pub struct TableCheck {
    held: Held,
}

impl TableCheck {
    /// No rows.
    pub fn new(alloc: Global, kind: TableKind) -> TableCheck
        ensures kept { AreKept result }
        ensures start { (more : List Placed) → faulty_from result more ≡ faulty_at_start kind more }
    {
        let held = match kind {
            TableKind::Demand => Held::Demand(Kept::new(alloc)),
            TableKind::Costs => Held::Costs(Kept::new(alloc)),
            TableKind::Capacity => Held::Capacity(Kept::new(alloc)),
        };
        TableCheck { held }
    }

    /// Looks at the next record below the header. Its row is kept where it has no fault.
    ///
    /// The order of faults is that of the table's reader. A row that is one too many is the last one that is looked at.
    ///
    /// # Errors
    ///
    /// An `AllocError` where memory runs out. Nothing is said of the rows that are kept then.
    pub fn check(
        &mut self,
        alloc: Global,
        placed: &PlacedRecord,
    ) -> Result<Checked<TableFault>, AllocError>
        requires { AreKept self.old }
        ensures kept { OnOk result (AreKept self.new) }
        ensures checked { IfOk result
            (λ checked. IsChecked self.old (shown placed.now) checked self.new) }
    {
        match &mut self.held {
            Held::Demand(kept) => kept.check(alloc, placed),
            Held::Costs(kept) => kept.check(alloc, placed),
            Held::Capacity(kept) => kept.check(alloc, placed),
        }
    }
}
