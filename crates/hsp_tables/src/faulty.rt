// Every faulty row of a table.

ghost use Rattle.std.specs.Prelude.{◌≡◌, [], ◌∷◌, Err, IfOk, OnOk, Result, map};
ghost use Rattle.csv.specs.Records.{fields_of};
ghost use Rattle.hsp_csv.specs.Walks.{shown};
ghost use Rattle.hsp_tables.specs.Faulty.{checked_as, field_at_fault, first_bad, is_of_field, next_row, with_good};
ghost use Rattle.hsp_tables.specs.Kept.{IsKept};
ghost use Rattle.hsp_tables.specs.declared.fault.TableFault.{TableFault};
ghost use Rattle.hsp_tables.specs.Table.{row_at};

use crate::fault::TableFault;
use crate::keyed::Regions;
use crate::table::{Kind, Three, add_record};
use crate::text_hash::{KeyedRows, TextHash};
use csv::ByteRecord;
use hsp_csv::{Checked, Found, PlacedRecord, three_fields};
use std::alloc::{AllocError, Global};

// The rows without fault of a table whose records are looked at, and the number of the next record's row.
#[derive(Drop)]
pub(crate) struct Kept<K: Kind> {
    rows: KeyedRows<K::Key>,
    regions: Regions,
    row: u32,
}

// Whether a fault is of one field.
fn is_of_field(fault: TableFault) -> bool
    ensures { result ≡ is_of_field fault }
{
    matches!(
        fault,
        TableFault::BadName { .. } | TableFault::BadHandle { .. } | TableFault::BadNumber { .. }
    )
}

// The number of the first of three fields that is not as it should be.
fn first_of_three<K: Kind>(fields: Three<'_>) -> Option<u32>
    ensures { result ≡ first_bad K.table.is_good
        (fields.entry.0.now ∷ fields.entry.1.now ∷ fields.entry.2.now ∷ []) }
{
    let (first, second, third) = fields;
    if !K::is_good(0, first) {
        return Some(0);
    }
    if !K::is_good(1, second) {
        return Some(1);
    }
    if !K::is_good(2, third) {
        return Some(2);
    }
    None
}

// The number of the first field that is not as it should be, of a record of three.
#[tactic(auto, using(crate::proofs::FaultyRows::no_field))]
fn first_bad<K: Kind>(fields: &ByteRecord) -> Option<u32>
    ensures { result ≡ first_bad K.table.is_good (fields_of fields.now) }
{
    first_of_three::<K>(three_fields(fields)?)
}

// The number of the field at fault.
fn field_at_fault<K: Kind>(fault: TableFault, fields: &ByteRecord) -> Option<u32>
    ensures { result ≡ field_at_fault K.table fault (fields_of fields.now) }
{
    if is_of_field(fault) {
        first_bad::<K>(fields)
    } else {
        None
    }
}

// What a record is that has a fault.
#[tactic(auto, using(crate::proofs::FaultyRows::checked_faulty))]
fn faulty<K: Kind>(row: u32, placed: &PlacedRecord, fault: TableFault) -> Checked<TableFault>
    ensures { (earlier : Result K.Entry TableFault) → earlier ≡ Err fault
        → result ≡ checked_as K.table row (shown placed.now) earlier }
{
    if matches!(fault, TableFault::TooManyRows) {
        return Checked::Last(Found {
            row: None,
            field: None,
            place: placed.place_at(None),
            fault,
        });
    }
    let field = field_at_fault::<K>(fault, placed.fields());
    Checked::Faulty(Found {
        row: Some(u64::from(row)),
        field,
        place: placed.place_at(field),
        fault,
    })
}

impl<K: Kind> Kept<K> {
    /// No rows.
    pub(crate) fn new(alloc: Global) -> Kept<K>
        ensures rows { result.rows.entries ≡ [] }
        ensures row { result.row ≡ 0 }
        ensures whole { IsKept K.table [] result.regions }
    {
        Kept {
            rows: KeyedRows::with_hasher(alloc, TextHash::of(b"")),
            regions: Regions::new(alloc),
            row: 0,
        }
    }

    /// Looks at the next record, and keeps its row where it has no fault.
    pub(crate) fn check(
        &mut self,
        alloc: Global,
        placed: &PlacedRecord,
    ) -> Result<Checked<TableFault>, AllocError>
        requires { IsKept K.table (map K.entry self.old.rows.entries) self.old.regions }
        ensures checked { IfOk result
            (λ checked. checked ≡ checked_as K.table self.old.row (shown placed.now)
            (row_at K.table self.old.row (map K.entry self.old.rows.entries)
            (shown placed.now).fields)) }
        ensures rows { OnOk result (map K.entry self.new.rows.entries
            ≡ with_good (map K.entry self.old.rows.entries)
            (row_at K.table self.old.row (map K.entry self.old.rows.entries)
            (shown placed.now).fields)) }
        ensures row { OnOk result (self.new.row ≡ next_row self.old.row) }
        ensures whole { OnOk result
            (IsKept K.table (map K.entry self.new.rows.entries) self.new.regions) }
    {
        let row = self.row;
        self.row = row.saturating_add(1);
        match add_record::<K>(
            alloc,
            &mut self.rows,
            &mut self.regions,
            row,
            placed.fields(),
        ) {
            Ok(()) => Ok(Checked::Good),
            Err(fault) => match fault {
                TableFault::OutOfMemory => Err(AllocError),
                other => Ok(faulty::<K>(row, placed, other)),
            },
        }
    }
}
