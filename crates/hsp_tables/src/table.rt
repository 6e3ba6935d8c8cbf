// Tables: rows under a header, each found by its key.

ghost use Rattle.std.specs.Prelude.{◌≡◌, ◌≢◌, ◌<◌, ◌≤◌, ◌^◌, ◌⊎◌, [], ◌∷◌, ℕ, Some, None, Ok, Err, length, map};
ghost use Rattle.std.specs.Prelude.{nat_lt, option_map, if◌then◌else◌, OnOk, IfErr};
ghost use Rattle.csv.specs.Records.{fields_of};
ghost use Rattle.std.specs.Str.{bytes_eq};
ghost use Rattle.indexmap.specs.IndexSet.{insert_key};
ghost use Rattle.hsp_csv.specs.Header.{names_in};
ghost use Rattle.hsp_csv.specs.Records.{Fields as Record, IsKnown, IsReading, records_left, records_of};
ghost use Rattle.hsp_text.specs.Answers.{GivesUnless};
ghost use Rattle.hsp_tables.specs.declared.fault.TableFault.TheVariants.{Fields, OutOfMemory};
ghost use Rattle.hsp_tables.specs.Fields.{lent};
ghost use Rattle.hsp_tables.specs.InTurn.{rows_after, with_row};
ghost use Rattle.hsp_tables.specs.Table.{Table, regions_of, row_after, row_at, seen_with, table_of};

use crate::fault::TableFault;
use crate::keyed::Regions;
use crate::text_hash::{KeyedRows, TextHash};
use csv::{ByteRecord, Reader};
use hsp_csv::{read_records, take_header, take_record, three_fields};
use std::alloc::Global;
use std::hash::Hash;

/// The fields of a record that has three.
pub(crate) type Three<'a> = (&'a [u8], &'a [u8], &'a [u8]);

/// A kind of table, whose rows are kept in a map by their keys, each with a number.
pub(crate) trait Kind {
    /// The key of a row.
    type Key: Eq + Hash + Drop;

    /// What a row says.
    ghost Entry: { Type 0 };

    /// What the row of a key and a number says.
    ghost entry: { Self.Key × ℕ → Entry };

    /// The kind of table.
    ghost table: { Table Entry };

    /// The limit of the rows.
    fn most_rows() -> u32
        ensures { result ≡ table.most_rows };

    /// The limit of the regions.
    fn most_regions() -> u32
        ensures { result ≡ table.most_regions };

    /// The key and the number of the row that three fields spell.
    fn row_of(alloc: Global, row: u32, fields: Three<'_>) -> Result<(Self::Key, u64), TableFault>
        ensures { GivesUnless OutOfMemory entry result (table.row_in row
            (fields.entry.0.now ∷ fields.entry.1.now ∷ fields.entry.2.now ∷ [])) };

    /// Whether the field of a number may have these octets.
    fn is_good(field: u32, octets: &[u8]) -> bool
        ensures { result ≡ table.is_good field octets.now };

    /// The region of the row of a key, where rows are of regions.
    fn region_of(key: &Self::Key) -> Option<&[u8]>
        ensures { (number : ℕ) → option_map (λ o. o.now) result
            ≡ (if table.has_regions then Some (table.region_of (entry (key.now, number)))
            else None) };

    /// A record of more fields or fewer spells no row.
    ghost of_three: { (row : ℕ) (fields : Record) → length fields ≢ 3
        → table.row_in row fields ≡ Err (Fields row) };

    /// Rows have one key where the keys by which they are kept are equal.
    ghost same: { (a b : Self.Key × ℕ) → table.same_key (entry a) (entry b) ≡ Self.Key.eq a.0 b.0 };
}

// Adds the region of the row of a key to those that were seen, where rows are of regions.
fn see_region<K: Kind>(alloc: Global, regions: &mut Regions, key: &K::Key) -> Result<(), TableFault>
    ensures ok { OnOk result ((number : ℕ) →
        regions.new ≡ seen_with K.table regions.old (K.entry (key.now, number))) }
    ensures err { IfErr result (λ e. e ≡ OutOfMemory) }
{
    match K::region_of(key) {
        Some(region) => Ok(regions.see(alloc, region)?),
        None => Ok(()),
    }
}

// Whether the region of the row of a key is one too many, where rows are of regions.
fn is_one_too_many<K: Kind>(regions: &Regions, key: &K::Key) -> bool
    requires { length regions.now ≤ K.table.most_regions }
    ensures { (number : ℕ) → result
        ≡ nat_lt K.table.most_regions
        (length (seen_with K.table regions.now (K.entry (key.now, number)))) }
{
    match K::region_of(key) {
        Some(region) => regions.len() == K::most_regions() as usize && !regions.has(region),
        None => false,
    }
}

// Adds the row of a further record, which has a number, to the rows and its region to the regions. Where the record
// has a fault, they stay as they are.
pub(crate) fn add_record<K: Kind>(
    alloc: Global,
    rows: &mut KeyedRows<K::Key>,
    regions: &mut Regions,
    row: u32,
    fields: &ByteRecord,
) -> Result<(), TableFault>
    requires regions { regions.old ≡ regions_of K.table (map K.entry rows.old.entries) }
    requires few { length regions.old ≤ K.table.most_regions }
    ensures ok { OnOk result (with_row (row_at K.table row)
        (map K.entry rows.old.entries) (fields_of fields.now) ≡ Ok (map K.entry rows.new.entries)) }
    ensures regions { OnOk result (
        regions.new ≡ regions_of K.table (map K.entry rows.new.entries)) }
    ensures few { OnOk result (length regions.new ≤ K.table.most_regions) }
    ensures numbered { OnOk result (length rows.new.entries < 2 ^ 32) }
    ensures err { IfErr result (λ e. (e ≡ OutOfMemory) ⊎ (with_row (row_at K.table row)
        (map K.entry rows.old.entries) (fields_of fields.now) ≡ Err e)) }
    ensures kept { IfErr result (λ e. (e ≡ OutOfMemory)
        ⊎ ((rows.new ≡ rows.old) × (regions.new ≡ regions.old))) }
{
    if rows.len() >= K::most_rows() as usize {
        return Err(TableFault::TooManyRows);
    }
    let Some(fields) = three_fields(fields) else {
        return Err(TableFault::Fields { row });
    };
    let (key, number) = K::row_of(alloc, row, fields)?;
    if rows.contains_key(&key) {
        return Err(TableFault::RowTwice { row });
    }
    if is_one_too_many::<K>(regions, &key) {
        return Err(TableFault::TooManyRegions);
    }
    see_region::<K>(alloc, regions, &key)?;
    rows.insert(key, number)?;
    Ok(())
}

// Adds the row of a further record of a table without faults, by the number of rows before it.
fn add_next<K: Kind>(
    alloc: Global,
    rows: &mut KeyedRows<K::Key>,
    regions: &mut Regions,
    fields: &ByteRecord,
) -> Result<(), TableFault>
    requires regions { regions.old ≡ regions_of K.table (map K.entry rows.old.entries) }
    requires few { length regions.old ≤ K.table.most_regions }
    requires numbered { length rows.old.entries < 2 ^ 32 }
    ensures ok { OnOk result (with_row (row_after K.table)
        (map K.entry rows.old.entries) (fields_of fields.now) ≡ Ok (map K.entry rows.new.entries)) }
    ensures regions { OnOk result (
        regions.new ≡ regions_of K.table (map K.entry rows.new.entries)) }
    ensures few { OnOk result (length regions.new ≤ K.table.most_regions) }
    ensures numbered { OnOk result (length rows.new.entries < 2 ^ 32) }
    ensures err { IfErr result (λ e. (e ≡ OutOfMemory) ⊎ (with_row (row_after K.table)
        (map K.entry rows.old.entries) (fields_of fields.now) ≡ Err e)) }
{
    let row = rows.len() as u32;
    add_record::<K>(alloc, rows, regions, row, fields)
}

// The rows that a reader has left, each found by its key, or their first fault.
fn rows_left<K: Kind>(
    alloc: Global,
    records: &mut Reader<&[u8]>,
    fields: &mut ByteRecord,
    hash: TextHash,
) -> Result<KeyedRows<K::Key>, TableFault>
    requires reading { IsReading records.old }
    requires known { IsKnown lent records.old }
    ensures { GivesUnless OutOfMemory (λ rows. map K.entry rows.entries) result (
        rows_after (row_after K.table) [] (records_left lent records.old)) }
{
    let mut rows = KeyedRows::with_hasher(alloc, hash);
    let mut regions = Regions::new(alloc);
    'rows: while take_record(records, fields)? {
        add_next::<K>(alloc, &mut rows, &mut regions, fields)?;
    }
    Ok(rows)
}

/// The rows of the table that a text of comma-separated values spells under a header, or its first fault.
pub(crate) fn read_table<K: Kind>(
    alloc: Global,
    text: &[u8],
    header: &[&[u8]],
) -> Result<KeyedRows<K::Key>, TableFault>
    requires { names_in header.now ≡ K.table.header }
    ensures { GivesUnless OutOfMemory (λ rows. map K.entry rows.entries) result (
        table_of K.table (records_of text.now)) }
{
    let mut records = read_records(alloc, text);
    let mut fields = ByteRecord::new(alloc);
    if !take_header(&mut records, &mut fields, header)? {
        return Err(TableFault::Header);
    }
    rows_left::<K>(alloc, &mut records, &mut fields, TextHash::of(text))
}
