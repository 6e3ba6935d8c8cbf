// The fields of a row.

ghost use Rattle.std.specs.Prelude.{◌≡◌};
ghost use Rattle.csv.specs.Reading.{strip_bom};
ghost use Rattle.csv.specs.Records.{fields_of};
ghost use Rattle.hsp_csv.specs.Row.{row_shown, shape_of_fields};

use csv::ByteRecord;

/// The octets of a byte order mark.
pub(crate) const BYTE_ORDER_MARK: &[u8] = b"\xEF\xBB\xBF";

/// The fields of a row, as far as a row has one or two of them.
#[derive(Clone, Copy)]
pub enum RowFields<'a> {
    /// No record.
    Blank,
    /// One record, of one field.
    One(&'a [u8]),
    /// One record, of two fields.
    Two(&'a [u8], &'a [u8]),
    /// Anything else: a record of more fields, or more than one record.
    Other,
}

/// The line without a byte order mark, the octets `EF BB BF`, at its start.
pub fn without_mark(line: &[u8]) -> &[u8]
    ensures { result.now ≡ strip_bom line.now }
{
    match line.strip_prefix(BYTE_ORDER_MARK) {
        Some(rest) => rest,
        None => line,
    }
}

// The fields of a record.
pub(crate) fn fields_of(record: &ByteRecord) -> RowFields<'_>
    ensures { row_shown result ≡ shape_of_fields (fields_of «record».now) }
{
    let Some(first) = record.get(0) else {
        return RowFields::Other;
    };
    let Some(second) = record.get(1) else {
        return RowFields::One(first);
    };
    match record.get(2) {
        None => RowFields::Two(first, second),
        Some(_) => RowFields::Other,
    }
}
