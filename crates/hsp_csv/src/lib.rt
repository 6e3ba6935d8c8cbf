// Comma-separated values: the records of a text, one for each call, from any reader, and with the places where they and
// their fields begin; a row that is one line; a field that is written.
//
// The `csv` crate reads the records. Its own headers are off, a record may have any number of fields, and nothing is
// trimmed; all its other settings are at their defaults. The octets `EF BB BF` at the start of a text are passed over
// once.
#![tactic(auto)]

mod counting;
mod fault;
mod fields;
mod found;
mod header;
pub mod laws;
mod place;
mod placed;
mod places;
mod records;
mod row_fields;
mod row_reader;
mod scan;
mod splitting;
mod writing;

pub use fault::RecordsFault;
pub use fields::{three_fields, two_fields};
pub use found::{Checked, Found};
pub use header::{is_header, take_header};
pub use place::Place;
pub use placed::PlacedRecord;
pub use places::{PlacedReader, read_placed, take_placed};
pub use records::{read_records, take_record};
pub use row_fields::{RowFields, without_mark};
pub use row_reader::RowReader;
pub use writing::push_field;
