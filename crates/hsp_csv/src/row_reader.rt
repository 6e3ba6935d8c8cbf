// A reader of rows, each of which is one line.

ghost use Rattle.std.specs.Prelude.{◌≡◌, [], IfOk};
ghost use Rattle.csv.specs.Reading.{default_config, records};
ghost use Rattle.csv.specs.Records.{fields_of};
ghost use Rattle.hsp_csv.specs.Row.{IsCounted, row_of, row_shown};

use crate::counting::{RecordCount, count_records};
use crate::row_fields::{BYTE_ORDER_MARK, RowFields, fields_of};
use crate::splitting::{has_marks, split};
use csv::ByteRecord;
use std::alloc::{AllocError, Global};

/// A reader of rows, each of which is one line. It keeps the fields of a line with quotes.
#[derive(Drop)]
pub struct RowReader {
    text: Vec<u8>,
    first: ByteRecord,
}

impl RowReader {
    /// A reader that has read nothing yet.
    pub fn new(alloc: Global) -> RowReader
        ensures { fields_of result.first ≡ [] }
    {
        RowReader {
            text: Vec::new(alloc),
            first: ByteRecord::new(alloc),
        }
    }

    // Reads a line by the `csv` crate, which passes over a byte order mark at the start of a text: the text is one such
    // mark, and then the line.
    fn read_quoted(&mut self, alloc: Global, line: &[u8]) -> Result<RecordCount, AllocError>
        ensures { IfOk result (λ count.
            IsCounted (records default_config line.now) count (fields_of self.new.first)) }
    {
        self.text.clear();
        self.text.extend_from_slice(BYTE_ORDER_MARK)?;
        self.text.extend_from_slice(line)?;
        match count_records(alloc, &self.text, &mut self.first) {
            Ok(count) => Ok(count),
            Err(_) => Err(AllocError),
        }
    }

    /// The fields of a row.
    ///
    /// They are those of the records that the `csv` crate reads of the line with its defaults, and no octets at the
    /// line's start are passed over. A line feed or a carriage return ends a record, except between quotes.
    ///
    /// # Errors
    ///
    /// An `AllocError` where memory runs out. A line without quotes is not copied, and needs none.
    pub fn read<'a>(
        &'a mut self,
        alloc: Global,
        line: &'a [u8],
    ) -> Result<RowFields<'a>, AllocError>
        ensures { IfOk result (λ fields. row_shown fields ≡ row_of line.now) }
    {
        if !has_marks(line) {
            return Ok(split(line));
        }
        match self.read_quoted(alloc, line)? {
            RecordCount::None => Ok(RowFields::Blank),
            RecordCount::One => Ok(fields_of(&self.first)),
            RecordCount::More => Ok(RowFields::Other),
        }
    }
}
