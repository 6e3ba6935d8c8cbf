// Records with the places where they and their fields begin.

ghost use Rattle.std.specs.Prelude.{◌≡◌, ◌++◌, ◌∷◌, [], IfOk, OnOk};
ghost use Rattle.csv.specs.Records.{fields_of, partial_of};
ghost use Rattle.hsp_csv.specs.Found.{place_at};
ghost use Rattle.hsp_csv.specs.Places.{ends_record, first_line, fresh, place_of, walk_after, walk_at_end};
ghost use Rattle.hsp_csv.specs.Scan.{state_of};
ghost use Rattle.hsp_csv.specs.Walks.{shown, walk_of};

use crate::place::Place;
use crate::scan::{Move, Stand, step};
use csv::ByteRecord;
use std::alloc::{AllocError, Global};

/// A record, and where each of its fields begins.
#[derive(Drop)]
pub struct PlacedRecord {
    fields: ByteRecord,
    places: Vec<Place>,
}

impl PlacedRecord {
    /// A record without fields, into which others are read.
    pub fn new(alloc: Global) -> PlacedRecord
        ensures fields { (shown result).fields ≡ [] }
        ensures places { (shown result).places ≡ [] }
    {
        PlacedRecord {
            fields: ByteRecord::new(alloc),
            places: Vec::new(alloc),
        }
    }

    /// The fields.
    pub fn fields(&self) -> &ByteRecord
        ensures { fields_of result.now ≡ (shown self.now).fields }
    {
        &self.fields
    }

    // Where a field begins: at its quote, if it has one. Where there is no such field, it is the start of a text.
    fn place(&self, field: u32) -> Place
        ensures { result ≡ place_of (shown self.now) field }
    {
        match self.places.get(field as usize) {
            Some(place) => *place,
            None => Place::first_line(0),
        }
    }

    /// The octet at which a field begins, at its quote if it has one, or at which the record begins where there is no
    /// one field. The line is that in which the record begins.
    pub fn place_at(&self, field: Option<u32>) -> Place
        ensures { result ≡ place_at (shown self.now) field }
    {
        let begin = self.place(0);
        match field {
            Some(field) => Place {
                line: begin.line,
                ..self.place(field)
            },
            None => begin,
        }
    }
}

// A record that is being read.
#[derive(Drop)]
pub(crate) struct Walk {
    pub(crate) stand: Stand,
    pub(crate) at: Place,
    held: Place,
    field: Vec<u8>,
}

impl Walk {
    /// A walk at the start of a text, behind so many octets of a mark.
    pub(crate) fn new(alloc: Global, marked: u64) -> Walk
        ensures stand { result.stand ≡ Stand.StartRecord }
        ensures place { result.at ≡ first_line marked }
    {
        let at = Place::first_line(marked);
        Walk {
            stand: Stand::StartRecord,
            at,
            held: at,
            field: Vec::new(alloc),
        }
    }

    /// Begins a further record.
    pub(crate) fn begin(&mut self, placed: &mut PlacedRecord)
        ensures walk { walk_of self.new (shown placed.new)
            ≡ fresh (state_of self.old.stand) self.old.at }
        ensures partial { partial_of placed.new.fields ≡ [] }
    {
        placed.fields.clear();
        placed.places.clear();
        self.field.clear();
        self.held = self.at;
    }

    // Ends the field at hand.
    fn end_field(&mut self, placed: &mut PlacedRecord) -> Result<(), AllocError>
        requires { partial_of placed.old.fields ≡ [] }
        ensures stand { self.new.stand ≡ self.old.stand }
        ensures at { self.new.at ≡ self.old.at }
        ensures held { self.new.held ≡ self.old.held }
        ensures fields { OnOk result ((shown placed.new).fields
            ≡ (shown placed.old).fields ++ self.old.field.items ∷ []) }
        ensures places { OnOk result
            (placed.new.places.items ≡ placed.old.places.items ++ self.old.held ∷ []) }
        ensures field { OnOk result (self.new.field.items ≡ []) }
        ensures partial { OnOk result (partial_of placed.new.fields ≡ []) }
    {
        placed.fields.push_field(&self.field)?;
        placed.places.push(self.held)?;
        self.field.clear();
        Ok(())
    }

    /// Takes an octet, and returns whether it ends the record.
    pub(crate) fn take(&mut self, placed: &mut PlacedRecord, octet: u8) -> Result<bool, AllocError>
        requires { partial_of placed.old.fields ≡ [] }
        ensures walk { OnOk result (walk_of self.new (shown placed.new)
            ≡ walk_after (walk_of self.old (shown placed.old)) octet) }
        ensures ends { IfOk result
            (λ ended. ended ≡ ends_record (walk_of self.old (shown placed.old)) octet) }
        ensures partial { OnOk result (partial_of placed.new.fields ≡ []) }
    {
        if matches!(self.stand, Stand::StartRecord | Stand::AfterReturn) {
            self.held = self.at;
        }
        let (stand, does) = step(self.stand, octet);
        self.stand = stand;
        self.at = self.at.after(octet);
        match does {
            Move::Skip => Ok(false),
            Move::Copy => {
                self.field.push(octet)?;
                Ok(false)
            }
            Move::EndField => {
                self.end_field(placed)?;
                self.held = self.at;
                Ok(false)
            }
            Move::EndRecord => {
                self.end_field(placed)?;
                Ok(true)
            }
        }
    }

    /// Ends the record at the end of the text.
    pub(crate) fn end(&mut self, placed: &mut PlacedRecord) -> Result<(), AllocError>
        requires { partial_of placed.old.fields ≡ [] }
        ensures { OnOk result (walk_of self.new (shown placed.new)
            ≡ walk_at_end (walk_of self.old (shown placed.old))) }
    {
        self.end_field(placed)?;
        self.stand = Stand::StartRecord;
        Ok(())
    }
}
