// Faults of records, by their places.

use crate::place::Place;

/// A fault that a record has.
#[derive(Drop)]
pub struct Found<F> {
    /// The number of the record's row, from 0 below the header, where the fault is of one row.
    pub row: Option<u64>,
    /// The number of the field at fault, where the fault is of one field.
    pub field: Option<u32>,
    /// Where that field begins or, where the fault is of no one field, the record.
    pub place: Place,
    /// Why it is refused.
    pub fault: F,
}

/// What a record is, among those of a text.
#[derive(Drop)]
pub enum Checked<F> {
    /// It has no fault.
    Good,
    /// It has a fault, and is left out.
    Faulty(Found<F>),
    /// It has a fault behind which no record is looked at.
    Last(Found<F>),
}
