// What the rows of a log ask.

ghost use Rattle.std.specs.Prelude.{◌≡◌, ◌≢◌, ◌∷◌, [], IfErr, IfOk, MatchOption, None, OnErr, Option};
ghost use Rattle.hsp_csv.specs.Row.{row_shown};
ghost use Rattle.hsp_log.specs.Log.{header_of};
ghost use Rattle.hsp_log.specs.declared.form.Form.{Form};
ghost use Rattle.hsp_log.specs.declared.form.Form.TheVariants.{Bodies};
ghost use Rattle.hsp_names.specs.Handle.{handle_in};
ghost use Rattle.hsp_talk.specs.Refusals.{IsRefusal};
ghost use Rattle.hsp_price_answers.specs.Asking.{Asks, AsksByBody, AsksByField, AsksByFields, IsHeader, States};
ghost use Rattle.hsp_price_answers.specs.Asking.{asked_of, asked_with};

use crate::row_refusal::RowRefusal;
use hsp_csv::{RowFields, RowReader, without_mark};
use hsp_log::{Form, octets_in, request_in};
use hsp_names::HandleRef;
use hsp_talk::{LONGEST_ROW, Refusal};
use std::alloc::{AllocError, Global};

/// The first row that isn't blank is not a header.
#[derive(Drop)]
pub(crate) struct NoHeader;

/// What a row behind the header asks.
#[derive(Clone, Copy)]
pub(crate) enum AskedRow<'a> {
    /// Nothing: the row is blank.
    Nothing,
    /// Where a query for the handle goes, from the region.
    Query(&'a [u8], HandleRef<'a>),
    /// The row is refused.
    Refused(RowRefusal),
}

// The form of a log whose header has these two fields, or None where they are no header.
fn form_of(first: &[u8], second: &[u8]) -> Option<Form>
    ensures { MatchOption result
        ((form : Form) → first.now ∷ second.now ∷ [] ≢ header_of form)
        (λ form. first.now ∷ second.now ∷ [] ≡ header_of form) }
{
    if first != b"region".as_slice() {
        return None;
    }
    if second == b"handle".as_slice() {
        return Some(Form::Handles);
    }
    if second == b"body".as_slice() {
        return Some(Form::Bodies);
    }
    None
}

// The form that a row states as a header, or None where it is blank.
fn form_stated(fields: RowFields<'_>) -> Result<Option<Form>, NoHeader>
    ensures states { IfOk result (States (row_shown fields.entry)) }
    ensures none { OnErr result
        ((next : Option Form) → States (row_shown fields.entry) next → ⊥) }
{
    match fields {
        RowFields::Blank => Ok(None),
        RowFields::Two(first, second) => match form_of(first, second) {
            Some(form) => Ok(Some(form)),
            None => Err(NoHeader),
        },
        RowFields::One(_) | RowFields::Other => Err(NoHeader),
    }
}

// What a region asks with octets that may be a handle.
fn asked_with<'a>(region: &'a [u8], octets: &'a [u8]) -> AskedRow<'a>
    ensures { asked_of result ≡ asked_with region.now (handle_in octets.now) }
{
    match HandleRef::parse(octets) {
        Ok(handle) => AskedRow::Query(region, handle),
        Err(fault) => AskedRow::Refused(RowRefusal::BadHandle(fault)),
    }
}

// What a region asks with the octets of the body of a resolution request.
fn asked_by_body<'a>(region: &'a [u8], body: &'a [u8]) -> AskedRow<'a>
    ensures { AsksByBody region.now body.now (asked_of result) }
{
    match request_in(body) {
        Some(request) => asked_with(region, request.handle()),
        None => AskedRow::Refused(RowRefusal::BadBody),
    }
}

// What a region asks with the hexadecimal digits of a body, whose octets `body` keeps.
fn asked_by_digits<'a>(
    alloc: Global,
    body: &'a mut Vec<u8>,
    region: &'a [u8],
    digits: &[u8],
) -> Result<AskedRow<'a>, AllocError>
    ensures { IfOk result
        (λ asked. AsksByField Bodies region.now digits.now (asked_of asked)) }
{
    match octets_in(alloc, digits) {
        Ok(Some(octets)) => {
            *body = octets;
            Ok(asked_by_body(region, body))
        }
        Ok(None) => Ok(AskedRow::Refused(RowRefusal::BadBody)),
        Err(error) => Err(error),
    }
}

// What a row of two fields asks.
fn asked_by_field<'a>(
    alloc: Global,
    body: &'a mut Vec<u8>,
    form: Form,
    region: &'a [u8],
    field: &'a [u8],
) -> Result<AskedRow<'a>, AllocError>
    ensures { IfOk result (λ asked. AsksByField form region.now field.now (asked_of asked)) }
{
    match form {
        Form::Handles => Ok(asked_with(region, field)),
        Form::Bodies => asked_by_digits(alloc, body, region, field),
    }
}

// What a row asks by its fields.
fn asked_by_fields<'a>(
    alloc: Global,
    body: &'a mut Vec<u8>,
    form: Form,
    fields: RowFields<'a>,
) -> Result<AskedRow<'a>, AllocError>
    ensures { IfOk result
        (λ asked. AsksByFields form (row_shown fields.entry) (asked_of asked)) }
{
    match fields {
        RowFields::Blank => Ok(AskedRow::Nothing),
        RowFields::Two(region, field) => asked_by_field(alloc, body, form, region, field),
        RowFields::One(_) | RowFields::Other => Ok(AskedRow::Refused(RowRefusal::Fields)),
    }
}

/// Reads what rows ask. It keeps the fields of a row with quotes, and the octets of a body.
#[derive(Drop)]
pub(crate) struct RowAsker {
    reader: RowReader,
    body: Vec<u8>,
}

impl RowAsker {
    /// One that has read nothing yet, and keeps no octets.
    pub(crate) fn new(alloc: Global) -> RowAsker
        ensures { result.body.items ≡ [] }
    {
        RowAsker {
            reader: RowReader::new(alloc),
            body: Vec::new(alloc),
        }
    }

    /// Reads a row in front of the rows that are answered: the form of a header, or None where the row is blank.
    pub(crate) fn header(
        &mut self,
        alloc: Global,
        row: &[u8],
    ) -> Result<Option<Form>, Refusal<NoHeader>>
        ensures states { IfOk result (IsHeader row.now) }
        ensures none { IfErr result
            (IsRefusal (λ e. (next : Option Form) → IsHeader row.now next → ⊥)) }
    {
        let Ok(fields) = self.reader.read(alloc, without_mark(row)) else {
            return Err(Refusal::OutOfMemory);
        };
        match form_stated(fields) {
            Ok(form) => Ok(form),
            Err(fault) => Err(Refusal::Fault(fault)),
        }
    }

    /// Reads a row behind the header.
    pub(crate) fn ask<'a>(
        &'a mut self,
        alloc: Global,
        form: Form,
        row: &'a [u8],
    ) -> Result<AskedRow<'a>, AllocError>
        ensures { IfOk result (λ asked. Asks form row.now (asked_of asked)) }
    {
        if row.len() > LONGEST_ROW {
            return Ok(AskedRow::Refused(RowRefusal::TooLong));
        }
        match self.reader.read(alloc, row) {
            Ok(fields) => asked_by_fields(alloc, &mut self.body, form, fields),
            Err(error) => Err(error),
        }
    }
}
