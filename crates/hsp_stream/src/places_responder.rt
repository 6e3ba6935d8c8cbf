// A responder that answers each handle of a log by its servers.

ghost use Rattle.std.specs.Prelude.{◌≡◌, [], IfErr, None, OnOk, Some, is_some};
ghost use Rattle.hsp_talk.specs.Refusals.{IsRefusal};
ghost use Rattle.hsp_stream.specs.Places.{RefusesHandle, TakesHandle, at_start};

use crate::handle_rows::{read_handle, read_header};
use crate::place_lines::push_sites;
use hsp_csv::RowReader;
use hsp_instance::Sites;
use hsp_log::{HandleForm, RowFault};
use hsp_talk::{Refusal, Responder};
use std::alloc::Global;
use std::marker::Model;

// The line that stands before all others.
const HEADER_LINE: &[u8] = b"handle,site,place,server_id\n";

/// A responder that answers each handle by a line for each site. The first row is the header of the log.
#[derive(Drop)]
pub(crate) struct PlacesResponder {
    alloc: Global,
    sites: Sites,
    reader: RowReader,
    form: Option<HandleForm>,
    rows: u64,
}

impl Model for PlacesResponder {
    ghost use Rattle.hsp_stream.specs.Places.{PlacesState};

    ghost Value = { PlacesState };

    ghost view = { λ d. record { sites = d.sites; form = d.form; rows = d.rows } };
}

impl PlacesResponder {
    /// A responder that has taken no row.
    pub(crate) fn new(alloc: Global, sites: Sites) -> PlacesResponder
        ensures { result ≡ at_start sites }
    {
        PlacesResponder {
            alloc,
            sites,
            reader: RowReader::new(alloc),
            form: None,
            rows: 0,
        }
    }

    /// Whether a header came.
    pub(crate) fn has_header(&self) -> bool
        ensures { result ≡ is_some self.now.form }
    {
        self.form.is_some()
    }

    // Takes a row before the header came.
    fn take_header(&mut self, row: &[u8], answer: &mut Vec<u8>) -> Result<(), Refusal<RowFault>>
        requires none { self.old.form ≡ None }
        requires empty { answer.old.items ≡ [] }
        ensures takes { OnOk result (TakesHandle self.old row.now self.new answer.new.items) }
        ensures refuses { IfErr result (IsRefusal (RefusesHandle self.old row.now self.new)) }
    {
        let form = read_header(self.alloc, &mut self.reader, row)?;
        if form.is_none() {
            return Ok(());
        }
        if answer.extend_from_slice(HEADER_LINE).is_err() {
            return Err(Refusal::OutOfMemory);
        }
        self.form = form;
        Ok(())
    }

    // Takes a row of a form.
    fn take_handle(
        &mut self,
        form: HandleForm,
        row: &[u8],
        answer: &mut Vec<u8>,
    ) -> Result<(), Refusal<RowFault>>
        requires form { self.old.form ≡ Some form }
        requires empty { answer.old.items ≡ [] }
        ensures takes { OnOk result (TakesHandle self.old row.now self.new answer.new.items) }
        ensures refuses { IfErr result (IsRefusal (RefusesHandle self.old row.now self.new)) }
    {
        let Some(handle) = read_handle(self.alloc, &mut self.reader, self.rows, form, row)? else {
            return Ok(());
        };
        if push_sites(answer, &self.sites, handle).is_err() {
            return Err(Refusal::OutOfMemory);
        }
        self.rows = self.rows.saturating_add(1);
        Ok(())
    }
}

impl Responder for PlacesResponder {
    type Fault = RowFault;

    ghost use Rattle.hsp_stream.specs.Places.{RefusesHandle, TakesHandle};

    ghost Takes = { TakesHandle };

    ghost Refuses = { RefusesHandle };

    fn take(&mut self, row: &[u8], answer: &mut Vec<u8>) -> Result<(), Refusal<RowFault>> {
        match self.form {
            None => self.take_header(row, answer),
            Some(form) => self.take_handle(form, row, answer),
        }
    }
}
