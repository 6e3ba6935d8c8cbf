// A dispatcher answers logs whose rows are entries.

ghost use Rattle.std.specs.Prelude.{◌≡◌, ◌≢◌, IfErr, IfNone, IfOk, IfSome, Ok, OnErr, length};
ghost use Rattle.csv.specs.Records.{fields_of};
ghost use Rattle.hsp_names.specs.Handle.{handle_in};
ghost use Rattle.hsp_dispatch.specs.Desks.{AnswersEntries};
ghost use Rattle.hsp_log.specs.RowChecks.{RefusesEntry};
ghost use Rattle.hsp_dispatch.specs.Lines.{IsAmong};
ghost use Rattle.hsp_log.specs.Log.{header_of};
ghost use Rattle.hsp_dispatch.specs.Shares.{left_of};
ghost use Rattle.hsp_dispatch.specs.Steps.{Takes, entry_of};
ghost use Rattle.hsp_log.specs.declared.fault.LogFault.TheVariants.{BadHandle};
ghost use Rattle.hsp_log.specs.declared.form.Form.{Form};

use crate::answer::Given;
use crate::answering::{LentEntry, given_by, row_in};
use crate::desk::{Desk, Place};
use crate::dispatcher::Dispatcher;
use csv::ByteRecord;
use hsp_csv::two_fields;
use hsp_instance::Instance;
use hsp_log::{Form, LogFault, entry_form, octets_in, request_in};
use std::alloc::Global;

// Answers the entry in the row with this number, and takes what it is answered by from the plan.
fn choose(
    dispatcher: &mut Dispatcher<'_>,
    lent: LentEntry<'_>,
    number: u32,
) -> Result<Given, LogFault>
    ensures instance { dispatcher.new.instance ≡ dispatcher.old.instance }
    ensures among { IfOk result (IsAmong (length dispatcher.old.instance.servers)) }
    ensures takes { IfOk result (Takes dispatcher.old (entry_of lent.entry) dispatcher.new) }
    ensures fault { IfErr result (λ e. e ≡ BadHandle number) }
    ensures bad { OnErr result (handle_in lent.entry.handle.now ≢ Ok lent.entry.handle.now) }
    ensures stays { OnErr result (dispatcher.new ≡ dispatcher.old) }
{
    let Some(row) = row_in(dispatcher.instance(), lent, number)? else {
        return Ok(Given::Unknown);
    };
    Ok(given_by(dispatcher.take(row)))
}

impl<'a> Desk for Dispatcher<'a> {
    ghost instance = { λ held. held.instance };

    ghost header = { header_of };

    ghost Answers = { λ old new. AnswersEntries old.instance (left_of old) (left_of new) };

    ghost Refuses = { RefusesEntry };

    fn form_of(record: &ByteRecord) -> Option<Form>
        ensures header { IfSome result (λ form. fields_of «record».now ≡ header_of form) }
        ensures none { IfNone result ((form : Form) → fields_of «record».now ≢ header_of form) }
    {
        entry_form(record)
    }

    fn served(&self) -> &Instance {
        self.instance()
    }

    fn answer(
        &mut self,
        alloc: Global,
        record: &ByteRecord,
        place: Place,
    ) -> Result<Given, LogFault> {
        let Some((region, field)) = two_fields(record) else {
            return Err(LogFault::Fields { row: place.row });
        };
        match place.form {
            Form::Handles => {
                let handle = field;
                choose(self, LentEntry { region, handle }, place.row)
            }
            Form::Bodies => {
                let Some(octets) = octets_in(alloc, field)? else {
                    return Err(LogFault::BadBody { row: place.row });
                };
                let Some(request) = request_in(&octets) else {
                    return Err(LogFault::BadBody { row: place.row });
                };
                let handle = request.handle();
                choose(self, LentEntry { region, handle }, place.row)
            }
        }
    }
}
