// Fronts answer logs whose rows are events: an entry with the number of a front.

ghost use Rattle.std.specs.Prelude.{◌≡◌, ◌≢◌, IfNone, IfSome};
ghost use Rattle.csv.specs.Records.{fields_of};
ghost use Rattle.hsp_dispatch.specs.Desks.{AnswersEvents};
ghost use Rattle.hsp_log.specs.RowChecks.{RefusesEvent};
ghost use Rattle.hsp_log.specs.Log.{front_header};
ghost use Rattle.hsp_log.specs.declared.form.Form.{Form};

use crate::answer::Given;
use crate::answering::LentEntry;
use crate::desk::{Desk, Place};
use crate::fronts::Fronts;
use csv::ByteRecord;
use hsp_csv::three_fields;
use hsp_instance::Instance;
use hsp_log::{Form, LogFault, event_form};
use hsp_text::read_whole;
use std::alloc::Global;

impl<'a> Desk for Fronts<'a> {
    ghost instance = { λ held. held.instance };

    ghost header = { λ form. front_header };

    ghost Answers = { AnswersEvents };

    ghost Refuses = { RefusesEvent };

    fn form_of(record: &ByteRecord) -> Option<Form>
        ensures header { IfSome result (λ form. fields_of «record».now ≡ front_header) }
        ensures none { IfNone result ((form : Form) → fields_of «record».now ≢ front_header) }
    {
        event_form(record)
    }

    fn served(&self) -> &Instance {
        self.instance()
    }

    fn answer(
        &mut self,
        _alloc: Global,
        record: &ByteRecord,
        place: Place,
    ) -> Result<Given, LogFault> {
        let Some((front, region, handle)) = three_fields(record) else {
            return Err(LogFault::Fields { row: place.row });
        };
        let Ok(front) = read_whole(front, 4_294_967_295) else {
            return Err(LogFault::BadFront { row: place.row });
        };
        self.choose(front as u32, LentEntry { region, handle }, place.row)
    }
}
