// Who answers the rows of a log.

ghost use Rattle.std.specs.Prelude.{◌≡◌, ◌≢◌, IfErr, IfNone, IfOk, IfSome, OnErr, ℕ, List, length};
ghost use Rattle.csv.specs.Records.{fields_of};
ghost use Rattle.hsp_instance.specs.Instance.{Instance};
ghost use Rattle.hsp_dispatch.specs.Lines.{IsAmong, line_by};
ghost use Rattle.hsp_log.specs.Lines.{lines_of};
ghost use Rattle.hsp_dispatch.specs.Steps.{BeginsWithNone, GoesOn, IsRefused, RowAnswers};
ghost use Rattle.hsp_log.specs.declared.fault.LogFault.{LogFault};
ghost use Rattle.hsp_log.specs.declared.form.Form.{Form};

use crate::answer::Given;
use csv::ByteRecord;
use hsp_instance::Instance;
use hsp_log::{Form, LogFault};
use std::alloc::Global;

/// The form of a log, and the number of one of its rows.
#[derive(Clone, Copy)]
pub(crate) struct Place {
    pub(crate) form: Form,
    pub(crate) row: u32,
}

/// Who answers the rows of a log: a dispatcher, or fronts that share a plan.
pub(crate) trait Desk: Drop {
    /// The instance whose queries are dispatched.
    ghost instance: { Self → Instance };

    /// The header of a log of each form.
    ghost header: { Form → List (List ℕ) };

    /// The rows are answered by these lines and counted in this way, from a desk as it was at first to a desk as it is
    /// then.
    ghost Answers: { Self → Self → RowAnswers };

    /// Why a row is refused.
    ghost Refuses: { Form → List (List ℕ) → LogFault → Type 0 };

    /// The form of a log, by its first record, or None where that is not a header.
    fn form_of(record: &ByteRecord) -> Option<Form>
        ensures header { IfSome result (λ form. fields_of «record».now ≡ header form) }
        ensures none { IfNone result ((form : Form) → fields_of «record».now ≢ header form) };

    /// The instance whose queries are dispatched.
    fn served(&self) -> &Instance
        ensures instance { result.now ≡ instance self.now }
        ensures begins { BeginsWithNone (Answers self.now self.now) };

    /// Answers a row: takes what it asks for from the plan, or refuses it and changes nothing.
    fn answer(
        &mut self,
        alloc: Global,
        record: &ByteRecord,
        place: Place,
    ) -> Result<Given, LogFault>
        ensures instance { instance self.new ≡ instance self.old }
        ensures among { IfOk result (IsAmong (length (instance self.old).servers)) }
        ensures answers { IfOk result (λ given. GoesOn instance Answers self.old self.new place.form
            (fields_of «record».now) (line_by (lines_of (instance self.old)) given) given) }
        ensures refuses { IfErr result
            (IsRefused Refuses place.row place.form (fields_of «record».now)) }
        ensures stays { OnErr result (self.new ≡ self.old) };
}
