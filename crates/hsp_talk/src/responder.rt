// Who answers the rows of a talk.

ghost use Rattle.std.specs.Prelude.{◌≡◌, [], IfErr, List, OnOk, ℕ};
ghost use Rattle.hsp_talk.specs.Refusals.{IsRefusal};

use crate::stop::Refusal;

/// Who answers the rows of a talk. A responder may change with each row.
pub trait Responder {
    /// A fault by which a row is refused, and the talk stops.
    type Fault: Drop;

    /// A responder takes a row, is the next responder then, and gives this answer.
    ghost Takes: { Self → List ℕ → Self → List ℕ → Type 0 };

    /// A responder refuses a row, is the next responder then, and gives this fault.
    ghost Refuses: { Self → List ℕ → Self → Self.Fault → Type 0 };

    /// Takes a row, and writes its answer: any number of lines, also none.
    ///
    /// A row is a line without its line feed, and is never empty. A carriage return before the line feed belongs to the
    /// row. A longer line than [`LONGEST_ROW`](crate::LONGEST_ROW) comes cut to one octet more than that.
    ///
    /// # Errors
    ///
    /// `Fault` where the row is refused, `OutOfMemory` where memory runs out. What stands in `answer` then is never
    /// sent.
    fn take(&mut self, row: &[u8], answer: &mut Vec<u8>) -> Result<(), Refusal<Self::Fault>>
        requires { answer.old.items ≡ [] }
        ensures takes { OnOk result (Takes self.old row.now self.new answer.new.items) }
        ensures refuses { IfErr result (IsRefusal (Refuses self.old row.now self.new)) };
}
