// How far a plan is, in one line on a terminal.

ghost use Rattle.std.specs.Prelude.{◌≡◌, false};

use hsp_price_plan::Progress;
use std::io::{IsTerminal, Stderr};

/// A line of a terminal that is written anew each time something is shown, and taken away in the end. Where standard
/// error is no terminal, nothing is shown.
pub(crate) struct ProgressLine<'a> {
    errors: &'a Stderr,
    is_terminal: bool,
    is_shown: bool,
}

impl<'a> ProgressLine<'a> {
    /// The line on standard error, on which nothing is shown yet.
    pub(crate) fn new(errors: &'a Stderr) -> ProgressLine<'a>
        ensures blank { result.is_shown ≡ false }
    {
        ProgressLine {
            errors,
            is_terminal: errors.is_terminal(),
            is_shown: false,
        }
    }

    // Writes the line anew: a number, and what there are so many of.
    fn show(&mut self, number: u64, what: &str) {
        if self.is_terminal {
            self.is_shown = true;
            // A line that isn't written is no fault of the plan.
            let _ = self
                .errors
                .print(format_args!("\rhsplan-stream: {number} {what}\x1b[K"));
        }
    }
}

impl Progress for ProgressLine<'_> {
    fn rows_read(&mut self, rows: u64) {
        self.show(rows, "rows read");
    }

    fn level(&mut self, rows: u64) {
        self.show(rows, "rows in this step");
    }

    fn left(&mut self, arcs: u64) {
        self.show(arcs, "arcs added");
    }
}

impl Drop for ProgressLine<'_> {
    fn drop(self) {
        let ProgressLine {
            errors,
            is_terminal: _,
            is_shown,
        } = self;
        if is_shown {
            let _ = errors.print("\r\x1b[K");
        }
    }
}
