// How many rows were answered by each kind of answer by prices.

ghost use Rattle.std.specs.Prelude.{◌≡◌, ◌++◌, IfOk, OnOk, decimal};
ghost use Rattle.hsp_price_answers.specs.Lines.{price_sums_text};
ghost use Rattle.hsp_price_answers.specs.Sums.{no_sums, with_answer, with_refused};

use hsp_price_dispatch::PriceAnswer;
use hsp_text::push_whole;
use std::alloc::{AllocError, Global};

/// How many rows were answered by each kind of answer. Each sum stops at 2^64 - 1.
#[derive(Clone, Copy, Debug, PartialEq, Eq)]
pub struct PriceSums {
    pub assigned: u64,
    pub diverted: u64,
    pub full: u64,
    pub unknown: u64,
    pub refused: u64,
}

impl PriceSums {
    /// The sums of no answers.
    pub(crate) fn none() -> PriceSums
        ensures { result ≡ no_sums }
    {
        PriceSums {
            assigned: 0,
            diverted: 0,
            full: 0,
            unknown: 0,
            refused: 0,
        }
    }

    /// Counts one more answer.
    pub(crate) fn count(&mut self, answer: PriceAnswer)
        ensures { self.new ≡ with_answer self.old answer }
    {
        match answer {
            PriceAnswer::Assigned(_) => self.assigned = self.assigned.saturating_add(1),
            PriceAnswer::Diverted(_) => self.diverted = self.diverted.saturating_add(1),
            PriceAnswer::Full => self.full = self.full.saturating_add(1),
            PriceAnswer::Unknown => self.unknown = self.unknown.saturating_add(1),
        }
    }

    /// The same sums with a number of refused rows.
    pub(crate) fn with_refused(self, refused: u64) -> PriceSums
        ensures { result ≡ with_refused self refused }
    {
        PriceSums { refused, ..self }
    }
}

// Appends a text and the digits of a number.
fn push_with(out: &mut Vec<u8>, text: &[u8], number: u64) -> Result<(), AllocError>
    ensures { OnOk result (out.new.items ≡ out.old.items ++ (text.now ++ decimal number)) }
{
    out.extend_from_slice(text)?;
    push_whole(out, number)
}

/// The line that says how many rows of a log were answered by each kind of answer:
/// `assigned 3 diverted 1 full 0 unknown 1 refused 0`, say, and LF.
///
/// # Errors
///
/// An `AllocError` where memory runs out.
pub fn price_sums_line(alloc: Global, sums: &PriceSums) -> Result<Vec<u8>, AllocError>
    ensures { IfOk result (λ line. line.items ≡ price_sums_text sums.now) }
{
    let mut line = Vec::new(alloc);
    push_with(&mut line, b"assigned ", sums.assigned)?;
    push_with(&mut line, b" diverted ", sums.diverted)?;
    push_with(&mut line, b" full ", sums.full)?;
    push_with(&mut line, b" unknown ", sums.unknown)?;
    push_with(&mut line, b" refused ", sums.refused)?;
    line.extend_from_slice(b"\n")?;
    Ok(line)
}
