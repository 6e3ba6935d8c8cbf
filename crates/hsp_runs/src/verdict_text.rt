// Verdicts as the program prints them.

ghost use Rattle.std.specs.Prelude.{◌≡◌, ◌++◌, IfOk, OnOk};
ghost use Rattle.hsp_check.specs.Verdict.{number};
ghost use Rattle.hsp_runs.specs.VerdictText.{verdict_status, verdict_text, verdict_words};

use hsp_check::{Reason, Verdict};
use hsp_inputs::{push_with, reason_word};
use std::alloc::{AllocError, Global};

// The number of a reason, in the order in which reasons are looked for.
fn reason_number(reason: Reason) -> u64
    ensures { result ≡ number reason }
{
    match reason {
        Reason::Shape => 1,
        Reason::NoSuchUse => 2,
        Reason::RowSum => 3,
        Reason::Load => 4,
        Reason::Cost => 5,
        Reason::ArcPrice => 6,
        Reason::UsedArcPrice => 7,
        Reason::IdlePrice => 8,
        Reason::DemandSum => 9,
        Reason::CapacitySum => 10,
        Reason::NotShort => 11,
    }
}

fn push_verdict(out: &mut Vec<u8>, verdict: &Verdict) -> Result<(), AllocError>
    ensures { OnOk result (out.new.items ≡ out.old.items ++ verdict_words verdict.now) }
{
    match verdict {
        Verdict::Yes => out.extend_from_slice(b"yes"),
        Verdict::No(reason) => {
            push_with(out, b"no ", reason_number(*reason))?;
            out.extend_from_slice(b" ")?;
            out.extend_from_slice(reason_word(*reason))
        }
    }
}

/// The line that states a verdict: `yes`, or `no` with the reason's number and name, and LF.
///
/// # Errors
///
/// An `AllocError` where memory runs out.
pub fn verdict_line(alloc: Global, verdict: &Verdict) -> Result<Vec<u8>, AllocError>
    ensures { IfOk result (λ line. line.items ≡ verdict_text verdict.now) }
{
    let mut line = Vec::new(alloc);
    push_verdict(&mut line, verdict)?;
    line.extend_from_slice(b"\n")?;
    Ok(line)
}

/// The status that the program ends with after a verdict: 0 for yes, 3 for no.
pub fn verdict_status(verdict: &Verdict) -> u8
    ensures { result ≡ verdict_status verdict.now }
{
    match verdict {
        Verdict::Yes => 0,
        Verdict::No(_) => 3,
    }
}
