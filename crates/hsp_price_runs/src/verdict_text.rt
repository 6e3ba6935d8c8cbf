// Verdicts on certificates by prices, as the program prints them.

ghost use Rattle.std.specs.Prelude.{◌≡◌, ◌++◌, IfOk, OnOk};
ghost use Rattle.hsp_prices.specs.Verdict.{number};
ghost use Rattle.hsp_price_runs.specs.PriceVerdictText.{verdict_status, verdict_text, verdict_words};

use hsp_inputs::price_reason_word;
use hsp_prices::{PriceReason, PriceVerdict};
use hsp_text::push_whole;
use std::alloc::{AllocError, Global};

// The number of a reason, in the order in which reasons are looked for.
fn reason_number(reason: PriceReason) -> u64
    ensures { result ≡ number reason }
{
    match reason {
        PriceReason::Shape => 1,
        PriceReason::NoSuchServer => 2,
        PriceReason::NotLeast => 3,
        PriceReason::NoClass => 4,
        PriceReason::ClassSum => 5,
        PriceReason::Load => 6,
        PriceReason::Cost => 7,
        PriceReason::IdlePrice => 8,
        PriceReason::DemandSum => 9,
        PriceReason::CapacitySum => 10,
        PriceReason::NotShort => 11,
    }
}

fn push_verdict(out: &mut Vec<u8>, verdict: PriceVerdict) -> Result<(), AllocError>
    ensures { OnOk result (out.new.items ≡ out.old.items ++ verdict_words verdict) }
{
    match verdict {
        PriceVerdict::Yes => out.extend_from_slice(b"yes"),
        PriceVerdict::No(reason) => {
            out.extend_from_slice(b"no ")?;
            push_whole(out, reason_number(reason))?;
            out.extend_from_slice(b" ")?;
            out.extend_from_slice(price_reason_word(reason))
        }
    }
}

/// The line that states a verdict: `yes`, or `no` with the reason's number and name, and LF.
///
/// # Errors
///
/// An `AllocError` where memory runs out.
pub fn price_verdict_line(alloc: Global, verdict: PriceVerdict) -> Result<Vec<u8>, AllocError>
    ensures { IfOk result (λ line. line.items ≡ verdict_text verdict) }
{
    let mut line = Vec::new(alloc);
    push_verdict(&mut line, verdict)?;
    line.extend_from_slice(b"\n")?;
    Ok(line)
}

/// The status that the program ends with after a verdict: 0 for yes, 3 for no.
pub fn price_verdict_status(verdict: PriceVerdict) -> u8
    ensures { result ≡ verdict_status verdict }
{
    match verdict {
        PriceVerdict::Yes => 0,
        PriceVerdict::No(_) => 3,
    }
}
