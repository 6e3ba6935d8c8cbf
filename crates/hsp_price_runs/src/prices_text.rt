// Certificates by prices as texts.

ghost use Rattle.std.specs.Prelude.{◌≡◌, ◌⊎◌, ◌<◌, IfErr, IfOk, length};
ghost use Rattle.hsp_text.specs.declared.limits.TheConstants.{LARGEST_FILE};
ghost use Rattle.hsp_price_text.specs.Certificate.{IsCertificate};
ghost use Rattle.hsp_price_text.specs.Text.{text_of};
ghost use Rattle.hsp_inputs.specs.declared.stream_fault.StreamFault.TheVariants.{OutOfMemory, TooLarge};
ghost use Rattle.hsp_price_runs.specs.PricesText.{IsTextOf};

use hsp_inputs::StreamFault;
use hsp_price_text::{PriceCertificate, write_prices};
use hsp_text::limits::LARGEST_FILE;
use std::alloc::Global;

/// The text of a certificate by prices.
#[derive(Debug, PartialEq, Eq, Drop)]
pub enum PricesText {
    /// That of a plan.
    Plan(Vec<u8>),
    /// That of a set of servers that is short.
    Shortage(Vec<u8>),
}

// A certificate is within its limits.
fn show_limits(certificate: &PriceCertificate)
    ensures { IsCertificate certificate.now }
{
    match certificate {
        PriceCertificate::Plan(plan) => {
            let _cost = plan.cost();
        }
        PriceCertificate::Shortage(short) => {
            let _servers = short.servers();
        }
    }
}

/// The text of a certificate.
///
/// # Errors
///
/// `TooLarge` where the text would have more than 67,108,864 octets. `OutOfMemory` where memory runs out.
pub(crate) fn text_of(
    alloc: Global,
    certificate: &PriceCertificate,
) -> Result<PricesText, StreamFault>
    ensures text { IfOk result (IsTextOf certificate.now) }
    ensures fault { IfErr result (λ fault. (fault ≡ OutOfMemory)
        ⊎ ((fault ≡ TooLarge) × IsCertificate certificate.now
        × (LARGEST_FILE < length (text_of certificate.now)))) }
{
    show_limits(certificate);
    let text = write_prices(alloc, certificate)?;
    if text.len() > LARGEST_FILE {
        return Err(StreamFault::TooLarge);
    }
    match certificate {
        PriceCertificate::Plan(_) => Ok(PricesText::Plan(text)),
        PriceCertificate::Shortage(_) => Ok(PricesText::Shortage(text)),
    }
}
