// Reading a certificate by prices from its text, line by line.

ghost use Rattle.std.specs.Prelude.{Result};
ghost use Rattle.hsp_cert.specs.declared.fault.CertFault.{CertFault};
ghost use Rattle.hsp_price_text.specs.declared.certificate.PriceCertificate.{PriceCertificate};
ghost use Rattle.hsp_cert.specs.Language.{Agrees};
ghost use Rattle.hsp_price_text.specs.Reading.{Means};

use crate::certificate::PriceCertificate;
use crate::draft::Draft;
use hsp_cert::CertFault;
use hsp_text::next_line;
use std::alloc::Global;

// Reads line by line up to the end line, behind which nothing may follow.
fn read_lines(alloc: Global, text: &[u8]) -> Result<PriceCertificate, CertFault>
    ensures { Means text.now result }
{
    let mut draft = Draft::new(alloc);
    let mut rest = text;
    let mut lines: u64 = 0;
    'lines: while !draft.has_ended() {
        let Some((line, after)) = next_line(rest) else {
            return Err(CertFault::Ended);
        };
        lines += 1;
        let Ok(taken) = draft.take(alloc, line) else {
            return Err(CertFault::OutOfMemory);
        };
        if !taken {
            return Err(CertFault::BadLine { line: lines });
        }
        rest = after;
    }
    if !rest.is_empty() {
        return Err(CertFault::AfterEnd { line: lines + 1 });
    }
    Ok(draft.finished())
}

/// The certificate that the text spells.
///
/// ```
/// let text = b"HSPLAN PRICES 1\nSHORT\nserver 1\nserver 3\ndemand 9\ncapacity 8\nEND\n";
/// let certificate = read_prices(alloc, text)?;
/// assert!(rt; matches!(&certificate, PriceCertificate::Shortage(_)));
/// assert!(rt; write_prices(alloc, &certificate)?.as_slice() == text.as_slice());
/// ```
///
/// # Errors
///
/// A text that spells no certificate has one fault: `BadLine` at the first line that can't stand in its place, `Ended`
/// where it ends before the line `END` and its LF, or `AfterEnd` where something follows them. `OutOfMemory` where
/// memory runs out.
pub fn read_prices(alloc: Global, text: &[u8]) -> Result<PriceCertificate, CertFault>
    // What is returned is true of the text,
    ensures means { Means text.now result }
    // and whatever is true of it is returned, unless memory runs out.
    ensures only { (other : Result PriceCertificate CertFault) → Means text.now other
        → Agrees result other }
{
    read_lines(alloc, text)
}
