// Reading a certificate from its text, line by line.

ghost use Rattle.std.specs.Prelude.{IfOk, Result};
ghost use Rattle.hsp_cert.specs.declared.fault.CertFault.{CertFault};
ghost use Rattle.hsp_cert.specs.Certificate.{Claim};
ghost use Rattle.hsp_cert.specs.Drafts.{Took};
ghost use Rattle.hsp_cert.specs.Steps.{step_line};
ghost use Rattle.hsp_cert.specs.Language.{Agrees};
ghost use Rattle.hsp_cert.specs.Reading.{Means};

use crate::certificate::Certificate;
use crate::draft::{Draft, take};
use crate::fault::CertFault;
use crate::lexing::item_of;
use hsp_text::next_line;
use std::alloc::{AllocError, Global};

// Adds a line to the draft, where it can stand.
fn add_line(draft: &mut Draft, line: &[u8]) -> Result<bool, AllocError>
    ensures { IfOk result (λ added. Took (step_line draft.old line.now) added draft.new) }
{
    match item_of(line) {
        None => Ok(false),
        Some(item) => take(draft, item),
    }
}

// Reads line by line up to the end line, behind which nothing may follow.
fn read_lines(alloc: Global, text: &[u8]) -> Result<Certificate, CertFault>
    ensures { Means text.now result }
{
    let mut draft = Draft::new(alloc);
    let mut rest = text;
    let mut lines: u64 = 0;
    'lines: while !draft.has_ended() {
        let Some((line, after)) = next_line(rest) else {
            return Err(CertFault::Ended);
        };
        lines += 1;
        let Ok(added) = add_line(&mut draft, line) else {
            return Err(CertFault::OutOfMemory);
        };
        if !added {
            return Err(CertFault::BadLine { line: lines });
        }
        rest = after;
    }
    if !rest.is_empty() {
        return Err(CertFault::AfterEnd { line: lines + 1 });
    }
    Ok(draft.finished())
}

/// The certificate that the text spells, in room for what the certificate holds.
///
/// ```
/// let text = b"HSPLAN 1\nSHORTAGE\ndemand 9\ncapacity 8\nrow 2\nEND\n";
/// let certificate = read_cert(alloc, text)?;
/// assert!(rt; certificate.as_short().is_some_and(|set| set.demand() == 9 && set.capacity() == 8));
/// assert!(rt; read_cert(alloc, b"HSPLAN 1\n").err() == Some(CertFault::Ended));
/// ```
///
/// # Errors
///
/// A text that spells no certificate has one fault: `BadLine` at the first line that can't stand in its place, `Ended`
/// where it ends before the line `END` and its LF, or `AfterEnd` where something follows them. `OutOfMemory` where
/// memory runs out.
pub fn read_cert(alloc: Global, text: &[u8]) -> Result<Certificate, CertFault>
    // What is returned is true of the text,
    ensures means { Means text.now result }
    // and whatever is true of it is returned, unless memory runs out.
    ensures only { (other : Result Claim CertFault) → Means text.now other → Agrees result other }
{
    read_lines(alloc, text)
}
