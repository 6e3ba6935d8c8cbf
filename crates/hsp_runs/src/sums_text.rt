// The sums of a log as the program prints them.

ghost use Rattle.std.specs.Prelude.{◌≡◌, IfOk};
ghost use Rattle.hsp_runs.specs.SumsText.{sums_text};

use hsp_dispatch::LogSums;
use hsp_inputs::push_with;
use std::alloc::{AllocError, Global};

/// The line that says how many entries of a log were answered by each kind of answer: `assigned 3 spent 1 unknown 1`,
/// say, and LF.
///
/// # Errors
///
/// An `AllocError` where memory runs out.
pub fn sums_line(alloc: Global, sums: &LogSums) -> Result<Vec<u8>, AllocError>
    ensures { IfOk result (λ line. line.items ≡ sums_text sums.now) }
{
    let mut line = Vec::new(alloc);
    push_with(&mut line, b"assigned ", sums.assigned)?;
    push_with(&mut line, b" spent ", sums.spent)?;
    push_with(&mut line, b" unknown ", sums.unknown)?;
    line.extend_from_slice(b"\n")?;
    Ok(line)
}
