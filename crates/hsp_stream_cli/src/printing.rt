// Texts on an output.

ghost use Rattle.hsp_stream_cli.specs.Printing.{IsHandedOn, PrintsText, PrintsWith};

use crate::program::Ended;
use hsp_cli::{Completed, Failure, Output};

/// Writes a text, hands it on, and returns the status to end with after it.
pub(crate) fn print_with<O: Output>(out: &mut O, text: &[u8], status: u8) -> Ended
    ensures prints { PrintsWith status O.may_fail text.now (O.contents out.old)
        (O.contents out.new) result }
    ensures handed { IsHandedOn (O.contents out.old) (O.handed out.old) (O.contents out.new)
        (O.handed out.new) result }
{
    match out.put(text) {
        Ok(()) => Ok(Completed { status, sums: None }),
        Err(_) => Err(Failure::Write),
    }
}

/// Writes a text, and hands it on.
pub(crate) fn print<O: Output>(out: &mut O, text: &[u8]) -> Ended
    ensures prints { PrintsText O.may_fail text.now (O.contents out.old) (O.contents out.new)
        result }
    ensures handed { IsHandedOn (O.contents out.old) (O.handed out.old) (O.contents out.new)
        (O.handed out.new) result }
{
    print_with(out, text, 0)
}
