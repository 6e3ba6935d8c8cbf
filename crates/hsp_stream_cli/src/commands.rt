// The answers to commands, from the files that they name.

ghost use Rattle.std.specs.Prelude.{map, string_bytes};
ghost use Rattle.hsp_stream_cli.specs.Commands.{CarriesOut, Obeys};
ghost use Rattle.hsp_stream_cli.specs.Printing.{IsHandedOn};

use crate::answering::answer_priced;
use crate::checking::check_prices;
use crate::faults::list_faults;
use crate::listing::list_interfaces;
use crate::placing::state_places;
use crate::planning::plan_log;
use crate::printing::print;
use crate::program::Ended;
use crate::reporting::report_prices;
use crate::texts::{HELP, VERSION};
use hsp_cli::{FileSource, Output};
use hsp_cli_orders::{StreamOrder, read_stream_command};
use hsp_price_plan::Progress;
use std::alloc::Global;

// Carries out the order: prints a text or a table on `out`, or answers a log there, and returns what to end with.
fn carry_out<S: FileSource, P: Progress + Drop, O: Output>(
    alloc: Global,
    source: &S,
    order: &StreamOrder<'_>,
    progress: P,
    out: &mut O,
) -> Ended
    ensures carries_out { CarriesOut (S.disk source.now) O.may_fail order.now (O.contents out.old)
        (O.contents out.new) result }
    ensures handed { IsHandedOn (O.contents out.old) (O.handed out.old) (O.contents out.new)
        (O.handed out.new) result }
{
    match order {
        StreamOrder::Help => print(out, HELP),
        StreamOrder::Version => print(out, VERSION),
        StreamOrder::Places { files } => state_places(alloc, source, files, out),
        StreamOrder::Plan { files } => plan_log(alloc, source, files, progress, out),
        StreamOrder::Answer { files, front } => answer_priced(alloc, source, files, front, out),
        StreamOrder::Check { files } => check_prices(alloc, source, files, out),
        StreamOrder::Report { files, kind } => report_prices(alloc, source, files, *kind, out),
        StreamOrder::Interfaces { files } => list_interfaces(alloc, source, files, out),
        StreamOrder::Faults { of, file } => list_faults(alloc, source, *of, file, out),
    }
}

/// Obeys the command that the words give: writes its answer on `out`, and returns what to end with. `progress` is shown
/// how far a plan is.
pub fn run_command<S: FileSource, P: Progress + Drop, O: Output>(
    alloc: Global,
    files: &S,
    words: &[String],
    progress: P,
    out: &mut O,
) -> Ended
    ensures obeys { Obeys (S.disk files.now) O.may_fail (map string_bytes words.now)
        (O.contents out.old) (O.contents out.new) result }
    // Nothing that was written waits in a buffer of the output, unless a write failed.
    ensures handed { IsHandedOn (O.contents out.old) (O.handed out.old) (O.contents out.new)
        (O.handed out.new) result }
{
    let order = read_stream_command(alloc, words)?;
    carry_out(alloc, files, &order, progress, out)
}
