// Verdicts on certificates by prices, on an output.

ghost use Rattle.hsp_stream_cli.specs.Checking.{PrintsLine, PrintsVerdict};
ghost use Rattle.hsp_stream_cli.specs.Commands.{ChecksPrices};
ghost use Rattle.hsp_stream_cli.specs.Printing.{IsHandedOn};

use crate::files::{Priced, read_prices};
use crate::printing::print_with;
use crate::program::Ended;
use hsp_cli::{Failure, FileSource, OpenFile, Output};
use hsp_cli_orders::PriceFiles;
use hsp_price_runs::{price_check_run, price_verdict_line, price_verdict_status};
use hsp_prices::PriceVerdict;
use std::alloc::Global;

/// Prints the line of a verdict. A no has status 3.
pub(crate) fn print_line<O: Output>(alloc: Global, verdict: PriceVerdict, out: &mut O) -> Ended
    ensures prints { PrintsLine O.may_fail verdict (O.contents out.old) (O.contents out.new)
        result }
    ensures handed { IsHandedOn (O.contents out.old) (O.handed out.old) (O.contents out.new)
        (O.handed out.new) result }
{
    let line = price_verdict_line(alloc, verdict)?;
    print_with(out, &line, price_verdict_status(verdict))
}

// Prints the verdict on a certificate, by the rows of a log.
fn print_verdict<F: OpenFile, O: Output>(
    alloc: Global,
    priced: &Priced,
    log: F,
    out: &mut O,
) -> Ended
    ensures prints { PrintsVerdict (F.may_read_fail log) O.may_fail priced.now (F.remaining log)
        (O.contents out.old) (O.contents out.new) result }
    ensures handed { IsHandedOn (O.contents out.old) (O.handed out.old) (O.contents out.new)
        (O.handed out.new) result }
{
    match price_check_run(alloc, &priced.inputs, &priced.prices, log) {
        Ok(verdict) => print_line(alloc, verdict, out),
        Err(fault) => Err(Failure::Refused(fault)),
    }
}

/// Judges a certificate by prices for the rows of a log, and prints the verdict.
pub(crate) fn check_prices<S: FileSource, O: Output>(
    alloc: Global,
    files: &S,
    named: &PriceFiles<'_>,
    out: &mut O,
) -> Ended
    ensures checks { ChecksPrices (S.disk files.now) O.may_fail named.now (O.contents out.old)
        (O.contents out.new) result }
    ensures handed { IsHandedOn (O.contents out.old) (O.handed out.old) (O.contents out.new)
        (O.handed out.new) result }
{
    let priced = read_prices(alloc, files, named)?;
    let log = files.open(&named.service.log)?;
    print_verdict(alloc, &priced, log, out)
}
