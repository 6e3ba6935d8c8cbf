// Reports by certificates by prices, on an output.

ghost use Rattle.std.specs.Prelude.{◌≡◌};
ghost use Rattle.hsp_stream_cli.specs.Commands.{ReportsPrices};
ghost use Rattle.hsp_stream_cli.specs.Printing.{IsHandedOn};
ghost use Rattle.hsp_stream_cli.specs.Reporting.{PrintsReport, PrintsShown};

use crate::checking::print_line;
use crate::files::{Priced, read_prices};
use crate::printing::print;
use crate::program::Ended;
use hsp_cli::{Failure, FileSource, OpenFile, Output};
use hsp_cli_orders::PriceFiles;
use hsp_price_report::PriceReportKind;
use hsp_price_runs::{PriceReport, price_report_run};
use hsp_prices::PriceVerdict;
use std::alloc::Global;

// Prints a report. Where the certificate isn't valid, it prints the line of the no, which has status 3.
fn print_shown<O: Output>(alloc: Global, report: PriceReport, out: &mut O) -> Ended
    ensures prints { PrintsShown O.may_fail report (O.contents out.old) (O.contents out.new)
        result }
    ensures handed { IsHandedOn (O.contents out.old) (O.handed out.old) (O.contents out.new)
        (O.handed out.new) result }
{
    match report {
        PriceReport::Shown(text) => print(out, &text),
        PriceReport::Refused(reason) => print_line(alloc, PriceVerdict::No(reason), out),
    }
}

// Prints a report by a certificate, of the rows of a log.
fn print_report<F: OpenFile, O: Output>(
    alloc: Global,
    priced: &Priced,
    kind: PriceReportKind,
    log: F,
    out: &mut O,
) -> Ended
    ensures prints { PrintsReport (F.may_read_fail log) O.may_fail priced.now kind
        (F.remaining log) (O.contents out.old) (O.contents out.new) result }
    ensures handed { IsHandedOn (O.contents out.old) (O.handed out.old) (O.contents out.new)
        (O.handed out.new) result }
{
    match price_report_run(alloc, &priced.inputs, &priced.prices, kind, log) {
        Ok(report) => print_shown(alloc, report, out),
        Err(fault) => Err(Failure::Refused(fault)),
    }
}

/// Prints what a certificate by prices says of the rows of a log. Where it isn't valid for them, it prints the reason.
pub(crate) fn report_prices<S: FileSource, O: Output>(
    alloc: Global,
    files: &S,
    named: &PriceFiles<'_>,
    kind: PriceReportKind,
    out: &mut O,
) -> Ended
    ensures reports { ReportsPrices (S.disk files.now) O.may_fail named.now kind
        (O.contents out.old) (O.contents out.new) result }
    ensures handed { IsHandedOn (O.contents out.old) (O.handed out.old) (O.contents out.new)
        (O.handed out.new) result }
{
    let priced = read_prices(alloc, files, named)?;
    let log = files.open(&named.service.log)?;
    print_report(alloc, &priced, kind, log, out)
}
