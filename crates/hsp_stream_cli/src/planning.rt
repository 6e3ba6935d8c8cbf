// Plans of logs by prices, on an output.

ghost use Rattle.hsp_stream_cli.specs.Commands.{PlansLog};
ghost use Rattle.hsp_stream_cli.specs.Planning.{PrintsPlan, status_of};
ghost use Rattle.hsp_stream_cli.specs.Printing.{IsHandedOn, PrintsWith};
ghost use Rattle.hsp_price_runs.specs.PricesText.{octets_of};

use crate::files::read_service;
use crate::printing::print_with;
use crate::program::Ended;
use hsp_cli::{Failure, FileSource, OpenFile, Output};
use hsp_cli_orders::ServiceFiles;
use hsp_inputs::Inputs;
use hsp_price_plan::Progress;
use hsp_price_runs::{PricesText, price_plan_run};
use std::alloc::Global;

// Prints the text of a certificate. That of a shortage has status 3.
fn print_text<O: Output>(text: &PricesText, out: &mut O) -> Ended
    ensures prints { PrintsWith (status_of text.now) O.may_fail (octets_of text.now)
        (O.contents out.old) (O.contents out.new) result }
    ensures handed { IsHandedOn (O.contents out.old) (O.handed out.old) (O.contents out.new)
        (O.handed out.new) result }
{
    match text {
        PricesText::Plan(octets) => print_with(out, octets, 0),
        PricesText::Shortage(octets) => print_with(out, octets, 3),
    }
}

// Prints a plan of the rows of a log.
fn print_plan<F: OpenFile, P: Progress + Drop, O: Output>(
    alloc: Global,
    inputs: &Inputs,
    log: F,
    progress: P,
    out: &mut O,
) -> Ended
    ensures prints { PrintsPlan (F.may_read_fail log) O.may_fail inputs.now (F.remaining log)
        (O.contents out.old) (O.contents out.new) result }
    ensures handed { IsHandedOn (O.contents out.old) (O.handed out.old) (O.contents out.new)
        (O.handed out.new) result }
{
    match price_plan_run(alloc, inputs, log, progress) {
        Ok(text) => print_text(&text, out),
        Err(fault) => Err(Failure::Refused(fault)),
    }
}

/// Plans the rows of a log, and prints the certificate by prices. `progress` is shown how far the plan is.
pub(crate) fn plan_log<S: FileSource, P: Progress + Drop, O: Output>(
    alloc: Global,
    files: &S,
    named: &ServiceFiles<'_>,
    progress: P,
    out: &mut O,
) -> Ended
    ensures plans { PlansLog (S.disk files.now) O.may_fail named.now (O.contents out.old)
        (O.contents out.new) result }
    ensures handed { IsHandedOn (O.contents out.old) (O.handed out.old) (O.contents out.new)
        (O.handed out.new) result }
{
    let inputs = read_service(alloc, files, named)?;
    let log = files.open(&named.log)?;
    print_plan(alloc, &inputs, log, progress, out)
}
