// Tables of service interfaces, on an output.

ghost use Rattle.hsp_stream_cli.specs.Commands.{ListsInterfaces};
ghost use Rattle.hsp_stream_cli.specs.Listing.{PrintsInterfaces};
ghost use Rattle.hsp_stream_cli.specs.Printing.{IsHandedOn};

use crate::files::{Sources, read_sources};
use crate::printing::print;
use crate::program::Ended;
use hsp_cli::{Failure, FileSource, Output};
use hsp_cli_orders::SiteFiles;
use hsp_inputs::StreamFault;
use hsp_stream::interfaces_run;
use std::alloc::Global;

// Prints the table of the sites that settings and values define.
fn print_interfaces<O: Output>(alloc: Global, sources: &Sources, out: &mut O) -> Ended
    ensures prints { PrintsInterfaces O.may_fail sources.now (O.contents out.old)
        (O.contents out.new) result }
    ensures handed { IsHandedOn (O.contents out.old) (O.handed out.old) (O.contents out.new)
        (O.handed out.new) result }
{
    match interfaces_run(alloc, &sources.settings, sources.values.as_deref()) {
        Ok(text) => print(out, &text),
        Err(fault) => Err(Failure::Refused(StreamFault::from(fault))),
    }
}

/// Lists the service interfaces of the servers of a service's sites.
pub(crate) fn list_interfaces<S: FileSource, O: Output>(
    alloc: Global,
    files: &S,
    named: &SiteFiles<'_>,
    out: &mut O,
) -> Ended
    ensures lists { ListsInterfaces (S.disk files.now) O.may_fail named.now (O.contents out.old)
        (O.contents out.new) result }
    ensures handed { IsHandedOn (O.contents out.old) (O.handed out.old) (O.contents out.new)
        (O.handed out.new) result }
{
    let sources = read_sources(alloc, files, named)?;
    print_interfaces(alloc, &sources, out)
}
