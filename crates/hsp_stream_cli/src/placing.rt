// Places of the handles of a log, on an output.

ghost use Rattle.hsp_stream_cli.specs.Commands.{StatesPlaces};
ghost use Rattle.hsp_stream_cli.specs.Printing.{IsHandedOn};
ghost use Rattle.hsp_stream_cli.specs.Talking.{EndsPlaces};

use crate::files::{Sources, read_sources};
use crate::program::Ended;
use crate::talking::{Talk, talk_over};
use hsp_cli::{Completed, Failure, FileSource, Output};
use hsp_cli_orders::PlaceFiles;
use hsp_stream::places_run;
use hsp_talk::Peer;
use std::alloc::Global;

// States the places of the handles that a peer asks for.
impl Talk for Sources {
    ghost Ends = { λ sources ended. EndsPlaces sources ended };

    fn talk<P: Peer>(&self, alloc: Global, peer: &mut P) -> Ended {
        match places_run(alloc, &self.settings, self.values.as_deref(), peer) {
            Ok(()) => Ok(Completed {
                status: 0,
                sums: None,
            }),
            Err(fault) => Err(Failure::Refused(fault)),
        }
    }
}

/// States on `out` the places of the handles of a log.
pub(crate) fn state_places<S: FileSource, O: Output>(
    alloc: Global,
    files: &S,
    named: &PlaceFiles<'_>,
    out: &mut O,
) -> Ended
    ensures states { StatesPlaces (S.disk files.now) O.may_fail named.now (O.contents out.old)
        (O.contents out.new) result }
    ensures handed { IsHandedOn (O.contents out.old) (O.handed out.old) (O.contents out.new)
        (O.handed out.new) result }
{
    let sources = read_sources(alloc, files, &named.sites)?;
    let log = files.open(&named.log)?;
    talk_over(alloc, &sources, log, out)
}
