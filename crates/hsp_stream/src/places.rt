// The run `places`: the server of each handle of a log, at each site.

ghost use Rattle.std.specs.Prelude.{◌⊎◌, IfErr, OnOk, option_map};
ghost use Rattle.hsp_talk.specs.Known.{IsHandedOn};
ghost use Rattle.hsp_stream.specs.PlacesRun.{ArePlaced, ArePlacedUntil};
ghost use Rattle.hsp_inputs.specs.Stopping.{IsFailedWrite, MayStopBy};

use crate::places_responder::PlacesResponder;
use hsp_inputs::{StreamFault, sites_in};
use hsp_log::RowFault;
use hsp_talk::{Peer, Stop, talk};
use std::alloc::Global;

/// Answers each handle of a log by the responsible server at each site, before it waits for more rows.
///
/// The header of the log is `handle` or `region,handle`, after a byte order mark if there is one. What is sent has the
/// header `handle,site,place,server_id`, and for each row a line for each site in the settings' order. A blank row has
/// no answer.
///
/// # Errors
///
/// In this order: those of the settings and values, before anything is read or sent; then of the log `Header`, also
/// where the log ends without one; then row by row `Fields` and `BadHandle` (`TooLong` where the row has more than
/// [`hsp_talk::LONGEST_ROW`] octets). What comes before a fault is answered. `OutOfMemory` comes where memory runs out.
pub fn places_run<P: Peer>(
    alloc: Global,
    settings: &[u8],
    values: Option<&[u8]>,
    peer: &mut P,
) -> Result<(), StreamFault>
    ensures whole { OnOk result (ArePlaced settings.now (option_map (λ v. v.now) values.entry)
        (P.known peer.old) (P.known peer.new)) }
    ensures stops { IfErr result
        (ArePlacedUntil settings.now (option_map (λ v. v.now) values.entry)
        (P.known peer.old) (P.known peer.new)) }
    // No octet of an answer waits in a buffer of the peer, unless a write failed.
    ensures handed { IsHandedOn (P.known peer.old) (P.known peer.new) ⊎ IsFailedWrite result }
    // A failure is reported only of what may fail.
    ensures may_stop { IfErr result (MayStopBy (P.may_read_fail peer.old) P.may_send_fail
        (P.known peer.old) (P.known peer.new)) }
{
    let sites = sites_in(alloc, settings, values)?;
    let mut responder = PlacesResponder::new(alloc, sites);
    match talk(alloc, &mut responder, peer) {
        Ok(()) => {
            if responder.has_header() {
                Ok(())
            } else {
                Err(StreamFault::Log(RowFault::Header))
            }
        }
        Err(Stop::ReadFailed) => Err(StreamFault::Log(RowFault::ReadFailed)),
        Err(Stop::WriteFailed) => Err(StreamFault::Log(RowFault::WriteFailed)),
        Err(Stop::OutOfMemory) => Err(StreamFault::OutOfMemory),
        Err(Stop::Fault(fault)) => Err(StreamFault::Log(fault)),
    }
}
