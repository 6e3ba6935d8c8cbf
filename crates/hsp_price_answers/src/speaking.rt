// A talk in which the rows of a log are answered.

ghost use Rattle.std.specs.Prelude.{◌≡◌, ◌≢◌, ◌⊎◌, IfErr, None};
ghost use Rattle.hsp_talk.specs.Known.{IsHandedOn, Went};
ghost use Rattle.hsp_price_answers.specs.AnswerTalk.{EndsBy};
ghost use Rattle.hsp_price_answers.specs.Answering.{InTurn};
ghost use Rattle.hsp_price_answers.specs.TalkFaults.{IsBeforeLog, fault_of};
ghost use Rattle.hsp_inputs.specs.Stopping.{IsFailedWrite, MayStopBy};

use crate::answerer::Answerer;
use crate::asking::NoHeader;
use crate::query_dispatcher::QueryDispatcher;
use hsp_inputs::StreamFault;
use hsp_log::RowFault;
use hsp_talk::{Peer, Stop, talk};
use std::alloc::Global;

// The fault of a talk that stopped.
fn fault_of(stop: Stop<NoHeader>) -> StreamFault
    ensures { result ≡ fault_of stop }
{
    match stop {
        Stop::ReadFailed => StreamFault::Log(RowFault::ReadFailed),
        Stop::WriteFailed => StreamFault::Log(RowFault::WriteFailed),
        Stop::OutOfMemory => StreamFault::OutOfMemory,
        Stop::Fault(NoHeader) => StreamFault::Log(RowFault::Header),
    }
}

/// Answers the rows that a peer asks by, until no more come, by a responder that has taken no row.
///
/// Faults: `Log` with `Header`, `ReadFailed` or `WriteFailed`, when the rows before it were answered; `OutOfMemory`.
pub(crate) fn answer_rows<D: QueryDispatcher, P: Peer>(
    alloc: Global,
    responder: &mut Answerer<D>,
    peer: &mut P,
) -> Result<D::Sums, StreamFault>
    requires form { responder.old.form ≡ None }
    requires refused { responder.old.refused ≡ 0 }
    ensures answered { Went (P.known peer.old) (P.known peer.new) (λ events.
        EndsBy (InTurn D.Takes D.sums_of responder.old.dispatcher) events result) }
    ensures log { IfErr result (λ e. IsBeforeLog e → ⊥) }
    ensures handed { IsHandedOn (P.known peer.old) (P.known peer.new) ⊎ IsFailedWrite result }
    ensures may_stop { IfErr result (MayStopBy (P.may_read_fail peer.old) P.may_send_fail
        (P.known peer.old) (P.known peer.new)) }
{
    match talk(alloc, responder, peer) {
        Ok(()) => match responder.ending() {
            Some(sums) => Ok(sums),
            None => Err(StreamFault::Log(RowFault::Header)),
        },
        Err(stop) => Err(fault_of(stop)),
    }
}
