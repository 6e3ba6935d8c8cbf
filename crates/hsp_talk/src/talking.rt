// The talk.

ghost use Rattle.std.specs.Prelude.{◌≡◌, ◌⊎◌, ◌<◌, ◌≤◌, ◌+◌, ◌++◌, ◌∷◌, [], IfErr, IfOk, IfSome, OnErr, OnOk, length};
ghost use Rattle.std.specs.Prelude.{position};
ghost use Rattle.hsp_talk.specs.declared.limits.TheConstants.{LONGEST_ROW};
ghost use Rattle.hsp_talk.specs.Known.{GoesOn, IsHandedOn, SendsSome, Went, sending};
ghost use Rattle.hsp_talk.specs.Stopping.{IsFailedWrite, MayStop};
ghost use Rattle.hsp_talk.specs.Talk.{HeldToTheEnd, StoppedBy, cut, is_line_feed, last_line, rows_of, whole_lines};
ghost use Rattle.hsp_talk.specs.Turns.{AreCut, AreOwed, rows_ended_by};

use crate::limits::LONGEST_ROW;
use crate::peer::Peer;
use crate::responder::Responder;
use crate::stop::{Failed, Refusal, Stop, stop_for};
use std::alloc::{AllocError, Global};

// The most octets that are received at a time.
const PIECE: usize = 8192;

// Takes a line, if it is a row, and adds its answer to those that are owed.
fn take_line<D: Responder>(
    responder: &mut D,
    line: &[u8],
    answer: &mut Vec<u8>,
    owed: &mut Vec<u8>,
) -> Result<(), Refusal<D::Fault>>
    requires { length line.now ≤ LONGEST_ROW + 1 }
    ensures taken { OnOk result (AreOwed D.Takes responder.old responder.new
        (rows_of (line.now ∷ [])) owed.old.items owed.new.items) }
    ensures cut { IfErr result (AreCut D.Takes D.Refuses responder.old responder.new
        (rows_of (line.now ∷ [])) owed.old.items owed.new.items) }
{
    if line.is_empty() {
        return Ok(());
    }
    answer.clear();
    if let Err(refusal) = responder.take(line, answer) {
        return Err(refusal);
    }
    match owed.extend_from_slice(answer) {
        Ok(()) => Ok(()),
        Err(_) => Err(Refusal::OutOfMemory),
    }
}

// Where the first line ends.
fn end_of_line(octets: &[u8]) -> Option<usize>
    ensures place { result ≡ position is_line_feed octets.now }
    ensures within { IfSome result (λ place. place < length octets.now) }
{
    octets.iter().position(|octet| *octet == b'\n')
}

// Adds octets to a line, as far as a row may have them and one more.
fn lengthen(line: &mut Vec<u8>, octets: &[u8]) -> Result<(), AllocError>
    requires { length line.old.items ≤ LONGEST_ROW + 1 }
    ensures { OnOk result (line.new.items ≡ cut (line.old.items ++ octets.now)) }
{
    let room = LONGEST_ROW + 1 - line.len();
    let count = octets.len().min(room);
    line.extend_from_slice(&octets[..count])?;
    Ok(())
}

// Takes the lines that these octets end. What they begin is kept.
fn take_lines<D: Responder>(
    responder: &mut D,
    octets: &[u8],
    line: &mut Vec<u8>,
    answer: &mut Vec<u8>,
    owed: &mut Vec<u8>,
) -> Result<(), Refusal<D::Fault>>
    requires { length line.old.items ≤ LONGEST_ROW + 1 }
    ensures taken { OnOk result (AreOwed D.Takes responder.old responder.new
        (rows_of (whole_lines line.old.items octets.now)) owed.old.items owed.new.items) }
    ensures begun { OnOk result (line.new.items ≡ cut (last_line line.old.items octets.now)) }
    ensures cut { IfErr result (AreCut D.Takes D.Refuses responder.old responder.new
        (rows_of (whole_lines line.old.items octets.now)) owed.old.items owed.new.items) }
{
    let mut rest = octets;
    'lines: while let Some(place) = end_of_line(rest) {
        let (ended, more) = rest.split_at(place);
        let Ok(()) = lengthen(line, ended) else {
            return Err(Refusal::OutOfMemory);
        };
        if let Err(refusal) = take_line(responder, line, answer, owed) {
            return Err(refusal);
        }
        line.clear();
        rest = &more[1..];
    }
    match lengthen(line, rest) {
        Ok(()) => Ok(()),
        Err(_) => Err(Refusal::OutOfMemory),
    }
}

// Takes the rows that a piece ends. Where no more octets come, the last line has ended too.
fn take_piece<D: Responder>(
    responder: &mut D,
    piece: &[u8],
    line: &mut Vec<u8>,
    answer: &mut Vec<u8>,
    owed: &mut Vec<u8>,
) -> Result<(), Refusal<D::Fault>>
    requires { length line.old.items ≤ LONGEST_ROW + 1 }
    ensures taken { OnOk result (AreOwed D.Takes responder.old responder.new
        (rows_ended_by line.old.items piece.now) owed.old.items owed.new.items) }
    ensures begun { OnOk result (line.new.items ≡ cut (last_line line.old.items piece.now)) }
    ensures cut { IfErr result (AreCut D.Takes D.Refuses responder.old responder.new
        (rows_ended_by line.old.items piece.now) owed.old.items owed.new.items) }
{
    if piece.is_empty() {
        take_line(responder, line, answer, owed)
    } else {
        take_lines(responder, piece, line, answer, owed)
    }
}

// Sends what is owed, if anything is.
fn send_owed<P: Peer>(peer: &mut P, owed: &mut Vec<u8>) -> Result<(), Failed>
    ensures none_owed { OnOk result (owed.new.items ≡ []) }
    ensures sends { OnOk result
        (GoesOn (P.known peer.old) (P.known peer.new) (sending owed.old.items)) }
    ensures fails { OnErr result
        (SendsSome (P.known peer.old) (P.known peer.new) owed.old.items) }
    ensures handed { OnOk result (IsHandedOn (P.known peer.old) (P.known peer.new)) }
    ensures may_fail { OnErr result P.may_send_fail }
    ensures lasts { P.may_read_fail peer.new → P.may_read_fail peer.old }
{
    if owed.is_empty() {
        return Ok(());
    }
    peer.send(owed)?;
    owed.clear();
    Ok(())
}

/// Receives rows, one a line, and sends the responder's answers until no more rows come.
///
/// Every answer is sent before the next read, which may wait. A line ends with a line feed; a carriage return before
/// it belongs to the line. An empty line is no row. The last line may lack its end, and is taken when no more octets
/// come.
///
/// Of a line with more than [`LONGEST_ROW`] octets, the first [`LONGEST_ROW`] and one more are the row, and the rest is
/// passed over. So memory is bounded whatever comes, and the responder sees that the row is too long.
///
/// # Errors
///
/// Read by read, in this order: `ReadFailed` where the read fails; `WriteFailed` where the answers can't be sent;
/// `Fault` where the responder refused a row, or `OutOfMemory` where memory ran out. The answers to the rows before
/// that are sent first. There are at most 2^64 - 1 reads: where octets come even then, `ReadFailed` is returned.
pub fn talk<P: Peer, D: Responder>(
    alloc: Global,
    responder: &mut D,
    peer: &mut P,
) -> Result<(), Stop<D::Fault>>
    ensures whole { OnOk result (Went (P.known peer.old) (P.known peer.new)
        (HeldToTheEnd D.Takes responder.old responder.new)) }
    ensures stops { IfErr result (λ stop. Went (P.known peer.old) (P.known peer.new)
        (λ events. StoppedBy D.Takes D.Refuses responder.old responder.new events stop)) }
    // No octet of an answer waits in a buffer of the peer, unless a write failed.
    ensures handed { IsHandedOn (P.known peer.old) (P.known peer.new) ⊎ IsFailedWrite result }
    // A failure is reported only of what may fail.
    ensures may_stop { IfErr result (MayStop (P.may_read_fail peer.old) P.may_send_fail
        (P.known peer.old) (P.known peer.new)) }
{
    let mut line = Vec::new(alloc);
    let mut answer = Vec::new(alloc);
    let mut owed = Vec::new(alloc);
    let mut piece = [0u8; PIECE];
    'turns: for _turn in 0..u64::MAX {
        let Ok(count) = peer.receive(&mut piece) else {
            return Err(Stop::ReadFailed);
        };
        let taken = take_piece(
            responder,
            &piece[..count],
            &mut line,
            &mut answer,
            &mut owed,
        );
        let Ok(()) = send_owed(peer, &mut owed) else {
            return Err(Stop::WriteFailed);
        };
        if let Err(refusal) = taken {
            return Err(stop_for(refusal));
        }
        if count == 0 {
            return Ok(());
        }
    }
    Err(Stop::ReadFailed)
}
