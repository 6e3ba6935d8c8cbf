// Who asks and is answered.

ghost use Rattle.std.specs.Prelude.{◌≡◌, ◌<◌, ◌≤◌, [], ◌∷◌, ⊤, IfOk, None, OnErr, OnOk, Some, length, take};
ghost use Rattle.hsp_talk.specs.Known.{GoesOn, IsUnwritten, Known, SendsSome, unknown};
ghost use Rattle.hsp_talk.specs.Talk.Event.{received, sent};

use crate::sink::Sink;
use crate::source::Source;
use crate::stop::Failed;

/// Who asks and is answered: one value for both directions, so that a contract can speak of the order of reads and
/// writes.
pub trait Peer {
    /// What is known of the peer, as far as it is.
    ghost known: { Self → Known } = { λ _. unknown };

    /// Whether a read may fail.
    ghost may_read_fail: { Self → Type 0 } = { λ _. ⊤ };

    /// Whether a send may fail.
    ghost may_send_fail: { Type 0 } = { ⊤ };

    /// Waits for octets, and takes as many as there are, up to the length of the piece; none where no more come. It
    /// reads once, and writes nothing.
    ///
    /// # Errors
    ///
    /// `Failed` where the piece has no room, or where the read fails. Nothing was received then.
    fn receive(&mut self, piece: &mut [u8]) -> Result<usize, Failed>
        ensures within { IfOk result (λ count. count ≤ length piece.new) }
        ensures long { length piece.new ≡ length piece.old }
        ensures receives { IfOk result (λ count.
            GoesOn (known self.old) (known self.new) (received (take count piece.new) ∷ [])) }
        ensures fails { OnErr result (GoesOn (known self.old) (known self.new) []) }
        ensures may_fail { OnErr result (0 < length piece.old → may_read_fail self.old) }
        ensures unwritten { IsUnwritten (known self.old) (known self.new) }
        // What may fail later may have failed before.
        ensures lasts { may_read_fail self.new → may_read_fail self.old };

    /// Writes all octets, and hands them on.
    ///
    /// # Errors
    ///
    /// `Failed` where a write fails, or where the octets can't be handed on. A beginning of them may have been sent.
    fn send(&mut self, octets: &[u8]) -> Result<(), Failed>
        ensures sends { OnOk result
            (GoesOn (known self.old) (known self.new) (sent octets.now ∷ [])) }
        ensures handed { OnOk result ((known self.new).handed ≡ (known self.new).written) }
        ensures fails { OnErr result (SendsSome (known self.old) (known self.new) octets.now) }
        ensures may_fail { OnErr result may_send_fail }
        ensures lasts { may_read_fail self.new → may_read_fail self.old };
}

/// A reader and a writer as one peer. Contracts know nothing of the order of its reads and writes, and as much of their
/// octets as the reader and the writer report.
#[derive(Drop)]
pub struct Joined<'a, R, W> {
    pub reader: R,
    pub writer: &'a mut W,
}

impl<'a, R: Source, W: Sink> Peer for Joined<'a, R, W> {
    ghost known = { λ peer. record {
      events = None;
      reads = R.reads peer.reader;
      coming = R.remaining peer.reader;
      written = W.contents peer.writer.now;
      handed = W.handed peer.writer.now;
      lent = Some peer.writer.ghost_name;
    } };

    ghost may_read_fail = { λ peer. R.may_read_fail peer.reader };

    ghost may_send_fail = { W.may_fail };

    fn receive(&mut self, piece: &mut [u8]) -> Result<usize, Failed> {
        if piece.is_empty() {
            return Err(Failed);
        }
        self.reader.read_piece(piece)
    }

    fn send(&mut self, octets: &[u8]) -> Result<(), Failed> {
        self.writer.deliver(octets)
    }
}
