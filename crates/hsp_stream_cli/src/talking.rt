// Talks over a log that is read and an output that is written.

ghost use Rattle.std.specs.Prelude.{◌≡◌, ◌⊎◌};
ghost use Rattle.hsp_talk.specs.Known.{IsHandedOn as IsKnownHanded, Known};
ghost use Rattle.hsp_stream_cli.specs.Printing.{Ended as HowEnded, IsFailedWrite, IsHandedOn};
ghost use Rattle.hsp_stream_cli.specs.Talking.{MayEnd, TalksOver};

use crate::program::Ended;
use hsp_cli::{OpenFile, Output};
use hsp_talk::{Joined, Peer};
use std::alloc::Global;

/// What answers the rows that a peer asks by.
pub(crate) trait Talk {
    /// A talk may end so, by what is known of the peer before it and after it.
    ghost Ends: { Self → HowEnded → Known → Known → Type 0 };

    /// Answers the rows that a peer asks by.
    fn talk<P: Peer>(&self, alloc: Global, peer: &mut P) -> Ended
        ensures ends { Ends self.now result (P.known peer.old) (P.known peer.new) }
        // The writer that the peer was lent is still the same.
        ensures lent { (P.known peer.new).lent ≡ (P.known peer.old).lent }
        ensures handed { IsKnownHanded (P.known peer.old) (P.known peer.new)
            ⊎ IsFailedWrite result }
        ensures may_end { MayEnd (P.may_read_fail peer.old) P.may_send_fail result
            (P.known peer.old) (P.known peer.new) };
}

// Answers rows, where the peer is a log that is read and an output that is written, and says what the output takes.
fn talk_joined<T: Talk, F: OpenFile, O: Output>(
    alloc: Global,
    talk: &T,
    peer: &mut Joined<'_, F, O>,
) -> Ended
    ensures same_reference { peer.new.writer.ghost_name ≡ peer.old.writer.ghost_name }
    ensures ends { TalksOver (F.may_read_fail peer.old.reader) O.may_fail
        (F.remaining peer.old.reader) (O.contents peer.old.writer.now)
        (O.contents peer.new.writer.now) result (T.Ends talk.now result) }
    ensures handed { IsHandedOn (O.contents peer.old.writer.now) (O.handed peer.old.writer.now)
        (O.contents peer.new.writer.now) (O.handed peer.new.writer.now) result }
{
    talk.talk(alloc, peer)
}

/// Answers on `out` the rows of a log.
pub(crate) fn talk_over<T: Talk, F: OpenFile, O: Output>(
    alloc: Global,
    talk: &T,
    log: F,
    out: &mut O,
) -> Ended
    ensures talks { TalksOver (F.may_read_fail log) O.may_fail (F.remaining log)
        (O.contents out.old) (O.contents out.new) result (T.Ends talk.now result) }
    ensures handed { IsHandedOn (O.contents out.old) (O.handed out.old) (O.contents out.new)
        (O.handed out.new) result }
{
    let mut peer = Joined {
        reader: log,
        writer: out,
    };
    let ended = talk_joined(alloc, talk, &mut peer);
    // The writer is given back here, so that it is known what it holds.
    let Joined {
        reader: _read,
        writer: _given_back,
    } = peer;
    ended
}
