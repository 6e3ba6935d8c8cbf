// A peer whose talk is known, so that the theorem of a talk speaks of it.

ghost use Rattle.std.specs.Prelude.{◌≡◌, [], None, OnOk, Some};
ghost use Rattle.hsp_talk.specs.Talk.{HeldToTheEnd};
ghost use Rattle.hsp_format_tests.specs.Known.{events_of};

use hsp_talk::{Failed, Peer, Responder, Stop, talk};
use std::alloc::Global;

/// What happened at a peer.
#[derive(Drop)]
pub enum Turn {
    Received(Vec<u8>),
    Sent(Vec<u8>),
}

/// Gives a text, and keeps every turn.
#[derive(Drop)]
pub struct KnownPeer<'a> {
    pub alloc: Global,
    pub text: &'a [u8],
    pub turns: Vec<Turn>,
}

impl<'a> Peer for KnownPeer<'a> {
    ghost known = { λ peer. record {
      events = Some (events_of peer.turns.items);
      reads = None;
      coming = None;
      written = None;
      handed = None;
      lent = None;
    } };

    fn receive(&mut self, piece: &mut [u8]) -> Result<usize, Failed> {
        let count = self.text.len().min(piece.len());
        let (first, rest) = self.text.split_at(count);
        piece[..count].copy_from_slice(first);
        let Ok(kept) = Vec::from_slice(self.alloc, &piece[..count]) else {
            return Err(Failed);
        };
        match self.turns.push(Turn::Received(kept)) {
            Ok(()) => {}
            Err(_) => return Err(Failed),
        }
        self.text = rest;
        Ok(count)
    }

    fn send(&mut self, octets: &[u8]) -> Result<(), Failed> {
        let Ok(kept) = Vec::from_slice(self.alloc, octets) else {
            return Err(Failed);
        };
        match self.turns.push(Turn::Sent(kept)) {
            Ok(()) => Ok(()),
            Err(_) => Err(Failed),
        }
    }
}

/// Holds a talk with a peer at which nothing happened yet.
///
/// # Errors
///
/// The fault that ends the talk.
pub fn hold<D: Responder>(
    alloc: Global,
    responder: &mut D,
    peer: &mut KnownPeer<'_>,
) -> Result<(), Stop<D::Fault>>
    requires { peer.old.turns.items ≡ [] }
    ensures { OnOk result
        (HeldToTheEnd D.Takes responder.old responder.new (events_of peer.new.turns.items)) }
{
    talk(alloc, responder, peer)
}
