// Talks that were held, and how they ended. They are held by functions of their own, since a test that does so in
// place is expensive to prove.

use crate::fakes::{
    BadRow, CountingResponder, FakePeer, FakeReader, FakeWriter, First, Note, RepeatingPeer,
};
use hsp_talk::{Joined, Stop, talk};
use std::alloc::Global;
use std::process::Abort;

/// How many reads and writes go well.
#[derive(Clone, Copy)]
pub struct Limits {
    pub reads: u32,
    pub writes: u32,
}

/// All go well.
pub const ALL: Limits = Limits {
    reads: 1000,
    writes: 1000,
};

// How a talk ended.
fn ending(held: Result<(), Stop<BadRow>>) -> &'static [u8] {
    match held {
        Ok(()) => b"ended",
        Err(Stop::ReadFailed) => b"read",
        Err(Stop::WriteFailed) => b"write",
        Err(Stop::OutOfMemory) => b"memory",
        Err(Stop::Fault(BadRow)) => b"bad",
    }
}

// Holds a talk, and notes how it ended.
fn note_of(alloc: Global, pieces: &[&[u8]], limits: Limits) -> Note {
    let mut responder = CountingResponder { taken: 0 };
    let mut peer = FakePeer {
        pieces,
        reads: limits.reads,
        writes: limits.writes,
        note: Note::none(),
    };
    let held = talk(alloc, &mut responder, &mut peer);
    let mut note = peer.note;
    note.add(b'.', ending(held));
    note
}

/// Fails a test unless a talk goes as was wanted. Where memory runs out, a second talk finds memory.
pub fn goes(rt: &impl Abort, alloc: Global, pieces: &[&[u8]], limits: Limits, wanted: &[u8]) {
    let first = note_of(alloc, pieces, limits);
    if first.text() == wanted {
        return;
    }
    let second = note_of(alloc, pieces, limits);
    assert_eq!(rt; second.text(), wanted);
}

// Holds a talk with a reader and a writer over the rows `a` and `b`, and notes how it ended, and after how many reads.
fn note_joined(alloc: Global, first: First) -> Note {
    let mut responder = CountingResponder { taken: 0 };
    let mut writer = FakeWriter {
        note: Note::none(),
        first,
    };
    let mut peer = Joined {
        reader: FakeReader {
            text: b"a\nb",
            first,
            reads: 0,
        },
        writer: &mut writer,
    };
    let held = talk(alloc, &mut responder, &mut peer);
    let reads = peer.reader.reads;
    writer.note.add(b'.', ending(held));
    writer.note.add(b'<', &[b'0'.saturating_add(reads)]);
    writer.note
}

/// Fails a test unless a talk with a reader and a writer goes as was wanted.
pub fn goes_joined(rt: &impl Abort, alloc: Global, first: First, wanted: &[u8]) {
    let note = note_joined(alloc, first);
    if note.text() == wanted {
        return;
    }
    let second = note_joined(alloc, first);
    assert_eq!(rt; second.text(), wanted);
}

// Holds a talk in which a piece comes so many times. How it ended, and how many sends there were, and octets in them.
fn sums_of(alloc: Global, piece: &[u8], times: u32) -> (&'static [u8], u32, usize) {
    let mut responder = CountingResponder { taken: 0 };
    let mut peer = RepeatingPeer {
        piece,
        times,
        sends: 0,
        octets: 0,
    };
    let held = talk(alloc, &mut responder, &mut peer);
    (ending(held), peer.sends, peer.octets)
}

/// Fails a test unless a talk in which a piece comes so many times ends well, with so many sends of so many octets.
pub fn repeats(rt: &impl Abort, alloc: Global, piece: &[u8], times: u32, wanted: (u32, usize)) {
    let (sends, octets) = wanted;
    let wanted = (b"ended".as_slice(), sends, octets);
    let first = sums_of(alloc, piece, times);
    if first == wanted {
        return;
    }
    assert_eq!(rt; sums_of(alloc, piece, times), wanted);
}
