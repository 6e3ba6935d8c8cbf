// Peers that give pieces and note what happens, a reader and a writer whose first calls fail, and a responder that
// counts.

ghost use Rattle.std.specs.Prelude.{⊤};

use hsp_talk::{Failed, Peer, Refusal, Responder};
use std::alloc::AllocError;
use std::io;
use std::io::{ErrorKind, Read, Write};

/// How many octets a note has room for.
const ROOM: usize = 200;

/// A note of what happened. What has no room is left out.
#[derive(Drop)]
pub struct Note {
    text: [u8; ROOM],
    length: usize,
}

impl Note {
    /// Nothing happened.
    pub fn none() -> Note {
        Note {
            text: [0; ROOM],
            length: 0,
        }
    }

    /// Adds a mark, and octets behind it.
    pub fn add(&mut self, mark: u8, octets: &[u8]) {
        self.put(mark);
        for octet in octets {
            self.put(*octet);
        }
    }

    fn put(&mut self, octet: u8) {
        if let Some(place) = self.text.get_mut(self.length) {
            *place = octet;
            self.length = self.length.saturating_add(1);
        }
    }

    /// The note.
    pub fn text(&self) -> &[u8] {
        match self.text.get(..self.length) {
            Some(text) => text,
            None => &self.text,
        }
    }
}

/// Gives pieces, one a read, and notes `<` and the octets for each read, `>` and the octets for each write. Reads and
/// writes fail once as many as stand here were made.
#[derive(Drop)]
pub struct FakePeer<'a> {
    pub pieces: &'a [&'a [u8]],
    pub reads: u32,
    pub writes: u32,
    pub note: Note,
}

impl<'a> Peer for FakePeer<'a> {
    fn receive(&mut self, piece: &mut [u8]) -> Result<usize, Failed> {
        if self.reads == 0 {
            return Err(Failed);
        }
        self.reads -= 1;
        let octets: &[u8] = match self.pieces {
            [first, rest @ ..] => {
                self.pieces = rest;
                first
            }
            [] => b"",
        };
        self.note.add(b'<', octets);
        let count = octets.len().min(piece.len());
        piece[..count].copy_from_slice(&octets[..count]);
        Ok(count)
    }

    fn send(&mut self, octets: &[u8]) -> Result<(), Failed> {
        if self.writes == 0 {
            return Err(Failed);
        }
        self.writes -= 1;
        self.note.add(b'>', octets);
        Ok(())
    }
}

/// Gives a piece so many times, and counts what is sent.
#[derive(Drop)]
pub struct RepeatingPeer<'a> {
    pub piece: &'a [u8],
    pub times: u32,
    pub sends: u32,
    pub octets: usize,
}

impl<'a> Peer for RepeatingPeer<'a> {
    fn receive(&mut self, piece: &mut [u8]) -> Result<usize, Failed> {
        if self.times == 0 {
            return Ok(0);
        }
        self.times -= 1;
        let count = self.piece.len().min(piece.len());
        piece[..count].copy_from_slice(&self.piece[..count]);
        Ok(count)
    }

    fn send(&mut self, octets: &[u8]) -> Result<(), Failed> {
        self.sends = self.sends.saturating_add(1);
        self.octets = self.octets.saturating_add(octets.len());
        Ok(())
    }
}

/// What happens in place of a first call. The later calls go well.
#[derive(Clone, Copy)]
pub enum First {
    /// It goes well too.
    Well,
    /// A read that a signal interrupts, seven such reads one after the other, and a read that fails.
    ReadInterrupted,
    ReadsInterrupted,
    ReadFails,
    /// A write that a signal interrupts, one that fails, and one that takes no octets.
    WriteInterrupted,
    WriteFails,
    WriteTakesNone,
    /// A flush that fails.
    FlushFails,
}

/// Gives a text, and counts how often it is read.
#[derive(Drop)]
pub struct FakeReader<'a> {
    pub text: &'a [u8],
    pub first: First,
    pub reads: u8,
}

impl<'a> Read for FakeReader<'a> {
    fn read(&mut self, buf: &mut [u8]) -> io::Result<usize> {
        self.reads = self.reads.saturating_add(1);
        let first = self.first;
        self.first = First::Well;
        match first {
            First::ReadInterrupted => return Err(io::Error::from(ErrorKind::Interrupted)),
            First::ReadsInterrupted => {
                if self.reads < 7 {
                    self.first = first;
                }
                return Err(io::Error::from(ErrorKind::Interrupted));
            }
            First::ReadFails => return Err(io::Error::from(ErrorKind::Other)),
            _ => {}
        }
        let count = self.text.len().min(buf.len());
        let (first, rest) = self.text.split_at(count);
        buf[..count].copy_from_slice(first);
        self.text = rest;
        Ok(count)
    }
}

/// Takes three octets a write at most. Notes `>` and the octets for each write, and `|` for each flush.
#[derive(Drop)]
pub struct FakeWriter {
    pub note: Note,
    pub first: First,
}

impl Write for FakeWriter {
    fn write(&mut self, buf: &[u8]) -> io::Result<usize> {
        let first = self.first;
        if first != First::FlushFails {
            self.first = First::Well;
        }
        match first {
            First::WriteInterrupted => return Err(io::Error::from(ErrorKind::Interrupted)),
            First::WriteFails => return Err(io::Error::from(ErrorKind::Other)),
            First::WriteTakesNone => return Ok(0),
            _ => {}
        }
        let count = buf.len().min(3);
        self.note.add(b'>', &buf[..count]);
        Ok(count)
    }

    fn flush(&mut self) -> io::Result<()> {
        let first = self.first;
        self.first = First::Well;
        if first == First::FlushFails {
            return Err(io::Error::from(ErrorKind::Other));
        }
        self.note.add(b'|', b"");
        Ok(())
    }
}

/// A row that a responder refuses.
#[derive(Clone, Copy, Drop)]
pub struct BadRow;

/// Counts rows, and answers each by its number and itself. `-` has no answer, `=` has two lines, `!` is a bad row, and
/// at `?` memory runs out.
#[derive(Drop)]
pub struct CountingResponder {
    pub taken: u8,
}

impl Responder for CountingResponder {
    type Fault = BadRow;

    ghost Takes = { λ old row new answer. ⊤ };

    ghost Refuses = { λ old row new fault. ⊤ };

    fn take(&mut self, row: &[u8], answer: &mut Vec<u8>) -> Result<(), Refusal<BadRow>> {
        self.taken = self.taken.wrapping_add(1);
        let lines = match row {
            b"!" => return Err(Refusal::Fault(BadRow)),
            b"?" => return Err(Refusal::OutOfMemory),
            b"-" => 0,
            b"=" => 2,
            _ => 1,
        };
        for _line in 0..lines {
            if push_line(answer, self.taken, row).is_err() {
                return Err(Refusal::OutOfMemory);
            }
        }
        Ok(())
    }
}

// Adds a line: a digit, and the row.
fn push_line(answer: &mut Vec<u8>, number: u8, row: &[u8]) -> Result<(), AllocError> {
    answer.push(b'0' + number % 10)?;
    answer.push(b' ')?;
    answer.extend_from_slice(row)?;
    answer.push(b'\n')?;
    Ok(())
}
