// A reader and a writer that cut and fail as they are asked to.

use std::alloc::{AllocError, Global};
use std::io;
use std::io::{ErrorKind, Read, Write};
use std::process::Abort;

/// How many octets go at most in a call, and how many in all.
#[derive(Clone, Copy)]
pub struct Limits {
    pub piece: usize,
    pub good: usize,
}

/// All at once.
pub const ALL: Limits = Limits {
    piece: usize::MAX,
    good: 200,
};

/// One octet a call.
pub const ONE_BY_ONE: Limits = Limits {
    piece: 1,
    good: 200,
};

/// Gives at most `piece` octets of a text a call, and fails once `good` of them were given.
#[derive(Drop)]
pub struct FakeReader<'a> {
    pub text: &'a [u8],
    pub piece: usize,
    pub good: usize,
}

impl<'a> FakeReader<'a> {
    /// Gives the whole text.
    pub fn whole(text: &'a [u8]) -> FakeReader<'a> {
        FakeReader {
            text,
            piece: usize::MAX,
            good: usize::MAX,
        }
    }

    /// Gives it within limits.
    pub fn within(text: &'a [u8], limits: Limits) -> FakeReader<'a> {
        FakeReader {
            text,
            piece: limits.piece,
            good: limits.good,
        }
    }
}

impl<'a> Read for FakeReader<'a> {
    fn read(&mut self, buf: &mut [u8]) -> io::Result<usize> {
        if self.good == 0 {
            return Err(io::Error::from(ErrorKind::Other));
        }
        let room = buf.len();
        for (given, place) in buf.iter_mut().enumerate() {
            let [octet, rest @ ..] = self.text else {
                return Ok(given);
            };
            if given == self.piece || self.good == 0 {
                return Ok(given);
            }
            *place = *octet;
            self.text = rest;
            self.good -= 1;
        }
        Ok(room)
    }
}

/// Takes at most `piece` octets a call, and none once `good` of them were taken; what it takes it holds, in room taken
/// before.
#[derive(Drop)]
pub struct FakeWriter {
    pub taken: Vec<u8>,
    pub piece: usize,
    pub good: usize,
    pub is_flushed: bool,
    pub may_flush: bool,
}

impl FakeWriter {
    /// Takes all that is written, as far as there is room for 256 octets. Where a growth is
    /// refused, the second call finds memory.
    pub fn whole(rt: &impl Abort, alloc: Global) -> FakeWriter {
        let taken = match Vec::with_capacity(alloc, 256) {
            Ok(taken) => taken,
            Err(AllocError) => Vec::with_capacity(alloc, 256).expect(rt, "there is memory"),
        };
        FakeWriter {
            taken,
            piece: usize::MAX,
            good: 256,
            is_flushed: false,
            may_flush: true,
        }
    }

    /// Takes what is written within limits.
    pub fn within(rt: &impl Abort, alloc: Global, limits: Limits) -> FakeWriter {
        let mut writer = FakeWriter::whole(rt, alloc);
        writer.piece = limits.piece;
        writer.good = limits.good;
        writer
    }
}

impl Write for FakeWriter {
    fn write(&mut self, buf: &[u8]) -> io::Result<usize> {
        for (count, octet) in buf.iter().enumerate() {
            if count == self.piece || self.good == 0 || self.taken.push(*octet).is_err() {
                return if count == 0 {
                    Err(io::Error::from(ErrorKind::Other))
                } else {
                    Ok(count)
                };
            }
            self.good -= 1;
        }
        Ok(buf.len())
    }

    fn flush(&mut self) -> io::Result<()> {
        if !self.may_flush {
            return Err(io::Error::from(ErrorKind::Other));
        }
        self.is_flushed = true;
        Ok(())
    }
}

/// Gives a head, and then one row that many times.
#[derive(Drop)]
pub struct Rows {
    pub head: &'static [u8],
    pub row: &'static [u8],
    pub times: u32,
}

impl Read for Rows {
    fn read(&mut self, buf: &mut [u8]) -> io::Result<usize> {
        let room = buf.len();
        for (given, place) in buf.iter_mut().enumerate() {
            if self.head.is_empty() {
                if self.times == 0 {
                    return Ok(given);
                }
                self.times -= 1;
                self.head = self.row;
            }
            let [octet, rest @ ..] = self.head else {
                return Ok(given);
            };
            *place = *octet;
            self.head = rest;
        }
        Ok(room)
    }
}

/// Counts lines that are all the wanted one, and the octets of the last other one.
#[derive(Drop)]
pub struct Lines {
    pub wanted: &'static [u8],
    pub many: u32,
    pub others: usize,
}

impl Write for Lines {
    fn write(&mut self, buf: &[u8]) -> io::Result<usize> {
        if buf == self.wanted && self.many < u32::MAX {
            self.many += 1;
        } else {
            self.others = buf.len();
        }
        Ok(buf.len())
    }

    fn flush(&mut self) -> io::Result<()> {
        Ok(())
    }
}
