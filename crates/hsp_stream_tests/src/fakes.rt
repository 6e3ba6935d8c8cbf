// A reader of logs that are long or that fail, and writers that fail.

use std::io;
use std::io::{ErrorKind, Read, Write};

/// Gives a head, then one row so many times, and then an end, behind which it may fail.
#[derive(Clone, Copy, Drop)]
pub(crate) struct Rows<'a> {
    pub(crate) head: &'a [u8],
    pub(crate) row: &'a [u8],
    pub(crate) times: u32,
    pub(crate) end: &'a [u8],
    pub(crate) fails: bool,
}

impl<'a> Rows<'a> {
    /// Only a text.
    pub(crate) fn only(text: &'a [u8]) -> Rows<'a> {
        Rows {
            head: text,
            row: b"",
            times: 0,
            end: b"",
            fails: false,
        }
    }
}

impl Read for Rows<'_> {
    fn read(&mut self, buf: &mut [u8]) -> io::Result<usize> {
        if self.head.is_empty() {
            if self.times > 0 {
                self.times -= 1;
                self.head = self.row;
            } else {
                self.head = self.end;
                self.end = b"";
            }
        }
        if self.head.is_empty() && self.fails {
            return Err(io::Error::from(ErrorKind::Other));
        }
        let count = self.head.len().min(buf.len());
        let (first, rest) = self.head.split_at(count);
        buf[..count].copy_from_slice(first);
        self.head = rest;
        Ok(count)
    }
}

/// Takes so many pieces of what is written, and nothing more.
#[derive(Drop)]
pub(crate) struct Pieces {
    pub(crate) left: u32,
}

impl Write for Pieces {
    fn write(&mut self, buf: &[u8]) -> io::Result<usize> {
        if self.left == 0 {
            return Err(io::Error::from(ErrorKind::Other));
        }
        self.left -= 1;
        Ok(buf.len())
    }

    fn flush(&mut self) -> io::Result<()> {
        Ok(())
    }
}

/// Takes nothing.
#[derive(Drop)]
pub(crate) struct Full;

impl Write for Full {
    fn write(&mut self, _buf: &[u8]) -> io::Result<usize> {
        Err(io::Error::from(ErrorKind::Other))
    }

    fn flush(&mut self) -> io::Result<()> {
        Ok(())
    }
}
