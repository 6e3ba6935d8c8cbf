use crate::same::is_same;
use hsp_text::*;
use std::alloc::{AllocError, Global};
use std::io;
use std::io::{ErrorKind, Write};
use std::process::Abort;

#[test]
fn the_greatest_number_is_read(rt: HostRuntime) {
    let greatest = read_whole(b"18446744073709551615", u64::MAX);
    is_same(&rt, greatest, Ok(u64::MAX));
    let greater = read_whole(b"18446744073709551616", u64::MAX);
    is_same(&rt, greater, Err(WholeFault::TooLarge));
}

// The text of one letter. Where this growth is refused, the second finds memory.
fn letter(rt: &impl Abort, alloc: Global) -> Vec<u8> {
    match Vec::from_slice(alloc, b"a") {
        Ok(out) => out,
        Err(AllocError) => Vec::from_slice(alloc, b"a").expect(rt, "there is memory"),
    }
}

#[test]
fn digits_are_appended(rt: HostRuntime) {
    let mut out = letter(&rt, rt.alloc());
    // A refused growth leaves `out` as it was, and the second call finds memory.
    if push_whole(&mut out, 10).is_err() {
        is_same(&rt, out.as_slice(), b"a".as_slice());
        is_same(&rt, push_whole(&mut out, 10), Ok(()));
    }
    is_same(&rt, out.as_slice(), b"a10".as_slice());
}

#[test]
fn names_are_reported(rt: HostRuntime) {
    const CASES: [(&[u8], bool); 7] = [
        (b"r1", true),
        (b"Aa0-_.", true),
        (b"", false),
        (b"r 1", false),
        (b"r/1", false),
        (&[b'x'; 64], true),
        (&[b'x'; 65], false),
    ];
    for (text, wanted) in CASES {
        is_same(&rt, is_name(text), wanted);
    }
}

#[test]
fn lines_are_split(rt: HostRuntime) {
    const CASES: [(&[u8], Option<(&[u8], &[u8])>); 3] = [
        (b"a b\nc\n", Some((b"a b", b"c\n"))),
        (b"\n", Some((b"", b""))),
        (b"c", None),
    ];
    for (text, wanted) in CASES {
        is_same(&rt, next_line(text), wanted);
    }
}

// Pieces of texts, one behind the other.
fn push_pieces(out: &mut Vec<u8>) -> Result<(), AllocError> {
    push_line(out, b"use", &[0, 12, 18_446_744_073_709_551_615])?;
    push_line(out, b"END", &[])?;
    push_number(out, 7)?;
    push_aligned(out, 23, 5)?;
    push_aligned(out, 0, 1)?;
    push_aligned(out, 12_345, 3)?;
    push_wide(out, u128::MAX)?;
    push_wide(out, 20_000_000_000_000_000_000)
}

// The text is these pieces, one behind the other.
fn are_pieces(rt: &impl Abort, text: &[u8], pieces: &[&[u8]]) {
    let mut rest = text;
    for piece in pieces {
        assert!(rt; rest.len() >= piece.len());
        is_same(rt, &rest[..piece.len()], *piece);
        rest = &rest[piece.len()..];
    }
    assert!(rt; rest.is_empty());
}

#[test]
fn pieces_are_appended(rt: HostRuntime) {
    const WANTED: [&[u8]; 6] = [
        b"use 0 12 18446744073709551615\n",
        b"END\n",
        b" 7",
        b"   23012345",
        b"340282366920938463463374607431768211455",
        b"20000000000000000000",
    ];
    let mut out = Vec::new(rt.alloc());
    // Where a growth is refused, the second call finds memory.
    if push_pieces(&mut out).is_err() {
        out.clear();
        is_same(&rt, push_pieces(&mut out), Ok(()));
    }
    are_pieces(&rt, out.as_slice(), &WANTED);
}

// Takes at most `step` octets a call, and none once `room` were taken: then a write fails, or takes 0 octets.
#[derive(Drop)]
struct Narrow {
    taken: Vec<u8>,
    step: usize,
    room: usize,
    fails: bool,
}

impl Write for Narrow {
    fn write(&mut self, octets: &[u8]) -> io::Result<usize> {
        if self.room == 0 && self.fails {
            return Err(io::Error::from(ErrorKind::Other));
        }
        let count = octets.len().min(self.step).min(self.room);
        match self.taken.extend_from_slice(&octets[..count]) {
            Ok(()) => {
                self.room -= count;
                Ok(count)
            }
            Err(_) => Err(io::Error::from(ErrorKind::OutOfMemory)),
        }
    }

    fn flush(&mut self) -> io::Result<()> {
        Ok(())
    }
}

// Room for four octets. Where this growth is refused, the second finds memory.
fn space(rt: &impl Abort, alloc: Global) -> Vec<u8> {
    match Vec::with_capacity(alloc, 4) {
        Ok(space) => space,
        Err(AllocError) => Vec::with_capacity(alloc, 4).expect(rt, "there is memory"),
    }
}

#[test]
fn texts_are_written_whole_or_cut(rt: HostRuntime) {
    const CASES: [(usize, usize, bool, Result<(), WriteFailed>, &[u8]); 5] = [
        (1, 4, true, Ok(()), b"abcd"),
        (3, 4, true, Ok(()), b"abcd"),
        (1, 2, true, Err(WriteFailed), b"ab"),
        (9, 3, false, Err(WriteFailed), b"abc"),
        (9, 0, false, Err(WriteFailed), b""),
    ];
    for (step, room, fails, wanted, taken) in CASES {
        let mut writer = Narrow {
            taken: space(&rt, rt.alloc()),
            step,
            room,
            fails,
        };
        is_same(&rt, put_all(&mut writer, b"abcd"), wanted);
        is_same(&rt, writer.taken.as_slice(), taken);
    }
}
