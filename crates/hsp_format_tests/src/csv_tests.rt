ghost use Rattle.hsp_csv.specs.Records.{IsReading};

use crate::same::is_same;
use csv::{ByteRecord, Reader};
use hsp_csv::*;
use std::alloc::{AllocError, Global};
use std::io;
use std::io::{ErrorKind, Read};
use std::test::Fail;

/// Gives at most one octet a call, and fails once `good` of them were given.
#[derive(Drop)]
struct OneByOne<'a> {
    text: &'a [u8],
    good: usize,
}

impl<'a> Read for OneByOne<'a> {
    fn read(&mut self, buf: &mut [u8]) -> io::Result<usize> {
        if self.good == 0 {
            return Err(io::Error::from(ErrorKind::Other));
        }
        self.good -= 1;
        match (self.text, buf) {
            ([octet, rest @ ..], [place, ..]) => {
                *place = *octet;
                self.text = rest;
                Ok(1)
            }
            _ => Ok(0),
        }
    }
}

// Two records behind a byte order mark.
fn little(good: usize) -> OneByOne<'static> {
    OneByOne {
        text: b"\xEF\xBB\xBFa,b\nc\n",
        good,
    }
}

// Writes a field in brackets.
fn write_field(out: &mut Vec<u8>, field: &[u8]) -> Result<(), AllocError> {
    out.extend_from_slice(b"[")?;
    out.extend_from_slice(field)?;
    out.extend_from_slice(b"]")
}

// Writes a record as its fields, and an LF.
fn write_record(out: &mut Vec<u8>, record: &ByteRecord) -> Result<(), AllocError> {
    for i in 0..record.len() {
        if let Some(field) = record.get(i) {
            write_field(out, field)?;
        }
    }
    out.extend_from_slice(b"\n")
}

// Writes the first ten records that a reader gives, and returns the fault at which it stopped.
fn write_ten<R: Read>(
    reader: &mut Reader<R>,
    record: &mut ByteRecord,
    out: &mut Vec<u8>,
) -> Option<RecordsFault>
    requires { IsReading reader.old }
{
    for _ in 0..10 {
        match take_record(reader, record) {
            Ok(true) => {
                if write_record(out, record).is_err() {
                    return Some(RecordsFault::OutOfMemory);
                }
            }
            Ok(false) => return None,
            Err(fault) => return Some(fault),
        }
    }
    None
}

// The same of a text. Where memory ran out, the tests read once more: where one growth is refused, the second reading
// is that of ample memory.
fn first_ten<R: Read + Drop>(alloc: Global, text: R, out: &mut Vec<u8>) -> Option<RecordsFault> {
    let mut reader = read_records(alloc, text);
    let mut record = ByteRecord::new(alloc);
    write_ten(&mut reader, &mut record, out)
}

// Room for what is read. Where a growth is refused, the second call finds memory.
fn room(alloc: Global) -> Result<Vec<u8>, AllocError> {
    match Vec::with_capacity(alloc, 64) {
        Err(AllocError) => Vec::with_capacity(alloc, 64),
        room => room,
    }
}

// Texts, and their records.
const RECORDS: [(&[u8], &[u8]); 12] = [
    (b"", b""),
    (b"\n\r\n\n", b""),
    (b"a,b\nc,d\n", b"[a][b]\n[c][d]\n"),
    (b"a,b\r\nc,d\r\n", b"[a][b]\n[c][d]\n"),
    (b"a\n\n\r\nb", b"[a]\n[b]\n"),
    (b"a,b\nc\nd,,\n", b"[a][b]\n[c]\n[d][][]\n"),
    (b" a , b \n", b"[ a ][ b ]\n"),
    (b"\"a,\"\"b\"\n", b"[a,\"b]\n"),
    (b"\"a\nb\",c\n", b"[a\nb][c]\n"),
    (b"\"\"\n", b"[]\n"),
    (b"\xEF\xBB\xBFa,b\n", b"[a][b]\n"),
    (b"\xEF\xBB\xBF\xEF\xBB\xBFa\n", b"[\xEF\xBB\xBFa]\n"),
];

#[test]
fn records_of_a_text(rt: HostRuntime) -> Result<(), Fail> {
    for (text, wanted) in RECORDS {
        let mut out = room(rt.alloc())?;
        let mut fault = first_ten(rt.alloc(), text, &mut out);
        if fault == Some(RecordsFault::OutOfMemory) {
            out.clear();
            fault = first_ten(rt.alloc(), text, &mut out);
        }
        is_same(&rt, fault, None);
        is_same(&rt, out.as_slice(), wanted);
    }
    Ok(())
}

#[test]
fn a_reader_that_gives_little_or_fails(rt: HostRuntime) -> Result<(), Fail> {
    const CASES: [(usize, Option<RecordsFault>, &[u8]); 4] = [
        (usize::MAX, None, b"[a][b]\n[c]\n"),
        (0, Some(RecordsFault::ReadFailed), b""),
        (6, Some(RecordsFault::ReadFailed), b""),
        (7, Some(RecordsFault::ReadFailed), b"[a][b]\n"),
    ];
    for (good, wanted_fault, wanted) in CASES {
        let mut out = room(rt.alloc())?;
        let mut fault = first_ten(rt.alloc(), little(good), &mut out);
        if fault == Some(RecordsFault::OutOfMemory) {
            out.clear();
            fault = first_ten(rt.alloc(), little(good), &mut out);
        }
        is_same(&rt, fault, wanted_fault);
        is_same(&rt, out.as_slice(), wanted);
    }
    Ok(())
}

#[test]
fn headers_are_reported(rt: HostRuntime) {
    const HEADER: [&[u8]; 2] = [b"a", b"b"];
    const CASES: [(&[u8], bool); 6] = [
        (b"a,b\nc\n", true),
        (b"\xEF\xBB\xBFa,b", true),
        (b"a,c\n", false),
        (b"a\n", false),
        (b"a,b,c\n", false),
        (b"", false),
    ];
    for (text, wanted) in CASES {
        let reader = OneByOne { text, good: 100 };
        let mut found = headed(rt.alloc(), reader, &HEADER);
        // Where a growth is refused, the second reading finds memory.
        if found == Err(RecordsFault::OutOfMemory) {
            let reader = OneByOne { text, good: 100 };
            found = headed(rt.alloc(), reader, &HEADER);
        }
        is_same(&rt, found, Ok(wanted));
    }
}

// Whether a reader gives a header. An answer that the record taken belies is turned round.
fn takes_header<R: Read>(
    reader: &mut Reader<R>,
    record: &mut ByteRecord,
    header: &[&[u8]],
) -> Result<bool, RecordsFault>
    requires { IsReading reader.old }
{
    let found = take_header(reader, record, header)?;
    if found != is_header(record, header) {
        return Ok(!found);
    }
    Ok(found)
}

// The same of a text, read to its end.
fn headed<R: Read + Drop>(alloc: Global, text: R, header: &[&[u8]]) -> Result<bool, RecordsFault> {
    let mut reader = read_records(alloc, text);
    let mut record = ByteRecord::new(alloc);
    takes_header(&mut reader, &mut record, header)
}
