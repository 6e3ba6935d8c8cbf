// The fields of rows, by RFC 4180.

use crate::same::is_same;
use hsp_csv::{RowFields, RowReader, without_mark};
use std::alloc::{AllocError, Global};
use std::process::Abort;

// The number of fields of a row, where it is blank 0 and where it is anything else 3, and its first two fields.
type Shown<'a> = (u8, &'a [u8], &'a [u8]);

fn shown(fields: RowFields<'_>) -> Shown<'_> {
    match fields {
        RowFields::Blank => (0, b"", b""),
        RowFields::One(first) => (1, first, b""),
        RowFields::Two(first, second) => (2, first, second),
        RowFields::Other => (3, b"", b""),
    }
}

// A reader reads the line so. Where a growth is refused, the second reader finds memory.
fn reads(rt: &impl Abort, alloc: Global, line: &[u8], wanted: Shown<'_>) {
    let mut first = RowReader::new(alloc);
    let fields = first.read(alloc, line);
    if let Ok(fields) = fields {
        is_same(rt, shown(fields), wanted);
        return;
    }
    let mut second = RowReader::new(alloc);
    match second.read(alloc, line) {
        Ok(fields) => is_same(rt, shown(fields), wanted),
        Err(AllocError) => is_same(rt, true, false),
    }
}

#[test]
fn plain_lines_are_cut_at_commas(rt: HostRuntime) {
    const CASES: [(&[u8], Shown<'_>); 7] = [
        (b"", (0, b"", b"")),
        (b"a", (1, b"a", b"")),
        (b" a ", (1, b" a ", b"")),
        (b"eu,10/1", (2, b"eu", b"10/1")),
        (b",", (2, b"", b"")),
        (b"a,b,", (3, b"", b"")),
        (b"\xEF\xBB\xBFa,b", (2, b"\xEF\xBB\xBFa", b"b")),
    ];
    for (line, wanted) in CASES {
        reads(&rt, rt.alloc(), line, wanted);
    }
}

#[test]
fn lines_with_quotes_are_records(rt: HostRuntime) {
    const CASES: [(&[u8], Shown<'_>); 7] = [
        (b"\"a,b\",c", (2, b"a,b", b"c")),
        (b"a,\"say \"\"b\"\"\"", (2, b"a", b"say \"b\"")),
        (b"\"\"", (1, b"", b"")),
        (b"\"a\nb\",c", (2, b"a\nb", b"c")),
        (b"a,b\"c", (2, b"a", b"b\"c")),
        (b"a,\"b", (2, b"a", b"b")),
        (b"\xEF\xBB\xBF\"a\",b", (2, b"\xEF\xBB\xBF\"a\"", b"b")),
    ];
    for (line, wanted) in CASES {
        reads(&rt, rt.alloc(), line, wanted);
    }
}

#[test]
fn a_carriage_return_ends_a_record(rt: HostRuntime) {
    const CASES: [(&[u8], Shown<'_>); 5] = [
        (b"a,b\r", (2, b"a", b"b")),
        (b"\r", (0, b"", b"")),
        (b"a\rb", (3, b"", b"")),
        (b"\ra", (1, b"a", b"")),
        (b"a,b,c\r", (3, b"", b"")),
    ];
    for (line, wanted) in CASES {
        reads(&rt, rt.alloc(), line, wanted);
    }
}

#[test]
fn a_mark_at_the_start_is_passed_over_once(rt: HostRuntime) {
    const CASES: [(&[u8], &[u8]); 5] = [
        (b"", b""),
        (b"region", b"region"),
        (b"\xEF\xBB\xBFregion", b"region"),
        (b"\xEF\xBB\xBF\xEF\xBB\xBFa", b"\xEF\xBB\xBFa"),
        (b"\xEF\xBB", b"\xEF\xBB"),
    ];
    for (line, wanted) in CASES {
        is_same(&rt, without_mark(line), wanted);
    }
}
