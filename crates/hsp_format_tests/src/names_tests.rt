use crate::same::is_same;
use hsp_names::*;
use std::process::Abort;

// The parts of 10.abc/a/b.
fn has_its_parts(rt: &impl Abort, handle: HandleRef<'_>) {
    is_same(rt, handle.bytes(), b"10.abc/a/b".as_slice());
    is_same(rt, handle.naming_authority(), b"10.abc".as_slice());
    is_same(rt, handle.local_name(), b"a/b".as_slice());
}

#[test]
fn parts_are_lent(rt: HostRuntime) {
    let handle = HandleRef::parse(b"10.abc/a/b").expect(&rt, "the handle is one");
    has_its_parts(&rt, handle);
    let mut segments = handle.segments();
    for wanted in [Some(b"10".as_slice()), Some(b"abc".as_slice()), None] {
        is_same(&rt, segments.next(), wanted);
    }
}
