use crate::same::is_same;
use hsp_hash::*;
use hsp_names::HandleRef;
use std::process::Abort;

fn place(option: HashOption, handle: &[u8], servers: u32) -> Option<u32> {
    match HandleRef::parse(handle) {
        Ok(handle) if servers > 0 => Some(server_number(option, handle, servers)),
        _ => None,
    }
}

#[test]
fn options_have_their_octets(rt: HostRuntime) {
    for (octet, wanted) in [
        (0, Some(HashOption::ByNa)),
        (1, Some(HashOption::ByLocal)),
        (2, Some(HashOption::ByHandle)),
        (3, None),
        (255, None),
    ] {
        is_same(&rt, HashOption::of_octet(octet), wanted);
    }
}

// The MD5 of each local name, as RFC 1321's algorithm gives it.
const DIGESTS_OF_LOCAL_NAMES: [(&[u8], u128); 7] = [
    (b"10/", 0xd41d8cd98f00b204e9800998ecf8427e),
    (b"10/0", 0xcfcd208495d565ef66e7dff9f98764da),
    (b"10/1", 0xc4ca4238a0b923820dcc509a6f75849b),
    (b"10/2", 0xc81e728d9d4c2f636f067f89cc14862c),
    (b"10/3", 0xeccbc87e4b5ce2fe28308fd9f2a7baf3),
    (b"10/123", 0x202cb962ac59075b964b07152d234b70),
    (b"10/A", 0x7fc56270e7a70fa81a5935b72eacbe29),
];

// The digest of a handle by an option is this one.
fn is_digest(rt: &impl Abort, option: HashOption, handle: &[u8], wanted: u128) {
    let handle = HandleRef::parse(handle).expect(rt, "the handle is one");
    is_same(rt, digest_of(option, handle), wanted.to_be_bytes());
}

#[test]
fn digests_are_md5(rt: HostRuntime) {
    for (handle, wanted) in DIGESTS_OF_LOCAL_NAMES {
        is_digest(&rt, HashOption::ByLocal, handle, wanted);
    }
}

#[test]
fn naming_authorities_are_hashed(rt: HostRuntime) {
    let wanted = 0xd3d9446802a44259755d38e6d163e820;
    is_digest(&rt, HashOption::ByNa, b"10/1", wanted);
}

#[test]
fn the_least_integer_has_an_absolute_value(rt: HostRuntime) {
    let digest = [0, 0, 0, 0, 0, 0, 0, 0, 0, 0, 0, 0, 0x80, 0, 0, 0];
    is_same(&rt, number_of_digest(&digest, 3), 2);
}

#[test]
fn places_are_those_of_the_standard(rt: HostRuntime) {
    const CASES: [(HashOption, &[u8], u32, u32); 11] = [
        (HashOption::ByLocal, b"10/3", 2, 1),
        (HashOption::ByLocal, b"10/3", 3, 0),
        (HashOption::ByLocal, b"10/", 2, 0),
        (HashOption::ByLocal, b"10/", 3, 0),
        (HashOption::ByLocal, b"10/", 7, 2),
        (HashOption::ByLocal, b"10/a", 3, 2),
        (HashOption::ByLocal, b"10/A", 3, 2),
        (HashOption::ByLocal, b"10/a", 7, 1),
        (HashOption::ByLocal, b"10/A", 7, 1),
        (HashOption::ByNa, b"10/1", 3, 2),
        (HashOption::ByHandle, b"10/1", 1, 0),
    ];
    for (option, handle, servers, wanted) in CASES {
        is_same(&rt, place(option, handle, servers), Some(wanted));
    }
}
