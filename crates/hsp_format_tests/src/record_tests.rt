// The worked cases, and the readers of a record that has something in every field.

use crate::same::{is_same, is_same_of};
use hsp_record::*;
use std::alloc::{AllocError, Global};
use std::fmt::Debug;
use std::process::Abort;

/// A site of one server, 7, in 48 octets.
const SITE: [u8; 48] = [
    0, 1, 2, 0, 0, 1, 0, 1, 0, 0, 0, 0, 0, 0, 0, 0, 0, 0, 0, 1, 0, 0, 0, 7, 0, 0, 0, 0, 0, 0, 0, 0,
    0, 0, 0, 0, 0, 0, 0, 1, 0, 0, 0, 0, 0, 0, 0, 0,
];

/// A site of two servers, 7 and 3, in 76 octets.
const TWO_SERVERS: [u8; 76] = [
    0, 1, 2, 0, 0, 1, 0, 1, 0, 0, 0, 0, 0, 0, 0, 0, 0, 0, 0, 2, 0, 0, 0, 7, 0, 0, 0, 0, 0, 0, 0, 0,
    0, 0, 0, 0, 0, 0, 0, 1, 0, 0, 0, 0, 0, 0, 0, 0, 0, 0, 0, 3, 0, 0, 0, 0, 0, 0, 0, 0, 0, 0, 0, 0,
    0, 0, 0, 1, 0, 0, 0, 0, 0, 0, 0, 0,
];

/// A site with a filter, an attribute, a key and an interface.
const FULL_SITE: &[u8] =
    b"\0\x04\x02\x01\0\x05\x06\x02\0\0\0\x01f\0\0\0\x01\0\0\0\x01a\0\0\0\x02bc\0\0\0\x01\0\0\0\x09addressofserver9\0\0\
    \0\x03key\0\0\0\x01\x01\x02\0\0\x0a\x51";

/// A list of one value of index 1 without data, with a reference to index 2 of `10/3`.
const REFERRING: &[u8] =
    b"\0\0\0\x01\0\0\0\x01\0\0\0\x07HS_SITE\0\0\0\0\x0e\x01\0\0\x0e\x10\0\0\0\0\x65\x53\xf1\0\0\0\0\x01\0\0\0\x0410/3\
    \0\0\0\x02";

/// The body of a request for the value of index 1 and of type `HS_SITE` of `10/3`.
const BODY: &[u8] = b"\0\0\0\x0410/3\0\0\0\x01\0\0\0\x01\0\0\0\x01\0\0\0\x07HS_SITE";

/// The fields of a value of index 1 before the length of its data, in a list of one.
const ONE_VALUE: &[u8] = b"\0\0\0\x01\0\0\0\x01\0\0\0\x07HS_SITE";

// Parts of octets, one behind the other. Where a growth is refused, the second joining finds memory.
fn joined(rt: &impl Abort, alloc: Global, parts: &[&[u8]]) -> Vec<u8> {
    match parts.concat(alloc) {
        Ok(octets) => octets,
        Err(AllocError) => parts.concat(alloc).expect(rt, "there is memory"),
    }
}

// A call for which memory ran out is made once more: where one growth is refused, the second answer is that of ample
// memory.
fn site_of(alloc: Global, octets: &[u8]) -> Result<SiteRecord, RecordFault> {
    match decode_site(alloc, octets) {
        Err(RecordFault::OutOfMemory) => decode_site(alloc, octets),
        answer => answer,
    }
}

fn list_of<'a>(alloc: Global, octets: &'a [u8]) -> Result<ValueList<'a>, RecordFault> {
    match decode_values(alloc, octets) {
        Err(RecordFault::OutOfMemory) => decode_values(alloc, octets),
        answer => answer,
    }
}

fn site_spelling(alloc: Global, site: &SiteRecord) -> Result<Vec<u8>, AllocError> {
    match encode_site(alloc, site) {
        Err(_) => encode_site(alloc, site),
        answer => answer,
    }
}

fn list_spelling(alloc: Global, list: &ValueList) -> Result<Vec<u8>, AllocError> {
    match encode_values(alloc, list) {
        Err(_) => encode_values(alloc, list),
        answer => answer,
    }
}

fn site_fault(alloc: Global, octets: &[u8]) -> Option<RecordFault> {
    site_of(alloc, octets).err()
}

fn values_fault(alloc: Global, octets: &[u8]) -> Option<RecordFault> {
    list_of(alloc, octets).err()
}

// The fault is that the octets end in the field that begins here.
fn is_cut<C: Debug>(rt: &impl Abort, case: &C, fault: Option<RecordFault>, at: usize) {
    is_same_of(rt, case, fault, Some(RecordFault::Truncated { at }));
}

// The record of the octets is spelled as them.
fn site_comes_back(rt: &impl Abort, alloc: Global, octets: &[u8]) {
    let site = site_of(alloc, octets).expect(rt, "there is a record");
    let spelled = site_spelling(alloc, &site).expect(rt, "there is memory");
    assert!(rt; spelled.as_slice() == octets);
}

// The list is spelled as these octets.
fn list_comes_back(rt: &impl Abort, alloc: Global, list: &ValueList, octets: &[u8]) {
    let spelled = list_spelling(alloc, list).expect(rt, "there is memory");
    assert!(rt; spelled.as_slice() == octets);
}

#[test]
fn sites_come_back(rt: HostRuntime) {
    let mut no_server = [0; 20];
    no_server.copy_from_slice(&SITE[..20]);
    no_server[19] = 0;
    let mut third_option = SITE;
    third_option[7] = 3;
    for octets in [
        SITE.as_slice(),
        TWO_SERVERS.as_slice(),
        FULL_SITE,
        no_server.as_slice(),
        third_option.as_slice(),
    ] {
        site_comes_back(&rt, rt.alloc(), octets);
    }
}

// What stands before the servers of the full site.
fn has_its_head(rt: &impl Abort, site: &SiteRecord) {
    is_same(rt, site.version(), 4);
    is_same(rt, site.protocol(), (2, 1));
    is_same(rt, site.serial(), 5);
    is_same(rt, site.mask(), 6);
    is_same(rt, site.option_octet(), 2);
    is_same(rt, site.filter(), b"f".as_slice());
    assert!(rt; site.attribute_count() == 1);
    let (name, value) = site.attribute(0);
    is_same(rt, name, b"a".as_slice());
    is_same(rt, value, b"bc".as_slice());
}

// The server of the full site.
fn has_its_server(rt: &impl Abort, site: &SiteRecord) {
    assert!(rt; site.server_count() == 1);
    let server = site.server(0);
    is_same(rt, server.id(), 9);
    is_same(rt, server.address(), *b"addressofserver9");
    is_same(rt, server.key(), b"key".as_slice());
    assert!(rt; server.interface_count() == 1);
    is_same(rt, server.interface(0), (1, 2, 2641));
}

#[test]
fn fields_are_read(rt: HostRuntime) {
    let site = site_of(rt.alloc(), FULL_SITE).expect(&rt, "there is a record");
    has_its_head(&rt, &site);
    has_its_server(&rt, &site);
}

#[test]
fn site_faults_are_reported(rt: HostRuntime) {
    let mut octets = [0; 49];
    octets[..48].copy_from_slice(&SITE);
    is_same(
        &rt,
        site_fault(rt.alloc(), &octets),
        Some(RecordFault::Trailing { at: 48 }),
    );
    is_cut(&rt, &47, site_fault(rt.alloc(), &SITE[..47]), 44);
    for (count, wanted) in [
        ([0, 0, 0, 1], RecordFault::Truncated { at: 20 }),
        ([0, 0, 4, 0], RecordFault::Truncated { at: 20 }),
        ([0, 0, 4, 1], RecordFault::TooManyServers),
        ([255, 255, 255, 255], RecordFault::TooManyServers),
    ] {
        octets[16..20].copy_from_slice(&count);
        is_same(&rt, site_fault(rt.alloc(), &octets[..20]), Some(wanted));
    }
    octets[16] = 255;
    is_cut(&rt, &17, site_fault(rt.alloc(), &octets[..17]), 16);
}

// The fault of a site that is decoded once.
fn first_site_fault(alloc: Global, octets: &[u8]) -> Option<RecordFault> {
    decode_site(alloc, octets).err()
}

#[test]
fn forged_counts_take_no_memory(rt: HostRuntime) {
    for (place, len, at) in [(8, 12, 12), (12, 16, 16), (40, 48, 44), (44, 48, 48)] {
        let mut octets = SITE;
        octets[place..place + 4].copy_from_slice(&[255; 4]);
        is_cut(
            &rt,
            &place,
            first_site_fault(rt.alloc(), &octets[..len]),
            at,
        );
    }
    let count = [255; 4];
    is_cut(&rt, &count, decode_values(rt.alloc(), &count).err(), 4);
}

// The one value of a list is the site of one server, of index 1.
fn has_the_site(rt: &impl Abort, list: &ValueList) {
    is_same(rt, list.len(), 1);
    assert!(rt; list.find(2).is_none());
    let value = list.find(1).expect(rt, "there is a value of index 1");
    is_same(rt, value.index(), 1);
    is_same(rt, value.type_octets(), b"HS_SITE".as_slice());
    is_same(rt, value.octets(), SITE.as_slice());
}

#[test]
fn value_lists_come_back(rt: HostRuntime) {
    let octets = joined(
        &rt,
        rt.alloc(),
        &[ONE_VALUE, &[0, 0, 0, 48], &SITE, &[0; 18]],
    );
    is_same(&rt, octets.len(), 89);
    let (_, cut) = octets.split_last().expect(&rt, "there are octets");
    is_cut(&rt, &88, values_fault(rt.alloc(), cut), 85);
    let list = list_of(rt.alloc(), &octets).expect(&rt, "there is a list");
    has_the_site(&rt, &list);
    list_comes_back(&rt, rt.alloc(), &list, &octets);
}

// A list of 1,001 values without data, of the indices from 0 on.
fn long_list(alloc: Global) -> Result<Vec<u8>, AllocError> {
    let mut octets = Vec::from_slice(alloc, &1001u32.to_be_bytes())?;
    for index in 0..1001u32 {
        let mut value = [0; 30];
        value[..4].copy_from_slice(&index.to_be_bytes());
        octets.extend_from_slice(&value)?;
    }
    Ok(octets)
}

// The same. Where a growth is refused, the second call finds memory.
fn held_long_list(rt: &impl Abort, alloc: Global) -> Vec<u8> {
    match long_list(alloc) {
        Ok(octets) => octets,
        Err(AllocError) => long_list(alloc).expect(rt, "there is memory"),
    }
}

#[test]
fn long_lists_come_back(rt: HostRuntime) {
    let octets = held_long_list(&rt, rt.alloc());
    let list = list_of(rt.alloc(), &octets).expect(&rt, "there is a list");
    is_same(&rt, list.len(), 1001);
    assert!(rt; list.find(1000).is_some());
    list_comes_back(&rt, rt.alloc(), &list, &octets);
}

// A site of one server with a key of 65,536 octets.
fn large_site(alloc: Global) -> Result<Vec<u8>, AllocError> {
    let key = vec![in alloc; 7; 65_536]?;
    [&SITE[..40], &65_536u32.to_be_bytes(), &key, &[0; 4]].concat(alloc)
}

// The same. Where a growth is refused, the second call finds memory.
fn held_large_site(rt: &impl Abort, alloc: Global) -> Vec<u8> {
    match large_site(alloc) {
        Ok(octets) => octets,
        Err(AllocError) => large_site(alloc).expect(rt, "there is memory"),
    }
}

#[test]
fn large_sites_come_back(rt: HostRuntime) {
    let octets = held_large_site(&rt, rt.alloc());
    is_same(&rt, octets.len(), 65_584);
    site_comes_back(&rt, rt.alloc(), &octets);
}

#[test]
fn references_and_no_values_come_back(rt: HostRuntime) {
    for (octets, len) in [([0; 4].as_slice(), 0), (REFERRING, 1)] {
        let list = list_of(rt.alloc(), octets).expect(&rt, "there is a list");
        is_same(&rt, list.len(), len);
        is_same(&rt, list.is_empty(), len == 0);
        list_comes_back(&rt, rt.alloc(), &list, octets);
    }
}

// The body is a request for the handle, or has the fault.
fn is_body(rt: &impl Abort, body: &[u8], wanted: Result<&[u8], RecordFault>) {
    match (decode_request(body), wanted) {
        (Ok(request), Ok(handle)) => is_same(rt, request.handle(), handle),
        (Err(fault), Err(expected)) => is_same(rt, fault, expected),
        _ => assert!(rt; false, "{body:?}"),
    }
}

#[test]
fn request_bodies_are_read(rt: HostRuntime) {
    const CASES: [(&[u8], Result<&[u8], RecordFault>); 6] = [
        (b"\0\0\0\x0210\0\0\0\0\0\0\0\0", Ok(b"10")),
        (b"\0\0\0\x0410/3\0\0\0\0\0\0\0\0", Ok(b"10/3")),
        (BODY, Ok(b"10/3")),
        (b"\0\0\0\x04", Err(RecordFault::Truncated { at: 4 })),
        (
            b"\0\0\0\x0410/3\xff\xff\xff\xff",
            Err(RecordFault::Truncated { at: 12 }),
        ),
        (
            b"\0\0\0\x0210\0\0\0\0\0\0\0\0\0",
            Err(RecordFault::Trailing { at: 14 }),
        ),
    ];
    for (body, wanted) in CASES {
        is_body(&rt, body, wanted);
    }
}
