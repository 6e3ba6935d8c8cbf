use crate::same::is_same;
use hsp_cert::CertFault;
use hsp_price_text::*;
use std::alloc::{AllocError, Global};
use std::process::Abort;

const PLAN: &[u8] =
    b"HSPLAN PRICES 1\nPLAN\ncost 29\nserver 0 0\nserver 1 3\nserver 2 0\nhost 0 2\nclass eu 0 4 1 0\n\
    class eu 0 1 1 0 2 5\nclass eu 0 2 2 5\nclass us.west 1 7 2 0\nEND\n";

const SHORTAGE: &[u8] = b"HSPLAN PRICES 1\nSHORT\nserver 1\nserver 3\ndemand 9\ncapacity 8\nEND\n";

// The certificate that a text spells. Where a growth is refused, the second reading finds memory.
fn read_twice(alloc: Global, text: &[u8]) -> Result<PriceCertificate, CertFault> {
    match read_prices(alloc, text) {
        Err(CertFault::OutOfMemory) => read_prices(alloc, text),
        answer => answer,
    }
}

// The text of a certificate. Where a growth is refused, the second writing finds memory.
fn write_twice(alloc: Global, certificate: &PriceCertificate) -> Result<Vec<u8>, AllocError> {
    match write_prices(alloc, certificate) {
        Err(AllocError) => write_prices(alloc, certificate),
        answer => answer,
    }
}

// The certificate of a text that can be read.
fn read_whole(rt: &impl Abort, alloc: Global, text: &[u8]) -> PriceCertificate {
    read_twice(alloc, text).expect(rt, "the text is a certificate's")
}

// The text is read and written back.
fn comes_back(rt: &impl Abort, alloc: Global, text: &[u8]) {
    let written = write_twice(alloc, &read_whole(rt, alloc, text)).expect(rt, "there is memory");
    assert!(rt; written.as_slice() == text);
}

#[test]
fn texts_by_prices_are_read_and_written_back(rt: HostRuntime) {
    let no_class: &[u8] = b"HSPLAN PRICES 1\nPLAN\ncost 0\nEND\n";
    let no_server: &[u8] = b"HSPLAN PRICES 1\nSHORT\ndemand 0\ncapacity 0\nEND\n";
    let greatest: &[u8] =
        b"HSPLAN PRICES 1\nPLAN\ncost 10000000000000000\nserver 0 1000000000000\nhost 0 1000000000000\n\
        class eu 0 1000000000000 1023 0\nEND\n";
    let last_server: &[u8] =
        b"HSPLAN PRICES 1\nSHORT\nserver 0\nserver 1023\ndemand 10000000000000000\ncapacity 10000000000000000\nEND\n";
    for text in [PLAN, SHORTAGE, no_class, no_server, greatest, last_server] {
        comes_back(&rt, rt.alloc(), text);
    }
}

// The plan of a certificate.
fn plan_of(certificate: &PriceCertificate) -> Option<&PricedPlan> {
    match certificate {
        PriceCertificate::Plan(plan) => Some(plan),
        PriceCertificate::Shortage(_) => None,
    }
}

// The short set of a certificate.
fn set_of(certificate: &PriceCertificate) -> Option<&ShortServers> {
    match certificate {
        PriceCertificate::Plan(_) => None,
        PriceCertificate::Shortage(set) => Some(set),
    }
}

// What a class says.
type Said<'a> = (&'a [u8], &'a [u32], &'a [u64]);

// The class says this.
fn is_class(rt: &impl Abort, class: Option<&Class>, wanted: Said<'_>) {
    let class = class.expect(rt, "a class");
    let said = (
        class.region.as_slice(),
        class.servers.as_slice(),
        class.amounts.as_slice(),
    );
    is_same(rt, said, wanted);
}

#[test]
fn a_plan_by_prices_is_what_its_text_says(rt: HostRuntime) {
    let certificate = read_whole(&rt, rt.alloc(), PLAN);
    assert!(rt; set_of(&certificate).is_none());
    let plan = plan_of(&certificate).expect(&rt, "a plan");
    is_same(&rt, plan.cost(), 29);
    is_same(&rt, plan.server_prices(), [0, 3, 0].as_slice());
    is_same(&rt, plan.host_prices(), [2].as_slice());
    is_same(&rt, plan.classes().len(), 4);
    is_class(&rt, plan.classes().get(1), (b"eu", &[0, 1, 2], &[1, 0, 5]));
    is_class(&rt, plan.classes().get(3), (b"us.west", &[1, 2], &[7, 0]));
}

#[test]
fn a_shortage_of_servers_is_what_its_text_says(rt: HostRuntime) {
    let certificate = read_whole(&rt, rt.alloc(), SHORTAGE);
    assert!(rt; plan_of(&certificate).is_none());
    let set = set_of(&certificate).expect(&rt, "a short set");
    is_same(
        &rt,
        (set.servers(), set.demand(), set.capacity()),
        ([1, 3].as_slice(), 9, 8),
    );
}
