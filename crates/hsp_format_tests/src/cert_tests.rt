use crate::same::{is_same, is_same_of};
use hsp_cert::*;
use hsp_text::push_line;
use std::alloc::{AllocError, Global};
use std::process::Abort;

const PLAN: &[u8] =
    b"HSPLAN 1\nPLAN\ncost 17\nuse 0 0 5\nuse 1 0 4\nuse 2 0 1\nuse 2 1 2\nrow 0 2\nrow 1 1\nrow 2 3\nserver 0 0\n\
    server 1 1\nserver 2 0\nserver 3 0\nserver 4 0\nEND\n";

const PLAN_WITH_A_HOST: &[u8] =
    b"HSPLAN 2\nPLAN\ncost 23\nuse 0 0 5\nuse 1 0 2\nuse 1 1 2\nuse 2 0 1\nuse 2 1 2\nrow 0 4\nrow 1 4\nrow 2 5\n\
    server 0 0\nserver 1 0\nserver 2 2\nserver 3 0\nserver 4 0\nhost 0 3\nEND\n";

const SHORTAGE: &[u8] = b"HSPLAN 1\nSHORTAGE\ndemand 9\ncapacity 8\nrow 2\nEND\n";

fn use_of(row: u32, site: u32, count: u64) -> UseLine {
    UseLine { row, site, count }
}

// The certificate that a text spells. Where a growth is refused, the second reading finds memory.
fn read_twice(alloc: Global, text: &[u8]) -> Result<Certificate, CertFault> {
    match read_cert(alloc, text) {
        Err(CertFault::OutOfMemory) => read_cert(alloc, text),
        answer => answer,
    }
}

// The text of a certificate. Where a growth is refused, the second writing finds memory.
fn write_twice(alloc: Global, certificate: &Certificate) -> Result<Vec<u8>, AllocError> {
    match write_cert(alloc, certificate) {
        Err(AllocError) => write_cert(alloc, certificate),
        answer => answer,
    }
}

// The fault of a text, if it has one.
fn fault_of(alloc: Global, text: &[u8]) -> Option<CertFault> {
    read_twice(alloc, text).err()
}

// The fault is the wanted one.
fn is_fault(rt: &impl Abort, text: &[u8], answer: Option<CertFault>, wanted: CertFault) {
    is_same_of(rt, &text, answer, Some(wanted));
}

// The certificate of a text that can be read.
fn read_whole(rt: &impl Abort, alloc: Global, text: &[u8]) -> Certificate {
    read_twice(alloc, text).expect(rt, "the text is a certificate's")
}

// The text of a certificate is the wanted one.
fn is_written(rt: &impl Abort, alloc: Global, certificate: &Certificate, wanted: &[u8]) {
    let text = write_twice(alloc, certificate).expect(rt, "there is memory");
    assert!(rt; text.as_slice() == wanted);
}

// The text is read and written back.
fn comes_back(rt: &impl Abort, alloc: Global, text: &[u8]) {
    is_written(rt, alloc, &read_whole(rt, alloc, text), text);
}

#[test]
fn texts_are_read_and_written_back(rt: HostRuntime) {
    let no_use: &[u8] = b"HSPLAN 1\nPLAN\ncost 0\nEND\n";
    let no_row: &[u8] = b"HSPLAN 1\nSHORTAGE\ndemand 0\ncapacity 0\nEND\n";
    let greatest: &[u8] =
        b"HSPLAN 2\nPLAN\ncost 10000000000000000\nuse 8191 31 1000000\nrow 0 1000000000000\nserver 0 1000000000000\n\
        host 0 1000000000000\nEND\n";
    let last_row: &[u8] =
        b"HSPLAN 1\nSHORTAGE\ndemand 10000000000000000\ncapacity 10000000000000000\nrow 0\nrow 8191\nEND\n";
    for text in [
        PLAN,
        PLAN_WITH_A_HOST,
        SHORTAGE,
        no_use,
        no_row,
        greatest,
        last_row,
    ] {
        comes_back(&rt, rt.alloc(), text);
    }
}

// What the plan with a host says.
fn is_the_plan_with_a_host(rt: &impl Abort, certificate: &Certificate) {
    assert!(rt; certificate.as_short().is_none());
    let plan = certificate.as_best().expect(rt, "a plan");
    let uses = [
        use_of(0, 0, 5),
        use_of(1, 0, 2),
        use_of(1, 1, 2),
        use_of(2, 0, 1),
        use_of(2, 1, 2),
    ];
    is_same(rt, plan.cost(), 23);
    is_same(rt, plan.uses(), uses.as_slice());
    is_same(rt, plan.row_prices(), [4, 4, 5].as_slice());
    is_same(rt, plan.server_prices(), [0, 0, 2, 0, 0].as_slice());
    is_same(rt, plan.host_prices(), [3].as_slice());
}

#[test]
fn a_plan_is_what_its_text_says(rt: HostRuntime) {
    let certificate = read_whole(&rt, rt.alloc(), PLAN_WITH_A_HOST);
    is_the_plan_with_a_host(&rt, &certificate);
}

#[test]
fn nothing_follows_the_end(rt: HostRuntime) {
    const TEXTS: [(&[u8], u64); 4] = [
        (
            b"HSPLAN 1\nSHORTAGE\ndemand 9\ncapacity 8\nrow 2\nEND\nx",
            7,
        ),
        (
            b"HSPLAN 1\nSHORTAGE\ndemand 9\ncapacity 8\nrow 2\nEND\n\n",
            7,
        ),
        (b"HSPLAN 1\nPLAN\ncost 0\nEND\nEND\n", 5),
        (b"HSPLAN 1\nPLAN\ncost 0\nEND\nx\ny\n", 5),
    ];
    for (text, line) in TEXTS {
        is_fault(
            &rt,
            text,
            fault_of(rt.alloc(), text),
            CertFault::AfterEnd { line },
        );
    }
}

// So many prices, each the same.
fn prices(alloc: Global, count: usize, price: u64) -> Result<Vec<u64>, AllocError> {
    let mut prices = Vec::new(alloc);
    for _ in 0..count {
        prices.push(price)?;
    }
    Ok(prices)
}

// A use of each site by each row.
fn all_uses(alloc: Global) -> Result<Vec<UseLine>, AllocError> {
    let mut uses = Vec::new(alloc);
    for number in 0..262_144 {
        uses.push(use_of(number / 32, number % 32, 1_000_000))?;
    }
    Ok(uses)
}

// The largest certificate. None means that memory ran out.
fn largest(alloc: Global) -> Option<Certificate> {
    let most = 1_000_000_000_000;
    let uses = all_uses(alloc).ok()?;
    let row_prices = prices(alloc, 8192, most).ok()?;
    let server_prices = prices(alloc, 1024, most).ok()?;
    let host_prices = prices(alloc, 1024, most).ok()?;
    let cost = 10_000_000_000_000_000;
    Certificate::best_with_hosts(cost, uses, row_prices, server_prices, host_prices)
}

// The same. Where a growth is refused, the second call finds memory.
fn held_largest(rt: &impl Abort, alloc: Global) -> Certificate {
    match largest(alloc) {
        Some(certificate) => certificate,
        None => largest(alloc).expect(rt, "the certificate is made"),
    }
}

#[test]
fn the_largest_certificate_is_written_and_read(rt: HostRuntime) {
    let certificate = held_largest(&rt, rt.alloc());
    let text = write_twice(rt.alloc(), &certificate).expect(&rt, "there is memory");
    comes_back(&rt, rt.alloc(), &text);
}

// A plan of 100,000 uses, and then a line that can't stand.
fn long_bad_text(alloc: Global) -> Result<Vec<u8>, AllocError> {
    let mut text = Vec::from_slice(alloc, b"HSPLAN 1\nPLAN\ncost 0\n")?;
    for number in 0..100_000 {
        push_line(&mut text, b"use", &[number / 32, number % 32, 1])?;
    }
    text.extend_from_slice(b"use\n")?;
    Ok(text)
}

// The same. Where a growth is refused, the second call finds memory.
fn held_bad_text(rt: &impl Abort, alloc: Global) -> Vec<u8> {
    match long_bad_text(alloc) {
        Ok(text) => text,
        Err(AllocError) => long_bad_text(alloc).expect(rt, "there is memory"),
    }
}

#[test]
fn bad_lines_are_reported_at_any_length(rt: HostRuntime) {
    let text = held_bad_text(&rt, rt.alloc());
    let answer = fault_of(rt.alloc(), &text);
    is_same(&rt, answer, Some(CertFault::BadLine { line: 100_004 }));
}
