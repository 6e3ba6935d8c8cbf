// A plan and a shortage of as many rows, regions, sites and servers as there may be.
use crate::checks::{reached_twice, summed_twice};
use crate::inputs::instance_of;
use crate::plans::{is_solved, plans_over, solved};
use crate::same::is_same;
use hsp_cert::Certificate;
use hsp_check::PlanSums;
use hsp_flow::HeapFrontier;
use hsp_test_support::service::Texts;
use hsp_text::push_whole;
use std::alloc::{AllocError, Global};
use std::process::Abort;

// Adds numbers, each behind a text.
fn push_numbers(text: &mut Vec<u8>, fields: &[(&[u8], u32)]) -> Result<(), AllocError> {
    for (before, number) in fields {
        text.extend_from_slice(before)?;
        push_whole(text, u64::from(*number))?;
    }
    Ok(())
}

// Adds a line of them.
fn push_line(text: &mut Vec<u8>, fields: &[(&[u8], u32)]) -> Result<(), AllocError> {
    push_numbers(text, fields)?;
    text.extend_from_slice(b"\n")
}

// What stands in a site's record before its servers, of which there are 32.
const HEAD: &[u8] = b"\"\nrecord = \"0001020000010001000000000000000000000020";

// What stands in the record of a server behind its identifier.
const TAIL: &[u8] = b"000000000000000000000000000000000000000000000000";

// The digits of a server's place are the last two digits of its identifier, which is stated in base 16.
fn push_servers(text: &mut Vec<u8>) -> Result<(), AllocError> {
    for place in 0..32u32 {
        push_numbers(text, &[(b"000000", place / 10), (b"", place % 10)])?;
        text.extend_from_slice(TAIL)?;
    }
    Ok(())
}

fn push_site(text: &mut Vec<u8>, site: u32) -> Result<(), AllocError> {
    push_numbers(text, &[(b"[[site]]\nname = \"s", site)])?;
    text.extend_from_slice(HEAD)?;
    push_servers(text)?;
    text.extend_from_slice(b"\"\n")
}

fn push_settings(text: &mut Vec<u8>) -> Result<(), AllocError> {
    for site in 0..32u32 {
        push_site(text, site)?;
    }
    Ok(())
}

// A million queries for each of `rows` rows, from 64 regions.
fn push_demand(text: &mut Vec<u8>, rows: u32) -> Result<(), AllocError> {
    text.extend_from_slice(b"region,handle,count\n")?;
    for row in 0..rows {
        push_line(text, &[(b"r", row % 64), (b",10/", row), (b",", 1_000_000)])?;
    }
    Ok(())
}

// The cost at each site is its number, counted from 1.
fn push_costs(text: &mut Vec<u8>) -> Result<(), AllocError> {
    text.extend_from_slice(b"region,site,cost\n")?;
    for row in 0..2048u32 {
        let (region, site) = (row % 64, row / 64);
        push_line(text, &[(b"r", region), (b",s", site), (b",", row / 64 + 1)])?;
    }
    Ok(())
}

// Five million queries at each server of the first 31 sites. At the last site each takes as many as any may, but for
// that of place 0.
fn capacity_of(row: u32, last: u32) -> u32 {
    match (row / 32, row % 32) {
        (31, 0) => last,
        (31, _) => 1_000_000_000,
        _ => 5_000_000,
    }
}

fn push_capacity(text: &mut Vec<u8>, last: u32) -> Result<(), AllocError> {
    text.extend_from_slice(b"site,server_id,capacity\n")?;
    for row in 0..1024u32 {
        let place = row % 32;
        let id = place / 10 * 16 + place % 10;
        let capacity = capacity_of(row, last);
        push_line(text, &[(b"s", row / 32), (b",", id), (b",", capacity)])?;
    }
    Ok(())
}

// The texts of an instance at the limits.
#[derive(Drop)]
struct LimitTexts {
    settings: Vec<u8>,
    demand: Vec<u8>,
    costs: Vec<u8>,
    capacity: Vec<u8>,
}

fn no_texts(alloc: Global) -> LimitTexts {
    LimitTexts {
        settings: Vec::new(alloc),
        demand: Vec::new(alloc),
        costs: Vec::new(alloc),
        capacity: Vec::new(alloc),
    }
}

fn push_texts(texts: &mut LimitTexts, rows: u32, last: u32) -> Result<(), AllocError> {
    push_settings(&mut texts.settings)?;
    push_demand(&mut texts.demand, rows)?;
    push_costs(&mut texts.costs)?;
    push_capacity(&mut texts.capacity, last)
}

// Where a growth is refused, the second call finds memory.
fn texts_of(rt: &impl Abort, alloc: Global, rows: u32, last: u32) -> LimitTexts {
    let mut texts = no_texts(alloc);
    if push_texts(&mut texts, rows, last).is_err() {
        texts = no_texts(alloc);
        push_texts(&mut texts, rows, last).expect(rt, "there is memory");
    }
    texts
}

fn lent(texts: &LimitTexts) -> Texts<'_> {
    Texts {
        sites: texts.settings.as_slice(),
        hosts: b"",
        demand: texts.demand.as_slice(),
        costs: texts.costs.as_slice(),
        capacity: texts.capacity.as_slice(),
    }
}

// Each row's server at a site stands at the place that is the absolute value of the last four octets of the MD5 of its
// number, modulo 32. That is place 0 for 277 rows, and each place for 229 at least. So the first 31 sites take five of
// the rows of each place, and the last site takes all others: by each million queries the cost is 32 * 5 * (1 + .. +
// 31) + 32 * (8192 - 32 * 155). What the last server of place 0 can take is just enough.
#[test]
fn a_plan_at_the_limits_is_found(rt: HostRuntime) {
    let texts = texts_of(&rt, rt.alloc(), 8192, 122_000_000);
    is_solved(&rt, rt.alloc(), lent(&texts), 182_784_000_000);
}

// The sums of the planner's own plan.
fn sums_of(rt: &impl Abort, alloc: Global, texts: Texts<'_>) -> PlanSums {
    let instance = instance_of(rt, alloc, texts);
    let certificate = solved(rt, alloc, &instance);
    summed_twice(rt, alloc, &instance, &certificate)
}

// Each row gets all that it asks for, at this cost, and the first server gives all that it can.
fn are_sums(rt: &impl Abort, sums: &PlanSums) {
    is_same(rt, sums.cost, 182_784_000_000);
    assert!(rt; sums.loads.rows.len() == 8192);
    for load in sums.loads.rows.as_slice() {
        is_same(rt, *load, 1_000_000);
    }
    assert!(rt; sums.loads.servers.len() == 1024);
    is_same(rt, sums.loads.servers.first(), Some(&5_000_000));
}

#[test]
fn a_plan_at_the_limits_is_summed(rt: HostRuntime) {
    let texts = texts_of(&rt, rt.alloc(), 8192, 122_000_000);
    let sums = sums_of(&rt, rt.alloc(), lent(&texts));
    are_sums(&rt, &sums);
}

// The 277 rows of place 0 fall short by one query.
fn is_short_by_one(rt: &impl Abort, certificate: &Certificate) {
    let short = certificate.as_short().expect(rt, "a shortage came");
    assert!(rt; short.rows().len() == 277);
    is_same(rt, short.demand(), 277_000_000);
    is_same(rt, short.capacity(), 276_999_999);
}

// With one query less at the last server of place 0 the 277 rows of that place fall short.
#[test]
fn a_shortage_at_the_limits_is_found(rt: HostRuntime) {
    let texts = texts_of(&rt, rt.alloc(), 8192, 121_999_999);
    let instance = instance_of(&rt, rt.alloc(), lent(&texts));
    let certificate = solved(&rt, rt.alloc(), &instance);
    is_short_by_one(&rt, &certificate);
}

// The servers that the planner's own short set reaches.
fn servers_of(rt: &impl Abort, alloc: Global, texts: Texts<'_>) -> Vec<u32> {
    let instance = instance_of(rt, alloc, texts);
    let certificate = solved(rt, alloc, &instance);
    reached_twice(rt, alloc, &instance, &certificate)
}

// They are the server of place 0 at each of the 32 sites.
fn are_first_servers(rt: &impl Abort, servers: &[u32]) {
    assert!(rt; servers.len() == 32);
    for (site, server) in servers.iter().enumerate() {
        is_same(rt, *server as usize / 32, site);
        is_same(rt, *server % 32, 0);
    }
}

#[test]
fn a_shortage_at_the_limits_reaches_its_servers(rt: HostRuntime) {
    let texts = texts_of(&rt, rt.alloc(), 8192, 121_999_999);
    let servers = servers_of(&rt, rt.alloc(), lent(&texts));
    are_first_servers(&rt, &servers);
}

// Of the first 256 rows a place has 13 at most: of those of one place five cost one, the next five two and the others
// three, a million times. The nodes of the search are the rows, more than a thousand servers and the sink.
#[test]
fn searches_over_a_heap_meet_as_many_servers_as_there_may_be(rt: HostRuntime) {
    let texts = texts_of(&rt, rt.alloc(), 256, 0);
    plans_over::<HeapFrontier>(&rt, rt.alloc(), lent(&texts), 369_000_000, None);
}
