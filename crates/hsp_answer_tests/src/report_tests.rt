ghost use Rattle.std.specs.Prelude.{◌≡◌};
ghost use Rattle.hsp_check.specs.declared.verdict.Verdict.TheVariants.{Yes};
ghost use Rattle.hsp_check.specs.Instance.{network_of};
ghost use Rattle.hsp_check.specs.Valid.{IsValid};
ghost use Rattle.hsp_report.specs.Conditions.{IsPlanFor, IsShortageFor};

use crate::building::instance_by;
use crate::same::is_same;
use hsp_cert::{Certificate, UseLine};
use hsp_check::{Verdict, check};
use hsp_instance::Instance;
use hsp_report::*;
use hsp_test_support::service::{BASE, ONE_SERVER, Texts};
use hsp_text::push_whole;
use std::alloc::{AllocError, Global};
use std::process::Abort;

// The base with a third row that asks for more than it can reach.
const SHORT: Texts<'static> = Texts {
    demand: b"region,handle,count\nr1,10/1,5\nr1,10/2,4\nr2,10/3,9\n",
    ..BASE
};

// A site of one server, and twenty rows of as many queries as a row may count.
const WIDE: Texts<'static> = Texts {
    sites: ONE_SERVER,
    hosts: b"",
    demand: b"region,handle,count\nr1,10/0,1000000\nr1,10/1,1000000\nr1,10/2,1000000\nr1,10/3,1000000\n\
    r1,10/4,1000000\nr1,10/5,1000000\nr1,10/6,1000000\nr1,10/7,1000000\nr1,10/8,1000000\nr1,10/9,1000000\n\
    r1,10/10,1000000\nr1,10/11,1000000\nr1,10/12,1000000\nr1,10/13,1000000\nr1,10/14,1000000\nr1,10/15,1000000\n\
    r1,10/16,1000000\nr1,10/17,1000000\nr1,10/18,1000000\nr1,10/19,1000000\n",
    costs: b"region,site,cost\nr1,X,1000000\n",
    capacity: b"site,server_id,capacity\nX,7,20000000\n",
};

// The instance of the texts, and None where memory ran out or the texts are bad.
fn instance_of(alloc: Global, texts: Texts<'_>) -> Option<Instance> {
    let settings = [texts.sites, texts.hosts].concat(alloc).ok()?;
    instance_by(alloc, &settings, texts.demand, texts.costs, texts.capacity)
}

// The same. Where a growth is refused, the second building finds memory: so the answers below are
// insisted on.
fn held_instance(rt: &impl Abort, alloc: Global, texts: Texts<'_>) -> Instance {
    match instance_of(alloc, texts) {
        Some(instance) => instance,
        None => instance_of(alloc, texts).expect(rt, "the instance is built"),
    }
}

// The numbers of a plan's certificate.
#[derive(Clone, Copy)]
struct Numbers {
    cost: u64,
    uses: &'static [(u32, u32, u64)],
    rows: &'static [u64],
    servers: &'static [u64],
    hosts: &'static [u64],
}

// A best plan of the base.
const BEST: Numbers = Numbers {
    cost: 17,
    uses: &[(0, 0, 5), (1, 0, 4), (2, 0, 1), (2, 1, 2)],
    rows: &[2, 1, 3],
    servers: &[0, 1, 0, 0, 0],
    hosts: &[],
};

// The uses of a plan.
fn uses_once(alloc: Global, numbers: Numbers) -> Result<Vec<UseLine>, AllocError> {
    let mut uses = Vec::new(alloc);
    for (row, site, count) in numbers.uses {
        uses.push(UseLine {
            row: *row,
            site: *site,
            count: *count,
        })?;
    }
    Ok(uses)
}

// The same, once more where a growth was refused.
fn held_uses(rt: &impl Abort, alloc: Global, numbers: Numbers) -> Vec<UseLine> {
    match uses_once(alloc, numbers) {
        Ok(uses) => uses,
        Err(AllocError) => uses_once(alloc, numbers).expect(rt, "there is memory"),
    }
}

// These prices, once more where a growth was refused.
fn held_prices(rt: &impl Abort, alloc: Global, prices: &[u64]) -> Vec<u64> {
    match Vec::from_slice(alloc, prices) {
        Ok(prices) => prices,
        Err(AllocError) => Vec::from_slice(alloc, prices).expect(rt, "there is memory"),
    }
}

// The certificate of a plan.
fn plan_of(rt: &impl Abort, alloc: Global, numbers: Numbers) -> Certificate {
    let rows = held_prices(rt, alloc, numbers.rows);
    let servers = held_prices(rt, alloc, numbers.servers);
    let hosts = held_prices(rt, alloc, numbers.hosts);
    let uses = held_uses(rt, alloc, numbers);
    let plan = Certificate::best_with_hosts(numbers.cost, uses, rows, servers, hosts);
    plan.expect(rt, "the plan is in order")
}

// A plan of rows that all ask one server, for as many queries and at the same price.
#[derive(Clone, Copy)]
struct Alike {
    cost: u64,
    rows: u32,
    count: u64,
    row_price: u64,
    server_price: u64,
}

// Twenty rows, all at the greatest cost and price.
const WIDE_PLAN: Alike = Alike {
    cost: 20_000_000_000_000,
    rows: 20,
    count: 1_000_000,
    row_price: 1_000_000_000_000,
    server_price: 999_999_000_000,
};

// Rows of one query each, which all ask the one server.
const MANY: u32 = 5000;

// The plan of these rows.
const PLAN_OF_MANY: Alike = Alike {
    cost: 5000,
    rows: MANY,
    count: 1,
    row_price: 1,
    server_price: 0,
};

// The uses of such a plan.
fn alike_uses_once(alloc: Global, alike: Alike) -> Result<Vec<UseLine>, AllocError> {
    let mut uses = Vec::new(alloc);
    for row in 0..alike.rows {
        uses.push(UseLine {
            row,
            site: 0,
            count: alike.count,
        })?;
    }
    Ok(uses)
}

// The same, once more where a growth was refused.
fn alike_uses(rt: &impl Abort, alloc: Global, alike: Alike) -> Vec<UseLine> {
    match alike_uses_once(alloc, alike) {
        Ok(uses) => uses,
        Err(AllocError) => alike_uses_once(alloc, alike).expect(rt, "there is memory"),
    }
}

// The prices of its rows.
fn alike_prices_once(alloc: Global, alike: Alike) -> Result<Vec<u64>, AllocError> {
    vec![in alloc; alike.row_price; alike.rows as usize]
}

// The same, once more where a growth was refused.
fn alike_prices(rt: &impl Abort, alloc: Global, alike: Alike) -> Vec<u64> {
    match alike_prices_once(alloc, alike) {
        Ok(prices) => prices,
        Err(AllocError) => alike_prices_once(alloc, alike).expect(rt, "there is memory"),
    }
}

// Its certificate.
fn alike_plan(rt: &impl Abort, alloc: Global, alike: Alike) -> Certificate {
    let servers = held_prices(rt, alloc, &[alike.server_price]);
    let rows = alike_prices(rt, alloc, alike);
    let uses = alike_uses(rt, alloc, alike);
    Certificate::best(alike.cost, uses, rows, servers).expect(rt, "the plan is in order")
}

// Adds a row of one query to the demand.
fn push_row(text: &mut Vec<u8>, row: u32) -> Result<(), AllocError> {
    text.extend_from_slice(b"r1,10/")?;
    push_whole(text, u64::from(row))?;
    text.extend_from_slice(b",1\n")
}

// The demand of many rows.
fn many_once(alloc: Global) -> Result<Vec<u8>, AllocError> {
    let mut text = Vec::from_slice(alloc, b"region,handle,count\n")?;
    for row in 0..MANY {
        push_row(&mut text, row)?;
    }
    Ok(text)
}

// The same, once more where a growth was refused.
fn held_many(rt: &impl Abort, alloc: Global) -> Vec<u8> {
    match many_once(alloc) {
        Ok(text) => text,
        Err(AllocError) => many_once(alloc).expect(rt, "there is memory"),
    }
}

// The texts of these rows, with what the server can take in a table of capacities.
fn texts_of_many<'a>(demand: &'a [u8], capacity: &'a [u8]) -> Texts<'a> {
    Texts {
        demand,
        costs: b"region,site,cost\nr1,X,1\n",
        capacity,
        ..WIDE
    }
}

// Their instance.
fn instance_of_many(rt: &impl Abort, alloc: Global, capacity: &'static [u8]) -> Instance {
    let demand = held_many(rt, alloc);
    held_instance(rt, alloc, texts_of_many(&demand, capacity))
}

// The rows from one on up to another.
fn rows_once(alloc: Global, first: u32, end: u32) -> Result<Vec<u32>, AllocError> {
    let mut rows = Vec::new(alloc);
    for row in first..end {
        rows.push(row)?;
    }
    Ok(rows)
}

// The same, once more where a growth was refused.
fn held_rows(rt: &impl Abort, alloc: Global, first: u32, end: u32) -> Vec<u32> {
    match rows_once(alloc, first, end) {
        Ok(rows) => rows,
        Err(AllocError) => rows_once(alloc, first, end).expect(rt, "there is memory"),
    }
}

// The certificate of the third row of the base.
fn short_set(rt: &impl Abort, alloc: Global) -> Certificate {
    let rows = held_rows(rt, alloc, 2, 3);
    Certificate::short(rows, 9, 8).expect(rt, "the set is in order")
}

// The certificate of all of many rows, which are short by one query.
fn short_of_one(rt: &impl Abort, alloc: Global) -> Certificate {
    let rows = held_rows(rt, alloc, 0, MANY);
    Certificate::short(rows, u64::from(MANY), u64::from(MANY) - 1).expect(rt, "the set is in order")
}

// The checker's verdict.
fn verdict_of(
    rt: &impl Abort,
    alloc: Global,
    instance: &Instance,
    certificate: &Certificate,
) -> Verdict
    ensures { result ≡ Yes → IsValid (network_of instance.now) certificate.now }
{
    match check(alloc, instance, certificate) {
        Ok(verdict) => verdict,
        Err(AllocError) => check(alloc, instance, certificate).expect(rt, "there is memory"),
    }
}

// The certificate is that of a plan that the checker finds valid.
fn is_plan(rt: &impl Abort, alloc: Global, instance: &Instance, certificate: &Certificate)
    ensures { IsPlanFor instance.now certificate.now }
{
    let verdict = verdict_of(rt, alloc, instance, certificate);
    assert!(rt; verdict == Verdict::Yes);
    assert!(rt; certificate.as_best().is_some());
}

// The certificate is that of a short set that the checker finds valid.
fn is_shortage(rt: &impl Abort, alloc: Global, instance: &Instance, certificate: &Certificate)
    ensures { IsShortageFor instance.now certificate.now }
{
    let verdict = verdict_of(rt, alloc, instance, certificate);
    assert!(rt; verdict == Verdict::Yes);
    assert!(rt; certificate.as_short().is_some());
}

// What is reported of a certificate.
#[derive(Clone, Copy)]
enum Report {
    Loads,
    Regions,
    Shortage,
}

// An instance and its certificate.
#[derive(Clone, Copy)]
struct Held<'a> {
    instance: &'a Instance,
    certificate: &'a Certificate,
}

fn both<'a>(instance: &'a Instance, certificate: &'a Certificate) -> Held<'a> {
    Held {
        instance,
        certificate,
    }
}

// The report of a certificate of its kind, unless memory runs out.
fn reported(
    rt: &impl Abort,
    alloc: Global,
    report: Report,
    held: Held<'_>,
) -> Result<Vec<u8>, AllocError> {
    let (instance, certificate) = (held.instance, held.certificate);
    match report {
        Report::Loads => {
            is_plan(rt, alloc, instance, certificate);
            load_report(alloc, instance, certificate)
        }
        Report::Regions => {
            is_plan(rt, alloc, instance, certificate);
            region_report(alloc, instance, certificate)
        }
        Report::Shortage => {
            is_shortage(rt, alloc, instance, certificate);
            shortage_report(alloc, instance, certificate)
        }
    }
}

// The report. Where a growth is refused, the second call finds memory.
fn report_of(rt: &impl Abort, alloc: Global, report: Report, held: Held<'_>) -> Vec<u8> {
    match reported(rt, alloc, report, held) {
        Ok(text) => text,
        Err(AllocError) => reported(rt, alloc, report, held).expect(rt, "there is memory"),
    }
}

// It is the wanted one.
fn report_is(rt: &impl Abort, alloc: Global, report: Report, held: Held<'_>, wanted: &[u8]) {
    let text = report_of(rt, alloc, report, held);
    is_same(rt, text.as_slice(), wanted);
}

#[test]
fn loads_of_the_base_are_reported(rt: HostRuntime) {
    let certificate = plan_of(&rt, rt.alloc(), BEST);
    let instance = held_instance(&rt, rt.alloc(), BASE);
    let held = both(&instance, &certificate);
    report_is(
        &rt,
        rt.alloc(),
        Report::Loads,
        held,
        b"place     server       load   capacity         price site\n    \
        0          7          4         10             0 E\n    \
        1          3          6          6             1 E\n    \
        0          1          2          2             0 W\n    \
        1          2          0         10             0 W\n    2          9          0         10             0 W\n\
        bound 23 - 6 = 17\n",
    );
}

#[test]
fn regions_of_the_base_are_reported(rt: HostRuntime) {
    let certificate = plan_of(&rt, rt.alloc(), BEST);
    let instance = held_instance(&rt, rt.alloc(), BASE);
    let held = both(&instance, &certificate);
    report_is(
        &rt,
        rt.alloc(),
        Report::Regions,
        held,
        b"    demand             cost region\n         9                9 r1\n         3                8 r2\n\
        total 12 17\n",
    );
}

#[test]
fn a_shortage_is_reported(rt: HostRuntime) {
    let certificate = short_set(&rt, rt.alloc());
    let instance = held_instance(&rt, rt.alloc(), SHORT);
    let held = both(&instance, &certificate);
    report_is(
        &rt,
        rt.alloc(),
        Report::Shortage,
        held,
        b"short 9 - 8 = 1\n row   count region\n   2       9 r2\n\
        place     server   capacity site\n    1          3          6 E\n    0          1          2 W\n",
    );
}

#[test]
fn sums_may_be_wider_than_64_bits(rt: HostRuntime) {
    let certificate = alike_plan(&rt, rt.alloc(), WIDE_PLAN);
    let instance = held_instance(&rt, rt.alloc(), WIDE);
    let held = both(&instance, &certificate);
    report_is(
        &rt,
        rt.alloc(),
        Report::Loads,
        held,
        b"place     server       load   capacity         price site\n    \
        0          7   20000000   20000000  999999000000 X\n\
        bound 20000000000000000000 - 19999980000000000000 = 20000000000000\n",
    );
    report_is(
        &rt,
        rt.alloc(),
        Report::Regions,
        held,
        b"    demand             cost region\n  20000000   20000000000000 r1\ntotal 20000000 20000000000000\n",
    );
}

#[test]
fn loads_and_regions_of_many_rows_are_reported(rt: HostRuntime) {
    let certificate = alike_plan(&rt, rt.alloc(), PLAN_OF_MANY);
    let instance = instance_of_many(&rt, rt.alloc(), b"site,server_id,capacity\nX,7,6000\n");
    let held = both(&instance, &certificate);
    report_is(
        &rt,
        rt.alloc(),
        Report::Loads,
        held,
        b"place     server       load   capacity         price site\n    \
        0          7       5000       6000             0 X\nbound 5000 - 0 = 5000\n",
    );
    report_is(
        &rt,
        rt.alloc(),
        Report::Regions,
        held,
        b"    demand             cost region\n      5000             5000 r1\ntotal 5000 5000\n",
    );
}

// The report of many rows that are short by one query.
fn is_long_shortage(rt: &impl Abort, text: &[u8]) {
    let begins: &[u8] =
        b"short 5000 - 4999 = 1\n row   count region\n   0       1 r1\n   1       1 r1\n";
    let ends: &[u8] =
        b"4998       1 r1\n4999       1 r1\nplace     server   capacity site\n    0          7       4999 X\n";
    assert!(rt; text.starts_with(begins));
    assert!(rt; text.ends_with(ends));
    // Between the two headers a line of 16 octets for each row, and behind them the server's.
    assert!(rt; text.len() == 22 + 20 + 5000 * 16 + 33 + 30);
}

#[test]
fn a_shortage_of_many_rows_is_reported(rt: HostRuntime) {
    let certificate = short_of_one(&rt, rt.alloc());
    let instance = instance_of_many(&rt, rt.alloc(), b"site,server_id,capacity\nX,7,4999\n");
    let held = both(&instance, &certificate);
    let text = report_of(&rt, rt.alloc(), Report::Shortage, held);
    is_long_shortage(&rt, &text);
}
