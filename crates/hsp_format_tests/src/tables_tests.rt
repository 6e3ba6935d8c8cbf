use crate::same::{is_same, is_same_of};
use hsp_names::HandleFault;
use hsp_tables::*;
use hsp_test_support::service::{CAPACITY, COSTS, DEMAND, SETTINGS};
use hsp_text::push_whole;
use std::alloc::{AllocError, Global};
use std::process::Abort;

const RECORD_OF_E: &[u8] =
    b"\x00\x01\x02\x00\x00\x01\x00\x01\x00\x00\x00\x00\x00\x00\x00\x00\x00\x00\x00\x02\
    \x00\x00\x00\x07\x00\x00\x00\x00\x00\x00\x00\x00\x00\x00\x00\x00\x00\x00\x00\x01\x00\x00\x00\x00\x00\x00\x00\x00\
    \x00\x00\x00\x03\x00\x00\x00\x00\x00\x00\x00\x00\x00\x00\x00\x00\x00\x00\x00\x01\x00\x00\x00\x00\x00\x00\x00\x00";

// What is read. Where one growth is refused, the second reading finds memory: so the answers below are insisted on.
fn demand_of(alloc: Global, text: &[u8]) -> Result<Demand, TableFault> {
    match read_demand(alloc, text) {
        Err(TableFault::OutOfMemory) => read_demand(alloc, text),
        answer => answer,
    }
}

fn costs_of(alloc: Global, text: &[u8]) -> Result<Costs, TableFault> {
    match read_costs(alloc, text, Limits::Tables) {
        Err(TableFault::OutOfMemory) => read_costs(alloc, text, Limits::Tables),
        answer => answer,
    }
}

fn capacity_of(alloc: Global, text: &[u8]) -> Result<Capacities, TableFault> {
    match read_capacity(alloc, text) {
        Err(TableFault::OutOfMemory) => read_capacity(alloc, text),
        answer => answer,
    }
}

fn settings_of(alloc: Global, text: &[u8]) -> Result<Settings, TableFault> {
    match read_settings(alloc, text) {
        Err(TableFault::OutOfMemory) => read_settings(alloc, text),
        answer => answer,
    }
}

// The fault is the wanted one.
fn is_fault(rt: &impl Abort, text: &[u8], answer: Option<TableFault>, wanted: Option<TableFault>) {
    is_same_of(rt, &text, answer, wanted);
}

// The rows of the base's demand.
fn is_the_base_demand(rt: &impl Abort, demand: &Demand) {
    const ROWS: [(&[u8], &[u8], u64); 3] = [
        (b"r1", b"10/1", 5),
        (b"r1", b"10/2", 4),
        (b"r2", b"10/3", 3),
    ];
    assert!(rt; demand.len() == 3);
    for (number, (region, handle, count)) in ROWS.iter().enumerate() {
        let row = demand.row(number as u32);
        is_same(rt, row.region, *region);
        is_same(rt, row.handle.bytes(), *handle);
        is_same(rt, row.count, *count);
    }
}

#[test]
fn the_base_demand_is_read(rt: HostRuntime) {
    let marked = b"\xEF\xBB\xBFregion,handle,count\nr1,10/1,5\nr1,10/2,4\nr2,10/3,3\n";
    let dressed = b"region,handle,count\r\n\"r1\",10/1,5\r\n\r\n\nr1,\"10/2\",4\nr2,10/3,\"3\"";
    for text in [DEMAND, marked, dressed] {
        let demand = demand_of(rt.alloc(), text).expect(&rt, "the demand is read");
        is_the_base_demand(&rt, &demand);
    }
}

// The rows of the base's costs, in their order and by what they are found by.
fn are_the_base_costs(rt: &impl Abort, costs: &Costs) {
    const ROWS: [(&[u8], &[u8], u64); 4] = [
        (b"r1", b"E", 1),
        (b"r1", b"W", 4),
        (b"r2", b"E", 2),
        (b"r2", b"W", 3),
    ];
    assert!(rt; costs.len() == 4);
    for (number, (region, site, cost)) in ROWS.iter().enumerate() {
        let row = costs.row(number as u32);
        is_same(rt, row.region, *region);
        is_same(rt, row.site, *site);
        is_same(rt, row.cost, *cost);
        is_same(rt, costs.find(region, site), Some(*cost));
    }
    is_same(rt, costs.find(b"E", b"r1"), None);
}

#[test]
fn the_base_costs_are_read(rt: HostRuntime) {
    let costs = costs_of(rt.alloc(), COSTS).expect(&rt, "the costs are read");
    are_the_base_costs(&rt, &costs);
}

// The rows of the base's capacities, in their order and by what they are found by.
fn are_the_base_capacities(rt: &impl Abort, capacities: &Capacities) {
    const ROWS: [(&[u8], u32, u64); 5] = [
        (b"E", 7, 10),
        (b"E", 3, 6),
        (b"W", 1, 2),
        (b"W", 2, 10),
        (b"W", 9, 10),
    ];
    assert!(rt; capacities.len() == 5);
    for (number, (site, server_id, capacity)) in ROWS.iter().enumerate() {
        let row = capacities.row(number as u32);
        is_same(rt, row.site, *site);
        is_same(rt, row.server_id, *server_id);
        is_same(rt, row.capacity, *capacity);
        is_same(rt, capacities.find(site, *server_id), Some(*capacity));
    }
    is_same(rt, capacities.find(b"E", 1), None);
}

#[test]
fn the_base_capacities_are_read(rt: HostRuntime) {
    let capacities = capacity_of(rt.alloc(), CAPACITY).expect(&rt, "the capacities are read");
    are_the_base_capacities(&rt, &capacities);
}

// The sites of the base's settings.
fn are_the_base_settings(rt: &impl Abort, settings: &Settings) {
    assert!(rt; settings.len() == 2);
    assert!(rt; settings.host_count() == 0);
    is_same(rt, settings.name(0), b"E".as_slice());
    is_same(rt, settings.name(1), b"W".as_slice());
    assert!(rt; matches!(settings.source(0), Source::Octets(octets) if octets == RECORD_OF_E));
    assert!(rt; matches!(settings.source(1), Source::Octets(octets) if octets.len() == 104));
}

#[test]
fn the_base_settings_are_read(rt: HostRuntime) {
    let settings = settings_of(rt.alloc(), SETTINGS).expect(&rt, "the settings are read");
    are_the_base_settings(&rt, &settings);
}

#[test]
fn faults_of_demand(rt: HostRuntime) {
    const TWICE: Option<TableFault> = Some(TableFault::RowTwice { row: 1 });
    const NUMBER: Option<TableFault> = Some(TableFault::BadNumber { row: 0 });
    const FIELDS: Option<TableFault> = Some(TableFault::Fields { row: 0 });
    const NO_SLASH: HandleFault = HandleFault::NoSlash;
    const CASES: [(&[u8], Option<TableFault>); 16] = [
        (b"", Some(TableFault::Header)),
        (b"region,handle\nr1,10/1,5\n", Some(TableFault::Header)),
        (b"region,handle,count\n", None),
        (b"region,handle,count\nr1,10/1,5\nr1,10/1,6\n", TWICE),
        (b"region,handle,count\nr1,10/1,1000001\n", NUMBER),
        (b"region,handle,count\nr1,10/1,007\n", NUMBER),
        (b"region,handle,count\nr1,10/1,-1\n", NUMBER),
        (b"region,handle,count\nr1,10/1,0\nr1,10/2,1000000\n", None),
        (b"region,handle,count\nr1,10/1\n", FIELDS),
        (b"region,handle,count\nr1,10/1,5,\n", FIELDS),
        (
            b"region,handle,count\nr 1,10,x\n",
            Some(TableFault::BadName { row: 0 }),
        ),
        (
            b"region,handle,count\nr1,10,x\n",
            Some(TableFault::BadHandle {
                row: 0,
                fault: NO_SLASH,
            }),
        ),
        (b"region,handle,count\nr1,10/a,1\nr1,10/A,1\n", None),
        (b"region,handle,count\nr1,10/1", FIELDS),
        (b"region,handle,count\nr1,10/1,", NUMBER),
        (b"region,handle,count\nr1,10/1,5", None),
    ];
    for (text, wanted) in CASES {
        is_fault(&rt, text, demand_of(rt.alloc(), text).err(), wanted);
    }
}

#[test]
fn faults_of_settings(rt: HostRuntime) {
    const BAD: Option<TableFault> = Some(TableFault::BadSite { site: 0 });
    const CASES: [(&[u8], Option<TableFault>); 22] = [
        (b"", None),
        (b"site = []", None),
        (b"\xFF", Some(TableFault::NotToml)),
        (b"a = ", Some(TableFault::NotToml)),
        (b"x = 1", Some(TableFault::UnknownKey)),
        (b"site = 1", BAD),
        (b"site = [1]", BAD),
        (
            b"[[site]]\nname = \"E\"\nindex = 1\nsite = 1\n",
            Some(TableFault::UnknownKey),
        ),
        (b"[[site]]\nindex = 1\n", BAD),
        (b"[[site]]\nname = 1\nindex = 1\n", BAD),
        (b"[[site]]\nname = \"E\"\nrecord = \"0\"\n", BAD),
        (b"[[site]]\nname = \"E\"\nrecord = \"0g\"\n", BAD),
        (b"[[site]]\nname = \"E\"\nrecord = 1\n", BAD),
        (b"[[site]]\nname = \"E\"\nrecord = \"\"\n", None),
        (b"[[site]]\nname = \"E\"\nrecord = \"\"\nindex = 1\n", BAD),
        (b"[[site]]\nname = \"E\"\n", BAD),
        (b"[[site]]\nname = \"E\"\nindex = -1\n", BAD),
        (b"[[site]]\nname = \"E\"\nindex = 4294967295\n", None),
        (b"[[site]]\nname = \"E\"\nindex = 4294967296\n", BAD),
        (b"[[site]]\nname = \"E E\"\nindex = 1\n", BAD),
        (
            b"[[site]]\nname = \"a1234567890123456789012345678901234567890123456789012345678901234\"\nindex = 1\n",
            BAD,
        ),
        (
            b"[[site]]\nname = \"E\"\nindex = 1\n[[site]]\nname = \"E\"\nindex = 2\n",
            Some(TableFault::SiteTwice { site: 1 }),
        ),
    ];
    for (text, wanted) in CASES {
        is_fault(&rt, text, settings_of(rt.alloc(), text).err(), wanted);
    }
}

#[test]
fn long_texts_that_are_no_toml(rt: HostRuntime) {
    let text =
        b"[[site]]\nname = \"E\"\nindex = 1\n[[site]]\nname = \"F\"\nindex = 2\n[[site]]\nname = \"G\"\nindex = 3\n\
        [[site]]\nname = \"H\"\nindex = 4\n[[site\n";
    let answer = settings_of(rt.alloc(), text).err();
    is_fault(&rt, text, answer, Some(TableFault::NotToml));
}

// A site's index that is written in base 16, and a host's limit whose digits stand in threes.
fn are_the_numbers(rt: &impl Abort, settings: &Settings) {
    assert!(rt; settings.len() == 1);
    assert!(rt; settings.host_count() == 1);
    assert!(rt; matches!(settings.source(0), Source::Index(16)));
    let (address, limit) = settings.host(0);
    let octets: u128 = 0x01234567_89abcdef_abcdef01_23456789;
    is_same(rt, address, octets.to_be_bytes());
    is_same(rt, limit, 1_000_000_000_000);
}

#[test]
fn numbers_of_settings(rt: HostRuntime) {
    let text =
        b"[[site]]\nname = \"E\"\nindex = 0x10\n[[host]]\naddress = \"0123456789abcdefABCDEF0123456789\"\n\
        limit = 1_000_000_000_000\n";
    let settings = settings_of(rt.alloc(), text).expect(&rt, "the settings are read");
    are_the_numbers(&rt, &settings);
}

// A head, and then for each number from the first on the number between two texts.
#[derive(Clone, Copy)]
struct Numbered<'a> {
    head: &'a [u8],
    before: &'a [u8],
    after: &'a [u8],
    first: u64,
    end: u64,
}

fn push_between(
    text: &mut Vec<u8>,
    before: &[u8],
    number: u64,
    after: &[u8],
) -> Result<(), AllocError> {
    text.extend_from_slice(before)?;
    push_whole(text, number)?;
    text.extend_from_slice(after)
}

fn numbered_once(alloc: Global, numbered: Numbered<'_>) -> Result<Vec<u8>, AllocError> {
    let mut text = Vec::with_capacity(alloc, 200_000)?;
    text.extend_from_slice(numbered.head)?;
    for number in numbered.first..numbered.end {
        push_between(&mut text, numbered.before, number, numbered.after)?;
    }
    Ok(text)
}

// The text of the numbers. Where a growth is refused, the second call finds memory.
fn text_of(rt: &impl Abort, alloc: Global, numbered: Numbered<'_>) -> Vec<u8> {
    match numbered_once(alloc, numbered) {
        Ok(text) => text,
        Err(AllocError) => numbered_once(alloc, numbered).expect(rt, "there is memory"),
    }
}

#[test]
fn demand_at_the_limits(rt: HostRuntime) {
    const ROWS: [(&[u8], &[u8], u64, Option<TableFault>); 4] = [
        (b"r1,10/", b",1\n", 8192, None),
        (b"r1,10/", b",1\n", 8193, Some(TableFault::TooManyRows)),
        (b"r", b",10/1,1\n", 64, None),
        (b"r", b",10/1,1\n", 65, Some(TableFault::TooManyRegions)),
    ];
    let head = b"region,handle,count\n";
    for (before, after, end, wanted) in ROWS {
        let numbered = Numbered {
            head,
            before,
            after,
            first: 0,
            end,
        };
        let text = text_of(&rt, rt.alloc(), numbered);
        let answer = demand_of(rt.alloc(), text.as_slice()).err();
        is_fault(&rt, before, answer, wanted);
    }
}

#[test]
fn costs_at_the_limits(rt: HostRuntime) {
    const ROWS: [(&[u8], &[u8], u64, Option<TableFault>); 3] = [
        (b"r1,s", b",1\n", 2048, None),
        (b"r1,s", b",1\n", 2049, Some(TableFault::TooManyRows)),
        (b"r", b",E,1\n", 65, Some(TableFault::TooManyRegions)),
    ];
    let head = b"region,site,cost\n";
    for (before, after, end, wanted) in ROWS {
        let numbered = Numbered {
            head,
            before,
            after,
            first: 0,
            end,
        };
        let text = text_of(&rt, rt.alloc(), numbered);
        let answer = costs_of(rt.alloc(), text.as_slice()).err();
        is_fault(&rt, before, answer, wanted);
    }
}

#[test]
fn capacity_at_the_limits(rt: HostRuntime) {
    for (end, wanted) in [(1024, None), (1025, Some(TableFault::TooManyRows))] {
        let numbered = Numbered {
            head: b"site,server_id,capacity\n",
            before: b"E,",
            after: b",1\n",
            first: 0,
            end,
        };
        let text = text_of(&rt, rt.alloc(), numbered);
        let answer = capacity_of(rt.alloc(), text.as_slice()).err();
        is_fault(&rt, b"E", answer, wanted);
    }
}

// The settings of that many numbered tables have the fault, if any.
fn are_settings(
    rt: &impl Abort,
    alloc: Global,
    numbered: Numbered<'_>,
    wanted: Option<TableFault>,
) {
    let text = text_of(rt, alloc, numbered);
    let answer = settings_of(alloc, text.as_slice()).err();
    is_fault(rt, numbered.before, answer, wanted);
}

#[test]
fn sites_at_the_limits(rt: HostRuntime) {
    for (end, wanted) in [(32, None), (33, Some(TableFault::TooManySites))] {
        let numbered = Numbered {
            head: b"",
            before: b"[[site]]\nname = \"s",
            after: b"\"\nindex = 1\n",
            first: 0,
            end,
        };
        are_settings(&rt, rt.alloc(), numbered, wanted);
    }
}

#[test]
fn hosts_at_the_limits(rt: HostRuntime) {
    for (end, wanted) in [(2024, None), (2025, Some(TableFault::TooManyHosts))] {
        let numbered = Numbered {
            head: b"",
            before: b"[[host]]\naddress = \"0000000000000000000000000000",
            after: b"\"\nlimit = 1\n",
            first: 1000,
            end,
        };
        are_settings(&rt, rt.alloc(), numbered, wanted);
    }
}
