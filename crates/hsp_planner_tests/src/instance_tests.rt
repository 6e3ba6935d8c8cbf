use crate::same::{is_same, is_same_of};
use hsp_hash::HashOption;
use hsp_instance::*;
use hsp_record::{RecordFault, ValueList, decode_values};
use hsp_tables::{
    Capacities, Costs, Demand, Limits, Settings, TableFault, read_capacity, read_costs,
    read_demand, read_settings,
};
use hsp_test_support::service::{CAPACITY, COSTS, DEMAND, HOST, SETTINGS};
use hsp_text::push_whole;
use std::alloc::{AllocError, Global};
use std::process::Abort;

// Two servers of the identifier 7.
const TWICE: &[u8] = b"[[site]]\nname = \"E\"\n\
    record = \"0001020000010001000000000000000000000002000000070000000000000000000000000000000100000000000000000000000\
    7000000000000000000000000000000010000000000000000\"\n";

// A record of no server, one of the hash option 3, and one of no octet.
const NO_SERVER: &[u8] =
    b"[[site]]\nname = \"E\"\nrecord = \"0001020000010001000000000000000000000000\"\n";

const THIRD_OPTION: &[u8] = b"[[site]]\nname = \"E\"\n\
    record = \"000102000001000300000000000000000000000100000007000000000000000000000000000000010000000000000000\"\n";

// A record with an octet more than its fields take.
const LONG_RECORD: &[u8] = b"[[site]]\nname = \"E\"\n\
    record = \"00010200000100010000000000000000000000010000000700000000000000000000000000000001000000000000000000\"\n";

const EMPTY_RECORD: &[u8] = b"[[site]]\nname = \"E\"\nrecord = \"\"\n";

const FIRST_VALUE: &[u8] = b"[[site]]\nname = \"E\"\nindex = 1\n";

// What stands before the number of servers of a record.
const HEAD: &[u8] = b"\0\x01\x02\0\0\x01\0\x01\0\0\0\0\0\0\0\0";

// Adds a server of an identifier to the octets of a record.
fn push_server(octets: &mut Vec<u8>, id: u32) -> Result<(), AllocError> {
    octets.extend_from_slice(&id.to_be_bytes())?;
    octets.extend_from_slice(&[0; 24])
}

// A record of `servers` servers, of the identifiers from 0 on.
fn site_octets(alloc: Global, servers: u32) -> Result<Vec<u8>, AllocError> {
    let mut octets = [HEAD, &servers.to_be_bytes()].concat(alloc)?;
    for id in 0..servers {
        push_server(&mut octets, id)?;
    }
    Ok(octets)
}

// Adds a value to the octets of a list.
fn push_value(
    octets: &mut Vec<u8>,
    index: u32,
    type_octets: &[u8; 7],
    site: &[u8],
) -> Result<(), AllocError> {
    octets.extend_from_slice(&index.to_be_bytes())?;
    octets.extend_from_slice(b"\0\0\0\x07")?;
    octets.extend_from_slice(type_octets)?;
    octets.extend_from_slice(&((site.len() % 4_294_967_296) as u32).to_be_bytes())?;
    octets.extend_from_slice(site)?;
    octets.extend_from_slice(&[0; 18])
}

// What texts and octets spell. Where a growth is refused, the second call finds memory: so the answers below are
// insisted on.
fn settings_of(rt: &impl Abort, alloc: Global, text: &[u8]) -> Settings {
    let settings = match read_settings(alloc, text) {
        Err(TableFault::OutOfMemory) => read_settings(alloc, text),
        answer => answer,
    };
    settings.expect(rt, "the settings are read")
}

fn values_of<'a>(rt: &impl Abort, alloc: Global, octets: &'a [u8]) -> ValueList<'a> {
    let values = match decode_values(alloc, octets) {
        Err(RecordFault::OutOfMemory) => decode_values(alloc, octets),
        answer => answer,
    };
    values.expect(rt, "the values are read")
}

fn sites_of(
    alloc: Global,
    settings: &Settings,
    values: Option<&ValueList<'_>>,
) -> Result<Sites, BuildFault> {
    match build_sites(alloc, settings, values) {
        Err(BuildFault::OutOfMemory) => build_sites(alloc, settings, values),
        answer => answer,
    }
}

// The fault of the sites that settings have no need of values for, or None where there is no fault.
fn sites_fault(rt: &impl Abort, alloc: Global, settings: &[u8]) -> Option<BuildFault> {
    let settings = settings_of(rt, alloc, settings);
    sites_of(alloc, &settings, None).err()
}

// The two sites of the base.
fn are_the_base_sites(rt: &impl Abort, sites: &Sites) {
    assert!(rt; sites.len() == 2);
    is_same(rt, sites.name(0), b"E".as_slice());
    is_same(rt, sites.name(1), b"W".as_slice());
    is_same(rt, sites.option(0), HashOption::ByLocal);
    assert!(rt; sites.server_count(0) == 2);
    assert!(rt; sites.server_count(1) == 3);
    is_same(rt, sites.first_server(0), 0);
    is_same(rt, sites.first_server(1), 2);
}

#[test]
fn the_sites_of_the_base_are_read(rt: HostRuntime) {
    let settings = settings_of(&rt, rt.alloc(), SETTINGS);
    let sites = sites_of(rt.alloc(), &settings, None).expect(&rt, "the sites are built");
    are_the_base_sites(&rt, &sites);
}

#[test]
fn bad_sites_have_their_first_fault(rt: HostRuntime) {
    let empty = BuildFault::BadRecord {
        site: 0,
        fault: RecordFault::Truncated { at: 0 },
    };
    let long = BuildFault::BadRecord {
        site: 0,
        fault: RecordFault::Trailing { at: 48 },
    };
    let cases = [
        (NO_SERVER, BuildFault::NoServer { site: 0 }),
        (THIRD_OPTION, BuildFault::BadHashOption { site: 0 }),
        (EMPTY_RECORD, empty),
        (LONG_RECORD, long),
        (TWICE, BuildFault::ServerIdTwice { site: 0 }),
        (FIRST_VALUE, BuildFault::NoValue { site: 0 }),
    ];
    for (settings, fault) in cases {
        is_same_of(
            &rt,
            &settings,
            sites_fault(&rt, rt.alloc(), settings),
            Some(fault),
        );
    }
}

// The texts of the tables.
#[derive(Clone, Copy)]
struct Tables<'a> {
    demand: &'a [u8],
    costs: &'a [u8],
    capacity: &'a [u8],
}

const BASE: Tables<'static> = Tables {
    demand: DEMAND,
    costs: COSTS,
    capacity: CAPACITY,
};

fn demand_of(rt: &impl Abort, alloc: Global, text: &[u8]) -> Demand {
    let demand = match read_demand(alloc, text) {
        Err(TableFault::OutOfMemory) => read_demand(alloc, text),
        answer => answer,
    };
    demand.expect(rt, "the demand is read")
}

fn costs_of(rt: &impl Abort, alloc: Global, text: &[u8]) -> Costs {
    let costs = match read_costs(alloc, text, Limits::Tables) {
        Err(TableFault::OutOfMemory) => read_costs(alloc, text, Limits::Tables),
        answer => answer,
    };
    costs.expect(rt, "the costs are read")
}

fn capacity_of(rt: &impl Abort, alloc: Global, text: &[u8]) -> Capacities {
    let capacity = match read_capacity(alloc, text) {
        Err(TableFault::OutOfMemory) => read_capacity(alloc, text),
        answer => answer,
    };
    capacity.expect(rt, "the capacities are read")
}

// What the texts of the tables spell.
#[derive(Drop)]
struct Rows {
    demand: Demand,
    costs: Costs,
    capacity: Capacities,
}

fn rows_of(rt: &impl Abort, alloc: Global, tables: Tables<'_>) -> Rows {
    Rows {
        demand: demand_of(rt, alloc, tables.demand),
        costs: costs_of(rt, alloc, tables.costs),
        capacity: capacity_of(rt, alloc, tables.capacity),
    }
}

fn built_once(
    alloc: Global,
    settings: &Settings,
    values: Option<&ValueList<'_>>,
    rows: &Rows,
) -> Result<Instance, BuildFault> {
    build(
        alloc,
        settings,
        values,
        &rows.demand,
        &rows.costs,
        &rows.capacity,
    )
}

// The same, once more where a growth was refused.
fn built_twice(
    alloc: Global,
    settings: &Settings,
    values: Option<&ValueList<'_>>,
    rows: &Rows,
) -> Result<Instance, BuildFault> {
    match built_once(alloc, settings, values, rows) {
        Err(BuildFault::OutOfMemory) => built_once(alloc, settings, values, rows),
        answer => answer,
    }
}

// What is built of texts that can be read.
fn built(
    rt: &impl Abort,
    alloc: Global,
    settings: &[u8],
    values: Option<&ValueList<'_>>,
    tables: Tables<'_>,
) -> Result<Instance, BuildFault> {
    let settings = settings_of(rt, alloc, settings);
    let rows = rows_of(rt, alloc, tables);
    built_twice(alloc, &settings, values, &rows)
}

// The instance of texts.
fn instance_of(rt: &impl Abort, alloc: Global, settings: &[u8], tables: Tables<'_>) -> Instance {
    built(rt, alloc, settings, None, tables).expect(rt, "the instance is built")
}

// The first row of the base, and its last server.
fn is_the_base(rt: &impl Abort, base: &Instance) {
    assert!(rt; base.rows() == 3);
    let (region, handle, count) = base.row(0);
    is_same(rt, region, b"r1".as_slice());
    is_same(rt, handle, b"10/1".as_slice());
    is_same(rt, count, 5);
    let sites = base.sites();
    assert!(rt; sites.len() == 2);
    assert!(rt; sites.server_count(1) == 3);
    is_same(rt, sites.server_id(1, 2), 9);
}

#[test]
fn the_base_is_built(rt: HostRuntime) {
    let base = instance_of(&rt, rt.alloc(), SETTINGS, BASE);
    is_the_base(&rt, &base);
}

// The settings with the host. Where a growth is refused, the second joining finds memory.
fn hosted_settings(rt: &impl Abort, alloc: Global) -> Vec<u8> {
    match [SETTINGS, HOST].concat(alloc) {
        Ok(settings) => settings,
        Err(AllocError) => [SETTINGS, HOST].concat(alloc).expect(rt, "there is memory"),
    }
}

// The servers of the first site stand on the host, and the others on none.
fn is_hosted(rt: &impl Abort, instance: &Instance) {
    assert!(rt; instance.hosts() == 1);
    is_same(rt, instance.host(0), (1u128.to_be_bytes(), 8));
    assert!(rt; instance.servers() == 5);
    is_same(rt, instance.host_of(0), Some(0));
    is_same(rt, instance.host_of(1), Some(0));
    is_same(rt, instance.host_of(2), None);
    is_same(rt, instance.host_of(4), None);
}

#[test]
fn servers_stand_on_hosts(rt: HostRuntime) {
    let settings = hosted_settings(&rt, rt.alloc());
    let instance = instance_of(&rt, rt.alloc(), settings.as_slice(), BASE);
    is_hosted(&rt, &instance);
}

// The instance of texts and the octets of a value list.
fn instance_from(
    rt: &impl Abort,
    alloc: Global,
    settings: &[u8],
    octets: &[u8],
    tables: Tables<'_>,
) -> Instance {
    let values = values_of(rt, alloc, octets);
    built(rt, alloc, settings, Some(&values), tables).expect(rt, "the instance is built")
}

// A line of numbers, each behind a text.
fn push_numbers(text: &mut Vec<u8>, fields: &[(&[u8], u32)]) -> Result<(), AllocError> {
    for (before, number) in fields {
        text.extend_from_slice(before)?;
        push_whole(text, u64::from(*number))?;
    }
    text.extend_from_slice(b"\n")
}

// Settings of as many sites as there may be, each of a value of its number.
fn push_settings(text: &mut Vec<u8>) -> Result<(), AllocError> {
    for site in 0..32u32 {
        push_numbers(
            text,
            &[(b"[[site]]\nname = \"s", site), (b"\"\nindex = ", site)],
        )?;
    }
    Ok(())
}

// The values of these sites, each of 32 servers.
fn push_site_values(alloc: Global, octets: &mut Vec<u8>) -> Result<(), AllocError> {
    let record = site_octets(alloc, 32)?;
    octets.extend_from_slice(b"\0\0\0\x20")?;
    for site in 0..32u32 {
        push_value(octets, site, b"HS_SITE", &record)?;
    }
    Ok(())
}

// As many rows as there may be, from as many regions.
fn push_demand(text: &mut Vec<u8>) -> Result<(), AllocError> {
    text.extend_from_slice(b"region,handle,count\n")?;
    for row in 0..8192u32 {
        push_numbers(text, &[(b"r", row % 64), (b",10/", row), (b",", 1_000_000)])?;
    }
    Ok(())
}

// The cost at each site is its number.
fn push_costs(text: &mut Vec<u8>) -> Result<(), AllocError> {
    text.extend_from_slice(b"region,site,cost\n")?;
    for row in 0..2048u32 {
        let (region, site) = (row % 64, row / 64);
        push_numbers(text, &[(b"r", region), (b",s", site), (b",", site)])?;
    }
    Ok(())
}

fn push_capacity(text: &mut Vec<u8>) -> Result<(), AllocError> {
    text.extend_from_slice(b"site,server_id,capacity\n")?;
    for row in 0..1024u32 {
        let (id, site) = (row % 32, row / 32);
        push_numbers(text, &[(b"s", site), (b",", id), (b",", row)])?;
    }
    Ok(())
}

// The octets of these.
#[derive(Drop)]
struct LimitTexts {
    values: Vec<u8>,
    settings: Vec<u8>,
    demand: Vec<u8>,
    costs: Vec<u8>,
    capacity: Vec<u8>,
}

fn no_texts(alloc: Global) -> LimitTexts {
    LimitTexts {
        values: Vec::new(alloc),
        settings: Vec::new(alloc),
        demand: Vec::new(alloc),
        costs: Vec::new(alloc),
        capacity: Vec::new(alloc),
    }
}

fn push_texts(alloc: Global, texts: &mut LimitTexts) -> Result<(), AllocError> {
    push_site_values(alloc, &mut texts.values)?;
    push_settings(&mut texts.settings)?;
    push_demand(&mut texts.demand)?;
    push_costs(&mut texts.costs)?;
    push_capacity(&mut texts.capacity)
}

// Where a growth is refused, the second call finds memory.
fn texts_at_the_limit(rt: &impl Abort, alloc: Global) -> LimitTexts {
    let mut texts = no_texts(alloc);
    if push_texts(alloc, &mut texts).is_err() {
        texts = no_texts(alloc);
        push_texts(alloc, &mut texts).expect(rt, "there is memory");
    }
    texts
}

// The instance of these octets.
fn instance_at_the_limit(rt: &impl Abort, alloc: Global, texts: &LimitTexts) -> Instance {
    let tables = Tables {
        demand: texts.demand.as_slice(),
        costs: texts.costs.as_slice(),
        capacity: texts.capacity.as_slice(),
    };
    instance_from(rt, alloc, &texts.settings, &texts.values, tables)
}

// The last row has an arc to each site, of the cost of its number.
fn all_is_at_the_limit(rt: &impl Abort, instance: &Instance) {
    assert!(rt; instance.rows() == 8192);
    assert!(rt; instance.servers() == 1024);
    is_same(rt, instance.server(1023), (31, 31, 31, 1023));
    is_same(rt, instance.find_row(b"r63", b"10/8191"), Some(8191));
    let arcs = instance.arcs(8191);
    assert!(rt; arcs.len() == 32);
    for (site, arc) in arcs.iter().enumerate() {
        is_same(rt, arc.site as usize, site);
        is_same(rt, arc.server as usize / 32, site);
        is_same(rt, arc.cost as usize, site);
    }
}

#[test]
fn an_instance_at_the_limits_is_built(rt: HostRuntime) {
    let texts = texts_at_the_limit(&rt, rt.alloc());
    let instance = instance_at_the_limit(&rt, rt.alloc(), &texts);
    all_is_at_the_limit(&rt, &instance);
}
