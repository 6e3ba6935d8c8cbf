// Inputs, the instances and certificates that they make, and verdicts. Where a growth is refused, the second call finds
// memory: so the tests insist on what they make.
use crate::same::is_same;
use hsp_cert::{Certificate, UseLine};
use hsp_check::{Verdict, check};
use hsp_instance::{BuildFault, Instance, build};
use hsp_tables::{
    Capacities, Costs, Demand, Limits, Settings, TableFault, read_capacity, read_costs,
    read_demand, read_settings,
};
use hsp_test_support::service::Texts;
use std::alloc::{AllocError, Global};
use std::process::Abort;

/// Two sites of one server each.
pub const TWO_SITES_OF_ONE: &[u8] = b"[[site]]\nname = \"X\"\n\
    record = \"000102000001000100000000000000000000000100000007000000000000000000000000000000010000000000000000\"\n\
    [[site]]\nname = \"Y\"\n\
    record = \"000102000001000100000000000000000000000100000007000000000000000000000000000000010000000000000000\"\n";

// What the texts of the tables spell.
#[derive(Drop)]
struct Tables {
    demand: Demand,
    costs: Costs,
    capacity: Capacities,
}

fn demand_of(rt: &impl Abort, alloc: Global, text: &[u8]) -> Demand {
    let demand = match read_demand(alloc, text) {
        Err(TableFault::OutOfMemory) => read_demand(alloc, text),
        answer => answer,
    };
    demand.expect(rt, "the demand is read")
}

fn costs_of(rt: &impl Abort, alloc: Global, text: &[u8]) -> Costs {
    let costs = match read_costs(alloc, text, Limits::Tables) {
        Err(TableFault::OutOfMemory) => read_costs(alloc, text, Limits::Tables),
        answer => answer,
    };
    costs.expect(rt, "the costs are read")
}

fn capacity_of(rt: &impl Abort, alloc: Global, text: &[u8]) -> Capacities {
    let capacity = match read_capacity(alloc, text) {
        Err(TableFault::OutOfMemory) => read_capacity(alloc, text),
        answer => answer,
    };
    capacity.expect(rt, "the capacities are read")
}

fn tables_of(rt: &impl Abort, alloc: Global, texts: Texts<'_>) -> Tables {
    Tables {
        demand: demand_of(rt, alloc, texts.demand),
        costs: costs_of(rt, alloc, texts.costs),
        capacity: capacity_of(rt, alloc, texts.capacity),
    }
}

// The text of the settings: the sites, and the hosts behind them.
fn settings_text(rt: &impl Abort, alloc: Global, texts: Texts<'_>) -> Vec<u8> {
    match [texts.sites, texts.hosts].concat(alloc) {
        Ok(text) => text,
        Err(AllocError) => [texts.sites, texts.hosts]
            .concat(alloc)
            .expect(rt, "there is memory"),
    }
}

fn settings_in(rt: &impl Abort, alloc: Global, text: &[u8]) -> Settings {
    let settings = match read_settings(alloc, text) {
        Err(TableFault::OutOfMemory) => read_settings(alloc, text),
        answer => answer,
    };
    settings.expect(rt, "the settings are read")
}

fn settings_of(rt: &impl Abort, alloc: Global, texts: Texts<'_>) -> Settings {
    let text = settings_text(rt, alloc, texts);
    settings_in(rt, alloc, &text)
}

fn built(alloc: Global, settings: &Settings, tables: &Tables) -> Result<Instance, BuildFault> {
    let (demand, costs, capacity) = (&tables.demand, &tables.costs, &tables.capacity);
    build(alloc, settings, None, demand, costs, capacity)
}

fn built_twice(
    alloc: Global,
    settings: &Settings,
    tables: &Tables,
) -> Result<Instance, BuildFault> {
    match built(alloc, settings, tables) {
        Err(BuildFault::OutOfMemory) => built(alloc, settings, tables),
        answer => answer,
    }
}

/// The instance of the texts.
pub(crate) fn instance_of(rt: &impl Abort, alloc: Global, texts: Texts<'_>) -> Instance {
    let settings = settings_of(rt, alloc, texts);
    let tables = tables_of(rt, alloc, texts);
    built_twice(alloc, &settings, &tables).expect(rt, "the instance is built")
}

/// The numbers of a plan's certificate.
#[derive(Clone, Copy)]
pub struct Numbers {
    pub cost: u64,
    pub uses: &'static [(u32, u32, u64)],
    pub rows: &'static [u64],
    pub servers: &'static [u64],
    pub hosts: &'static [u64],
}

fn uses_once(alloc: Global, numbers: &[(u32, u32, u64)]) -> Result<Vec<UseLine>, AllocError> {
    let mut uses = Vec::new(alloc);
    for (row, site, count) in numbers {
        uses.push(UseLine {
            row: *row,
            site: *site,
            count: *count,
        })?;
    }
    Ok(uses)
}

fn uses_of(rt: &impl Abort, alloc: Global, numbers: &[(u32, u32, u64)]) -> Vec<UseLine> {
    match uses_once(alloc, numbers) {
        Ok(uses) => uses,
        Err(AllocError) => uses_once(alloc, numbers).expect(rt, "there is memory"),
    }
}

fn prices_of(rt: &impl Abort, alloc: Global, prices: &[u64]) -> Vec<u64> {
    match Vec::from_slice(alloc, prices) {
        Ok(prices) => prices,
        Err(AllocError) => Vec::from_slice(alloc, prices).expect(rt, "there is memory"),
    }
}

/// The certificate of a plan.
pub(crate) fn plan(rt: &impl Abort, alloc: Global, numbers: Numbers) -> Certificate {
    let made = Certificate::best_with_hosts(
        numbers.cost,
        uses_of(rt, alloc, numbers.uses),
        prices_of(rt, alloc, numbers.rows),
        prices_of(rt, alloc, numbers.servers),
        prices_of(rt, alloc, numbers.hosts),
    );
    made.expect(rt, "the plan is in order")
}

/// The rows, demand and capacity of a short set.
pub type Set = (&'static [u32], u64, u64);

fn rows_of(rt: &impl Abort, alloc: Global, rows: &[u32]) -> Vec<u32> {
    match Vec::from_slice(alloc, rows) {
        Ok(rows) => rows,
        Err(AllocError) => Vec::from_slice(alloc, rows).expect(rt, "there is memory"),
    }
}

/// The certificate of a short set.
pub(crate) fn shortage(rt: &impl Abort, alloc: Global, set: Set) -> Certificate {
    let (rows, demand, capacity) = set;
    let made = Certificate::short(rows_of(rt, alloc, rows), demand, capacity);
    made.expect(rt, "the set is in order")
}

/// The certificate has this verdict.
pub(crate) fn judged(
    rt: &impl Abort,
    alloc: Global,
    instance: &Instance,
    certificate: &Certificate,
    wanted: Verdict,
) {
    let verdict = match check(alloc, instance, certificate) {
        Err(AllocError) => check(alloc, instance, certificate),
        answer => answer,
    };
    is_same(rt, verdict, Ok(wanted));
}
