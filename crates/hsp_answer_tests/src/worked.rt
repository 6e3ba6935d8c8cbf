// The worked instance and its plan. None means that memory ran out; where something is held, it was made once more
// then.

use crate::building::instance_by;
use hsp_cert::{Certificate, UseLine};
use hsp_check::{Verdict, check};
use hsp_dispatch::{Dispatcher, Fronts};
use hsp_instance::Instance;
use hsp_test_support::service::{CAPACITY, COSTS, DEMAND, SETTINGS};
use hsp_text::limits::MOST_FRONTS;
use std::alloc::Global;
use std::process::Abort;

/// Two sites of two and three servers, three rows.
pub(crate) fn instance(alloc: Global) -> Option<Instance> {
    instance_of(alloc, DEMAND, CAPACITY)
}

// The same by other counts and capacities.
fn instance_of(alloc: Global, demand: &[u8], capacity: &[u8]) -> Option<Instance> {
    instance_by(alloc, SETTINGS, demand, COSTS, capacity)
}

// Its best plan: all queries go to E, but for two of the last row.
fn certificate(alloc: Global) -> Option<Certificate> {
    certificate_of(alloc, 17, [5, 4, 1, 2])
}

fn use_of(row: u32, site: u32, count: u64) -> UseLine {
    UseLine { row, site, count }
}

// The plan of a cost by which that many queries of the three rows go to E, and that many of the last row to W; best
// where the second server of E is full.
fn certificate_of(alloc: Global, cost: u64, counts: [u64; 4]) -> Option<Certificate> {
    let [first, second, third, away] = counts;
    let uses = [
        use_of(0, 0, first),
        use_of(1, 0, second),
        use_of(2, 0, third),
        use_of(2, 1, away),
    ];
    let uses = Vec::from_slice(alloc, &uses).ok()?;
    let rows = Vec::from_slice(alloc, &[2, 1, 3]).ok()?;
    let servers = Vec::from_slice(alloc, &[0, 1, 0, 0, 0]).ok()?;
    Certificate::best(cost, uses, rows, servers)
}

// A dispatcher by the certificate, which is valid.
fn dispatcher<'a>(
    alloc: Global,
    instance: &'a Instance,
    certificate: &Certificate,
) -> Option<Dispatcher<'a>> {
    let verdict = check(alloc, instance, certificate).ok()?;
    if verdict != Verdict::Yes || certificate.as_best().is_none() {
        return None;
    }
    Dispatcher::new(alloc, instance, certificate).ok()
}

/// A dispatcher by the best plan of the worked instance.
pub(crate) fn best_dispatcher(alloc: Global, instance: &Instance) -> Option<Dispatcher<'_>> {
    let certificate = certificate(alloc)?;
    dispatcher(alloc, instance, &certificate)
}

// So many fronts by the certificate, where it is valid and there may be as many.
fn fronts<'a>(
    alloc: Global,
    instance: &'a Instance,
    certificate: &Certificate,
    many: u32,
) -> Option<Fronts<'a>> {
    let verdict = check(alloc, instance, certificate).ok()?;
    if verdict != Verdict::Yes || certificate.as_best().is_none() {
        return None;
    }
    if many == 0 || many > MOST_FRONTS {
        return None;
    }
    Fronts::new(alloc, instance, certificate, many).ok()
}

/// So many fronts by the best plan of the worked instance.
pub(crate) fn best_fronts(alloc: Global, instance: &Instance, many: u32) -> Option<Fronts<'_>> {
    let certificate = certificate(alloc)?;
    fronts(alloc, instance, &certificate, many)
}

/// The worked instance.
pub(crate) fn held_instance(rt: &impl Abort, alloc: Global) -> Instance {
    held_instance_of(rt, alloc, DEMAND, CAPACITY)
}

/// The same by other counts and capacities.
pub(crate) fn held_instance_of(
    rt: &impl Abort,
    alloc: Global,
    demand: &[u8],
    capacity: &[u8],
) -> Instance {
    match instance_of(alloc, demand, capacity) {
        Some(instance) => instance,
        None => instance_of(alloc, demand, capacity).expect(rt, "the instance is built"),
    }
}

/// The plan of a cost by which that many queries of the three rows go to E, and that many of the last row to W.
pub(crate) fn held_certificate_of(
    rt: &impl Abort,
    alloc: Global,
    cost: u64,
    counts: [u64; 4],
) -> Certificate {
    match certificate_of(alloc, cost, counts) {
        Some(certificate) => certificate,
        None => certificate_of(alloc, cost, counts).expect(rt, "the plan is in order"),
    }
}

/// A dispatcher by its best plan.
pub(crate) fn held_dispatcher<'a>(
    rt: &impl Abort,
    alloc: Global,
    instance: &'a Instance,
) -> Dispatcher<'a> {
    match best_dispatcher(alloc, instance) {
        Some(dispatcher) => dispatcher,
        None => best_dispatcher(alloc, instance).expect(rt, "the plan is valid"),
    }
}

/// So many fronts by its best plan.
pub(crate) fn held_fronts<'a>(
    rt: &impl Abort,
    alloc: Global,
    instance: &'a Instance,
    many: u32,
) -> Fronts<'a> {
    match best_fronts(alloc, instance, many) {
        Some(fronts) => fronts,
        None => best_fronts(alloc, instance, many).expect(rt, "the plan is valid"),
    }
}

/// So many fronts by the certificate.
pub(crate) fn held_fronts_by<'a>(
    rt: &impl Abort,
    alloc: Global,
    instance: &'a Instance,
    certificate: &Certificate,
    many: u32,
) -> Fronts<'a> {
    match fronts(alloc, instance, certificate, many) {
        Some(fronts) => fronts,
        None => fronts(alloc, instance, certificate, many).expect(rt, "the plan is valid"),
    }
}

/// What is left for row 2 at E and W, for row 0 at E and for row 1 at E.
pub(crate) fn left_of(dispatcher: &Dispatcher<'_>) -> [u64; 4] {
    [
        dispatcher.left(2, 0),
        dispatcher.left(2, 1),
        dispatcher.left(0, 0),
        dispatcher.left(1, 0),
    ]
}

/// What fronts 0 and 1 have left for row 0 at E, and then for row 2 at W.
pub(crate) fn left_at_two(fronts: &Fronts<'_>) -> [u64; 4] {
    [
        fronts.left(0, 0, 0),
        fronts.left(1, 0, 0),
        fronts.left(0, 2, 1),
        fronts.left(1, 2, 1),
    ]
}
