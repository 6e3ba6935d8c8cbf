// Certificates judged.
use crate::inputs::{Numbers, Set, instance_of, judged, plan, shortage};
use crate::same::is_same;
use hsp_cert::Certificate;
use hsp_check::{PlanSums, Reason, Verdict, check, plan_sums, reached_servers};
use hsp_instance::Instance;
use hsp_test_support::service::{BASE, Texts};
use std::alloc::Global;
use std::process::Abort;

// A best plan of the base.
const BEST: Numbers = Numbers {
    cost: 17,
    uses: &[(0, 0, 5), (1, 0, 4), (2, 0, 1), (2, 1, 2)],
    rows: &[2, 1, 3],
    servers: &[0, 1, 0, 0, 0],
    hosts: &[],
};

// The certificate of the plan has this verdict.
fn plan_has(
    rt: &impl Abort,
    alloc: Global,
    instance: &Instance,
    numbers: Numbers,
    wanted: Verdict,
) {
    let certificate = plan(rt, alloc, numbers);
    judged(rt, alloc, instance, &certificate, wanted);
}

// The plan of the instance of the texts is valid.
fn is_valid(rt: &impl Abort, alloc: Global, texts: Texts<'_>, numbers: Numbers) {
    let instance = instance_of(rt, alloc, texts);
    plan_has(rt, alloc, &instance, numbers, Verdict::Yes);
}

// Plans of the instance of the texts have these verdicts.
fn plans_have(rt: &impl Abort, alloc: Global, texts: Texts<'_>, cases: &[(Numbers, Verdict)]) {
    let instance = instance_of(rt, alloc, texts);
    for (numbers, wanted) in cases {
        plan_has(rt, alloc, &instance, *numbers, *wanted);
    }
}

#[test]
fn a_best_plan_is_valid(rt: HostRuntime) {
    is_valid(&rt, rt.alloc(), BASE, BEST);
}

// The sums of a plan that is valid.
fn summed(alloc: Global, instance: &Instance, certificate: &Certificate) -> Option<PlanSums> {
    let verdict = check(alloc, instance, certificate).ok()?;
    if verdict != Verdict::Yes {
        return None;
    }
    match certificate.as_best() {
        Some(plan) => plan_sums(alloc, instance, &plan).ok(),
        None => None,
    }
}

// The same. Where memory ran out once, it is there at the second call.
pub(crate) fn summed_twice(
    rt: &impl Abort,
    alloc: Global,
    instance: &Instance,
    certificate: &Certificate,
) -> PlanSums {
    match summed(alloc, instance, certificate) {
        Some(sums) => sums,
        None => summed(alloc, instance, certificate).expect(rt, "the plan is valid"),
    }
}

// The sums of the plan of the instance of the texts.
fn sums_of(rt: &impl Abort, alloc: Global, texts: Texts<'_>, numbers: Numbers) -> PlanSums {
    let instance = instance_of(rt, alloc, texts);
    let certificate = plan(rt, alloc, numbers);
    summed_twice(rt, alloc, &instance, &certificate)
}

// The sums of the best plan of the base.
fn are_best_sums(rt: &impl Abort, sums: &PlanSums) {
    let loads = &sums.loads;
    is_same(rt, loads.rows.as_slice(), [5, 4, 3].as_slice());
    is_same(rt, loads.servers.as_slice(), [4, 6, 2, 0, 0].as_slice());
    assert!(rt; loads.hosts.is_empty());
    is_same(rt, sums.cost, 17);
    is_same(rt, sums.demand_worth, 23);
    is_same(rt, sums.capacity_worth, 6);
}

#[test]
fn a_best_plan_is_summed(rt: HostRuntime) {
    let sums = sums_of(&rt, rt.alloc(), BASE, BEST);
    are_best_sums(&rt, &sums);
}

// The servers that a short set reaches, where it is valid.
fn reached(alloc: Global, instance: &Instance, certificate: &Certificate) -> Option<Vec<u32>> {
    let verdict = check(alloc, instance, certificate).ok()?;
    if verdict != Verdict::Yes {
        return None;
    }
    match certificate.as_short() {
        Some(set) => reached_servers(alloc, instance, &set).ok(),
        None => None,
    }
}

// The same. Where memory ran out once, it is there at the second call.
pub(crate) fn reached_twice(
    rt: &impl Abort,
    alloc: Global,
    instance: &Instance,
    certificate: &Certificate,
) -> Vec<u32> {
    match reached(alloc, instance, certificate) {
        Some(servers) => servers,
        None => reached(alloc, instance, certificate).expect(rt, "the set is short"),
    }
}

// The servers that the short set of the instance of the texts reaches.
fn servers_of(rt: &impl Abort, alloc: Global, texts: Texts<'_>, set: Set) -> Vec<u32> {
    let instance = instance_of(rt, alloc, texts);
    let certificate = shortage(rt, alloc, set);
    reached_twice(rt, alloc, &instance, &certificate)
}

// The base, but that its last row asks for more than its servers can give.
const LAST_ROW_SHORT: Texts<'static> = Texts {
    demand: b"region,handle,count\nr1,10/1,5\nr1,10/2,4\nr2,10/3,9\n",
    ..BASE
};

#[test]
fn a_short_set_reaches_its_servers(rt: HostRuntime) {
    let servers = servers_of(&rt, rt.alloc(), LAST_ROW_SHORT, (&[2], 9, 8));
    is_same(&rt, servers.as_slice(), [1, 2].as_slice());
}

const WRONG_SHAPES: [(Numbers, Verdict); 2] = [
    (
        Numbers {
            servers: &[0, 1, 0, 0],
            ..BEST
        },
        Verdict::No(Reason::Shape),
    ),
    (
        Numbers {
            uses: &[(0, 0, 5), (1, 2, 4), (2, 0, 1), (2, 1, 2)],
            ..BEST
        },
        Verdict::No(Reason::NoSuchUse),
    ),
];

#[test]
fn shapes_that_are_wrong_are_reported(rt: HostRuntime) {
    plans_have(&rt, rt.alloc(), BASE, &WRONG_SHAPES);
}
