// The dispatcher by a certificate by prices, of the worked service.
//
// 10/1 may go to the servers 1 and 4, 10/2 to 0 and 3, and 10/3 to 1 and 2. The servers 0 and 1 take 10 and 6, and
// 2, 3 and 4 take 2, 10 and 10.

ghost use Rattle.std.specs.Prelude.{◌<◌};

use crate::same::is_same;
use crate::worked::held_instance;
use hsp_instance::{Arc, Instance};
use hsp_log::Front;
use hsp_names::HandleRef;
use hsp_price_dispatch::{PriceAnswer, PriceDispatcher, StartFault};
use hsp_price_text::{PriceCertificate, PricedPlan, read_prices};
use hsp_tables::{Costs, Limits, read_costs};
use hsp_test_support::service::COSTS;
use std::alloc::Global;
use std::process::Abort;

// The server 1 has the price 1. Of the queries from r2 for 10/3 one goes there, and two go to the server 2.
const PLAN: &[u8] =
    b"HSPLAN PRICES 1\nPLAN\ncost 17\nserver 0 0\nserver 1 1\nserver 2 0\nserver 3 0\nserver 4 0\n\
    class r2 1 1 2 2\nEND\n";

// ---- what a dispatcher stands on

#[derive(Drop)]
struct Held {
    instance: Instance,
    costs: Costs,
    certificate: PriceCertificate,
}

// Each of these once more where memory ran out.

fn held_costs(rt: &impl Abort, alloc: Global) -> Costs {
    match read_costs(alloc, COSTS, Limits::Logs) {
        Ok(costs) => costs,
        Err(_) => read_costs(alloc, COSTS, Limits::Logs).expect(rt, "the texts are right"),
    }
}

fn held_certificate(rt: &impl Abort, alloc: Global) -> PriceCertificate {
    match read_prices(alloc, PLAN) {
        Ok(certificate) => certificate,
        Err(_) => read_prices(alloc, PLAN).expect(rt, "the texts are right"),
    }
}

fn hold(rt: &impl Abort, alloc: Global) -> Held {
    Held {
        instance: held_instance(rt, alloc),
        costs: held_costs(rt, alloc),
        certificate: held_certificate(rt, alloc),
    }
}

// A single front.
const ONLY: Front = Front {
    fronts: 1,
    number: 0,
};

type Started<'a> = Result<PriceDispatcher<'a>, StartFault>;

// The plan of a certificate.
fn plan_in(certificate: &PriceCertificate) -> Option<&PricedPlan> {
    match certificate {
        PriceCertificate::Plan(plan) => Some(plan),
        PriceCertificate::Shortage(_) => None,
    }
}

// A front before its first query, once more where memory ran out.
fn start<'a>(rt: &impl Abort, alloc: Global, held: &'a Held, front: Front) -> Started<'a>
    requires { front.number < front.fronts }
{
    let plan = plan_in(&held.certificate).expect(rt, "the certificate is a plan's");
    match PriceDispatcher::new(alloc, &held.instance, &held.costs, plan, front) {
        Err(StartFault::OutOfMemory) => {
            PriceDispatcher::new(alloc, &held.instance, &held.costs, plan, front)
        }
        started => started,
    }
}

// The same of a plan that fits.
fn begun<'a>(rt: &impl Abort, alloc: Global, held: &'a Held, front: Front) -> PriceDispatcher<'a>
    requires { front.number < front.fronts }
{
    start(rt, alloc, held, front).expect(rt, "the plan fits")
}

// ---- queries

// So many queries from a region for a handle, and the answer that each has.
#[derive(Clone, Copy)]
struct Step {
    region: &'static [u8],
    handle: &'static [u8],
    times: u32,
    answer: PriceAnswer,
}

fn asked(region: &'static [u8], handle: &'static [u8], times: u32, answer: PriceAnswer) -> Step {
    Step {
        region,
        handle,
        times,
        answer,
    }
}

// From r2 by the class: the servers 1 and 2.
const NEAR: PriceAnswer = PriceAnswer::Assigned(Arc {
    site: 0,
    server: 1,
    cost: 2,
});

const FAR: PriceAnswer = PriceAnswer::Assigned(Arc {
    site: 1,
    server: 2,
    cost: 3,
});

// The answer to a query. One that memory ran out for is asked again.
fn answer(
    alloc: Global,
    dispatcher: &mut PriceDispatcher<'_>,
    region: &[u8],
    handle: HandleRef<'_>,
) -> Option<PriceAnswer> {
    match dispatcher.assign(alloc, region, handle) {
        Ok(answer) => Some(answer),
        Err(_) => dispatcher.assign(alloc, region, handle).ok(),
    }
}

// The queries of a step have its answer.
fn get(rt: &impl Abort, alloc: Global, dispatcher: &mut PriceDispatcher<'_>, step: Step) {
    let handle = HandleRef::parse(step.handle).expect(rt, "the handle is one");
    for _again in 0..step.times {
        let found = answer(alloc, dispatcher, step.region, handle);
        is_same(rt, found, Some(step.answer));
    }
}

fn get_all(rt: &impl Abort, alloc: Global, dispatcher: &mut PriceDispatcher<'_>, steps: &[Step]) {
    for step in steps {
        get(rt, alloc, dispatcher, *step);
    }
}

// The first amount goes first where the parts are the same. Then the second one has the greater part left. When both
// are used up, the first least server with free room takes the rest.
fn of_a_class() -> [Step; 5] {
    [
        asked(b"r2", b"10/3", 1, NEAR),
        asked(b"r2", b"10/3", 2, FAR),
        asked(b"r2", b"10/3", 5, NEAR),
        asked(b"r2", b"10/3", 2, PriceAnswer::Full),
        asked(b"r9", b"10/3", 1, PriceAnswer::Unknown),
    ]
}

// A query from this region is unknown.
fn get_unknown(
    rt: &impl Abort,
    alloc: Global,
    dispatcher: &mut PriceDispatcher<'_>,
    region: &[u8],
) {
    let handle = HandleRef::parse(b"10/3").expect(rt, "the handle is one");
    let found = answer(alloc, dispatcher, region, handle);
    is_same(rt, found, Some(PriceAnswer::Unknown));
}

// There are more of them than a table of costs has regions. They take nothing from the class.
#[test]
fn regions_without_a_cost_are_unknown(rt: HostRuntime) {
    let alloc = rt.alloc();
    let held = hold(&rt, alloc);
    let mut dispatcher = begun(&rt, alloc, &held, ONLY);
    for number in 0..100u8 {
        let region = [b'q', b'0' + number / 10, b'0' + number % 10];
        get_unknown(&rt, alloc, &mut dispatcher, &region);
    }
    get_all(&rt, alloc, &mut dispatcher, &of_a_class());
}
