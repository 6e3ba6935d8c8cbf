use crate::held::{copied, joined};
use crate::same::is_same;
use hsp_check::{Reason, Verdict};
use hsp_inputs::{Fault, Inputs};
use hsp_runs::*;
use hsp_test_support::service::{CAPACITY, COSTS, DEMAND, SETTINGS};
use hsp_text::push_whole;
use std::alloc::{AllocError, Global};
use std::process::Abort;

// Two sites, three rows, five servers.
pub(crate) const BASE: Texts<'static> = Texts {
    settings: SETTINGS,
    demand: DEMAND,
    costs: COSTS,
    capacity: CAPACITY,
};

// The same, where the last row asks for 9 queries.
pub(crate) const LACKING: Texts<'static> = Texts {
    settings: SETTINGS,
    demand: b"region,handle,count\nr1,10/1,5\nr1,10/2,4\nr2,10/3,9\n",
    costs: COSTS,
    capacity: CAPACITY,
};

// The texts of inputs.
#[derive(Clone, Copy)]
pub(crate) struct Texts<'a> {
    settings: &'a [u8],
    demand: &'a [u8],
    costs: &'a [u8],
    capacity: &'a [u8],
}

pub(crate) fn inputs_of(rt: &impl Abort, alloc: Global, texts: Texts<'_>) -> Inputs {
    Inputs {
        settings: copied(rt, alloc, texts.settings),
        values: None,
        demand: Some(copied(rt, alloc, texts.demand)),
        costs: copied(rt, alloc, texts.costs),
        capacity: copied(rt, alloc, texts.capacity),
    }
}

// The text of a plan, from the texts of its uses and prices.
fn plan_text(rt: &impl Abort, alloc: Global, cost: &[u8], uses: &[u8], prices: &[u8]) -> Vec<u8> {
    let parts: [&[u8]; 5] = [b"HSPLAN 1\nPLAN\n", cost, uses, prices, b"END\n"];
    joined(rt, alloc, &parts)
}

// The verdict on a certificate of the texts. Where a growth is refused, the second call finds memory.
fn judged(rt: &impl Abort, alloc: Global, texts: Texts<'_>, cert: &[u8]) -> Result<Verdict, Fault> {
    let inputs = inputs_of(rt, alloc, texts);
    match check_run(alloc, &inputs, cert) {
        Err(Fault::OutOfMemory) => check_run(alloc, &inputs, cert),
        answer => answer,
    }
}

// The verdict is the wanted one.
fn checks(rt: &impl Abort, alloc: Global, texts: Texts<'_>, cert: &[u8], wanted: Verdict) {
    is_same(rt, judged(rt, alloc, texts, cert), Ok(wanted));
}

const USES: &[u8] = b"use 0 0 5\nuse 1 0 4\nuse 2 0 1\nuse 2 1 2\n";

const PRICES: &[u8] =
    b"row 0 2\nrow 1 1\nrow 2 3\nserver 0 0\nserver 1 1\nserver 2 0\nserver 3 0\nserver 4 0\n";

#[test]
fn plans_are_judged(rt: HostRuntime) {
    const PLANS: [(&[u8], &[u8], Verdict); 5] = [
        (b"cost 17\n", USES, Verdict::Yes),
        (b"cost 16\n", USES, Verdict::No(Reason::Cost)),
        (
            b"cost 17\n",
            b"use 0 0 5\nuse 1 2 4\nuse 2 0 1\nuse 2 1 2\n",
            Verdict::No(Reason::NoSuchUse),
        ),
        (
            b"cost 17\n",
            b"use 0 0 4\nuse 1 0 4\nuse 2 0 1\nuse 2 1 2\n",
            Verdict::No(Reason::RowSum),
        ),
        (
            b"cost 17\n",
            b"use 0 0 5\nuse 1 0 4\nuse 2 0 3\n",
            Verdict::No(Reason::Load),
        ),
    ];
    for (cost, uses, wanted) in PLANS {
        let text = plan_text(&rt, rt.alloc(), cost, uses, PRICES);
        checks(&rt, rt.alloc(), BASE, &text, wanted);
    }
}

// The verdict has this line. Where a growth is refused, the second call finds memory.
fn has_line(rt: &impl Abort, alloc: Global, verdict: &Verdict, wanted: &[u8]) {
    let line = match verdict_line(alloc, verdict) {
        Ok(line) => line,
        Err(AllocError) => verdict_line(alloc, verdict).expect(rt, "there is memory"),
    };
    is_same(rt, line.as_slice(), wanted);
}

#[test]
fn verdicts_have_their_lines(rt: HostRuntime) {
    const CASES: [(Verdict, &[u8], u8); 12] = [
        (Verdict::Yes, b"yes\n", 0),
        (Verdict::No(Reason::Shape), b"no 1 Shape\n", 3),
        (Verdict::No(Reason::NoSuchUse), b"no 2 NoSuchUse\n", 3),
        (Verdict::No(Reason::RowSum), b"no 3 RowSum\n", 3),
        (Verdict::No(Reason::Load), b"no 4 Load\n", 3),
        (Verdict::No(Reason::Cost), b"no 5 Cost\n", 3),
        (Verdict::No(Reason::ArcPrice), b"no 6 ArcPrice\n", 3),
        (Verdict::No(Reason::UsedArcPrice), b"no 7 UsedArcPrice\n", 3),
        (Verdict::No(Reason::IdlePrice), b"no 8 IdlePrice\n", 3),
        (Verdict::No(Reason::DemandSum), b"no 9 DemandSum\n", 3),
        (Verdict::No(Reason::CapacitySum), b"no 10 CapacitySum\n", 3),
        (Verdict::No(Reason::NotShort), b"no 11 NotShort\n", 3),
    ];
    for (verdict, wanted, status) in CASES {
        is_same(&rt, verdict_status(&verdict), status);
        has_line(&rt, rt.alloc(), &verdict, wanted);
    }
}

// The text that `plan` answers. Where a growth is refused, the second call finds memory.
fn planned(rt: &impl Abort, alloc: Global, texts: Texts<'_>) -> Result<PlanText, Fault> {
    let inputs = inputs_of(rt, alloc, texts);
    match plan_run(alloc, &inputs) {
        Err(Fault::OutOfMemory) => plan_run(alloc, &inputs),
        answer => answer,
    }
}

// The text for inputs with no fault.
fn held_plan(rt: &impl Abort, alloc: Global, texts: Texts<'_>) -> PlanText {
    planned(rt, alloc, texts).expect(rt, "the inputs have no fault")
}

// The text is a plan's, and begins so.
fn is_plan_from(rt: &impl Abort, plan: &PlanText, start: &[u8]) {
    assert!(rt; !plan.is_short());
    assert!(rt; plan.bytes().starts_with(start));
}

// The plan's text begins so, and is valid.
fn plans_from(rt: &impl Abort, alloc: Global, texts: Texts<'_>, start: &[u8]) {
    let plan = held_plan(rt, alloc, texts);
    is_plan_from(rt, &plan, start);
    checks(rt, alloc, texts, plan.bytes(), Verdict::Yes);
    assert!(rt; plan.into_bytes().as_slice().starts_with(start));
}

#[test]
fn plans_are_of_the_least_cost(rt: HostRuntime) {
    plans_from(
        &rt,
        rt.alloc(),
        BASE,
        b"HSPLAN 1\nPLAN\ncost 17\nuse 0 0 5\nuse 1 0 4\nuse 2 0 1\nuse 2 1 2\nrow 0 ",
    );
    let reversed = Texts {
        demand: b"region,handle,count\nr2,10/3,3\nr1,10/2,4\nr1,10/1,5\n",
        ..BASE
    };
    plans_from(
        &rt,
        rt.alloc(),
        reversed,
        b"HSPLAN 1\nPLAN\ncost 17\nuse 0 0 1\nuse 0 1 2\nuse 1 0 4\nuse 2 0 5\nrow 0 ",
    );
}

// Adds a row of one query.
fn push_row(text: &mut Vec<u8>, row: u64) -> Result<(), AllocError> {
    text.extend_from_slice(b"r1,10/")?;
    push_whole(text, row)?;
    text.extend_from_slice(b",1\n")
}

// A query of each of 5,000 rows.
fn push_many(text: &mut Vec<u8>) -> Result<(), AllocError> {
    text.extend_from_slice(b"region,handle,count\n")?;
    for row in 0..5000 {
        push_row(text, row)?;
    }
    Ok(())
}

// Where a growth is refused, the second call finds memory.
fn many(rt: &impl Abort, alloc: Global) -> Vec<u8> {
    let mut text = Vec::new(alloc);
    if push_many(&mut text).is_err() {
        text = Vec::new(alloc);
        push_many(&mut text).expect(rt, "there is memory");
    }
    text
}

#[test]
fn many_rows_are_planned_and_judged(rt: HostRuntime) {
    let demand = many(&rt, rt.alloc());
    let texts = Texts {
        demand: demand.as_slice(),
        costs: b"region,site,cost\nr1,E,1\n",
        capacity: b"site,server_id,capacity\nE,7,5000\nE,3,5000\nW,1,0\nW,2,0\nW,9,0\n",
        ..BASE
    };
    plans_from(
        &rt,
        rt.alloc(),
        texts,
        b"HSPLAN 1\nPLAN\ncost 5000\nuse 0 0 1\nuse 1 0 1\nuse 2 0 1\n",
    );
}

pub(crate) const PLAN: &[u8] =
    b"HSPLAN 1\nPLAN\ncost 17\nuse 0 0 5\nuse 1 0 4\nuse 2 0 1\nuse 2 1 2\nrow 0 2\nrow 1 1\nrow 2 3\nserver 0 0\n\
    server 1 1\nserver 2 0\nserver 3 0\nserver 4 0\nEND\n";

pub(crate) const SHORTAGE: &[u8] = b"HSPLAN 1\nSHORTAGE\ndemand 9\ncapacity 8\nrow 2\nEND\n";
