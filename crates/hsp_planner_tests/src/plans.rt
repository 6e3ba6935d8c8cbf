// Instances planned.

ghost use Rattle.std.specs.Prelude.{ℕ, ⊤, None, slice_index_or, vec_len};

use crate::inputs::{Set, TWO_SITES_OF_ONE, instance_of, judged};
use crate::same::is_same;
use hsp_cert::{Certificate, UseLine};
use hsp_check::Verdict;
use hsp_flow::{
    Effort, Frontier, HeapFrontier, ScanFrontier, solve, solve_counted, solve_proposed, solve_with,
};
use hsp_instance::Instance;
use hsp_test_support::service::{BASE, Texts};
use std::alloc::{AllocError, Global};
use std::process::Abort;

// The planner's certificate over a frontier, once more where a growth was refused.
fn planned_twice<F: Frontier>(rt: &impl Abort, alloc: Global, instance: &Instance) -> Certificate
    requires { (nodes : ℕ) → F.may_have nodes }
{
    match solve_with::<F>(alloc, instance) {
        Ok(certificate) => certificate,
        Err(AllocError) => solve_with::<F>(alloc, instance).expect(rt, "there is memory"),
    }
}

// The same, which the checker finds valid.
pub(crate) fn planned<F: Frontier>(rt: &impl Abort, alloc: Global, texts: Texts<'_>) -> Certificate
    requires { (nodes : ℕ) → F.may_have nodes }
{
    let instance = instance_of(rt, alloc, texts);
    let certificate = planned_twice::<F>(rt, alloc, &instance);
    judged(rt, alloc, &instance, &certificate, Verdict::Yes);
    certificate
}

// The certificate is that of a plan of this cost and, where they are given, these uses.
pub(crate) fn is_plan(
    rt: &impl Abort,
    certificate: &Certificate,
    cost: u64,
    uses: Option<&[UseLine]>,
) {
    let best = certificate.as_best().expect(rt, "a plan came");
    is_same(rt, best.cost(), cost);
    if let Some(uses) = uses {
        is_same(rt, best.uses(), uses);
    }
}

// The frontier gives a plan of this cost and, where they are given, these uses.
pub(crate) fn plans_over<F: Frontier>(
    rt: &impl Abort,
    alloc: Global,
    texts: Texts<'_>,
    cost: u64,
    uses: Option<&[UseLine]>,
)
    requires { (nodes : ℕ) → F.may_have nodes }
{
    let certificate = planned::<F>(rt, alloc, texts);
    is_plan(rt, &certificate, cost, uses);
}

// Both frontiers give a plan of this cost and, where they are given, these uses.
fn plans(rt: &impl Abort, alloc: Global, texts: Texts<'_>, cost: u64, uses: Option<&[UseLine]>) {
    plans_over::<ScanFrontier>(rt, alloc, texts, cost, uses);
    plans_over::<HeapFrontier>(rt, alloc, texts, cost, uses);
}

// The certificate is that of this short set.
fn is_short(rt: &impl Abort, certificate: &Certificate, wanted: Set) {
    let short = certificate.as_short().expect(rt, "a shortage came");
    is_same(rt, (short.rows(), short.demand(), short.capacity()), wanted);
}

// The frontier gives this short set.
fn falls_short_over<F: Frontier>(rt: &impl Abort, alloc: Global, texts: Texts<'_>, wanted: Set)
    requires { (nodes : ℕ) → F.may_have nodes }
{
    let certificate = planned::<F>(rt, alloc, texts);
    is_short(rt, &certificate, wanted);
}

// Both frontiers give this short set.
fn falls_short(rt: &impl Abort, alloc: Global, texts: Texts<'_>, wanted: Set) {
    falls_short_over::<ScanFrontier>(rt, alloc, texts, wanted);
    falls_short_over::<HeapFrontier>(rt, alloc, texts, wanted);
}

const fn used(row: u32, site: u32, count: u64) -> UseLine {
    UseLine { row, site, count }
}

#[test]
fn the_base_is_planned(rt: HostRuntime) {
    let uses = [used(0, 0, 5), used(1, 0, 4), used(2, 0, 1), used(2, 1, 2)];
    plans(&rt, rt.alloc(), BASE, 17, Some(&uses));
}

#[test]
fn a_shortage_is_reported(rt: HostRuntime) {
    let texts = Texts {
        demand: b"region,handle,count\nr1,10/1,5\nr1,10/2,4\nr2,10/3,9\n",
        ..BASE
    };
    falls_short(&rt, rt.alloc(), texts, (&[2], 9, 8));
}

// A scan that takes no more than three nodes.
#[derive(Drop)]
struct Narrow {
    scan: ScanFrontier,
}

impl Frontier for Narrow {
    ghost held = { λ narrow v. slice_index_or narrow.scan.keys.items v None };

    ghost node_count = { λ narrow. vec_len narrow.scan.keys };

    ghost sure = { λ _. 18446744073709551615 };

    ghost may_have = { λ _. ⊤ };

    fn with_nodes(alloc: Global, nodes: u32) -> Result<Narrow, AllocError> {
        if nodes > 3 {
            return Err(AllocError);
        }
        Ok(Narrow {
            scan: ScanFrontier::with_nodes(alloc, nodes)?,
        })
    }

    fn put(&mut self, node: u32, key: u64) -> Result<(), AllocError> {
        self.scan.put(node, key)
    }

    fn lower(&mut self, node: u32, key: u64) -> Result<(), AllocError> {
        self.scan.lower(node, key)
    }

    fn take_least(&mut self) -> Option<(u32, u64)> {
        self.scan.take_least()
    }

    fn is_empty(&self) -> bool {
        self.scan.is_empty()
    }

    fn clear(&mut self) {
        self.scan.clear();
    }

    fn spare(&self) -> u64 {
        self.scan.spare()
    }
}

// How many searches the loop begins for the instance.
fn searches_for(rt: &impl Abort, alloc: Global, instance: &Instance) -> u64 {
    let mut effort = Effort::default();
    if solve_counted::<ScanFrontier>(alloc, instance, &mut effort).is_err() {
        effort = Effort::default();
        solve_counted::<ScanFrontier>(alloc, instance, &mut effort).expect(rt, "there is memory");
    }
    effort.searching.searches
}

// The loop begins `wanted` searches for the instance of the texts.
fn takes_searches(rt: &impl Abort, alloc: Global, texts: Texts<'_>, wanted: u64) {
    let instance = instance_of(rt, alloc, texts);
    is_same(rt, searches_for(rt, alloc, &instance), wanted);
}

// Two sites of a server each, and two rows of one region beside another.
const THREE_ROWS: Texts<'static> = Texts {
    sites: TWO_SITES_OF_ONE,
    demand: b"region,handle,count\nr1,10/1,5\nr1,10/2,4\nr2,10/3,3\n",
    costs: b"region,site,cost\nr1,X,1\nr1,Y,2\nr2,X,2\nr2,Y,1\n",
    capacity: b"site,server_id,capacity\nX,7,6\nY,7,10\n",
    ..BASE
};

// The first row goes to X, the second takes what X has left and then Y, and the third goes to Y: four searches.
#[test]
fn rows_are_searched_from(rt: HostRuntime) {
    let uses = [used(0, 0, 5), used(1, 0, 1), used(1, 1, 3), used(2, 1, 3)];
    plans_over::<ScanFrontier>(&rt, rt.alloc(), THREE_ROWS, 15, Some(&uses));
    takes_searches(&rt, rt.alloc(), THREE_ROWS, 4);
}

// With 5 at Y the third row gets 2, and its last search finds no way.
#[test]
fn rows_fall_short(rt: HostRuntime) {
    let texts = Texts {
        capacity: b"site,server_id,capacity\nX,7,6\nY,7,5\n",
        ..THREE_ROWS
    };
    falls_short_over::<ScanFrontier>(&rt, rt.alloc(), texts, (&[0, 1, 2], 12, 11));
    takes_searches(&rt, rt.alloc(), texts, 5);
}

#[test]
fn a_frontier_that_refuses_is_out_of_memory(rt: HostRuntime) {
    let base = instance_of(&rt, rt.alloc(), BASE);
    let is_refused = solve_with::<Narrow>(rt.alloc(), &base).is_err();
    assert!(rt; is_refused);
}

// The planner's own certificate, once more where a growth was refused.
fn solved_twice(rt: &impl Abort, alloc: Global, instance: &Instance) -> Certificate {
    match solve(alloc, instance) {
        Ok(certificate) => certificate,
        Err(AllocError) => solve(alloc, instance).expect(rt, "there is memory"),
    }
}

// The same, which the checker finds valid.
pub(crate) fn solved(rt: &impl Abort, alloc: Global, instance: &Instance) -> Certificate {
    let certificate = solved_twice(rt, alloc, instance);
    judged(rt, alloc, instance, &certificate, Verdict::Yes);
    certificate
}

// The planner's own certificate is that of a plan of this cost.
pub(crate) fn is_solved(rt: &impl Abort, alloc: Global, texts: Texts<'_>, cost: u64) {
    let instance = instance_of(rt, alloc, texts);
    let certificate = solved(rt, alloc, &instance);
    is_plan(rt, &certificate, cost, None);
}

#[test]
fn the_planner_takes_the_heap(rt: HostRuntime) {
    is_solved(&rt, rt.alloc(), BASE, 17);
}

// What planning the instance took.
fn effort_for(rt: &impl Abort, alloc: Global, instance: &Instance) -> Effort {
    let mut effort = Effort::default();
    if solve_proposed(alloc, instance, &mut effort).is_err() {
        effort = Effort::default();
        solve_proposed(alloc, instance, &mut effort).expect(rt, "there is memory");
    }
    effort
}

#[test]
fn the_planner_takes_a_proposal(rt: HostRuntime) {
    let base = instance_of(&rt, rt.alloc(), BASE);
    let effort = effort_for(&rt, rt.alloc(), &base);
    is_same(&rt, (effort.proposals, effort.searching.searches), (1, 0));
}
