use crate::same::is_same;
use crate::worked::{
    held_certificate_of, held_fronts, held_fronts_by, held_instance, held_instance_of, left_at_two,
};
use hsp_dispatch::*;
use hsp_names::HandleRef;
use std::alloc::Global;
use std::process::Abort;

const NO_SITE: u32 = 2;

fn assigned(site: u32, place: u32, server_id: u32) -> FrontAnswer {
    FrontAnswer::Answered(Answer::Assigned {
        site,
        place,
        server_id,
    })
}

// What two fronts have at first, and a third one that is not there.
fn have_their_shares(rt: &impl Abort, fronts: &Fronts<'_>) {
    for (row, site, lefts) in [
        (0, 0, [3, 2, 0]),
        (1, 0, [2, 2, 0]),
        (2, 0, [1, 0, 0]),
        (2, 1, [1, 1, 0]),
        (3, 0, [0, 0, 0]),
        (0, NO_SITE, [0, 0, 0]),
    ] {
        let held = [
            fronts.left(0, row, site),
            fronts.left(1, row, site),
            fronts.left(2, row, site),
        ];
        is_same(rt, held, lefts);
    }
}

#[test]
fn fronts_hold_their_shares(rt: HostRuntime) {
    let instance = held_instance(&rt, rt.alloc());
    let fronts = held_fronts(&rt, rt.alloc(), &instance, 2);
    have_their_shares(&rt, &fronts);
}

// What two fronts answer, in turn.
fn answer_by_their_shares(rt: &impl Abort, fronts: &mut Fronts<'_>) {
    let spent = FrontAnswer::Answered(Answer::Spent);
    let unknown = FrontAnswer::Answered(Answer::Unknown);
    for (front, region, handle, wanted) in [
        (1, b"r1", b"10/1", assigned(0, 1, 3)),
        (0, b"r1", b"10/1", assigned(0, 1, 3)),
        (1, b"r1", b"10/1", assigned(0, 1, 3)),
        (1, b"r1", b"10/1", spent),
        (1, b"r2", b"10/3", assigned(1, 0, 1)),
        (2, b"r2", b"10/3", FrontAnswer::NoFront),
        (0, b"r9", b"10/1", unknown),
    ] {
        let handle = HandleRef::parse(handle).expect(rt, "the handle is one");
        is_same(rt, fronts.assign(front, region, handle), wanted);
    }
}

#[test]
fn fronts_answer_by_their_shares(rt: HostRuntime) {
    let instance = held_instance(&rt, rt.alloc());
    let mut fronts = held_fronts(&rt, rt.alloc(), &instance, 2);
    answer_by_their_shares(&rt, &mut fronts);
    is_same(&rt, left_at_two(&fronts), [2, 0, 1, 0]);
}

// The counts of the first row, and what each front has of them before it takes one, and what the first has of the
// second row.
#[derive(Clone, Copy)]
struct Wide {
    demand: &'static [u8],
    capacity: &'static [u8],
    cost: u64,
    count: u64,
    many: u32,
    share: u64,
    next: u64,
}

// Each front has its share of the first row, and one less behind an answer.
fn take_of_each(rt: &impl Abort, fronts: &mut Fronts<'_>, wide: Wide) {
    let handle = HandleRef::parse(b"10/1").expect(rt, "the handle is one");
    for front in 0..wide.many {
        is_same(rt, fronts.left(front, 0, 0), wide.share);
        is_same(rt, fronts.assign(front, b"r1", handle), assigned(0, 1, 3));
        is_same(rt, fronts.left(front, 0, 0).saturating_add(1), wide.share);
    }
    is_same(
        rt,
        [fronts.left(0, 1, 0), fronts.left(0, 2, 0)],
        [wide.next, 1],
    );
}

// The fronts of an instance of these counts have their shares.
fn have_the_share(rt: &impl Abort, alloc: Global, wide: Wide) {
    let instance = held_instance_of(rt, alloc, wide.demand, wide.capacity);
    let certificate = held_certificate_of(rt, alloc, wide.cost, [wide.count, 4, 1, 2]);
    let mut fronts = held_fronts_by(rt, alloc, &instance, &certificate, wide.many);
    take_of_each(rt, &mut fronts, wide);
}

const BOTH_LESS: Wide = Wide {
    demand: b"region,handle,count\nr1,10/1,131070\nr1,10/2,4\nr2,10/3,3\n",
    capacity: b"site,server_id,capacity\nE,7,10\nE,3,131071\nW,1,2\nW,2,10\nW,9,10\n",
    cost: 131082,
    count: 131070,
    many: 2,
    share: 65535,
    next: 2,
};

const MOST: Wide = Wide {
    demand: b"region,handle,count\nr1,10/1,1000000\nr1,10/2,4\nr2,10/3,3\n",
    capacity: b"site,server_id,capacity\nE,7,10\nE,3,1000001\nW,1,2\nW,2,10\nW,9,10\n",
    cost: 1000012,
    count: 1000000,
    many: 2,
    share: 500000,
    next: 2,
};

#[test]
fn fronts_hold_shares_of_two_octets_and_of_more(rt: HostRuntime) {
    for wide in [BOTH_LESS, MOST] {
        have_the_share(&rt, rt.alloc(), wide);
    }
}
