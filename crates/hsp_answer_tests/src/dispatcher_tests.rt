use crate::same::is_same;
use crate::worked::{held_dispatcher, held_instance};
use hsp_dispatch::*;
use hsp_names::HandleRef;
use std::process::Abort;

// The last row's queries go to the first site and then to the second, as the plan sends them.
fn goes_by_the_plan(rt: &impl Abort, dispatcher: &mut Dispatcher<'_>) {
    let handle = HandleRef::parse(b"10/3").expect(rt, "the handle is one");
    let by_hash = Answer::Assigned {
        site: 0,
        place: 1,
        server_id: 3,
    };
    let later = Answer::Assigned {
        site: 1,
        place: 0,
        server_id: 1,
    };
    for wanted in [by_hash, later, later, Answer::Spent] {
        is_same(rt, dispatcher.assign(b"r2", handle), wanted);
    }
    is_same(rt, dispatcher.assign(b"r9", handle), Answer::Unknown);
}

// What they leave.
fn has_left(rt: &impl Abort, dispatcher: &Dispatcher<'_>) {
    for (row, site, left) in [
        (2, 0, 0),
        (2, 1, 0),
        (0, 0, 5),
        (1, 0, 4),
        (3, 0, 0),
        (0, 2, 0),
    ] {
        is_same(rt, dispatcher.left(row, site), left);
    }
}

#[test]
fn queries_go_by_the_plan(rt: HostRuntime) {
    let instance = held_instance(&rt, rt.alloc());
    let mut dispatcher = held_dispatcher(&rt, rt.alloc(), &instance);
    goes_by_the_plan(&rt, &mut dispatcher);
    has_left(&rt, &dispatcher);
}
