// Groups of rows: rows of one region that keep arcs to the same servers.

ghost use Rattle.hsp_price_plan.specs.Planning.{AreOfSome};

use crate::filling::{Filled, held_rows, row_of};
use crate::keeping::keep_least;
use crate::same::is_same;
use crate::service::{ROOMY, hold};
use hsp_instance::Arc;
use hsp_price_plan::{RowGroup, groups_of};
use std::alloc::{AllocError, Global};
use std::process::Abort;

fn arc(site: u32, server: u32, cost: u64) -> Arc {
    Arc { site, server, cost }
}

// A group has this region, these arcs and this demand.
fn is_group(rt: &impl Abort, group: Option<&RowGroup>, region: &[u8], arcs: &[Arc], demand: u64) {
    let group = group.expect(rt, "there is one");
    is_same(rt, group.region.as_slice(), region);
    is_same(rt, group.arcs.as_slice(), arcs);
    is_same(rt, group.demand, demand);
}

// The groups of rows, once more where memory ran out.
fn groups_in(rt: &impl Abort, alloc: Global, filled: &Filled) -> Vec<RowGroup>
    requires { AreOfSome filled.now.numbers filled.now.rows.rows }
{
    match groups_of(alloc, &filled.rows) {
        Ok(groups) => groups,
        Err(AllocError) => groups_of(alloc, &filled.rows).expect(rt, "there is memory"),
    }
}

// Rows of r1 for 10/1, 10/2 and 10/3, and one of r3 for 10/1.
fn four_rows(rt: &impl Abort, alloc: Global) -> Filled
    ensures { AreOfSome result.numbers result.rows.rows }
{
    let held = hold(rt, alloc, b"", ROOMY);
    let rows = [
        row_of(b"r1", b"10/1", 3),
        row_of(b"r1", b"10/2", 2),
        row_of(b"r3", b"10/1", 5),
        row_of(b"r1", b"10/3", 4),
    ];
    held_rows(rt, alloc, &held, &rows)
}

// At the price 9 of the server 0 a row of r1 keeps both its arcs: 10/1 and 10/3 to the servers 0 and 2, and 10/2 to 0
// and 1.
#[test]
fn rows_that_keep_arcs_to_the_same_servers_are_one_group(rt: HostRuntime) {
    let alloc = rt.alloc();
    let mut rows = four_rows(&rt, alloc);
    keep_least(&rt, &mut rows, &[9, 0, 0]);
    let groups = groups_in(&rt, alloc, &rows);
    is_same(&rt, groups.len(), 3);
    is_group(&rt, groups.get(0), b"r1", &[arc(0, 0, 1), arc(1, 2, 10)], 7);
    is_group(&rt, groups.get(1), b"r1", &[arc(0, 0, 1), arc(1, 1, 10)], 2);
    is_group(&rt, groups.get(2), b"r3", &[arc(1, 2, 1)], 5);
}
