// Rows that are held: two of r1, which have an arc to A and one to B, and one of r3, which has an arc to B only.

ghost use Rattle.std.specs.Prelude.{◌<◌, length};
ghost use Rattle.hsp_price_plan.specs.Planning.{AreOfSome};

use crate::filling::{Filled, held_rows, row_of};
use crate::keeping::{keep_least, keep_leaving, keep_near};
use crate::same::is_same;
use crate::service::{ROOMY, hold};
use hsp_instance::Arc;
use hsp_price_plan::{Silent, keep_guessed};
use std::alloc::{AllocError, Global};
use std::process::Abort;

const TO_A: Arc = Arc {
    site: 0,
    server: 0,
    cost: 1,
};

// Where 10/1 and 10/2 go at B, from r1.
const FIRST_AT_B: Arc = Arc {
    site: 1,
    server: 2,
    cost: 10,
};

const SECOND_AT_B: Arc = Arc {
    site: 1,
    server: 1,
    cost: 10,
};

// Where 10/1 goes from r3.
const LAST_AT_B: Arc = Arc {
    site: 1,
    server: 2,
    cost: 1,
};

// The three rows, none of whose arcs is kept.
fn three_rows(rt: &impl Abort, alloc: Global) -> Filled
    ensures { AreOfSome result.numbers result.rows.rows }
{
    let held = hold(rt, alloc, b"", ROOMY);
    let rows = [
        row_of(b"r1", b"10/1", 3),
        row_of(b"r1", b"10/2", 4),
        row_of(b"r3", b"10/1", 5),
    ];
    held_rows(rt, alloc, &held, &rows)
}

// The kept arcs of a row.
fn kept_of(alloc: Global, filled: &Filled, row: usize) -> Result<Vec<Arc>, AllocError>
    requires { row < length filled.now.rows.rows }
{
    // It is written over.
    let mut kept = Vec::from_slice(alloc, &[TO_A, TO_A, TO_A])?;
    filled.rows.fill_kept(row, &mut kept)?;
    Ok(kept)
}

// All arcs of a row.
fn arcs_of(alloc: Global, filled: &Filled, row: usize) -> Result<Vec<Arc>, AllocError>
    requires { row < length filled.now.rows.rows }
{
    // It is written over.
    let mut arcs = Vec::from_slice(alloc, &[TO_A, TO_A, TO_A])?;
    filled.rows.fill_arcs(row, &mut arcs)?;
    Ok(arcs)
}

// A row has these arcs.
fn has(rt: &impl Abort, alloc: Global, filled: &Filled, row: usize, wanted: &[Arc]) {
    assert!(rt; row < filled.rows.len());
    let arcs = match arcs_of(alloc, filled, row) {
        Ok(arcs) => arcs,
        Err(AllocError) => arcs_of(alloc, filled, row).expect(rt, "there is memory"),
    };
    is_same(rt, arcs.as_slice(), wanted);
}

// A row keeps these arcs.
fn keeps(rt: &impl Abort, alloc: Global, filled: &Filled, row: usize, wanted: &[Arc]) {
    assert!(rt; row < filled.rows.len());
    let kept = match kept_of(alloc, filled, row) {
        Ok(kept) => kept,
        Err(AllocError) => kept_of(alloc, filled, row).expect(rt, "there is memory"),
    };
    is_same(rt, kept.as_slice(), wanted);
}

// The three rows keep these arcs.
fn all_keep(rt: &impl Abort, alloc: Global, filled: &Filled, wanted: [&[Arc]; 3]) {
    let [first, second, last] = wanted;
    keeps(rt, alloc, filled, 0, first);
    keeps(rt, alloc, filled, 1, second);
    keeps(rt, alloc, filled, 2, last);
}

// The number of a row's region, its name and the row's count are these.
fn is_row(rt: &impl Abort, filled: &Filled, row: usize, region: usize, wanted: (&[u8], u64)) {
    assert!(rt; row < filled.rows.len());
    let number = filled.rows.region_of(row);
    is_same(rt, number, region);
    is_same(rt, filled.rows.region_name(number), wanted.0);
    is_same(rt, filled.rows.count(row), wanted.1);
}

#[test]
fn rows_have_their_regions_and_counts(rt: HostRuntime) {
    let alloc = rt.alloc();
    let rows = three_rows(&rt, alloc);
    is_same(&rt, rows.rows.len(), 3);
    is_row(&rt, &rows, 0, 0, (b"r1", 3));
    is_row(&rt, &rows, 1, 0, (b"r1", 4));
    is_row(&rt, &rows, 2, 1, (b"r3", 5));
    all_keep(&rt, alloc, &rows, [&[], &[], &[]]);
}

#[test]
fn rows_have_their_arcs_whichever_are_kept(rt: HostRuntime) {
    let alloc = rt.alloc();
    let mut rows = three_rows(&rt, alloc);
    keep_least(&rt, &mut rows, &[0, 0, 0]);
    has(&rt, alloc, &rows, 0, &[TO_A, FIRST_AT_B]);
    has(&rt, alloc, &rows, 1, &[TO_A, SECOND_AT_B]);
    has(&rt, alloc, &rows, 2, &[LAST_AT_B]);
}

#[test]
fn few_rows_keep_all_arcs_by_a_guess(rt: HostRuntime) {
    const BOTH: [&[Arc]; 3] = [&[TO_A, FIRST_AT_B], &[TO_A, SECOND_AT_B], &[LAST_AT_B]];
    let alloc = rt.alloc();
    let mut rows = three_rows(&rt, alloc);
    if keep_guessed(alloc, &rows.numbers, &mut rows.rows, &mut Silent).is_err() {
        let again = keep_guessed(alloc, &rows.numbers, &mut rows.rows, &mut Silent);
        assert!(rt; again.is_ok(), "there is memory");
    }
    all_keep(&rt, alloc, &rows, BOTH);
}

// At the price 9 a query from r1 pays 10 at both.
#[test]
fn least_arcs_are_kept_beside_those_that_were(rt: HostRuntime) {
    const BOTH: [&[Arc]; 3] = [&[TO_A, FIRST_AT_B], &[TO_A, SECOND_AT_B], &[LAST_AT_B]];
    let alloc = rt.alloc();
    let mut rows = three_rows(&rt, alloc);
    is_same(&rt, keep_least(&rt, &mut rows, &[0, 0, 0]), 3);
    all_keep(&rt, alloc, &rows, [&[TO_A], &[TO_A], &[LAST_AT_B]]);
    is_same(&rt, keep_least(&rt, &mut rows, &[8, 0, 0]), 0);
    is_same(&rt, keep_least(&rt, &mut rows, &[9, 0, 0]), 2);
    all_keep(&rt, alloc, &rows, BOTH);
}

// B costs 9 more. At the price 1 of the server 1 it costs 10 more there.
#[test]
fn arcs_within_a_window_are_kept(rt: HostRuntime) {
    const NEAR: [&[Arc]; 3] = [&[TO_A, FIRST_AT_B], &[TO_A], &[LAST_AT_B]];
    let alloc = rt.alloc();
    let mut rows = three_rows(&rt, alloc);
    keep_near(&rt, &mut rows, &[0, 0, 0], 8);
    all_keep(&rt, alloc, &rows, [&[TO_A], &[TO_A], &[LAST_AT_B]]);
    keep_near(&rt, &mut rows, &[0, 1, 0], 9);
    all_keep(&rt, alloc, &rows, NEAR);
}

// Rows that keep nothing yet keep what leads out of the server 0. Then only the second row keeps nothing that leads out
// of the server 1.
#[test]
fn arcs_that_lead_out_of_a_set_are_kept(rt: HostRuntime) {
    const AWAY: [&[Arc]; 3] = [&[FIRST_AT_B], &[SECOND_AT_B], &[LAST_AT_B]];
    const MORE: [&[Arc]; 3] = [&[FIRST_AT_B], &[TO_A, SECOND_AT_B], &[LAST_AT_B]];
    let alloc = rt.alloc();
    let mut rows = three_rows(&rt, alloc);
    is_same(&rt, keep_leaving(&rt, &mut rows, &[true, false, false]), 3);
    all_keep(&rt, alloc, &rows, AWAY);
    is_same(&rt, keep_leaving(&rt, &mut rows, &[true, false, false]), 0);
    is_same(&rt, keep_leaving(&rt, &mut rows, &[false, true, false]), 1);
    all_keep(&rt, alloc, &rows, MORE);
}
