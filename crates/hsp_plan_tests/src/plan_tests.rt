// Certificates by prices of rows that are held. What each says is worked by hand. All are the only valid ones.

ghost use Rattle.hsp_price_plan.specs.Planning.{AreOfSome};

use crate::filling::{Asked, Filled, held_rows, row_of};
use crate::judging::{is_valid, says};
use crate::keeping::keep_least;
use crate::same::is_same;
use crate::service::{HOST, Held, NARROW, ROOMY, hold};
use hsp_price_plan::{Progress, Silent, plan_rows};
use hsp_price_text::PriceCertificate;
use std::alloc::Global;
use std::process::Abort;

// How many arcs the rounds added.
#[derive(Clone, Copy, Drop)]
struct Added {
    arcs: u64,
}

impl Progress for Added {
    fn rows_read(&mut self, _rows: u64) {}

    fn level(&mut self, _rows: u64) {}

    fn left(&mut self, arcs: u64) {
        self.arcs = self.arcs.saturating_add(arcs);
    }
}

// The certificate of the rows, once more where memory ran out.
fn planned(rt: &impl Abort, alloc: Global, filled: &mut Filled) -> PriceCertificate
    requires { AreOfSome filled.old.numbers filled.old.rows.rows }
{
    match plan_rows(alloc, &filled.numbers, &mut filled.rows, &mut Silent) {
        Ok(certificate) => certificate,
        Err(_) => plan_rows(alloc, &filled.numbers, &mut filled.rows, &mut Silent).expect(
            rt,
            "there is one",
        ),
    }
}

// Rows of the service, none of whose arcs is kept at first, have this certificate.
fn gets(rt: &impl Abort, alloc: Global, held: &Held, rows: &[Asked<'_>], wanted: &[u8]) {
    let mut none_kept = held_rows(rt, alloc, held, rows);
    let certificate = planned(rt, alloc, &mut none_kept);
    says(rt, alloc, &certificate, wanted);
    is_valid(rt, alloc, held, &certificate, rows);
}

// So have rows that keep the cheapest arcs at first.
fn gets_by_cheapest(
    rt: &impl Abort,
    alloc: Global,
    held: &Held,
    rows: &[Asked<'_>],
    wanted: &[u8],
) {
    let mut some_kept = held_rows(rt, alloc, held, rows);
    keep_least(rt, &mut some_kept, &[0, 0, 0]);
    let certificate = planned(rt, alloc, &mut some_kept);
    says(rt, alloc, &certificate, wanted);
    is_valid(rt, alloc, held, &certificate, rows);
}

// From r1 both handles ask for 7 together and have the servers 0 and 2. The server 0 takes 5 of them at 1 each, and 2
// go to the server 2 at 10 each. So a query pays 10 at both, and the server 0 has the price 9. From r2 6 go to the
// server 1 at 1 each: 5 + 20 + 6 = 31.
fn tied() -> [Asked<'static>; 3] {
    [
        row_of(b"r1", b"10/1", 3),
        row_of(b"r2", b"10/2", 6),
        row_of(b"r1", b"10/3", 4),
    ]
}

// The first round adds both arcs of each row, as none is kept.
#[test]
fn a_round_shows_how_many_arcs_it_adds(rt: HostRuntime) {
    let alloc = rt.alloc();
    let held = hold(&rt, alloc, b"", NARROW);
    let mut filled = held_rows(&rt, alloc, &held, &tied());
    let mut added = Added { arcs: 0 };
    if plan_rows(alloc, &filled.numbers, &mut filled.rows, &mut added).is_err() {
        let again = plan_rows(alloc, &filled.numbers, &mut filled.rows, &mut added);
        is_same(&rt, again.is_ok(), true);
    }
    is_same(&rt, added.arcs, 6);
}

// The host of the servers 1 and 2 takes 5. From r3 one query can only go there, to the server 1. From r2 4 of 7 go to
// the server 2 at 1 each, and 3 to the server 0 at 10 each: 1 + 4 + 30 = 35. A query from r2 pays 10 at both, so the
// host has the price 9.
#[test]
fn a_full_host_has_a_price(rt: HostRuntime) {
    let alloc = rt.alloc();
    let held = hold(&rt, alloc, HOST, ROOMY);
    let rows = [
        row_of(b"r2", b"10/1", 4),
        row_of(b"r3", b"10/4", 1),
        row_of(b"r2", b"10/3", 3),
    ];
    let wanted = b"HSPLAN PRICES 1\nPLAN\ncost 35\nserver 0 0\nserver 1 0\nserver 2 0\nhost 0 9\n\
        class r2 0 3 2 4\nEND\n";
    gets(&rt, alloc, &held, &rows, wanted);
    gets_by_cheapest(&rt, alloc, &held, &rows, wanted);
}

// The servers 0 and 2 take 5 and 10. Of 10/1 16 queries can go nowhere else, and of 10/2 one can go to the server 1.
#[test]
fn rows_that_ask_for_too_much_have_a_short_set(rt: HostRuntime) {
    let alloc = rt.alloc();
    let held = hold(&rt, alloc, b"", NARROW);
    let rows = [row_of(b"r1", b"10/1", 16), row_of(b"r1", b"10/2", 1)];
    let wanted = b"HSPLAN PRICES 1\nSHORT\nserver 0\nserver 2\ndemand 16\ncapacity 15\nEND\n";
    gets(&rt, alloc, &held, &rows, wanted);
    gets_by_cheapest(&rt, alloc, &held, &rows, wanted);
}
