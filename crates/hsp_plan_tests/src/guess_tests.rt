// A plan of 9,000 rows that keep arcs by a guess. From each region the 4,500 handles ask for 18,003 queries.

ghost use Rattle.hsp_price_plan.specs.Planning.{AreOfSome};

use crate::filling::{Filled, held_numbered};
use crate::same::is_same;
use crate::service::hold;
use hsp_price_plan::{PlanFault, Progress, keep_guessed, plan_rows};
use std::alloc::Global;

// A takes 10,000, and the servers of B take 50,000 each.
const FULL: &[u8] = b"site,server_id,capacity\nA,7,10000\nB,1,50000\nB,2,50000\n";

// How many rows the last level had, and how often rows kept more arcs since.
#[derive(Clone, Copy, Drop)]
struct Watched {
    rows: u64,
    rounds: u64,
}

impl Progress for Watched {
    fn rows_read(&mut self, _rows: u64) {}

    fn level(&mut self, rows: u64) {
        self.rows = rows;
        self.rounds = 0;
    }

    fn left(&mut self, arcs: u64) {
        if arcs > 0 {
            self.rounds = self.rounds.saturating_add(1);
        }
    }
}

// What a guess and the rounds after it show.
fn watched_once(alloc: Global, filled: &mut Filled) -> Result<Watched, PlanFault>
    requires { AreOfSome filled.old.numbers filled.old.rows.rows }
    ensures { AreOfSome filled.new.numbers filled.new.rows.rows }
{
    let mut watched = Watched { rows: 0, rounds: 0 };
    keep_guessed(alloc, &filled.numbers, &mut filled.rows, &mut watched)?;
    plan_rows(alloc, &filled.numbers, &mut filled.rows, &mut watched)?;
    Ok(watched)
}

// The last level has all rows. By the prices of the sample each row keeps the arcs that the plan needs, so that no
// round over all rows finds another.
#[test]
fn a_guess_leaves_no_arc_to_the_rounds(rt: HostRuntime) {
    let alloc = rt.alloc();
    let held = hold(&rt, alloc, b"", FULL);
    let mut filled = held_numbered(&rt, alloc, &held, [b"r1", b"r2"]);
    let watched = match watched_once(alloc, &mut filled) {
        Ok(watched) => watched,
        Err(_) => watched_once(alloc, &mut filled).expect(&rt, "there is memory"),
    };
    is_same(&rt, watched.rows, 9_000);
    is_same(&rt, watched.rounds, 0);
}
