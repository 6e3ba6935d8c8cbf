// Tests of plans of the rows of a log: the check says yes to each text, and costs and sets are those that were worked
// out by hand.

use crate::fakes::Rows;
use crate::price_tests::{held_inputs, judged};
use crate::same::is_same;
use hsp_inputs::StreamFault;
use hsp_log::RowFault;
use hsp_price_plan::{Progress, Silent};
use hsp_price_runs::{PricesText, price_plan_run};
use hsp_prices::PriceVerdict;
use hsp_test_support::service::DEMAND;
use std::alloc::Global;
use std::io::Read;
use std::process::Abort;

// Counts what is shown of how far a plan is.
#[derive(Drop)]
struct Watched<'a> {
    shown: &'a mut u64,
}

impl Progress for Watched<'_> {
    fn rows_read(&mut self, _rows: u64) {
        *self.shown = self.shown.saturating_add(1);
    }

    fn level(&mut self, _rows: u64) {
        *self.shown = self.shown.saturating_add(1);
    }

    fn left(&mut self, _arcs: u64) {
        *self.shown = self.shown.saturating_add(1);
    }
}

// What the run gives, once more where memory ran out.
fn planned<R: Read + Copy + Drop>(
    rt: &impl Abort,
    alloc: Global,
    log: R,
) -> Result<PricesText, StreamFault> {
    let inputs = held_inputs(rt, alloc);
    match price_plan_run(alloc, &inputs, log, Silent) {
        Err(StreamFault::OutOfMemory) => price_plan_run(alloc, &inputs, log, Silent),
        ended => ended,
    }
}

// The log has a plan whose text begins so, and to which the check says yes.
fn has_plan(rt: &impl Abort, alloc: Global, log: &[u8], head: &[u8]) {
    match planned(rt, alloc, Rows::only(log)) {
        Ok(PricesText::Plan(text)) => {
            is_same(rt, text.starts_with(head), true);
            let verdict = judged(rt, alloc, &text, Rows::only(log));
            is_same(rt, verdict, Ok(PriceVerdict::Yes));
        }
        ended => is_same(rt, ended, Err(StreamFault::TooLarge)),
    }
}

// The log has a shortage of this text.
fn is_short(rt: &impl Abort, alloc: Global, log: &[u8], wanted: &[u8]) {
    match planned(rt, alloc, Rows::only(log)) {
        Ok(PricesText::Shortage(text)) => is_same(rt, text.as_slice(), wanted),
        ended => is_same(rt, ended, Err(StreamFault::TooLarge)),
    }
}

// There is no plan, but this.
fn stops(rt: &impl Abort, alloc: Global, log: &[u8], wanted: StreamFault) {
    is_same(rt, planned(rt, alloc, Rows::only(log)), Err(wanted));
}

#[test]
fn the_rows_of_a_log_are_planned(rt: HostRuntime) {
    let alloc = rt.alloc();
    has_plan(&rt, alloc, DEMAND, b"HSPLAN PRICES 1\nPLAN\ncost 17\n");
    let parts = b"region,handle,count\nr2,10/3,1\nr1,10/2,0\nr1,10/2,4\nr1,10/1,5\nr2,10/3,2\n";
    has_plan(&rt, alloc, parts, b"HSPLAN PRICES 1\nPLAN\ncost 17\n");
}

// Few rows keep all their arcs before the first round, so that no other follows.
#[test]
fn nothing_is_shown_of_few_rows(rt: HostRuntime) {
    let alloc = rt.alloc();
    let inputs = held_inputs(&rt, alloc);
    let mut shown = 0;
    let watched = Watched { shown: &mut shown };
    let is_planned = match price_plan_run(alloc, &inputs, Rows::only(DEMAND), watched) {
        Err(_) => {
            let watched = Watched { shown: &mut shown };
            price_plan_run(alloc, &inputs, Rows::only(DEMAND), watched).is_ok()
        }
        Ok(_) => true,
    };
    is_same(&rt, is_planned, true);
    is_same(&rt, shown, 0);
}

#[test]
fn a_row_that_its_servers_lack_room_for_is_a_shortage(rt: HostRuntime) {
    // 10/3 may go to the server 1, which takes 6, and to the server 2, which takes 2.
    let log = b"region,handle,count\nr1,10/1,5\nr2,10/3,9\n";
    let wanted = b"HSPLAN PRICES 1\nSHORT\nserver 1\nserver 2\ndemand 9\ncapacity 8\nEND\n";
    is_short(&rt, rt.alloc(), log, wanted);
}

#[test]
fn faults_of_the_log_are_the_first(rt: HostRuntime) {
    let alloc = rt.alloc();
    stops(&rt, alloc, b"", StreamFault::Log(RowFault::Header));
    let fields = StreamFault::Log(RowFault::Fields { row: 1 });
    stops(&rt, alloc, b"region,handle\nr1,10/1\nr1\n", fields);
    let name = StreamFault::Log(RowFault::BadName { row: 0 });
    stops(&rt, alloc, b"region,handle\nr 1,10/1\nr1\n", name);
    let failing = Rows {
        head: DEMAND,
        row: b"r1,10/1,1\n",
        times: 3,
        end: b"",
        fails: true,
    };
    let failed = Err(StreamFault::Log(RowFault::ReadFailed));
    is_same(&rt, planned(&rt, alloc, failing), failed);
}
