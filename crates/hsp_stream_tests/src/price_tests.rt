// The check of a certificate by prices, from the octets of its files and its log to the verdict and its line, and its
// reports.
//
// By the worked service 10/1 may go to the servers 1 and 4, 10/2 to 0 and 3, and 10/3 to 1 and 2.

use crate::fakes::Rows;
use crate::same::is_same;
use crate::worked::owned;
use hsp_cert::CertFault;
use hsp_inputs::{Fault, Inputs, StreamFault};
use hsp_log::RowFault;
use hsp_price_report::PriceReportKind;
use hsp_price_runs::{
    PriceReport, price_check_run, price_report_run, price_verdict_line, price_verdict_status,
};
use hsp_prices::{PriceReason, PriceVerdict};
use hsp_test_support::service::{CAPACITY, COSTS, DEMAND, SETTINGS};
use std::alloc::{AllocError, Global};
use std::io::Read;
use std::process::Abort;

// The server 1 is full at the price 1. Of the three queries from r2 one stays there, and two go to the server 2.
const PLAN: &[u8] =
    b"HSPLAN PRICES 1\nPLAN\ncost 17\nserver 0 0\nserver 1 1\nserver 2 0\nserver 3 0\nserver 4 0\n\
    class r2 1 1 2 2\nEND\n";

// The same with another class.
const TOO_MUCH: &[u8] =
    b"HSPLAN PRICES 1\nPLAN\ncost 16\nserver 0 0\nserver 1 1\nserver 2 0\nserver 3 0\n\
    server 4 0\nclass r2 1 2 2 1\nEND\n";

// The same with another cost.
const TOO_CHEAP: &[u8] =
    b"HSPLAN PRICES 1\nPLAN\ncost 16\nserver 0 0\nserver 1 1\nserver 2 0\nserver 3 0\n\
    server 4 0\nclass r2 1 1 2 2\nEND\n";

/// The inputs of the service, without a row of demand.
pub(crate) fn inputs_of(alloc: Global) -> Result<Inputs, AllocError> {
    Ok(Inputs {
        settings: owned(alloc, SETTINGS)?,
        values: None,
        demand: None,
        costs: owned(alloc, COSTS)?,
        capacity: owned(alloc, CAPACITY)?,
    })
}

// The same, once more where memory ran out.
pub(crate) fn held_inputs(rt: &impl Abort, alloc: Global) -> Inputs {
    match inputs_of(alloc) {
        Ok(inputs) => inputs,
        Err(AllocError) => inputs_of(alloc).expect(rt, "there is memory"),
    }
}

pub(crate) type Judged = Result<PriceVerdict, StreamFault>;

// What the run gives, once more where memory ran out.
pub(crate) fn judged<R: Read + Copy + Drop>(
    rt: &impl Abort,
    alloc: Global,
    prices: &[u8],
    log: R,
) -> Judged {
    let inputs = held_inputs(rt, alloc);
    match price_check_run(alloc, &inputs, prices, log) {
        Err(StreamFault::OutOfMemory) => price_check_run(alloc, &inputs, prices, log),
        ended => ended,
    }
}

// The run over the log has this end.
fn ends(rt: &impl Abort, alloc: Global, prices: &[u8], log: &[u8], wanted: Judged) {
    is_same(rt, judged(rt, alloc, prices, Rows::only(log)), wanted);
}

#[test]
fn a_plan_by_prices_is_judged_by_the_rows_of_a_log(rt: HostRuntime) {
    let alloc = rt.alloc();
    ends(&rt, alloc, PLAN, DEMAND, Ok(PriceVerdict::Yes));
    let load = PriceVerdict::No(PriceReason::Load);
    ends(&rt, alloc, TOO_MUCH, DEMAND, Ok(load));
    let cost = PriceVerdict::No(PriceReason::Cost);
    ends(&rt, alloc, TOO_CHEAP, DEMAND, Ok(cost));
    let none = PriceVerdict::No(PriceReason::NotLeast);
    ends(&rt, alloc, PLAN, b"region,handle\n", Ok(none));
}

#[test]
fn a_fault_of_the_log_comes_before_the_verdict(rt: HostRuntime) {
    let alloc = rt.alloc();
    let text = Fault::Cert(CertFault::Ended);
    ends(
        &rt,
        alloc,
        b"HSPLAN PRICES 1\n",
        DEMAND,
        Err(StreamFault::Input(text)),
    );
    let header = StreamFault::Log(RowFault::Header);
    ends(&rt, alloc, PLAN, b"", Err(header));
    let fields = StreamFault::Log(RowFault::Fields { row: 1 });
    ends(
        &rt,
        alloc,
        PLAN,
        b"region,handle\nr1,10/1\nr1\n",
        Err(fields),
    );
    let failing = Rows {
        head: DEMAND,
        row: b"r1,10/1,1\n",
        times: 3,
        end: b"",
        fails: true,
    };
    let failed = Err(StreamFault::Log(RowFault::ReadFailed));
    is_same(&rt, judged(&rt, alloc, PLAN, failing), failed);
}

// The line of a verdict, once more where memory ran out.
fn has_line(rt: &impl Abort, alloc: Global, verdict: PriceVerdict, wanted: &[u8]) {
    let line = match price_verdict_line(alloc, verdict) {
        Ok(line) => line,
        Err(AllocError) => price_verdict_line(alloc, verdict).expect(rt, "there is memory"),
    };
    is_same(rt, line.as_slice(), wanted);
}

#[test]
fn a_verdict_has_a_line_and_a_status(rt: HostRuntime) {
    let alloc = rt.alloc();
    has_line(&rt, alloc, PriceVerdict::Yes, b"yes\n");
    let no = PriceVerdict::No(PriceReason::NotShort);
    has_line(&rt, alloc, no, b"no 11 NotShort\n");
    is_same(&rt, price_verdict_status(PriceVerdict::Yes), 0);
    is_same(&rt, price_verdict_status(no), 3);
}

type Reported = Result<PriceReport, StreamFault>;

// What the run of a report gives, once more where memory ran out.
fn reported<R: Read + Copy + Drop>(
    rt: &impl Abort,
    alloc: Global,
    prices: &[u8],
    kind: PriceReportKind,
    log: R,
) -> Reported {
    let inputs = held_inputs(rt, alloc);
    match price_report_run(alloc, &inputs, prices, kind, log) {
        Err(StreamFault::OutOfMemory) => price_report_run(alloc, &inputs, prices, kind, log),
        ended => ended,
    }
}

// The report of the plan is this text.
fn shows(rt: &impl Abort, alloc: Global, kind: PriceReportKind, log: &[u8], wanted: &[u8]) {
    match reported(rt, alloc, PLAN, kind, Rows::only(log)) {
        Ok(PriceReport::Shown(text)) => is_same(rt, text.as_slice(), wanted),
        ended => is_same(rt, ended, Err(StreamFault::BadFront)),
    }
}

// What hsplan prints of a plan with these prices: 10/1 and 10/2 go to E, and of 10/3 one query goes to E and two to W.
const LOADS: &[u8] = b"place     server       load   capacity         price site\n    \
    0          7          4         10             0 E\n    1          3          6          6             1 E\n    \
    0          1          2          2             0 W\n    1          2          0         10             0 W\n    \
    2          9          0         10             0 W\nbound 23 - 6 = 17\n";

const REGIONS: &[u8] =
    b"    demand             cost region\n         9                9 r1\n         3                8 r2\n\
    total 12 17\n";

// The same of a log that names r2 first.
const OTHER_REGIONS: &[u8] =
    b"    demand             cost region\n         3                8 r2\n         9                9 r1\n\
    total 12 17\n";

#[test]
fn reports_show_loads_and_regions_by_the_rows_of_a_log(rt: HostRuntime) {
    let alloc = rt.alloc();
    shows(&rt, alloc, PriceReportKind::Load, DEMAND, LOADS);
    shows(&rt, alloc, PriceReportKind::Region, DEMAND, REGIONS);
    let log = b"region,handle,count\nr2,10/3,1\nr1,10/2,0\nr1,10/2,4\nr1,10/1,5\nr2,10/3,2\n";
    shows(&rt, alloc, PriceReportKind::Load, log, LOADS);
    shows(&rt, alloc, PriceReportKind::Region, log, OTHER_REGIONS);
}

// Each of these once more where memory ran out.
