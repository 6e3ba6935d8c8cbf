use crate::held::joined;
use crate::log_runs::*;
use crate::same::is_same;
use hsp_dispatch::LogSums;
use hsp_inputs::Fault;
use hsp_log::LogFault;
use hsp_runs::*;
use std::alloc::{AllocError, Global};
use std::process::Abort;

const BY_ONE: Answerers<'static> = Answerers::Dispatcher;

const LOG: &[u8] = b"region,handle\nr2,10/3\nr2,10/3\nr2,10/3\nr2,10/3\nr9,10/3\n";

const LINES: &[u8] = b"assigned E 1 3\nassigned W 0 1\nassigned W 0 1\nspent\nunknown\n";

const SUMS: LogSums = LogSums {
    assigned: 3,
    spent: 1,
    unknown: 1,
};

const NO_SUMS: LogSums = LogSums {
    assigned: 0,
    spent: 0,
    unknown: 0,
};

// Up to how many octets of the log no further row is read whole, and how many octets the lines of the rows before have.
const ROWS: [(usize, usize); 6] = [(22, 0), (30, 15), (38, 30), (46, 45), (54, 51), (55, 59)];

const WORKED: Worked<'static> = Worked {
    by: BY_ONE,
    log: LOG,
    lines: LINES,
    rows: &ROWS,
};

#[test]
fn logs_are_answered(rt: HostRuntime) {
    const ONE: LogSums = LogSums {
        assigned: 1,
        ..NO_SUMS
    };
    const CASES: [(&[u8], LogSums, &[u8]); 3] = [
        (LOG, SUMS, LINES),
        (
            b"region,body\nr2,0000000431302f330000000000000000\n",
            ONE,
            b"assigned E 1 3\n",
        ),
        (b"region,handle\n", NO_SUMS, b""),
    ];
    for (log, sums, text) in CASES {
        let ended = run_twice(&rt, rt.alloc(), base_plan(BY_ONE), log, 100);
        has_ended(&rt, &ended, Ok(of_one(sums)), text);
    }
}

#[test]
fn logs_are_answered_up_to_each_octet_that_cannot_be_read(rt: HostRuntime) {
    each_read_fails(&rt, rt.alloc(), WORKED);
}

#[test]
fn logs_are_answered_up_to_each_octet_that_cannot_be_written(rt: HostRuntime) {
    each_write_fails(&rt, rt.alloc(), WORKED);
}

// A log of 2,000 good rows and a bad one behind them.
fn long_log(rt: &impl Abort, alloc: Global) -> Vec<u8> {
    let rows: [&[u8]; 2_000] = [b"r9,10/3\n"; 2_000];
    let good = joined(rt, alloc, &rows);
    joined(
        rt,
        alloc,
        &[b"region,handle\n", good.as_slice(), b"r1,10\n"],
    )
}

#[test]
fn a_bad_row_behind_many_is_reported(rt: HostRuntime) {
    let log = long_log(&rt, rt.alloc());
    let ended = run_twice(&rt, rt.alloc(), base_plan(BY_ONE), log.as_slice(), 20_000);
    let fault = LogFault::BadHandle { row: 2_000 };
    is_same(&rt, &ended.answer, &Err(Fault::Log(fault)));
    is_same(&rt, ended.page.taken.len(), 16_000);
}

// The sums have this line.
fn has_line(rt: &impl Abort, alloc: Global, sums: &LogSums, wanted: &[u8]) {
    let line = match sums_line(alloc, sums) {
        Ok(line) => line,
        Err(AllocError) => sums_line(alloc, sums).expect(rt, "there is memory"),
    };
    is_same(rt, line.as_slice(), wanted);
}

#[test]
fn sums_have_their_line(rt: HostRuntime) {
    has_line(&rt, rt.alloc(), &SUMS, b"assigned 3 spent 1 unknown 1\n");
    let greatest = LogSums {
        assigned: u64::MAX,
        spent: u64::MAX,
        unknown: u64::MAX,
    };
    has_line(
        &rt,
        rt.alloc(),
        &greatest,
        b"assigned 18446744073709551615 spent 18446744073709551615 unknown 18446744073709551615\n",
    );
}
