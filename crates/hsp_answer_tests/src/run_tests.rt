use crate::fakes::{ALL, Lines, ONE_BY_ONE, Rows};
use crate::log_cases::*;
use crate::worked::{best_dispatcher, instance};
use hsp_dispatch::*;
use hsp_instance::Instance;
use hsp_log::LogFault;
use std::alloc::Global;
use std::process::Abort;

const LOG: &[u8] = b"region,handle\nr2,10/3\nr2,10/3\nr2,10/3\nr2,10/3\nr9,10/3\n";

const LINES: &[u8] = b"assigned E 1 3\nassigned W 0 1\nassigned W 0 1\nspent\nunknown\n";

fn sums(assigned: u64, spent: u64, unknown: u64) -> Result<FrontSums, LogFault> {
    Ok(FrontSums {
        assigned,
        spent,
        unknown,
        ..NONE
    })
}

// The worked log, read and written whole.
fn worked() -> Case {
    Case {
        by: Answerers::Dispatcher,
        log: LOG,
        read: ALL,
        written: ALL,
        may_flush: true,
        ends: sums(3, 1, 1),
        lines: LINES,
        left: [0, 0, 5, 4],
    }
}

// What the plan has at first for row 2 at E and W, row 0 at E and row 1 at E.
const WHOLE_PLAN: [u64; 4] = [1, 2, 5, 4];

// What a log that is read and written whole comes to.
fn plain(
    log: &'static [u8],
    ends: Result<FrontSums, LogFault>,
    lines: &'static [u8],
    left: [u64; 4],
) -> Case {
    Case {
        log,
        ends,
        lines,
        left,
        ..worked()
    }
}

// A log whose one row asks for the last row of the demand, and is answered by its first site.
fn answered(log: &'static [u8]) -> Case {
    plain(log, sums(1, 0, 0), b"assigned E 1 3\n", [0, 2, 5, 4])
}

#[test]
fn the_worked_log_is_answered(rt: HostRuntime) {
    let cases = [
        worked(),
        Case {
            read: ONE_BY_ONE,
            written: ONE_BY_ONE,
            ..worked()
        },
        plain(b"region,handle\n", sums(0, 0, 0), b"", WHOLE_PLAN),
        answered(b"region,handle\r\nr2,\"10/3\"\r\n"),
        plain(
            b"region,handle\n,10/3\n",
            sums(0, 0, 1),
            b"unknown\n",
            WHOLE_PLAN,
        ),
        plain(
            b"region,handle\nr1,10/1\nr1,10/2\n",
            sums(2, 0, 0),
            b"assigned E 1 3\nassigned E 0 7\n",
            [1, 2, 4, 3],
        ),
    ];
    all_come(&rt, rt.alloc(), &cases);
}

#[test]
fn failing_reads_and_writes_are_reported(rt: HostRuntime) {
    let cuts = Cuts {
        after_line: [0, 2, 5, 4],
        good: 32,
        two_lines: b"assigned E 1 3\nassigned W 0 1\n",
        after_rows: [0, 1, 5, 4],
        at_first: WHOLE_PLAN,
    };
    all_fail(&rt, rt.alloc(), worked(), cuts);
}

// Runs the log of one row more than there may be. None where a growth is refused before its first row.
fn run_longest<'a>(alloc: Global, dispatcher: &mut Dispatcher<'a>) -> Option<(LogFault, Lines)> {
    let rows = Rows {
        head: b"region,handle\n",
        row: b"a,b/\n",
        times: 10_000_001,
    };
    let mut lines = unknown_lines();
    match run_log(alloc, rows, &mut lines, dispatcher) {
        Err(LogFault::OutOfMemory) if lines.many == 0 => None,
        Err(fault) => Some((fault, lines)),
        Ok(_) => None,
    }
}

// A log of one row more than there may be is refused behind the others.
fn is_too_long(rt: &impl Abort, alloc: Global, dispatcher: &mut Dispatcher<'_>) {
    let ran = match run_longest(alloc, dispatcher) {
        None => run_longest(alloc, dispatcher),
        ran => ran,
    };
    was_too_long(rt, ran);
}

// The same by the worked plan of an instance.
fn is_too_long_for(rt: &impl Abort, alloc: Global, instance: &Instance) {
    match best_dispatcher(alloc, instance) {
        Some(mut dispatcher) => is_too_long(rt, alloc, &mut dispatcher),
        None => assert!(rt; best_dispatcher(alloc, instance).is_some()),
    }
}

// Where a growth is refused while instance, certificate or dispatcher are made, they are made once more, and the long
// log isn't run: a run takes seconds, and that of a test whose growths are all given is insisted on.
#[test]
fn a_log_has_ten_million_rows_at_most(rt: HostRuntime) {
    match instance(rt.alloc()) {
        Some(instance) => is_too_long_for(&rt, rt.alloc(), &instance),
        None => assert!(rt; instance(rt.alloc()).is_some()),
    }
}
