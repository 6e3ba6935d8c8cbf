use crate::fakes::{ALL, Lines, ONE_BY_ONE, Rows};
use crate::log_cases::*;
use crate::worked::{best_fronts, instance};
use hsp_dispatch::*;
use hsp_instance::Instance;
use hsp_log::LogFault;
use std::alloc::Global;
use std::process::Abort;

const LOG: &[u8] =
    b"front,region,handle\n1,r1,10/1\n0,r1,10/1\n1,r1,10/1\n1,r1,10/1\n1,r2,10/3\n2,r1,10/1\n0,r9,10/1\n";

const LINES: &[u8] =
    b"assigned E 1 3\nassigned E 1 3\nassigned E 1 3\nspent\nassigned W 0 1\nnofront\nunknown\n";

// What fronts 0 and 1 have at first for row 0 at E, and then for row 2 at W.
const SHARES: [u64; 4] = [3, 2, 1, 1];

// The worked log, read and written whole.
fn worked() -> Case {
    Case {
        by: Answerers::TwoFronts,
        log: LOG,
        read: ALL,
        written: ALL,
        may_flush: true,
        ends: Ok(FrontSums {
            assigned: 4,
            spent: 1,
            unknown: 1,
            no_front: 1,
        }),
        lines: LINES,
        left: [2, 0, 1, 0],
    }
}

// What a log that is read and written whole comes to.
fn plain(
    log: &'static [u8],
    ends: Result<FrontSums, LogFault>,
    lines: &'static [u8],
    left: [u64; 4],
) -> Case {
    Case {
        log,
        ends,
        lines,
        left,
        ..worked()
    }
}

#[test]
fn the_worked_log_is_answered_by_fronts(rt: HostRuntime) {
    let cases = [
        worked(),
        Case {
            read: ONE_BY_ONE,
            written: ONE_BY_ONE,
            ..worked()
        },
        plain(b"front,region,handle\n", Ok(NONE), b"", SHARES),
        plain(
            b"front,region,handle\r\n\"0\",r1,\"10/1\"\r\n",
            Ok(FrontSums {
                assigned: 1,
                ..NONE
            }),
            b"assigned E 1 3\n",
            [2, 2, 1, 1],
        ),
    ];
    all_come(&rt, rt.alloc(), &cases);
}

#[test]
fn failing_reads_and_writes_are_reported_at_fronts(rt: HostRuntime) {
    let cuts = Cuts {
        after_line: [3, 1, 1, 1],
        good: 42,
        two_lines: b"assigned E 1 3\nassigned E 1 3\n",
        after_rows: [2, 1, 1, 1],
        at_first: SHARES,
    };
    all_fail(&rt, rt.alloc(), worked(), cuts);
}

// Runs the log of one row more than there may be. None where a growth is refused before its first row.
fn run_longest<'a>(alloc: Global, fronts: &mut Fronts<'a>) -> Option<(LogFault, Lines)> {
    let rows = Rows {
        head: b"front,region,handle\n",
        row: b"0,a,b/\n",
        times: 10_000_001,
    };
    let mut lines = unknown_lines();
    match run_fronts(alloc, rows, &mut lines, fronts) {
        Err(LogFault::OutOfMemory) if lines.many == 0 => None,
        Err(fault) => Some((fault, lines)),
        Ok(_) => None,
    }
}

// A log of one row more than there may be is refused behind the others.
fn is_too_long(rt: &impl Abort, alloc: Global, fronts: &mut Fronts<'_>) {
    let ran = match run_longest(alloc, fronts) {
        None => run_longest(alloc, fronts),
        ran => ran,
    };
    was_too_long(rt, ran);
}

// The same by two fronts of the worked plan of an instance.
fn is_too_long_for(rt: &impl Abort, alloc: Global, instance: &Instance) {
    match best_fronts(alloc, instance, 2) {
        Some(mut fronts) => is_too_long(rt, alloc, &mut fronts),
        None => assert!(rt; best_fronts(alloc, instance, 2).is_some()),
    }
}

// Where a growth is refused while instance, certificate or fronts are made, they are made once more, and the long log
// isn't run: a run takes seconds, and that of a test whose growths are all given is insisted on.
#[test]
fn a_log_has_ten_million_events_at_most(rt: HostRuntime) {
    match instance(rt.alloc()) {
        Some(instance) => is_too_long_for(&rt, rt.alloc(), &instance),
        None => assert!(rt; instance(rt.alloc()).is_some()),
    }
}
