// The lines of faults, and the statuses.

use crate::same::is_same;
use hsp_inputs::{Fault, StreamFault, stream_fault_line, stream_status};
use hsp_log::RowFault;
use hsp_names::HandleFault;
use hsp_prices::PriceReason;
use std::alloc::{AllocError, Global};
use std::process::Abort;

// The line of a fault. Where memory ran out once, it is there again.
fn line_of(alloc: Global, fault: &StreamFault) -> Result<Vec<u8>, AllocError> {
    match stream_fault_line(alloc, fault) {
        Ok(line) => Ok(line),
        Err(_) => stream_fault_line(alloc, fault),
    }
}

// Each fault has its line and its status.
fn all_have_lines(rt: &impl Abort, alloc: Global, cases: &[(StreamFault, &[u8], u8)]) {
    for (fault, wanted, status) in cases {
        is_same(rt, stream_status(fault), *status);
        match line_of(alloc, fault) {
            Ok(line) => is_same(rt, line.as_slice(), *wanted),
            Err(_) => is_same(rt, true, false),
        }
    }
}

#[test]
fn faults_of_logs_have_their_lines(rt: HostRuntime) {
    const CASES: [(StreamFault, &[u8], u8); 5] = [
        (
            StreamFault::Log(RowFault::ReadFailed),
            b"hsplan-stream: log: ReadFailed\n",
            5,
        ),
        (
            StreamFault::Log(RowFault::WriteFailed),
            b"hsplan-stream: log: WriteFailed\n",
            5,
        ),
        (
            StreamFault::Log(RowFault::Header),
            b"hsplan-stream: log: Header\n",
            1,
        ),
        (
            StreamFault::Log(RowFault::Fields { row: 0 }),
            b"hsplan-stream: log: Fields row 0\n",
            1,
        ),
        (
            StreamFault::Log(RowFault::BadHandle {
                row: 7,
                fault: HandleFault::NoSlash,
            }),
            b"hsplan-stream: log: BadHandle row 7 NoSlash\n",
            1,
        ),
    ];
    all_have_lines(&rt, rt.alloc(), &CASES);
}

// The fault is displayed so.
fn is_displayed(rt: &impl Abort, alloc: Global, fault: &StreamFault, wanted: &str) {
    let text = match fault.to_string(alloc) {
        Ok(text) => text,
        Err(AllocError) => fault.to_string(alloc).expect(rt, "there is memory"),
    };
    is_same(rt, text.as_str(), wanted);
}

#[test]
fn faults_are_displayed(rt: HostRuntime) {
    const CASES: [(StreamFault, &str); 6] = [
        (StreamFault::BadFront, "bad front"),
        (StreamFault::Refused(PriceReason::Load), "check: Load"),
        (StreamFault::Input(Fault::BadFronts), "bad fronts"),
        (
            StreamFault::Log(RowFault::Fields { row: 3 }),
            "log: Fields { row: 3 }",
        ),
        (StreamFault::TooLarge, "plan: too large"),
        (StreamFault::OutOfMemory, "out of memory"),
    ];
    for (fault, wanted) in CASES {
        is_displayed(&rt, rt.alloc(), &fault, wanted);
    }
}
