// Logs over the worked instance: who answers them, how they are read and written, and what comes of them.

use crate::fakes::{FakeReader, FakeWriter, Limits, Lines};
use crate::same::is_same;
use crate::worked::{held_dispatcher, held_fronts, held_instance, left_at_two, left_of};
use hsp_dispatch::*;
use hsp_instance::Instance;
use hsp_log::LogFault;
use std::alloc::Global;
use std::process::Abort;

// Who answers a log by the worked plan.
#[derive(Clone, Copy)]
pub(crate) enum Answerers {
    Dispatcher,
    TwoFronts,
}

// A log, how it is read and written, and what comes of it: the sums or the fault, the lines, and what is left at four
// places of the plan.
#[derive(Clone, Copy)]
pub(crate) struct Case {
    pub(crate) by: Answerers,
    pub(crate) log: &'static [u8],
    pub(crate) read: Limits,
    pub(crate) written: Limits,
    pub(crate) may_flush: bool,
    pub(crate) ends: Result<FrontSums, LogFault>,
    pub(crate) lines: &'static [u8],
    pub(crate) left: [u64; 4],
}

// No answers.
pub(crate) const NONE: FrontSums = FrontSums {
    assigned: 0,
    spent: 0,
    unknown: 0,
    no_front: 0,
};

// The sums of a dispatcher, which no query asks for another front.
fn of_one(sums: LogSums) -> FrontSums {
    FrontSums {
        assigned: sums.assigned,
        spent: sums.spent,
        unknown: sums.unknown,
        no_front: 0,
    }
}

// Runs a case by a dispatcher, and then looks at what it has left.
fn run_by_one(
    rt: &impl Abort,
    alloc: Global,
    instance: &Instance,
    case: Case,
    writer: &mut FakeWriter,
) -> Result<FrontSums, LogFault> {
    let reader = FakeReader::within(case.log, case.read);
    let mut dispatcher = held_dispatcher(rt, alloc, instance);
    let ends = run_log(alloc, reader, writer, &mut dispatcher);
    if ends != Err(LogFault::OutOfMemory) {
        is_same(rt, left_of(&dispatcher), case.left);
    }
    match ends {
        Ok(sums) => Ok(of_one(sums)),
        Err(fault) => Err(fault),
    }
}

// The same by two fronts.
fn run_by_two(
    rt: &impl Abort,
    alloc: Global,
    instance: &Instance,
    case: Case,
    writer: &mut FakeWriter,
) -> Result<FrontSums, LogFault> {
    let reader = FakeReader::within(case.log, case.read);
    let mut fronts = held_fronts(rt, alloc, instance, 2);
    let ends = run_fronts(alloc, reader, writer, &mut fronts);
    if ends != Err(LogFault::OutOfMemory) {
        is_same(rt, left_at_two(&fronts), case.left);
    }
    ends
}

// Runs a case by the worked plan.
fn run(
    rt: &impl Abort,
    alloc: Global,
    instance: &Instance,
    case: Case,
) -> Result<FrontSums, LogFault> {
    let mut writer = FakeWriter::within(rt, alloc, case.written);
    writer.may_flush = case.may_flush;
    let ends = match case.by {
        Answerers::Dispatcher => run_by_one(rt, alloc, instance, case, &mut writer),
        Answerers::TwoFronts => run_by_two(rt, alloc, instance, case, &mut writer),
    };
    if ends != Err(LogFault::OutOfMemory) {
        is_same(rt, writer.taken.as_slice(), case.lines);
        is_same(rt, writer.is_flushed, case.ends.is_ok());
    }
    ends
}

// The case comes out. Where a growth is refused, the second run finds memory.
fn comes(rt: &impl Abort, alloc: Global, case: Case) {
    let instance = held_instance(rt, alloc);
    let ends = match run(rt, alloc, &instance, case) {
        Err(LogFault::OutOfMemory) => run(rt, alloc, &instance, case),
        ends => ends,
    };
    is_same(rt, ends, case.ends);
}

// So does each of these.
pub(crate) fn all_come(rt: &impl Abort, alloc: Global, cases: &[Case]) {
    for case in cases {
        comes(rt, alloc, *case);
    }
}

// How a log fails that is cut: what its lines leave behind 10 octets, and what its rows leave behind the second of
// them, up to so many octets of the log.
#[derive(Clone, Copy)]
pub(crate) struct Cuts {
    pub(crate) after_line: [u64; 4],
    pub(crate) good: usize,
    pub(crate) two_lines: &'static [u8],
    pub(crate) after_rows: [u64; 4],
    pub(crate) at_first: [u64; 4],
}

// Failing reads and writes of the worked log are reported.
pub(crate) fn all_fail(rt: &impl Abort, alloc: Global, worked: Case, cuts: Cuts) {
    let cut_line = Case {
        written: Limits {
            piece: usize::MAX,
            good: 10,
        },
        ends: Err(LogFault::WriteFailed),
        lines: b"assigned E",
        left: cuts.after_line,
        ..worked
    };
    let unflushed = Case {
        may_flush: false,
        ends: Err(LogFault::WriteFailed),
        ..worked
    };
    // The reader fails behind the second row.
    let cut_log = Case {
        read: Limits {
            piece: 1,
            good: cuts.good,
        },
        ends: Err(LogFault::ReadFailed),
        lines: cuts.two_lines,
        left: cuts.after_rows,
        ..worked
    };
    let no_log = Case {
        read: Limits { piece: 1, good: 0 },
        ends: Err(LogFault::ReadFailed),
        lines: b"",
        left: cuts.at_first,
        ..worked
    };
    all_come(rt, alloc, &[cut_line, unflushed, cut_log, no_log]);
}

// Lines that are all `unknown`.
pub(crate) fn unknown_lines() -> Lines {
    Lines {
        wanted: b"unknown\n",
        many: 0,
        others: 0,
    }
}

// A log of one row more than there may be was refused behind the others.
pub(crate) fn was_too_long(rt: &impl Abort, ran: Option<(LogFault, Lines)>) {
    let (fault, lines) = ran.expect(rt, "a log that is too long");
    is_same(rt, fault, LogFault::LogTooLong);
    is_same(rt, lines.many, 10_000_000);
    is_same(rt, lines.others, 0);
}
