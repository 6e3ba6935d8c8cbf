// Runs over logs, by a dispatcher or by fronts: what a run is asked, what it reads and writes, and how it ends.

use crate::run_tests::{BASE, PLAN, Texts, inputs_of};
use crate::same::is_same;
use hsp_dispatch::{FrontSums, LogSums};
use hsp_inputs::Fault;
use hsp_log::LogFault;
use hsp_runs::*;
use std::alloc::{AllocError, Global};
use std::io::{self, Read, Write};
use std::process::Abort;

// Takes an octet a call while there is room, and then none.
#[derive(Drop)]
pub(crate) struct Page {
    pub(crate) taken: Vec<u8>,
    room: usize,
}

impl Write for Page {
    fn write(&mut self, octets: &[u8]) -> io::Result<usize> {
        let count = octets.len().min(self.room).min(1);
        match self.taken.extend_from_slice(&octets[..count]) {
            Ok(()) => {
                self.room -= count;
                Ok(count)
            }
            Err(_) => Err(io::Error::from(io::ErrorKind::OutOfMemory)),
        }
    }

    fn flush(&mut self) -> io::Result<()> {
        Ok(())
    }
}

// A page with room for `room` octets. Where this growth is refused, the second finds memory.
fn page_of(rt: &impl Abort, alloc: Global, room: usize) -> Page {
    let taken = match Vec::with_capacity(alloc, room) {
        Ok(taken) => taken,
        Err(AllocError) => Vec::with_capacity(alloc, room).expect(rt, "there is memory"),
    };
    Page { taken, room }
}

// Gives an octet of a log for each call, and fails once that many were given.
#[derive(Clone, Copy, Drop)]
struct Cut<'a> {
    log: &'a [u8],
    good: usize,
}

impl Read for Cut<'_> {
    fn read(&mut self, buf: &mut [u8]) -> io::Result<usize> {
        if self.good == 0 {
            return Err(io::Error::from(io::ErrorKind::Other));
        }
        let (Some(place), [octet, rest @ ..]) = (buf.first_mut(), self.log) else {
            return Ok(0);
        };
        *place = *octet;
        self.log = rest;
        self.good -= 1;
        Ok(1)
    }
}

// Who answers a log: a dispatcher, or as many fronts as the word says.
#[derive(Clone, Copy)]
pub(crate) enum Answerers<'a> {
    Dispatcher,
    Fronts(&'a [u8]),
}

// A plan of inputs, and who answers by it.
#[derive(Clone, Copy)]
pub(crate) struct Asked<'a> {
    pub(crate) texts: Texts<'a>,
    pub(crate) cert: &'a [u8],
    pub(crate) by: Answerers<'a>,
}

// The plan of the base texts, by these answerers.
pub(crate) fn base_plan<'a>(by: Answerers<'a>) -> Asked<'a> {
    Asked {
        texts: BASE,
        cert: PLAN,
        by,
    }
}

// What a run answers, and the page that it has written on.
#[derive(Drop)]
pub(crate) struct Ended {
    pub(crate) answer: Result<FrontSums, Fault>,
    pub(crate) page: Page,
}

// The sums of a dispatcher, which no query asks for another front.
pub(crate) fn of_one(sums: LogSums) -> FrontSums {
    FrontSums {
        assigned: sums.assigned,
        spent: sums.spent,
        unknown: sums.unknown,
        no_front: 0,
    }
}

fn run_once<R: Read + Drop>(
    rt: &impl Abort,
    alloc: Global,
    asked: Asked<'_>,
    log: R,
    room: usize,
) -> Ended {
    let mut page = page_of(rt, alloc, room);
    let inputs = inputs_of(rt, alloc, asked.texts);
    let answer = match asked.by {
        Answerers::Dispatcher => match dispatch_run(alloc, &inputs, asked.cert, log, &mut page) {
            Ok(sums) => Ok(of_one(sums)),
            Err(fault) => Err(fault),
        },
        Answerers::Fronts(word) => fronts_run(alloc, &inputs, asked.cert, word, log, &mut page),
    };
    Ended { answer, page }
}

// The run over a log. Where a growth is refused, the second call finds memory.
pub(crate) fn run_twice<R: Read + Copy + Drop>(
    rt: &impl Abort,
    alloc: Global,
    asked: Asked<'_>,
    log: R,
    room: usize,
) -> Ended {
    let first = run_once(rt, alloc, asked, log, room);
    match first.answer {
        Err(Fault::OutOfMemory) => run_once(rt, alloc, asked, log, room),
        _ => first,
    }
}

// The run has this answer, and this text stands on the page.
pub(crate) fn has_ended(
    rt: &impl Abort,
    ended: &Ended,
    answer: Result<FrontSums, Fault>,
    text: &[u8],
) {
    is_same(rt, &ended.answer, &answer);
    is_same(rt, ended.page.taken.as_slice(), text);
}

// A log, the lines that answer it, and its rows: up to how many octets of the log no further row is read whole, and how
// many octets the lines of the rows before have.
#[derive(Clone, Copy)]
pub(crate) struct Worked<'a> {
    pub(crate) by: Answerers<'a>,
    pub(crate) log: &'a [u8],
    pub(crate) lines: &'a [u8],
    pub(crate) rows: &'a [(usize, usize)],
}

// The run has stopped at the fault, behind `count` octets of the lines.
fn has_stopped(rt: &impl Abort, ended: &Ended, fault: LogFault, worked: Worked<'_>, count: usize) {
    is_same(rt, &ended.answer, &Err(Fault::Log(fault)));
    let taken = ended.page.taken.as_slice();
    assert!(rt; taken.len() == count);
    assert!(rt; worked.lines.starts_with(taken));
}

// A reader that fails behind each octet from one on, up to another, is reported behind `lines` octets of lines.
fn reads_fail(
    rt: &impl Abort,
    alloc: Global,
    worked: Worked<'_>,
    from: usize,
    row: (usize, usize),
) {
    let (until, lines) = row;
    for good in from..until {
        let log = Cut {
            log: worked.log,
            good,
        };
        let ended = run_twice(rt, alloc, base_plan(worked.by), log, 100);
        has_stopped(rt, &ended, LogFault::ReadFailed, worked, lines);
    }
}

// The log is answered up to each octet that cannot be read.
pub(crate) fn each_read_fails(rt: &impl Abort, alloc: Global, worked: Worked<'_>) {
    let mut from = 0;
    for row in worked.rows {
        reads_fail(rt, alloc, worked, from, *row);
        from = row.0;
    }
}

// The log is answered up to each octet that cannot be written.
pub(crate) fn each_write_fails(rt: &impl Abort, alloc: Global, worked: Worked<'_>) {
    for room in 0..worked.lines.len() {
        let ended = run_twice(rt, alloc, base_plan(worked.by), worked.log, room);
        has_stopped(rt, &ended, LogFault::WriteFailed, worked, room);
    }
}
