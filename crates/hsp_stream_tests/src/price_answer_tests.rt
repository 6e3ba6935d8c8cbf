// The run that answers the rows of a log by a certificate by prices, from the octets of its files to what it sends.
//
// By the worked service 10/1 may go to the servers 1 and 4, 10/2 to 0 and 3, and 10/3 to 1 and 2. The servers 0 and 1
// of E take 10 and 6, and 2, 3 and 4 of W take 2, 10 and 10.

use crate::fakes::{Full, Rows};
use crate::price_tests::inputs_of;
use crate::same::is_same;
use hsp_inputs::StreamFault;
use hsp_log::RowFault;
use hsp_price_answers::{FrontChoice, PriceSums, price_answer_run, price_sums_line};
use hsp_talk::Joined;
use std::alloc::{AllocError, Global};
use std::process::Abort;

// The server 1 has the price 1. Of the queries from r2 for 10/3 one goes there, and two go to the server 2.
const PLAN: &[u8] =
    b"HSPLAN PRICES 1\nPLAN\ncost 17\nserver 0 0\nserver 1 1\nserver 2 0\nserver 3 0\nserver 4 0\n\
    class r2 1 1 2 2\nEND\n";

// No words: the only front.
fn only() -> FrontChoice {
    FrontChoice {
        fronts: None,
        front: None,
    }
}

// How the run ends, and what it sends.
type Ended = (Result<PriceSums, StreamFault>, Vec<u8>);

fn answer_once(alloc: Global, log: Rows<'_>) -> Ended {
    let mut sent = Vec::new(alloc);
    let Ok(inputs) = inputs_of(alloc) else {
        return (Err(StreamFault::OutOfMemory), sent);
    };
    let choice = only();
    let mut peer = Joined {
        reader: log,
        writer: &mut sent,
    };
    let ended = price_answer_run(alloc, &inputs, PLAN, &choice, &mut peer);
    (ended, sent)
}

// The same, once more where memory ran out: a writer without memory fails.
fn answer_of(alloc: Global, log: Rows<'_>) -> Ended {
    let (ended, sent) = answer_once(alloc, log);
    match ended {
        Err(StreamFault::OutOfMemory) | Err(StreamFault::Log(RowFault::WriteFailed)) => {
            answer_once(alloc, log)
        }
        _ => (ended, sent),
    }
}

fn sums_of(sums: [u64; 5]) -> PriceSums {
    let [assigned, diverted, full, unknown, refused] = sums;
    PriceSums {
        assigned,
        diverted,
        full,
        unknown,
        refused,
    }
}

// The front answers so, with the sums of assigned, diverted, full, unknown and refused.
fn answers(rt: &impl Abort, alloc: Global, log: &[u8], wanted: (&[u8], [u64; 5])) {
    let (ended, sent) = answer_of(alloc, Rows::only(log));
    is_same(rt, sent.as_slice(), wanted.0);
    is_same(rt, ended, Ok(sums_of(wanted.1)));
}

// The bodies ask for 10/3, for 10/3 with digits in upper case, and for 10. The others are none: digits that are no
// octets or odd in number, and a body that is cut.
#[test]
fn bodies_are_answered_by_prices(rt: HostRuntime) {
    let log: &[u8] =
        b"\n\nregion,body\nr2,0000000431302f330000000000000000\nr2,0000000431302F330000000000000000\n\
        r2,0000000231300000000000000000\nr2,zz\nr2,000\nr2,00000004\n";
    let sent: &[u8] =
        b"assigned E 1 3\nassigned W 0 1\nrefused BadHandle NoSlash\nrefused BadBody\nrefused BadBody\n\
        refused BadBody\n";
    answers(&rt, rt.alloc(), log, (sent, [2, 0, 0, 0, 4]));
}

// How the run ends where nothing can be written.
fn ended_unwritten(alloc: Global) -> Result<PriceSums, StreamFault> {
    let inputs = inputs_of(alloc)?;
    let choice = only();
    let log: &[u8] = b"region,handle\nr2,10/3\n";
    let mut peer = Joined {
        reader: log,
        writer: &mut Full,
    };
    price_answer_run(alloc, &inputs, PLAN, &choice, &mut peer)
}

#[test]
fn answers_by_prices_stop_where_a_write_fails(rt: HostRuntime) {
    let ended = match ended_unwritten(rt.alloc()) {
        Err(StreamFault::OutOfMemory) => ended_unwritten(rt.alloc()),
        ended => ended,
    };
    is_same(&rt, ended, Err(StreamFault::Log(RowFault::WriteFailed)));
}

// So are those before a failed read.
#[test]
fn many_rows_are_answered_by_prices(rt: HostRuntime) {
    let log = Rows {
        head: b"region,handle\n",
        row: b"r9,10/3\n",
        times: 70_000,
        end: b"",
        fails: false,
    };
    let failing = Rows { fails: true, ..log };
    let all = Ok(sums_of([0, 0, 0, 70_000, 0]));
    let failed = Err(StreamFault::Log(RowFault::ReadFailed));
    for (log, wanted) in [(log, all), (failing, failed)] {
        let (ended, sent) = answer_of(rt.alloc(), log);
        is_same(&rt, sent.len(), 560_000);
        is_same(&rt, ended, wanted);
    }
}

// Adds a row of so many octets: a beginning, and the letter e.
fn push_row(text: &mut Vec<u8>, begins: &[u8], octets: usize) -> Result<(), AllocError> {
    text.extend_from_slice(begins)?;
    for _more in begins.len()..octets {
        text.push(b'e')?;
    }
    text.extend_from_slice(b"\n")
}

// Two rows with handles of 4,096 and 4,097 octets, two of as many octets as a row may have, and one of one more.
fn longest_rows(alloc: Global) -> Result<Vec<u8>, AllocError> {
    let mut log = Vec::from_slice(alloc, b"region,handle\n")?;
    push_row(&mut log, b"r1,10/", 4_099)?;
    push_row(&mut log, b"r1,10/", 4_100)?;
    push_row(&mut log, b"r1,10/", 1_048_576)?;
    push_row(&mut log, b"\"r1\",10/", 1_048_576)?;
    push_row(&mut log, b"r1,10/", 1_048_577)?;
    Ok(log)
}

// A row with the body of a request for a handle of 4,096 octets.
fn longest_body(alloc: Global) -> Result<Vec<u8>, AllocError> {
    let mut log = Vec::from_slice(alloc, b"region,body\nr1,0000100031302f")?;
    for _letter in 0..4_093 {
        log.extend_from_slice(b"65")?;
    }
    log.extend_from_slice(b"0000000000000000\n")?;
    Ok(log)
}

// The local name of 4,093 letters is at place 1 of two servers, and at place 2 of three, as 1 is.
#[test]
fn longest_rows_are_answered_by_prices(rt: HostRuntime) {
    let log = match longest_rows(rt.alloc()) {
        Ok(log) => log,
        Err(AllocError) => longest_rows(rt.alloc()).expect(&rt, "there is memory"),
    };
    let body = match longest_body(rt.alloc()) {
        Ok(log) => log,
        Err(AllocError) => longest_body(rt.alloc()).expect(&rt, "there is memory"),
    };
    let one: (&[u8], [u64; 5]) = (b"assigned E 1 3\n", [1, 0, 0, 0, 0]);
    answers(&rt, rt.alloc(), &body, one);
    answers(
        &rt,
        rt.alloc(),
        &log,
        (
            b"assigned E 1 3\nrefused BadHandle TooLong\nrefused BadHandle TooLong\nrefused BadHandle TooLong\n\
            refused TooLong\n",
            [1, 0, 0, 0, 4],
        ),
    );
}

// The line of sums, once more where memory ran out.
fn line_of(rt: &impl Abort, alloc: Global, sums: &PriceSums) -> Vec<u8> {
    match price_sums_line(alloc, sums) {
        Ok(line) => line,
        Err(AllocError) => price_sums_line(alloc, sums).expect(rt, "there is memory"),
    }
}

#[test]
fn sums_by_prices_are_one_line(rt: HostRuntime) {
    let line = line_of(&rt, rt.alloc(), &sums_of([1, 2, 3, 4, 5]));
    let wanted: &[u8] = b"assigned 1 diverted 2 full 3 unknown 4 refused 5\n";
    is_same(&rt, line.as_slice(), wanted);
}
