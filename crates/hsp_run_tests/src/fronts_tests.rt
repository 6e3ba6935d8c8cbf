use crate::log_runs::*;
use hsp_dispatch::FrontSums;
use hsp_runs::*;

const TWO: Answerers<'static> = Answerers::Fronts(b"2");

const LOG: &[u8] =
    b"front,region,handle\n1,r1,10/1\n0,r1,10/1\n1,r1,10/1\n1,r1,10/1\n1,r2,10/3\n2,r1,10/1\n0,r9,10/1\n";

const LINES: &[u8] =
    b"assigned E 1 3\nassigned E 1 3\nassigned E 1 3\nspent\nassigned W 0 1\nnofront\nunknown\n";

const SUMS: FrontSums = FrontSums {
    assigned: 4,
    spent: 1,
    unknown: 1,
    no_front: 1,
};

const NO_SUMS: FrontSums = FrontSums {
    assigned: 0,
    spent: 0,
    unknown: 0,
    no_front: 0,
};

// Up to how many octets of the log no further row is read whole, and how many octets the lines of the rows before have.
const ROWS: [(usize, usize); 8] = [
    (30, 0),
    (40, 15),
    (50, 30),
    (60, 45),
    (70, 51),
    (80, 66),
    (90, 74),
    (91, 82),
];

const WORKED: Worked<'static> = Worked {
    by: TWO,
    log: LOG,
    lines: LINES,
    rows: &ROWS,
};

#[test]
fn fronts_answer_by_their_shares(rt: HostRuntime) {
    const ONLY: FrontSums = FrontSums {
        assigned: 1,
        no_front: 5,
        unknown: 1,
        ..NO_SUMS
    };
    const CASES: [(&[u8], &[u8], FrontSums, &[u8]); 4] = [
        (b"2", LOG, SUMS, LINES),
        (
            b"1",
            LOG,
            ONLY,
            b"nofront\nassigned E 1 3\nnofront\nnofront\nnofront\nnofront\nunknown\n",
        ),
        (
            b"64",
            b"front,region,handle\n4,r1,10/1\n5,r1,10/1\n63,r1,10/1\n64,r1,10/1\n",
            FrontSums {
                assigned: 1,
                spent: 2,
                no_front: 1,
                ..NO_SUMS
            },
            b"assigned E 1 3\nspent\nspent\nnofront\n",
        ),
        (b"2", b"front,region,handle\n", NO_SUMS, b""),
    ];
    for (fronts, log, sums, text) in CASES {
        let asked = base_plan(Answerers::Fronts(fronts));
        let ended = run_twice(&rt, rt.alloc(), asked, log, 100);
        has_ended(&rt, &ended, Ok(sums), text);
    }
}

#[test]
fn events_are_answered_up_to_each_octet_that_cannot_be_read(rt: HostRuntime) {
    each_read_fails(&rt, rt.alloc(), WORKED);
}

#[test]
fn events_are_answered_up_to_each_octet_that_cannot_be_written(rt: HostRuntime) {
    each_write_fails(&rt, rt.alloc(), WORKED);
}
