use crate::run_tests::{BASE, LACKING, PLAN, SHORTAGE, Texts, inputs_of};
use crate::same::is_same;
use hsp_inputs::Fault;
use hsp_report::ReportKind;
use hsp_runs::*;
use std::alloc::Global;
use std::process::Abort;

// A report of a certificate of the texts. Where a growth is refused, the second call finds memory.
fn reported(
    rt: &impl Abort,
    alloc: Global,
    texts: Texts<'_>,
    cert: &[u8],
    kind: ReportKind,
) -> Result<Vec<u8>, Fault> {
    let inputs = inputs_of(rt, alloc, texts);
    match report_run(alloc, &inputs, cert, kind) {
        Err(Fault::OutOfMemory) => report_run(alloc, &inputs, cert, kind),
        answer => answer,
    }
}

const LOADS: &[u8] = b"place     server       load   capacity         price site\n    \
    0          7          4         10             0 E\n    1          3          6          6             1 E\n    \
    0          1          2          2             0 W\n    1          2          0         10             0 W\n    \
    2          9          0         10             0 W\nbound 23 - 6 = 17\n";

const REGIONS: &[u8] =
    b"    demand             cost region\n         9                9 r1\n         3                8 r2\n\
    total 12 17\n";

const MISSING: &[u8] = b"short 9 - 8 = 1\n row   count region\n   2       9 r2\n\
    place     server   capacity site\n    1          3          6 E\n    0          1          2 W\n";

#[test]
fn reports_are_of_their_kinds(rt: HostRuntime) {
    const CASES: [(Texts<'_>, &[u8], ReportKind, &[u8]); 3] = [
        (BASE, PLAN, ReportKind::Load, LOADS),
        (BASE, PLAN, ReportKind::Region, REGIONS),
        (LACKING, SHORTAGE, ReportKind::Shortage, MISSING),
    ];
    for (texts, cert, kind, wanted) in CASES {
        let report = reported(&rt, rt.alloc(), texts, cert, kind);
        let text = report.expect(&rt, "there is a report");
        is_same(&rt, text.as_slice(), wanted);
    }
}
