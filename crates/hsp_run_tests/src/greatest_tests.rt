// Lines of faults whose numbers are the greatest that their types hold.

use crate::line_tests::is_reported;
use hsp_inputs::Fault;
use hsp_names::HandleFault;
use hsp_tables::TableFault;
use std::alloc::Global;
use std::process::Abort;

// These are the lines of faults in the input.
fn all_have_lines(rt: &impl Abort, alloc: Global, cases: &[(Fault, &[u8])]) {
    for (fault, wanted) in cases {
        is_reported(rt, alloc, fault, wanted, 1);
    }
}

#[test]
fn greatest_numbers_of_tables_have_their_lines(rt: HostRuntime) {
    const CASES: [(Fault, &[u8]); 5] = [
        (
            Fault::Demand(TableFault::Fields { row: u32::MAX }),
            b"hsplan: demand: Fields row 4294967295\n",
        ),
        (
            Fault::Costs(TableFault::BadName { row: u32::MAX }),
            b"hsplan: costs: BadName row 4294967295\n",
        ),
        (
            Fault::Demand(TableFault::BadHandle {
                row: u32::MAX,
                fault: HandleFault::EmptySegment,
            }),
            b"hsplan: demand: BadHandle row 4294967295 EmptySegment\n",
        ),
        (
            Fault::Capacity(TableFault::BadNumber { row: u32::MAX }),
            b"hsplan: capacity: BadNumber row 4294967295\n",
        ),
        (
            Fault::Capacity(TableFault::RowTwice { row: u32::MAX }),
            b"hsplan: capacity: RowTwice row 4294967295\n",
        ),
    ];
    all_have_lines(&rt, rt.alloc(), &CASES);
}
