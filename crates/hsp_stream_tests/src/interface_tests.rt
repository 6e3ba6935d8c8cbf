// The run that lists service interfaces, from the octets of its files to what it prints.

use crate::same::is_same;
use hsp_inputs::Fault;
use hsp_stream::interfaces_run;
use hsp_test_support::service::SETTINGS;
use std::alloc::Global;
use std::process::Abort;

/// A site of two servers: the first has two interfaces, the second none.
const TWO: &[u8] = b"[[site]]\nname = \"X\"\n\
    record = \"0001020b0001000000000000000000000000000200000009000000000000000000000000c0000201000000000000000203\
    0000000a51020200001f4000000004000000000000000000000000c00002020000000000000000\"\n";

const HEADER: &[u8] = b"site,place,server_id,address,type,protocol,port\n";

// The run, once more where memory ran out.
fn interfaces_of(alloc: Global, settings: &[u8]) -> Result<Vec<u8>, Fault> {
    match interfaces_run(alloc, settings, None) {
        Err(Fault::OutOfMemory) => interfaces_run(alloc, settings, None),
        answer => answer,
    }
}

fn has_table(rt: &impl Abort, alloc: Global, settings: &[u8], wanted: &[u8]) {
    let table = interfaces_of(alloc, settings).expect(rt, "a table");
    is_same(rt, table.as_slice(), wanted);
}

#[test]
fn interfaces_are_listed(rt: HostRuntime) {
    has_table(&rt, rt.alloc(), b"", HEADER);
    has_table(&rt, rt.alloc(), SETTINGS, HEADER);
    has_table(
        &rt,
        rt.alloc(),
        TWO,
        b"site,place,server_id,address,type,protocol,port\n\
          X,0,9,000000000000000000000000c0000201,3,0,2641\n\
          X,0,9,000000000000000000000000c0000201,2,2,8000\n",
    );
}
