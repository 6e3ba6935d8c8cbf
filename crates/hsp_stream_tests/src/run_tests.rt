// The run that states places, from the octets of its files and logs to what it prints.

use crate::fakes::Rows;
use crate::same::is_same;
use crate::worked::{BY_INDEX, VALUES};
use hsp_inputs::StreamFault;
use hsp_log::RowFault;
use hsp_names::HandleFault;
use hsp_stream::places_run;
use hsp_talk::Joined;
use hsp_test_support::service::SETTINGS;
use std::alloc::Global;
use std::process::Abort;

// Settings, and the values that they may refer to.
#[derive(Clone, Copy)]
struct Sites<'a> {
    settings: &'a [u8],
    values: Option<&'a [u8]>,
}

/// The sites of the service.
const SITES: Sites<'static> = Sites {
    settings: SETTINGS,
    values: None,
};

// How the run ends, and what it sends.
type Ended = (Result<(), StreamFault>, Vec<u8>);

fn places_once(alloc: Global, sites: Sites<'_>, log: Rows<'_>) -> Ended {
    let mut sent = Vec::new(alloc);
    let mut peer = Joined {
        reader: log,
        writer: &mut sent,
    };
    let ended = places_run(alloc, sites.settings, sites.values, &mut peer);
    (ended, sent)
}

// The same, once more where memory ran out: a writer without memory fails.
fn places_of(alloc: Global, sites: Sites<'_>, log: Rows<'_>) -> Ended {
    let (ended, sent) = places_once(alloc, sites, log);
    match ended {
        Err(StreamFault::OutOfMemory) | Err(StreamFault::Log(RowFault::WriteFailed)) => {
            places_once(alloc, sites, log)
        }
        _ => (ended, sent),
    }
}

fn has_places(
    rt: &impl Abort,
    alloc: Global,
    sites: Sites<'_>,
    log: Rows<'_>,
    wanted: (Result<(), StreamFault>, &[u8]),
) {
    let (ended, sent) = places_of(alloc, sites, log);
    is_same(rt, sent.as_slice(), wanted.1);
    is_same(rt, ended, wanted.0);
}

#[test]
fn handles_have_places(rt: HostRuntime) {
    const HEAD: &[u8] = b"handle,site,place,server_id\n";
    const BY_VALUES: Sites<'static> = Sites {
        settings: BY_INDEX,
        values: Some(VALUES),
    };
    const CASES: [(Sites<'_>, &[u8], Result<(), StreamFault>, &[u8]); 5] = [
        (SITES, b"handle\n", Ok(()), HEAD),
        (
            BY_VALUES,
            b"handle\n10/1\n",
            Ok(()),
            b"handle,site,place,server_id\n10/1,X,0,7\n",
        ),
        (
            SITES,
            b"region,handle\nr1,10/1\n\nr9,10/2",
            Ok(()),
            b"handle,site,place,server_id\n10/1,E,1,3\n10/1,W,2,9\n10/2,E,0,7\n10/2,W,1,2\n",
        ),
        (
            SITES,
            b"handle\n10/3\n10\n10/1\n",
            Err(StreamFault::Log(RowFault::BadHandle {
                row: 1,
                fault: HandleFault::NoSlash,
            })),
            b"handle,site,place,server_id\n10/3,E,1,3\n10/3,W,0,1\n",
        ),
        (
            SITES,
            b"\"handle\"\n\"10/a,b\"\n",
            Ok(()),
            b"handle,site,place,server_id\n\"10/a,b\",E,0,7\n\"10/a,b\",W,2,9\n",
        ),
    ];
    for (sites, log, ended, sent) in CASES {
        has_places(&rt, rt.alloc(), sites, Rows::only(log), (ended, sent));
    }
}

// The second row has three octets more than a row may have. Of the other log a header and a row are read.
#[test]
fn places_stop_at_a_fault_of_the_log(rt: HostRuntime) {
    let long = Rows {
        head: b"handle\n10/3\n10/",
        row: b"eeeeeeee",
        times: 131_072,
        end: b"\n10/1\n",
        fails: false,
    };
    let failing = Rows {
        times: 1,
        end: b"",
        fails: true,
        ..long
    };
    let fault = RowFault::BadHandle {
        row: 1,
        fault: HandleFault::TooLong,
    };
    let sent: &[u8] = b"handle,site,place,server_id\n10/3,E,1,3\n10/3,W,0,1\n";
    for (log, fault) in [(long, fault), (failing, RowFault::ReadFailed)] {
        let ended = Err(StreamFault::Log(fault));
        has_places(&rt, rt.alloc(), SITES, log, (ended, sent));
    }
}

// The last row is not a handle. The header has 28 octets, and each row before the last is answered by 22.
#[test]
fn many_handles_have_places(rt: HostRuntime) {
    let log = Rows {
        head: b"handle\n",
        row: b"10/3\n",
        times: 70_000,
        end: b"10\n",
        fails: false,
    };
    let fault = RowFault::BadHandle {
        row: 70_000,
        fault: HandleFault::NoSlash,
    };
    let (ended, sent) = places_of(rt.alloc(), SITES, log);
    is_same(&rt, sent.len(), 1_540_028);
    is_same(&rt, ended, Err(StreamFault::Log(fault)));
}
