// The run that lists faulty rows, from the octets of a text to what it prints.

use crate::fakes::{Pieces, Rows};
use crate::same::is_same;
use hsp_stream::{Asked, FaultsStop, faults_run};
use hsp_tables::TableKind;
use hsp_text::push_whole;
use std::alloc::{AllocError, Global};
use std::process::Abort;

// How the run ends, and what it lists.
type Ended = (Result<bool, FaultsStop>, Vec<u8>);

fn faults_once(alloc: Global, asked: Asked, text: Rows<'_>) -> Ended {
    let mut listed = Vec::new(alloc);
    let ended = faults_run(alloc, asked, text, &mut listed);
    (ended, listed)
}

// The same, once more where memory ran out: a writer without memory fails.
fn faults_of(alloc: Global, asked: Asked, text: Rows<'_>) -> Ended {
    let (ended, listed) = faults_once(alloc, asked, text);
    match ended {
        Err(FaultsStop::OutOfMemory) | Err(FaultsStop::WriteFailed) => {
            faults_once(alloc, asked, text)
        }
        _ => (ended, listed),
    }
}

fn has_faults(
    rt: &impl Abort,
    alloc: Global,
    asked: Asked,
    text: Rows<'_>,
    wanted: (Result<bool, FaultsStop>, &[u8]),
) {
    let (ended, listed) = faults_of(alloc, asked, text);
    is_same(rt, listed.as_slice(), wanted.1);
    is_same(rt, ended, wanted.0);
}

#[test]
fn faulty_rows_of_a_table_are_listed(rt: HostRuntime) {
    const CASES: [(TableKind, &[u8], bool, &[u8]); 4] = [
        (
            TableKind::Demand,
            b"region,handle,count\nr1,10/1,5\n",
            false,
            b"row,line,field,octet,fault\n",
        ),
        (
            TableKind::Demand,
            b"region,handle,count\n\"r1\",no,7\nr1,10/1,5\nr1,10/1,6\n",
            true,
            b"row,line,field,octet,fault\n0,2,1,25,demand: BadHandle row 0 NoSlash\n2,4,,40,demand: RowTwice row 2\n",
        ),
        (
            TableKind::Costs,
            b"region,site,cost\nr1,E\n\nr1,E,01\n",
            true,
            b"row,line,field,octet,fault\n0,2,,17,costs: Fields row 0\n1,4,2,28,costs: BadNumber row 1\n",
        ),
        (
            TableKind::Capacity,
            b"region,site,cost\n",
            true,
            b"row,line,field,octet,fault\n,1,,0,capacity: Header\n",
        ),
    ];
    for (table, text, some, listed) in CASES {
        let asked = Asked::Table(table);
        has_faults(&rt, rt.alloc(), asked, Rows::only(text), (Ok(some), listed));
    }
}

// A log of counts whose rows name so many regions.
fn log_of_regions(alloc: Global, regions: u64) -> Result<Vec<u8>, AllocError> {
    let mut text = Vec::from_slice(alloc, b"region,handle,count\n")?;
    for region in 0..regions {
        text.push(b'r')?;
        push_whole(&mut text, region)?;
        text.extend_from_slice(b",10/1,1\n")?;
    }
    Ok(text)
}

// The 4,097th and the 4,098th region are too many, each in a row of its own.
#[test]
fn rows_of_further_regions_are_listed(rt: HostRuntime) {
    let text = match log_of_regions(rt.alloc(), 4098) {
        Ok(text) => text,
        Err(AllocError) => log_of_regions(rt.alloc(), 4098).expect(&rt, "there is memory"),
    };
    let listed: &[u8] =
        b"row,line,field,octet,fault\n4096,4098,0,52158,log: TooManyRegions row 4096\n\
        4097,4099,0,52171,log: TooManyRegions row 4097\n";
    has_faults(
        &rt,
        rt.alloc(),
        Asked::Log,
        Rows::only(text.as_slice()),
        (Ok(true), listed),
    );
}

// A header and a row are read, and then a read fails.
#[test]
fn a_list_stops_where_a_read_fails(rt: HostRuntime) {
    let failing = Rows {
        head: b"region,handle\nr1\n",
        row: b"",
        times: 0,
        end: b"",
        fails: true,
    };
    let listed: &[u8] = b"row,line,field,octet,fault\n0,2,,14,log: Fields row 0\n";
    has_faults(
        &rt,
        rt.alloc(),
        Asked::Log,
        failing,
        (Err(FaultsStop::ReadFailed), listed),
    );
}

// How the list of a log with one faulty row ends, where so many pieces are taken of what is written.
fn ended_after(alloc: Global, pieces: u32) -> Result<bool, FaultsStop> {
    let text = Rows::only(b"region,handle\nr1\n");
    let mut writer = Pieces { left: pieces };
    faults_run(alloc, Asked::Log, text, &mut writer)
}

// The first line is one piece, and that of the row another.
#[test]
fn a_list_stops_where_a_write_fails(rt: HostRuntime) {
    let failed = Err(FaultsStop::WriteFailed);
    for (pieces, wanted) in [(2, Ok(true)), (1, failed), (0, failed)] {
        let ended = match ended_after(rt.alloc(), pieces) {
            Err(FaultsStop::OutOfMemory) => ended_after(rt.alloc(), pieces),
            ended => ended,
        };
        is_same(&rt, ended, wanted);
    }
}
