use crate::held::copied;
use crate::same::is_same;
use hsp_cert::CertFault;
use hsp_check::Reason;
use hsp_inputs::{Fault, fault_line, fault_status};
use hsp_instance::BuildFault;
use hsp_log::LogFault;
use hsp_names::HandleFault;
use hsp_record::RecordFault;
use hsp_runs::*;
use hsp_tables::TableFault;
use hsp_test_support::service::SETTINGS;
use std::alloc::{AllocError, Global};
use std::io::{self, Read};
use std::process::Abort;

// A reader whose every read fails.
#[derive(Clone, Copy, Drop)]
struct Broken;

impl Read for Broken {
    fn read(&mut self, _buf: &mut [u8]) -> io::Result<usize> {
        Err(io::Error::from(io::ErrorKind::Other))
    }
}

// A reader of that many octets of one kind.
#[derive(Clone, Copy, Drop)]
struct Run {
    octet: u8,
    left: usize,
}

impl Read for Run {
    fn read(&mut self, buf: &mut [u8]) -> io::Result<usize> {
        let count = buf.len().min(self.left);
        for to in buf[..count].iter_mut() {
            *to = self.octet;
        }
        self.left -= count;
        Ok(count)
    }
}

// What is wanted of an answer: its text, or its fault.
type Wanted<'a> = Result<&'a [u8], &'a Fault>;

// The answer is the wanted one.
fn answers(rt: &impl Abort, answer: &Result<Vec<u8>, Fault>, wanted: Wanted<'_>) {
    let reported = match answer {
        Ok(text) => Ok(text.as_slice()),
        Err(fault) => Err(fault),
    };
    is_same(rt, reported, wanted);
}

// The answer of `locate`, from the texts of its inputs.
#[derive(Clone, Copy)]
enum Asked<'a> {
    Place(&'a [u8], &'a [u8]),
    Sites(&'a [u8]),
}

fn inputs_of(rt: &impl Abort, alloc: Global, asked: Asked<'_>) -> Locate {
    match asked {
        Asked::Place(option, servers) => Locate::Place {
            option: copied(rt, alloc, option),
            servers: copied(rt, alloc, servers),
        },
        Asked::Sites(settings) => Locate::Sites {
            settings: copied(rt, alloc, settings),
            values: None,
        },
    }
}

// The answer of `locate`. Where a growth is refused, the second call finds memory, here and below.
fn located(alloc: Global, inputs: &Locate, handle: &[u8]) -> Result<Vec<u8>, Fault> {
    match locate_run(alloc, inputs, handle) {
        Err(Fault::OutOfMemory) => locate_run(alloc, inputs, handle),
        answer => answer,
    }
}

// The answer of `locate` is the wanted one.
fn locates(rt: &impl Abort, alloc: Global, asked: Asked<'_>, handle: &[u8], wanted: Wanted<'_>) {
    let inputs = inputs_of(rt, alloc, asked);
    answers(rt, &located(alloc, &inputs, handle), wanted);
}

#[test]
fn places_are_printed(rt: HostRuntime) {
    const CASES: [(&[u8], &[u8], &[u8], &[u8]); 4] = [
        (b"local", b"2", b"10/3", b"1\n"),
        (b"local", b"3", b"10/3", b"0\n"),
        (b"na", b"3", b"10/1", b"2\n"),
        (b"handle", b"1", b"10/1", b"0\n"),
    ];
    for (option, servers, handle, wanted) in CASES {
        locates(
            &rt,
            rt.alloc(),
            Asked::Place(option, servers),
            handle,
            Ok(wanted),
        );
    }
}

#[test]
fn servers_at_sites_are_printed(rt: HostRuntime) {
    const CASES: [(&[u8], &[u8]); 3] = [
        (b"10/1", b"E 1 3\nW 2 9\n"),
        (b"10/2", b"E 0 7\nW 1 2\n"),
        (b"10/3", b"E 1 3\nW 0 1\n"),
    ];
    for (handle, wanted) in CASES {
        locates(&rt, rt.alloc(), Asked::Sites(SETTINGS), handle, Ok(wanted));
    }
    locates(
        &rt,
        rt.alloc(),
        Asked::Sites(b""),
        b"10/3",
        Ok(b"".as_slice()),
    );
}

// The fault has this line and this status.
pub(crate) fn is_reported(
    rt: &impl Abort,
    alloc: Global,
    fault: &Fault,
    wanted: &[u8],
    status: u8,
) {
    is_same(rt, fault_status(fault), status);
    let line = match fault_line(alloc, fault) {
        Ok(line) => line,
        Err(AllocError) => fault_line(alloc, fault).expect(rt, "there is memory"),
    };
    is_same(rt, line.as_slice(), wanted);
}

#[test]
fn faults_have_their_lines_and_statuses(rt: HostRuntime) {
    const CASES: [(Fault, &[u8], u8); 11] = [
        (Fault::BadOption, b"hsplan: BadOption\n", 1),
        (Fault::BadServers, b"hsplan: BadServers\n", 1),
        (
            Fault::Handle(HandleFault::NoSlash),
            b"hsplan: handle: NoSlash\n",
            1,
        ),
        (Fault::BadIndex, b"hsplan: BadIndex\n", 1),
        (
            Fault::Site(RecordFault::Trailing { at: 48 }),
            b"hsplan: site: Trailing at 48\n",
            1,
        ),
        (
            Fault::Site(RecordFault::TooManyServers),
            b"hsplan: site: TooManyServers\n",
            1,
        ),
        (
            Fault::Values(RecordFault::Truncated { at: 34 }),
            b"hsplan: values: Truncated at 34\n",
            1,
        ),
        (
            Fault::Values(RecordFault::IndexTwice { index: 1 }),
            b"hsplan: values: IndexTwice index 1\n",
            1,
        ),
        (Fault::NoValue, b"hsplan: NoValue\n", 1),
        (Fault::NotSiteValue, b"hsplan: NotSiteValue\n", 1),
        (Fault::OutOfMemory, b"hsplan: OutOfMemory\n", 4),
    ];
    for (fault, wanted, status) in CASES {
        is_reported(&rt, rt.alloc(), &fault, wanted, status);
    }
}

// The fault is displayed so.
fn is_displayed(rt: &impl Abort, alloc: Global, fault: &Fault, wanted: &str) {
    let text = match fault.to_string(alloc) {
        Ok(text) => text,
        Err(AllocError) => fault.to_string(alloc).expect(rt, "there is memory"),
    };
    is_same(rt, text.as_str(), wanted);
}

#[test]
fn faults_of_words_and_values_are_displayed(rt: HostRuntime) {
    const CASES: [(Fault, &str); 10] = [
        (Fault::BadOption, "bad option"),
        (Fault::BadServers, "bad servers"),
        (Fault::BadIndex, "bad index"),
        (Fault::BadFronts, "bad fronts"),
        (Fault::NoValue, "no value"),
        (Fault::NotSiteValue, "not a site value"),
        (Fault::WrongKind, "wrong kind"),
        (Fault::OutOfMemory, "out of memory"),
        (Fault::Refused(Reason::Cost), "check: Cost"),
        (Fault::Log(LogFault::Header), "log: Header"),
    ];
    for (fault, wanted) in CASES {
        is_displayed(&rt, rt.alloc(), &fault, wanted);
    }
}

#[test]
fn faults_of_inputs_are_displayed(rt: HostRuntime) {
    const CASES: [(Fault, &str); 9] = [
        (Fault::Handle(HandleFault::NoSlash), "handle: NoSlash"),
        (
            Fault::Site(RecordFault::Trailing { at: 48 }),
            "site: Trailing { at: 48 }",
        ),
        (
            Fault::Values(RecordFault::TooManyServers),
            "values: TooManyServers",
        ),
        (Fault::Settings(TableFault::NotToml), "settings: NotToml"),
        (Fault::Demand(TableFault::Header), "demand: Header"),
        (Fault::Costs(TableFault::Header), "costs: Header"),
        (Fault::Capacity(TableFault::Header), "capacity: Header"),
        (
            Fault::Build(BuildFault::TooManyServers),
            "build: TooManyServers",
        ),
        (Fault::Cert(CertFault::Ended), "certificate: Ended"),
    ];
    for (fault, wanted) in CASES {
        is_displayed(&rt, rt.alloc(), &fault, wanted);
    }
}

// The first line that a reader gives.
fn line_of<R: Read + Copy + Drop>(rt: &impl Abort, alloc: Global, reader: R) -> Option<Vec<u8>> {
    match first_line(alloc, reader) {
        Ok(found) => found,
        Err(AllocError) => first_line(alloc, reader).expect(rt, "there is memory"),
    }
}

#[test]
fn first_lines_are_read(rt: HostRuntime) {
    const CASES: [(&[u8], &[u8]); 4] = [
        (b"a  b\nc", b"a  b"),
        (b"c", b"c"),
        (b"", b""),
        (b"\n\n", b""),
    ];
    for (text, wanted) in CASES {
        let line = line_of(&rt, rt.alloc(), text).expect(&rt, "there is a line");
        is_same(&rt, line.as_slice(), wanted);
    }
}

#[test]
fn a_failing_reader_gives_nothing(rt: HostRuntime) {
    assert!(rt; matches!(first_line(rt.alloc(), Broken), Ok(None)));
    assert!(rt; matches!(read_file(rt.alloc(), Broken), Ok(None)));
}

fn run_of(octet: u8, left: usize) -> Run {
    Run { octet, left }
}

// Whether a line of that many octets is read.
fn is_line(rt: &impl Abort, alloc: Global, left: usize) -> bool {
    let found = line_of(rt, alloc, run_of(b'x', left));
    found.is_some()
}

#[test]
fn first_lines_are_limited(rt: HostRuntime) {
    assert!(rt; !is_line(&rt, rt.alloc(), 65_537));
    assert!(rt; is_line(&rt, rt.alloc(), 65_536));
}

// The whole file that a reader gives.
fn file_of<R: Read + Copy + Drop>(rt: &impl Abort, alloc: Global, reader: R) -> Option<Vec<u8>> {
    match read_file(alloc, reader) {
        Ok(found) => found,
        Err(AllocError) => read_file(alloc, reader).expect(rt, "there is memory"),
    }
}

#[test]
fn whole_files_are_read(rt: HostRuntime) {
    let text: &[u8] = b"a\nb";
    let file = file_of(&rt, rt.alloc(), text).expect(&rt, "there is a file");
    is_same(&rt, file.as_slice(), text);
}

// Whether a file of that many octets is read.
fn is_file(rt: &impl Abort, alloc: Global, left: usize) -> bool {
    let found = file_of(rt, alloc, run_of(0, left));
    found.is_some()
}

#[test]
fn whole_files_are_limited(rt: HostRuntime) {
    assert!(rt; !is_file(&rt, rt.alloc(), 67_108_865));
    assert!(rt; is_file(&rt, rt.alloc(), 67_108_864));
}

// A site of one server: 48 octets.
const ONE_SERVER: [u8; 48] = [
    0, 1, 2, 0, 0, 1, 0, 1, 0, 0, 0, 0, 0, 0, 0, 0, 0, 0, 0, 1, 0, 0, 0, 7, 0, 0, 0, 0, 0, 0, 0, 0,
    0, 0, 0, 0, 0, 0, 0, 1, 0, 0, 0, 0, 0, 0, 0, 0,
];

const ONE_SERVER_TEXT: &[u8] =
    b"version 1\nprotocol 2 0\nserial 1\nmask 0\noption 1\nfilter 0\nattributes 0\nservers 1\n\
    server 0 7 00000000000000000000000000000001 0 0\n";

// The answer of `site` is the wanted one.
fn prints(rt: &impl Abort, alloc: Global, octets: &[u8], index: Option<&[u8]>, wanted: Wanted<'_>) {
    let answer = match site_run(alloc, octets, index) {
        Err(Fault::OutOfMemory) => site_run(alloc, octets, index),
        answer => answer,
    };
    answers(rt, &answer, wanted);
}

#[test]
fn records_are_printed(rt: HostRuntime) {
    prints(&rt, rt.alloc(), &ONE_SERVER, None, Ok(ONE_SERVER_TEXT));
    let mut longer = [0u8; 49];
    longer[..48].copy_from_slice(&ONE_SERVER);
    let trailing = Fault::Site(RecordFault::Trailing { at: 48 });
    prints(&rt, rt.alloc(), &longer, None, Err(&trailing));
}
