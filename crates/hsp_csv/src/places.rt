// The records of a text with their places, from any reader.

ghost use Rattle.std.specs.Prelude.{◌≡◌, [], IfOk, IfSome, OnOk, Some};
ghost use Rattle.std.specs.Io.KnownBytes.{Keeps};
ghost use Rattle.csv.specs.Records.{partial_of};
ghost use Rattle.hsp_csv.specs.Places.{TakesPlaced, placed_of};
ghost use Rattle.hsp_csv.specs.Walks.{EndsText, GivesNext, Looks, PassesMark, octets_left, placed_left, rest_left};
ghost use Rattle.hsp_csv.specs.Walks.{shown, walk_of};

use crate::fault::RecordsFault;
use crate::placed::{PlacedRecord, Walk};
use crate::scan::ends_at_end;
use std::alloc::Global;
use std::collections::VecDeque;
use std::io::{BufReader, Bytes, Read};

// The octets of a byte order mark.
const MARK: [u8; 3] = [0xef, 0xbb, 0xbf];

// The octets of a text: some that were looked at, and those behind them.
#[derive(Drop)]
struct Octets<R: Read + Drop> {
    ahead: VecDeque<u8>,
    rest: Bytes<BufReader<R>>,
    ended: bool,
}

impl<R: Read + Drop> Octets<R> {
    // The next octet from behind those that were looked at.
    fn read(&mut self) -> Result<Option<u8>, RecordsFault>
        ensures ahead { self.new.ahead ≡ self.old.ahead }
        ensures gives { IfOk result (λ octet.
            GivesNext (rest_left R.remaining self.old) (rest_left R.remaining self.new) octet) }
    {
        if self.ended {
            return Ok(None);
        }
        match self.rest.next() {
            None => {
                self.ended = true;
                Ok(None)
            }
            Some(Ok(octet)) => Ok(Some(octet)),
            Some(Err(_)) => Err(RecordsFault::ReadFailed),
        }
    }

    // The next octet.
    fn next(&mut self) -> Result<Option<u8>, RecordsFault>
        ensures { IfOk result (λ octet.
            GivesNext (octets_left R.remaining self.old) (octets_left R.remaining self.new) octet) }
    {
        match self.ahead.pop_front() {
            Some(octet) => Ok(Some(octet)),
            None => self.read(),
        }
    }

    // Looks at the next octet behind those that were looked at, if there is one, and returns whether it is the one
    // wanted.
    fn look(&mut self, wanted: u8) -> Result<bool, RecordsFault>
        ensures keeps { OnOk result
            (Keeps (octets_left R.remaining self.old) (octets_left R.remaining self.new)) }
        ensures looks { IfOk result (λ is.
            Looks wanted self.old.ahead.items self.new.ahead.items
            (rest_left R.remaining self.new) is) }
    {
        match self.read()? {
            None => Ok(false),
            Some(octet) => match self.ahead.push_back(octet) {
                Ok(()) => Ok(octet == wanted),
                Err(_) => Err(RecordsFault::OutOfMemory),
            },
        }
    }

    // Passes over a byte order mark at the start of a text, and returns how many octets it has.
    fn pass_mark(&mut self) -> Result<u64, RecordsFault>
        requires { self.old.ahead.items ≡ [] }
        ensures { IfOk result (λ marked. PassesMark (octets_left R.remaining self.old)
            (octets_left R.remaining self.new) marked) }
    {
        if !self.look(MARK[0])? {
            return Ok(0);
        }
        if !self.look(MARK[1])? {
            return Ok(0);
        }
        if !self.look(MARK[2])? {
            return Ok(0);
        }
        self.ahead.clear();
        Ok(3)
    }
}

/// A reader of records with their places.
#[derive(Drop)]
pub struct PlacedReader<R: Read + Drop> {
    octets: Octets<R>,
    walk: Walk,
}

/// A reader that stands before the first record of a text, behind a byte order mark.
///
/// Where the octets of the text are known, the records that it has left are those of the text.
///
/// # Errors
///
/// `ReadFailed` where a read fails, `OutOfMemory` where memory runs out.
pub fn read_placed<R: Read + Drop>(alloc: Global, text: R) -> Result<PlacedReader<R>, RecordsFault>
    ensures { IfOk result (λ reader. IfSome (R.remaining text) (λ octets.
        placed_left R.remaining reader ≡ Some (placed_of octets))) }
{
    let Ok(buffered) = BufReader::new(alloc, text) else {
        return Err(RecordsFault::OutOfMemory);
    };
    let mut octets = Octets {
        ahead: VecDeque::new(alloc),
        rest: buffered.bytes(),
        ended: false,
    };
    let marked = octets.pass_mark()?;
    Ok(PlacedReader {
        octets,
        walk: Walk::new(alloc, marked),
    })
}

/// Takes the next record of a text into `placed`, and returns whether there was one.
///
/// # Errors
///
/// `ReadFailed` where a read fails, or a record has 2^64 - 1 octets or more; `OutOfMemory` where memory runs out.
pub fn take_placed<R: Read + Drop>(
    reader: &mut PlacedReader<R>,
    placed: &mut PlacedRecord,
) -> Result<bool, RecordsFault>
    ensures { IfOk result (λ found.
        TakesPlaced (placed_left R.remaining reader.old) (placed_left R.remaining reader.new) found
        (shown placed.new)) }
{
    reader.walk.begin(placed);
    'octets: for _octet in 0..u64::MAX {
        let Some(octet) = reader.octets.next()? else {
            let found = end_of_text(reader, placed)?;
            return Ok(found);
        };
        match reader.walk.take(placed, octet) {
            Ok(true) => return Ok(true),
            Ok(false) => {}
            Err(_) => return Err(RecordsFault::OutOfMemory),
        }
    }
    Err(RecordsFault::ReadFailed)
}

// Ends the record at hand, where there is one, at the end of the text.
fn end_of_text<R: Read + Drop>(
    reader: &mut PlacedReader<R>,
    placed: &mut PlacedRecord,
) -> Result<bool, RecordsFault>
    requires { partial_of placed.old.fields ≡ [] }
    ensures octets { reader.new.octets ≡ reader.old.octets }
    ensures ends { IfOk result (λ found. EndsText (walk_of reader.old.walk (shown placed.old))
        (walk_of reader.new.walk (shown placed.new)) found) }
{
    if !ends_at_end(reader.walk.stand) {
        return Ok(false);
    }
    match reader.walk.end(placed) {
        Ok(()) => Ok(true),
        Err(_) => Err(RecordsFault::OutOfMemory),
    }
}
