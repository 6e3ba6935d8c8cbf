// The records of a log from a source of which it is known whether its reads may fail.
//
// The `csv` crate does not say why a read failed. So the source is watched as the crate reads it.

ghost use Rattle.std.specs.Prelude.{◌≡◌, IfSome, false, true};
ghost use Rattle.hsp_csv.specs.Records.{IsKnown, IsReading, records_left, records_of};
ghost use Rattle.hsp_log.specs.Watching.{watched_left};

use csv::Reader;
use hsp_csv::read_records;
use hsp_talk::Source;
use std::alloc::Global;
use std::io::{self, ErrorKind, Read};
use std::marker::{Brand, Model, PhantomData};

/// What is known of a source that is watched.
pub trait Watch {
    /// Whether a read of it may fail.
    ghost may_fail: { Type 0 };
}

/// Any source: whoever calls says which.
impl Watch for Brand {
    ghost use Rattle.std.specs.Prelude.{⊤};

    ghost may_fail = { ⊤ };
}

/// A source, and whether a read of it failed.
#[derive(Drop)]
pub struct Watched<S: Source, K: Watch> {
    source: S,
    has_failed: bool,
    of: PhantomData<K>,
}

impl<S: Source, K: Watch> Model for Watched<S, K> {
    ghost use Rattle.std.specs.Prelude.{◌≡◌, Bool, true};

    ghost Value = { S × Bool };

    ghost view = { λ watched. (watched.source, watched.has_failed) };

    ghost invariant = { λ watched. (watched.has_failed ≡ true → K.may_fail)
        × (S.may_read_fail watched.source → K.may_fail) };
}

impl<S: Source, K: Watch> Watched<S, K> {
    /// A source of which no read has failed.
    pub fn new(source: S) -> Watched<S, K>
        requires { S.may_read_fail source → K.may_fail }
        ensures { result ≡ (source, false) }
    {
        Watched {
            source,
            has_failed: false,
            of: PhantomData,
        }
    }

    /// Whether a read has failed.
    pub fn has_failed(&self) -> bool
        ensures { result ≡ true → K.may_fail }
    {
        self.has_failed
    }
}

impl<S: Source, K: Watch> Read for Watched<S, K> {
    ghost remaining = { λ watched. S.remaining watched.0 };

    fn read(&mut self, piece: &mut [u8]) -> io::Result<usize> {
        match self.source.read_piece(piece) {
            Ok(count) => Ok(count),
            Err(_) => {
                self.has_failed = true;
                Err(io::Error::from(ErrorKind::Other))
            }
        }
    }
}

/// A reader that stands before the first record of a text.
///
/// Where the octets of the text are known, the records that it has left are those of the text.
pub fn watch_records<S: Source, K: Watch>(alloc: Global, text: S) -> Reader<Watched<S, K>>
    requires { S.may_read_fail text → K.may_fail }
    ensures reading { IsReading result }
    ensures known { IfSome (S.remaining text)
        (λ octets. IsKnown (watched_left S.remaining) result) }
    ensures records { IfSome (S.remaining text) (λ octets.
        records_left (watched_left S.remaining) result ≡ records_of octets) }
{
    read_records(alloc, Watched::new(text))
}
