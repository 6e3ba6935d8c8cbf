// What a line of a certificate's text says: a word, and up to three numbers.

ghost use Rattle.std.specs.Prelude.{◌≡◌};
ghost use Rattle.hsp_cert.specs.Words.{spelled};

/// The words that begin a line.
#[derive(Clone, Copy)]
pub(crate) enum Word {
    Version,
    Plan,
    Shortage,
    Cost,
    Use,
    Row,
    Server,
    Host,
    Demand,
    Capacity,
    End,
}

/// A word and the numbers behind it.
#[derive(Clone, Copy)]
pub(crate) enum Item {
    Alone(Word),
    One(Word, u64),
    Two(Word, u64, u64),
    Three(Word, u64, u64, u64),
}

/// The octets of a word.
pub(crate) fn spelled(word: Word) -> &'static [u8]
    ensures { result.now ≡ spelled word }
{
    match word {
        Word::Version => b"HSPLAN",
        Word::Plan => b"PLAN",
        Word::Shortage => b"SHORTAGE",
        Word::Cost => b"cost",
        Word::Use => b"use",
        Word::Row => b"row",
        Word::Server => b"server",
        Word::Host => b"host",
        Word::Demand => b"demand",
        Word::Capacity => b"capacity",
        Word::End => b"END",
    }
}

/// All words.
pub(crate) const WORDS: [Word; 11] = [
    Word::Version,
    Word::Plan,
    Word::Shortage,
    Word::Cost,
    Word::Use,
    Word::Row,
    Word::Server,
    Word::Host,
    Word::Demand,
    Word::Capacity,
    Word::End,
];
