// What the program is asked to do.

ghost use Rattle.std.specs.Prelude.{◌≡◌, ℕ, List};

use hsp_report::ReportKind;
use std::marker::Model;

/// The value of an option, or a word by its place: text among the words, seen as its octets.
#[derive(Drop)]
pub struct Word<'a> {
    text: &'a str,
}

impl<'a> Model for Word<'a> {
    ghost Value = { List ℕ };

    ghost view = { λ word. word.text.now };
}

impl<'a> Word<'a> {
    /// The word that a text is.
    pub(crate) fn of(text: &'a str) -> Word<'a>
        ensures { result ≡ text.now }
    {
        Word { text }
    }

    /// The word's text.
    pub fn as_str(&self) -> &'a str
        ensures { result.now ≡ self.now }
    {
        self.text
    }

    /// The word's octets.
    pub fn as_bytes(&self) -> &'a [u8]
        ensures { result.now ≡ self.now }
    {
        self.text.as_bytes()
    }
}

/// The files that say what is to be planned: `--settings F [--values F] --demand F --costs F --capacity F`.
#[derive(Drop)]
pub struct InputFiles<'a> {
    pub settings: Word<'a>,
    pub values: Option<Word<'a>>,
    pub demand: Word<'a>,
    pub costs: Word<'a>,
    pub capacity: Word<'a>,
}

/// One command with its values.
#[derive(Drop)]
pub enum Order<'a> {
    /// `locate --option O --servers N HANDLE`
    LocatePlace {
        option: Word<'a>,
        servers: Word<'a>,
        handle: Word<'a>,
    },
    /// `locate --settings F [--values F] HANDLE`
    LocateSites {
        settings: Word<'a>,
        values: Option<Word<'a>>,
        handle: Word<'a>,
    },
    /// `site [--index N] F`
    Site {
        index: Option<Word<'a>>,
        file: Word<'a>,
    },
    /// `plan` with the files of the inputs
    Plan {
        inputs: InputFiles<'a>,
    },
    /// `check` with the files of the inputs and `--plan F`
    Check {
        inputs: InputFiles<'a>,
        plan: Word<'a>,
    },
    /// `dispatch` with the files of the inputs, `--plan F`, `--log F` and `[--fronts N]`
    Dispatch {
        inputs: InputFiles<'a>,
        plan: Word<'a>,
        log: Word<'a>,
        fronts: Option<Word<'a>>,
    },
    /// `report` with the files of the inputs, `--plan F` and `--kind K`
    Report {
        inputs: InputFiles<'a>,
        plan: Word<'a>,
        kind: ReportKind,
    },
}
