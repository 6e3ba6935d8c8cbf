// Places in a text.

ghost use Rattle.std.specs.Prelude.{◌≡◌};
ghost use Rattle.hsp_csv.specs.Places.{ends_line, first_line, place_after};

/// A place in a text.
#[derive(Clone, Copy)]
pub struct Place {
    /// How many octets stand before it, at most 2^64 - 1.
    pub octet: u64,
    /// The number of its line from 1, at most 2^64 - 1. A line ends with LF, CR LF or CR.
    pub line: u64,
    /// Whether the octet before it is a CR.
    pub after_return: bool,
}

impl Place {
    /// The place behind some first octets of a text that end no line.
    pub(crate) fn first_line(octets: u64) -> Place
        ensures { result ≡ first_line octets }
    {
        Place {
            octet: octets,
            line: 1,
            after_return: false,
        }
    }

    /// The start of a text.
    pub fn start() -> Place
        ensures { result ≡ first_line 0 }
    {
        Place::first_line(0)
    }

    // Whether an octet at this place ends a line.
    fn ends_line(&self, octet: u8) -> bool
        ensures { result ≡ ends_line self.now octet }
    {
        octet == b'\r' || (octet == b'\n' && !self.after_return)
    }

    /// The place behind an octet.
    pub(crate) fn after(&self, octet: u8) -> Place
        ensures { result ≡ place_after self.now octet }
    {
        let mut line = self.line;
        if self.ends_line(octet) {
            line = line.saturating_add(1);
        }
        Place {
            octet: self.octet.saturating_add(1),
            line,
            after_return: octet == b'\r',
        }
    }
}
