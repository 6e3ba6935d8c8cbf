// Why octets are not a spelling: the faults for callers, and those within the crate.

use std::alloc::{AllocError, AllocFailed};

/// What is wrong with the octets of a site record, a value list or a request body: the fault at the first place, from
/// left to right, where they leave the spelling.
#[derive(Clone, Copy, Debug, PartialEq, Eq)]
pub enum RecordFault {
    /// The octets end inside the field that begins at the octet `at`.
    Truncated { at: usize },
    /// The first `at` octets are a whole spelling, and more follow.
    Trailing { at: usize },
    /// A site has more than 1,024 servers.
    TooManyServers,
    /// An earlier value of the list has this index.
    IndexTwice { index: u32 },
    /// Memory ran out.
    OutOfMemory,
}

/// Where reading from left to right stops.
#[derive(Clone, Copy, Debug, PartialEq, Eq)]
pub(crate) enum Stop {
    /// A field is not wholly there. The number says how many octets are left from where the field begins.
    Short(usize),
    /// The number of servers is above the limit.
    TooMany,
    /// An earlier value has this index.
    Twice(u32),
}

/// Why octets were not read into memory.
#[derive(Clone, Copy, Debug, PartialEq, Eq)]
pub(crate) enum ReadError {
    Memory,
    Stopped(Stop),
}

impl From<Stop> for ReadError {
    ghost use Rattle.std.specs.Prelude.{◌≡◌};
    ghost use Rattle.hsp_record.specs.declared.fault.ReadError.TheVariants.{Stopped};

    ghost from_gives = { λ stop e. e ≡ Stopped stop };

    fn from(stop: Stop) -> ReadError {
        ReadError::Stopped(stop)
    }
}

impl From<AllocError> for ReadError {
    ghost use Rattle.std.specs.Prelude.{◌≡◌};
    ghost use Rattle.hsp_record.specs.declared.fault.ReadError.TheVariants.{Memory};

    ghost from_gives = { λ _ e. e ≡ Memory };

    fn from(_e: AllocError) -> ReadError {
        ReadError::Memory
    }
}

impl<T: Drop> From<AllocFailed<T>> for ReadError {
    ghost use Rattle.std.specs.Prelude.{◌≡◌};
    ghost use Rattle.hsp_record.specs.declared.fault.ReadError.TheVariants.{Memory};

    ghost from_gives = { λ _ e. e ≡ Memory };

    fn from(_e: AllocFailed<T>) -> ReadError {
        ReadError::Memory
    }
}
