// Why a table or the settings were refused.

ghost use Rattle.std.specs.Prelude.{◌≡◌};
ghost use Rattle.hsp_tables.specs.declared.fault.TableFault.TheVariants.{OutOfMemory};

use hsp_csv::RecordsFault;
use hsp_names::HandleFault;
use std::alloc::{AllocError, AllocFailed};

/// The first fault of a table or of the settings. Rows, sites and hosts are numbered from 0.
#[derive(Clone, Copy, Debug, PartialEq, Eq)]
pub enum TableFault {
    /// The settings are not UTF-8, or not TOML.
    NotToml,
    /// The settings have a key that has no meaning.
    UnknownKey,
    /// A site of the settings is not as it should be.
    BadSite { site: u32 },
    /// An earlier site has the same name.
    SiteTwice { site: u32 },
    /// The first record of a table is not its header.
    Header,
    /// A record does not have as many fields as the header.
    Fields { row: u32 },
    /// A field is not the name of a region or a site.
    BadName { row: u32 },
    /// A field is not a handle.
    BadHandle { row: u32, fault: HandleFault },
    /// A field is not a whole number, or is beyond its limit.
    BadNumber { row: u32 },
    /// An earlier row has the same key.
    RowTwice { row: u32 },
    /// There are more rows than the table may have.
    TooManyRows,
    /// There are more than 32 sites.
    TooManySites,
    /// The rows of the table name more than 64 regions.
    TooManyRegions,
    /// Memory ran out.
    OutOfMemory,
    /// A host of the settings is not as it should be.
    BadHost { host: u32 },
    /// An earlier host has the same address.
    HostTwice { host: u32 },
    /// There are more than 1,024 hosts.
    TooManyHosts,
}

impl From<AllocError> for TableFault {
    ghost from_gives = { λ _ e. e ≡ OutOfMemory };

    fn from(_error: AllocError) -> TableFault {
        TableFault::OutOfMemory
    }
}

impl<T: Drop> From<AllocFailed<T>> for TableFault {
    ghost from_gives = { λ _ e. e ≡ OutOfMemory };

    fn from(_error: AllocFailed<T>) -> TableFault {
        TableFault::OutOfMemory
    }
}

// A table is read from octets in memory, where no read fails.
impl From<RecordsFault> for TableFault {
    ghost from_gives = { λ _ e. e ≡ OutOfMemory };

    fn from(_fault: RecordsFault) -> TableFault {
        TableFault::OutOfMemory
    }
}
