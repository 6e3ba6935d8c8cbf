// Why the inputs have no instance.

ghost use Rattle.std.specs.Prelude.{◌≡◌};
ghost use Rattle.hsp_instance.specs.declared.fault.BuildFault.TheVariants.{OutOfMemory};

use hsp_record::RecordFault;
use std::alloc::{AllocError, AllocFailed};

/// A table whose rows name sites.
#[derive(Clone, Copy, Debug, PartialEq, Eq)]
pub enum Table {
    Costs,
    Capacity,
}

/// The first fault of the inputs of an instance. Sites and rows are numbered from 0.
#[derive(Clone, Copy, Debug, PartialEq, Eq)]
pub enum BuildFault {
    /// The value list has no value of the site's index, or there is no value list.
    NoValue { site: u32 },
    /// The value of the site's index is not of the type `HS_SITE`.
    NotSiteValue { site: u32 },
    /// The octets of the site are not a site record.
    BadRecord { site: u32, fault: RecordFault },
    /// The octet of the site's HashOption stands for no hash option.
    BadHashOption { site: u32 },
    /// The site has no server.
    NoServer { site: u32 },
    /// Two servers of the site have one identifier.
    ServerIdTwice { site: u32 },
    /// The sites have more than 1,024 servers.
    TooManyServers,
    /// A row of the table names a site that is not there.
    UnknownSite { table: Table, row: u32 },
    /// A row of the capacities names an identifier that no server of its site has.
    UnknownServer { row: u32 },
    /// No row of the capacities has the server.
    NoCapacity { site: u32, server_id: u32 },
    /// Memory ran out.
    OutOfMemory,
}

impl From<AllocError> for BuildFault {
    ghost from_gives = { λ _ e. e ≡ OutOfMemory };

    fn from(_error: AllocError) -> BuildFault {
        BuildFault::OutOfMemory
    }
}

impl<T: Drop> From<AllocFailed<T>> for BuildFault {
    ghost from_gives = { λ _ e. e ≡ OutOfMemory };

    fn from(_error: AllocFailed<T>) -> BuildFault {
        BuildFault::OutOfMemory
    }
}
