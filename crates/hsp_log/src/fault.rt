// Why runs over logs stop.

ghost use Rattle.std.specs.Prelude.{◌≡◌};
ghost use Rattle.hsp_log.specs.declared.fault.LogFault.TheVariants.{OutOfMemory, ReadFailed, WriteFailed};
ghost use Rattle.hsp_log.specs.Log.{fault_of};

use hsp_csv::RecordsFault;
use hsp_names::HandleFault;
use hsp_text::WriteFailed as CutText;
use std::alloc::AllocError;

/// Why a run over a log stopped. Rows are numbered from 0, without the header.
#[derive(Clone, Copy, Debug, PartialEq, Eq)]
pub enum LogFault {
    /// A read of the log failed.
    ReadFailed,
    /// A write failed or took no octet, or the last `flush` failed.
    WriteFailed,
    /// The first record is not the header of a log, or there is no record.
    Header,
    /// The row does not have two fields, or three in a log for fronts.
    Fields { row: u32 },
    /// What the row gives as its handle is not a handle.
    BadHandle { row: u32 },
    /// There are more than 10,000,000 rows.
    LogTooLong,
    /// Memory ran out.
    OutOfMemory,
    /// The row's body is not in hexadecimal digits, or is not the body of a resolution request.
    BadBody { row: u32 },
    /// The row's front is not a whole number up to 4,294,967,295.
    BadFront { row: u32 },
}

impl From<AllocError> for LogFault {
    ghost from_gives = { λ _ fault. fault ≡ OutOfMemory };

    fn from(_error: AllocError) -> LogFault {
        LogFault::OutOfMemory
    }
}

impl From<RecordsFault> for LogFault {
    ghost from_gives = { λ fault e. e ≡ fault_of fault };

    fn from(fault: RecordsFault) -> LogFault {
        match fault {
            RecordsFault::ReadFailed => LogFault::ReadFailed,
            RecordsFault::OutOfMemory => LogFault::OutOfMemory,
        }
    }
}

impl From<CutText> for LogFault {
    ghost from_gives = { λ _ fault. fault ≡ WriteFailed };

    fn from(_failed: CutText) -> LogFault {
        LogFault::WriteFailed
    }
}

/// Why a run over the rows of a log stopped. Rows are numbered from 0, without the header.
#[derive(Debug, PartialEq, Eq, Drop)]
pub enum RowFault {
    /// A read of the log failed.
    ReadFailed,
    /// An answer can't be written.
    WriteFailed,
    /// The first record is not the header of a log, or there is no record.
    Header,
    /// The row has another number of fields than the header.
    Fields { row: u64 },
    /// The row's region is not a name.
    BadName { row: u64 },
    /// What the row gives as its handle is not a handle.
    BadHandle { row: u64, fault: HandleFault },
    /// The row's count is not a whole number up to 1,000,000,000,000.
    BadNumber { row: u64 },
    /// The row's region is the 65th.
    TooManyRegions { row: u64 },
}
