// Why a command is refused.

ghost use Rattle.std.specs.Prelude.{◌≡◌};
ghost use Rattle.hsp_inputs.specs.FaultText.{fault_of_log};
ghost use Rattle.hsp_inputs.specs.declared.fault.Fault.TheVariants.{OutOfMemory};

use hsp_cert::CertFault;
use hsp_check::Reason;
use hsp_instance::BuildFault;
use hsp_log::LogFault;
use hsp_names::HandleFault;
use hsp_record::RecordFault;
use hsp_tables::TableFault;
use std::alloc::AllocError;
use thiserror::Error;

/// Why a run has no answer. Of several reasons, a run reports the first in the order that it states.
#[derive(Debug, PartialEq, Eq, Drop, Error)]
pub enum Fault {
    /// The hash option isn't `na`, `local` or `handle`.
    #[error("bad option")]
    BadOption,
    /// The number of servers isn't a whole number from 1 to 1,024.
    #[error("bad servers")]
    BadServers,
    /// The index isn't a whole number up to 4,294,967,295.
    #[error("bad index")]
    BadIndex,
    /// The given handle is not a handle.
    #[error("handle: {0:?}")]
    Handle(HandleFault),
    /// The octets are not a site record.
    #[error("site: {0:?}")]
    Site(RecordFault),
    /// The octets are not settings.
    #[error("settings: {0:?}")]
    Settings(TableFault),
    /// The octets are not a value list.
    #[error("values: {0:?}")]
    Values(RecordFault),
    /// The value list has no value with the index.
    #[error("no value")]
    NoValue,
    /// The value with the index is of another type than `HS_SITE`.
    #[error("not a site value")]
    NotSiteValue,
    /// The octets are not a demand table.
    #[error("demand: {0:?}")]
    Demand(TableFault),
    /// The octets are not a table of costs.
    #[error("costs: {0:?}")]
    Costs(TableFault),
    /// The octets are not a table of capacities.
    #[error("capacity: {0:?}")]
    Capacity(TableFault),
    /// The inputs have no instance.
    #[error("build: {0:?}")]
    Build(BuildFault),
    /// The text is not a certificate's.
    #[error("certificate: {0:?}")]
    Cert(CertFault),
    /// The certificate isn't valid for the inputs.
    #[error("check: {0:?}")]
    Refused(Reason),
    /// The certificate is of another kind than the one wanted: a plan, or a shortage.
    #[error("wrong kind")]
    WrongKind,
    /// Memory ran out.
    #[error("out of memory")]
    OutOfMemory,
    /// The run over a log stopped.
    #[error("log: {0:?}")]
    Log(LogFault),
    /// The number of fronts isn't a whole number from 1 to 64.
    #[error("bad fronts")]
    BadFronts,
}

impl From<AllocError> for Fault {
    ghost from_gives = { λ _ fault. fault ≡ OutOfMemory };

    fn from(_error: AllocError) -> Fault {
        Fault::OutOfMemory
    }
}

impl From<LogFault> for Fault {
    ghost from_gives = { λ log fault. fault ≡ fault_of_log log };

    fn from(fault: LogFault) -> Fault {
        match fault {
            LogFault::OutOfMemory => Fault::OutOfMemory,
            other => Fault::Log(other),
        }
    }
}
