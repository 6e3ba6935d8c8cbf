// Why a run over a log of any length has no answer.

ghost use Rattle.std.specs.Prelude.{◌≡◌};
ghost use Rattle.hsp_inputs.specs.Faults.{fault_of_input};
ghost use Rattle.hsp_inputs.specs.declared.stream_fault.StreamFault.TheVariants.{OutOfMemory};

use crate::fault::Fault;
use hsp_log::RowFault;
use hsp_prices::PriceReason;
use std::alloc::AllocError;
use thiserror::Error;

/// Why a run has no answer. Of several reasons, a run reports the first in the order that it states.
#[derive(Debug, PartialEq, Eq, Drop, Error)]
pub enum StreamFault {
    /// The front isn't a whole number below the number of fronts.
    #[error("bad front")]
    BadFront,
    /// A file or the number of fronts is refused, as the runs of `hsplan` refuse it.
    #[error("{0}")]
    Input(Fault),
    /// The certificate by prices doesn't fit the service.
    #[error("check: {0:?}")]
    Refused(PriceReason),
    /// A certificate by prices of the log's rows would pass a limit of its text, or rows ask for 2^63 queries or more.
    #[error("plan: too large")]
    TooLarge,
    /// The run over the log stopped.
    #[error("log: {0:?}")]
    Log(RowFault),
    /// Memory ran out.
    #[error("out of memory")]
    OutOfMemory,
}

impl From<AllocError> for StreamFault {
    ghost from_gives = { λ _ fault. fault ≡ OutOfMemory };

    fn from(_error: AllocError) -> StreamFault {
        StreamFault::OutOfMemory
    }
}

impl From<Fault> for StreamFault {
    ghost from_gives = { λ input fault. fault ≡ fault_of_input input };

    fn from(fault: Fault) -> StreamFault {
        match fault {
            Fault::OutOfMemory => StreamFault::OutOfMemory,
            other => StreamFault::Input(other),
        }
    }
}
