// Why words give no order.

ghost use Rattle.std.specs.Prelude.{◌≡◌};
ghost use Rattle.hsp_cli_orders.specs.declared.fault.CommandFault.TheVariants.{OutOfMemory};

use std::alloc::AllocError;
use thiserror::Error;

/// Why words are not an order.
#[derive(Debug, PartialEq, Eq, Drop, Error)]
pub enum CommandFault {
    /// They are not one of the commands with its options, or they ask for help.
    #[error("usage")]
    Usage,
    /// Memory ran out.
    #[error("out of memory")]
    OutOfMemory,
}

impl From<AllocError> for CommandFault {
    ghost from_gives = { λ _ fault. fault ≡ OutOfMemory };

    fn from(_error: AllocError) -> CommandFault {
        CommandFault::OutOfMemory
    }
}
