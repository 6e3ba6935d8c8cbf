// Commands that end without an answer.

ghost use Rattle.std.specs.Prelude.{◌≡◌};
ghost use Rattle.hsp_cli.specs.declared.failure.Failure.TheVariants.{Memory, Refused};
ghost use Rattle.hsp_cli.specs.declared.failure.Unread.TheVariants as unread;
ghost use Rattle.hsp_cli.specs.Failing.{failure_of, failure_to_read};

use hsp_cli_orders::CommandFault;
use hsp_inputs::Fault;
use std::alloc::AllocError;

/// Why a file wasn't read.
#[derive(Debug, Drop)]
pub enum Unread {
    /// Memory ran out.
    Memory,
    /// It can't be opened, a read of it failed, or it is too large.
    Read,
}

impl From<AllocError> for Unread {
    ghost from_gives = { λ _ why. why ≡ unread.Memory };

    fn from(_error: AllocError) -> Unread {
        Unread::Memory
    }
}

/// Why a command has no answer. `F` has the faults of a program's runs.
#[derive(Debug, Drop)]
pub enum Failure<F> {
    /// The words are not a command.
    Usage,
    /// Memory ran out.
    Memory,
    /// A file can't be opened, a read of it failed, or it is too large.
    Read,
    /// Standard output can't be written.
    Write,
    /// The run refused its input, or stopped in the log.
    Refused(F),
}

impl<F> From<AllocError> for Failure<F> {
    ghost from_gives = { λ _ failure. failure ≡ Memory };

    fn from(_error: AllocError) -> Failure<F> {
        Failure::Memory
    }
}

impl<F> From<CommandFault> for Failure<F> {
    ghost from_gives = { λ fault failure. failure ≡ failure_of fault };

    fn from(fault: CommandFault) -> Failure<F> {
        match fault {
            CommandFault::Usage => Failure::Usage,
            CommandFault::OutOfMemory => Failure::Memory,
        }
    }
}

impl<F> From<Unread> for Failure<F> {
    ghost from_gives = { λ why failure. failure ≡ failure_to_read why };

    fn from(why: Unread) -> Failure<F> {
        match why {
            Unread::Memory => Failure::Memory,
            Unread::Read => Failure::Read,
        }
    }
}

impl From<Fault> for Failure<Fault> {
    ghost from_gives = { λ fault failure. failure ≡ Refused fault };

    fn from(fault: Fault) -> Failure<Fault> {
        Failure::Refused(fault)
    }
}
