// Why a row can't be passed over.

ghost use Rattle.std.specs.Prelude.{◌≡◌};
ghost use Rattle.hsp_price_check.specs.declared.fault.PassFault.TheVariants.{OutOfMemory};

use std::alloc::AllocError;

/// Why a row can't be passed over.
#[derive(Clone, Copy, Debug, PartialEq, Eq, Drop)]
pub enum PassFault {
    /// The row's region is the 4,097th.
    TooManyRegions,
    /// Memory ran out.
    OutOfMemory,
}

impl From<AllocError> for PassFault {
    ghost from_gives = { λ _ fault. fault ≡ OutOfMemory };

    fn from(_error: AllocError) -> PassFault {
        PassFault::OutOfMemory
    }
}
