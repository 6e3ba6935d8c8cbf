// Why there is no certificate.

ghost use Rattle.std.specs.Prelude.{◌≡◌};
ghost use Rattle.hsp_price_plan.specs.declared.fault.PlanFault.TheVariants.{OutOfMemory};

use std::alloc::AllocError;

/// Why there is no certificate of rows.
#[derive(Clone, Copy, Debug, PartialEq, Eq, Drop)]
pub enum PlanFault {
    /// The certificate is past a limit of its text, or there are too many rows of too many groups.
    TooLarge,
    /// Memory ran out.
    OutOfMemory,
}

impl From<AllocError> for PlanFault {
    ghost from_gives = { λ _ fault. fault ≡ OutOfMemory };

    fn from(_error: AllocError) -> PlanFault {
        PlanFault::OutOfMemory
    }
}
