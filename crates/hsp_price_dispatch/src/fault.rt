// Why a dispatcher can't start.

ghost use Rattle.std.specs.Prelude.{◌≡◌};
ghost use Rattle.hsp_price_dispatch.specs.declared.fault.StartFault.TheVariants.{OutOfMemory};

use std::alloc::AllocError;

/// Why a dispatcher can't start with a certificate by prices, the first reason first.
#[derive(Clone, Copy, Debug, PartialEq, Eq, Drop)]
pub enum StartFault {
    /// There aren't as many prices as servers or hosts.
    Shape,
    /// A server of a class isn't there.
    NoSuchServer,
    /// The amounts of classes at a server are above its capacity, or those at a host above its limit.
    Load,
    /// Memory ran out.
    OutOfMemory,
}

impl From<AllocError> for StartFault {
    ghost from_gives = { λ _ fault. fault ≡ OutOfMemory };

    fn from(_error: AllocError) -> StartFault {
        StartFault::OutOfMemory
    }
}
