// Why a talk stops early.

ghost use Rattle.std.specs.Prelude.{◌≡◌};
ghost use Rattle.hsp_talk.specs.Refusals.{stop_by};

/// A read or a write failed.
#[derive(Clone, Copy, Debug, Drop)]
pub struct Failed;

/// Why a responder does not take a row.
#[derive(Debug, Drop)]
pub enum Refusal<F> {
    /// A fault of the responder's own: the row is refused, and the talk stops.
    Fault(F),
    /// Memory ran out.
    OutOfMemory,
}

/// Why a talk stopped early.
#[derive(Debug, Drop)]
pub enum Stop<F> {
    /// A read failed.
    ReadFailed,
    /// A write failed.
    WriteFailed,
    /// Memory ran out.
    OutOfMemory,
    /// The responder refused a row.
    Fault(F),
}

/// Why a talk stops when its responder does not take a row.
pub(crate) fn stop_for<F>(refusal: Refusal<F>) -> Stop<F>
    ensures { result ≡ stop_by refusal }
{
    match refusal {
        Refusal::Fault(fault) => Stop::Fault(fault),
        Refusal::OutOfMemory => Stop::OutOfMemory,
    }
}
