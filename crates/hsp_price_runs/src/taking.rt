// What takes the rows of a log.

ghost use Rattle.std.specs.Prelude.{◌≡◌, ◌⊎◌, IfErr, List, OnOk};
ghost use Rattle.hsp_instance.specs.Instance.{Row};
ghost use Rattle.hsp_log.specs.RowsShown.{row_shown};
ghost use Rattle.hsp_price_check.specs.declared.fault.PassFault.TheVariants.{OutOfMemory};
ghost use Rattle.hsp_price_runs.specs.Passing.{IsOverSome, StopsAt, Takes};
ghost use Rattle.hsp_price_runs.specs.Taking.{HasPassedOver};

use hsp_log::LogRow;
use hsp_price_check::{PassFault, PriceCheck};
use std::alloc::Global;

/// What takes the rows of a log, one after another. The rows of a log name at most 64 regions.
pub trait RowTaker {
    /// Since it was the first of the two, it has taken these rows, and is now the second.
    ghost HasTaken: { Self → List Row → Self → Type 0 };

    /// Takes a row.
    ///
    /// The fault is TooManyRegions where the rows have 65 regions with this one. After a fault no further row is taken.
    fn take_row(&mut self, alloc: Global, read: LogRow<'_>) -> Result<(), PassFault>
        requires { IsOverSome HasTaken self.old }
        ensures taken { OnOk result (Takes HasTaken (row_shown read.entry) self.old self.new) }
        ensures fault { IfErr result (λ fault. (fault ≡ OutOfMemory)
            ⊎ StopsAt HasTaken (row_shown read.entry) self.old fault) };
}

impl RowTaker for PriceCheck<'_> {
    ghost HasTaken = { HasPassedOver };

    fn take_row(&mut self, alloc: Global, read: LogRow<'_>) -> Result<(), PassFault> {
        self.add(alloc, read.region, read.handle, read.count)
    }
}
