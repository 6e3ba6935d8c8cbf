// What the parts of a run answer, in the terms of the run.

ghost use Rattle.std.specs.Prelude.{◌≡◌, ◌≢◌, IsFalse, IsTrue};
ghost use Rattle.hsp_cert.specs.declared.fault.CertFault.TheVariants as cert_fault;
ghost use Rattle.hsp_instance.specs.declared.fault.BuildFault.TheVariants as build_fault;
ghost use Rattle.hsp_record.specs.declared.fault.RecordFault.TheVariants as record_fault;
ghost use Rattle.hsp_inputs.specs.Parts.{IsNamed};
ghost use Rattle.hsp_tables.specs.declared.fault.TableFault.TheVariants as table_fault;

use crate::fault::Fault;
use hsp_cert::CertFault;
use hsp_instance::BuildFault;
use hsp_record::RecordFault;
use hsp_tables::TableFault;

/// The faults of a part.
pub trait PartFault: Copy {
    /// That memory ran out.
    ghost memory: { Self };

    /// Whether memory ran out.
    fn is_out_of_memory(&self) -> bool
        ensures out { IsTrue result → self.now ≡ memory }
        ensures other { IsFalse result → self.now ≢ memory };
}

impl PartFault for TableFault {
    ghost memory = { table_fault.OutOfMemory };

    fn is_out_of_memory(&self) -> bool {
        *self == TableFault::OutOfMemory
    }
}

impl PartFault for RecordFault {
    ghost memory = { record_fault.OutOfMemory };

    fn is_out_of_memory(&self) -> bool {
        *self == RecordFault::OutOfMemory
    }
}

impl PartFault for BuildFault {
    ghost memory = { build_fault.OutOfMemory };

    fn is_out_of_memory(&self) -> bool {
        *self == BuildFault::OutOfMemory
    }
}

impl PartFault for CertFault {
    ghost memory = { cert_fault.OutOfMemory };

    fn is_out_of_memory(&self) -> bool {
        *self == CertFault::OutOfMemory
    }
}

/// What a part answered, with its fault as the run's: by its name or, where memory ran out, as that.
///
/// # Errors
///
/// The named fault, or `OutOfMemory`.
pub fn named<T, F: PartFault, N: FnOnce(F) -> Fault + Drop>(
    answer: Result<T, F>,
    name: N,
) -> Result<T, Fault>
    requires { N.IsAlwaysCallable name }
    ensures { IsNamed (N.post name) F.memory answer result }
{
    match answer {
        Ok(value) => Ok(value),
        Err(fault) if fault.is_out_of_memory() => Err(Fault::OutOfMemory),
        Err(fault) => Err(name(fault)),
    }
}
