// What differs between the programs where they end.

ghost use Rattle.std.specs.Prelude.{◌≡◌, ℕ, List, IfOk, codes};
ghost use Rattle.hsp_cli.specs.Ending.{own_text};
ghost use Rattle.hsp_inputs.specs.FaultText as fault_texts;
ghost use Rattle.hsp_runs.specs.SumsText as sums_texts;

use crate::failure::Failure;
use hsp_dispatch::LogSums;
use hsp_inputs::{Fault, fault_line, fault_status};
use hsp_runs::sums_line;
use std::alloc::{AllocError, Global};

/// A program, by what it prints where it ends, and by its statuses.
pub trait Program {
    /// Why a run is refused.
    type Fault: Drop;
    /// The sums of a log.
    type Sums: Drop;

    /// Its name, with which each line of a failure begins.
    ghost name: { List ℕ };

    /// The line of a fault.
    ghost fault_text: { Self.Fault → List ℕ };

    /// The status after a fault.
    ghost fault_status: { Self.Fault → ℕ };

    /// The line of the sums.
    ghost sums_text: { Self.Sums → List ℕ };

    /// The line of a failure that no run reports, for which no memory is needed; of a fault no octets.
    fn own_line(failure: &Failure<Self::Fault>) -> &'static [u8]
        ensures { result.now ≡ own_text name failure.now };

    /// The line of a fault.
    fn fault_line(alloc: Global, fault: &Self::Fault) -> Result<Vec<u8>, AllocError>
        ensures { IfOk result (λ line. line.items ≡ fault_text fault.now) };

    /// The status after a fault.
    fn fault_status(fault: &Self::Fault) -> u8
        ensures { result ≡ fault_status fault.now };

    /// The line of the sums.
    fn sums_line(alloc: Global, sums: &Self::Sums) -> Result<Vec<u8>, AllocError>
        ensures { IfOk result (λ line. line.items ≡ sums_text sums.now) };
}

/// The program `hsplan`.
pub struct Hsplan;

impl Program for Hsplan {
    type Fault = Fault;

    type Sums = LogSums;

    ghost name = { codes "hsplan" };

    ghost fault_text = { fault_texts.fault_text };

    ghost fault_status = { fault_texts.status_in };

    ghost sums_text = { sums_texts.sums_text };

    fn own_line(failure: &Failure<Fault>) -> &'static [u8] {
        match failure {
            Failure::Usage => b"hsplan: Usage\n",
            Failure::Memory => b"hsplan: OutOfMemory\n",
            Failure::Read => b"hsplan: read failed\n",
            Failure::Write => b"hsplan: write failed\n",
            Failure::Refused(_) => b"",
        }
    }

    fn fault_line(alloc: Global, fault: &Fault) -> Result<Vec<u8>, AllocError> {
        fault_line(alloc, fault)
    }

    fn fault_status(fault: &Fault) -> u8 {
        fault_status(fault)
    }

    fn sums_line(alloc: Global, sums: &LogSums) -> Result<Vec<u8>, AllocError> {
        sums_line(alloc, sums)
    }
}
