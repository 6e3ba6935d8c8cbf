// What `hsplan-stream` prints where it ends.

ghost use Rattle.std.specs.Prelude.{codes};
ghost use Rattle.hsp_inputs.specs.StreamFaultText as lines;
ghost use Rattle.hsp_price_answers.specs.Lines.{price_sums_text};

use hsp_cli::{Completed, Failure, Program};
use hsp_inputs::{StreamFault, stream_fault_line, stream_status};
use hsp_price_answers::{PriceSums, price_sums_line};
use std::alloc::{AllocError, Global};

/// The program `hsplan-stream`.
pub struct HsplanStream;

/// How a command of `hsplan-stream` ends.
pub type Ended = Result<Completed<PriceSums>, Failure<StreamFault>>;

impl Program for HsplanStream {
    type Fault = StreamFault;

    type Sums = PriceSums;

    ghost name = { codes "hsplan-stream" };

    ghost fault_text = { lines.fault_text };

    ghost fault_status = { lines.status_in };

    ghost sums_text = { price_sums_text };

    fn own_line(failure: &Failure<StreamFault>) -> &'static [u8] {
        match failure {
            Failure::Usage => b"hsplan-stream: Usage\n",
            Failure::Memory => b"hsplan-stream: OutOfMemory\n",
            Failure::Read => b"hsplan-stream: read failed\n",
            Failure::Write => b"hsplan-stream: write failed\n",
            Failure::Refused(_) => b"",
        }
    }

    fn fault_line(alloc: Global, fault: &StreamFault) -> Result<Vec<u8>, AllocError> {
        stream_fault_line(alloc, fault)
    }

    fn fault_status(fault: &StreamFault) -> u8 {
        stream_status(fault)
    }

    fn sums_line(alloc: Global, sums: &PriceSums) -> Result<Vec<u8>, AllocError> {
        price_sums_line(alloc, sums)
    }
}
