// How a program ends.

ghost use Rattle.std.specs.Prelude.{◌≡◌, ◌⊎◌, IfOk};
ghost use Rattle.hsp_cli.specs.Ending.{Ends, IsHandedWith, Reports, ReportsBy, ReportsLine, failure_status, last_text};

use crate::answer::Completed;
use crate::failure::Failure;
use crate::output::Output;
use crate::program::Program;
use std::alloc::{AllocError, Global};

/// The line that is printed at the end: that of a fault, or that of the sums of a log, and otherwise no octets.
///
/// # Errors
///
/// An `AllocError` where memory runs out.
pub fn last_line<P: Program>(
    alloc: Global,
    ended: &Result<Completed<P::Sums>, Failure<P::Fault>>,
) -> Result<Vec<u8>, AllocError>
    ensures { IfOk result (λ line. line.items ≡ last_text P.fault_text P.sums_text ended.now) }
{
    match ended {
        Ok(completed) => match &completed.sums {
            Some(sums) => P::sums_line(alloc, sums),
            None => Ok(Vec::new(alloc)),
        },
        Err(Failure::Refused(fault)) => P::fault_line(alloc, fault),
        Err(_) => Ok(Vec::new(alloc)),
    }
}

// Writes a text, and returns the status, which becomes 5 where the write failed.
fn write_line<E: Output>(errors: &mut E, line: &[u8], status: u8) -> u8
    ensures reports { ReportsBy E.may_fail line.now status (E.contents errors.old)
        (E.contents errors.new) result }
    ensures handed { IsHandedWith E.may_fail (E.contents errors.new) (E.handed errors.new) result }
{
    match errors.put(line) {
        Ok(()) => status,
        Err(_) => 5,
    }
}

// Writes the line or, where memory ran out for it, that it ran out, and returns the status to end with.
fn report_line<P: Program, E: Output>(
    errors: &mut E,
    line: &Result<Vec<u8>, AllocError>,
    status: u8,
) -> u8
    ensures reports { ReportsLine E.may_fail P.name line.now status (E.contents errors.old)
        (E.contents errors.new) result }
    ensures handed { IsHandedWith E.may_fail (E.contents errors.new) (E.handed errors.new) result }
{
    match line {
        Ok(line) => write_line(errors, line.as_slice(), status),
        Err(_) => write_line(errors, P::own_line(&Failure::Memory), 4),
    }
}

// The status that goes with a failure.
fn failure_status<P: Program>(failure: &Failure<P::Fault>) -> u8
    ensures { result ≡ failure_status P.fault_status failure.now }
{
    match failure {
        Failure::Usage => 2,
        Failure::Memory => 4,
        Failure::Read | Failure::Write => 5,
        Failure::Refused(fault) => P::fault_status(fault),
    }
}

// Reports the failure, a fault by the line, and returns the status to end with.
fn report_failure<P: Program, E: Output>(
    errors: &mut E,
    failure: &Failure<P::Fault>,
    line: &Result<Vec<u8>, AllocError>,
) -> u8
    ensures reports { Reports E.may_fail P.name P.fault_status failure.now line.now
        (E.contents errors.old) (E.contents errors.new) result }
    ensures handed { IsHandedWith E.may_fail (E.contents errors.new) (E.handed errors.new) result }
{
    let status = failure_status::<P>(failure);
    match failure {
        Failure::Refused(_) => report_line::<P, E>(errors, line, status),
        _ => write_line(errors, P::own_line(failure), status),
    }
}

/// Returns the status that the program ends with.
///
/// Before that it writes on `errors`. By `line` it reports the sums of a log or a fault, and any other failure by its
/// own text. Where memory ran out for the line, it reports that.
pub fn status_at_end<P: Program, E: Output>(
    errors: &mut E,
    ended: &Result<Completed<P::Sums>, Failure<P::Fault>>,
    line: &Result<Vec<u8>, AllocError>,
) -> u8
    ensures ends { Ends E.may_fail P.name P.fault_status ended.now line.now
        (E.contents errors.old) (E.contents errors.new) result }
    // Nothing was written, or what was written is handed on, unless a write failed.
    ensures handed { (errors.new ≡ errors.old)
        ⊎ IsHandedWith E.may_fail (E.contents errors.new) (E.handed errors.new) result }
{
    match ended {
        Ok(completed) if completed.sums.is_some() => {
            report_line::<P, E>(errors, line, completed.status)
        }
        Ok(completed) => completed.status,
        Err(failure) => report_failure::<P, E>(errors, failure, line),
    }
}
