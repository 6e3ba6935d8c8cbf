// Whole numbers of 128 bits.

ghost use Rattle.std.specs.Prelude.{◌≡◌, ◌≤◌, ◌+◌, ◌++◌, length, OnErr, OnOk, decimal, vec_len, vec_capacity};

use crate::whole::push_digits;
use std::alloc::AllocError;

// The most octets that the digits of a 128-bit number take.
const MOST_DIGITS: usize = 39;

// Appends the decimal digits of a number. `out` must have room for them.
fn push_wide_number(out: &mut Vec<u8>, number: u128)
    requires { vec_len out.old + length (decimal number) ≤ vec_capacity out.old }
    ensures digits { out.new.items ≡ out.old.items ++ decimal number }
    ensures len { vec_len out.new ≡ vec_len out.old + length (decimal number) }
    ensures room { vec_capacity out.old ≤ vec_capacity out.new }
{
    if number <= u128::from(u64::MAX) {
        push_digits(out, number as u64);
        return;
    }
    push_wide_number(out, number / 10);
    out.push(b'0' + (number % 10) as u8).unwrap();
}

/// Appends the decimal digits of a 128-bit number, at most 39.
///
/// # Errors
///
/// An `AllocError` where memory runs out. Then `out` stays as it was.
pub fn push_wide(out: &mut Vec<u8>, number: u128) -> Result<(), AllocError>
    ensures digits { OnOk result (out.new.items ≡ out.old.items ++ decimal number) }
    ensures err { OnErr result (out.new.items ≡ out.old.items) }
{
    out.reserve(MOST_DIGITS)?;
    push_wide_number(out, number);
    Ok(())
}
