// Whole numbers in texts.

ghost use Rattle.std.specs.Prelude.{◌≡◌, ◌≤◌, ◌+◌, ◌++◌, length, IsOk, OnOk, OnErr, decimal, vec_len, vec_capacity};
ghost use Rattle.hsp_text.specs.Whole.{is_whole, whole_within};

use std::alloc::AllocError;

/// Why a text is not a whole number up to a limit.
#[derive(Clone, Copy, Debug, PartialEq, Eq)]
pub enum WholeFault {
    /// The text is empty, has an octet that is not a decimal digit, or has a leading zero before another digit.
    NotWhole,
    /// The text has the digits of a number above the limit.
    TooLarge,
}

// The most octets that the digits of a 64-bit number take.
const MOST_DIGITS: usize = 20;

// Whether the octets are decimal digits without a leading zero, except `0` itself.
fn is_whole(text: &[u8]) -> bool
    ensures { result ≡ is_whole text.now }
{
    if text.is_empty() {
        return false;
    }
    if text[0] == b'0' && text.len() != 1 {
        return false;
    }
    for octet in text {
        if !octet.is_ascii_digit() {
            return false;
        }
    }
    true
}

/// The number that the text spells in decimal digits, without a sign and without a leading zero, if it is at most
/// `max`.
///
/// Digits of any length are read.
///
/// ```
/// assert!(rt; read_whole(b"1000000", 1_000_000) == Ok(1_000_000));
/// assert!(rt; read_whole(b"01", 1_000_000) == Err(WholeFault::NotWhole));
/// assert!(rt; read_whole(b"1000001", 1_000_000) == Err(WholeFault::TooLarge));
/// ```
///
/// # Errors
///
/// In this order: `NotWhole` where the text is not such digits, `TooLarge` where its number is above `max`.
pub fn read_whole(text: &[u8], max: u64) -> Result<u64, WholeFault>
    ensures { result ≡ whole_within max text.now }
{
    if !is_whole(text) {
        return Err(WholeFault::NotWhole);
    }
    let mut number: u64 = 0;
    for digit in text {
        let longer = u128::from(number) * 10 + u128::from(*digit - b'0');
        if longer > u128::from(max) {
            return Err(WholeFault::TooLarge);
        }
        number = longer as u64;
    }
    Ok(number)
}

/// Appends the decimal digits of a number. `out` must have room for them.
#[tactic(auto, using(std::proofs::lemmas::Fmt::decimal_step, std::proofs::lemmas::Fmt::decimal_digit))]
pub fn push_digits(out: &mut Vec<u8>, number: u64)
    requires { vec_len out.old + length (decimal number) ≤ vec_capacity out.old }
    ensures digits { out.new.items ≡ out.old.items ++ decimal number }
    ensures len { vec_len out.new ≡ vec_len out.old + length (decimal number) }
    ensures room { vec_capacity out.old ≤ vec_capacity out.new }
{
    if number < 10 {
        out.push(b'0' + number as u8).unwrap();
        return;
    }
    push_digits(out, number / 10);
    out.push(b'0' + (number % 10) as u8).unwrap();
}

/// Appends the decimal digits of a number, at most 20.
///
/// # Errors
///
/// An `AllocError` where memory runs out. Then `out` stays as it was. It never comes where `out` has room for 20
/// octets.
pub fn push_whole(out: &mut Vec<u8>, number: u64) -> Result<(), AllocError>
    ensures digits { OnOk result (out.new.items ≡ out.old.items ++ decimal number) }
    ensures len { OnOk result (vec_len out.new ≤ vec_len out.old + 20) }
    ensures err { OnErr result (out.new.items ≡ out.old.items) }
    ensures room { vec_capacity out.old ≤ vec_capacity out.new }
    ensures succeeds { vec_len out.old + 20 ≤ vec_capacity out.old → IsOk result }
{
    out.reserve(MOST_DIGITS)?;
    push_digits(out, number);
    Ok(())
}
