// Pieces of printed texts.

ghost use Rattle.std.specs.Prelude.{◌≡◌, ◌++◌, ◌∷◌, OnErr, OnOk, decimal, length, replicate, take};
ghost use Rattle.hsp_text.specs.Writing.{numbered, right_aligned};

use crate::whole::push_whole;
use crate::wide::push_wide;
use std::alloc::AllocError;

// Appends a space and the digits of a number, or a part of them where a growth is refused.
#[tactic(auto, using(crate::proofs::Kept::kept_behind))]
fn push_number_part(out: &mut Vec<u8>, number: u64) -> Result<(), AllocError>
    ensures number { OnOk result (out.new.items ≡ out.old.items ++ 32 ∷ decimal number) }
    ensures kept { take (length out.old.items) out.new.items ≡ out.old.items }
{
    out.push(b' ')?;
    push_whole(out, number)
}

// Appends the pieces of a line, or a part of them where a growth is refused.
#[tactic(auto, using(crate::proofs::Kept::kept_behind, crate::proofs::Kept::kept_on))]
fn push_line_part(out: &mut Vec<u8>, word: &[u8], numbers: &[u64]) -> Result<(), AllocError>
    ensures line { OnOk result (out.new.items ≡ out.old.items ++ numbered word.now numbers.now) }
    ensures kept { take (length out.old.items) out.new.items ≡ out.old.items }
{
    out.extend_from_slice(word)?;
    for number in numbers {
        push_number_part(out, *number)?;
    }
    out.push(b'\n')?;
    Ok(())
}

/// Appends a space and the digits of a number.
///
/// # Errors
///
/// An `AllocError` where memory runs out. Then `out` stays as it was.
pub fn push_number(out: &mut Vec<u8>, number: u64) -> Result<(), AllocError>
    ensures number { OnOk result (out.new.items ≡ out.old.items ++ 32 ∷ decimal number) }
    ensures err { OnErr result (out.new.items ≡ out.old.items) }
{
    let start = out.len();
    let pushed = push_number_part(out, number);
    if pushed.is_err() {
        out.truncate(start);
    }
    pushed
}

/// Appends a line: a word, the numbers behind it with a space before each, and LF.
///
/// # Errors
///
/// An `AllocError` where memory runs out. Then `out` stays as it was.
pub fn push_line(out: &mut Vec<u8>, word: &[u8], numbers: &[u64]) -> Result<(), AllocError>
    ensures line { OnOk result (out.new.items ≡ out.old.items ++ numbered word.now numbers.now) }
    ensures err { OnErr result (out.new.items ≡ out.old.items) }
{
    let start = out.len();
    let pushed = push_line_part(out, word, numbers);
    if pushed.is_err() {
        out.truncate(start);
    }
    pushed
}

// Appends `count` spaces, or a part of them where a growth is refused.
#[tactic(auto, using(crate::proofs::Kept::kept_behind, crate::proofs::Kept::kept_on))]
fn push_spaces(out: &mut Vec<u8>, count: usize) -> Result<(), AllocError>
    ensures spaces { OnOk result (out.new.items ≡ out.old.items ++ replicate count 32) }
    ensures kept { take (length out.old.items) out.new.items ≡ out.old.items }
{
    for _place in 0..count {
        out.push(b' ')?;
    }
    Ok(())
}

// How many digits a number has.
#[tactic(auto, using(std::proofs::lemmas::Fmt::decimal_step_wide, std::proofs::lemmas::Fmt::decimal_digit))]
fn digit_count(number: u128) -> usize
    ensures { result ≡ length (decimal number) }
{
    if number < 10 {
        return 1;
    }
    digit_count(number / 10) + 1
}

/// Appends the digits of a number, right-aligned in `width` places. A longer number is written whole.
///
/// # Errors
///
/// An `AllocError` where memory runs out. Then `out` stays as it was.
pub fn push_aligned(out: &mut Vec<u8>, number: u128, width: usize) -> Result<(), AllocError>
    ensures aligned { OnOk result
        (out.new.items ≡ out.old.items ++ right_aligned width (decimal number)) }
    ensures err { OnErr result (out.new.items ≡ out.old.items) }
{
    let start = out.len();
    let mut pushed = push_spaces(out, width.saturating_sub(digit_count(number)));
    if pushed.is_ok() {
        pushed = push_wide(out, number);
    }
    if pushed.is_err() {
        out.truncate(start);
    }
    pushed
}
