// Lines of the reports.

ghost use Rattle.std.specs.Prelude.{◌≡◌, ◌++◌, OnOk, decimal};
ghost use Rattle.hsp_report.specs.Columns.{aligned, column_line, difference_line};

use hsp_text::{push_aligned, push_wide};
use std::alloc::AllocError;

/// A number and the width of its column.
#[derive(Clone, Copy)]
pub struct Column {
    width: usize,
    number: u128,
}

/// A number in a column of this width.
pub fn aligned(width: usize, number: u128) -> Column
    ensures { result ≡ aligned width number }
{
    Column { width, number }
}

/// Appends a line: numbers, each right-aligned in its column with a space behind it, and a name.
///
/// # Errors
///
/// An `AllocError` where memory runs out. Nothing is said of `out` then.
pub fn push_columns(out: &mut Vec<u8>, columns: &[Column], name: &[u8]) -> Result<(), AllocError>
    ensures { OnOk result (out.new.items ≡ out.old.items ++ column_line columns.now name.now) }
{
    for column in columns {
        push_aligned(out, column.number, column.width)?;
        out.push(b' ')?;
    }
    out.extend_from_slice(name)?;
    out.push(b'\n')?;
    Ok(())
}

// Appends a sign and the digits of a number.
fn push_term(out: &mut Vec<u8>, sign: &[u8], number: u128) -> Result<(), AllocError>
    ensures { OnOk result (out.new.items ≡ out.old.items ++ (sign.now ++ decimal number)) }
{
    out.extend_from_slice(sign)?;
    push_wide(out, number)
}

/// Appends a line: a word, two numbers, and what is left of the first without the second.
///
/// # Errors
///
/// An `AllocError` where memory runs out. Nothing is said of `out` then.
pub fn push_difference(
    out: &mut Vec<u8>,
    word: &[u8],
    first: u128,
    second: u128,
    left: u128,
) -> Result<(), AllocError>
    ensures { OnOk result (out.new.items
        ≡ out.old.items ++ difference_line word.now first second left) }
{
    out.extend_from_slice(word)?;
    push_term(out, b" ", first)?;
    push_term(out, b" - ", second)?;
    push_term(out, b" = ", left)?;
    out.push(b'\n')?;
    Ok(())
}
