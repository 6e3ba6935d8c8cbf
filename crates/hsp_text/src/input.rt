// Whole files and first lines, from any reader.

ghost use Rattle.std.specs.Prelude.{◌≡◌, ◌≤◌, length, IfOk, IfSome};
ghost use Rattle.hsp_text.specs.Input.{first_line_of};

use crate::limits::{LARGEST_FILE, LONGEST_FIRST_LINE};
use std::alloc::{AllocError, Global};
use std::io::Read;

/// Every octet of the reader, or None where a read failed or where there are more than 67,108,864 octets.
///
/// # Errors
///
/// An `AllocError` where memory runs out.
pub fn read_file<R: Read + Drop>(alloc: Global, reader: R) -> Result<Option<Vec<u8>>, AllocError>
    ensures octets { IfOk result (λ found. IfSome found (λ whole.
        IfSome (R.remaining reader) (λ text. whole.items ≡ text))) }
    ensures limit { IfOk result (λ found. IfSome found (λ whole.
        length whole.items ≤ LARGEST_FILE)) }
{
    let mut reader = reader;
    let mut whole = Vec::new(alloc);
    let mut piece = [0u8; 4096];
    'pieces: loop {
        let Ok(count) = reader.read(&mut piece) else {
            return Ok(None);
        };
        if count == 0 {
            return Ok(Some(whole));
        }
        if count > LARGEST_FILE - whole.len() {
            return Ok(None);
        }
        whole.extend_from_slice(&piece[..count])?;
    }
}

/// The octets of the reader before its first LF or, without one, before its end. It is None where a read failed, or
/// where they are more than 65,536.
///
/// # Errors
///
/// An `AllocError` where memory runs out.
pub fn first_line<R: Read + Drop>(alloc: Global, reader: R) -> Result<Option<Vec<u8>>, AllocError>
    ensures line { IfOk result (λ found. IfSome found (λ line.
        IfSome (R.remaining reader) (λ text. line.items ≡ first_line_of text))) }
    ensures limit { IfOk result (λ found. IfSome found (λ line.
        length line.items ≤ LONGEST_FIRST_LINE)) }
{
    let mut reader = reader;
    let mut line = Vec::new(alloc);
    let mut octet = [0u8];
    'octets: loop {
        let Ok(count) = reader.read(&mut octet) else {
            return Ok(None);
        };
        if count == 0 || octet[0] == b'\n' {
            return Ok(Some(line));
        }
        if line.len() == LONGEST_FIRST_LINE {
            return Ok(None);
        }
        line.push(octet[0])?;
    }
}
