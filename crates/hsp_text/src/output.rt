// Texts on their way to a writer.

ghost use Rattle.std.specs.Prelude.{OnErr, OnOk};
ghost use Rattle.std.specs.Io.KnownBytes.{Appends};
ghost use Rattle.hsp_text.specs.Writing.{IsCut};

use std::io::Write;

/// A `write` failed, or took no octet.
#[derive(Clone, Copy, Debug, PartialEq, Eq)]
pub struct WriteFailed;

/// Writes the whole text.
///
/// # Errors
///
/// `WriteFailed` where a `write` fails or takes no octet. Nothing is tried again: the writer has then taken a beginning
/// of the text that lacks at least one octet.
pub fn put_all<W: Write>(writer: &mut W, text: &[u8]) -> Result<(), WriteFailed>
    ensures whole { OnOk result (Appends (W.contents writer.old) (W.contents writer.new) text.now) }
    ensures cut { OnErr result (IsCut (W.contents writer.old) (W.contents writer.new) text.now) }
{
    let mut at = 0;
    while at < text.len() {
        match writer.write(&text[at..]) {
            Ok(0) | Err(_) => return Err(WriteFailed),
            Ok(count) => at += count,
        }
    }
    Ok(())
}
