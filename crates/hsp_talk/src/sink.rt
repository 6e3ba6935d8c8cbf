// What is written on.

ghost use Rattle.std.specs.Prelude.{◌≡◌, ⊤, ℕ, List, Option, OnErr, OnOk};
ghost use Rattle.std.specs.Io.KnownBytes.{Appends, Keeps};
ghost use Rattle.hsp_talk.specs.Writing.{IsBegun, Puts};

use crate::stop::Failed;
use std::io::{ErrorKind, Write};

/// A writer of which it is known whether its writes may fail, and what has left it.
pub trait Sink: Write {
    /// Whether a write may fail.
    ghost may_fail: { Type 0 };

    /// The octets that have left it, where they are known: no buffer of its own still holds one of them.
    ghost handed: { Self → Option (List ℕ) };

    /// Writes the whole text. A write that a signal interrupts is made again.
    ///
    /// # Errors
    ///
    /// `Failed` where a write fails or takes no octet. A beginning of the text was then written.
    fn write_text(&mut self, text: &[u8]) -> Result<(), Failed>
        ensures { Puts may_fail text.now (Self.contents self.old) (Self.contents self.new) result };

    /// Hands on what was written.
    ///
    /// # Errors
    ///
    /// `Failed` where what was written can't be handed on.
    fn hand_on(&mut self) -> Result<(), Failed>
        ensures kept { Keeps (Self.contents self.old) (Self.contents self.new) }
        ensures fails { OnErr result may_fail }
        ensures handed { OnOk result (handed self.new ≡ Self.contents self.new) };

    /// Writes the whole text, and hands it on.
    ///
    /// # Errors
    ///
    /// `Failed` as by [`write_text`](Sink::write_text), or else as by [`hand_on`](Sink::hand_on).
    fn deliver(&mut self, text: &[u8]) -> Result<(), Failed>
        ensures puts { Puts may_fail text.now (Self.contents self.old) (Self.contents self.new)
            result }
        ensures handed { OnOk result (handed self.new ≡ Self.contents self.new) }
    {
        self.write_text(text)?;
        self.hand_on()
    }
}

// Writes all octets. A write that a signal interrupts is made again. Where a write fails or takes no octet, some of the
// first octets were written.
fn write_whole<W: Write>(writer: &mut W, octets: &[u8]) -> Result<(), Failed>
    ensures whole { OnOk result
        (Appends (W.contents writer.old) (W.contents writer.new) octets.now) }
    ensures begun { OnErr result
        (IsBegun (W.contents writer.old) (W.contents writer.new) octets.now) }
{
    let mut at = 0;
    for _again in 0..u64::MAX {
        if at >= octets.len() {
            return Ok(());
        }
        match writer.write(&octets[at..]) {
            Ok(0) => return Err(Failed),
            Ok(count) => at += count,
            Err(error) => {
                if error.kind() != ErrorKind::Interrupted {
                    return Err(Failed);
                }
            }
        }
    }
    Err(Failed)
}

/// Every writer. No contract can say whether its writes fail, or what of its contents has left it.
impl<W: Write> Sink for W {
    ghost may_fail = { ⊤ };

    ghost handed = { λ writer. W.contents writer };

    fn hand_on(&mut self) -> Result<(), Failed> {
        match self.flush() {
            Ok(()) => Ok(()),
            Err(_) => Err(Failed),
        }
    }

    fn write_text(&mut self, text: &[u8]) -> Result<(), Failed> {
        write_whole(self, text)
    }
}
