// What answers and failures are written on.

ghost use Rattle.std.specs.Prelude.{◌≡◌, OnOk};
ghost use Rattle.hsp_talk.specs.Writing.{Puts};

use hsp_talk::Sink;
use hsp_text::{WriteFailed, put_all};
use std::io::Write;

/// A writer of which it is known whether its writes may fail, and what has left it.
pub trait Output: Sink {
    /// Writes the whole text, and hands it on. Where a write fails, a beginning of the text was written, and nothing is
    /// tried again.
    fn put(&mut self, text: &[u8]) -> Result<(), WriteFailed>
        ensures puts { Puts Self.may_fail text.now (Self.contents self.old)
            (Self.contents self.new) result }
        ensures handed { OnOk result (Self.handed self.new ≡ Self.contents self.new) };
}

/// Every writer.
impl<W: Write> Output for W {
    fn put(&mut self, text: &[u8]) -> Result<(), WriteFailed> {
        put_all(self, text)?;
        match self.hand_on() {
            Ok(()) => Ok(()),
            Err(_) => Err(WriteFailed),
        }
    }
}
