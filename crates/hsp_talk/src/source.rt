// What is read from.

ghost use Rattle.std.specs.Prelude.{◌≡◌, ◌<◌, ◌≤◌, [], ◌∷◌, ⊤, ℕ, IfOk, List, None, OnErr, Option, length, take};
ghost use Rattle.std.specs.Io.KnownBytes.{Consumes, IsAtEnd, Keeps};
ghost use Rattle.hsp_talk.specs.Known.{AreMore};

use crate::stop::Failed;
use std::io::{ErrorKind, Read};

/// A reader of which it is known whether its reads may fail, and what each of them gave.
pub trait Source: Read {
    /// Whether a read may fail.
    ghost may_read_fail: { Self → Type 0 };

    /// What each read gave, where it is known. A read that a signal interrupts is none.
    ghost reads: { Self → Option (List (List ℕ)) };

    /// Reads once, and again where a signal interrupts it.
    ///
    /// # Errors
    ///
    /// `Failed` where the read fails. Nothing was read then.
    fn read_piece(&mut self, piece: &mut [u8]) -> Result<usize, Failed>
        ensures within { IfOk result (λ count. count ≤ length piece.new) }
        ensures long { length piece.new ≡ length piece.old }
        ensures bytes { IfOk result (λ count.
            Consumes (Self.remaining self.old) (Self.remaining self.new) (take count piece.new)) }
        ensures at_end { IfOk result (λ count. count ≡ 0 → 0 < length piece.old
            → IsAtEnd (Self.remaining self.new)) }
        ensures once { IfOk result (λ count.
            AreMore (reads self.old) (reads self.new) (take count piece.new ∷ [])) }
        ensures kept { OnErr result (Keeps (Self.remaining self.old) (Self.remaining self.new)) }
        ensures none { OnErr result (AreMore (reads self.old) (reads self.new) []) }
        ensures fails { OnErr result (may_read_fail self.old) }
        // What may fail later may have failed before.
        ensures lasts { may_read_fail self.new → may_read_fail self.old };
}

// Reads once, and again where a signal interrupts it.
fn read_some<R: Read>(reader: &mut R, piece: &mut [u8]) -> Result<usize, Failed>
    ensures within { IfOk result (λ count. count ≤ length piece.new) }
    ensures long { length piece.new ≡ length piece.old }
    ensures reads { IfOk result (λ count.
        Consumes (R.remaining reader.old) (R.remaining reader.new) (take count piece.new)) }
    ensures at_end { IfOk result (λ count. count ≡ 0 → 0 < length piece.old
        → IsAtEnd (R.remaining reader.new)) }
    ensures fails { OnErr result (Keeps (R.remaining reader.old) (R.remaining reader.new)) }
{
    for _again in 0..u64::MAX {
        match reader.read(piece) {
            Ok(count) => return Ok(count),
            Err(error) => {
                if error.kind() != ErrorKind::Interrupted {
                    return Err(Failed);
                }
            }
        }
    }
    Err(Failed)
}

/// Every reader. No contract can say whether its reads fail, or how many were made.
impl<R: Read> Source for R {
    ghost may_read_fail = { λ _. ⊤ };

    ghost reads = { λ _. None };

    fn read_piece(&mut self, piece: &mut [u8]) -> Result<usize, Failed> {
        read_some(self, piece)
    }
}
