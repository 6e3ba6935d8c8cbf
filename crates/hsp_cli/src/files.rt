// The files that a command names.

ghost use Rattle.std.specs.Prelude.{⊤, IfErr, IfOk};
ghost use Rattle.hsp_cli.specs.Failing.{IsUnread};
ghost use Rattle.hsp_cli.specs.Files.{Disk, HoldsRest, MayRead};

use crate::failure::Unread;
use hsp_cli_orders::Word;
use hsp_talk::Source;
use hsp_text::read_file;
use std::alloc::Global;
use std::io::Read;
use std::rt::Files;
use std::{fs, io};

/// A file that was opened: its octets, read from the first on.
pub trait OpenFile: Source + Drop {
    /// Whether it may fail to be read whole: a read fails, or there are too many octets.
    ghost may_fail: { Self → Type 0 };

    /// Every octet.
    fn read_rest(self, alloc: Global) -> Result<Vec<u8>, Unread>
        ensures octets { IfOk result (λ octets. MayRead (Self.remaining self) octets.items) }
        ensures unread { IfErr result (IsUnread (may_fail self)) };
}

/// Every reader, of which no contract can say whether its reads fail.
impl<R: Read + Drop> OpenFile for R {
    ghost may_fail = { λ _. ⊤ };

    fn read_rest(self, alloc: Global) -> Result<Vec<u8>, Unread> {
        match read_file(alloc, self)? {
            Some(octets) => Ok(octets),
            None => Err(Unread::Read),
        }
    }
}

/// Files by their paths.
pub trait FileSource {
    type File: OpenFile;

    /// What the files hold, and which of them may fail to be read.
    ghost disk: { Self → Disk };

    /// The file at this path, to be read.
    fn open(&self, path: &Word<'_>) -> Result<Self::File, Unread>
        ensures held { IfOk result
            (λ file. HoldsRest (disk self.now) path.now (Self.File.remaining file)) }
        ensures stops { IfOk result
            (λ file. Self.File.may_fail file → (disk self.now).fails path.now) }
        ensures reads { IfOk result
            (λ file. Self.File.may_read_fail file → (disk self.now).fails path.now) }
        ensures unopened { IfErr result (IsUnread ((disk self.now).fails path.now)) };
}

/// The files of the machine, of which no contract can say what they hold.
impl<R: Files + AllocGlobal> FileSource for R {
    type File = R::File;

    ghost disk = { λ _. record { holds = λ _ _. ⊤; fails = λ _. ⊤ } };

    fn open(&self, path: &Word<'_>) -> Result<R::File, Unread> {
        match fs::open(self, path.as_str()) {
            Ok(file) => Ok(file),
            Err(error) if error.kind() == io::ErrorKind::OutOfMemory => Err(Unread::Memory),
            Err(_) => Err(Unread::Read),
        }
    }
}

/// Every octet of the file at this path.
///
/// # Errors
///
/// `Read` where the file can't be opened or read whole, or has too many octets; `Memory` where memory runs out.
pub fn read_path<S: FileSource>(
    alloc: Global,
    files: &S,
    path: &Word<'_>,
) -> Result<Vec<u8>, Unread>
    ensures octets { IfOk result (λ octets. (S.disk files.now).holds path.now octets.items) }
    ensures unread { IfErr result (IsUnread ((S.disk files.now).fails path.now)) }
{
    files.open(path)?.read_rest(alloc)
}
