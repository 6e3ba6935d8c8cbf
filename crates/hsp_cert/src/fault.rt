// Why a text is not a certificate.

/// The first fault in a text. Lines are numbered from 1.
#[derive(Clone, Copy, Debug, PartialEq, Eq)]
pub enum CertFault {
    /// The first line that can't stand in its place.
    BadLine { line: u64 },
    /// The text ends before the line `END` and its LF.
    Ended,
    /// Something follows `END`. The line is the one after `END`.
    AfterEnd { line: u64 },
    /// Memory ran out.
    OutOfMemory,
}
