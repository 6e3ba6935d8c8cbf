// Why no further record was read.

/// Why a reader gave no further record.
#[derive(Clone, Copy, Debug, PartialEq, Eq)]
pub enum RecordsFault {
    /// A read of the text failed.
    ReadFailed,
    /// Memory ran out.
    OutOfMemory,
}
