/// Why octets are not a handle. Of several reasons, the first in this order is reported.
#[derive(Clone, Copy, Debug, PartialEq, Eq)]
pub enum HandleFault {
    /// More than 4,096 octets.
    TooLong,
    /// Not UTF-8.
    NotUtf8,
    /// No `/` ends a naming authority.
    NoSlash,
    /// A segment of the naming authority is empty.
    EmptySegment,
}
