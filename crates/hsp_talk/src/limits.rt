// How long rows may be.

/// The greatest length of a row that reaches a responder whole, in octets.
pub const LONGEST_ROW: usize = 1_048_576;
