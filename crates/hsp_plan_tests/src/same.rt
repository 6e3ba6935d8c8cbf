// What was returned, compared with what was wanted. It stands in a function of its own, since a test that compares many
// values in place is expensive to prove.

use std::fmt::Debug;
use std::process::Abort;

/// Fails a test unless what was returned is what was wanted.
pub fn is_same<T: PartialEq + Debug + Drop>(rt: &impl Abort, found: T, wanted: T) {
    assert_eq!(rt; found, wanted);
}
