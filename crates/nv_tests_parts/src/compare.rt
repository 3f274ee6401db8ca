//! Comparisons, proved once for all tests: an `assert_eq!` of a test's own is proved with the text that it would show.

use std::fmt::Debug;
use std::process::Abort;

/// Asserts that what was found is what is wanted.
pub fn same<T: PartialEq + Debug + Drop>(rt: &impl Abort, found: T, want: T) {
    assert_eq!(rt; found, want);
}

/// The same for a row of a table, which the message shows.
pub fn same_for<T: PartialEq + Debug + Drop>(rt: &impl Abort, row: &impl Debug, found: T, want: T) {
    assert_eq!(rt; found, want, "for {row:?}");
}
