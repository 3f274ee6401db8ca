//! Comparisons, and lists that grow, proved once for all tests: an `assert_eq!` of a test's own is proved with the
//! text that it would show.

use std::fmt::Debug;
use std::process::Abort;

/// Asserts that what was found is what is wanted.
pub fn same<T: PartialEq + Debug + Drop>(rt: &impl Abort, found: T, want: T) {
    assert_eq!(rt; found, want);
}

/// Asserts that what was found for a row of a table is what is wanted; the message shows the row.
pub fn same_for<T: PartialEq + Debug + Drop>(rt: &impl Abort, row: &impl Debug, found: T, want: T) {
    assert_eq!(rt; found, want, "for {row:?}");
}

/// Adds an item to a list.
pub fn push<T>(rt: &impl Abort, items: &mut Vec<T>, item: T) {
    items.push(item).expect(rt, "memory for an item");
}
