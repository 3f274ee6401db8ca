//! Comparisons, proved once for all tests: an `assert_eq!` of a test's own is proved with the text that it would show.

use std::fmt::Debug;
use std::process::Abort;

/// Asserts that what was found is what is wanted.
pub fn same<T: PartialEq + Debug + Drop>(rt: &impl Abort, found: T, want: T) {
    assert_eq!(rt; found, want);
}

/// The same for a row of a table, which the message shows.
pub fn same_for<T: PartialEq + Debug + Drop>(rt: &impl Abort, row: &impl Debug, found: T, want: T) {
    assert_eq!(rt; found, want, "for {row:?}");
}

/// The same for texts, which the message shows as such.
pub fn same_text(rt: &impl Abort, row: &impl Debug, found: &[u8], want: &[u8]) {
    same_for(rt, row, shown(found), shown(want));
    same_for(rt, row, found == want, true);
}

/// Bytes as a message shows them. All texts here are of letters that it can show.
pub fn shown(text: &[u8]) -> Option<&str> {
    str::from_utf8(text).ok()
}
