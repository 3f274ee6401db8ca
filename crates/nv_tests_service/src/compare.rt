//! Comparisons, proved once for all tests: an `assert_eq!` of a test's own is proved with the text that it would show.
//!
//! What takes memory is asked for once more where a growth is refused, so that the runner may refuse one.

use nv_base::Fault;
use nv_scenes::wants_memory;
use std::alloc::Global;
use std::fmt::Debug;
use std::process::Abort;

/// Asserts that what was found is what is wanted.
pub fn same<T: PartialEq + Debug + Drop>(rt: &impl Abort, found: T, want: T) {
    assert_eq!(rt; found, want);
}

/// The same for a row of a table, which the message shows.
pub fn same_for<T: PartialEq + Debug + Drop>(rt: &impl Abort, row: &impl Debug, found: T, want: T) {
    assert_eq!(rt; found, want, "for {row:?}");
}

/// Asserts that what was found shows as what is wanted does: for what cannot be compared.
pub fn same_shown<T: Debug>(rt: &impl Abort, alloc: Global, row: &impl Debug, found: &T, want: &T) {
    let found = shown(rt, alloc, found);
    same_for(rt, row, found, shown(rt, alloc, want));
}

fn shown<T: Debug>(rt: &impl Abort, alloc: Global, value: &T) -> String {
    match format!(in alloc; "{value:?}") {
        Ok(text) => text,
        Err(_) => format!(in alloc; "{value:?}").expect(rt, "memory for a text"),
    }
}

/// Asserts what is to hold of a row of a table.
pub fn holds_for(rt: &impl Abort, row: &impl Debug, holds: bool) {
    assert!(rt; holds, "for {row:?}");
}

/// Asserts that a fault is want of memory.
pub fn refused_memory(rt: &impl Abort, fault: Fault) {
    assert!(rt; wants_memory(fault), "{fault}");
}
