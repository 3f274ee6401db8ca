//! Want of memory.

use nv_base::Fault;
use std::alloc::Global;

/// Whether a fault is want of memory.
pub fn wants_memory(fault: Fault) -> bool {
    matches!(fault, Fault::OutOfMemory(_))
}

/// The fault of a growth that was refused: no memory has room for so many numbers. None where it was granted.
pub fn want_of_memory(alloc: Global) -> Option<Fault> {
    let mut numbers: Vec<u64> = Vec::new(alloc);
    match numbers.reserve(usize::MAX) {
        Ok(()) => None,
        Err(error) => Some(Fault::from(error)),
    }
}
