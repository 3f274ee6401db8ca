//! Scripts that threads play: how they end, and what they write.

use nv_base::Fault;
use nv_work::{Gate, work};
use std::alloc::Global;
use std::process::Abort;
use std::sync::Wait;
use std::thread::Threads;

/// How a script ends in so many threads, and what it writes.
pub fn played<G: Gate + Sync, R: Threads + Wait + Abort + Sync>(
    rt: &R,
    alloc: Global,
    script: &[u8],
    threads: u64,
    cleaners: u64,
    gate: &G,
) -> (Result<(), Fault>, Vec<u8>) {
    assert!(rt; 1 <= threads && threads <= 32 && cleaners <= 32);
    let mut reader = script;
    let mut written = Vec::new(alloc);
    let outcome = work(
        rt,
        alloc,
        &mut reader,
        &mut written,
        threads,
        cleaners,
        gate,
    );
    (outcome, written)
}
