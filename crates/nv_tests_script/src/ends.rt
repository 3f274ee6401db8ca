//! Scripts that end early: a read or a write that fails.

use crate::compare::{same, same_for};
use crate::pieces::{AT_ONCE, play_in_pieces};
use crate::worked::NAMES;
use nv_base::{Fault, ScriptFaultKind};
use std::alloc::Global;
use std::process::Abort;

/// What the lines of a script write that stand whole in its first bytes.
pub fn written_by_front(alloc: Global, front: &[u8]) -> Vec<u8> {
    let whole = front.iter().rposition(|byte| *byte == b'\n');
    let lines = &front[..whole.map_or(0, |last| last + 1)];
    play_in_pieces(alloc, lines, AT_ONCE, AT_ONCE).1
}

/// A writer that fails after so many calls of seven bytes.
fn fails_to_write(rt: &impl Abort, alloc: Global, script: &[u8], calls: usize, want: &[u8]) {
    let (outcome, written) = play_in_pieces(alloc, script, AT_ONCE, (7, calls));
    same_for(rt, &calls, outcome, Err(Fault::Write));
    same_for(rt, &calls, want.starts_with(&written), true);
    same_for(rt, &calls, written.len() >= calls, true);
}

/// A writer that fails at each of its calls ends the worked row of names by `E29`, behind a front of its text.
#[test]
fn failed_writes(rt: HostRuntime) {
    let (script, want) = NAMES;
    for calls in 0..want.len().div_ceil(7) {
        fails_to_write(&rt, rt.alloc(), script.as_bytes(), calls, want.as_bytes());
    }
}

/// A reader that fails behind the line whose fault ends the script is not asked again: no clause counts reads.
#[test]
fn a_fault_asks_for_no_further_line(rt: HostRuntime) {
    let (outcome, _) = play_in_pieces(rt.alloc(), b"jump\n", (5, 1), AT_ONCE);
    same(
        &rt,
        outcome,
        Err(Fault::ScriptFault(ScriptFaultKind::Word, 1)),
    );
}
