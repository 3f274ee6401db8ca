//! Scripts that no threads play, and what they write before they end.

use crate::compare::{holds_for, same_for};
use crate::played::played;
use nv_base::{Fault, ScriptFaultKind};
use nv_work::OpenGate;

/// A script, how it ends, and what it writes.
type Row = (&'static [u8], Fault, &'static [u8]);

/// No `fork`, or one where no world is made.
const NO_FORK: &[Row] = &[
    (b"", Fault::ScriptFault(ScriptFaultKind::Order, 0), b""),
    (
        b"fork\n",
        Fault::ScriptFault(ScriptFaultKind::Order, 1),
        b"",
    ),
    (
        b"format blocks=16 cpus=2 block=4 page=4 inodes=8 snaps=4 actors=3\n",
        Fault::ScriptFault(ScriptFaultKind::Order, 1),
        b"formatted\n",
    ),
    (
        b"format blocks=16 cpus=2 block=4 page=4 inodes=8 snaps=4 actors=3\n\
          tree\n\
          # no fork\n\
          \n",
        Fault::ScriptFault(ScriptFaultKind::Order, 4),
        b"formatted\n/ d 493\nend\n",
    ),
    (
        b"\n# no world\nfork\n",
        Fault::ScriptFault(ScriptFaultKind::Order, 3),
        b"",
    ),
    (
        b"fork now\n",
        Fault::ScriptFault(ScriptFaultKind::Order, 1),
        b"",
    ),
    (
        b"format blocks=1 cpus=1 block=4 page=4 inodes=8 snaps=4 actors=3\nfork\n",
        Fault::ScriptFault(ScriptFaultKind::Order, 2),
        b"refused E2 BadGeometry(blocks)\n",
    ),
];

/// Faults of lines before `fork`, and of that line.
const BEFORE: &[Row] = &[
    (
        b"format blocks=16 cpus=2 block=4 page=4 inodes=8 snaps=4 actors=3\n\
          fork now\n",
        Fault::ScriptFault(ScriptFaultKind::Count, 2),
        b"formatted\n",
    ),
    (
        b"format blocks=16 cpus=2 block=4 page=4 inodes=8 snaps=4 actors=3\n\
          fork \n",
        Fault::ScriptFault(ScriptFaultKind::Count, 2),
        b"formatted\n",
    ),
    (
        b"format blocks=16 cpus=2 block=4 page=4 inodes=8 snaps=4 actors=3\n\
          forks\n\
          fork\n",
        Fault::ScriptFault(ScriptFaultKind::Word, 2),
        b"formatted\n",
    ),
    (
        b"format blocks=16 cpus=2 block=4 page=4 inodes=8 snaps=4 actors=3\n\
          fork",
        Fault::ScriptFault(ScriptFaultKind::Unended, 2),
        b"formatted\n",
    ),
];

/// Faults of lines behind `fork`. All are read before a thread starts, so that no call behind `fork` is made, and those
/// before it are answered.
const BEHIND: &[Row] = &[
    (
        b"format blocks=16 cpus=2 block=4 page=4 inodes=8 snaps=4 actors=3\n\
          do 0 create 0.1 a 420\n\
          fork\n\
          do 0 create 0.1 b 420\n\
          fork\n",
        Fault::ScriptFault(ScriptFaultKind::Word, 5),
        b"formatted\ndone 1.1\n",
    ),
    (
        b"format blocks=16 cpus=2 block=4 page=4 inodes=8 snaps=4 actors=3\n\
          fork\n\
          start 0 snap\n",
        Fault::ScriptFault(ScriptFaultKind::Word, 3),
        b"formatted\n",
    ),
    (
        b"format blocks=16 cpus=2 block=4 page=4 inodes=8 snaps=4 actors=3\n\
          fork\n\
          tree\n",
        Fault::ScriptFault(ScriptFaultKind::Word, 3),
        b"formatted\n",
    ),
    (
        b"format blocks=16 cpus=2 block=4 page=4 inodes=8 snaps=4 actors=3\n\
          fork\n\
          # a second world\n\
          format blocks=16 cpus=2 block=4 page=4 inodes=8 snaps=4 actors=3\n",
        Fault::ScriptFault(ScriptFaultKind::Word, 4),
        b"formatted\n",
    ),
    (
        b"format blocks=16 cpus=2 block=4 page=4 inodes=8 snaps=4 actors=3\n\
          fork\n\
          do 0 create 0.1 a\n",
        Fault::ScriptFault(ScriptFaultKind::Count, 3),
        b"formatted\n",
    ),
    (
        b"format blocks=16 cpus=2 block=4 page=4 inodes=8 snaps=4 actors=3\n\
          fork\n\
          do 0 snap\n\
          do 0 make\n",
        Fault::ScriptFault(ScriptFaultKind::Word, 4),
        b"formatted\n",
    ),
    (
        b"format blocks=16 cpus=2 block=4 page=4 inodes=8 snaps=4 actors=3\n\
          fork\n\
          do 0 snap",
        Fault::ScriptFault(ScriptFaultKind::Unended, 3),
        b"formatted\n",
    ),
];

/// An actor has a call at `fork`: a fault of a line behind it comes first.
const BUSY: &[Row] = &[
    (
        b"format blocks=16 cpus=2 block=4 page=4 inodes=8 snaps=4 actors=3\n\
          start 1 create 0.1 a 420\n\
          go 1\n\
          fork\n\
          do 0 snap\n",
        Fault::ActorBusy,
        b"formatted\nstarted\nmoved\n",
    ),
    (
        b"format blocks=16 cpus=2 block=4 page=4 inodes=8 snaps=4 actors=3\n\
          start 1 create 0.1 a 420\n\
          fork\n\
          run 1\n",
        Fault::ScriptFault(ScriptFaultKind::Word, 4),
        b"formatted\nstarted\n",
    ),
];

/// Scripts that no threads play end by the fault and behind the text that were worked out by hand.
#[test]
fn scripts_that_no_threads_play(rt: HostRuntime) {
    for rows in [NO_FORK, BEFORE, BEHIND, BUSY] {
        for (script, fault, want) in rows {
            let (outcome, text) = played(&rt, rt.alloc(), script, 2, 1, &OpenGate);
            same_for(&rt, script, outcome, Err(*fault));
            holds_for(&rt, script, text.as_slice() == *want);
        }
    }
}
