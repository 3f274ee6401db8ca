//! Sessions show a snapshot while another drops it: each show has the tree of the snapshot's making, or finds it gone.

use crate::calls::told;
use crate::compare::{holds_for, same_for};
use crate::reports::have_same_trees;
use crate::threads::{Acts, serve_in_threads};
use crate::turns::Line;
use crate::words::call;
use crate::worlds::{SMALL, prepared};
use Words::{Create, Mkdir, Show, Snap, Unlink, Write};
use nv_base::Fault;
use nv_scenes_calls::sources::{TURNS, came};
use nv_scenes_calls::words::{At, Want, Words, is_wanted};
use nv_service::{Blocks, Commits, Service, Session};
use std::alloc::Global;
use std::process::Abort;
use std::sync::Wait;
use std::sync::atomic::{AtomicBool, Ordering};
use std::thread;

const ROOT: At = (0, 1);

const ONE: At = (1, 1);

const TWO: At = (2, 1);

/// What is made before the snapshot, and the snapshot.
const MADE: &[Words] = &[
    Mkdir(ROOT, b"d"),
    Create(ONE, b"a"),
    Write(TWO, 0, b"abcdef"),
    Snap,
];

const SHOWN: Want = Want::Tree(&[(b"", b""), (b"d", b""), (b"a", b"abcdef")]);

/// What is made after it.
const CHANGES: &[Line] = &[
    (Write(TWO, 3, b"DEF"), Want::Count(3)),
    (Create(ROOT, b"b"), Want::Made((3, 1))),
    (Unlink(ONE, b"a"), Want::Nothing),
];

/// How often a session shows the snapshot.
const SHOWS: u64 = 100;

/// Shows the snapshot again and again. Once it is gone, it stays so.
fn keeps_showing<C: Commits, B: Blocks, R: Wait + Abort>(
    rt: &R,
    alloc: Global,
    service: &Service<C, B>,
    session: &mut Session<C, B>,
) {
    let mut is_gone = false;
    for round in 0..SHOWS {
        let told = told(rt, service, session, call(rt, alloc, &Show(1)));
        if is_wanted(&told, &Want::Refused(Fault::NoSnapshot)) {
            is_gone = true;
        } else {
            holds_for(rt, &round, !is_gone && is_wanted(&told, &SHOWN));
        }
    }
}

/// Whether the snapshot was dropped. It is pinned as long as another session shows it.
fn is_dropped<C: Commits, B: Blocks, R: Wait + Abort>(
    rt: &R,
    alloc: Global,
    service: &Service<C, B>,
    session: &mut Session<C, B>,
) -> bool {
    let told = told(rt, service, session, call(rt, alloc, &Words::Drop(1)));
    match told {
        Ok(_) => true,
        Err(fault) => {
            same_for(rt, &"a drop", fault, Fault::Pinned);
            false
        }
    }
}

/// Makes the changes, and then drops the snapshot.
fn changes_and_drops<C: Commits, B: Blocks, R: Wait + Abort>(
    rt: &R,
    alloc: Global,
    service: &Service<C, B>,
    session: &mut Session<C, B>,
) {
    for (words, want) in CHANGES {
        let told = told(rt, service, session, call(rt, alloc, words));
        holds_for(rt, want, is_wanted(&told, want));
    }
    for _turn in 0..TURNS {
        if is_dropped(rt, alloc, service, session) {
            return;
        }
        thread::yield_now();
    }
    panic!(rt; "a snapshot that stays pinned");
}

/// Two sessions show the snapshot, and a third makes changes and drops it.
#[derive(Drop)]
struct Shows;

impl Acts for Shows {
    fn act<C: Commits, B: Blocks, R: Wait + Abort>(
        &self,
        rt: &R,
        alloc: Global,
        service: &Service<C, B>,
        session: &mut Session<C, B>,
        place: usize,
    ) {
        if place < 2 {
            keeps_showing(rt, alloc, service, session);
        } else {
            changes_and_drops(rt, alloc, service, session);
        }
    }
}

/// The same changes, one after another.
const ALONE: &[Words] = &[
    Mkdir(ROOT, b"d"),
    Create(ONE, b"a"),
    Write(TWO, 0, b"abcdef"),
    Snap,
    Write(TWO, 3, b"DEF"),
    Create(ROOT, b"b"),
    Unlink(ONE, b"a"),
    Words::Drop(1),
];

/// Each show has the tree of the making while others write and drop: no clause says that each cell of it is whole.
#[test]
fn show_against_drop(rt: HostRuntime) {
    let world = prepared(&rt, rt.alloc(), SMALL, MADE);
    let world = serve_in_threads(&rt, rt.alloc(), world, 3, &Shows);
    let twin = prepared(&rt, rt.alloc(), SMALL, ALONE);
    have_same_trees(&rt, rt.alloc(), &world, &twin);
}
