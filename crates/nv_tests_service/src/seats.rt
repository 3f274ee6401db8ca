//! The history of a world in which sessions made calls names the seat of each.

use crate::calls::told;
use crate::compare::{holds_for, same, same_for};
use crate::runner::{Work, seated, serve};
use crate::words::call;
use crate::worlds::{SMALL, prepared};
use Words::{Create, Mode, Snap, Write};
use nv_base::{CommitNo, Epoch};
use nv_book::Event;
use nv_core::World;
use nv_scenes::wants_memory;
use nv_scenes_calls::words::{At, Want, Words, is_wanted};
use nv_service::{Blocks, Commits, Service, Session};
use std::alloc::Global;
use std::process::Abort;
use std::sync::Wait;
use std::thread::Threads;

const ROOT: At = (0, 1);

const ONE: At = (1, 1);

/// What is made before, by the first actor.
const BEFORE: &[Words] = &[Create(ROOT, b"a")];

/// The seats, of which there are more than CPUs.
const SEATS: u64 = 4;

/// Which seat makes a call, and its answer.
const CALLS: [(usize, Words, Want); 6] = [
    (3, Write(ONE, 0, b"a"), Want::Count(1)),
    (1, Snap, Want::Snapshot(1)),
    (2, Write(ONE, 1, b"b"), Want::Count(1)),
    (0, Words::Drop(1), Want::Nothing),
    (1, Mode(ONE, 7), Want::Nothing),
    (3, Create(ROOT, b"c"), Want::Made((2, 1))),
];

fn committed(seat: u64, number: u64, epoch: u64) -> Event {
    Event::Committed {
        seat,
        number: CommitNo::new(number),
        epoch: Epoch::new(epoch),
    }
}

/// The session of a seat makes a call, once more where it is refused memory.
fn makes<C: Commits, B: Blocks, R: Wait + Abort>(
    rt: &R,
    alloc: Global,
    service: &Service<C, B>,
    session: &mut Session<C, B>,
    (seat, words, want): &(usize, Words, Want),
) {
    let mut found = told(rt, service, session, call(rt, alloc, words));
    if matches!(found, Err(fault) if wants_memory(fault)) {
        found = told(rt, service, session, call(rt, alloc, words));
    }
    holds_for(rt, seat, is_wanted(&found, want));
}

#[derive(Drop)]
struct InTurn;

impl Work for InTurn {
    fn work<C: Commits + Send + Sync, B: Blocks + Send + Sync, R: Threads + Wait + Abort + Sync>(
        &mut self,
        rt: &R,
        alloc: Global,
        service: Service<C, B>,
    ) -> (Service<C, B>, Vec<Session<C, B>>) {
        let mut service = service;
        let mut sessions = seated(rt, alloc, &mut service, SEATS);
        for row in &CALLS {
            let session = sessions.get_mut(row.0).expect(rt, "a session");
            makes(rt, alloc, &service, session, row);
        }
        (service, sessions)
    }
}

/// The events of a world, oldest first.
fn has_history(rt: &impl Abort, world: World, want: &[Event]) {
    let Ok(parts) = world.into_parts() else {
        panic!(rt; "a world at rest");
    };
    let history = parts.book.history();
    same(rt, history.len(), want.len());
    for place in 0..want.len() {
        same_for(rt, &place, history.event(place), Some(want[place]));
    }
}

/// The history names the seat of each session: no clause says so.
#[test]
fn the_history_has_the_seats(rt: HostRuntime) {
    let world = prepared(&rt, rt.alloc(), SMALL, BEFORE);
    let world = serve(&rt, rt.alloc(), world, &mut InTurn);
    let want = [
        committed(0, 1, 1),
        committed(3, 2, 1),
        Event::Made(Epoch::new(1)),
        committed(2, 3, 2),
        Event::Dropped(Epoch::new(1)),
        committed(1, 4, 2),
        committed(3, 5, 2),
    ];
    has_history(&rt, world, &want);
}
