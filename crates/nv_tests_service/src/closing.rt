//! Seats are given out once, and a service closes with all of them alone. After a refusal it goes on.

use crate::calls::told;
use crate::compare::{holds_for, same, same_for};
use crate::reports::have_same_trees;
use crate::runner::{Work, seated, serve};
use crate::words::call;
use crate::worlds::{SMALL, prepared};
use Words::{Create, Write};
use nv_base::{Fault, GeometryField};
use nv_core::{Event, Reply, World};
use nv_scenes_calls::words::{At, Want, Words, is_wanted};
use nv_service::{Blocks, Commits, Service, Session};
use std::alloc::Global;
use std::process::Abort;
use std::sync::Wait;
use std::thread::Threads;

const ROOT: At = (0, 1);

const ONE: At = (1, 1);

/// So many seats, and why they are refused.
const REFUSED: [(u64, Fault); 3] = [
    (0, Fault::BadGeometry(GeometryField::Seats)),
    (65, Fault::BadGeometry(GeometryField::Seats)),
    (u64::MAX, Fault::BadGeometry(GeometryField::Seats)),
];

/// The same after seats were given out.
const GIVEN: [u64; 4] = [0, 1, 64, 65];

fn refuses_seats<C: Commits, B: Blocks>(
    rt: &impl Abort,
    alloc: Global,
    service: &mut Service<C, B>,
    count: u64,
    fault: Fault,
) {
    same_for(rt, &count, service.seats(alloc, count).err(), Some(fault));
}

/// A close with sessions that are too few, and what comes back.
fn stays_open<C: Commits, B: Blocks, R: Wait + Abort>(
    rt: &R,
    alloc: Global,
    service: Service<C, B>,
    sessions: Vec<Session<C, B>>,
) -> (Service<C, B>, Vec<Session<C, B>>) {
    let count = sessions.len();
    match service.close(rt, alloc, sessions) {
        Ok(_) => panic!(rt; "closed with {count} sessions"),
        Err((fault, service, sessions)) => {
            same_for(rt, &count, fault, Fault::SeatsOut);
            same(rt, sessions.len(), count);
            (service, sessions)
        }
    }
}

/// A session writes the file, one byte behind another.
fn writes<C: Commits, B: Blocks, R: Wait + Abort>(
    rt: &R,
    alloc: Global,
    service: &Service<C, B>,
    session: &mut Session<C, B>,
    place: u64,
) {
    let write = call(rt, alloc, &Write(ONE, place, b"z"));
    let told = told(rt, service, session, write);
    holds_for(rt, &place, is_wanted(&told, &Want::Count(1)));
}

/// Closes with fewer sessions than were given out: with all but one, again and again, and with none.
#[derive(Drop)]
struct Closing;

impl Work for Closing {
    fn work<C: Commits + Send + Sync, B: Blocks + Send + Sync, R: Threads + Wait + Abort + Sync>(
        &mut self,
        rt: &R,
        alloc: Global,
        service: Service<C, B>,
    ) -> (Service<C, B>, Vec<Session<C, B>>) {
        let mut service = service;
        for (count, fault) in REFUSED {
            refuses_seats(rt, alloc, &mut service, count, fault);
        }
        let mut left = seated(rt, alloc, &mut service, 3);
        for count in GIVEN {
            refuses_seats(rt, alloc, &mut service, count, Fault::SeatsOut);
        }
        let mut kept = Vec::new(alloc);
        for place in 0..3 {
            let mut session = left.pop().expect(rt, "a session");
            (service, left) = stays_open(rt, alloc, service, left);
            writes(rt, alloc, &service, &mut session, place);
            kept.push(session).expect(rt, "memory for a session");
        }
        (service, kept)
    }
}

/// The same calls by one actor.
const ALONE: &[Words] = &[
    Create(ROOT, b"a"),
    Write(ONE, 0, b"z"),
    Write(ONE, 1, b"z"),
    Write(ONE, 2, b"z"),
];

/// A service with a session fewer does not close, and goes on: no clause says that what comes back is its own.
#[test]
fn a_service_closes_with_all_its_sessions(rt: HostRuntime) {
    let world = prepared(&rt, rt.alloc(), SMALL, &[Create(ROOT, b"a")]);
    let world = serve(&rt, rt.alloc(), world, &mut Closing);
    let twin = prepared(&rt, rt.alloc(), SMALL, ALONE);
    have_same_trees(&rt, rt.alloc(), &world, &twin);
}

/// A world in which an actor has begun a call.
pub fn busy_world(rt: &impl Abort, alloc: Global) -> World {
    let mut world = prepared(rt, alloc, SMALL, &[Create(ROOT, b"a")]);
    let started = world.step(Event::Start(1, call(rt, alloc, &Write(ONE, 0, b"z"))));
    holds_for(rt, &"started", matches!(started, Reply::Started));
    world
}
