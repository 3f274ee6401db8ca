//! Each session of a `serve` acts once. The world comes back where one of them ends by a fault, and where none may begin.

use crate::closing::busy_world;
use crate::compare::same;
use crate::reports::have_same_trees;
use crate::worlds::{SMALL, prepared};
use nv_base::{Fault, GeometryField};
use nv_calls::Call;
use nv_core::World;
use nv_scenes::handle;
use nv_scenes_calls::words::{At, Words};
use nv_service::{Acts, Calls, serve};
use std::process::Abort;
use std::sync::atomic::{AtomicU64, Ordering};

const ROOT: At = (0, 1);

const MADE: &[Words] = &[Words::Create(ROOT, b"a")];

/// The session of each seat asks for the node of its number: the root, the file, and one that is not there.
#[derive(Drop)]
struct Asking {
    /// How often the first session acted, ten times how often the second did, and a hundred times how often others did.
    acted: AtomicU64,
}

impl Acts for Asking {
    fn act<S: Calls>(&self, seat: u64, calls: &mut S) -> Result<(), Fault> {
        let weight = match seat {
            0 => 1,
            1 => 10,
            _ => 100,
        };
        self.acted.fetch_add(weight, Ordering::SeqCst);
        calls.call(Call::Stat {
            handle: handle(seat),
        })?;
        Ok(())
    }
}

/// The world that came back beside this fault.
fn back(rt: &impl Abort, served: Result<World, (Fault, Option<World>)>, want: Fault) -> World {
    match served {
        Err((fault, Some(world))) => {
            same(rt, fault, want);
            world
        }
        _ => panic!(rt; "not refused, or no world came back"),
    }
}

/// Each session of a `serve` acts once, and a fault is told where one ended by it: no clause says so.
#[test]
fn a_session_ends_by_a_fault(rt: HostRuntime) {
    let alloc = rt.alloc();
    let asking = Asking {
        acted: AtomicU64::new(0),
    };
    let world = prepared(&rt, alloc, SMALL, MADE);
    let world = back(&rt, serve(&rt, alloc, world, 3, &asking), Fault::Stale);
    same(&rt, asking.acted.load(Ordering::SeqCst), 111);
    let served = serve(&rt, alloc, world, 2, &asking);
    same(&rt, asking.acted.load(Ordering::SeqCst), 122);
    let Ok(world) = served else {
        panic!(rt; "two sessions end well");
    };
    let twin = prepared(&rt, alloc, SMALL, MADE);
    have_same_trees(&rt, alloc, &world, &twin);
}

/// Where no session begins, none acts, and the world comes back: no clause says so.
#[test]
fn no_session_begins(rt: HostRuntime) {
    let alloc = rt.alloc();
    let asking = Asking {
        acted: AtomicU64::new(0),
    };
    let world = busy_world(&rt, alloc);
    let mut world = back(&rt, serve(&rt, alloc, world, 2, &asking), Fault::ActorBusy);
    same(&rt, world.finish(1).is_ok(), true);
    for count in [0, 65] {
        let served = serve(&rt, alloc, world, count, &asking);
        world = back(&rt, served, Fault::BadGeometry(GeometryField::Seats));
    }
    same(&rt, asking.acted.load(Ordering::SeqCst), 0);
    let served = serve(&rt, alloc, world, 2, &asking);
    same(&rt, served.is_ok(), true);
}
