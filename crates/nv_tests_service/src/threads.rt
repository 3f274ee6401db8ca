//! A service is opened on a world, several sessions work with it, each in a thread of its own, and it is closed.

ghost use Rattle.std.specs.Prelude.{◌≡◌, length};
ghost use Rattle.nv_service.specs.Names.{AreBlockNames, AreCommitNames, AreSnapshotNames};
ghost use Rattle.nv_service.specs.Opened.{versions_in};

use crate::runner::{closed, new_ledgers, opened, seated};
use nv_core::World;
use nv_service::{Blocks, Commits, Ledgers, Service, Session};
use std::alloc::Global;
use std::marker::Brand;
use std::process::Abort;
use std::sync::Wait;
use std::thread;
use std::thread::Threads;

/// In how many threads at most.
const THREADS: usize = 3;

/// What each session does. It starts no thread: a bound of a method of a trait goes to no other thread.
pub trait Acts {
    /// What the session at a place does, beside the others.
    fn act<C: Commits, B: Blocks, R: Wait + Abort>(
        &self,
        rt: &R,
        alloc: Global,
        service: &Service<C, B>,
        session: &mut Session<C, B>,
        place: usize,
    );
}

/// Opens a service on a world, lets so many sessions act, each in a thread of its own, and closes it.
pub fn serve_in_threads<A: Acts + Sync, R: Threads + Wait + Abort + Sync>(
    rt: &R,
    alloc: Global,
    world: World,
    count: u64,
    acts: &A,
) -> World {
    let ledgers = new_ledgers(rt, alloc, &world);
    run_in_threads::<Brand, Brand, A, R>(rt, alloc, world, ledgers, count, acts)
}

/// The same under names of their own for both ledgers.
fn run_in_threads<
    C: Commits + Send + Sync,
    B: Blocks + Send + Sync,
    A: Acts + Sync,
    R: Threads + Wait + Abort + Sync,
>(rt: &R, alloc: Global, world: World, ledgers: Ledgers, count: u64, acts: &A) -> World
    requires commits { AreCommitNames ledgers C.name C.parts C.whole C.table }
    requires snapshots { AreSnapshotNames ledgers C.snap_name C.snap_parts }
    requires blocks { AreBlockNames ledgers B.name B.parts B.whole B.placed
        world.shared.geometry.numbers }
    requires stood { (C.commit ≡ world.shared.book.state.commit)
        × (C.epoch ≡ world.shared.book.state.snaps.epoch)
        × (C.living ≡ length world.shared.book.state.snaps.living)
        × (C.opened ≡ versions_in world.shared.cells.items) }
{
    let mut service = opened::<C, B>(rt, alloc, world, ledgers);
    let mut sessions = seated(rt, alloc, &mut service, count);
    each_acts(rt, alloc, &service, sessions.as_mut_slice(), acts);
    closed(rt, alloc, service, sessions)
}

/// Each session in a thread of its own where one can be made.
fn each_acts<
    C: Commits + Send + Sync,
    B: Blocks + Send + Sync,
    A: Acts + Sync,
    R: Threads + Wait + Abort + Sync,
>(rt: &R, alloc: Global, service: &Service<C, B>, sessions: &mut [Session<C, B>], acts: &A) {
    thread::for_each_mut(
        rt,
        sessions,
        THREADS,
        &|i, session| acts.act(rt, alloc, service, session, i),
    );
}
