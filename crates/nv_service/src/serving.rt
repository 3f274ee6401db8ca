//! A service on a world, and a thread for each session.

ghost use Rattle.std.specs.Prelude.{◌≡◌, ◌≤◌, IfErr, IfNone, IfOk, IfSome, OnOk, length};
ghost use Rattle.nv_base.specs.declared.limits.TheConstants.{ACTORS};
ghost use Rattle.nv_core.specs.AtRest.{IsBusy};
ghost use Rattle.nv_core.specs.Worlds.{Shows};
ghost use Rattle.nv_machine.specs.World as machine;
ghost use Rattle.nv_sessions.specs.Names.{AreBlockNames, AreCommitNames, AreSnapshotNames};
ghost use Rattle.nv_sessions.specs.Opened.{versions_in};
ghost use Rattle.nv_service.specs.Left.{IsLeftOf, LosesWorld};

use crate::service::Service;
use nv_base::Fault;
use nv_core::World;
use nv_sessions::{Blocks, Calls, Commits, Ledgers, LockedParts, Seated, Session};
use std::alloc::Global;
use std::marker::Brand;
use std::sync::{Mutex, Wait};
use std::thread;
use std::thread::Threads;

/// What each session does. It is shared by all threads.
pub trait Acts {
    /// What the session of a seat does, beside the others, up to its end or its first refusal. Seats are numbered from 0.
    fn act<S: Calls>(&self, seat: u64, calls: &mut S) -> Result<(), Fault>;
}

/// Opens a service on a world, lets so many sessions act, each in a thread of its own, and closes it.
///
/// It gives the world where each session came to its end. Else it gives a fault, and the world unless the service did not
/// close. The fault is that of the closing, or one by which a session ended. Where no session acted it is `OutOfMemory`,
/// `ActorBusy` where an actor has a call, or `BadGeometry` where there are no sessions or more than 64.
///
/// Where no thread can be made, the caller's thread acts for those sessions, one after another.
/// Only tested: each session acts once, in a thread of its own where one can be made.
/// Only tested: a fault is told where a session ended by one.
/// Only tested: no service fails to close.
pub fn serve<A: Acts + Sync, R: Threads + Wait + Sync>(
    rt: &R,
    alloc: Global,
    world: World,
    sessions: u64,
    acts: &A,
) -> Result<World, (Fault, Option<World>)>
    // The world has the device of the first and no fewer commits.
    ensures left { IfOk result (IsLeftOf world) }
    // So has the world that comes back beside a fault.
    ensures back { IfErr result (λ ended. IfSome ended.1 (IsLeftOf world)) }
    // None comes back only by a fault of `close`.
    ensures lost { IfErr result (λ ended. IfNone ended.1 (LosesWorld ended.0)) }
    // It ends well only where no actor had a call.
    ensures idle { (m : machine.World) → Shows world m → OnOk result (¬ IsBusy m) }
    // It ends well only with 1 to 64 sessions.
    ensures seats { OnOk result ((1 ≤ sessions) × (sessions ≤ ACTORS)) }
{
    let ledgers = match Ledgers::new(alloc, world.geometry()) {
        Ok(ledgers) => ledgers,
        Err(fault) => return Err((fault, Some(world))),
    };
    serve_named::<Brand, Brand, A, R>(rt, alloc, world, ledgers, sessions, acts)
}

/// Serves as [`serve`] does, under names of their own for both ledgers of the service.
fn serve_named<
    C: Commits + Send + Sync,
    B: Blocks + Send + Sync,
    A: Acts + Sync,
    R: Threads + Wait + Sync,
>(
    rt: &R,
    alloc: Global,
    world: World,
    ledgers: Ledgers,
    sessions: u64,
    acts: &A,
) -> Result<World, (Fault, Option<World>)>
    requires commits { AreCommitNames ledgers C.name C.parts C.whole C.table }
    requires snapshots { AreSnapshotNames ledgers C.snap_name C.snap_parts }
    requires blocks { AreBlockNames ledgers B.name B.parts B.whole B.placed
        world.shared.geometry.numbers }
    requires stood { (C.commit ≡ world.shared.book.state.commit)
        × (C.epoch ≡ world.shared.book.state.snaps.epoch)
        × (C.living ≡ length world.shared.book.state.snaps.living)
        × (C.opened ≡ versions_in world.shared.cells.items) }
    ensures left { IfOk result (IsLeftOf world) }
    ensures back { IfErr result (λ ended. IfSome ended.1 (IsLeftOf world)) }
    ensures lost { IfErr result (λ ended. IfNone ended.1 (LosesWorld ended.0)) }
    ensures idle { (m : machine.World) → Shows world m → OnOk result (¬ IsBusy m) }
    ensures seats { OnOk result ((1 ≤ sessions) × (sessions ≤ ACTORS)) }
{
    let mut service = match Service::<C, B>::open(alloc, world, ledgers) {
        Ok(service) => service,
        Err((fault, world, _)) => return Err((fault, Some(world))),
    };
    let (sessions, ended) = act_in_seats(rt, alloc, &mut service, sessions, acts);
    match (service.close(rt, alloc, sessions), ended) {
        (Ok(world), Ok(())) => Ok(world),
        (Ok(world), Err(fault)) => Err((fault, Some(world))),
        (Err((fault, _, _)), _) => Err((fault, None)),
    }
}

/// Takes so many seats, on which sessions act, and gives the sessions back. The fault is one by which a session ended, or that
/// of the taking, where there are no sessions.
fn act_in_seats<
    C: Commits + Send + Sync,
    B: Blocks + Send + Sync,
    A: Acts + Sync,
    R: Threads + Wait + Sync,
>(
    rt: &R,
    alloc: Global,
    service: &mut Service<C, B>,
    count: u64,
    acts: &A,
) -> (Vec<Session<C, B>>, Result<(), Fault>)
    requires once { service.old.seating.given ≡ 0 }
    ensures geometry { service.new.geometry ≡ service.old.geometry }
    ensures seats { OnOk result.1 ((1 ≤ count) × (count ≤ ACTORS)) }
{
    match service.seats(alloc, count) {
        Ok(mut sessions) => {
            let ended = act_all(rt, service, sessions.as_mut_slice(), acts);
            (sessions, ended)
        }
        Err(fault) => (Vec::new(alloc), Err(fault)),
    }
}

/// Each session acts in a thread of its own where one can be made. The fault is that of the session that was refused first.
fn act_all<
    C: Commits + Send + Sync,
    B: Blocks + Send + Sync,
    A: Acts + Sync,
    R: Threads + Wait + Sync,
>(
    rt: &R,
    service: &LockedParts<C, B>,
    sessions: &mut [Session<C, B>],
    acts: &A,
) -> Result<(), Fault> {
    let ended = Mutex::new(Ok(()));
    let threads = sessions.len().max(1);
    thread::for_each_mut(
        rt,
        sessions,
        threads,
        &|place, session| {
            let mut calls = Seated {
                rt,
                service,
                session,
            };
            if let Err(fault) = acts.act(place as u64, &mut calls) {
                *ended.lock(rt) = Err(fault);
            }
        },
    );
    ended.into_inner()
}
