//! A service is opened on a world, worked with and closed. No test needs to know what its ledgers are named.

ghost use Rattle.std.specs.Prelude.{◌≡◌, length};
ghost use Rattle.nv_service.specs.Names.{AreBlockNames, AreCommitNames, AreSnapshotNames, block_parts};
ghost use Rattle.nv_service.specs.Opened.{versions_in};

use crate::compare::refused_memory;
use nv_core::World;
use nv_service::{Blocks, Commits, Ledgers, Service, Session};
use std::alloc::Global;
use std::marker::Brand;
use std::process::Abort;
use std::sync::Wait;
use std::thread::Threads;

/// What is done with a service.
pub trait Work {
    /// Works with a service that has given no session yet, and hands it back with the sessions that it gave.
    fn work<C: Commits + Send + Sync, B: Blocks + Send + Sync, R: Threads + Wait + Abort + Sync>(
        &mut self,
        rt: &R,
        alloc: Global,
        service: Service<C, B>,
    ) -> (Service<C, B>, Vec<Session<C, B>>);
}

/// Opens a service on a world, works with it, and closes it.
pub fn serve<W: Work, R: Threads + Wait + Abort + Sync>(
    rt: &R,
    alloc: Global,
    world: World,
    work: &mut W,
) -> World {
    let ledgers = new_ledgers(rt, alloc, &world);
    run::<Brand, Brand, W, R>(rt, alloc, world, ledgers, work)
}

/// Names for a service on a world.
pub fn new_ledgers(rt: &impl Abort, alloc: Global, world: &World) -> Ledgers
    ensures { result.blocks.parts ≡ block_parts world.now.shared.geometry.numbers }
{
    let device = world.geometry();
    match Ledgers::new(alloc, device) {
        Ok(ledgers) => return ledgers,
        Err(fault) => refused_memory(rt, fault),
    }
    Ledgers::new(alloc, device).expect(rt, "memory for ledgers")
}

/// The same under names of their own for both ledgers.
fn run<
    C: Commits + Send + Sync,
    B: Blocks + Send + Sync,
    W: Work,
    R: Threads + Wait + Abort + Sync,
>(rt: &R, alloc: Global, world: World, ledgers: Ledgers, work: &mut W) -> World
    requires commits { AreCommitNames ledgers C.name C.parts C.whole C.table }
    requires snapshots { AreSnapshotNames ledgers C.snap_name C.snap_parts }
    requires blocks { AreBlockNames ledgers B.name B.parts B.whole B.placed
        world.shared.geometry.numbers }
    requires stood { (C.commit ≡ world.shared.book.state.commit)
        × (C.epoch ≡ world.shared.book.state.snaps.epoch)
        × (C.living ≡ length world.shared.book.state.snaps.living)
        × (C.opened ≡ versions_in world.shared.cells.items) }
{
    let service = opened::<C, B>(rt, alloc, world, ledgers);
    let (service, sessions) = work.work(rt, alloc, service);
    closed(rt, alloc, service, sessions)
}

/// Opens a service, once more where a growth is refused.
pub fn opened<C: Commits, B: Blocks>(
    rt: &impl Abort,
    alloc: Global,
    world: World,
    ledgers: Ledgers,
) -> Service<C, B>
    requires commits { AreCommitNames ledgers C.name C.parts C.whole C.table }
    requires snapshots { AreSnapshotNames ledgers C.snap_name C.snap_parts }
    requires blocks { AreBlockNames ledgers B.name B.parts B.whole B.placed
        world.shared.geometry.numbers }
    requires stood { (C.commit ≡ world.shared.book.state.commit)
        × (C.epoch ≡ world.shared.book.state.snaps.epoch)
        × (C.living ≡ length world.shared.book.state.snaps.living)
        × (C.opened ≡ versions_in world.shared.cells.items) }
{
    let (world, ledgers) = match Service::open(alloc, world, ledgers) {
        Ok(service) => return service,
        Err((fault, world, ledgers)) => {
            refused_memory(rt, fault);
            (world, ledgers)
        }
    };
    match Service::open(alloc, world, ledgers) {
        Ok(service) => service,
        Err((fault, _, _)) => panic!(rt; "no service: {fault}"),
    }
}

/// Closes a service, once more where a growth is refused.
pub fn closed<C: Commits, B: Blocks, R: Wait + Abort>(
    rt: &R,
    alloc: Global,
    service: Service<C, B>,
    sessions: Vec<Session<C, B>>,
) -> World {
    let (service, sessions) = match service.close(rt, alloc, sessions) {
        Ok(world) => return world,
        Err((fault, service, sessions)) => {
            refused_memory(rt, fault);
            (service, sessions)
        }
    };
    match service.close(rt, alloc, sessions) {
        Ok(world) => world,
        Err((fault, _, _)) => panic!(rt; "not closed: {fault}"),
    }
}

/// So many sessions of a service that gave none yet. They are asked for once more where a growth is refused.
pub fn seated<C: Commits, B: Blocks>(
    rt: &impl Abort,
    alloc: Global,
    service: &mut Service<C, B>,
    count: u64,
) -> Vec<Session<C, B>> {
    match service.seats(alloc, count) {
        Ok(sessions) => sessions,
        Err(fault) => {
            refused_memory(rt, fault);
            match service.seats(alloc, count) {
                Ok(sessions) => sessions,
                Err(fault) => panic!(rt; "no sessions: {fault}"),
            }
        }
    }
}
