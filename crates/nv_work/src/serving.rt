//! A service on a world, for the threads of a script.

ghost use Rattle.std.specs.Prelude.{◌≡◌, ◌+◌, ◌++◌, ◌≤◌, IfErr, IfOk, OnOk, length, map, vec_len};
ghost use Rattle.std.specs.List.{enumerate_from, range_with_len};
ghost use Rattle.nv_base.specs.Memory.{out_of_memory};
ghost use Rattle.nv_base.specs.Refusals.{FailsOnly};
ghost use Rattle.nv_core.specs.AtRest.{IsBusy};
ghost use Rattle.nv_core.specs.Worlds.{Shows};
ghost use Rattle.nv_machine.specs.World as machine;
ghost use Rattle.nv_service.specs.Names.{AreBlockNames, AreCommitNames, AreSnapshotNames};
ghost use Rattle.nv_service.specs.Opened.{versions_in};
ghost use Rattle.nv_work.specs.Taken.{lists_of};
ghost use Rattle.nv_work.specs.Threads.{AreThreadTexts};
ghost use Rattle.nv_work.specs.Working.{ClosesAfter, RefusesThreads};

use crate::crew::{Crew, run_beside};
use crate::forked::ForkedLines;
use crate::gate::Gate;
use nv_base::Fault;
use nv_core::World;
use nv_service::{Blocks, Commits, Ledgers, Service};
use std::alloc::Global;
use std::marker::Brand;
use std::sync::Wait;
use std::thread::Threads;

/// Plays lines in threads on a world, beside so many cleaners: the world after them, and the text of each thread.
/// `ActorBusy` where an actor has a call; `OutOfMemory` where a growth was refused.
pub(crate) fn play_in_threads<G: Gate + Sync, R: Threads + Wait + Sync>(
    rt: &R,
    alloc: Global,
    world: World,
    lines: ForkedLines,
    cleaners: u64,
    gate: &G,
) -> Result<(World, Vec<Vec<u8>>), Fault>
    requires seats { (vec_len lines.threads ≤ 32) × (cleaners ≤ 32) }
    ensures texts { IfOk result (λ played. AreThreadTexts world.shared.geometry.numbers.actors
        (lists_of lines) (map (λ text. text.items) played.1.items)) }
    ensures world { IfOk result (λ played. ClosesAfter world played.0) }
    ensures idle { (m : machine.World) → Shows world m → OnOk result (¬ IsBusy m) }
    ensures err { (m : machine.World) → Shows world m
        → IfErr result (λ fault. RefusesThreads fault m) }
{
    let ledgers = Ledgers::new(alloc, world.geometry())?;
    serve::<Brand, Brand, G, R>(rt, alloc, world, ledgers, lines, cleaners, gate)
}

/// Plays lines in threads, as [`play_in_threads`] does, under names of their own for both ledgers of the service.
fn serve<
    C: Commits + Send + Sync,
    B: Blocks + Send + Sync,
    G: Gate + Sync,
    R: Threads + Wait + Sync,
>(
    rt: &R,
    alloc: Global,
    world: World,
    ledgers: Ledgers,
    lines: ForkedLines,
    cleaners: u64,
    gate: &G,
) -> Result<(World, Vec<Vec<u8>>), Fault>
    requires commits { AreCommitNames ledgers C.name C.parts C.whole C.table }
    requires snapshots { AreSnapshotNames ledgers C.snap_name C.snap_parts }
    requires blocks { AreBlockNames ledgers B.name B.parts B.whole B.placed
        world.shared.geometry.numbers }
    requires stood { (C.commit ≡ world.shared.book.state.commit)
        × (C.epoch ≡ world.shared.book.state.snaps.epoch)
        × (C.living ≡ length world.shared.book.state.snaps.living)
        × (C.opened ≡ versions_in world.shared.cells.items) }
    requires seats { (vec_len lines.threads ≤ 32) × (cleaners ≤ 32) }
    ensures texts { IfOk result (λ played. AreThreadTexts world.shared.geometry.numbers.actors
        (lists_of lines) (map (λ text. text.items) played.1.items)) }
    ensures world { IfOk result (λ played. ClosesAfter world played.0) }
    ensures idle { (m : machine.World) → Shows world m → OnOk result (¬ IsBusy m) }
    ensures err { (m : machine.World) → Shows world m
        → IfErr result (λ fault. RefusesThreads fault m) }
{
    let mut service = match Service::<C, B>::open(alloc, world, ledgers) {
        Ok(service) => service,
        Err((fault, _, _)) => return Err(fault),
    };
    let crew = seated(alloc, &mut service, lines, cleaners)?;
    let back = run_beside(rt, alloc, &service, gate, crew)?;
    let (sessions, texts) = back.leave(alloc)?;
    match service.close(rt, alloc, sessions) {
        Ok(world) => Ok((world, texts)),
        Err((fault, _, _)) => Err(fault),
    }
}

/// Gives a seat to each thread with its calls, and to so many cleaners, once for each service.
fn seated<C: Commits, B: Blocks>(
    alloc: Global,
    service: &mut Service<C, B>,
    lines: ForkedLines,
    cleaners: u64,
) -> Result<Crew<C, B>, Fault>
    requires seats { (vec_len lines.threads ≤ 32) × (cleaners ≤ 32) }
    requires once { service.old.seating.given ≡ 0 }
    ensures shares { IfOk result (λ crew.
        map (λ job. (job.thread, job.calls.items)) crew.jobs.items
        ≡ enumerate_from 0 (lists_of lines)) }
    // Each thread has a seat, and as many cleaners as were asked for.
    ensures cleaners { IfOk result (λ crew. vec_len crew.cleaners ≡ cleaners) }
    ensures numbers { IfOk result (λ crew. map (λ job. job.session.number) crew.jobs.items
        ++ map (λ s. s.number) crew.cleaners.items
        ≡ range_with_len 0 (vec_len lines.threads + cleaners)) }
    ensures given { OnOk result (service.new.seating.given ≡ vec_len lines.threads + cleaners) }
    ensures geometry { service.new.geometry ≡ service.old.geometry }
    ensures err { FailsOnly out_of_memory result }
{
    let lines = lines.into_vec();
    let seats = lines.len() as u64 + cleaners;
    let sessions = service.seats(alloc, seats)?;
    Ok(Crew::seated(alloc, sessions, lines)?)
}
