//! A service opens: the parts of a world go behind locks.

ghost use Rattle.std.specs.Prelude.{◌≡◌, ◌⊎◌, IfErr, IfOk, OnOk, length};
ghost use Rattle.nv_base.specs.Memory.{out_of_memory};
ghost use Rattle.nv_base.specs.declared.fault.Fault.TheVariants.{ActorBusy};
ghost use Rattle.nv_core.specs.AtRest.{IsBusy, parts_of};
ghost use Rattle.nv_core.specs.Worlds.{Shows};
ghost use Rattle.nv_machine.specs.World as machine;
ghost use Rattle.nv_sessions.specs.Names.{AreBlockNames, AreCommitNames, AreSnapshotNames};
ghost use Rattle.nv_sessions.specs.Opened.{versions_in};
ghost use Rattle.nv_sessions.specs.Opening.{blocks_in};

use crate::judge::Judge;
use crate::service::Service;
use nv_base::Fault;
use nv_core::World;
use nv_sessions::{Blocks, Commits, Ledgers, LockRoom, LockedParts};
use std::alloc::Global;

impl<C: Commits, B: Blocks> Service<C, B> {
    /// Puts a world's parts behind locks, with a share of the blocks beside each list and cell and the owner of an inode
    /// beside its cell. The names are those of the ledgers, and these say what stands now: the number of the last
    /// commit, the epoch, how many snapshots live, and the version of each inode.
    ///
    /// `OutOfMemory` where room was refused, before anything else; `ActorBusy` where an actor has a call. World and ledgers
    /// come back as they were.
    pub fn open(
        alloc: Global,
        world: World,
        ledgers: Ledgers,
    ) -> Result<Service<C, B>, (Fault, World, Ledgers)>
        requires commits { AreCommitNames ledgers C.name C.parts C.whole C.table }
        requires snapshots { AreSnapshotNames ledgers C.snap_name C.snap_parts }
        // The blocks of cells and free lists are those of the ledger, and the device stays.
        requires blocks { AreBlockNames ledgers B.name B.parts B.whole B.placed
            world.shared.geometry.numbers }
        requires stood { (C.commit ≡ world.shared.book.state.commit)
            × (C.epoch ≡ world.shared.book.state.snaps.epoch)
            × (C.living ≡ length world.shared.book.state.snaps.living)
            × (C.opened ≡ versions_in world.shared.cells.items) }
        ensures blocks { IfOk result (λ service.
            service.blocks ≡ blocks_in (parts_of world.shared)) }
        ensures geometry { IfOk result (λ service. service.geometry ≡ world.shared.geometry) }
        ensures seats { IfOk result (λ service. service.seating.given ≡ 0) }
        // It opens only where no actor has a call.
        ensures idle { (m : machine.World) → Shows world m → OnOk result (¬ IsBusy m) }
        // It fails only where room is refused, or an actor has a call, and world and ledgers come back.
        ensures err { (m : machine.World) → Shows world m → IfErr result (λ refused.
            (refused.0 ≡ out_of_memory) ⊎ ((refused.0 ≡ ActorBusy) × IsBusy m)) }
        ensures same { IfErr result (λ refused. (refused.1 ≡ world) × (refused.2 ≡ ledgers)) }
    {
        let room = match LockRoom::new(alloc, world.inodes(), world.cpus()) {
            Ok(room) => room,
            Err(fault) => return Err((fault, world, ledgers)),
        };
        world.consistent();
        match world.into_parts() {
            Ok(parts) => Ok(Service {
                parts: LockedParts::of_parts(alloc, parts, ledgers, room),
                judge: Judge::new(),
            }),
            Err((fault, world)) => {
                room.destroy_empty();
                Err((fault, world, ledgers))
            }
        }
    }
}
