//! A service closes: its parts become a world again, or stay behind their locks.

ghost use Rattle.std.specs.Prelude.{◌≡◌, ◌⊎◌, ◌+◌, ◌↔◌, All, IfErr, IfOk, List, OnOk, [], map, sum_by};
ghost use Rattle.nv_base.specs.Memory.{out_of_memory};
ghost use Rattle.nv_base.specs.declared.fault.Fault.TheVariants.{SeatsOut};
ghost use Rattle.nv_core.specs.AtRest.{AreJudged, at_rest, parts_of};
ghost use Rattle.nv_core.specs.Worlds.{Shows};
ghost use Rattle.nv_parts.specs.declared.parts.Parts.{Parts};
ghost use Rattle.nv_service.specs.Closing.{AreBeside, IsDifference, IsNotOlder};
ghost use Rattle.nv_service.specs.Judging.{IsFound};
ghost use Rattle.nv_sessions.specs.Opening.{blocks_in};
ghost use Rattle.nv_sessions.specs.Seats.{AreSeats};
ghost use Rattle.nv_sessions.specs.Snapped.{AreSnapped};
ghost use Rattle.nv_sessions.specs.UnlockedParts.{BesideCellValue};

use crate::service::Service;
use nv_base::Fault;
use nv_core::World;
use nv_sessions::{Blocks, Commits, Session};
use std::alloc::Global;
use std::sync::Wait;

impl<C: Commits, B: Blocks> Service<C, B> {
    /// Makes the world again, of parts that are at rest, in which no actor has a call. It has all commits of the sessions,
    /// the device of the opening, and as many living snapshots as the makings and drops of the sessions leave. No inode is
    /// older than at the opening or than a session has seen it.
    ///
    /// `SeatsOut` where the sessions are not those that were given out, each once; `OutOfMemory` where room was refused;
    /// `Mismatch` with the first part that differs from those of a world at rest: a hand that has blocks or a number makes
    /// the lists differ. [`Service::found`] has the part from then on. The same service and sessions come back, each cell
    /// behind the lock of the slot where it lay, and no share and no note was joined. No lock is taken, and the time is that
    /// of [`World::from_parts`].
    /// `Mismatch` comes only where parts were judged in this call.
    /// Only tested: these parts are the service's own.
    /// Only tested: a block in the hand of a session makes the lists differ.
    /// Only tested: each cell and list of that service is the one that lay there.
    pub fn close<R: Wait>(
        self,
        rt: &R,
        alloc: Global,
        sessions: Vec<Session<C, B>>,
    ) -> Result<World, (Fault, Service<C, B>, Vec<Session<C, B>>)>
        // The world has the service's device, and passes the questions of parts at rest.
        ensures shows { IfOk result (λ world. Shows world (at_rest (parts_of world.shared))) }
        ensures judged { IfOk result (λ world. AreJudged (parts_of world.shared)) }
        ensures geometry { IfOk result (λ world. world.shared.geometry ≡ self.geometry) }
        ensures seats { OnOk result
            (AreSeats self.seating.given (map (λ s. s.number) sessions.items)) }
        // Its commit number is that at the opening and the commits of all sessions.
        ensures commit { IfOk result (λ world. world.shared.book.state.commit
            ≡ C.commit + sum_by (λ s. s.commits) sessions.items) }
        // As many snapshots live as makings and drops leave, and in no earlier epoch.
        ensures snapshots { IfOk result (λ world. AreSnapped C.living C.epoch
            world.shared.book.state.snaps (sum_by (λ s. s.snapped) sessions.items)) }
        // No inode is older than at the opening, or than a session has seen it.
        ensures versions { IfOk result (λ world.
            IsNotOlder C.opened [] world.shared.cells.items) }
        ensures seen { IfOk result (λ world. All (λ s.
            IsNotOlder C.opened s.seen world.shared.cells.items) sessions.items) }
        // Cells and lists have the blocks of the device.
        ensures blocks { IfOk result (λ world.
            blocks_in (parts_of world.shared) ≡ self.blocks) }
        // `SeatsOut` comes exactly where not each given session is there.
        ensures out { IfErr result (λ refused. (refused.0 ≡ SeatsOut)
            ↔ (¬ AreSeats self.seating.given (map (λ s. s.number) sessions.items))) }
        // It names what differed in parts of the service's device, with as many cells.
        ensures err { IfErr result (λ refused. (refused.0 ≡ SeatsOut) ⊎ (refused.0 ≡ out_of_memory)
            ⊎ ((parts : Parts) × (cells : List BesideCellValue)
            × AreBeside self.geometry parts cells
            × IsDifference parts cells refused.0)) }
        ensures found { IfErr result (λ refused.
            IsFound self.judge refused.1.judge refused.0) }
        // So does a service of the same geometry, as many blocks and as many seats given out.
        ensures service { IfErr result (λ refused. (refused.1.blocks ≡ self.blocks)
            × (refused.1.geometry ≡ self.geometry)
            × (refused.1.seating.given ≡ self.seating.given)) }
        // After a refusal the sessions come back as they were.
        ensures sessions { IfErr result (λ refused. refused.2 ≡ sessions) }
    {
        if !self.parts.has_all_seats(&sessions) {
            return Err((Fault::SeatsOut, self, sessions));
        }
        let room = match self.parts.part_room(alloc) {
            Ok(room) => room,
            Err(fault) => return Err((fault, self, sessions)),
        };
        let Service { parts, mut judge } = self;
        let (parts, rests) = parts.unlock(room);
        match judge.world_of(alloc, parts, &rests) {
            Ok(world) => {
                rests.add_up(rt, sessions);
                Ok(world)
            }
            Err((fault, parts)) => {
                let parts = rests.lock_again(parts);
                Err((fault, Service { parts, judge }, sessions))
            }
        }
    }
}
