//! A cleaner plans what goes of the log of an inode.

ghost use Rattle.std.specs.Prelude.{◌≡◌, ◌≢◌, ◌<◌, ◌∷◌, Bool, Ok, Some, [], length, option_to_list};
ghost use Rattle.std.specs.Option.{ForSome};
ghost use Rattle.nv_base.specs.Limits.{IsWithinLimits};
ghost use Rattle.nv_machine.specs.Cleaning.{inode_turn, plan_cleaning_turn};
ghost use Rattle.nv_cell.specs.Readers.{has_inode};
ghost use Rattle.nv_machine.specs.World.{cell_at};
ghost use Rattle.nv_steps.specs.Planning.{HasRoomFor, IsFoundIn, once_planned};
ghost use Rattle.nv_core.specs.Cleaning.{IsMaintaining};
ghost use Rattle.nv_core.specs.Parts.{AreHome, IsOfDevice};
ghost use Rattle.nv_core.specs.Rooms.{HasRooms, HasRoomsAfter, IsHandOf};
ghost use Rattle.nv_core.specs.Shown.{ShownCall, hand_of, manner_of, shared_of, shown, slots_in, turn_of};
ghost use Rattle.nv_core.specs.GhostCalls.{IsEither, KeepsRequest};

use crate::ending::{refuse, unlock_first};
use crate::next::{CompactPlan, Ending, FreshPages, Next, SnapshotOrCleanerStep, UnlinkPlan};
use crate::reservation::Reservation;
use crate::running::Running;
use crate::shared::Shared;
use crate::turn::Turn;
use nv_alloc::Hand;
use nv_base::{Fault, Ino};
use nv_steps::{Manner, Planned};
use std::alloc::Global;

/// Walks the log of a slot, and chooses what its cleaning does. A slot without an inode is refused, and so is a number
/// without a slot.
pub(crate) fn plan_cleaning(
    alloc: Global,
    shared: &Shared,
    hand: &mut Hand,
    running: &mut Running,
    manner: Manner,
    slot: Option<Ino>,
) -> Turn
    requires next { running.old.next
        ≡ Next.SnapshotOrCleaner (SnapshotOrCleanerStep.PlanCleaning manner slot) }
    requires there { ForSome slot (λ ino. ino < length shared.now.cells.items) }
    requires slots { slots_in running.old.slots ≡ option_to_list slot }
    requires limits { IsWithinLimits shared.now.geometry.numbers }
    requires home { AreHome shared.now }
    requires wide { length shared.now.owners.items ≡ length shared.now.cells.items }
    requires device { IsOfDevice shared.now.geometry.numbers hand.old }
    requires sized { IsHandOf shared.now.geometry.numbers hand.old }
    requires none { length hand.old.pages.blocks ≡ 0 }
    requires call { IsMaintaining running.old }
    // A number without a slot is `Stale`, and so is exactly a slot without an inode.
    ensures turn { (told : ShownCall) → let s = shared_of shared.now in
        IsEither (λ granted. plan_cleaning_turn (manner_of manner) slot granted s (hand_of hand.old)
        (shown told running.old))
        (turn_of result running.new.answer s (hand_of hand.new) (shown told running.new)) }
    ensures request { KeepsRequest running.old running.new }
    ensures goes { result ≢ Turn.Waits }
    ensures rooms { HasRoomsAfter result shared.now (Reservation.Hand hand.new) running.new }
{
    match slot {
        Some(ino) => plan_slot(alloc, shared, hand, running, manner, ino),
        None => refuse(shared, hand, running, Fault::Stale),
    }
}

/// Walks the log of a slot that is there, and chooses what its cleaning does.
fn plan_slot(
    alloc: Global,
    shared: &Shared,
    hand: &mut Hand,
    running: &mut Running,
    manner: Manner,
    ino: Ino,
) -> Turn
    requires next { running.old.next
        ≡ Next.SnapshotOrCleaner (SnapshotOrCleanerStep.PlanCleaning manner (Some ino)) }
    requires there { ino < length shared.now.cells.items }
    requires slots { slots_in running.old.slots ≡ ino ∷ [] }
    requires limits { IsWithinLimits shared.now.geometry.numbers }
    requires home { AreHome shared.now }
    requires wide { length shared.now.owners.items ≡ length shared.now.cells.items }
    requires sized { IsHandOf shared.now.geometry.numbers hand.old }
    requires none { length hand.old.pages.blocks ≡ 0 }
    requires call { IsMaintaining running.old }
    // `Stale` comes before want of memory.
    // The log is that of the slot that is to be cleaned.
    ensures turn { (told : ShownCall) → let s = shared_of shared.now in
        IsEither (λ granted. inode_turn (has_inode (cell_at s ino)) (manner_of manner) ino granted
        s (hand_of hand.old) (shown told running.old))
        (turn_of result running.new.answer s (hand_of hand.new) (shown told running.new)) }
    ensures request { KeepsRequest running.old running.new }
    ensures goes { result ≢ Turn.Waits }
    ensures rooms { HasRoomsAfter result shared.now (Reservation.Hand hand.new) running.new }
{
    let cell = &shared.cells[ino.number() as usize];
    match nv_steps::plan_cleaning(alloc, cell, hand, manner) {
        Ok(planned) => {
            go_by_plan(shared, hand, running, ino, planned);
            Turn::Moves
        }
        Err(fault) => {
            unlock_first(running, Ending::Refuses(fault));
            Turn::Moves
        }
    }
}

/// The next step, by what was planned: a thorough cleaning takes fresh pages first. Where all entries stay, the call turns to
/// its last steps.
fn go_by_plan(shared: &Shared, hand: &Hand, running: &mut Running, ino: Ino, planned: Planned)
    requires limits { IsWithinLimits shared.now.geometry.numbers }
    requires home { AreHome shared.now }
    requires sized { IsHandOf shared.now.geometry.numbers hand.now }
    requires call { IsMaintaining running.old }
    requires none { length hand.now.pages.blocks ≡ 0 }
    requires found { (thorough : Bool) × IsFoundIn (cell_at (shared_of shared.now) ino) thorough planned }
    requires room { HasRoomFor hand.now.pages planned }
    ensures turn { (told : ShownCall) → shown told running.new
        ≡ once_planned ino (Ok planned) (shown told running.old) }
    ensures request { KeepsRequest running.old running.new }
    ensures rooms { HasRooms shared.now (Reservation.Hand hand.now) running.new }
{
    running.next = Next::SnapshotOrCleaner(match planned {
        Planned::Unlinks(walk) => SnapshotOrCleanerStep::Unlink(UnlinkPlan { ino, walk }),
        Planned::Compacts(walk) => SnapshotOrCleanerStep::Fresh(FreshPages {
            asked: 0,
            left: walk.pages() as u64,
            plan: CompactPlan { ino, walk },
        }),
        Planned::Ends(cleaned) => return unlock_first(running, Ending::Cleans(cleaned)),
    });
}
