//! A deferred record is released.

ghost use Rattle.std.specs.Prelude.{◌≡◌, ◌≢◌, ◌∷◌, ℕ, [], length};
ghost use Rattle.nv_machine.specs.SnapshotOrCleaner.{release_turn};
ghost use Rattle.nv_machine.specs.World.{empty_hand};
ghost use Rattle.nv_machine.specs.Locks.{held_at};
ghost use Rattle.nv_core.specs.Frames.{LeavesRest};
ghost use Rattle.nv_core.specs.Parts.{AreHome};
ghost use Rattle.nv_core.specs.Rooms.{HasRooms, HasRoomsAfter};
ghost use Rattle.nv_core.specs.Shown.{ShownCall, draining_of, hand_of, next_of, shared_of, shown, slots_in, turn_of};
ghost use Rattle.nv_core.specs.Steps.{CanRelease};
ghost use Rattle.nv_core.specs.GhostCalls.{KeepsRequest};

use crate::ending::unlock_first;
use crate::next::{Draining, Ending, Next, SnapshotOrCleanerStep};
use crate::reservation::Reservation;
use crate::running::Running;
use crate::shared::Shared;
use crate::turn::Turn;
use nv_alloc::Hand;
use nv_book::Record;

/// Releases the picked record: its part goes out. The drain turns to the last steps of this record.
pub(crate) fn release(
    shared: &mut Shared,
    hand: &mut Hand,
    running: &mut Running,
    draining: Draining,
    picked: Record,
) -> Turn
    requires next { running.old.next
        ≡ Next.SnapshotOrCleaner (SnapshotOrCleanerStep.Release draining picked) }
    requires slots { slots_in running.old.slots ≡ picked.ino ∷ [] }
    requires home { AreHome shared.old }
    requires wide { length shared.old.owners.items ≡ length shared.old.cells.items }
    requires can { CanRelease shared.old picked }
    requires empty { hand_of hand.old ≡ empty_hand }
    requires rooms { HasRooms shared.old (Reservation.Hand hand.old) running.old }
    // A released part goes out, and its block goes into the hand.
    // A released part without a block goes out.
    // An inode that is gone and keeps nothing more is erased.
    // A release is counted.
    ensures turn { (told : ShownCall) → release_turn (draining_of draining) picked (shared_of shared.old)
        empty_hand (shown told running.old)
        ≡ turn_of result running.new.answer (shared_of shared.new) (hand_of hand.new)
        (shown told running.new) }
    ensures request { KeepsRequest running.old running.new }
    ensures goes { result ≢ Turn.Waits }
    ensures rooms { HasRoomsAfter result shared.new (Reservation.Hand hand.new) running.new }
    ensures rest { (actor : ℕ) → LeavesRest actor (held_at (next_of running.old.next)
        (slots_in running.old.slots)) shared.old shared.new }
{
    nv_steps::release(
        &mut shared.cells[picked.ino.number() as usize],
        hand,
        picked,
    );
    let drained = Draining {
        released: draining.released + 1,
        left: draining.left,
    };
    unlock_first(running, Ending::Drains(drained));
    Turn::Moves
}
