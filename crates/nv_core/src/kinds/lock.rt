//! An inode lock is taken.

ghost use Rattle.std.specs.Prelude.{◌≡◌, ◌<◌, length, true};
ghost use Rattle.nv_machine.specs.Kinds.{lock_turn};
ghost use Rattle.nv_machine.specs.Reads.{slot_at};
ghost use Rattle.nv_machine.specs.World.{HandState, owner_at};
ghost use Rattle.nv_core.specs.Rooms.{HasRooms, HasRoomsAfter};
ghost use Rattle.nv_core.specs.Shown.{ShownCall, shared_of, shown, slots_in, turn_of};
ghost use Rattle.nv_core.specs.GhostCalls.{KeepsRequest, is_change};

use crate::reservation::Reservation;
use crate::running::{Running, locking};
use crate::shared::Shared;
use crate::turn::Turn;
use nv_alloc::Hand;

/// Locks the slot at a place, or waits for its lock.
pub(crate) fn lock(shared: &mut Shared, running: &mut Running, actor: u64, place: usize) -> Turn
    requires change { is_change running.old.request ≡ true }
    requires place { place < length (slots_in running.old.slots) }
    requires there { slot_at (slots_in running.old.slots) place < length shared.old.owners.items }
    // A step that waits for a lock takes none.
    // After the last lock comes the check, in each round.
    ensures turn { (told : ShownCall) (h : HandState) → let s = shared_of shared.old in
        lock_turn (owner_at s (slot_at (slots_in running.old.slots) place)) actor place s h
        (shown told running.old)
        ≡ turn_of result running.new.answer (shared_of shared.new) h (shown told running.new) }
    ensures waits { result ≡ Turn.Waits → (shared.new ≡ shared.old) × (running.new ≡ running.old) }
    ensures request { KeepsRequest running.old running.new }
    ensures rooms { (hand : Hand) → HasRooms shared.old (Reservation.Hand hand) running.old
        → HasRoomsAfter result shared.new (Reservation.Hand hand) running.new }
    ensures rest { shared.new ≡ record shared.old { owners = shared.new.owners } }
{
    let ino = running.slots.at(place);
    if shared.is_locked(ino) {
        return Turn::Waits;
    }
    shared.set_owner(ino, Some(actor));
    running.next = locking(place + 1, &running.slots);
    Turn::Moves
}
