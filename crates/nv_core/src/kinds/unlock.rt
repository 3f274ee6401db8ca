//! An inode lock is given back.

ghost use Rattle.std.specs.Prelude.{◌≡◌, ◌≢◌, ◌<◌, length};
ghost use Rattle.nv_machine.specs.Kinds.{unlock_turn};
ghost use Rattle.nv_machine.specs.Reads.{slot_at};
ghost use Rattle.nv_core.specs.Parts.{AreHome, IsOfDevice};
ghost use Rattle.nv_core.specs.Rooms.{CanDrain, HasRooms, HasRoomsAfter, IsNoVisit};
ghost use Rattle.nv_core.specs.Shown.{ShownCall, hand_of, shared_of, shown, slots_in, turn_of};
ghost use Rattle.nv_core.specs.GhostCalls.{KeepsRequest, OwesAt};

use crate::ending::end_unlocked;
use crate::next::Next;
use crate::reservation::Reservation;
use crate::running::Running;
use crate::shared::Shared;
use crate::turn::Turn;
use nv_alloc::Hand;

/// Unlocks the slot at a place.
pub(crate) fn unlock(shared: &mut Shared, hand: &Hand, running: &mut Running, place: usize) -> Turn
    requires rooms { HasRooms shared.old (Reservation.Hand hand.now) running.old }
    requires request { IsNoVisit running.old.request }
    requires drains { CanDrain running.old.ending running.old.request hand.now }
    requires place { place < length (slots_in running.old.slots) }
    requires there { slot_at (slots_in running.old.slots) place < length shared.old.owners.items }
    requires home { AreHome shared.old }
    requires device { IsOfDevice shared.old.geometry.numbers hand.now }
    // A call gives up each of its locks, and waits for none of its own.
    ensures turn { (told : ShownCall) → OwesAt running.old.ending running.old told
        → let h = hand_of hand.now in
        unlock_turn place (shared_of shared.old) h (shown told running.old)
        ≡ turn_of result running.new.answer (shared_of shared.new) h (shown told running.new) }
    ensures request { KeepsRequest running.old running.new }
    ensures goes { result ≢ Turn.Waits }
    ensures rooms { HasRoomsAfter result shared.new (Reservation.Hand hand.now) running.new }
    ensures rest { shared.new ≡ record shared.old { owners = shared.new.owners } }
{
    shared.set_owner(running.slots.at(place), None);
    if place + 1 < running.slots.len() {
        running.next = Next::Unlock(place + 1);
        return Turn::Moves;
    }
    end_unlocked(shared, hand, running)
}
