//! The looks, before anything is locked.

ghost use Rattle.std.specs.Prelude.{◌≡◌, length};
ghost use Rattle.nv_calls.specs.AllCalls.{look_refusal, looked};
ghost use Rattle.nv_machine.specs.Kinds.{look_tests, look_turn, seen_at};
ghost use Rattle.nv_machine.specs.Reads.{copies};
ghost use Rattle.nv_machine.specs.Sequence.{directories};
ghost use Rattle.nv_machine.specs.Step.{handle_at};
ghost use Rattle.nv_machine.specs.World.{empty_hand, owner_at};
ghost use Rattle.nv_core.specs.Parts.{AreHome};
ghost use Rattle.nv_core.specs.Rooms.{HasRooms, HasRoomsAfter};
ghost use Rattle.nv_core.specs.Shown.{ShownCall, hand_of, shared_of, shown, turn_of};
ghost use Rattle.nv_core.specs.GhostCalls.{IsLookAt, IsShownCallOf, KeepsRequest};

use crate::next::Next;
use crate::reservation::Reservation;
use crate::running::{Running, looking};
use crate::shared::Shared;
use crate::turn::Turn;
use nv_alloc::Hand;
use nv_calls::directory;

/// Looks up the names of a call in one of their directories. The first name may be refused here. What is wrong with the
/// second is told at the check.
pub(crate) fn look(shared: &Shared, hand: &Hand, running: &mut Running, place: usize) -> Turn
    requires rooms { HasRooms shared.now (Reservation.Hand hand.now) running.old }
    requires place { IsLookAt place running.old.request }
    requires next { running.old.next ≡ Next.Look place }
    requires empty { hand_of hand.now ≡ empty_hand }
    requires home { AreHome shared.now }
    requires wide { length shared.now.owners.items ≡ length shared.now.cells.items }
    ensures turn { (told : ShownCall) → IsShownCallOf running.old told → let s = shared_of shared.now in
        let h = hand_of hand.now in let c = told.call in
        look_turn (owner_at s (handle_at (directories c) place).ino)
        (look_tests place (look_refusal (copies s) c))
        (seen_at (directories c) place (looked (copies s) c) running.old.looked) place s h
        (shown told running.old)
        ≡ turn_of result running.new.answer s h (shown told running.new) }
    ensures waits { result ≡ Turn.Waits → running.new ≡ running.old }
    ensures request { KeepsRequest running.old running.new }
    ensures rooms { HasRoomsAfter result shared.now (Reservation.Hand hand.now) running.new }
{
    let update = running.update();
    let ino = directory(update, place).ino;
    if shared.is_locked(ino) {
        return Turn::Waits;
    }
    let cell = shared.cell(ino);
    match nv_steps::look(shared.inodes(), cell, update, place, &running.looked) {
        Ok((looked, slots)) => {
            let next = looking(place + 1, update, &slots);
            running.looked = looked;
            running.slots = slots;
            running.next = next;
            Turn::Moves
        }
        Err(fault) => {
            running.answer = Err(fault);
            Turn::Ends
        }
    }
}
