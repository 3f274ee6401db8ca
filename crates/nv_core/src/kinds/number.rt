//! The number of a new inode is taken.

ghost use Rattle.std.specs.Prelude.{◌≡◌, ◌≢◌, None, false, length, true};
ghost use Rattle.nv_machine.specs.Kinds.{moves_past, number_turn};
ghost use Rattle.nv_machine.specs.Reads.{slots_of};
ghost use Rattle.nv_machine.specs.World as machine;
ghost use Rattle.nv_core.specs.Parts.{AreHome};
ghost use Rattle.nv_core.specs.Rooms.{FitsCall, HasNextRoom, HasRooms, HasRoomsAfter, takes};
ghost use Rattle.nv_core.specs.Shown.{ShownCall, hand_of, shared_of, shown, turn_of};
ghost use Rattle.nv_core.specs.GhostCalls.{IsShownCallOf, KeepsRequest, makes_inode};
ghost use Rattle.nv_core.specs.declared.request.Request.{Request};
ghost use Rattle.nv_core.specs.declared.next.Ending.{Ending};

use crate::next::Next;
use crate::reservation::Reservation;
use crate::running::{Running, locking};
use crate::shared::Shared;
use crate::turn::Turn;
use nv_alloc::Hand;
use nv_base::Ino;
use nv_calls::slots_of;

/// Takes the lowest free number into the hand. That there is none is told at the check.
pub(crate) fn number(shared: &mut Shared, hand: &mut Hand, running: &mut Running) -> Turn
    requires rooms { HasRooms shared.old (Reservation.Hand hand.old) running.old }
    requires home { AreHome shared.old }
    requires wide { length shared.old.owners.items ≡ length shared.old.cells.items }
    requires next { running.old.next ≡ Next.Number }
    requires makes { makes_inode running.old.request ≡ true }
    requires none { hand.old.ino ≡ None }
    ensures turn { (told : ShownCall) → IsShownCallOf running.old told → let s = shared_of shared.old in
        number_turn s.pool.numbers s (hand_of hand.old) (shown told running.old)
        ≡ turn_of result running.new.answer (shared_of shared.new) (hand_of hand.new)
        (shown told running.new) }
    ensures request { KeepsRequest running.old running.new }
    ensures goes { result ≢ Turn.Waits }
    ensures rooms { HasRoomsAfter result shared.new (Reservation.Hand hand.new) running.new }
    ensures rest { shared.new ≡ record shared.old { pool = shared.new.pool } }
{
    let number = nv_steps::take_number(&mut shared.pool, hand);
    goes_to_locks(shared.inodes(), running, number)
}

/// It is known which slots the call locks, with this number among them.
fn goes_to_locks(inodes: u64, running: &mut Running, number: Option<Ino>) -> Turn
    requires call { FitsCall running.old }
    requires makes { makes_inode running.old.request ≡ true }
    ensures turn { (told : ShownCall) (s : machine.Shared) (h : machine.HandState)
        → IsShownCallOf running.old told → length s.cells ≡ inodes → let r = shown told running.old in
        moves_past machine.Number s h (record r { slots = slots_of s number r.looked r.call })
        ≡ turn_of result running.new.answer s h (shown told running.new) }
    ensures request { KeepsRequest running.old running.new }
    ensures fits { FitsCall running.new }
    ensures none { takes running.new.next ≡ false }
    ensures room { (how : Ending) (request : Request) (shared : Shared) (hand : Hand)
        → HasNextRoom running.new.next how request shared hand }
    ensures moves { result ≡ Turn.Moves }
{
    let update = running.update();
    let slots = slots_of(inodes, number, update, &running.looked);
    let next = locking(0, &slots);
    running.slots = slots;
    running.next = next;
    Turn::Moves
}
