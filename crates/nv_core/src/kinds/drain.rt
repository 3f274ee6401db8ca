//! A deferred record is picked, and its inode locked.

ghost use Rattle.std.specs.Prelude.{◌≡◌, ◌≢◌, ◌<◌, [], length};
ghost use Rattle.nv_machine.specs.SnapshotOrCleaner.{lock_picked_turn, pick_turn};
ghost use Rattle.nv_machine.specs.World.{HandState, empty_hand, owner_at};
ghost use Rattle.nv_core.specs.Rooms.{HasRooms, HasRoomsAfter};
ghost use Rattle.nv_core.specs.Shown.{ShownCall, draining_of, hand_of, shared_of, shown, slots_in, turn_of};
ghost use Rattle.nv_core.specs.GhostCalls.{IsEither, KeepsRequest};

use crate::next::{Draining, Next, SnapshotOrCleanerStep};
use crate::reservation::Reservation;
use crate::running::Running;
use crate::shared::Shared;
use crate::turn::Turn;
use nv_alloc::Hand;
use nv_book::Record;
use nv_calls::LockedSlots;
use nv_steps::Picked;

/// Picks the first deferred record. Where there is none, this is the call's last step. The first pick of a call makes
/// room for a block before.
pub(crate) fn pick(
    shared: &mut Shared,
    hand: &mut Hand,
    running: &mut Running,
    draining: Draining,
) -> Turn
    requires next { running.old.next
        ≡ Next.SnapshotOrCleaner (SnapshotOrCleanerStep.Pick draining) }
    requires slots { slots_in running.old.slots ≡ [] }
    requires empty { hand_of hand.old ≡ empty_hand }
    requires rooms { HasRooms shared.old (Reservation.Hand hand.old) running.old }
    // A drain makes room at its first pick, before it changes anything.
    // A drain picks the first deferred record, and ends with its releases counted where there is none.
    ensures turn { (told : ShownCall) → let s = shared_of shared.old in
        IsEither (λ granted. pick_turn (draining_of draining) granted s empty_hand
        (shown told running.old))
        (turn_of result running.new.answer (shared_of shared.new) empty_hand
        (shown told running.new)) }
    ensures empty { hand_of hand.new ≡ empty_hand }
    ensures request { KeepsRequest running.old running.new }
    ensures goes { result ≢ Turn.Waits }
    ensures rooms { HasRoomsAfter result shared.new (Reservation.Hand hand.new) running.new }
    ensures rest { shared.new ≡ record shared.old { book = shared.new.book } }
{
    match nv_steps::pick(&mut shared.book, hand, draining.released) {
        Picked::First(picked) => {
            running.slots = LockedSlots::one(picked.ino);
            running.next = Next::SnapshotOrCleaner(SnapshotOrCleanerStep::LockPicked(
                draining, picked,
            ));
            Turn::Moves
        }
        Picked::Ends(answer) => {
            running.answer = answer;
            Turn::Ends
        }
    }
}

/// Locks the inode of the picked record, or waits for its lock.
pub(crate) fn lock_picked(
    shared: &mut Shared,
    running: &mut Running,
    actor: u64,
    draining: Draining,
    picked: Record,
) -> Turn
    requires next { running.old.next
        ≡ Next.SnapshotOrCleaner (SnapshotOrCleanerStep.LockPicked draining picked) }
    requires there { picked.ino < length shared.old.owners.items }
    // A drain locks the inode of the record that it picked.
    ensures turn { (told : ShownCall) (h : HandState) → let s = shared_of shared.old in
        lock_picked_turn (owner_at s picked.ino) actor (draining_of draining) picked s h
        (shown told running.old)
        ≡ turn_of result running.new.answer (shared_of shared.new) h (shown told running.new) }
    ensures waits { result ≡ Turn.Waits → (shared.new ≡ shared.old) × (running.new ≡ running.old) }
    ensures request { KeepsRequest running.old running.new }
    ensures rooms { (hand : Hand) → HasRooms shared.old (Reservation.Hand hand) running.old
        → HasRoomsAfter result shared.new (Reservation.Hand hand) running.new }
    ensures rest { shared.new ≡ record shared.old { owners = shared.new.owners } }
{
    if shared.is_locked(picked.ino) {
        return Turn::Waits;
    }
    shared.set_owner(picked.ino, Some(actor));
    running.next = Next::SnapshotOrCleaner(SnapshotOrCleanerStep::Release(draining, picked));
    Turn::Moves
}
