//! The steps of a cleaner.

ghost use Rattle.std.specs.Prelude.{◌≡◌, ◌≢◌, ◌<◌, Bool, length};
ghost use Rattle.nv_machine.specs.Cleaning.{lock_cleaned_turn};
ghost use Rattle.nv_machine.specs.Locks.{held_at};
ghost use Rattle.nv_machine.specs.Step.{kind_turn};
ghost use Rattle.nv_machine.specs.World.{HandState, owner_at};
ghost use Rattle.nv_core.specs.Frames.{LeavesRest};
ghost use Rattle.nv_core.specs.Rooms.{HasRooms, HasRoomsAfter, IsCleaning};
ghost use Rattle.nv_core.specs.Shown.{ShownCall, hand_of, manner_of, next_of, shared_of, shown, slots_in, turn_of};
ghost use Rattle.nv_core.specs.Steps.{CanStep};
ghost use Rattle.nv_core.specs.GhostCalls.{KeepsRequest};

use crate::kinds::compact::compact;
use crate::kinds::fresh::take_fresh;
use crate::kinds::unlink::unlink;
use crate::next::{Next, SnapshotOrCleanerStep, ToClean};
use crate::reservation::Reservation;
use crate::running::Running;
use crate::shared::Shared;
use crate::turn::Turn;
use nv_alloc::Hand;
use std::mem;

/// Locks the slot that is to be cleaned, or waits for its lock.
pub(crate) fn lock_cleaned(
    shared: &mut Shared,
    running: &mut Running,
    actor: u64,
    log: ToClean,
) -> Turn
    requires next { running.old.next
        ≡ Next.SnapshotOrCleaner (SnapshotOrCleanerStep.LockCleaned log) }
    requires there { log.ino < length shared.old.owners.items }
    // A cleaner locks the slot of its number.
    // Where it waits for that lock it changes nothing.
    ensures turn { (told : ShownCall) (h : HandState) → let s = shared_of shared.old in
        lock_cleaned_turn (owner_at s log.ino) actor (manner_of log.manner) log.ino s h
        (shown told running.old)
        ≡ turn_of result running.new.answer (shared_of shared.new) h (shown told running.new) }
    ensures waits { result ≡ Turn.Waits → (shared.new ≡ shared.old) × (running.new ≡ running.old) }
    ensures request { KeepsRequest running.old running.new }
    ensures rooms { (hand : Hand) → HasRooms shared.old (Reservation.Hand hand) running.old
        → HasRoomsAfter result shared.new (Reservation.Hand hand) running.new }
    ensures rest { shared.new ≡ record shared.old { owners = shared.new.owners } }
{
    if shared.is_locked(log.ino) {
        return Turn::Waits;
    }
    shared.set_owner(log.ino, Some(actor));
    running.next = Next::SnapshotOrCleaner(SnapshotOrCleanerStep::PlanCleaning(
        log.manner,
        Some(log.ino),
    ));
    Turn::Moves
}

/// A step of a cleaner behind its planning. None waits.
pub(crate) fn clean(shared: &mut Shared, hand: &mut Hand, running: &mut Running, actor: u64) -> Turn
    requires step { IsCleaning running.old.next }
    requires can { CanStep shared.old (Reservation.Hand hand.old) running.old actor }
    requires rooms { HasRooms shared.old (Reservation.Hand hand.old) running.old }
    ensures turn { (told : ShownCall) (granted : Bool) → kind_turn (next_of running.old.next)
        shared.old.geometry.numbers.block actor granted (shared_of shared.old) (hand_of hand.old)
        (shown told running.old)
        ≡ turn_of result running.new.answer (shared_of shared.new) (hand_of hand.new)
        (shown told running.new) }
    // No step of a cleaner waits behind its lock.
    ensures goes { result ≢ Turn.Waits }
    ensures request { KeepsRequest running.old running.new }
    ensures rooms { HasRoomsAfter result shared.new (Reservation.Hand hand.new) running.new }
    ensures rest { LeavesRest actor (held_at (next_of running.old.next)
        (slots_in running.old.slots)) shared.old shared.new }
{
    match mem::replace(&mut running.next, Next::Visit) {
        Next::SnapshotOrCleaner(SnapshotOrCleanerStep::Fresh(fresh)) => {
            take_fresh(shared, hand, running, actor, fresh)
        }
        Next::SnapshotOrCleaner(SnapshotOrCleanerStep::Unlink(plan)) => unlink(
            shared, hand, running, plan,
        ),
        Next::SnapshotOrCleaner(SnapshotOrCleanerStep::Compact(plan)) => compact(
            shared, hand, running, plan,
        ),
        _ => unreachable!(),
    }
}
