//! The steps of calls on snapshots, and of cleaners.

ghost use Rattle.std.specs.Prelude.{◌≡◌, []};
ghost use Rattle.nv_machine.specs.Step.{kind_turn};
ghost use Rattle.nv_core.specs.Frames.{LeavesRest};
ghost use Rattle.nv_core.specs.Rooms.{HasRooms, HasRoomsAfter, IsOnBook, IsSnapshotOrCleanerStep};
ghost use Rattle.nv_core.specs.Shown.{ShownCall, hand_of, next_of, shared_of, shown, slots_in, turn_of};
ghost use Rattle.nv_core.specs.Steps.{CanStep};
ghost use Rattle.nv_core.specs.GhostCalls.{IsEither, KeepsRequest};
ghost use Rattle.nv_machine.specs.Locks.{held_at};

use crate::kinds::clean::{clean, lock_cleaned};
use crate::kinds::drain::{lock_picked, pick};
use crate::kinds::drop_snapshot::drop_snapshot;
use crate::kinds::make_snapshot::make_snapshot;
use crate::kinds::plan_cleaning::plan_cleaning;
use crate::kinds::release::release;
use crate::kinds::show::{pin, show, unpin};
use crate::next::{Next, SnapshotOrCleanerStep};
use crate::reservation::Reservation;
use crate::running::Running;
use crate::shared::Shared;
use crate::turn::Turn;
use nv_alloc::Hand;
use std::alloc::Global;

/// A step of a call on snapshots, or of a cleaner.
pub(crate) fn maintain(
    alloc: Global,
    shared: &mut Shared,
    hand: &mut Hand,
    running: &mut Running,
    actor: u64,
) -> Turn
    requires step { IsSnapshotOrCleanerStep running.old.next }
    requires can { CanStep shared.old (Reservation.Hand hand.old) running.old actor }
    requires rooms { HasRooms shared.old (Reservation.Hand hand.old) running.old }
    ensures turn { (told : ShownCall) → IsEither (λ granted. kind_turn (next_of running.old.next)
        shared.old.geometry.numbers.block actor granted (shared_of shared.old) (hand_of hand.old)
        (shown told running.old))
        (turn_of result running.new.answer (shared_of shared.new) (hand_of hand.new)
        (shown told running.new)) }
    ensures waits { result ≡ Turn.Waits
        → (shared.new ≡ shared.old) × (hand.new ≡ hand.old) × (running.new ≡ running.old) }
    ensures request { KeepsRequest running.old running.new }
    ensures rooms { HasRoomsAfter result shared.new (Reservation.Hand hand.new) running.new }
    ensures rest { LeavesRest actor (held_at (next_of running.old.next)
        (slots_in running.old.slots)) shared.old shared.new }
{
    match running.next {
        Next::SnapshotOrCleaner(SnapshotOrCleanerStep::Show(..)) => show(alloc, shared, running),
        Next::SnapshotOrCleaner(SnapshotOrCleanerStep::LockPicked(draining, picked)) => {
            lock_picked(shared, running, actor, draining, picked)
        }
        Next::SnapshotOrCleaner(SnapshotOrCleanerStep::Release(draining, picked)) => {
            release(shared, hand, running, draining, picked)
        }
        Next::SnapshotOrCleaner(SnapshotOrCleanerStep::LockCleaned(log)) => {
            lock_cleaned(shared, running, actor, log)
        }
        Next::SnapshotOrCleaner(SnapshotOrCleanerStep::PlanCleaning(manner, slot)) => {
            plan_cleaning(alloc, shared, hand, running, manner, slot)
        }
        Next::SnapshotOrCleaner(
            SnapshotOrCleanerStep::Fresh(_)
            | SnapshotOrCleanerStep::Unlink(_)
            | SnapshotOrCleanerStep::Compact(_),
        ) => clean(shared, hand, running, actor),
        _ => on_book(alloc, shared, hand, running, actor),
    }
}

/// A step that is lent the book: it waits while a commit is under way.
#[tactic(auto, using(crate::proofs::SnapRest::none_held))]
fn on_book(
    alloc: Global,
    shared: &mut Shared,
    hand: &mut Hand,
    running: &mut Running,
    actor: u64,
) -> Turn
    requires step { IsOnBook running.old.next }
    requires can { CanStep shared.old (Reservation.Hand hand.old) running.old actor }
    requires rooms { HasRooms shared.old (Reservation.Hand hand.old) running.old }
    // A step of a call on snapshots that is lent the book waits while a commit is under way.
    ensures turn { (told : ShownCall) → IsEither (λ granted. kind_turn (next_of running.old.next)
        shared.old.geometry.numbers.block actor granted (shared_of shared.old) (hand_of hand.old)
        (shown told running.old))
        (turn_of result running.new.answer (shared_of shared.new) (hand_of hand.new)
        (shown told running.new)) }
    ensures waits { result ≡ Turn.Waits
        → (shared.new ≡ shared.old) × (hand.new ≡ hand.old) × (running.new ≡ running.old) }
    ensures request { KeepsRequest running.old running.new }
    ensures rooms { HasRoomsAfter result shared.new (Reservation.Hand hand.new) running.new }
    ensures held { held_at (next_of running.old.next) (slots_in running.old.slots) ≡ [] }
    ensures rest { LeavesRest actor [] shared.old shared.new }
{
    if shared.holder.is_some() {
        return Turn::Waits;
    }
    match running.next {
        Next::SnapshotOrCleaner(SnapshotOrCleanerStep::Make) => {
            running.answer = make_snapshot(shared);
            Turn::Ends
        }
        Next::SnapshotOrCleaner(SnapshotOrCleanerStep::Drop(snapshot)) => {
            running.answer = drop_snapshot(shared, snapshot);
            Turn::Ends
        }
        Next::SnapshotOrCleaner(SnapshotOrCleanerStep::Pin(snapshot)) => pin(
            alloc, shared, running, snapshot,
        ),
        Next::SnapshotOrCleaner(SnapshotOrCleanerStep::Unpin(..)) => unpin(shared, running),
        Next::SnapshotOrCleaner(SnapshotOrCleanerStep::Pick(draining)) => pick(
            shared, hand, running, draining,
        ),
        _ => unreachable!(),
    }
}
