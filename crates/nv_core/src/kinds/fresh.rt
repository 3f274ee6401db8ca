//! A cleaner takes the log pages that the entries fill which stay.

ghost use Rattle.std.specs.Prelude.{◌≡◌, ◌≢◌, ◌+◌, ◌-◌, ◌<◌, ◌^◌, length};
ghost use Rattle.nv_base.specs.Limits.{IsWithinLimits};
ghost use Rattle.nv_machine.specs.Cleaning.{take_fresh_turn};
ghost use Rattle.nv_machine.specs.Kinds.{asked_list};
ghost use Rattle.nv_core.specs.Cleaning.{IsMaintaining, TakesFresh};
ghost use Rattle.nv_core.specs.Parts.{AreHome, IsOfDevice};
ghost use Rattle.nv_core.specs.Rooms.{HasRoomsAfter, IsHandOf};
ghost use Rattle.nv_core.specs.Shown.{ShownCall, hand_of, shared_of, shown, slots_in, turn_of};
ghost use Rattle.nv_core.specs.GhostCalls.{KeepsRequest};

use crate::ending::refuse;
use crate::kinds::take::take_next;
use crate::next::{FreshPages, Next, SnapshotOrCleanerStep};
use crate::reservation::Reservation;
use crate::running::Running;
use crate::shared::Shared;
use crate::turn::Turn;
use nv_alloc::Hand;
use nv_base::Fault;
use nv_steps::Taken;

/// Takes log pages from one list, its lowest blocks. The next list is asked for those that are still wanted, if there is one.
pub(crate) fn take_fresh(
    shared: &mut Shared,
    hand: &mut Hand,
    running: &mut Running,
    actor: u64,
    fresh: FreshPages,
) -> Turn
    requires limits { IsWithinLimits shared.old.geometry.numbers }
    requires home { AreHome shared.old }
    requires device { IsOfDevice shared.old.geometry.numbers hand.old }
    requires sized { IsHandOf shared.old.geometry.numbers hand.old }
    requires call { IsMaintaining running.old }
    requires takes { TakesFresh shared.old hand.old fresh }
    // A cleaner holds the slot of its inode.
    requires slots { 0 < length (slots_in running.old.slots) }
    requires wide { length shared.old.owners.items ≡ length shared.old.cells.items }
    requires small { actor + fresh.asked < 2 ^ 64 - 1 }
    // A thorough cleaner takes its log pages from one list a step, its lowest blocks.
    ensures turn { (told : ShownCall) → let s = shared_of shared.old in
        take_fresh_turn (asked_list (length s.lists) actor fresh.asked) fresh.plan.ino fresh.asked
        fresh.left s (hand_of hand.old) (shown told running.old)
        ≡ turn_of result running.new.answer (shared_of shared.new) (hand_of hand.new)
        (shown told running.new) }
    ensures request { KeepsRequest running.old running.new }
    ensures goes { result ≢ Turn.Waits }
    ensures rooms { HasRoomsAfter result shared.new (Reservation.Hand hand.new) running.new }
    ensures rest { shared.new ≡ record shared.old { lists = shared.new.lists } }
    ensures count { length shared.new.lists.items ≡ length shared.old.lists.items }
{
    let FreshPages { asked, left, plan } = fresh;
    match take_next(shared, &mut hand.pages, left, actor, asked) {
        Taken::All => {
            running.next = Next::SnapshotOrCleaner(SnapshotOrCleanerStep::Compact(plan));
            Turn::Moves
        }
        Taken::Lacks(left) => {
            let asked = asked + 1;
            let fresh = FreshPages { asked, left, plan };
            running.next = Next::SnapshotOrCleaner(SnapshotOrCleanerStep::Fresh(fresh));
            Turn::Moves
        }
        Taken::TooFew => refuse(shared, hand, running, Fault::NoSpace),
    }
}
