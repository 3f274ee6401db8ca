//! A cleaner unlinks the log pages that nothing needs.

ghost use Rattle.std.specs.Prelude.{◌≡◌, ◌≢◌, ◌∷◌, ℕ, [], length};
ghost use Rattle.nv_machine.specs.Cleaning.{unlink_turn};
ghost use Rattle.nv_machine.specs.World.{empty_hand};
ghost use Rattle.nv_core.specs.Cleaning.{CanClean, CanUnlink, IsMaintaining};
ghost use Rattle.nv_core.specs.Frames.{LeavesRest};
ghost use Rattle.nv_core.specs.Parts.{AreHome};
ghost use Rattle.nv_core.specs.Rooms.{HasRoomsAfter, IsHandOf};
ghost use Rattle.nv_core.specs.Shown.{ShownCall, hand_of, shared_of, shown, slots_in, turn_of};
ghost use Rattle.nv_core.specs.GhostCalls.{KeepsRequest};

use crate::ending::unlock_first;
use crate::next::{Ending, UnlinkPlan};
use crate::reservation::Reservation;
use crate::running::Running;
use crate::shared::Shared;
use crate::turn::Turn;
use nv_alloc::Hand;

/// Unlinks the pages that the planning found, also where there is none. The call turns to its last steps.
pub(crate) fn unlink(
    shared: &mut Shared,
    hand: &mut Hand,
    running: &mut Running,
    plan: UnlinkPlan,
) -> Turn
    requires slots { slots_in running.old.slots ≡ plan.ino ∷ [] }
    requires home { AreHome shared.old }
    requires wide { length shared.old.owners.items ≡ length shared.old.cells.items }
    requires sized { IsHandOf shared.old.geometry.numbers hand.old }
    requires call { IsMaintaining running.old }
    requires can { CanClean shared.old plan.ino }
    requires empty { hand_of hand.old ≡ empty_hand }
    requires plan { CanUnlink shared.old hand.old plan }
    // The log pages that the planning found leave the log, and go into the hand.
    // A fast cleaner is told that its cleaning was fast.
    ensures turn { (told : ShownCall) → unlink_turn plan.ino (shared_of shared.old) (hand_of hand.old)
        (shown told running.old)
        ≡ turn_of result running.new.answer (shared_of shared.new) (hand_of hand.new)
        (shown told running.new) }
    ensures request { KeepsRequest running.old running.new }
    ensures goes { result ≢ Turn.Waits }
    ensures rooms { HasRoomsAfter result shared.new (Reservation.Hand hand.new) running.new }
    ensures rest { (actor : ℕ) → LeavesRest actor (plan.ino ∷ []) shared.old shared.new }
{
    let UnlinkPlan { ino, walk } = plan;
    let cleaned = nv_steps::unlink(&mut shared.cells[ino.number() as usize], hand, walk);
    unlock_first(running, Ending::Cleans(cleaned));
    Turn::Moves
}
