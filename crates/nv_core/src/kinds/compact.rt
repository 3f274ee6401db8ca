//! A cleaner moves the entries that stay to fresh log pages.

ghost use Rattle.std.specs.Prelude.{◌≡◌, ◌≢◌, ◌∷◌, ℕ, [], length};
ghost use Rattle.nv_machine.specs.Cleaning.{compact_turn};
ghost use Rattle.nv_core.specs.Cleaning.{CanClean, CanCompact, IsMaintaining};
ghost use Rattle.nv_core.specs.Frames.{LeavesRest};
ghost use Rattle.nv_core.specs.Parts.{AreHome};
ghost use Rattle.nv_core.specs.Rooms.{HasRoomsAfter, IsHandOf};
ghost use Rattle.nv_core.specs.Shown.{ShownCall, hand_of, shared_of, shown, slots_in, turn_of};
ghost use Rattle.nv_core.specs.GhostCalls.{KeepsRequest};
ghost use Rattle.nv_machine.specs.Hands.{HasPagesAlone};

use crate::ending::unlock_first;
use crate::next::{CompactPlan, Ending};
use crate::reservation::Reservation;
use crate::running::Running;
use crate::shared::Shared;
use crate::turn::Turn;
use nv_alloc::Hand;

/// Moves the entries that the planning found to stay, and takes the old pages into the hand. The call turns to its last
/// steps.
pub(crate) fn compact(
    shared: &mut Shared,
    hand: &mut Hand,
    running: &mut Running,
    plan: CompactPlan,
) -> Turn
    requires slots { slots_in running.old.slots ≡ plan.ino ∷ [] }
    requires home { AreHome shared.old }
    requires wide { length shared.old.owners.items ≡ length shared.old.cells.items }
    requires sized { IsHandOf shared.old.geometry.numbers hand.old }
    requires call { IsMaintaining running.old }
    requires can { CanClean shared.old plan.ino }
    requires alone { HasPagesAlone (hand_of hand.old) }
    requires plan { CanCompact shared.old hand.old plan }
    // What stays moves to the hand's log pages; the old pages go into it.
    // A thorough cleaner is told how many entries and log pages its log lost.
    // No old log page goes home at this step.
    ensures turn { (told : ShownCall) → compact_turn plan.ino (shared_of shared.old) (hand_of hand.old)
        (shown told running.old)
        ≡ turn_of result running.new.answer (shared_of shared.new) (hand_of hand.new)
        (shown told running.new) }
    ensures request { KeepsRequest running.old running.new }
    ensures goes { result ≢ Turn.Waits }
    ensures rooms { HasRoomsAfter result shared.new (Reservation.Hand hand.new) running.new }
    ensures rest { (actor : ℕ) → LeavesRest actor (plan.ino ∷ []) shared.old shared.new }
{
    let CompactPlan { ino, walk } = plan;
    let cleaned = nv_steps::compact(&mut shared.cells[ino.number() as usize], hand, walk);
    unlock_first(running, Ending::Cleans(cleaned));
    Turn::Moves
}
