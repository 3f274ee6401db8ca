//! The commit lock is given back.

ghost use Rattle.std.specs.Prelude.{◌≡◌, ◌≢◌, None};
ghost use Rattle.nv_calls.specs.Progress.{step_of};
ghost use Rattle.nv_machine.specs.Kinds.{leave_turn};
ghost use Rattle.nv_machine.specs.World as machine;
ghost use Rattle.nv_core.specs.Parts.{AreHome, IsOfDevice};
ghost use Rattle.nv_core.specs.Rooms.{HasRooms, HasRoomsAfter, IsNoDrain, hand_held};
ghost use Rattle.nv_core.specs.Shown.{ShownCall, hand_of, held_by, shared_of, shown, shown_at, turn_of};
ghost use Rattle.nv_core.specs.GhostCalls.{KeepsRequest, OwesAt};

use crate::ending::end;
use crate::reservation::Reservation;
use crate::running::Running;
use crate::shared::Shared;
use crate::turn::Turn;
use core::mem::replace_with;
use nv_calls::{Commit, CommitStep};

/// Frees the commit lock. The call turns to its last steps, and the actor has what its commit left in the hand.
pub(crate) fn leave(shared: &mut Shared, reserved: &mut Reservation, running: &mut Running) -> Turn
    requires step { (commit : Commit) × (reserved.old ≡ Reservation.Commit commit)
        × (step_of commit ≡ CommitStep.Leave) }
    requires home { AreHome shared.old }
    requires device { IsOfDevice shared.old.geometry.numbers (hand_held reserved.old) }
    requires rooms { HasRooms shared.old reserved.old running.old }
    // The commit lock is free behind it.
    ensures turn { (told : ShownCall) → OwesAt running.old.ending running.old told
        → leave_turn (shared_of shared.old) (held_by reserved.old)
        (shown_at machine.Leave told running.old)
        ≡ turn_of result running.new.answer (shared_of shared.new)
        (hand_of (hand_held reserved.old)) (shown told running.new) }
    ensures left { reserved.new ≡ Reservation.Hand (hand_held reserved.old) }
    ensures request { KeepsRequest running.old running.new }
    ensures goes { result ≢ Turn.Waits }
    ensures slots { IsNoDrain running.old.ending → running.new.slots ≡ running.old.slots }
    ensures rooms { HasRoomsAfter result shared.new reserved.new running.new }
    ensures rest { shared.new ≡ record shared.old { holder = None } }
{
    shared.holder = None;
    replace_with(reserved, (), Reservation::leave);
    let Reservation::Hand(hand) = reserved else {
        unreachable!()
    };
    let ending = running.ending;
    end(shared, hand, running, ending)
}
