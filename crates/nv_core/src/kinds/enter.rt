//! The commit lock is taken.

ghost use Rattle.std.specs.Prelude.{◌≡◌, ◌<◌, ◌≤◌, [], None, Some, is_some, nat_le, true};
ghost use Rattle.nv_base.specs.declared.limits.TheConstants.{NUMBER};
ghost use Rattle.nv_machine.specs.Kinds.{enter_turn};
ghost use Rattle.nv_core.specs.Appends.{IsPlacedBy};
ghost use Rattle.nv_core.specs.Parts.{AreHome, IsOfDevice};
ghost use Rattle.nv_core.specs.Rooms.{HasRooms, HasRoomsAfter, hand_held};
ghost use Rattle.nv_core.specs.Shown.{ShownCall, held_by, shared_of, shown_by, slots_in, turn_of};
ghost use Rattle.nv_core.specs.Steps.{GivenBy};
ghost use Rattle.nv_core.specs.GhostCalls.{IsEither, IsReservationOf, KeepsRequest, shown_in};

use crate::ending::refuse;
use crate::reservation::Reservation;
use crate::running::Running;
use crate::shared::Shared;
use crate::turn::Turn;
use core::mem::replace_with;
use nv_calls::Ready;

/// Takes the commit lock, or waits for it, and fixes number and epoch of the commit. The actor has that commit then, what
/// is ready as long as it waits, or its hand where it is refused.
pub(crate) fn enter(
    shared: &mut Shared,
    reserved: &mut Reservation,
    running: &mut Running,
    actor: u64,
) -> Turn
    requires ready { (ready : Ready) × (reserved.old ≡ Reservation.Ready ready) }
    requires home { AreHome shared.old }
    requires device { IsOfDevice shared.old.geometry.numbers (hand_held reserved.old) }
    requires rooms { HasRooms shared.old reserved.old running.old }
    requires given { GivenBy shared.old reserved.old running.old actor }
    // The actor holds the commit lock behind it.
    ensures turn { (told : ShownCall)
        → IsReservationOf (slots_in running.old.slots) reserved.old told
        → let s = shared_of shared.old in let after = shown_in reserved.new s.book told in
        IsEither (λ granted. enter_turn s.holder (nat_le NUMBER s.book.commit) granted actor s
        (held_by reserved.old) (shown_by reserved.old told running.old))
        (turn_of result running.new.answer (shared_of shared.new) (held_by reserved.new)
        (shown_by reserved.new after running.new)) }
    ensures told { (told : ShownCall)
        → IsReservationOf (slots_in running.old.slots) reserved.old told
        → IsReservationOf (slots_in running.old.slots) reserved.new
        (shown_in reserved.new shared.old.book.state told) }
    ensures placed { (told : ShownCall)
        → IsReservationOf (slots_in running.old.slots) reserved.old told
        → IsPlacedBy (slots_in running.old.slots) reserved.old told
        → IsPlacedBy (slots_in running.old.slots) reserved.new
        (shown_in reserved.new shared.old.book.state told) }
    // It wants no memory where the book has room for what the call can kill.
    ensures enough { (ready : Ready) → reserved.old ≡ Reservation.Ready ready
        → shared.old.holder ≡ None → shared.old.book.state.commit < NUMBER
        → ready.need ≤ shared.old.book.room → shared.new.holder ≡ Some actor }
    // It wants no memory where no snapshot lives.
    ensures none_lives { (ready : Ready) → reserved.old ≡ Reservation.Ready ready
        → shared.old.holder ≡ None → shared.old.book.state.commit < NUMBER
        → shared.old.book.state.snaps.living ≡ [] → shared.new.holder ≡ Some actor }
    ensures waits { is_some shared.old.holder ≡ true → result ≡ Turn.Waits }
    ensures still { result ≡ Turn.Waits → (shared.new ≡ shared.old)
        × (running.new ≡ running.old) × (reserved.new ≡ reserved.old) }
    ensures request { KeepsRequest running.old running.new }
    ensures slots { running.new.slots ≡ running.old.slots }
    ensures rooms { HasRoomsAfter result shared.new reserved.new running.new }
    ensures rest { shared.new
        ≡ record shared.old { book = shared.new.book; holder = shared.new.holder } }
{
    if shared.holder.is_some() {
        return Turn::Waits;
    }
    let Reservation::Ready(ready) = reserved else {
        unreachable!()
    };
    shared.book.keeps_its_limit();
    match shared.book.enter(actor, ready.need()) {
        Ok(_fixed) => {
            shared.holder = Some(actor);
            replace_with(reserved, &shared.book, Reservation::begin);
            Turn::Moves
        }
        Err(fault) => {
            replace_with(reserved, (), Reservation::give_up);
            let Reservation::Hand(hand) = reserved else {
                unreachable!()
            };
            refuse(shared, hand, running, fault)
        }
    }
}
