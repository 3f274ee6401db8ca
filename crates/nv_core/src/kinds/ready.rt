//! All growths of a call, and the bytes of its pages.

ghost use Rattle.std.specs.Prelude.{◌≡◌, ◌≢◌};
ghost use Rattle.nv_base.specs.Limits.{IsWithinLimits};
ghost use Rattle.nv_machine.specs.Kinds.{ready_turn};
ghost use Rattle.nv_core.specs.Appends.{IsPlacedBy};
ghost use Rattle.nv_core.specs.Frames.{LeavesCells};
ghost use Rattle.nv_core.specs.Parts.{AreHome, IsOfDevice};
ghost use Rattle.nv_core.specs.Readied.{planned_by};
ghost use Rattle.nv_core.specs.Rooms.{HasRooms, HasRoomsAfter, hand_held};
ghost use Rattle.nv_core.specs.Shown.{ShownCall, held_by, shared_of, shown, shown_by, slots_in, turn_of};
ghost use Rattle.nv_core.specs.Steps.{CanGetReady};
ghost use Rattle.nv_core.specs.GhostCalls.{IsEither, IsReservationOf, IsShownCallOf};

use crate::ending::refuse;
use crate::lent::ready_in;
use crate::next::Next;
use crate::request::Request;
use crate::reservation::Reservation;
use crate::running::Running;
use crate::shared::Shared;
use crate::turn::Turn;
use core::mem::replace_with;
use nv_alloc::Hand;
use nv_calls::Update;
use std::alloc::Global;
use std::mem;

/// Makes the call ready: every growth of its commit is made, and its fresh blocks have their bytes. The actor has what is
/// ready then, or its hand where that is refused.
pub(crate) fn ready(
    alloc: Global,
    shared: &mut Shared,
    reserved: &mut Reservation,
    running: &mut Running,
) -> Turn
    requires hand { (hand : Hand) × (reserved.old ≡ Reservation.Hand hand) }
    requires limits { IsWithinLimits shared.old.geometry.numbers }
    requires home { AreHome shared.old }
    requires device { IsOfDevice shared.old.geometry.numbers (hand_held reserved.old) }
    requires next { running.old.next ≡ Next.Ready }
    requires rooms { HasRooms shared.old reserved.old running.old }
    requires can { CanGetReady shared.old running.old }
    ensures turn { (told : ShownCall) → IsShownCallOf running.old told
        → IsEither (λ granted. ready_turn granted shared.old.geometry.numbers.block
        (shared_of shared.old) (held_by reserved.old) (shown told running.old))
        (turn_of result running.new.answer (shared_of shared.new) (held_by reserved.new)
        (shown_by reserved.new
        (planned_by reserved.new shared.old (hand_held reserved.old) running.old told)
        running.new)) }
    ensures told { (told : ShownCall) → IsShownCallOf running.old told → IsShownCallOf running.new told }
    ensures plans { (told : ShownCall) → IsShownCallOf running.old told
        → IsReservationOf (slots_in running.old.slots) reserved.new
        (planned_by reserved.new shared.old (hand_held reserved.old) running.old told) }
    ensures placed { (told : ShownCall) → IsShownCallOf running.old told
        → IsPlacedBy (slots_in running.old.slots) reserved.new
        (planned_by reserved.new shared.old (hand_held reserved.old) running.old told) }
    ensures slots { running.new.slots ≡ running.old.slots }
    ensures goes { result ≢ Turn.Waits }
    ensures rooms { HasRoomsAfter result shared.new reserved.new running.new }
    ensures rest { LeavesCells (slots_in running.old.slots) shared.old shared.new }
    ensures book { shared.new.book ≡ shared.old.book }
{
    let Request::Change(update, text) = mem::replace(&mut running.request, Request::Taken) else {
        unreachable!()
    };
    let Reservation::Hand(held) = reserved else {
        unreachable!()
    };
    let hand = mem::replace(held, Hand::new(alloc, &shared.geometry));
    let ready = ready_in(
        alloc,
        &mut shared.cells,
        &running.slots,
        update,
        hand,
        text.as_slice(),
    );
    match ready {
        Ok(ready) => {
            replace_with(reserved, ready, Reservation::make_ready);
            Turn::Moves
        }
        Err((fault, hand)) => {
            let empty = mem::replace(held, hand);
            empty.dismantle();
            refuse(shared, held, running, fault)
        }
    }
}
