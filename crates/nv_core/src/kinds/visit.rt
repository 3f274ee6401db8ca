//! The step of a call that reads.

ghost use Rattle.std.specs.Prelude.{◌≡◌, ◌≢◌, ◌||◌, ℕ, [], None, length, not};
ghost use Rattle.nv_calls.specs.AllCalls.{answer, refusal};
ghost use Rattle.nv_calls.specs.Locked.{handles};
ghost use Rattle.nv_machine.specs.Kinds.{visit_turn};
ghost use Rattle.nv_machine.specs.Reads.{copies, nodes};
ghost use Rattle.nv_machine.specs.Sequence.{nothing_looked};
ghost use Rattle.nv_machine.specs.Step.{handle_at, kind_turn, visit_grows};
ghost use Rattle.nv_machine.specs.World as machine;
ghost use Rattle.nv_machine.specs.World.{empty_hand, owner_at};
ghost use Rattle.nv_core.specs.Parts.{AreHome};
ghost use Rattle.nv_core.specs.Rooms.{HasRooms, HasRoomsAfter};
ghost use Rattle.nv_core.specs.Shown.{ShownCall, shared_of, shown, slots_in, turn_of};
ghost use Rattle.nv_core.specs.Visits.{HasOwnBytes};
ghost use Rattle.nv_core.specs.GhostCalls.{IsEither, IsShownCallOf, IsVisit, IsVisitOf};

use crate::next::Next;
use crate::request::{Request, visited};
use crate::reservation::Reservation;
use crate::running::Running;
use crate::shared::Shared;
use crate::turn::Turn;
use nv_alloc::Hand;
use nv_base::{Fault, Ino};
use nv_calls::{Answer, Call};
use std::mem;

/// Reads one inode, or waits for its lock.
pub(crate) fn visit(shared: &Shared, running: &mut Running) -> Turn
    requires visit { IsVisitOf running.old.request }
    requires next { running.old.next ≡ Next.Visit }
    requires slots { slots_in running.old.slots ≡ [] }
    requires home { AreHome shared.now }
    requires wide { length shared.now.owners.items ≡ length shared.now.cells.items }
    requires own { (ino : ℕ) → HasOwnBytes (shared_of shared.now) ino }
    ensures turn { (told : ShownCall) → IsShownCallOf running.old told
        → let block = shared.now.geometry.numbers.block in let s = shared_of shared.now in
        let c = told.call in let r = shown told running.old in
        IsEither (λ granted. visit_turn (owner_at s (handle_at (handles nothing_looked c) 0).ino)
        (refusal block (copies s) c) (granted || not (visit_grows c)) (answer (nodes s) r.made c)
        s empty_hand r)
        (turn_of result running.new.answer s empty_hand (shown told running.new)) }
    ensures ends { result ≢ Turn.Moves }
    ensures waits { result ≡ Turn.Waits → running.new ≡ running.old }
    ensures rooms { (hand : Hand) → HasRooms shared.now (Reservation.Hand hand) running.old
        → HasRoomsAfter result shared.now (Reservation.Hand hand) running.new }
{
    let Request::Visit(call) = &running.request else {
        unreachable!()
    };
    let ino = visited(call).ino;
    if shared.is_locked(ino) {
        return Turn::Waits;
    }
    let Request::Visit(call) = mem::replace(&mut running.request, Request::Taken) else {
        unreachable!()
    };
    running.answer = found(shared, ino, call);
    Turn::Ends
}

/// What a call finds in the cell of its inode, if there is one.
fn found(shared: &Shared, ino: Ino, call: Call) -> Result<Answer, Fault>
    requires visit { IsVisit call }
    requires ino { ino ≡ (handle_at (handles nothing_looked call) 0).ino }
    requires own { HasOwnBytes (shared_of shared.now) ino }
    requires free { owner_at (shared_of shared.now) ino ≡ None }
    requires home { AreHome shared.now }
    requires wide { length shared.now.owners.items ≡ length shared.now.cells.items }
    ensures { (r : machine.Running) → r.next ≡ machine.Visit → r.call ≡ call → r.slots ≡ []
        → let s = shared_of shared.now in
        IsEither (λ granted. kind_turn machine.Visit shared.now.geometry.numbers.block 0 granted s
        empty_hand r)
        (machine.Ends result s empty_hand) }
{
    match nv_steps::visit(ino, shared.cell(ino), call) {
        Ok(view) => Ok(view.into_found()),
        Err(fault) => Err(fault),
    }
}
