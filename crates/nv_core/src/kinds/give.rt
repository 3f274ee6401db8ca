//! Blocks go home to one list.

ghost use Rattle.std.specs.Prelude.{◌≡◌, ◌≢◌, ◌+◌, ◌<◌, ◌≤◌, ℕ, length};
ghost use Rattle.nv_alloc.specs.Block.{AreSized, numbers_of};
ghost use Rattle.nv_alloc.specs.Hand.{blocks_of};
ghost use Rattle.nv_alloc.specs.Numbers.{times};
ghost use Rattle.nv_machine.specs.Hands.{AreGiven};
ghost use Rattle.nv_machine.specs.Kinds.{blocks_in, give_turn};
ghost use Rattle.nv_machine.specs.World.{list_at};
ghost use Rattle.nv_core.specs.Parts.{AreHome, IsOfDevice};
ghost use Rattle.nv_core.specs.Rooms.{CanDrain, HasRooms, HasRoomsAfter, IsNoVisit};
ghost use Rattle.nv_core.specs.Shown.{ShownCall, hand_of, shared_of, shown, turn_of};
ghost use Rattle.nv_core.specs.GhostCalls.{KeepsRequest, OwesAt};

use crate::ending::give_left;
use crate::next::Next;
use crate::reservation::Reservation;
use crate::running::Running;
use crate::shared::Shared;
use crate::turn::Turn;
use nv_alloc::Hand;

/// Gives one list all blocks in the hand that are at home there.
pub(crate) fn give(shared: &mut Shared, hand: &mut Hand, running: &mut Running, cpu: u64) -> Turn
    requires rooms { HasRooms shared.old (Reservation.Hand hand.old) running.old }
    requires request { IsNoVisit running.old.request }
    requires drains { CanDrain running.old.ending running.old.request hand.old }
    requires wide { length shared.old.owners.items ≡ length shared.old.cells.items }
    requires next { running.old.next ≡ Next.Give cpu }
    requires cpu { cpu < shared.old.geometry.numbers.cpus }
    requires home { AreHome shared.old }
    requires device { IsOfDevice shared.old.geometry.numbers hand.old }
    requires given { AreGiven shared.old.geometry.numbers cpu (blocks_in (hand_of hand.old)) }
    requires sized { AreSized shared.old.geometry.numbers.block (blocks_of hand.old) }
    requires once { (n : ℕ) → times n (numbers_of (blocks_of hand.old))
        + times n (numbers_of (list_at (shared_of shared.old) cpu).blocks) ≤ 1 }
    ensures turn { (told : ShownCall) → OwesAt running.old.ending running.old told
        → give_turn cpu (shared_of shared.old) (hand_of hand.old) (shown told running.old)
        ≡ turn_of result running.new.answer (shared_of shared.new) (hand_of hand.new)
        (shown told running.new) }
    ensures request { KeepsRequest running.old running.new }
    ensures goes { result ≢ Turn.Waits }
    ensures rooms { HasRoomsAfter result shared.new (Reservation.Hand hand.new) running.new }
    ensures rest { shared.new ≡ record shared.old { lists = shared.new.lists } }
    ensures count { length shared.new.lists.items ≡ length shared.old.lists.items }
{
    let left = nv_steps::give(&mut shared.lists[cpu as usize], hand, &shared.geometry);
    give_left(left, running)
}
