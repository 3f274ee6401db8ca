//! The number in the hand goes back.

ghost use Rattle.std.specs.Prelude.{◌≡◌, ◌≢◌, ◌<◌, false, length};
ghost use Rattle.std.specs.Option.{ForSome};
ghost use Rattle.nv_alloc.specs.Numbers.{has};
ghost use Rattle.nv_machine.specs.Kinds.{return_number_turn};
ghost use Rattle.nv_core.specs.Parts.{AreHome};
ghost use Rattle.nv_core.specs.Rooms.{CanDrain, CanEnd, HasRooms, HasRoomsAfter};
ghost use Rattle.nv_core.specs.Shown.{ShownCall, hand_of, shared_of, shown, turn_of};
ghost use Rattle.nv_core.specs.GhostCalls.{KeepsRequest, OwesAt};

use crate::ending::last;
use crate::next::Next;
use crate::reservation::Reservation;
use crate::running::Running;
use crate::shared::Shared;
use crate::turn::Turn;
use nv_alloc::Hand;

/// Gives the number in the hand back, which is the call's last step, or that of a record of a drain.
pub(crate) fn return_number(shared: &mut Shared, hand: &mut Hand, running: &mut Running) -> Turn
    requires rooms { HasRooms shared.old (Reservation.Hand hand.old) running.old }
    requires home { AreHome shared.old }
    requires wide { length shared.old.owners.items ≡ length shared.old.cells.items }
    requires next { running.old.next ≡ Next.ReturnNumber }
    requires call { CanEnd running.old running.old.ending }
    requires drains { CanDrain running.old.ending running.old.request hand.old }
    requires inode { ForSome hand.old.ino (λ ino. ino < shared.old.pool.inodes) }
    requires absent { ForSome hand.old.ino (λ ino. has shared.old.pool.numbers ino ≡ false) }
    // The number in a hand goes back once.
    ensures turn { (told : ShownCall) → OwesAt running.old.ending running.old told
        → let h = hand_of hand.old in
        return_number_turn h.ino (shared_of shared.old) h (shown told running.old)
        ≡ turn_of result running.new.answer (shared_of shared.new) (hand_of hand.new)
        (shown told running.new) }
    ensures request { KeepsRequest running.old running.new }
    ensures goes { result ≢ Turn.Waits }
    ensures rooms { HasRoomsAfter result shared.new (Reservation.Hand hand.new) running.new }
    ensures rest { shared.new ≡ record shared.old { pool = shared.new.pool } }
{
    nv_steps::return_number(&mut shared.pool, hand);
    last(running)
}
