//! A snapshot is made.

ghost use Rattle.std.specs.Prelude.{◌≡◌, []};
ghost use Rattle.nv_machine.specs.SnapshotOrCleaner.{make_tests, make_turn};
ghost use Rattle.nv_machine.specs.World as machine;
ghost use Rattle.nv_machine.specs.World.{empty_hand};
ghost use Rattle.nv_core.specs.Shown.{shared_of};

use crate::shared::Shared;
use nv_base::Fault;
use nv_calls::Answer;

/// Makes a snapshot of the current epoch, which is the call's only step.
pub(crate) fn make_snapshot(shared: &mut Shared) -> Result<Answer, Fault>
    // A making is one step, which is answered or refused as the turn says.
    // A making changes the book alone.
    ensures turn { (r : machine.Running) → r.slots ≡ [] → let s = shared_of shared.old in
        make_turn (make_tests s.book.snaps) s empty_hand r
        ≡ machine.Ends result (shared_of shared.new) empty_hand }
    ensures rest { shared.new ≡ record shared.old { book = shared.new.book } }
{
    nv_steps::make_snapshot(&mut shared.book)
}
