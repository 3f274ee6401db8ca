//! A snapshot is dropped.

ghost use Rattle.std.specs.Prelude.{◌≡◌, []};
ghost use Rattle.nv_epoch.specs.SnapList.{pins_of};
ghost use Rattle.nv_machine.specs.SnapshotOrCleaner.{drop_tests, drop_turn};
ghost use Rattle.nv_machine.specs.World as machine;
ghost use Rattle.nv_machine.specs.World.{empty_hand};
ghost use Rattle.nv_core.specs.Shown.{shared_of};

use crate::shared::Shared;
use nv_base::{Epoch, Fault};
use nv_calls::Answer;

/// Drops a snapshot that has no pin, which is the call's only step.
pub(crate) fn drop_snapshot(shared: &mut Shared, snapshot: u64) -> Result<Answer, Fault>
    // A drop is one step, and changes the book alone.
    // A drop defers what no living snapshot holds, and nothing else.
    ensures turn { (r : machine.Running) → r.slots ≡ [] → let s = shared_of shared.old in
        drop_turn snapshot (drop_tests (pins_of s.book.snaps snapshot)) s empty_hand r
        ≡ machine.Ends result (shared_of shared.new) empty_hand }
    ensures rest { shared.new ≡ record shared.old { book = shared.new.book } }
{
    let snapshot = Epoch::new(snapshot);
    nv_steps::drop_snapshot(&mut shared.book, snapshot)
}
