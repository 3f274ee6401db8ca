//! One inode's entries are published.

ghost use Rattle.std.specs.Prelude.{◌≡◌};
ghost use Rattle.nv_machine.specs.Kinds.{publish_turn};
ghost use Rattle.nv_machine.specs.Reads.{slot_at, written_slots};
ghost use Rattle.nv_machine.specs.World.{Moves};
ghost use Rattle.nv_core.specs.CommitSteps.{HasStepped, IsAtStep};
ghost use Rattle.nv_core.specs.Shown.{ShownCall, hand_in, shared_of, shown_commit, slots_in};
ghost use Rattle.nv_core.specs.GhostCalls.{IsCommitOf, IsPlaceOf};

use crate::lent::publish_in;
use crate::running::Running;
use crate::shared::Shared;
use nv_calls::{Commit, CommitStep};

/// Publishes the entries of the next inode.
pub(crate) fn publish(shared: &mut Shared, running: &Running, commit: &mut Commit)
    requires at { IsAtStep CommitStep.Publish shared.old running.now commit.old }
    // A commit publishes while its journal is open.
    ensures turn { (told : ShownCall) → IsCommitOf (slots_in running.now.slots) commit.old told
        → let s = shared_of shared.old in let r = shown_commit commit.old told running.now in
        publish_turn (slot_at (written_slots r) commit.old.published) commit.old.published s
        (hand_in commit.old) r
        ≡ Moves (shared_of shared.new) (hand_in commit.new)
        (shown_commit commit.new told running.now) }
    ensures step { HasStepped running.now shared.old shared.new commit.old commit.new }
    ensures placed { (told : ShownCall) → IsPlaceOf (slots_in running.now.slots) commit.new told }
{
    publish_in(&shared.book, &mut shared.cells, &running.slots, commit);
}
