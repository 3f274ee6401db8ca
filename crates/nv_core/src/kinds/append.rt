//! Entries are appended past the tail of one inode's log.

ghost use Rattle.std.specs.Prelude.{◌≡◌};
ghost use Rattle.nv_machine.specs.Kinds.{append_turn};
ghost use Rattle.nv_machine.specs.Reads.{pages_needed, slot_at, written_slots};
ghost use Rattle.nv_machine.specs.World.{Moves};
ghost use Rattle.nv_core.specs.Appends.{IsPlanOf};
ghost use Rattle.nv_core.specs.CommitSteps.{HasStepped, IsAtStep};
ghost use Rattle.nv_core.specs.Shown.{ShownCall, hand_in, shared_of, shown_commit, slots_in};
ghost use Rattle.nv_core.specs.GhostCalls.{IsCommitOf, IsPlaceOf};

use crate::lent::append_in;
use crate::running::Running;
use crate::shared::Shared;
use nv_calls::{Commit, CommitStep};

/// Appends the entries of the next inode.
pub(crate) fn append(shared: &mut Shared, running: &Running, commit: &mut Commit)
    requires at { IsAtStep CommitStep.Append shared.old running.now commit.old }
    ensures turn { (told : ShownCall) → IsCommitOf (slots_in running.now.slots) commit.old told
        → IsPlaceOf (slots_in running.now.slots) commit.old told
        → let s = shared_of shared.old in let r = shown_commit commit.old told running.now in
        let ino = slot_at (written_slots r) commit.old.appended in
        append_turn ino (pages_needed s r.plan ino) commit.old.appended s (hand_in commit.old) r
        ≡ Moves (shared_of shared.new) (hand_in commit.new)
        (shown_commit commit.new told running.now) }
    ensures step { HasStepped running.now shared.old shared.new commit.old commit.new }
    ensures place { (told : ShownCall) → IsCommitOf (slots_in running.now.slots) commit.old told
        → IsPlaceOf (slots_in running.now.slots) commit.old told
        → IsPlanOf (slots_in running.now.slots) told.plan
        → IsPlaceOf (slots_in running.now.slots) commit.new told }
{
    append_in(&mut shared.cells, &running.slots, commit);
}
