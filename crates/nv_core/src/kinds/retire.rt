//! What the publish of one inode killed is retired.

ghost use Rattle.std.specs.Prelude.{◌≡◌};
ghost use Rattle.nv_machine.specs.Kinds.{first_killed, retire_turn};
ghost use Rattle.nv_machine.specs.Reads.{slot_at, written_slots};
ghost use Rattle.nv_machine.specs.World.{Moves};
ghost use Rattle.nv_core.specs.CommitSteps.{HasStepped, IsAtStep};
ghost use Rattle.nv_core.specs.Shown.{ShownCall, hand_in, killed_in, shared_of, shown_commit, slots_in};
ghost use Rattle.nv_core.specs.GhostCalls.{IsCommitOf, IsPlaceOf};

use crate::lent::retire_in;
use crate::running::Running;
use crate::shared::Shared;
use nv_calls::{Commit, CommitStep};

/// Retires what was killed of the next inode.
pub(crate) fn retire(shared: &mut Shared, running: &Running, commit: &mut Commit)
    requires at { IsAtStep CommitStep.Retire shared.old running.now commit.old }
    ensures turn { (told : ShownCall) → IsCommitOf (slots_in running.now.slots) commit.old told
        → let s = shared_of shared.old in let r = shown_commit commit.old told running.now in
        retire_turn (slot_at (written_slots r) commit.old.retired)
        (first_killed (killed_in commit.old)) commit.old.retired s (hand_in commit.old) r
        ≡ Moves (shared_of shared.new) (hand_in commit.new)
        (shown_commit commit.new told running.now) }
    ensures step { HasStepped running.now shared.old shared.new commit.old commit.new }
    ensures placed { (told : ShownCall) → IsPlaceOf (slots_in running.now.slots) commit.new told }
{
    retire_in(&mut shared.book, &mut shared.cells, &running.slots, commit);
}
