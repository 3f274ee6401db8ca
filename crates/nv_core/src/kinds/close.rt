//! The journal is closed.

ghost use Rattle.std.specs.Prelude.{◌≡◌};
ghost use Rattle.nv_machine.specs.Kinds.{close_turn};
ghost use Rattle.nv_machine.specs.World.{Moves};
ghost use Rattle.nv_core.specs.CommitSteps.{HasStepped, IsAtStep};
ghost use Rattle.nv_core.specs.Rooms.{committing_cpu};
ghost use Rattle.nv_core.specs.Shown.{ShownCall, hand_in, shared_of, shown_commit, slots_in};
ghost use Rattle.nv_core.specs.GhostCalls.{IsCommitOf, IsPlaceOf};

use crate::running::Running;
use crate::shared::Shared;
use nv_calls::{Commit, CommitStep, close_on};

/// Closes the journal of a CPU, once all is published: a new inode has its number from here on.
pub(crate) fn close(shared: &mut Shared, running: &Running, commit: &mut Commit, cpu: u64)
    requires at { IsAtStep CommitStep.Close shared.old running.now commit.old }
    requires cpu { cpu ≡ committing_cpu shared.old }
    ensures turn { (told : ShownCall) → IsCommitOf (slots_in running.now.slots) commit.old told
        → close_turn cpu (shared_of shared.old) (hand_in commit.old)
        (shown_commit commit.old told running.now)
        ≡ Moves (shared_of shared.new) (hand_in commit.new)
        (shown_commit commit.new told running.now) }
    ensures step { HasStepped running.now shared.old shared.new commit.old commit.new }
    ensures placed { (told : ShownCall) → IsPlaceOf (slots_in running.now.slots) commit.new told }
{
    close_on(&mut shared.book, commit);
}
