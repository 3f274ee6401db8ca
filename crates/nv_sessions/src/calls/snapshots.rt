//! The calls on snapshots.

ghost use Rattle.std.specs.Prelude.{◌≡◌, ℕ, IfErr, IfOk, List, OnOk};
ghost use Rattle.nv_base.specs.Refusals.{KeepsOnErr};
ghost use Rattle.nv_machine.specs.World.{empty_hand};
ghost use Rattle.nv_sessions.specs.ByValue.{once_snapped};
ghost use Rattle.nv_sessions.specs.Refusing.{MayRefuseSnapshotOrCleaner};
ghost use Rattle.nv_sessions.specs.RunCalls.{dropping, making, told_as};
ghost use Rattle.nv_sessions.specs.Sessions.{IsGivenBack};
ghost use Rattle.nv_sessions.specs.ShowRuns.{IsShowRun};
ghost use Rattle.nv_entry.specs.declared.tree.TreeNode.{TreeNode};
ghost use Rattle.nv_steps.specs.Runs.{IsRun};

use crate::locked_parts::LockedParts;
use crate::names::{Blocks, Commits};
use crate::seen::Seen;
use crate::session::Session;
use crate::snapshots::{pin, show_tree, unpin};
use nv_base::{Epoch, Fault};
use nv_calls::{Answer, SnapshotOrCleanerCall};
use std::sync::Wait;

impl<C: Commits, B: Blocks> Session<C, B> {
    /// Makes a snapshot of all nodes as they are, and answers its number. It counts in the session. `EpochLimit`,
    /// `TooManySnapshots`.
    pub fn snap<R: Wait>(&mut self, rt: &R, service: &LockedParts<C, B>) -> Result<Seen, Fault>
        // A making is a run of the machine's turns, from its start to its answer or refusal, on a book that was found.
        ensures run { IsRun service.now.geometry.numbers self.old.number empty_hand making
            (told_as result) empty_hand }
        // Snapshots are answered by their kind, and leave what the session has seen and committed.
        ensures answer { IfOk result (λ seen. (s : ℕ) × (seen ≡ Seen.Other (Answer.Snapshot s))) }
        // Each refusal is one of the call's list, or a part that does not fit.
        ensures err { IfErr result (MayRefuseSnapshotOrCleaner SnapshotOrCleanerCall.Snap) }
        // Each counts in the session, where it is not refused.
        ensures counted { OnOk result (self.new ≡ once_snapped self.old) }
        ensures same { KeepsOnErr result self.old self.new }
        // The hand is empty afterwards, except where a list or the pool refused what is left.
        ensures held { IsGivenBack self.new.held }
    {
        let mine = &mut self.snapped;
        let answer = service.book_lock().lock(rt).make_snapshot(mine)?;
        Ok(Seen::Other(answer))
    }

    /// Drops a snapshot: what no older one holds either is deferred. It counts in the session. `NoSnapshot`, `Pinned`.
    pub fn drop_snap<R: Wait>(
        &mut self,
        rt: &R,
        service: &LockedParts<C, B>,
        snapshot: Epoch,
    ) -> Result<Seen, Fault>
        // So is a drop, of this very snapshot.
        ensures run { IsRun service.now.geometry.numbers self.old.number empty_hand
            (dropping snapshot) (told_as result) empty_hand }
        ensures answer { IfOk result (λ seen. seen ≡ Seen.Other Answer.Nothing) }
        ensures err { IfErr result
            (MayRefuseSnapshotOrCleaner (SnapshotOrCleanerCall.Drop snapshot)) }
        ensures counted { OnOk result (self.new ≡ once_snapped self.old) }
        ensures same { KeepsOnErr result self.old self.new }
        ensures held { IsGivenBack self.new.held }
    {
        let mine = &mut self.snapped;
        let flag = &service.deferred_flag;
        let answer = service
            .book_lock()
            .lock(rt)
            .drop_snapshot(snapshot, mine, flag)?;
        Ok(Seen::Other(answer))
    }

    /// Asks for the tree as it was when a snapshot was made, which is pinned as long as the call reads. `NoSnapshot`;
    /// `OutOfMemory` where room was refused.
    /// Only tested: each cell that a show finds is whole, so that the tree is that of the making, while others write.
    pub fn show<R: Wait>(
        &mut self,
        rt: &R,
        service: &LockedParts<C, B>,
        snapshot: Epoch,
    ) -> Result<Seen, Fault>
        // A show pins its snapshot, visits one cell after another, and takes the pin off, each in one turn of the machine.
        ensures run { IsShowRun service.now.geometry.numbers self.old.number snapshot
            (told_as result) }
        ensures answer { IfOk result (λ seen. (tree : List TreeNode)
            × (seen ≡ Seen.Other (Answer.Tree tree))) }
        ensures err { IfErr result
            (MayRefuseSnapshotOrCleaner (SnapshotOrCleanerCall.Show snapshot)) }
        ensures same { self.new ≡ self.old }
        ensures held { IsGivenBack self.new.held }
    {
        self.keeps_only_what_was_refused();
        let first = pin(rt, service, snapshot)?;
        let shown = show_tree(rt, service, snapshot, first);
        let answer = unpin(rt, service, snapshot, shown)?;
        Ok(Seen::Other(answer))
    }
}
