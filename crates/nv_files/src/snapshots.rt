//! Calls on snapshots.

ghost use Rattle.nv_calls.specs.declared.snapshot_or_cleaner_call.SnapshotOrCleanerCall.TheVariants as on;
ghost use Rattle.nv_files.specs.Stands.{Leads};
ghost use Rattle.nv_files.specs.Told.{IsTold, IsToldOrStarved};

use crate::answers::{check_nothing, count_of, snapshot_of, tree_of};
use crate::files::Files;
use nv_base::{Epoch, Fault};
use nv_calls::{Answer, Call, SnapshotOrCleanerCall};
use nv_entry::Tree;

impl Files {
    /// Makes a snapshot of all nodes as they are. Takes no memory.
    pub fn snap(&mut self) -> Result<Epoch, Fault>
        // A `snap` tells the number of the snapshot that the world with numbers makes, or is refused as there.
        ensures { Leads (IsTold (Call.SnapshotOrCleaner on.Snap) result
            (λ snapshot. Answer.Snapshot snapshot)) self.old self.new }
    {
        let snap = Call::SnapshotOrCleaner(SnapshotOrCleanerCall::Snap);
        let answer = self.call(snap)?;
        Ok(snapshot_of(answer))
    }

    /// Drops a snapshot: what it alone held waits to be drained. Takes no memory.
    pub fn drop_snap(&mut self, snapshot: Epoch) -> Result<(), Fault>
        // A `drop_snap` leaves what the world with numbers leaves, or is refused as there.
        ensures { Leads (IsTold (Call.SnapshotOrCleaner (on.Drop snapshot)) result
            (λ _. Answer.Nothing)) self.old self.new }
    {
        let drop = Call::SnapshotOrCleaner(SnapshotOrCleanerCall::Drop(snapshot));
        let answer = self.call(drop)?;
        check_nothing(answer);
        Ok(())
    }

    /// Reads the tree as it was when a snapshot was made.
    pub fn show(&mut self, snapshot: Epoch) -> Result<Tree, Fault>
        // A `show` tells the tree that the world with numbers has of the snapshot, or is refused as there.
        ensures { Leads (IsToldOrStarved (Call.SnapshotOrCleaner (on.Show snapshot)) result
            (λ tree. Answer.Tree tree)) self.old self.new }
    {
        let show = Call::SnapshotOrCleaner(SnapshotOrCleanerCall::Show(snapshot));
        let answer = self.call(show)?;
        Ok(tree_of(answer))
    }

    /// Releases the first records that no snapshot holds, at most so many, and tells how many.
    pub fn drain(&mut self, most: u64) -> Result<u64, Fault>
        // A `drain` tells how many records the world with numbers releases, or is refused as there.
        ensures { Leads (IsToldOrStarved (Call.SnapshotOrCleaner (on.Drain most)) result
            (λ count. Answer.Count count)) self.old self.new }
    {
        let drain = Call::SnapshotOrCleaner(SnapshotOrCleanerCall::Drain(most));
        let answer = self.call(drain)?;
        Ok(count_of(answer))
    }
}
