//! Snapshots are made and dropped, and what they held is released.

ghost use Rattle.std.specs.Prelude.{◌≡◌, ◌<◌};
ghost use Rattle.nv_calls.specs.declared.answer.Answer.TheVariants as answers;
ghost use Rattle.nv_calls.specs.declared.snapshot_or_cleaner_call.SnapshotOrCleanerCall.TheVariants as on;
ghost use Rattle.nv_c.specs.Worlds.{Calls, CallsSurely, OnWorld};

use crate::held::Held;
use crate::slot::Nova;
use crate::status::NO_WORLD;
use crate::told::{tell_count, tell_done, tell_snapshot};
use nv_base::Epoch;
use nv_calls::{Answer, Call};
use std::alloc::Global;

impl Held {
    fn snap(&mut self, snapshot: &mut u64) -> u32
        ensures told { CallsSurely (Call.SnapshotOrCleaner on.Snap) result
            (answers.Snapshot snapshot.new) self.old self.new }
        ensures kept { 0 < result → snapshot.new ≡ snapshot.old }
    {
        tell_snapshot(self.files.snap(), snapshot)
    }

    fn drop_snap(&mut self, snapshot: u64) -> u32
        ensures told { CallsSurely (Call.SnapshotOrCleaner (on.Drop snapshot)) result
            (answers.Nothing) self.old self.new }
    {
        tell_done(self.files.drop_snap(Epoch::new(snapshot)))
    }

    fn drain(&mut self, most: u64, count: &mut u64) -> u32
        ensures told { Calls (Call.SnapshotOrCleaner (on.Drain most)) result
            (answers.Count count.new) self.old self.new }
        ensures kept { 0 < result → count.new ≡ count.old }
    {
        tell_count(self.files.drain(most), count)
    }
}

/// Makes a snapshot of all nodes as they are. Takes no memory.
#[unsafe(no_mangle)]
pub extern "C" fn nova_snap(alloc: Global, nova: &mut Nova, snapshot: &mut u64) -> u32
    // The status tells what the world with numbers tells of a `snap`, and the number of the snapshot.
    ensures told { OnWorld nova.old.world.held nova.new.world.held result
        (CallsSurely (Call.SnapshotOrCleaner on.Snap) result (answers.Snapshot snapshot.new)) }
    // A call that is refused leaves the other places as they were.
    ensures kept { 0 < result → snapshot.new ≡ snapshot.old }
{
    let Some(mut held) = nova.take(alloc) else {
        return NO_WORLD;
    };
    let status = held.snap(snapshot);
    nova.fill(held);
    status
}

/// Drops a snapshot: what it alone held waits to be drained. Takes no memory.
#[unsafe(no_mangle)]
pub extern "C" fn nova_drop_snap(alloc: Global, nova: &mut Nova, snapshot: u64) -> u32
    // The status tells what the world with numbers tells of a `drop_snap`.
    ensures told { OnWorld nova.old.world.held nova.new.world.held result
        (CallsSurely (Call.SnapshotOrCleaner (on.Drop snapshot)) result (answers.Nothing)) }
{
    let Some(mut held) = nova.take(alloc) else {
        return NO_WORLD;
    };
    let status = held.drop_snap(snapshot);
    nova.fill(held);
    status
}

/// Releases the first records that no snapshot holds, at most so many, and tells how many.
#[unsafe(no_mangle)]
pub extern "C" fn nova_drain(alloc: Global, nova: &mut Nova, most: u64, count: &mut u64) -> u32
    // The status tells what the world with numbers tells of a `drain`, and how many records it released.
    ensures told { OnWorld nova.old.world.held nova.new.world.held result
        (Calls (Call.SnapshotOrCleaner (on.Drain most)) result (answers.Count count.new)) }
    // A call that is refused leaves the other places as they were.
    ensures kept { 0 < result → count.new ≡ count.old }
{
    let Some(mut held) = nova.take(alloc) else {
        return NO_WORLD;
    };
    let status = held.drain(most, count);
    nova.fill(held);
    status
}
