//! The calls on snapshots, and the cleaners.

use nv_base::{Epoch, Ino};

/// A call on snapshots, each of which is named by the epoch that it closed, or a cleaner of the log of one inode, which is
/// given by its number: also of one that is gone and not yet erased. A cleaner changes no node, now or at a living snapshot.
#[derive(Clone, Copy, Debug, PartialEq, Eq)]
pub enum SnapshotOrCleanerCall {
    /// Makes a snapshot of all nodes as they are.
    Snap,
    /// Drops a snapshot: what no older one holds either is deferred.
    Drop(Epoch),
    /// Asks for the tree as it was when a snapshot was made.
    Show(Epoch),
    /// Releases the first deferred records, at most so many: a number outside 1 to [`nv_base::limits::DRAIN`] counts as
    /// the nearest of these.
    Drain(u64),
    /// Unlinks whole log pages that nothing needs, and answers how many entries and pages the log lost.
    Fast(Ino),
    /// Moves the entries that something needs to as few log pages as they fill, and answers how many entries and pages the
    /// log lost. It takes these pages before it gives any back.
    Thorough(Ino),
    /// Does as `Thorough` where less than half of the entries would stay, and else as `Fast`.
    Auto(Ino),
}
